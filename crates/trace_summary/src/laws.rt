//! Laws of traces and summaries, each stated as the contract of a function that does nothing.

ghost use Rattle.std.specs.Prelude.{◌≡◌, ℕ, List};
ghost use Rattle.script_model.specs.Summary.{summary_text};
ghost use Rattle.script_model.specs.TraceLines.{TraceLine};
ghost use Rattle.trace_summary.specs.Counts.{IsTrace, summary_of, rows_text};

use trace_text::{line_ends_once, text_has_one_line};

/// No two different lists of lines have the same text.
pub fn a_text_has_one_trace()
    ensures { (text : List ℕ) (a b : List TraceLine) → IsTrace text a → IsTrace text b → a ≡ b }
{
    // the laws on which this one rests
    line_ends_once();
    text_has_one_line();
}

/// What is written for the counts of a trace's lines is the summary of these lines.
#[tactic(auto, using(crate::proofs::Counting::rows_are))]
pub fn rows_are_the_summary()
    ensures { (lines : List TraceLine) → rows_text (summary_of lines) ≡ summary_text lines }
{}
