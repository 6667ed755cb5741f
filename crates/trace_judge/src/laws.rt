//! Laws of lines and judgements, each stated as the contract of a function with an empty body.

ghost use Rattle.std.specs.Prelude.{◌≡◌, ◌≢◌, ◌↔◌, ◌⊎◌, ◌<◌, ◌-◌, ℕ, true, List, [], ◌++◌, length, take};
ghost use Rattle.std.specs.List.{concat};
ghost use Rattle.script_model.specs.TraceLines.{TraceLine as LineModel};
ghost use Rattle.script_model.specs.TraceText.{line_text};
ghost use Rattle.trace_text.specs.Ranges.{IsLine};
ghost use Rattle.trace_judge.specs.declared.judgement.Judgement.TheVariants.{Equal, Differs};
ghost use Rattle.trace_judge.specs.declared.judgement.How.{How};
ghost use Rattle.trace_judge.specs.Lines.{lines_of, is_trace_line};
ghost use Rattle.trace_judge.specs.Judging.{judgement};
ghost use Rattle.trace_judge.specs.Recordings.{is_divider, script_of, trace_of};

/// A text is the concatenation of its lines.
pub fn lines_make_the_text()
    ensures { (text : List ℕ) → concat (lines_of text) ≡ text }
{}

/// A text is a line of a trace exactly where it is the text of a line within the ranges.
pub fn what_a_trace_line_is()
    ensures { (text : List ℕ) → (is_trace_line text ≡ true) ↔ ((line : LineModel) × IsLine line × (line_text line ≡ text)) }
{}

/// A trace is judged equal exactly where it has the expected bytes, and with the number of its lines.
pub fn equal_exactly_where_the_same()
    ensures { (expected recorded : List ℕ) (lines : ℕ) → (judgement expected recorded ≡ Equal lines) ↔ ((expected ≡ recorded) × (lines ≡ length (lines_of expected))) }
{}

/// Where a trace differs, the line is the first one that isn't the same in both: those before it are.
pub fn lines_before_a_difference_are_the_same()
    ensures { (expected recorded : List ℕ) (line : ℕ) (how : How) → judgement expected recorded ≡ Differs line how
        → (0 < line) × (take (line - 1) (lines_of expected) ≡ take (line - 1) (lines_of recorded)) × (take line (lines_of expected) ≢ take line (lines_of recorded)) }
{}

/// A source is the concatenation of its script, a line `trace` and its recorded trace; or it is a script alone.
pub fn a_source_is_its_parts()
    ensures { (source : List ℕ) → ((script_of source ≡ source) × (trace_of source ≡ []))
        ⊎ ((line : List ℕ) × (is_divider line ≡ true) × (script_of source ++ (line ++ trace_of source) ≡ source)) }
{}
