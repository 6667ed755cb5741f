//! What the words of a command line give, in a reader's words: each law is stated as the contract of a function that does nothing.

ghost use Rattle.std.specs.Prelude.{◌≡◌, ◌↔◌, ◌≤◌, ℕ, List, [], ◌∷◌, ◌++◌, IsTrue, Ok, Some, codes, length, option_map};
ghost use Rattle.word_model.specs.Numbers.{decimal};
ghost use Rattle.text_io.specs.declared.kinds.LimitKind.TheVariants.{Recorded};
ghost use Rattle.text_io.specs.Limits.{common_limit};
ghost use Rattle.script_model.specs.Generator.{generated};
ghost use Rattle.script_model.specs.Reading.{reading};
ghost use Rattle.script_model.specs.Syntax.{Item, Script as ScriptModel};
ghost use Rattle.script_model.specs.TraceLines.{TraceLine};
ghost use Rattle.page_model.specs.Outcome.{trace};
ghost use Rattle.trace_summary.specs.Counts.{IsTrace};
ghost use Rattle.trace_judge.specs.Lines.{lines_of};
ghost use Rattle.trace_judge.specs.Recordings.{script_of, trace_of};
ghost use Rattle.loop_lint.specs.Promises.{RunsSteadily, RunsQuietly};
ghost use Rattle.loop_lint.specs.Verdicts.{is_steady, is_quiet};
ghost use Rattle.run_replies.specs.Replies.{done_with};
ghost use Rattle.run_replies.specs.Words.{asked, number_of};
ghost use Rattle.run_replies.specs.declared.status.Status.TheVariants.{Done};
ghost use Rattle.run_replies.specs.declared.words.Job.TheVariants.{Lint, Print};
ghost use Rattle.run_replies.specs.declared.words.Words.TheVariants.{Generated, Judge, Script};
ghost use Rattle.replay_run.specs.Replies.{reply};
ghost use Rattle.replay_run.specs.ReaderLaws.{steady_line, quiet_line};

use loop_lint::laws::{
    quiet_scripts_report_no_errors, steady_scripts_have_steady_loops, verdicts_rest_on_handlers,
};
use script_generator::generated_text_is_a_script;
use trace_judge::equal_exactly_where_the_same;
use trace_text::line_ends_once;

/// `--generate N` writes the generated text of N, which is a script, and ends with `Done`.
pub fn a_number_gives_its_script()
    ensures asked { (word : List ℕ) → asked (codes "--generate" ∷ word ∷ []) ≡ option_map (Generated Print) (number_of word) }
    ensures written { (number : ℕ) (source : List ℕ) → reply (Generated Print number) source ≡ done_with (generated number) }
    ensures script { (number : ℕ) → (script : ScriptModel) × (reading (generated number) ≡ Ok script) }
{
    generated_text_is_a_script();
}

/// A judgement ends with `Done` exactly if the recorded bytes are the trace of the script, and then it is `equal N`, where N is the number
/// of lines of that trace: whichever trace lines make up the text, there are as many of them.
pub fn a_judgement_is_done_where_the_traces_are_the_same()
    ensures asked { asked (codes "--judge" ∷ []) ≡ Some Judge }
    ensures done { (source : List ℕ) → length source ≤ common_limit Recorded →
        ((reply Judge source).status ≡ Done) ↔ (trace (script_of source) ≡ trace_of source) }
    ensures written { (source : List ℕ) → length source ≤ common_limit Recorded → trace (script_of source) ≡ trace_of source →
        (reply Judge source).text ≡ codes "equal " ++ decimal (length (lines_of (trace (script_of source)))) ++ (10 ∷ []) }
    ensures lines { (text : List ℕ) (lines : List TraceLine) → IsTrace text lines → length (lines_of text) ≡ length lines }
{
    // the laws on which these rest
    equal_exactly_where_the_same();
    line_ends_once();
}

/// `--lint` writes two lines for a script. The first one is `steady` exactly if no loop handler contains an `append`, `before` or `remove`,
/// and then each resize loop of every run of the script goes deeper from round to round. The second one is `quiet` exactly if no loop
/// handler contains a command that can disturb a loop, and then no run of the script has a line of the loop error.
pub fn certificates_hold_for_each_run()
    ensures asked { asked (codes "--lint" ∷ []) ≡ Some (Script Lint) }
    ensures written { (source : List ℕ) (script : ScriptModel) → reading source ≡ Ok script →
        reply (Script Lint) source ≡ done_with (steady_line script.items ++ quiet_line script.items) }
    ensures steady { (items : List Item) → (steady_line items ≡ codes "steady\n") ↔ IsTrue (is_steady items) }
    ensures quiet { (items : List Item) → (quiet_line items ≡ codes "quiet\n") ↔ IsTrue (is_quiet items) }
    ensures runs_steadily { (items : List Item) → steady_line items ≡ codes "steady\n" → RunsSteadily items }
    ensures runs_quietly { (items : List Item) → quiet_line items ≡ codes "quiet\n" → RunsQuietly items }
{
    // the laws on which these rest
    steady_scripts_have_steady_loops();
    quiet_scripts_report_no_errors();
    verdicts_rest_on_handlers();
}
