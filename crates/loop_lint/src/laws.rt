//! What the certificates promise about every run of a script.

ghost use Rattle.std.specs.Prelude.{◌≡◌, IsTrue, false, List, ℕ, Ok, Bool};
ghost use Rattle.std.specs.List.{AllByRecursion};
ghost use Rattle.text_io.specs.declared.kinds.Version.{Version};
ghost use Rattle.script_model.specs.Syntax.{Action, Item, Script};
ghost use Rattle.script_model.specs.Scripts.{handlers_in};
ghost use Rattle.script_model.specs.Reading.{reading};
ghost use Rattle.page_model.specs.Outcome.{outcome};
ghost use Rattle.loop_laws.specs.RunLoops.{loops_of_run};
ghost use Rattle.loop_lint.specs.LoopHandlers.{HasHandlersOf, loop_handler_lines};
ghost use Rattle.loop_lint.specs.Verdicts.{is_steady, is_quiet};
ghost use Rattle.loop_lint.specs.RunLoops.{IsSteadyLoop, is_error_line};

/// In each resize loop of a steady script's run the depth of a round is greater than that of the round before it, and that of the first
/// round greater than 0; so a loop has at most as many rounds, including one that a limit interrupts, as the greatest depth of a target
/// that it delivers.
pub fn steady_scripts_have_steady_loops()
    ensures { (version : Version) (items : List Item) → IsTrue (is_steady items) →
        AllByRecursion (IsSteadyLoop (handlers_in items)) (loops_of_run version items) }
{}

/// The trace of a quiet script has no line of a loop error.
pub fn quiet_scripts_report_no_errors()
    ensures { (text : List ℕ) (script : Script) → reading text ≡ Ok script → IsTrue (is_quiet script.items) →
        AllByRecursion (λ line. is_error_line line ≡ false) (outcome text).lines }
{}

/// What a script contains outside handlers doesn't matter, except for its `ro` commands: with the same handlers and the same loop handlers,
/// the same commands are forbidden.
pub fn verdicts_rest_on_handlers()
    ensures { (test : Action → Bool) (items other : List Item) → HasHandlersOf items other →
        loop_handler_lines test other ≡ loop_handler_lines test items }
{}
