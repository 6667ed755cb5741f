//! Laws about the depths of rounds, and so about their number.

ghost use Rattle.std.specs.Prelude.{◌≡◌, ◌<◌, ℕ, IsTrue};
ghost use Rattle.page_model.specs.World.{World};
ghost use Rattle.page_model.specs.Callbacks.{Script};
ghost use Rattle.page_laws.specs.Bounds.{IsWithinLimits};
ghost use Rattle.loop_laws.specs.Rounds.{goes_on, round_depth, IsDeeper};
ghost use Rattle.loop_laws.specs.Uprooting.{uprootings};
ghost use Rattle.loop_laws.specs.WholeLoops.{round_starts, GoesDeeper, HasFewRounds};

/// A round that was gathered at a depth delivers only deeper targets, unless a command of that round uproots what was gathered: an
/// `append`, `before` or `remove` that takes effect and removes from its parent an element that is then an inclusive ancestor of a
/// gathered target.
pub fn rounds_go_deeper()
    ensures { (script : Script) (document depth : ℕ) (world : World) → IsWithinLimits world → IsDeeper document depth world →
        IsTrue (goes_on document world) → uprootings script document world ≡ 0 → depth < round_depth script document world }
{}

/// In each resize loop the depth of a round is greater than that of the round before it, and that of the first round greater than 0, unless
/// a command of that very round uproots what was gathered.
pub fn loops_go_deeper()
    ensures { (script : Script) (document : ℕ) (world : World) → IsWithinLimits world →
        GoesDeeper script document 0 (round_starts script document world) }
{}

/// A loop with m such commands that delivers nothing deeper than H has at most (m + 1) * H rounds, including one that a limit
/// interrupts.
pub fn loops_have_few_rounds()
    ensures { (script : Script) (document : ℕ) (world : World) → IsWithinLimits world →
        HasFewRounds script document world }
{}
