//! Laws about the rounds of a resize loop and the error event after them.

ghost use Rattle.std.specs.Prelude.{◌≡◌, ◌<◌, ◌&&◌, ℕ, IsTrue, false};
ghost use Rattle.page_model.specs.World.{World};
ghost use Rattle.page_model.specs.Documents.{is_active};
ghost use Rattle.page_model.specs.Runs.{Next, silent, ◌followed_by◌, only_if, most_steps};
ghost use Rattle.page_model.specs.Callbacks.{Script};
ghost use Rattle.page_model.specs.Loop.{gather, round, report_skipped, resize_loop};
ghost use Rattle.page_laws.specs.Bounds.{IsWithinLimits};
ghost use Rattle.loop_laws.specs.Rounds.{goes_on, rounds_up_to, round_depth, IsDeeper, rounds_left};
ghost use Rattle.loop_laws.specs.WholeLoops.{resize_rounds, has_undelivered, fire_error};

/// No resize loop is cut off by the bound on its recursion. The targets gathered at a depth are deeper than that, and a round that begins
/// with them and leaves its document Active ends with gathering at a depth again; by then a command has begun, or the depth is greater. So
/// `rounds_left` falls with each round, and the loop is the same with any bound above it: its rounds can be unrolled one by one without
/// lowering the bound, and it ends when nothing is left to deliver or its document is no longer Active, unless a limit was met before.
pub fn resize_loops_come_to_rest()
    ensures gathered { (document depth : ℕ) (world : World) → IsDeeper document depth (gather document depth world) }
    ensures falls { (script : Script) (document depth : ℕ) (world : World) → IsWithinLimits world → IsDeeper document depth world →
        IsTrue (goes_on document world) → (round script document world).flow ≡ Next →
        IsTrue (is_active ((round script document world).state.tree) document) →
        IsDeeper document (round_depth script document world) (round script document world).state
        × (rounds_left ((round script document world).state) (round_depth script document world) < rounds_left world depth) }
    ensures begins { (world : World) → rounds_left world 0 < most_steps }
    ensures same { (script : Script) (document : ℕ) (world : World) (depth : ℕ) → IsWithinLimits world → IsDeeper document depth world →
        (most more : ℕ) → rounds_left world depth < most → rounds_left world depth < more →
        rounds_up_to most script document world ≡ rounds_up_to more script document world }
    ensures unrolled { (script : Script) (document : ℕ) (world : World) (depth : ℕ) → IsWithinLimits world → IsDeeper document depth world →
        (most : ℕ) → rounds_left world depth < most → IsTrue (goes_on document world) →
        rounds_up_to most script document world ≡ (round script document world followed_by rounds_up_to most script document) }
    ensures ended { (script : Script) (document : ℕ) (world : World) (most : ℕ) → goes_on document world ≡ false →
        rounds_up_to most script document world ≡ silent world }
    ensures rests { (script : Script) (document : ℕ) (world : World) (depth : ℕ) → IsWithinLimits world → IsDeeper document depth world →
        (most : ℕ) → rounds_left world depth < most → (rounds_up_to most script document world).flow ≡ Next →
        goes_on document (rounds_up_to most script document world).state ≡ false }
    ensures loops { (script : Script) (document : ℕ) (world : World) → IsWithinLimits world → (most : ℕ) → rounds_left world 0 < most →
        resize_loop script document world
        ≡ (rounds_up_to most script document (gather document 0 world) followed_by report_skipped script document) }
{}

/// The loop error is fired exactly where the rounds ended with the document Active and a target of one of its observers has, at that
/// moment, a size that differs from its last reported one.
pub fn loop_errors_are_exact()
    ensures { (script : Script) (document : ℕ) (world : World) → IsWithinLimits world →
        resize_loop script document world
        ≡ (resize_rounds script document world
        followed_by (λ now. only_if (fire_error script document) now (is_active (now.tree) document && has_undelivered document now))) }
{}
