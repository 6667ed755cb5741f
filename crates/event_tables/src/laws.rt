//! Taking the entries of a batch one after the other runs what the definitions run.

ghost use Rattle.std.specs.Prelude.{◌≡◌, Bool, List, find, map};
ghost use Rattle.page_model.specs.World.{World, Listener, FrameCallback, Timer};
ghost use Rattle.page_model.specs.Callbacks.{Script};
ghost use Rattle.page_model.specs.Ticks.{run_timer};
ghost use Rattle.page_model.specs.Timers.{timer_stands};
ghost use Rattle.page_model.specs.Runs.{Said};
ghost use Rattle.event_tables.specs.Handed.{behind_first, one_by_one, run_and_then};
ghost use Rattle.event_tables.specs.Timers.{callback_of, copied_stands, timer_of};

/// Taking one entry after the other, each only if it is still registered then, runs what the definitions run of the entries
/// that they copied: the first that is still registered, then those after it, whatever running it does to the world.
#[tactic(auto, using(crate::proofs::Handing::first_runs, crate::proofs::Handing::timers_run))]
pub fn handing_out_runs_each_that_stands()
    ensures listeners { (stands : Listener → World → Bool) (run : Listener → World → Said World) (copied : List Listener) (world : World) → one_by_one stands run copied world ≡ run_and_then stands run (find (λ it. stands it world) copied) (behind_first (λ it. stands it world) copied) world }
    ensures callbacks { (stands : FrameCallback → World → Bool) (run : FrameCallback → World → Said World) (copied : List FrameCallback) (world : World) → one_by_one stands run copied world ≡ run_and_then stands run (find (λ it. stands it world) copied) (behind_first (λ it. stands it world) copied) world }
    ensures timers { (script : Script) (copied : List Timer) (world : World) → one_by_one (λ timer now. timer_stands timer now.timers) (run_timer script) copied world ≡ one_by_one (λ it now. copied_stands now.timers it) (λ it. run_timer script (timer_of it)) (map callback_of copied) world }
{}
