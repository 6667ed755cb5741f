//! Laws about running the queued tasks.

ghost use Rattle.std.specs.Prelude.{◌≡◌, ◌<◌, ℕ, IsTrue, false};
ghost use Rattle.page_model.specs.World.{World};
ghost use Rattle.page_model.specs.Tasks.{has_tasks};
ghost use Rattle.page_model.specs.Runs.{Next, silent, ◌followed_by◌, most_steps};
ghost use Rattle.page_model.specs.Callbacks.{Script};
ghost use Rattle.page_model.specs.Ticks.{run_first, run_tasks};
ghost use Rattle.page_laws.specs.Bounds.{IsWithinLimits};
ghost use Rattle.loop_laws.specs.TaskRuns.{tasks_up_to, tasks_left};

/// Running the tasks is never cut off by the bound on its recursion. Each task is dequeued before it is run, and a command posts at most
/// one task, so `tasks_left`, the queued tasks plus the commands that can still begin, falls with each task. The run is the same with any
/// bound above it: its tasks can be unrolled one by one without lowering the bound, and it ends when no task is queued any more, unless
/// a limit was met before.
pub fn runs_of_tasks_come_to_rest()
    ensures falls { (script : Script) (world : World) → IsWithinLimits world → IsTrue (has_tasks (world.tasks)) →
        tasks_left ((run_first script (world.tasks) world).state) < tasks_left world }
    ensures begins { (world : World) → IsWithinLimits world → tasks_left world < most_steps }
    ensures same { (script : Script) (world : World) → IsWithinLimits world → (most more : ℕ) → tasks_left world < most → tasks_left world < more →
        tasks_up_to most script world ≡ tasks_up_to more script world }
    ensures unrolled { (script : Script) (world : World) → IsWithinLimits world → (most : ℕ) → tasks_left world < most → IsTrue (has_tasks (world.tasks)) →
        tasks_up_to most script world ≡ (run_first script (world.tasks) world followed_by tasks_up_to most script) }
    ensures ended { (script : Script) (world : World) (most : ℕ) → has_tasks (world.tasks) ≡ false → tasks_up_to most script world ≡ silent world }
    ensures rests { (script : Script) (world : World) → IsWithinLimits world → (most : ℕ) → tasks_left world < most →
        (tasks_up_to most script world).flow ≡ Next → has_tasks ((tasks_up_to most script world).state.tasks) ≡ false }
    ensures runs { (script : Script) (world : World) → IsWithinLimits world → (most : ℕ) → tasks_left world < most →
        run_tasks script world ≡ tasks_up_to most script world }
{}
