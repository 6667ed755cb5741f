//! A tick.

ghost use Rattle.std.specs.Prelude.{◌≡◌};
ghost use Rattle.std.specs.List.{AllByRecursion};
ghost use Rattle.script_model.specs.Syntax.{Tick};
ghost use Rattle.script_syntax.specs.Allowed.{IsTime};
ghost use Rattle.page_model.specs.Outcome.{run_tick};
ghost use Rattle.page_model.specs.Runs.{caught};
ghost use Rattle.page_model.specs.Ticks.{tick};
ghost use Rattle.loop_laws.specs.RunLoops.{item_loops, IsExact};
ghost use Rattle.trace_runs.specs.Flows.{goes_on};
ghost use Rattle.frame_update.specs.Answers.{Refused};
ghost use Rattle.handlers.specs.Runs.{handlers_of, world_of, Carries, IsHeld};
ghost use Rattle.frame_update.specs.Goes.{Goes, IsUnderWay};
ghost use Rattle.frame_update.specs.Ready.{IsReady};

use crate::tasks::run_tasks;
use crate::timers::run_timers;
use crate::update::update_rendering;
use handlers::Run;
use loop_laws::listed_loops_are_exact;
use page_state::PageFault;
use std::alloc::Global;
use std::sync::ledger::Ledger;
use text_io::{Sink, Version};
use trace_runs::{RunFault, write_one};
use trace_text::TraceLine;

// Runs a tick whose time is set: the due timers, an update of the rendering, and the tasks.
fn run_parts<K: Sink, L: Ledger>(run: &mut Run<K, L>, time: u64) -> Result<(), RunFault>
    requires ready { IsUnderWay run.old }
    requires time { (world_of run.old).clock ≡ time }
    ensures { Goes K.taken K.faults run.old run.new result (tick (handlers_of run.old) (world_of run.old)) }
{
    write_one(run.alloc, &TraceLine::Tick(time), run.sink)?;
    run_timers(run)?;
    update_rendering(run)?;
    run_tasks(run)
}

// Handles the error of a call: an exception is written and ends the tick, a limit ends the run. The version is that of the
// page.
fn refuse<K: Sink>(
    alloc: Global,
    line: u32,
    fault: PageFault,
    version: Version,
    sink: &mut K,
) -> Result<(), RunFault>
    ensures { Refused version fault line result (K.taken sink.old) (K.taken sink.new) (K.faults sink.old) (K.faults sink.new) }
{
    match fault {
        PageFault::Throw(kind) => write_one(alloc, &TraceLine::Throw(line, kind), sink),
        PageFault::Limit(kind) => {
            let number = kind.number(version);
            Err(RunFault::Limit { kind, line, number })
        }
        PageFault::Memory => Err(RunFault::Memory),
    }
}

/// Runs a tick at a time in milliseconds, at most 1,000,000,000,000: it is counted as a command; a time before the clock's
/// throws, which is written, and the result is `Ok`. Then come the due timers, one update of the rendering, and the queued
/// tasks (HTML, event loops). The page is ready for a next tick, whatever is returned (`IsReady`).
///
/// In each of its resize loops a round is deeper than the one before, unless a command of that round removes an inclusive
/// ancestor of a target gathered in it from its parent; with m such commands, and H the greatest depth of a target that it
/// delivers, a loop has at most (m + 1) * H rounds; and the error event is fired exactly when the rounds ended with the
/// document Active and a target whose size differs from its last reported one (Resize Observer, 3.4). These loops are those
/// that write its lines of rounds and of loop errors (law `all_loops_are_listed` of `loop_laws`, clause `items`).
///
/// # Errors
/// - `Limit` only if a limit is met, and then never `Ok`; every line before the limit's own was written, and the page's world
///   is that of the definition at the limit.
/// - `Memory`, and `WriteFault` only if the sink's fault count rose in this call; either may come before a limit. A prefix of
///   the lines was written, and of the page's world, which may be one inside of a step, only that it is ready is said.
pub fn tick<K: Sink, L: Ledger>(run: &mut Run<K, L>, line: u32, time: u64) -> Result<(), RunFault>
    requires ready { IsReady run.old.script.now.items (world_of run.old) }
    requires time { IsTime time }
    ensures says { Carries goes_on K.taken K.faults run.old run.new result (caught (run_tick (handlers_of run.old) line time (world_of run.old))) }
    ensures loops { AllByRecursion (IsExact (handlers_of run.old)) (item_loops (handlers_of run.old) (Tick line time) (world_of run.old)) }
    ensures ready { IsReady run.old.script.now.items (world_of run.new) }
    ensures held { IsHeld run.old run.new }
{
    listed_loops_are_exact();
    if let Err(fault) = run.page.begin_command() {
        return refuse(run.alloc, line, fault, run.page.version(), run.sink);
    }
    if let Err(fault) = run.page.set_time(time) {
        return refuse(run.alloc, line, fault, run.page.version(), run.sink);
    }
    run_parts(run, time)
}
