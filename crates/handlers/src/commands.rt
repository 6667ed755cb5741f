//! Running commands with their blocks.

ghost use Rattle.script_syntax.specs.Allowed.{IsAllowed, TestAllowed};
ghost use Rattle.script_syntax.specs.Seen.{command_of, condition_of};
ghost use Rattle.page_model.specs.Callbacks.{answered, presents, run_block, run_command};
ghost use Rattle.page_model.specs.Commands.{holds};
ghost use Rattle.page_model.specs.Runs.{for_each, only_if};
ghost use Rattle.trace_runs.specs.Flows.{flow_of};
ghost use Rattle.handlers.specs.Entries.{entries_of, present_at, AreIn};
ghost use Rattle.handlers.specs.Runs.{handlers_of, world_of, Carries, IsHeld, StaysReady};

use crate::entries::{Entries, subject_at};
use crate::run::Run;
use crate::steps::{apply, refuse};
use page_laws::runs_take_nothing_back;
use script_syntax::{Command, CommandList, Condition, What};
use std::sync::ledger::Ledger;
use text_io::Sink;
use trace_runs::{Flow, RunFault, write_throw};

/// Begins a command, runs it with its block, for the entry at an index of `entries` if there is one, and writes its lines.
/// Outside handlers there are no entries.
///
/// Returns `Thrown` if it threw, after writing the exception. A page that was ready for a tick of the script is still so,
/// whatever is returned (`IsReadyFor`).
///
/// # Errors
/// - `Limit` only if a limit is met, and then never `Ok`; all but the limit's own line was written, and the page's world is
///   that of the definition at the limit.
/// - `Memory`, and `WriteFault` only if the sink's fault count rose in this call; either may come before a limit. A prefix of
///   the lines was written, and of the page's world, which may be one inside of a step, only that it is ready is said.
#[cycle(blocks)]
pub fn run_command<K: Sink, L: Ledger>(
    run: &mut Run<K, L>,
    command: &Command,
    entries: &Entries,
    subject: Option<usize>,
) -> Result<Flow, RunFault>
    requires allowed { IsAllowed command.now }
    requires targets { AreIn (world_of run.old) (presents (entries_of entries.now)) }
    ensures says { Carries flow_of K.taken K.faults run.old run.new result
        (run_command (handlers_of run.old) (presents (entries_of entries.now)) (command_of command.now) (present_at (presents (entries_of entries.now)) subject) (world_of run.old)) }
    ensures ready { StaysReady run.old run.new }
    ensures held { IsHeld run.old run.new }
{
    if let Err(fault) = run.page.begin_command() {
        return refuse(run.alloc, command.line, fault, run.page.version(), run.sink);
    }
    match &command.what {
        What::Act(action) => {
            let present = subject_at(entries, subject);
            apply(run, command.line, action, present)
        }
        What::Each(body) => run_each(run, &body.commands, entries),
        What::When(condition, body) => run_when(
            run,
            command.line,
            condition,
            &body.commands,
            entries,
            subject,
        ),
    }
}

// Runs an `each` that was begun: its block for each of the entries.
#[cycle(blocks)]
fn run_each<K: Sink, L: Ledger>(
    run: &mut Run<K, L>,
    block: &CommandList,
    entries: &Entries,
) -> Result<Flow, RunFault>
    requires targets { AreIn (world_of run.old) (presents (entries_of entries.now)) }
    ensures says { Carries flow_of K.taken K.faults run.old run.new result
        (for_each (run_block (handlers_of run.old) (presents (entries_of entries.now)) block.now) (presents (entries_of entries.now)) (world_of run.old)) }
    ensures ready { StaysReady run.old run.new }
    ensures held { IsHeld run.old run.new }
{
    runs_take_nothing_back();
    for place in 0..entries.count() {
        match run_block(run, block, entries, Some(place)) {
            Ok(Flow::Next) => {}
            Ok(Flow::Thrown) => return Ok(Flow::Thrown),
            Err(fault) => return Err(fault),
        }
    }
    Ok(Flow::Next)
}

// Runs a `when` that was begun: its block if the condition holds.
#[cycle(blocks)]
fn run_when<K: Sink, L: Ledger>(
    run: &mut Run<K, L>,
    line: u32,
    condition: &Condition,
    block: &CommandList,
    entries: &Entries,
    subject: Option<usize>,
) -> Result<Flow, RunFault>
    requires allowed { TestAllowed condition.now.asks }
    requires targets { AreIn (world_of run.old) (presents (entries_of entries.now)) }
    ensures says { Carries flow_of K.taken K.faults run.old run.new result
        (answered line (world_of run.old)
        (only_if (run_block (handlers_of run.old) (presents (entries_of entries.now)) block.now (present_at (presents (entries_of entries.now)) subject)) (world_of run.old))
        (holds (world_of run.old) (present_at (presents (entries_of entries.now)) subject) (condition_of condition.now))) }
    ensures ready { StaysReady run.old run.new }
    ensures held { IsHeld run.old run.new }
{
    let present = subject_at(entries, subject);
    match run
        .page
        .holds(condition, present.target, present.meets, run.steps)
    {
        Ok(true) => run_block(run, block, entries, subject),
        Ok(false) => Ok(Flow::Next),
        Err(kind) => write_throw(run.alloc, line, kind, run.sink),
    }
}

/// Runs the commands of a block, for the entry at an index of `entries` if there is one. The errors are those of
/// `run_command`.
#[cycle(blocks)]
pub(crate) fn run_block<K: Sink, L: Ledger>(
    run: &mut Run<K, L>,
    block: &CommandList,
    entries: &Entries,
    subject: Option<usize>,
) -> Result<Flow, RunFault>
    requires targets { AreIn (world_of run.old) (presents (entries_of entries.now)) }
    ensures says { Carries flow_of K.taken K.faults run.old run.new result
        (run_block (handlers_of run.old) (presents (entries_of entries.now)) block.now (present_at (presents (entries_of entries.now)) subject) (world_of run.old)) }
    ensures ready { StaysReady run.old run.new }
    ensures held { IsHeld run.old run.new }
{
    runs_take_nothing_back();
    for command in block.as_slice() {
        match run_command(run, command, entries, subject) {
            Ok(Flow::Next) => {}
            Ok(Flow::Thrown) => return Ok(Flow::Thrown),
            Err(fault) => return Err(fault),
        }
    }
    Ok(Flow::Next)
}
