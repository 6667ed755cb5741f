//! Queued tasks (HTML, 8.1.7).

ghost use Rattle.std.specs.Prelude.{◌≡◌, ◌<◌, length};
ghost use Rattle.script_model.specs.Scripts.{handlers_in};
ghost use Rattle.handlers.specs.Runs.{handlers_of, world_of};
ghost use Rattle.frame_update.specs.Goes.{Goes, IsUnderWay};
ghost use Rattle.frame_update.specs.Ready.{IsPrepared};
ghost use Rattle.page_laws.specs.Ready.{with_first};
ghost use Rattle.page_model.specs.Ticks.{run_task, run_tasks};
ghost use Rattle.page_model.specs.Callbacks.{handler_text};
ghost use Rattle.page_model.specs.World.{Posted};
ghost use Rattle.event_tables.specs.Seen.{seen_task};

use crate::notify::notify;
use crate::run::call_handler;
use element_tree::DocumentId;
use event_tables::{EventTarget, HandlerId, Task};
use handlers::{Entries, Run};
use loop_laws::runs_of_tasks_come_to_rest;
use page_state::Label;
use script_syntax::Script;
use std::sync::ledger::Ledger;
use text_io::{Name, Sink};
use trace_runs::{RunFault, write_one};
use trace_text::TraceLine;

// Runs a posted task, if its document is Active: its line, and its callback.
fn run_posted<K: Sink, L: Ledger>(
    run: &mut Run<K, L>,
    document: DocumentId,
    handler: HandlerId,
) -> Result<(), RunFault>
    requires ready { IsUnderWay run.old }
    requires handler { handler.0 < length (handlers_of run.old) }
    ensures { Goes K.taken K.faults run.old run.new result (run_task (handlers_of run.old) (Posted document.0 handler.0) (world_of run.old)) }
{
    if !run.page.is_active(document) {
        return Ok(());
    }
    let name = run
        .page
        .label(Label::Target(EventTarget::Document(document)));
    let line = TraceLine::Task(name, handler_name(run.script, handler));
    write_one(run.alloc, &line, run.sink)?;
    call_handler(run, document, Some(handler), &Entries::Nothing)
}

// Runs a task that was popped.
fn run_task<K: Sink, L: Ledger>(run: &mut Run<K, L>, task: Task) -> Result<(), RunFault>
    requires ready { IsPrepared run.old.script.now.items (with_first (seen_task task) (world_of run.old)) }
    ensures { Goes K.taken K.faults run.old run.new result (run_task (handlers_of run.old) (seen_task task) (world_of run.old)) }
{
    match task {
        Task::Notify(document) => notify(run, document),
        Task::Posted(document, handler) => run_posted(run, document, handler),
    }
}

/// Pops and runs the first task, until none is left (HTML, 8.1.7).
pub(crate) fn run_tasks<K: Sink, L: Ledger>(run: &mut Run<K, L>) -> Result<(), RunFault>
    requires ready { IsUnderWay run.old }
    ensures { Goes K.taken K.faults run.old run.new result (run_tasks (handlers_of run.old) (world_of run.old)) }
{
    runs_of_tasks_come_to_rest();
    while let Some(task) = run.page.pop_task() {
        run_task(run, task)?;
    }
    Ok(())
}

// Returns the name of a handler.
fn handler_name(script: &Script, handler: HandlerId) -> Name
    requires { handler.0 < length (handlers_in script.now.items) }
    ensures { result ≡ handler_text (handlers_in script.now.items) handler.0 }
{
    script.handler(handler.0).unwrap().name
}
