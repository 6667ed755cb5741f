//! The timers that are due when a tick begins (HTML, timers).

ghost use Rattle.std.specs.Prelude.{Some};
ghost use Rattle.handlers.specs.Runs.{handlers_of, world_of};
ghost use Rattle.frame_update.specs.Goes.{Goes, IsUnderWay};
ghost use Rattle.script_model.specs.TraceLines.{TimerLine};
ghost use Rattle.page_model.specs.Callbacks.{NoEntries, call};
ghost use Rattle.page_model.specs.Names.{document_text};
ghost use Rattle.page_model.specs.Runs.{say, ◌followed_by◌};
ghost use Rattle.page_model.specs.Ticks.{line_while_active, run_timers};

use crate::run::call_handler;
use element_tree::DocumentId;
use event_tables::{EventTarget, HandlerId};
use handlers::{Entries, Run};
use page_state::Label;
use std::sync::ledger::Ledger;
use text_io::{Name, Sink};
use trace_runs::{RunFault, write_one};
use trace_text::TraceLine;

// Runs a timer that was removed from the table, if its document is Active: its line, and its callback.
fn run_timer<K: Sink, L: Ledger>(
    run: &mut Run<K, L>,
    document: DocumentId,
    key: Name,
    handler: HandlerId,
) -> Result<(), RunFault>
    requires ready { IsUnderWay run.old }
    ensures { Goes K.taken K.faults run.old run.new result
        (say (line_while_active (world_of run.old).tree document.0 (TimerLine (document_text (world_of run.old).names document.0) key)) (world_of run.old)
        followed_by call (handlers_of run.old) document.0 (Some handler.0) NoEntries) }
{
    if !run.page.is_active(document) {
        return Ok(());
    }
    let name = run
        .page
        .label(Label::Target(EventTarget::Document(document)));
    write_one(run.alloc, &TraceLine::Timer(name, key), run.sink)?;
    call_handler(run, document, Some(handler), &Entries::Nothing)
}

/// Runs the timers that are due at the clock's time, each if it is still set at its turn (HTML, timers).
pub(crate) fn run_timers<K: Sink, L: Ledger>(run: &mut Run<K, L>) -> Result<(), RunFault>
    requires ready { IsUnderWay run.old }
    ensures { Goes K.taken K.faults run.old run.new result (run_timers (handlers_of run.old) (world_of run.old)) }
{
    let Ok(mut due) = run.page.take_due() else {
        return Err(RunFault::Memory);
    };
    while let Some(timer) = run.page.next_timer(&mut due) {
        let (document, key, handler) = timer;
        run_timer(run, document, key, handler)?;
    }
    Ok(())
}
