//! Firing an event (DOM, 2.9 and 2.10).

ghost use Rattle.handlers.specs.Runs.{handlers_of, world_of};
ghost use Rattle.frame_update.specs.Goes.{Goes, IsUnderWay};
ghost use Rattle.page_model.specs.Callbacks.{bubble, fire, invoke};
ghost use Rattle.event_tables.specs.Seen.{seen_target};
ghost use Rattle.trace_text.specs.Seen.{seen_event};

use crate::run::call_handler;
use event_tables::EventTarget;
use handlers::{Entries, Run};
use page_state::Label;
use std::sync::ledger::Ledger;
use text_io::{EventKind, Sink};
use trace_runs::{RunFault, write_one};
use trace_text::{EventLine, TraceLine};

// Calls the listeners at one target, copied when the event reaches it, each if it is still registered at its turn (DOM, 2.9:
// inner invoke).
fn invoke<K: Sink, L: Ledger>(
    run: &mut Run<K, L>,
    target: EventTarget,
    event: EventKind,
) -> Result<(), RunFault>
    requires ready { IsUnderWay run.old }
    ensures { Goes K.taken K.faults run.old run.new result (invoke (handlers_of run.old) (seen_target target) event (world_of run.old)) }
{
    let Ok(mut dispatch) = run.page.begin_dispatch(target, event) else {
        return Err(RunFault::Memory);
    };
    while let Some(handler) = run.page.next_listener(&mut dispatch) {
        // An element may have been adopted since.
        let (document, _) = run.page.callback_of(Label::Target(target));
        call_handler(run, document, Some(handler), &Entries::Nothing)?;
    }
    Ok(())
}

// A scroll event at a document bubbles to its window (CSSOM View, 13: scrolling).
fn bubble<K: Sink, L: Ledger>(
    run: &mut Run<K, L>,
    target: EventTarget,
    event: EventKind,
) -> Result<(), RunFault>
    requires ready { IsUnderWay run.old }
    ensures { Goes K.taken K.faults run.old run.new result (bubble (handlers_of run.old) (seen_target target) event (world_of run.old)) }
{
    match (target, event) {
        (EventTarget::Document(document), EventKind::Scroll) => {
            let window = EventTarget::Window(document);
            invoke(run, window, event)
        }
        _ => Ok(()),
    }
}

/// Fires an event (DOM, 2.10): writes its line, and then calls its listeners.
pub(crate) fn fire<K: Sink, L: Ledger>(
    run: &mut Run<K, L>,
    line: EventLine,
    target: EventTarget,
    event: EventKind,
) -> Result<(), RunFault>
    requires ready { IsUnderWay run.old }
    ensures { Goes K.taken K.faults run.old run.new result (fire (handlers_of run.old) (seen_event line) (seen_target target) event (world_of run.old)) }
{
    write_one(run.alloc, &TraceLine::Event(line), run.sink)?;
    invoke(run, target, event)?;
    bubble(run, target, event)
}
