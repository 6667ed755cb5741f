//! The notify task of a document (Intersection Observer, 3.2.4: notify intersection observers).

ghost use Rattle.std.specs.Prelude.{◌<◌, length};
ghost use Rattle.page_model.specs.Intersections.{notify, notify_watcher};
ghost use Rattle.page_model.specs.World.{Notify};
ghost use Rattle.handlers.specs.Runs.{handlers_of, world_of};
ghost use Rattle.frame_update.specs.Goes.{Goes, IsUnderWay};
ghost use Rattle.frame_update.specs.Ready.{IsPrepared};
ghost use Rattle.page_laws.specs.Ready.{with_first};

use crate::run::call_handler;
use element_tree::DocumentId;
use handlers::{Entries, Run};
use intersection_observer::WatcherId;
use page_state::Label;
use std::sync::ledger::Ledger;
use text_io::Sink;
use trace_runs::RunFault;

// Takes the queue of an observer and, unless it is empty, calls the observer's callback with the entries.
fn notify_watcher<K: Sink, L: Ledger>(
    run: &mut Run<K, L>,
    watcher: WatcherId,
) -> Result<(), RunFault>
    requires ready { IsUnderWay run.old }
    requires made { watcher.0 < length (world_of run.old).intersection_observers.made }
    ensures { Goes K.taken K.faults run.old run.new result (notify_watcher (handlers_of run.old) watcher.0 (world_of run.old)) }
{
    let records = run.page.take_records(watcher);
    if records.as_slice().is_empty() {
        return Ok(());
    }
    let (document, handler) = run.page.callback_of(Label::Watcher(watcher));
    let entries = Entries::Intersection(watcher, records);
    call_handler(run, document, handler, &entries)
}

/// Runs a notify task that was popped: does nothing if its document isn't Active; otherwise clears its flag, takes the queue
/// of each of its observers at its turn, in creation order, and calls the observer with the entries, if there are any
/// (Intersection Observer, 3.2.4).
pub(crate) fn notify<K: Sink, L: Ledger>(
    run: &mut Run<K, L>,
    document: DocumentId,
) -> Result<(), RunFault>
    requires ready { IsPrepared run.old.script.now.items (with_first (Notify document.0) (world_of run.old)) }
    ensures { Goes K.taken K.faults run.old run.new result (notify (handlers_of run.old) document.0 (world_of run.old)) }
{
    if !run.page.is_active(document) {
        return Ok(());
    }
    let Ok(watchers) = run.page.notify_list(document) else {
        return Err(RunFault::Memory);
    };
    for watcher in watchers.iter() {
        notify_watcher(run, *watcher)?;
    }
    Ok(())
}
