//! Calling a handler in the parts of a tick, for which the page is prepared.

ghost use Rattle.std.specs.Prelude.{option_map};
ghost use Rattle.page_model.specs.Callbacks.{call};
ghost use Rattle.handlers.specs.Entries.{entries_of, AreHanded};
ghost use Rattle.handlers.specs.Runs.{handlers_of, world_of};
ghost use Rattle.frame_update.specs.Goes.{Goes, IsUnderWay};

use element_tree::DocumentId;
use event_tables::HandlerId;
use handlers::{Entries, Run, run_handler};
use std::sync::ledger::Ledger;
use text_io::Sink;
use trace_runs::RunFault;

/// Calls a handler for a document, with entries (`run_handler`).
pub(crate) fn call_handler<K: Sink, L: Ledger>(
    run: &mut Run<K, L>,
    document: DocumentId,
    handler: Option<HandlerId>,
    entries: &Entries,
) -> Result<(), RunFault>
    requires ready { IsUnderWay run.old }
    requires handed { AreHanded (world_of run.old) (entries_of entries.now) }
    ensures { Goes K.taken K.faults run.old run.new result
        (call (handlers_of run.old) document.0 (option_map (λ it. it.0) handler) (entries_of entries.now) (world_of run.old)) }
{
    run_handler(run, document, handler, entries)
}
