//! Calling a handler with the entries of its callback.

ghost use Rattle.std.specs.Prelude.{option_map, Some};
ghost use Rattle.page_model.specs.Callbacks.{call, presents, run_handler};
ghost use Rattle.trace_runs.specs.Flows.{goes_on};
ghost use Rattle.handlers.specs.Entries.{entries_of, AreHanded, AreIn};
ghost use Rattle.handlers.specs.Runs.{handlers_of, world_of, Carries, IsHeld, StaysReady};

use crate::commands::run_block;
use crate::entries::{Entries, write_entries};
use crate::run::Run;
use element_tree::DocumentId;
use event_tables::HandlerId;
use std::sync::ledger::Ledger;
use text_io::Sink;
use trace_runs::RunFault;

// Runs the block of the handler with this number, if there is one. An exception ends only the block.
fn run_numbered<K: Sink, L: Ledger>(
    run: &mut Run<K, L>,
    number: u32,
    entries: &Entries,
) -> Result<(), RunFault>
    requires targets { AreIn (world_of run.old) (presents (entries_of entries.now)) }
    ensures says { Carries goes_on K.taken K.faults run.old run.new result
        (run_handler (handlers_of run.old) (entries_of entries.now) (Some number) (world_of run.old)) }
    ensures ready { StaysReady run.old run.new }
    ensures held { IsHeld run.old run.new }
{
    match run.script.handler(number) {
        None => Ok(()),
        Some(handler) => {
            let commands = &handler.commands;
            match run_block(run, commands, entries, None) {
                Ok(_) => Ok(()),
                Err(fault) => Err(fault),
            }
        }
    }
}

// Runs a handler, if there is one.
fn run_named<K: Sink, L: Ledger>(
    run: &mut Run<K, L>,
    handler: Option<HandlerId>,
    entries: &Entries,
) -> Result<(), RunFault>
    requires targets { AreIn (world_of run.old) (presents (entries_of entries.now)) }
    ensures says { Carries goes_on K.taken K.faults run.old run.new result
        (run_handler (handlers_of run.old) (entries_of entries.now) (option_map (λ it. it.0) handler) (world_of run.old)) }
    ensures ready { StaysReady run.old run.new }
    ensures held { IsHeld run.old run.new }
{
    match handler {
        None => Ok(()),
        Some(HandlerId(number)) => run_numbered(run, number, entries),
    }
}

/// Calls a handler for a document, with entries: does nothing if the document isn't Active; otherwise writes a line for each
/// entry and then runs the handler's block, if there is a handler. An exception ends only the block. A page that was ready
/// for a tick of the script is still so, whatever is returned (`IsReadyFor`).
///
/// # Errors
/// - `Limit` only if a limit is met, and then never `Ok`; all but the limit's own line was written, and the page's world is
///   that of the definition at the limit.
/// - `Memory`, and `WriteFault` only if the sink's fault count rose in this call; either may come before a limit. A prefix of
///   the lines was written, and of the page's world, which may be one inside of a step, only that it is ready is said.
pub fn run_handler<K: Sink, L: Ledger>(
    run: &mut Run<K, L>,
    document: DocumentId,
    handler: Option<HandlerId>,
    entries: &Entries,
) -> Result<(), RunFault>
    requires handed { AreHanded (world_of run.old) (entries_of entries.now) }
    ensures says { Carries goes_on K.taken K.faults run.old run.new result
        (call (handlers_of run.old) document.0 (option_map (λ it. it.0) handler) (entries_of entries.now) (world_of run.old)) }
    ensures ready { StaysReady run.old run.new }
    ensures held { IsHeld run.old run.new }
{
    if !run.page.is_active(document) {
        return Ok(());
    }
    match write_entries(run.alloc, run.page, entries, run.sink) {
        Ok(()) => run_named(run, handler, entries),
        Err(fault) => Err(fault),
    }
}
