//! Animation frame callbacks (HTML, animation frames).

ghost use Rattle.std.specs.Prelude.{◌≡◌, true, Some, [], ◌∷◌};
ghost use Rattle.handlers.specs.Runs.{handlers_of, world_of};
ghost use Rattle.frame_update.specs.Goes.{Goes, IsUnderWay};
ghost use Rattle.script_model.specs.TraceLines.{FrameLine};
ghost use Rattle.page_model.specs.Callbacks.{NoEntries, call};
ghost use Rattle.page_model.specs.Documents.{is_active};
ghost use Rattle.page_model.specs.Names.{document_text};
ghost use Rattle.page_model.specs.Runs.{say, ◌followed_by◌};
ghost use Rattle.page_model.specs.Ticks.{frame_steps};

use crate::run::call_handler;
use element_tree::DocumentId;
use event_tables::{EventTarget, HandlerId};
use handlers::{Entries, Run};
use page_state::Label;
use std::sync::ledger::Ledger;
use text_io::{Name, Sink};
use trace_runs::{RunFault, write_one};
use trace_text::TraceLine;

// Runs a frame callback that was removed from the table: its line, and its callback.
fn run_frame_callback<K: Sink, L: Ledger>(
    run: &mut Run<K, L>,
    document: DocumentId,
    key: Name,
    handler: HandlerId,
) -> Result<(), RunFault>
    requires ready { IsUnderWay run.old }
    requires active { is_active (world_of run.old).tree document.0 ≡ true }
    ensures { Goes K.taken K.faults run.old run.new result
        (say (FrameLine (document_text (world_of run.old).names document.0) key ∷ []) (world_of run.old)
        followed_by call (handlers_of run.old) document.0 (Some handler.0) NoEntries) }
{
    let name = run
        .page
        .label(Label::Target(EventTarget::Document(document)));
    write_one(run.alloc, &TraceLine::Frame(name, key), run.sink)?;
    call_handler(run, document, Some(handler), &Entries::Nothing)
}

/// Runs the frame callbacks of a document that were requested before, each if it is still registered at its turn, as long as
/// the document is Active (HTML, run the animation frame callbacks).
pub(crate) fn frame_steps<K: Sink, L: Ledger>(
    run: &mut Run<K, L>,
    document: DocumentId,
) -> Result<(), RunFault>
    requires ready { IsUnderWay run.old }
    requires active { is_active (world_of run.old).tree document.0 ≡ true }
    ensures { Goes K.taken K.faults run.old run.new result (frame_steps (handlers_of run.old) document.0 (world_of run.old)) }
{
    let Ok(mut batch) = run.page.begin_frames(document) else {
        return Err(RunFault::Memory);
    };
    while run.page.is_active(document) {
        let Some(callback) = run.page.next_frame(&mut batch) else {
            return Ok(());
        };
        let (key, handler) = callback;
        run_frame_callback(run, document, key, handler)?;
    }
    Ok(())
}
