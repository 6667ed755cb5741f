//! The update of the rendering (HTML, event loops: update the rendering).

ghost use Rattle.std.specs.Prelude.{◌≡◌, true};
ghost use Rattle.element_tree.specs.Documents.{document_numbers};
ghost use Rattle.page_model.specs.Documents.{is_active};
ghost use Rattle.page_model.specs.Callbacks.{while_active};
ghost use Rattle.page_model.specs.Runs.{for_each};
ghost use Rattle.page_model.specs.Ticks.{update_rendering};
ghost use Rattle.frame_update.specs.Parts.{part_of};
ghost use Rattle.handlers.specs.Runs.{handlers_of, world_of};
ghost use Rattle.frame_update.specs.Goes.{Goes, IsUnderWay};

use crate::frames::frame_steps;
use crate::rounds::resize_loop;
use crate::steps::{media_steps, resize_steps, scroll_steps};
use element_tree::DocumentId;
use handlers::Run;
use std::sync::ledger::Ledger;
use text_io::Sink;
use trace_runs::RunFault;

/// The parts of an update, each of which iterates over the documents.
#[derive(Clone, Copy)]
enum Part {
    Resizes,
    Scrolls,
    Media,
    Frames,
    ResizeLoop,
    Intersections,
}

/// In the order of the standard.
const PARTS: [Part; 6] = [
    Part::Resizes,
    Part::Scrolls,
    Part::Media,
    Part::Frames,
    Part::ResizeLoop,
    Part::Intersections,
];

// Runs a part of an update for one document, which is Active.
fn run_part<K: Sink, L: Ledger>(
    run: &mut Run<K, L>,
    part: Part,
    document: DocumentId,
) -> Result<(), RunFault>
    requires ready { IsUnderWay run.old }
    requires active { is_active (world_of run.old).tree document.0 ≡ true }
    ensures { Goes K.taken K.faults run.old run.new result (part_of (handlers_of run.old) part document.0 (world_of run.old)) }
{
    match part {
        Part::Resizes => resize_steps(run, document),
        Part::Scrolls => scroll_steps(run, document),
        Part::Media => media_steps(run, document),
        Part::Frames => frame_steps(run, document),
        Part::ResizeLoop => resize_loop(run, document),
        Part::Intersections => match run.page.update_intersections(document, run.steps) {
            Ok(()) => Ok(()),
            Err(_) => Err(RunFault::Memory),
        },
    }
}

// The same, if the document is still Active.
fn run_while_active<K: Sink, L: Ledger>(
    run: &mut Run<K, L>,
    part: Part,
    document: DocumentId,
) -> Result<(), RunFault>
    requires ready { IsUnderWay run.old }
    ensures { Goes K.taken K.faults run.old run.new result (while_active document.0 (part_of (handlers_of run.old) part document.0) (world_of run.old)) }
{
    if !run.page.is_active(document) {
        return Ok(());
    }
    run_part(run, part, document)
}

// Runs a part of an update for each of these documents that is Active at its turn.
fn run_for_each<K: Sink, L: Ledger>(
    run: &mut Run<K, L>,
    part: Part,
    documents: &[DocumentId],
) -> Result<(), RunFault>
    requires ready { IsUnderWay run.old }
    ensures { Goes K.taken K.faults run.old run.new result
        (for_each (λ document. while_active document (part_of (handlers_of run.old) part document)) (document_numbers documents.now) (world_of run.old)) }
{
    for document in documents {
        run_while_active(run, part, *document)?;
    }
    Ok(())
}

/// Updates the rendering: runs each part for all documents that are Active when the update begins, skipping those that no
/// longer are.
pub(crate) fn update_rendering<K: Sink, L: Ledger>(run: &mut Run<K, L>) -> Result<(), RunFault>
    requires ready { IsUnderWay run.old }
    ensures { Goes K.taken K.faults run.old run.new result (update_rendering (handlers_of run.old) (world_of run.old)) }
{
    let Ok(documents) = run.page.active_documents() else {
        return Err(RunFault::Memory);
    };
    for part in PARTS {
        run_for_each(run, part, &documents)?;
    }
    Ok(())
}
