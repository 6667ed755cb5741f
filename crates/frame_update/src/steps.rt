//! The steps of an update that fire events: resized viewports, scrolls, and media query lists (CSSOM View, 4.2 and 13).

ghost use Rattle.std.specs.Prelude.{◌≡◌, ◌<◌, true, length};
ghost use Rattle.page_model.specs.Documents.{is_active};
ghost use Rattle.handlers.specs.Runs.{handlers_of, world_of};
ghost use Rattle.frame_update.specs.Goes.{Goes, IsUnderWay};
ghost use Rattle.page_model.specs.Ticks.{event_target_of, media_steps, resize_steps, scroll_steps};
ghost use Rattle.page_model.specs.Callbacks.{fire, while_active};
ghost use Rattle.page_model.specs.Ranges.{IsScrollIn, counts_of};
ghost use Rattle.script_model.specs.TraceLines.{FiredScroll, FiredChange};
ghost use Rattle.page_model.specs.Names.{query_list_text, container_text};
ghost use Rattle.page_model.specs.World.{QueryTarget};
ghost use Rattle.container_model.specs.Seen.{seen_container};
ghost use Rattle.text_io.specs.declared.kinds.EventKind.TheVariants as events;

use crate::events::fire;
use element_tree::{Container, DocumentId};
use event_tables::EventTarget;
use handlers::Run;
use page_state::{Change, Label};
use std::sync::ledger::Ledger;
use text_io::{EventKind, Sink};
use trace_runs::RunFault;
use trace_text::EventLine;

/// Runs the resize steps of a document: records the size of its viewport, and fires the event if it differs from the one
/// recorded before (CSSOM View, 13: run the resize steps).
pub(crate) fn resize_steps<K: Sink, L: Ledger>(
    run: &mut Run<K, L>,
    document: DocumentId,
) -> Result<(), RunFault>
    requires ready { IsUnderWay run.old }
    requires active { is_active (world_of run.old).tree document.0 ≡ true }
    ensures { Goes K.taken K.faults run.old run.new result (resize_steps (handlers_of run.old) document.0 (world_of run.old)) }
{
    if !run.page.viewport_changed(document, run.steps) {
        return Ok(());
    }
    let window = EventTarget::Window(document);
    let line = EventLine::Resize(run.page.label(Label::Target(window)));
    fire(run, line, window, EventKind::Resize)
}

// Fires the event of a target that scrolled, if the document is still Active.
fn scroll_step<K: Sink, L: Ledger>(
    run: &mut Run<K, L>,
    document: DocumentId,
    target: Container,
) -> Result<(), RunFault>
    requires ready { IsUnderWay run.old }
    requires target { IsScrollIn (counts_of 0 (world_of run.old)) (seen_container target) }
    ensures { Goes K.taken K.faults run.old run.new result
        (while_active document.0 (λ now. fire (handlers_of run.old) (FiredScroll (container_text (now.names) (seen_container target))) (event_target_of (seen_container target)) events.Scroll now) (world_of run.old)) }
{
    if !run.page.is_active(document) {
        return Ok(());
    }
    let target = match target {
        Container::Element(node) => EventTarget::Node(node),
        Container::Document(scrolled) => EventTarget::Document(scrolled),
    };
    let line = EventLine::Scroll(run.page.label(Label::Target(target)));
    fire(run, line, target, EventKind::Scroll)
}

/// Runs the scroll steps of a document: takes its whole pending list, and fires an event at each target (CSSOM View, 13: run
/// the scroll steps).
pub(crate) fn scroll_steps<K: Sink, L: Ledger>(
    run: &mut Run<K, L>,
    document: DocumentId,
) -> Result<(), RunFault>
    requires ready { IsUnderWay run.old }
    ensures { Goes K.taken K.faults run.old run.new result (scroll_steps (handlers_of run.old) document.0 (world_of run.old)) }
{
    let scrolled = run.page.take_scrolled(document);
    for target in scrolled.iter() {
        scroll_step(run, document, *target)?;
    }
    Ok(())
}

// Fires the event of a query list whose state changed.
fn report_change<K: Sink, L: Ledger>(run: &mut Run<K, L>, change: Change) -> Result<(), RunFault>
    requires ready { IsUnderWay run.old }
    requires query { change.query < length (world_of run.old).queries }
    ensures { Goes K.taken K.faults run.old run.new result
        (fire (handlers_of run.old) (FiredChange (query_list_text (world_of run.old).names change.query) change.matches) (QueryTarget change.query) events.Change (world_of run.old)) }
{
    let target = EventTarget::Query(change.query);
    let line = EventLine::Change(run.page.label(Label::Target(target)), change.matches);
    fire(run, line, target, EventKind::Change)
}

/// Evaluates the query lists of a document, as long as it is Active, by index, since a listener may create more (CSSOM View,
/// 4.2: evaluate media queries and report changes).
pub(crate) fn media_steps<K: Sink, L: Ledger>(
    run: &mut Run<K, L>,
    document: DocumentId,
) -> Result<(), RunFault>
    requires ready { IsUnderWay run.old }
    requires active { is_active (world_of run.old).tree document.0 ≡ true }
    ensures { Goes K.taken K.faults run.old run.new result (media_steps (handlers_of run.old) document.0 (world_of run.old)) }
{
    let mut place = 0;
    while run.page.is_active(document) {
        let Some(change) = run.page.next_change(document, place, run.steps) else {
            return Ok(());
        };
        place = change.place;
        report_change(run, change)?;
    }
    Ok(())
}
