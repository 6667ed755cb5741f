//! The resize loop of a document (Resize Observer, 3.4; HTML, update the rendering).

ghost use Rattle.std.specs.Prelude.{◌≡◌, ℕ, ◌<◌, true, cond, None, Some, length, map, IfOk};
ghost use Rattle.std.specs.List.{AllByRecursion};
ghost use Rattle.page_model.specs.Callbacks.{SizeEntries, call};
ghost use Rattle.page_model.specs.Documents.{is_active};
ghost use Rattle.page_model.specs.Gathering.{has_active};
ghost use Rattle.page_model.specs.Lookups.{resize_observer_at};
ghost use Rattle.page_model.specs.Loop.{broadcast, emptied, gather, report_skipped, resize_loop, round};
ghost use Rattle.page_model.specs.Runs.{lifted};
ghost use Rattle.depth_gather.specs.Entries.{seen_entry, HasLengths};
ghost use Rattle.loop_laws.specs.Rounds.{goes_on as has_round, round_depth};
ghost use Rattle.page_laws.specs.Ready.{IsReadyFor};
ghost use Rattle.handlers.specs.Runs.{handlers_of, world_of};
ghost use Rattle.frame_update.specs.Goes.{Goes, IsUnderWay};
ghost use Rattle.frame_update.specs.Turns.{least_with, AreEntriesIn};

use crate::events::fire;
use crate::run::call_handler;
use depth_gather::{
    Delivery, entries_are_those_of_a_broadcast, least_depth,
    something_is_active_where_it_is_counted,
};
use element_tree::DocumentId;
use event_tables::EventTarget;
use handlers::{Entries, Run};
use loop_laws::resize_loops_come_to_rest;
use page_state::{Label, Page};
use resize_observer::ObserverId;
use std::sync::ledger::Ledger;
use step_count::Steps;
use text_io::{EventKind, Sink};
use trace_runs::{RunFault, write_one};
use trace_text::{EventLine, TraceLine};

// Returns the lesser of the least depth so far and a further one.
fn shallower(least: Option<u32>, depth: u32) -> Option<u32>
    ensures { result ≡ Some (least_with least depth) }
{
    match least {
        Some(least) if least < depth => Some(least),
        _ => Some(depth),
    }
}

// Clears the active list of an observer that was called, if its document is still Active.
fn end_turn(page: &mut Page, document: DocumentId, observer: ObserverId)
    requires { observer.0 < length page.old.world.resize_observers.made }
    ensures emptied { page.new.world ≡ emptied document.0 observer.0 page.old.world }
    ensures ready { (handlers : ℕ) → IsReadyFor handlers page.old.world → IsReadyFor handlers page.new.world }
{
    if page.is_active(document) {
        page.end_delivery(observer);
    }
}

// Calls the callback of an observer at its turn, and then clears its active list, if the document is still Active. A limit
// that the callback meets ends the turn too, so the list is cleared then as well.
fn call_observer<K: Sink, L: Ledger>(
    run: &mut Run<K, L>,
    document: DocumentId,
    delivery: Delivery,
) -> Result<(), RunFault>
    requires ready { IsUnderWay run.old }
    requires observer { delivery.observer.0 < length (world_of run.old).resize_observers.made }
    requires entries { AreEntriesIn (world_of run.old) delivery.entries }
    requires lengths { AllByRecursion HasLengths delivery.entries }
    ensures { Goes K.taken K.faults run.old run.new result
        (lifted (emptied document.0 delivery.observer.0) (call (handlers_of run.old) document.0
        (resize_observer_at (world_of run.old).resize_observers delivery.observer.0).handler (SizeEntries delivery.observer.0 (map seen_entry delivery.entries)) (world_of run.old))) }
{
    let observer = delivery.observer;
    let (_, handler) = run.page.callback_of(Label::Observer(observer));
    let entries = Entries::Resize(observer, delivery.entries);
    match call_handler(run, document, handler, &entries) {
        Ok(()) => {
            end_turn(run.page, document, observer);
            Ok(())
        }
        Err(RunFault::Limit { kind, line, number }) => {
            end_turn(run.page, document, observer);
            Err(RunFault::Limit { kind, line, number })
        }
        Err(RunFault::Memory) => Err(RunFault::Memory),
        Err(RunFault::WriteFault) => Err(RunFault::WriteFault),
    }
}

// Broadcasts the active observations of a document, as long as it is Active, by index, since a callback may create observers
// (Resize Observer, 3.4: broadcast active observations). Returns the least depth of the entries.
fn broadcast<K: Sink, L: Ledger>(
    run: &mut Run<K, L>,
    document: DocumentId,
) -> Result<Option<u32>, RunFault>
    requires ready { IsUnderWay run.old }
    ensures goes { Goes K.taken K.faults run.old run.new result (lifted (λ so_far. so_far.world) (broadcast (handlers_of run.old) document.0 (world_of run.old))) }
    ensures least { IfOk result (λ least. (broadcast (handlers_of run.old) document.0 (world_of run.old)).state.shallowest ≡ least) }
{
    entries_are_those_of_a_broadcast();
    let mut least = None;
    let mut place = 0;
    while run.page.is_active(document) {
        let Ok(next) = run.page.next_delivery(document, place, run.steps) else {
            return Err(RunFault::Memory);
        };
        let Some(delivery) = next else {
            return Ok(least);
        };
        place = delivery.place;
        least = shallower(least, least_depth(&delivery));
        call_observer(run, document, delivery)?;
    }
    Ok(least)
}

// Gathers the observations of a document at a depth. Returns the depth if there are active observations then.
fn gather<L: Ledger>(
    page: &mut Page,
    document: DocumentId,
    depth: u32,
    steps: &mut Steps<L>,
) -> Option<u32>
    ensures gathered { page.new ≡ record page.old { world = gather document.0 depth (page.old.world); kept = page.new.kept } }
    ensures active { result ≡ cond (has_active document.0 page.new.world.resize_observers) (Some depth) None }
{
    something_is_active_where_it_is_counted();
    if page.gather(document, depth, steps) == 0 {
        return None;
    }
    Some(depth)
}

// Runs a round: its deliveries and, if the document is still Active then, its line and the gathering at its depth. Returns
// that depth if a further round follows.
fn round<K: Sink, L: Ledger>(
    run: &mut Run<K, L>,
    document: DocumentId,
) -> Result<Option<u32>, RunFault>
    requires ready { IsUnderWay run.old }
    ensures goes { Goes K.taken K.faults run.old run.new result (round (handlers_of run.old) document.0 (world_of run.old)) }
    ensures depth { IfOk result (λ depth. depth ≡ cond (has_round document.0 (world_of run.new)) (Some (round_depth (handlers_of run.old) document.0 (world_of run.old))) None) }
{
    let least = broadcast(run, document)?;
    if !run.page.is_active(document) {
        return Ok(None);
    }
    let depth = least.unwrap_or(0);
    let name = run
        .page
        .label(Label::Target(EventTarget::Document(document)));
    write_one(run.alloc, &TraceLine::Round(name, depth), run.sink)?;
    Ok(gather(run.page, document, depth, run.steps))
}

// Fires the error event, if something was skipped when observations were last gathered (Resize Observer, 3.4: deliver resize
// loop error).
fn report_skipped<K: Sink, L: Ledger>(
    run: &mut Run<K, L>,
    document: DocumentId,
) -> Result<(), RunFault>
    requires ready { IsUnderWay run.old }
    ensures { Goes K.taken K.faults run.old run.new result (report_skipped (handlers_of run.old) document.0 (world_of run.old)) }
{
    if !run.page.is_active(document) || !run.page.has_skipped(document) {
        return Ok(());
    }
    let window = EventTarget::Window(document);
    let line = EventLine::Error(run.page.label(Label::Target(window)));
    fire(run, line, window, EventKind::Error)
}

/// Alternates gathering, at first at depth 0, and broadcasting, as long as there are active observations (HTML, update the
/// rendering).
pub(crate) fn resize_loop<K: Sink, L: Ledger>(
    run: &mut Run<K, L>,
    document: DocumentId,
) -> Result<(), RunFault>
    requires ready { IsUnderWay run.old }
    requires active { is_active (world_of run.old).tree document.0 ≡ true }
    ensures { Goes K.taken K.faults run.old run.new result (resize_loop (handlers_of run.old) document.0 (world_of run.old)) }
{
    resize_loops_come_to_rest();
    let mut gathered = gather(run.page, document, 0, run.steps);
    while let Some(_) = gathered {
        gathered = round(run, document)?;
    }
    report_skipped(run, document)
}
