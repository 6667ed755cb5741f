//! Deliveries: what the callback of each observer receives at its turn.

ghost use Rattle.std.specs.Prelude.{◌≡◌, ◌<◌, None, Some, map, fold, length, option_map, IfOk, OnOk, OnErr, IfSome};
ghost use Rattle.std.specs.List.{AllByRecursion};
ghost use Rattle.page_model.specs.Loop.{shallower};
ghost use Rattle.resize_observer.specs.Observations.{seen_observations};
ghost use Rattle.page_model.specs.Gathering.{without_active};
ghost use Rattle.depth_gather.specs.Entries.{seen_entry, HasLengths};
ghost use Rattle.depth_gather.specs.Deliveries.{turn_from, turn_of, active_at, entries_in, reporting, reporting_turn};

use crate::observation::entry_of;
use crate::turns::next_turn;
use crate::{ResizeEntry, ResizeList, Sizes};
use element_tree::DocumentId;
use resize_observer::{Observation, ObserverId, Observers};
use std::alloc::{AllocError, Global};

/// The arguments of an observer's callback.
#[derive(Drop)]
pub struct Delivery {
    pub observer: ObserverId,
    pub entries: ResizeList,
    /// The index from which to look for the next delivery.
    pub place: usize,
}

/// Returns the next delivery of a document (Resize Observer, 3.4: broadcast active observations, up to the callback): the
/// first of its current observers from `place` on that has active observations, with an entry for each of them of the current
/// sizes, which become the last reported ones. `None` exactly when no observer with active observations is left.
///
/// Nothing changes if an allocation fails.
pub fn next_delivery<Z: Sizes>(
    alloc: Global,
    observers: &mut Observers,
    sizes: &Z,
    document: DocumentId,
    place: usize,
) -> Result<Option<Delivery>, AllocError>
    ensures turn { IfOk result (λ next. option_map turn_of next ≡ turn_from document.0 place observers.old.part) }
    ensures entries { IfOk result (λ next. IfSome next (λ it. it.entries ≡ entries_in (Z.sight sizes.now) (active_at observers.old.part it.observer.0))) }
    ensures reported { OnOk result (observers.new ≡ record observers.old { part = reporting_turn (Z.sight sizes.now) (turn_from document.0 place observers.old.part) (observers.old.part) }) }
    ensures same { OnErr result (observers.new ≡ observers.old) }
    ensures made { IfOk result (λ next. IfSome next (λ it. it.observer.0 < length observers.old.part.made)) }
    ensures some { IfOk result (λ next. IfSome next (λ it. 0 < length it.entries)) }
    ensures lengths { IfOk result (λ next. IfSome next (λ it. AllByRecursion HasLengths it.entries)) }
    ensures count { length observers.new.part.made ≡ length observers.old.part.made }
{
    let Some(found) = next_turn(observers, document, place) else {
        return Ok(None);
    };
    let entries = entries_of(alloc, observers.active(found.observer), sizes)?;
    report_active(observers, sizes, found.observer);
    Ok(Some(Delivery {
        observer: found.observer,
        entries: ResizeList::new(entries),
        place: found.place,
    }))
}

// Returns the entries of these observations.
fn entries_of<Z: Sizes>(
    alloc: Global,
    active: &[Observation],
    sizes: &Z,
) -> Result<Vec<ResizeEntry>, AllocError>
    ensures value { IfOk result (λ entries. entries.items ≡ entries_in (Z.sight sizes.now) (seen_observations active.now)) }
    ensures lengths { IfOk result (λ entries. AllByRecursion HasLengths entries.items) }
{
    let mut entries = Vec::new(alloc);
    for observation in active {
        entries.push(entry_of(sizes, observation))?;
    }
    Ok(entries)
}

// Sets the last reported sizes of the active observations to the current sizes.
fn report_active<Z: Sizes>(observers: &mut Observers, sizes: &Z, observer: ObserverId)
    requires { observer.0 < length observers.old.part.made }
    ensures reported { observers.new ≡ record observers.old { part = reporting (Z.sight sizes.now) observer.0 (observers.old.part) } }
    ensures count { length observers.new.part.made ≡ length observers.old.part.made }
{
    for place in 0..observers.active(observer).len() {
        let observation = observers.active(observer)[place];
        let size = sizes.size_now(observation.target, observation.observed);
        observers.report(observer, observation.number, size);
    }
}

/// Ends an observer's turn after its callback was called: clears its active list. Doesn't allocate.
pub fn end_delivery(observers: &mut Observers, observer: ObserverId)
    requires { observer.0 < length observers.old.part.made }
    ensures ended { observers.new ≡ record observers.old { part = without_active observer.0 (observers.old.part) } }
    ensures count { length observers.new.part.made ≡ length observers.old.part.made }
{
    observers.clear_active(observer);
}

/// Returns the least depth of the entries. Requires that there is at least one. Doesn't allocate.
pub fn least_depth(delivery: &Delivery) -> u32
    requires { 0 < length delivery.now.entries }
    ensures { fold shallower None (map seen_entry delivery.now.entries) ≡ Some result }
{
    let entries = delivery.entries.as_slice();
    let mut least = entries[0].depth;
    for entry in entries {
        if entry.depth < least {
            least = entry.depth;
        }
    }
    least
}
