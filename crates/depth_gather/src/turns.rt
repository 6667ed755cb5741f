//! The turns of a document's observers.

ghost use Rattle.std.specs.Prelude.{◌≡◌, ◌<◌, length, option_map, IfSome};
ghost use Rattle.page_model.specs.Gathering.{has_skipped};
ghost use Rattle.depth_gather.specs.Deliveries.{turn_from, active_at};
ghost use Rattle.depth_gather.specs.Turning.{found_turn};

use element_tree::DocumentId;
use resize_observer::{ObserverId, Observers};

// An observer with active observations, and the index after it.
#[derive(Clone, Copy)]
pub(crate) struct Found {
    pub(crate) observer: ObserverId,
    pub(crate) place: usize,
}

// Returns the first observer of the document from this index on that has active observations.
pub(crate) fn next_turn(observers: &Observers, document: DocumentId, place: usize) -> Option<Found>
    ensures value { option_map found_turn result ≡ turn_from document.0 place observers.now.part }
    ensures made { IfSome result (λ found. found.observer.0 < length observers.now.part.made) }
    ensures some { IfSome result (λ found. 0 < length (active_at observers.now.part found.observer.0)) }
{
    let mut at = place;
    while let Some(observer) = observers.of_document(document, at) {
        at += 1;
        if !observers.active(observer).is_empty() {
            return Some(Found {
                observer,
                place: at,
            });
        }
    }
    None
}

/// Whether the document has skipped observations (Resize Observer, 3.4: has skipped observations). Doesn't allocate.
pub fn has_skipped(observers: &Observers, document: DocumentId) -> bool
    ensures { result ≡ has_skipped document.0 observers.now.part }
{
    let mut place = 0;
    while let Some(observer) = observers.of_document(document, place) {
        if !observers.skipped(observer).is_empty() {
            return true;
        }
        place += 1;
    }
    false
}
