//! Gathering at a depth.

ghost use Rattle.std.specs.Prelude.{◌≡◌, ◌≤◌, ◌+◌, ◌<◌, length};
ghost use Rattle.resize_observer.specs.Observers.{observer_at, changing};
ghost use Rattle.page_model.specs.Gathering.{gathered, gathering};
ghost use Rattle.page_model.specs.ResizeObserving.{resize_observations};
ghost use Rattle.depth_gather.specs.Gathering.{gathered_first, active_count};

use crate::Sizes;
use crate::observation::has_changed;
use element_tree::DocumentId;
use resize_observer::{ObserverId, Observers};

/// Gathers the active observations of a document (Resize Observer, 3.4: gather active observations at depth), and returns how
/// many there are. Of the targets of each observer whose size isn't the last reported one, those deeper than `depth` go to
/// the active list, all others to the skipped list. Doesn't allocate.
pub fn gather<Z: Sizes>(
    observers: &mut Observers,
    sizes: &Z,
    document: DocumentId,
    depth: u32,
) -> u32
    ensures gathered { observers.new ≡ record observers.old { part = gathering (Z.sight sizes.now) document.0 depth (observers.old.part) } }
    ensures number { result ≡ active_count document.0 observers.new.part }
    ensures count { length observers.new.part.made ≡ length observers.old.part.made }
{
    gather_all(observers, sizes, document, depth);
    active_number(observers, document)
}

// Gathers for each observer of the document.
fn gather_all<Z: Sizes>(observers: &mut Observers, sizes: &Z, document: DocumentId, depth: u32)
    ensures gathered { observers.new ≡ record observers.old { part = gathering (Z.sight sizes.now) document.0 depth (observers.old.part) } }
    ensures count { length observers.new.part.made ≡ length observers.old.part.made }
{
    let mut place = 0;
    while let Some(observer) = observers.of_document(document, place) {
        gather_targets(observers, sizes, observer, depth);
        place += 1;
    }
}

// Returns how many observations are active in a document: at most as many as all observers have, which is less than 2^32.
fn active_number(observers: &Observers, document: DocumentId) -> u32
    requires { active_count document.0 observers.now.part ≤ resize_observations observers.now.part }
    ensures { result ≡ active_count document.0 observers.now.part }
{
    let mut number = 0;
    let mut place = 0;
    while let Some(observer) = observers.of_document(document, place) {
        number += observers.active(observer).len() as u32;
        place += 1;
    }
    number
}

// Gathers for one observer.
fn gather_targets<Z: Sizes>(observers: &mut Observers, sizes: &Z, observer: ObserverId, depth: u32)
    requires { observer.0 < length observers.old.part.made }
    ensures gathered { observers.new ≡ changing (gathered (Z.sight sizes.now) depth) observer.0 observers.old }
    ensures count { length observers.new.part.made ≡ length observers.old.part.made }
{
    observers.begin_gather(observer);
    for place in 0..observers.targets(observer).len() {
        gather_target(observers, sizes, observer, place, depth);
    }
}

// Gathers the target at this index, those before it having been gathered.
fn gather_target<Z: Sizes>(
    observers: &mut Observers,
    sizes: &Z,
    observer: ObserverId,
    place: usize,
    depth: u32,
)
    requires observer { observer.0 < length observers.old.part.made }
    requires place { place < length (observer_at observers.old observer.0).targets }
    requires before { observer_at observers.old observer.0 ≡ gathered_first (Z.sight sizes.now) depth place (observer_at observers.old observer.0) }
    ensures gathered { observers.new ≡ changing (gathered_first (Z.sight sizes.now) depth (place + 1)) observer.0 observers.old }
    ensures count { length observers.new.part.made ≡ length observers.old.part.made }
{
    let observation = observers.targets(observer)[place];
    if has_changed(sizes, &observation) {
        let active = sizes.depth_now(observation.target) > depth;
        observers.gathered(observer, place, active);
    }
}
