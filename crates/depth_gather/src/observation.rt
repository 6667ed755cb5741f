//! One observation, compared with the current sizes.

ghost use Rattle.std.specs.Prelude.{◌≡◌};
ghost use Rattle.page_model.specs.Gathering.{has_changed, size_entry};
ghost use Rattle.page_model.specs.Lookups.{same_extent};
ghost use Rattle.resize_observer.specs.Observations.{IsSize, HasSize, seen_size, seen_observation};
ghost use Rattle.depth_gather.specs.Entries.{as_entry, HasLengths};

use crate::{ResizeEntry, Sizes};
use px_units::{BoxKind, Size};
use resize_observer::Observation;

// Whether two sizes are equal.
fn is_same(a: Size, b: Size) -> bool
    requires first { IsSize a }
    requires second { IsSize b }
    ensures { result ≡ same_extent (seen_size a) (seen_size b) }
{
    a == b
}

// Whether the observed size isn't the last reported one (Resize Observer, 3.1: isActive).
pub(crate) fn has_changed<Z: Sizes>(sizes: &Z, observation: &Observation) -> bool
    requires { HasSize observation.now }
    ensures { result ≡ has_changed (Z.sight sizes.now) (seen_observation observation.now) }
{
    let now = sizes.size_now(observation.target, observation.observed);
    !is_same(now, observation.last)
}

// Returns the entry of an observation (Resize Observer, 3.4: create and populate a ResizeObserverEntry).
pub(crate) fn entry_of<Z: Sizes>(sizes: &Z, observation: &Observation) -> ResizeEntry
    ensures value { result ≡ as_entry (size_entry (Z.sight sizes.now) (seen_observation observation.now)) }
    ensures lengths { HasLengths result }
{
    let target = observation.target;
    ResizeEntry {
        target,
        corner: sizes.corner_now(target),
        content: sizes.size_now(target, BoxKind::Content),
        border: sizes.size_now(target, BoxKind::Border),
        device: sizes.size_now(target, BoxKind::Device),
        depth: sizes.depth_now(target),
    }
}
