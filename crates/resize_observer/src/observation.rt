//! Observations, and the ids of observers.

ghost use Rattle.std.specs.Prelude.{◌≡◌, ◌<◌, ◌≤◌, ◌+◌, [], ◌∷◌, ◌++◌, All, not, map, vec_len, vec_capacity};
ghost use Rattle.page_model.specs.ResizeObserving.{is_observed, without_observed};
ghost use Rattle.resize_observer.specs.Observations.{IsSize, HasSize, seen_size, seen_observation, seen_observations};
ghost use Rattle.resize_observer.specs.Reports.{with_last};
ghost use Rattle.resize_observer.specs.Serials.{IsRising};

use element_tree::NodeId;
use px_units::{BoxKind, Size};

/// The id of a resize observer: its number, from 0 in creation order.
#[derive(Clone, Copy, PartialEq, Eq, Debug)]
pub struct ObserverId(pub u32);

/// An observation of a target by an observer (Resize Observer, 3.1: ResizeObservation).
#[derive(Clone, Copy, PartialEq, Eq, Debug)]
pub struct Observation {
    /// The serial number, which distinguishes it from earlier and later observations of the same target.
    pub number: u64,
    pub target: NodeId,
    /// The observed box of the target.
    pub observed: BoxKind,
    /// The last reported size, in units of 1/64 pixel; 0 by 0 at first. Never negative in an observation held by an
    /// `Observers`.
    pub last: Size,
}

/// Removes the observation of a target.
pub(crate) fn remove_target(observations: &mut Vec<Observation>, target: NodeId)
    ensures items { seen_observations observations.new.items ≡ without_observed target.0 (seen_observations observations.old.items) }
    ensures bound { vec_len observations.new ≤ vec_len observations.old }
    ensures capacity { vec_capacity observations.new ≡ vec_capacity observations.old }
    ensures sizes { All HasSize observations.old.items → All HasSize observations.new.items }
{
    observations.retain(|each| each.target.0 != target.0);
}

/// Appends an observation, for which there is capacity. Unless `is_new`, an older one of the same target is removed.
pub(crate) fn put_last(observations: &mut Vec<Observation>, observation: Observation, is_new: bool)
    requires room { vec_len observations.old < vec_capacity observations.old }
    requires new { is_new ≡ not (is_observed observation.target.0 (seen_observations observations.old.items)) }
    ensures items { seen_observations observations.new.items ≡ without_observed observation.target.0 (seen_observations observations.old.items) ++ seen_observation observation ∷ [] }
    ensures bound { vec_len observations.new ≤ vec_len observations.old + 1 }
    ensures sizes { All HasSize observations.old.items → HasSize observation → All HasSize observations.new.items }
{
    if !is_new {
        remove_target(observations, observation.target);
    }
    observations.push_reserved(observation);
}

/// Sets the last reported size of the observation with this serial number. Serial numbers are ascending, so it is found by
/// binary search.
pub(crate) fn set_last(observations: &mut [Observation], number: u64, last: Size)
    requires rising { IsRising (seen_observations observations.old) }
    requires size { IsSize last }
    ensures reported { seen_observations observations.new ≡ map (with_last number (seen_size last)) (seen_observations observations.old) }
    ensures sizes { All HasSize observations.old → All HasSize observations.new }
{
    if let Ok(place) = observations.binary_search_by_key(&number, |each| each.number) {
        observations[place].last = last;
    }
}
