//! The observers of a page.

ghost use Rattle.std.specs.Prelude.{◌≡◌, ◌<◌, ◌-◌, ◌^◌, [], All, length, not, option_map, IfOk, OnOk, OnErr, IfSome};
ghost use Rattle.page_model.specs.ResizeObserving.{with_resize_observer, with_resize_target, without_resize_target, without_resize_targets};
ghost use Rattle.resize_observer.specs.Answers.{Enters};
ghost use Rattle.resize_observer.specs.Observations.{IsSize, HasSize, seen_size, seen_observations};
ghost use Rattle.resize_observer.specs.Serials.{HasSerials};
ghost use Rattle.resize_observer.specs.Observers.{observer_at, nth_of, has_room, may_observe, IsLimited, changing, ungathered, gathered_at, list_for, reported_at, inactive};

use crate::documents::Documents;
use crate::observer::Observer;
use crate::{Observation, ObserverId};
use element_tree::{DocumentId, NodeId};
use px_units::{BoxKind, Size};
use std::alloc::Global;
use std::marker::Model;
use thiserror::Error;

/// Why a call failed. A call that fails changes nothing.
#[derive(Clone, Copy, Debug, PartialEq, Eq, Error)]
pub enum ObserveFault {
    /// The maximum number is already present.
    #[error("the maximum number is already present")]
    Limit,
    /// Out of memory.
    #[error("out of memory")]
    Memory,
}

/// The resize observers of a page in creation order, each with its document, its handler and its lists of observations: the
/// observation targets, the active and the skipped targets (Resize Observer, 3.1). Contracts see them as the definitions of a
/// world do, with the count of serial numbers given out and the two limits.
///
/// Every observer passed in must have been created by this `Observers` (each call `requires` it).
#[derive(Drop)]
pub struct Observers {
    made: Vec<Observer>,
    documents: Documents,
    observed: u64,
    held: usize,
    most_observers: u32,
    most_observations: u32,
}

impl Model for Observers {
    ghost use Rattle.std.specs.Prelude.{◌≡◌, ◌≤◌, length};
    ghost use Rattle.resize_observer.specs.Observers.{HeldObservers};

    ghost Value = { HeldObservers };

    ghost use Rattle.resize_observer.specs.Held.{IsHeld};

    ghost view = { λ o. record { part = record { given = o.observed; made = o.made.items }; most_observers = o.most_observers; most_observations = o.most_observations } };

    ghost invariant = { λ o. IsHeld o.made.items o.documents o.observed o.held o.most_observers o.most_observations };
}

impl Observers {
    /// Creates an empty set of observers; allocates nothing. At most `most_observers` can be created, and at most
    /// `most_observations` targets observed; a target counts once for each observer that observes it.
    pub fn new(alloc: Global, most_observers: u32, most_observations: u32) -> Observers
        ensures { result ≡ record { part = record { given = 0; made = [] }; most_observers = most_observers; most_observations = most_observations } }
    {
        Observers {
            made: Vec::new(alloc),
            documents: Documents::new(alloc),
            observed: 0,
            held: 0,
            most_observers,
            most_observations,
        }
    }

    /// Whether the maximum number was created, so that `make` would return `Limit`.
    pub fn is_full(&self) -> bool
        ensures { result ≡ not (has_room self.now) }
    {
        self.made.len() >= self.most_observers as usize
    }

    /// Returns how many were created.
    pub fn count(&self) -> u32
        ensures { result ≡ length self.now.part.made }
    {
        self.made.len() as u32
    }

    /// Creates an observer for a document, with the number of its handler if it has one; it comes last in the document's
    /// order (Resize Observer, 2.1: the constructor).
    ///
    /// `Limit` exactly when `most_observers` were created; otherwise `Memory` if an allocation fails.
    pub fn make(
        &mut self,
        document: DocumentId,
        handler: Option<u32>,
    ) -> Result<ObserverId, ObserveFault>
        ensures observer { IfOk result (λ observer. observer.0 ≡ length self.old.part.made) }
        ensures made { OnOk result (self.new ≡ record self.old { part = with_resize_observer document.0 handler (self.old.part) }) }
        ensures same { OnErr result (self.new ≡ self.old) }
        ensures room { Enters result (has_room self.old) }
    {
        let number = self.made.len();
        if number >= self.most_observers as usize {
            return Err(ObserveFault::Limit);
        }
        let observer = Observer::new(*self.made.allocator(), document, handler);
        let Ok(()) = self.made.reserve(1) else {
            return Err(ObserveFault::Memory);
        };
        let Ok(()) = self.documents.note(document, number as u32) else {
            return Err(ObserveFault::Memory);
        };
        self.made.push_reserved(observer);
        Ok(ObserverId(number as u32))
    }

    /// Observes a box of a target (Resize Observer, 2.1: `observe`): a target that is already observed is unobserved first;
    /// then a new observation with the next serial number and the last reported size 0 by 0 is appended to the targets.
    ///
    /// Reserves capacity in the active and the skipped list, so that gathering doesn't allocate. `Limit` exactly when the
    /// target isn't observed and `most_observations` are held; otherwise `Memory` if an allocation fails. Requires that fewer
    /// than 2^64
    /// - 1 serial numbers have been given out.
    pub fn observe(
        &mut self,
        observer: ObserverId,
        target: NodeId,
        observed: BoxKind,
    ) -> Result<(), ObserveFault>
        requires observer { observer.0 < length self.old.part.made }
        requires serials { self.old.part.given < 2 ^ 64 - 1 }
        ensures observed { OnOk result (self.new ≡ record self.old { part = with_resize_target observer.0 target.0 observed (self.old.part) }) }
        ensures same { OnErr result (self.new ≡ self.old) }
        ensures room { Enters result (may_observe observer.0 target.0 self.old) }
        ensures count { length self.new.part.made ≡ length self.old.part.made }
    {
        if !self.may_observe(observer, target) {
            return Err(ObserveFault::Limit);
        }
        let observation = Observation {
            number: self.observed,
            target,
            observed,
            last: Size {
                width: 0,
                height: 0,
            },
        };
        let it = &mut self.made[observer.0 as usize];
        let before = it.count();
        let Ok(()) = it.observe(observation) else {
            return Err(ObserveFault::Memory);
        };
        let after = it.count();
        self.held = self.held - before + after;
        self.observed += 1;
        Ok(())
    }

    /// Whether the target is already observed or the limit allows one more, so that `observe` won't return `Limit`.
    pub fn may_observe(&self, observer: ObserverId, target: NodeId) -> bool
        requires { observer.0 < length self.now.part.made }
        ensures { result ≡ may_observe observer.0 target.0 self.now }
    {
        self.made[observer.0 as usize].observes(target)
            || self.held < self.most_observations as usize
    }

    /// Removes the observation of a target from the targets, but not from the active and skipped lists; does nothing if there
    /// is none (Resize Observer, 2.1: `unobserve`).
    pub fn unobserve(&mut self, observer: ObserverId, target: NodeId)
        requires { observer.0 < length self.old.part.made }
        ensures unobserved { self.new ≡ record self.old { part = without_resize_target observer.0 target.0 (self.old.part) } }
        ensures count { length self.new.part.made ≡ length self.old.part.made }
    {
        let it = &mut self.made[observer.0 as usize];
        let before = it.count();
        it.unobserve(target);
        let after = it.count();
        self.held = self.held - before + after;
    }

    /// Clears the targets and the active list, but not the skipped list (Resize Observer, 2.1: `disconnect`).
    pub fn disconnect(&mut self, observer: ObserverId)
        requires { observer.0 < length self.old.part.made }
        ensures disconnected { self.new ≡ record self.old { part = without_resize_targets observer.0 (self.old.part) } }
        ensures count { length self.new.part.made ≡ length self.old.part.made }
    {
        let it = &mut self.made[observer.0 as usize];
        let before = it.count();
        it.disconnect();
        self.held -= before;
    }

    /// Clears the active and the skipped list (Resize Observer, 3.4: gather active observations at depth).
    pub fn begin_gather(&mut self, observer: ObserverId)
        requires { observer.0 < length self.old.part.made }
        ensures begun { self.new ≡ changing ungathered observer.0 self.old }
        ensures count { length self.new.part.made ≡ length self.old.part.made }
    {
        self.made[observer.0 as usize].begin_gather();
    }

    /// Appends a copy of the observation at this index of the targets to the active list, or to the skipped list if `active`
    /// is false.
    ///
    /// Requires that this list is shorter than the targets, so that it has capacity.
    pub fn gathered(&mut self, observer: ObserverId, place: usize, active: bool)
        requires observer { observer.0 < length self.old.part.made }
        requires place { place < length (observer_at self.old observer.0).targets }
        requires room { length (list_for active (observer_at self.old observer.0)) < length (observer_at self.old observer.0).targets }
        ensures gathered { self.new ≡ changing (gathered_at place active) observer.0 self.old }
        ensures count { length self.new.part.made ≡ length self.old.part.made }
    {
        self.made[observer.0 as usize].gathered(place, active);
    }

    /// Sets the last reported size of the target with this serial number, if it is still observed (Resize Observer, 3.4:
    /// broadcast active observations). An observation created later for the same target has another number and isn't changed.
    /// Requires that `last` isn't negative.
    pub fn report(&mut self, observer: ObserverId, number: u64, last: Size)
        requires observer { observer.0 < length self.old.part.made }
        requires size { IsSize last }
        ensures reported { self.new ≡ changing (reported_at number (seen_size last)) observer.0 self.old }
        ensures count { length self.new.part.made ≡ length self.old.part.made }
    {
        self.made[observer.0 as usize].report(number, last);
    }

    /// Empties the active list.
    pub fn clear_active(&mut self, observer: ObserverId)
        requires { observer.0 < length self.old.part.made }
        ensures cleared { self.new ≡ changing inactive observer.0 self.old }
        ensures count { length self.new.part.made ≡ length self.old.part.made }
    {
        self.made[observer.0 as usize].clear_active();
    }

    /// Returns the observations in order of the calls of `observe`.
    pub fn targets(&self, observer: ObserverId) -> &[Observation]
        requires { observer.0 < length self.now.part.made }
        ensures value { seen_observations result.now ≡ (observer_at self.now observer.0).targets }
        ensures count { length result.now ≡ length (observer_at self.now observer.0).targets }
        ensures sizes { All HasSize result.now }
        ensures serials { HasSerials self.now.part.given self.now.part.made }
    {
        self.made[observer.0 as usize].targets()
    }

    /// Returns the active targets.
    pub fn active(&self, observer: ObserverId) -> &[Observation]
        requires { observer.0 < length self.now.part.made }
        ensures value { seen_observations result.now ≡ (observer_at self.now observer.0).active }
        ensures count { length result.now ≡ length (observer_at self.now observer.0).active }
        ensures sizes { All HasSize result.now }
        ensures serials { HasSerials self.now.part.given self.now.part.made }
    {
        self.made[observer.0 as usize].active()
    }

    /// Returns the skipped targets.
    pub fn skipped(&self, observer: ObserverId) -> &[Observation]
        requires { observer.0 < length self.now.part.made }
        ensures value { seen_observations result.now ≡ (observer_at self.now observer.0).skipped }
        ensures count { length result.now ≡ length (observer_at self.now observer.0).skipped }
        ensures sizes { All HasSize result.now }
        ensures serials { HasSerials self.now.part.given self.now.part.made }
    {
        self.made[observer.0 as usize].skipped()
    }

    /// Returns the document that the observer was created for.
    pub fn document(&self, observer: ObserverId) -> DocumentId
        requires { observer.0 < length self.now.part.made }
        ensures { result.0 ≡ (observer_at self.now observer.0).document }
    {
        self.made[observer.0 as usize].document()
    }

    /// Returns the number of the observer's handler, `None` if it has none.
    pub fn handler(&self, observer: ObserverId) -> Option<u32>
        requires { observer.0 < length self.now.part.made }
        ensures { result ≡ (observer_at self.now observer.0).handler }
    {
        self.made[observer.0 as usize].handler()
    }

    /// Returns the document's observer at this index in creation order, counted from 0; `None` exactly past the last.
    pub fn of_document(&self, document: DocumentId, place: usize) -> Option<ObserverId>
        ensures value { option_map (λ observer. observer.0) result ≡ nth_of self.now document.0 place }
        ensures made { IfSome result (λ observer. observer.0 < length self.now.part.made) }
        ensures limits { IsLimited self.now }
    {
        let number = self.documents.at(document, place)?;
        Some(ObserverId(number))
    }
}
