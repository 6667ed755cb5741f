//! The observers of a page.

ghost use Rattle.std.specs.Prelude.{◌≡◌, ◌<◌, ◌≤◌, ◌+◌, ◌-◌, slice_get, All, ◌^◌, true, [], length, map, not, option_map, Ok, Err, IfOk, OnOk, OnErr, IfSome, Some, None};
ghost use Rattle.page_model.specs.World.{Registration};
ghost use Rattle.page_model.specs.IntersectionObserving.{is_registered, with_intersection_observer, without_registration, without_registrations, without_queue};
ghost use Rattle.intersection_observer.specs.Seen.{seen_root, seen_entries, seen_finding, serial_numbers};
ghost use Rattle.intersection_observer.specs.Places.{Standing, standing_of, IsStanding};
ghost use Rattle.intersection_observer.specs.Serials.{HasSerials};
ghost use Rattle.intersection_observer.specs.Settling.{with_settled, is_news_for};
ghost use Rattle.intersection_observer.specs.Watchers.{watcher_at, has_room, observes, may_register, once_observed, serial_of};
ghost use Rattle.intersection_observer.specs.Answers.{Enters, Registers, Settles};
ghost use Rattle.intersection_observer.specs.Held.{seen_place};
ghost use Rattle.intersection_observer.specs.declared.registration.Settled.TheVariants.{Kept};
ghost use Rattle.intersection_observer.specs.declared.watchers.WatchFault.TheVariants.{Memory};

use crate::registration::Place;
use crate::watcher::Watcher;
use crate::{Entry, EntryList, Finding, RegistrationId, Root, Settled, WatcherId};
use element_tree::{DocumentId, NodeId};
use indexmap::IndexMap;
use std::alloc::{AllocError, Global};
use std::marker::Model;
use thiserror::Error;
use thresholds::{Margins, Thresholds};

/// Why a call failed. A call that fails changes nothing.
#[derive(Clone, Copy, Debug, PartialEq, Eq, Error)]
pub enum WatchFault {
    /// The maximum number is already present.
    #[error("the maximum number is already present")]
    Limit,
    /// Out of memory.
    #[error("out of memory")]
    Memory,
}

/// The intersection observers of a page in creation order, each with its document, its handler, its root, margins and
/// thresholds, its registrations and its queue of entries (Intersection Observer, 2.2 and 3.1). Contracts see them as the
/// definitions of a world do, with the count of serial numbers given out and the two limits.
///
/// Every observer passed in must have been created by this `Watchers`, and every registration must exist (each call
/// `requires` it).
#[derive(Drop)]
pub struct Watchers {
    made: Vec<Watcher>,
    // The observer and target of each registration, by its serial number.
    places: IndexMap<u64, Place>,
    given: u64,
    most_watchers: u32,
    most_registrations: u32,
}

impl Model for Watchers {
    ghost use Rattle.intersection_observer.specs.Watchers.{HeldWatchers};

    ghost Value = { HeldWatchers };

    ghost use Rattle.intersection_observer.specs.Held.{IsHeld};

    ghost view = { λ w. record { part = record { given = w.given; made = w.made.items }; most_watchers = w.most_watchers; most_registrations = w.most_registrations } };

    ghost invariant = { λ w. IsHeld w.places (record { given = w.given; made = w.made.items }) w.most_watchers w.most_registrations };
}

impl Watchers {
    /// Creates an empty set of observers; allocates nothing. At most `most_watchers` can be created, and at most
    /// `most_registrations` targets observed; a target counts once for each observer that observes it.
    pub fn new(alloc: Global, most_watchers: u32, most_registrations: u32) -> Watchers
        ensures { result ≡ record { part = record { given = 0; made = [] }; most_watchers = most_watchers; most_registrations = most_registrations } }
    {
        Watchers {
            made: Vec::new(alloc),
            places: IndexMap::new(alloc),
            given: 0,
            most_watchers,
            most_registrations,
        }
    }

    /// Whether the maximum number was created, so that `make` would return `Limit`.
    pub fn is_full(&self) -> bool
        ensures { result ≡ not (has_room self.now) }
    {
        self.made.len() >= self.most_watchers as usize
    }

    /// Returns how many were created.
    pub fn count(&self) -> u32
        ensures { result ≡ length self.now.part.made }
    {
        self.made.len() as u32
    }

    /// Creates an observer for a document, with the number of its handler if it has one (Intersection Observer, 2.2: the
    /// constructor). It has no targets and an empty queue.
    ///
    /// `Limit` exactly when `most_watchers` were created; otherwise `Memory` if an allocation fails. In both cases the
    /// thresholds are dropped.
    pub fn make(
        &mut self,
        document: DocumentId,
        handler: Option<u32>,
        root: Root,
        margins: Margins,
        thresholds: Thresholds,
    ) -> Result<WatcherId, WatchFault>
        ensures watcher { IfOk result (λ watcher. watcher.0 ≡ length self.old.part.made) }
        ensures made { OnOk result (self.new ≡ record self.old { part = with_intersection_observer document.0 handler (seen_root root) margins thresholds (self.old.part) }) }
        ensures same { OnErr result (self.new ≡ self.old) }
        ensures room { Enters result (has_room self.old) }
    {
        if self.is_full() {
            return Err(WatchFault::Limit);
        }
        let number = self.made.len() as u32;
        let alloc = *self.made.allocator();
        let watcher = Watcher::new(alloc, document, handler, root, margins, thresholds);
        let Ok(()) = self.made.push(watcher) else {
            return Err(WatchFault::Memory);
        };
        Ok(WatcherId(number))
    }

    // Whether the limit allows one more registration.
    fn has_space(&self) -> bool
        ensures { result ≡ may_register self.now }
    {
        self.places.len() < self.most_registrations as usize
    }

    /// Returns the registration that `observe` would create for a target if its allocations succeed: the one with the next
    /// serial number. `None` exactly when the target is already observed, so that none would be created.
    ///
    /// `Limit` exactly when the target isn't observed and `most_registrations` are held. Doesn't allocate.
    pub fn next_registration(
        &self,
        watcher: WatcherId,
        target: NodeId,
    ) -> Result<Option<RegistrationId>, WatchFault>
        requires { watcher.0 < length self.now.part.made }
        ensures answer { Registers result (observes watcher.0 target.0 self.now) (may_register self.now) self.now.part.given }
        ensures memory { ¬ result ≡ Err Memory }
        ensures serials { HasSerials self.now.part }
    {
        if self.made[watcher.0 as usize].observes(target) {
            return Ok(None);
        }
        if !self.has_space() {
            return Err(WatchFault::Limit);
        }
        Ok(Some(RegistrationId(self.given)))
    }

    /// Observes a target (Intersection Observer, 2.2: `observe`): appends a new registration with the next serial number to
    /// the observer's registrations. It has no previous index, so its first update queues an entry. Returns `None`, and
    /// changes nothing, exactly when the target is already observed.
    ///
    /// `Limit` exactly when the target isn't observed and `most_registrations` are held; otherwise `Memory` if an allocation
    /// fails. Requires that fewer than 2^64 - 1 serial numbers have been given out.
    pub fn observe(
        &mut self,
        watcher: WatcherId,
        target: NodeId,
    ) -> Result<Option<RegistrationId>, WatchFault>
        requires watcher { watcher.0 < length self.old.part.made }
        requires serials { self.old.part.given < 2 ^ 64 - 1 }
        ensures answer { Registers result (observes watcher.0 target.0 self.old) (may_register self.old) self.old.part.given }
        ensures observed { OnOk result (self.new ≡ record self.old { part = once_observed watcher.0 target.0 (self.old.part) }) }
        ensures same { OnErr result (self.new ≡ self.old) }
        ensures count { length self.new.part.made ≡ length self.old.part.made }
        ensures given { self.new.part.given ≤ self.old.part.given + 1 }
    {
        if self.made[watcher.0 as usize].observes(target) {
            return Ok(None);
        }
        if !self.has_space() {
            return Err(WatchFault::Limit);
        }
        let Ok(()) = self.places.reserve(1) else {
            return Err(WatchFault::Memory);
        };
        let registration = RegistrationId(self.given);
        let Ok(()) = self.made[watcher.0 as usize].observe(target, registration) else {
            return Err(WatchFault::Memory);
        };
        let place = Place {
            watcher: watcher.0,
            target: target.0,
        };
        self.places.insert(self.given, place).unwrap();
        self.given += 1;
        Ok(Some(registration))
    }

    /// Removes the registration of a target and returns it; `None` exactly when the target isn't observed (Intersection
    /// Observer, 2.2: `unobserve`). The queue is unchanged.
    pub fn unobserve(&mut self, watcher: WatcherId, target: NodeId) -> Option<RegistrationId>
        requires { watcher.0 < length self.old.part.made }
        ensures answer { option_map (λ (it : RegistrationId). it.0) result ≡ serial_of target.0 (watcher_at self.old watcher.0).registrations }
        ensures unobserved { self.new ≡ record self.old { part = without_registration watcher.0 target.0 (self.old.part) } }
        ensures count { length self.new.part.made ≡ length self.old.part.made }
    {
        let registration = self.made[watcher.0 as usize].unobserve(target)?;
        self.places.swap_remove(&registration.0);
        Some(registration)
    }

    /// Returns a target of the observer, the one observed most recently; `None` exactly when it observes none.
    pub fn last_target(&self, watcher: WatcherId) -> Option<NodeId>
        requires { watcher.0 < length self.now.part.made }
        ensures last { let registrations = (watcher_at self.now watcher.0).registrations in
            option_map (λ (target : NodeId). target.0) result ≡ option_map (λ (it : Registration). it.target) (slice_get registrations (length registrations - 1)) }
        ensures some { IfSome result (λ target. is_registered target.0 (watcher_at self.now watcher.0).registrations ≡ true) }
        ensures none { result ≡ None → (watcher_at self.now watcher.0).registrations ≡ [] }
    {
        self.made[watcher.0 as usize].last_target()
    }

    /// Removes all registrations of an observer (Intersection Observer, 2.2: `disconnect`). The queue is unchanged.
    pub fn disconnect(&mut self, watcher: WatcherId)
        requires { watcher.0 < length self.old.part.made }
        ensures disconnected { self.new ≡ record self.old { part = without_registrations watcher.0 (self.old.part) } }
        ensures count { length self.new.part.made ≡ length self.old.part.made }
    {
        // From last to first, so that none has to be shifted.
        while let Some(target) = self.made[watcher.0 as usize].last_target() {
            self.unobserve(watcher, target);
        }
    }

    /// Returns the registrations of an observer in order of the calls of `observe`.
    pub fn registrations(&self, watcher: WatcherId) -> &[RegistrationId]
        requires { watcher.0 < length self.now.part.made }
        ensures value { serial_numbers result.now ≡ map (λ (it : Registration). it.serial) (watcher_at self.now watcher.0).registrations }
        ensures count { length result.now ≡ length (watcher_at self.now watcher.0).registrations }
        ensures standing { All (λ registration. IsStanding registration.0 self.now.part) result.now }
        ensures serials { HasSerials self.now.part }
    {
        self.made[watcher.0 as usize].names()
    }

    // Returns the observer and the target of a registration.
    fn place_of(&self, registration: RegistrationId) -> Place
        requires { IsStanding registration.0 self.now.part }
        ensures value { standing_of registration.0 self.now.part ≡ Some (seen_place result) }
    {
        match self.places.get(&registration.0) {
            Some(place) => *place,
            None => Place {
                watcher: 0,
                target: 0,
            },
        }
    }

    /// Returns the target of a registration.
    pub fn target_of(&self, registration: RegistrationId) -> NodeId
        requires { IsStanding registration.0 self.now.part }
        ensures { option_map (λ (it : Standing). it.target) (standing_of registration.0 self.now.part) ≡ Some result.0 }
    {
        NodeId(self.place_of(registration).target)
    }

    /// Returns the observer of a registration.
    pub fn watcher_of(&self, registration: RegistrationId) -> WatcherId
        requires { IsStanding registration.0 self.now.part }
        ensures value { option_map (λ (it : Standing). it.watcher) (standing_of registration.0 self.now.part) ≡ Some result.0 }
        ensures made { result.0 < length self.now.part.made }
    {
        WatcherId(self.place_of(registration).watcher)
    }

    /// Returns the document that an observer was created for.
    pub fn document_of(&self, watcher: WatcherId) -> DocumentId
        requires { watcher.0 < length self.now.part.made }
        ensures { result.0 ≡ (watcher_at self.now watcher.0).document }
    {
        self.made[watcher.0 as usize].document()
    }

    /// Returns the number of an observer's handler, `None` if it has none.
    pub fn handler_of(&self, watcher: WatcherId) -> Option<u32>
        requires { watcher.0 < length self.now.part.made }
        ensures { result ≡ (watcher_at self.now watcher.0).handler }
    {
        self.made[watcher.0 as usize].handler()
    }

    /// Returns the root of an observer.
    pub fn root_of(&self, watcher: WatcherId) -> Root
        requires { watcher.0 < length self.now.part.made }
        ensures { seen_root result ≡ (watcher_at self.now watcher.0).root }
    {
        self.made[watcher.0 as usize].root()
    }

    /// Returns the root margins of an observer.
    pub fn margins_of(&self, watcher: WatcherId) -> &Margins
        requires { watcher.0 < length self.now.part.made }
        ensures { result.now ≡ (watcher_at self.now watcher.0).margins }
    {
        self.made[watcher.0 as usize].margins()
    }

    /// Returns the thresholds of an observer.
    pub fn thresholds_of(&self, watcher: WatcherId) -> &Thresholds
        requires { watcher.0 < length self.now.part.made }
        ensures { result.now ≡ (watcher_at self.now watcher.0).thresholds }
    {
        self.made[watcher.0 as usize].thresholds()
    }

    /// Returns the queue of an observer, oldest entry first, which stays as it is (Intersection Observer, 2.2: the internal
    /// slot `[[QueuedEntries]]`). It doesn't allocate.
    pub fn queue(&self, watcher: WatcherId) -> &[Entry]
        requires { watcher.0 < length self.now.part.made }
        ensures { seen_entries result.now ≡ (watcher_at self.now watcher.0).queue }
    {
        self.made[watcher.0 as usize].queue()
    }

    /// Stores the finding of a registration's target at a time, and queues an entry at its observer exactly when `index` or
    /// `meets` differs from before (Intersection Observer, 3.2: update intersection observations). The first update of a
    /// registration always queues one.
    ///
    /// Only queueing an entry allocates; if that fails, nothing changes.
    pub fn settle(
        &mut self,
        registration: RegistrationId,
        time: u64,
        finding: Finding,
    ) -> Result<Settled, AllocError>
        requires { IsStanding registration.0 self.old.part }
        ensures settled { OnOk result (self.new ≡ record self.old { part = with_settled registration.0 time (seen_finding finding) (self.old.part) }) }
        ensures same { OnErr result (self.new ≡ self.old) }
        ensures answer { Settles result (is_news_for registration.0 (seen_finding finding) self.old.part) }
        ensures kept { result ≡ Ok Kept → self.new ≡ self.old }
        ensures count { length self.new.part.made ≡ length self.old.part.made }
        ensures given { self.new.part.given ≡ self.old.part.given }
    {
        let place = self.place_of(registration);
        self.made[place.watcher as usize].settle(NodeId(place.target), time, finding)
    }

    /// Takes the queue of an observer, leaving it empty (Intersection Observer, 2.2: `takeRecords`). It doesn't allocate.
    pub fn take_records(&mut self, watcher: WatcherId) -> EntryList
        requires { watcher.0 < length self.old.part.made }
        ensures taken { result ≡ (watcher_at self.old watcher.0).queue }
        ensures emptied { self.new ≡ record self.old { part = without_queue watcher.0 (self.old.part) } }
        ensures count { length self.new.part.made ≡ length self.old.part.made }
    {
        self.made[watcher.0 as usize].take_records()
    }
}
