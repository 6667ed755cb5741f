//! Listeners, and the dispatch of an event to them (DOM, 2.7 and 2.9).

ghost use Rattle.std.specs.Prelude.{◌≡◌, ◌≤◌, ◌+◌, ◌<◌, ◌-◌, ◌^◌, [], ◌∷◌, ◌==◌, false, find, filter, map, option_map, ◌&&◌, if◌then◌else◌, IfOk, OnErr, MatchOption};
ghost use Rattle.std.specs.List.{list_any};
ghost use Rattle.page_model.specs.World.{Listener as ModelListener};
ghost use Rattle.page_model.specs.Listeners.{is_same_target, is_same_event, hears, is_listening, with_listener, without_listener, listeners_of, listener_stands};
ghost use Rattle.event_tables.specs.Answers.{Adds};
ghost use Rattle.event_tables.specs.Handed.{behind_first};
ghost use Rattle.event_tables.specs.Seen.{seen_target, seen_key, seen_listener, seen_copy};
ghost use Rattle.event_tables.specs.Tables.{has_room};

use crate::entries::Entries;
use crate::events::{TargetKey, is_same_kind, is_same_target};
use crate::{EventTarget, HandlerId, TableFault};
use std::alloc::{AllocError, Global};
use std::collections::{BTreeMap, VecDeque};
use std::marker::Model;
use text_io::EventKind;

/// The identity of a listener: there is at most one for each target, event and handler.
#[derive(Clone, Copy, PartialEq, Eq, Hash)]
pub(crate) struct ListenerKey {
    pub(crate) target: TargetKey,
    pub(crate) kind: EventKind,
    pub(crate) handler: HandlerId,
}

impl ListenerKey {
    fn new(target: EventTarget, kind: EventKind, handler: HandlerId) -> ListenerKey
        ensures target { seen_key result.target ≡ seen_target target }
        ensures rest { (result.kind ≡ kind) × (result.handler ≡ handler) }
    {
        ListenerKey {
            target: TargetKey::of(target),
            kind,
            handler,
        }
    }
}

// Whether the listener with this key listens for this event at this target.
fn hears(key: ListenerKey, target: EventTarget, kind: EventKind) -> bool
    ensures { result ≡ (is_same_target (seen_target target) (seen_key key.target) && is_same_event kind key.kind) }
{
    is_same_target(target, key.target) && is_same_kind(kind, key.kind)
}

/// A copied listener.
#[derive(Clone, Copy)]
pub(crate) struct Listener {
    pub(crate) serial: u64,
    pub(crate) key: ListenerKey,
}

/// The listeners of a page in creation order. Contracts see them as the definitions of a world do, with the count of serial
/// numbers given out and the limit.
#[derive(Drop)]
pub struct Listeners {
    entries: Entries<ListenerKey, ()>,
}

impl Model for Listeners {
    ghost use Rattle.page_model.specs.World.{Listener as ModelListener};
    ghost use Rattle.event_tables.specs.Tables.{Bounded};

    ghost Value = { Bounded ModelListener };

    ghost use Rattle.event_tables.specs.Seen.{seen_listener};
    ghost use Rattle.event_tables.specs.Tables.{seen_table};

    ghost view = { λ l. seen_table seen_listener l.entries };
}

impl Listeners {
    /// Creates an empty set of listeners; allocates nothing. At most `most` can be held.
    pub fn new(alloc: Global, most: u32) -> Listeners
        ensures { result ≡ record { part = record { given = 0; held = [] }; most = most } }
    {
        Listeners {
            entries: Entries::new(alloc, most),
        }
    }

    /// Appends a listener (DOM, 2.7: add an event listener). Returns false, and changes nothing, exactly when the same
    /// handler already listens for the same event at the same target.
    ///
    /// `Limit` exactly when it doesn't yet and `most` are held; otherwise `Memory` if an allocation fails; never `Taken`.
    /// Requires that fewer than 2^64 - 1 serial numbers have been given out.
    pub fn add(
        &mut self,
        target: EventTarget,
        kind: EventKind,
        handler: HandlerId,
    ) -> Result<bool, TableFault>
        requires { self.old.part.given < 2 ^ 64 - 1 }
        ensures answer { Adds result (is_listening (seen_target target) kind handler.0 self.old.part) (has_room self.old) }
        ensures added { IfOk result (λ added. self.new ≡ (if added then record self.old { part = with_listener (seen_target target) kind handler.0 (self.old.part) } else self.old)) }
        ensures same { OnErr result (self.new ≡ self.old) }
        ensures given { self.new.part.given ≤ self.old.part.given + 1 }
    {
        let key = ListenerKey::new(target, kind, handler);
        match self.entries.enter(key, ()) {
            Ok(()) => Ok(true),
            Err(TableFault::Taken) => Ok(false),
            Err(TableFault::Limit) => Err(TableFault::Limit),
            Err(TableFault::Memory) => Err(TableFault::Memory),
        }
    }

    /// Removes the listener of a handler for an event at a target (DOM, 2.7: remove an event listener). Returns false, and
    /// changes nothing, exactly when there is none.
    pub fn remove(&mut self, target: EventTarget, kind: EventKind, handler: HandlerId) -> bool
        ensures answer { result ≡ is_listening (seen_target target) kind handler.0 self.old.part }
        ensures removed { self.new ≡ record self.old { part = without_listener (seen_target target) kind handler.0 (self.old.part) } }
        ensures same { result ≡ false → self.new ≡ self.old }
    {
        self.entries.remove(ListenerKey::new(target, kind, handler))
    }

    /// Copies the listeners for an event as it reaches a target (DOM, 2.9: inner invoke).
    pub fn begin_dispatch(
        &self,
        target: EventTarget,
        kind: EventKind,
    ) -> Result<Dispatch, AllocError>
        ensures { IfOk result (λ dispatch. dispatch ≡ listeners_of (seen_target target) kind self.now.part) }
    {
        let left = copies(self.entries.allocator(), self.entries.held(), target, kind)?;
        Ok(Dispatch { left })
    }

    /// Returns the handler of the first listener of the dispatch that is still registered; the dispatch is advanced past it.
    /// `None` exactly when none of the rest is still registered. One that was removed and added again counts as a different
    /// one.
    pub fn next(&self, dispatch: &mut Dispatch) -> Option<HandlerId>
        ensures value { option_map (λ handler. handler.0) result ≡ option_map (λ (it : ModelListener). it.handler) (find (λ it. listener_stands it self.now.part) dispatch.old) }
        ensures left { dispatch.new ≡ behind_first (λ it. listener_stands it self.now.part) dispatch.old }
    {
        while let Some(listener) = dispatch.pop() {
            if self.stands(listener.serial) {
                return Some(listener.key.handler);
            }
        }
        None
    }

    // Whether the listener with this serial number is registered.
    fn stands(&self, serial: u64) -> bool
        ensures { result ≡ list_any (λ (held : ModelListener). held.serial == serial) self.now.part.held }
    {
        self.entries.has_serial(serial)
    }
}

// Copies those for an event at a target.
fn copies(
    alloc: Global,
    held: &BTreeMap<u64, (ListenerKey, ())>,
    target: EventTarget,
    kind: EventKind,
) -> Result<VecDeque<Listener>, AllocError>
    ensures { IfOk result (λ left. map seen_copy left.items ≡ filter (hears (seen_target target) kind) (map seen_listener held.now.entries)) }
{
    let mut left = VecDeque::new(alloc);
    for (serial, (key, _)) in held {
        if hears(*key, target, kind) {
            left.push_back(Listener {
                serial: *serial,
                key: *key,
            })?;
        }
    }
    Ok(left)
}

/// The listeners that were copied when an event reached its target, and that `next` hasn't taken yet. Contracts see them as a
/// list of listeners.
#[derive(Drop)]
pub struct Dispatch {
    left: VecDeque<Listener>,
}

impl Model for Dispatch {
    ghost use Rattle.std.specs.Prelude.{List, map};
    ghost use Rattle.page_model.specs.World.{Listener as ModelListener};

    ghost Value = { List ModelListener };

    ghost use Rattle.event_tables.specs.Seen.{seen_copy};

    ghost view = { λ d. map seen_copy d.left.items };
}

impl Dispatch {
    // Removes the first one.
    fn pop(&mut self) -> Option<Listener>
        ensures { MatchOption result ((self.old ≡ []) × (self.new ≡ [])) (λ listener. self.old ≡ seen_copy listener ∷ self.new) }
    {
        self.left.pop_front()
    }
}
