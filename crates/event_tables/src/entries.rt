//! Entries in creation order, each under a unique key: what the tables of listeners, frame callbacks and timers share.

ghost use Rattle.std.specs.Prelude.{◌≡◌, ◌<◌, ◌≤◌, ◌+◌, ◌-◌, ◌^◌, [], ◌==◌, false, not, OnOk, OnErr};
ghost use Rattle.std.specs.List.{list_any};
ghost use Rattle.page_model.specs.Lookups.{entered, kept};
ghost use Rattle.event_tables.specs.Answers.{Enters};
ghost use Rattle.event_tables.specs.Entries.{Entry, has_key};
ghost use Rattle.event_tables.specs.Tables.{has_room};

use crate::TableFault;
use indexmap::IndexMap;
use std::alloc::Global;
use std::collections::BTreeMap;
use std::hash::Hash;
use std::marker::Model;

/// Entries in creation order. Contracts see a table of a world, which maps serial numbers to entries, and the limit. Each
/// look-up hashes a key or descends a B-tree; none scans the entries.
#[derive(Drop)]
pub(crate) struct Entries<K: Eq + Hash, V> {
    given: u64,
    // By serial number, which is the creation order.
    held: BTreeMap<u64, (K, V)>,
    // The serial number of the entry of each key.
    serials: IndexMap<K, u64>,
    most: u32,
}

impl<K: Eq + Hash, V> Model for Entries<K, V> {
    ghost use Rattle.event_tables.specs.Entries.{Entry};
    ghost use Rattle.event_tables.specs.Tables.{Bounded};

    ghost Value = { Bounded (Entry K V) };

    ghost use Rattle.event_tables.specs.Entries.{IsIndexed};

    ghost view = { λ e. record { part = record { given = e.given; held = e.held.entries }; most = e.most } };

    ghost invariant = { λ e. IsIndexed K.eq e.given e.held.entries e.serials.entries };
}

impl<K: Copy + Eq + Hash, V: Copy> Entries<K, V> {
    /// Creates an empty set of entries; allocates nothing. At most `most` can be held.
    pub(crate) fn new(alloc: Global, most: u32) -> Entries<K, V>
        ensures { result ≡ record { part = record { given = 0; held = [] }; most = most } }
    {
        Entries {
            given: 0,
            held: BTreeMap::new(alloc),
            serials: IndexMap::new(alloc),
            most,
        }
    }

    pub(crate) fn allocator(&self) -> Global {
        *self.serials.allocator()
    }

    /// Returns the entries by serial number.
    pub(crate) fn held(&self) -> &BTreeMap<u64, (K, V)>
        ensures { result.now.entries ≡ self.now.part.held }
    {
        &self.held
    }

    pub(crate) fn is_full(&self) -> bool
        ensures { result ≡ not (has_room self.now) }
    {
        self.held.len() >= self.most as usize
    }

    pub(crate) fn has_key(&self, key: K) -> bool
        ensures { result ≡ list_any (has_key K.eq key) self.now.part.held }
    {
        self.serials.contains_key(&key)
    }

    /// Whether there is an entry with this serial number.
    pub(crate) fn has_serial(&self, serial: u64) -> bool
        ensures { result ≡ list_any (λ (entry : Entry K V). entry.0 == serial) self.now.part.held }
    {
        self.held.contains_key(&serial)
    }

    /// Appends a value under a key.
    pub(crate) fn enter(&mut self, key: K, value: V) -> Result<(), TableFault>
        requires { self.old.part.given < 2 ^ 64 - 1 }
        ensures answer { Enters result (list_any (has_key K.eq key) self.old.part.held) (has_room self.old) }
        ensures entered { OnOk result (self.new ≡ record self.old { part = entered (λ serial. (serial, (key, value))) (self.old.part) }) }
        ensures same { OnErr result (self.new ≡ self.old) }
        ensures given { self.new.part.given ≤ self.old.part.given + 1 }
    {
        if self.has_key(key) {
            return Err(TableFault::Taken);
        }
        if self.is_full() {
            return Err(TableFault::Limit);
        }
        let Ok(()) = self.serials.reserve(1) else {
            return Err(TableFault::Memory);
        };
        let Ok(_) = self.held.insert(self.given, (key, value)) else {
            return Err(TableFault::Memory);
        };
        self.serials.insert(key, self.given).unwrap();
        self.given += 1;
        Ok(())
    }

    /// Removes the entry of a key. Returns false, and changes nothing, exactly when there is none.
    pub(crate) fn remove(&mut self, key: K) -> bool
        ensures answer { result ≡ list_any (has_key K.eq key) self.old.part.held }
        ensures removed { self.new ≡ record self.old { part = kept (λ entry. not (has_key K.eq key entry)) (self.old.part) } }
        ensures same { result ≡ false → self.new ≡ self.old }
    {
        let Some(serial) = self.serials.swap_remove(&key) else {
            return false;
        };
        self.held.remove(&serial);
        true
    }

    /// Removes the entry with this serial number.
    pub(crate) fn take(&mut self, serial: u64)
        ensures { self.new ≡ record self.old { part = kept (λ (entry : Entry K V). not (entry.0 == serial)) (self.old.part) } }
    {
        let Some(entry) = self.held.remove(&serial) else {
            return;
        };
        self.serials.swap_remove(&entry.0);
    }
}
