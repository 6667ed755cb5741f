//! A map from numbers to values, which contracts see as a finite map.
#![tactic(auto)]

ghost use Rattle.std.specs.Prelude.{◌≡◌, true, OnOk, OnErr, IsOk};
ghost use Rattle.std.specs.FinMap as finite;

use indexmap::IndexMap;
use std::alloc::{AllocError, Global};
use std::marker::Model;

/// A map from numbers to `Copy` values. A contract sees the finite map, so the order in which entries were inserted makes no
/// difference. Lookups hash the number, and a removal moves at most one entry.
#[derive(Drop)]
pub struct NumberMap<V> {
    entries: IndexMap<u64, V>,
}

impl<V> Model for NumberMap<V> {
    ghost use Rattle.std.specs.Ordering.{nat_cmp};
    ghost use Rattle.std.specs.Coded.{coded_ℕ};
    ghost use Rattle.std.specs.FinMap as finite;

    ghost Value = { finite.FinMap nat_cmp V };

    ghost coded = { finite.code coded_ℕ V.code };

    ghost view = { λ m. finite.from_entries m.entries.entries };
}

impl<V: Copy> NumberMap<V> {
    /// Creates an empty map; allocates nothing.
    pub fn new(alloc: Global) -> NumberMap<V>
        ensures { result ≡ finite.empty }
    {
        NumberMap {
            entries: IndexMap::new(alloc),
        }
    }

    /// Returns the value of a number, or `None` exactly if it has none.
    pub fn get(&self, number: u64) -> Option<V>
        ensures { result ≡ finite.get self.now number }
    {
        self.entries.get(&number).copied()
    }

    /// Sets the value of a number, replacing the present one if there is one. It fails only when an allocation fails, in which
    /// case nothing changes, and never if the number already has a value.
    pub fn insert(&mut self, number: u64, value: V) -> Result<(), AllocError>
        ensures inserted { OnOk result (self.new ≡ finite.insert self.old number value) }
        ensures same { OnErr result (self.new ≡ self.old) }
        ensures there { finite.contains_key self.old number ≡ true → IsOk result }
    {
        self.entries.insert(number, value)?;
        Ok(())
    }

    /// Removes the value of a number, if it has one. Allocates nothing.
    pub fn remove(&mut self, number: u64)
        ensures { self.new ≡ finite.remove self.old number }
    {
        self.entries.swap_remove(&number);
    }
}
