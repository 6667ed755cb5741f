//! How gathering and deliveries relate to the steps of the standard: each law is stated as the contract of an empty function.

ghost use Rattle.std.specs.Prelude.{◌≡◌, ◌≤◌, ◌<◌, ℕ, suc, List, [], map, nat_lt, Some, None};
ghost use Rattle.page_model.specs.World.{Observation, ResizeObservers};
ghost use Rattle.page_model.specs.Gathering.{Sight, SizeEntry, has_active, size_entry, due_at};
ghost use Rattle.depth_gather.specs.Gathering.{active_count};
ghost use Rattle.depth_gather.specs.Entries.{seen_entry, as_entry};
ghost use Rattle.depth_gather.specs.Deliveries.{Turn, turn_from, active_at, entries_in};
ghost use Rattle.depth_gather.specs.Turning.{IsNext};

/// A document has active observations exactly when their count isn't 0.
pub fn something_is_active_where_it_is_counted()
    ensures { (it : ResizeObservers) (document : ℕ) → has_active document it ≡ nat_lt 0 (active_count document it) }
{}

/// The entries of a delivery are those of the broadcast.
pub fn entries_are_those_of_a_broadcast()
    ensures entries { (sight : Sight) (active : List Observation) → map seen_entry (entries_in sight active) ≡ map (size_entry sight) active }
    ensures standing { (entry : SizeEntry) → seen_entry (as_entry entry) ≡ entry }
{}

/// Iterating over a document's observers by index is the same as the broadcast's iteration over all observers by number:
/// nothing is due at the numbers in between. The observer at an index depends only on the observers before it, so it is the
/// same after a callback has created more.
pub fn turns_are_those_of_a_broadcast()
    ensures found { (it : ResizeObservers) (document place number : ℕ) (turn : Turn) →
        IsNext document place number it → turn_from document place it ≡ Some turn →
        (number ≤ turn.observer)
        × ((n : ℕ) → number ≤ n → n < turn.observer → due_at document n it ≡ [])
        × (due_at document turn.observer it ≡ active_at it turn.observer)
        × IsNext document turn.place (suc turn.observer) it }
    ensures none { (it : ResizeObservers) (document place number : ℕ) →
        IsNext document place number it → turn_from document place it ≡ None →
        (n : ℕ) → number ≤ n → due_at document n it ≡ [] }
{}
