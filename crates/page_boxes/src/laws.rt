//! An empty cache is sound for every page.

ghost use Rattle.std.specs.Prelude.{◌≡◌, ◌≤◌, ℕ, List, length};
ghost use Rattle.page_model.specs.World.{Tree};
ghost use Rattle.kept_layout.specs.declared.slots.Slot.{Slot};
ghost use Rattle.kept_layout.specs.Slots.{slot_in, no_slot};
ghost use Rattle.page_boxes.specs.Kept.{AreKept};

/// A cache without boxes and marks is sound for any page that it has the slots for.
pub fn nothing_kept_fits()
    ensures { (tree : Tree) (kept : List Slot) → length tree.elements ≤ length kept → ((n : ℕ) → slot_in kept n ≡ no_slot) → AreKept tree kept }
{}
