//! Where a scroll ends, from any state, stated as the contract of an empty function.

ghost use Rattle.std.specs.Prelude.{◌≡◌, ℕ, ℤ};
ghost use Rattle.page_model.specs.World.{Extent, Container, Scrolls};
ghost use Rattle.page_model.specs.Scrolls.{within_range, offset_of, scrolled};

/// After a scroll the offset in force is the requested position clamped to the range, whether it moved or not.
pub fn a_scroll_comes_to_its_position()
    ensures { (it : Scrolls) (document : ℕ) (target : Container) (range : Extent) (left top : ℤ) →
        offset_of target range (scrolled document target (within_range range left top) range it) ≡ within_range range left top }
{}
