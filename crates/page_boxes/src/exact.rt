//! Cached boxes that aren't due are up to date.

ghost use Rattle.std.specs.Prelude.{◌≡◌, ℕ, false};
ghost use Rattle.page_model.specs.World.{Screen as WorldScreen};
ghost use Rattle.page_boxes.specs.Fresh.{IsFresh};
ghost use Rattle.page_boxes.specs.Kept.{AreKept, IsExact, is_due};

use element_tree::NodeId;
use kept_layout::Kept;
use page_tree::PageTree;

/// The stored box of an element that has a box and isn't due is its current box, whatever screen `top` is shown on; so if
/// none is due, all boxes of the page are up to date. A law about every sound cache: the call does nothing.
pub fn undue_boxes_are_exact(boxes: &Kept, page: &PageTree)
    requires { AreKept page.now.tree boxes.now }
    ensures exact { (screen : WorldScreen) → IsExact page.now.tree screen boxes.now }
    ensures fresh { (screen : WorldScreen) → ((n : ℕ) → is_due page.now.tree screen boxes.now n ≡ false) → IsFresh page.now.tree screen boxes.now }
{
    // Yields that the elements form trees.
    page.tree().holds(NodeId(0));
}
