//! Scroll offsets in force: the stored position, clamped to the current range (CSSOM View, 4 to 6). No range is measured if
//! no position is stored, or if a single box reaches as far as the stored position.

ghost use Rattle.std.specs.Prelude.{◌≡◌, ◌<◌, ℕ, true, Some, None, IfSome, length, is_some};
ghost use Rattle.layout_model.specs.Points.{IsWithin};
ghost use Rattle.layout_model.specs.Views.{View, inputs_in_view};
ghost use Rattle.layout_model.specs.Reach.{offset_in_force, range_of_view};
ghost use Rattle.page_model.specs.Lookups.{no_extent};
ghost use Rattle.page_model.specs.Scrolls.{position_of, lesser_extent};
ghost use Rattle.page_model.specs.PageBoxes.{extent_of, view_with, stored_in};
ghost use Rattle.container_model.specs.Seen.{seen_container};
ghost use Rattle.scrolling.specs.Seen.{point_of};
ghost use Rattle.block_layout.specs.Seen.{as_point};
ghost use Rattle.block_layout.specs.Trees.{layout_tree};
ghost use Rattle.kept_layout.specs.Measures.{IsSized};
ghost use Rattle.page_tree.specs.Items.{IsNatural};
ghost use Rattle.page_boxes.specs.Fresh.{HoldsAll};
ghost use Rattle.page_boxes.specs.Pages.{seen_pair};
ghost use Rattle.page_boxes.specs.Ranges.{IsOffset};

use crate::documents::ShownRoot;
use crate::least::{last_range, root_range};
use crate::ranges::{boxed_range, shown_range};
use block_layout::Styled;
use element_tree::{Container, NodeId, Tree};
use kept_layout::Kept;
use px_units::{Point, Size};
use scrolling::Scrolls;

const ORIGIN: Point = Point { left: 0, top: 0 };

/// The largest possible scroll range.
const FARTHEST: Size = Size {
    width: 2_147_483_647,
    height: 2_147_483_647,
};

/// Whether the stored position of a target is 0, so that it isn't scrolled whatever its range. Doesn't allocate.
pub fn is_at_start(scrolls: &Scrolls, target: Container) -> bool
    ensures start { result ≡ true → position_of (seen_container target) scrolls.now ≡ no_extent }
    ensures moved { position_of (seen_container target) scrolls.now ≡ no_extent → result ≡ true }
{
    let stored = scrolls.offset_in_force(target, FARTHEST);
    stored.left == 0 && stored.top == 0
}

// Returns the stored position of a target if it lies within a lower bound of the target's range.
fn stored_within(scrolls: &Scrolls, target: Container, least: Size) -> Option<Point>
    ensures value { IfSome result (λ offset. (range : ℕ × ℕ) → IsWithin (seen_pair least) range → IsWithin range (2147483647, 2147483647) →
        offset ≡ point_of (lesser_extent (position_of (seen_container target) scrolls.now) (extent_of range))) }
    ensures range { IfSome result IsOffset }
{
    let stored = scrolls.offset_in_force(target, FARTHEST);
    if stored.left <= least.width && stored.top <= least.height {
        Some(stored)
    } else {
        None
    }
}

/// Returns the scroll offset in force of a node that has a box (CSSOM View, 6: `scrollTop`): on each axis the lesser of the
/// stored position and the range. Exact if the boxes of its document are up to date (`refresh_in`) and no length of its
/// viewport is above the largest one. Doesn't allocate.
pub fn boxed_offset<P: Styled>(
    tree: &Tree<P>,
    boxes: &Kept,
    scrolls: &Scrolls,
    node: NodeId,
) -> Point
    requires { node.0 < length tree.now.nodes }
    ensures value { let at = layout_tree P.style P.kind tree.now.nodes in (view : View) → IsSized view →
        HoldsAll at view boxes.now → is_some (inputs_in_view at view node.0) ≡ true →
        result ≡ as_point (offset_in_force at (stored_in scrolls.now) view node.0) }
    ensures range { IsOffset result }
{
    let target = Container::Element(node);
    if is_at_start(scrolls, target) {
        return ORIGIN;
    }
    match stored_within(scrolls, target, last_range(tree, boxes, node)) {
        Some(stored) => stored,
        None => {
            let range = boxed_range(tree, boxes, node);
            scrolls.offset_in_force(target, range)
        }
    }
}

/// Returns the scroll offset in force of the viewport in which a root element is shown (CSSOM View, 4: `scrollY`). Exact only
/// if the boxes of the document are up to date (`refresh_in`). Doesn't allocate.
pub fn shown_offset<P: Styled>(
    tree: &Tree<P>,
    boxes: &Kept,
    scrolls: &Scrolls,
    target: Container,
    shown: ShownRoot,
) -> Point
    requires root { shown.root.0 < length tree.now.nodes }
    requires size { IsNatural shown.size }
    ensures value { let at = layout_tree P.style P.kind tree.now.nodes in (at shown.root.0).parent ≡ None → (view : View) →
        view ≡ view_with (Some shown.root.0) (Some (seen_pair shown.size)) → HoldsAll at view boxes.now →
        result ≡ point_of (lesser_extent (position_of (seen_container target) scrolls.now) (extent_of (range_of_view at view))) }
    ensures range { IsOffset result }
{
    match stored_within(scrolls, target, root_range(tree, boxes, shown)) {
        Some(stored) => stored,
        None => scrolls.offset_in_force(target, shown_range(tree, boxes, shown)),
    }
}
