//! Scroll offsets in force of elements, found once for many readings.

ghost use Rattle.std.specs.Prelude.{◌≡◌, ◌<◌, true, IfSome, IfOk, length, is_some};
ghost use Rattle.layout_model.specs.Views.{View, inputs_in_view};
ghost use Rattle.layout_model.specs.Reach.{offset_in_force};
ghost use Rattle.page_model.specs.PageBoxes.{stored_in};
ghost use Rattle.block_layout.specs.Seen.{as_point};
ghost use Rattle.block_layout.specs.Trees.{layout_tree};
ghost use Rattle.kept_layout.specs.Measures.{IsSized};
ghost use Rattle.page_boxes.specs.Fresh.{HoldsAll};
ghost use Rattle.page_boxes.specs.Offsets.{AreOffsets, AreInForce, AreScrolled};
ghost use Rattle.page_boxes.specs.Ranges.{IsOffset};

use crate::in_force::{boxed_offset, is_at_start};
use block_layout::Styled;
use element_tree::{Container, NodeId, Tree};
use kept_layout::Kept;
use number_map::NumberMap;
use px_units::Point;
use scrolling::Scrolls;
use std::alloc::{AllocError, Global};

/// Returns a map of the scroll offsets in force of exactly the nodes whose stored position isn't 0. Each is exact only
/// if the boxes of the node's document are up to date (`refresh_in`) and no length of its viewport is above the largest one.
///
/// # Errors
///
/// If an allocation fails.
pub fn boxed_offsets<P: Styled>(
    alloc: Global,
    tree: &Tree<P>,
    boxes: &Kept,
    scrolls: &Scrolls,
) -> Result<NumberMap<Point>, AllocError>
    ensures value { let at = layout_tree P.style P.kind tree.now.nodes in (view : View) → IsSized view →
        HoldsAll at view boxes.now → IfOk result (λ found. AreInForce at (stored_in scrolls.now) view found) }
    ensures scrolled { IfOk result (λ found. AreScrolled (length tree.now.nodes) scrolls.now found) }
    ensures range { IfOk result (λ found. AreOffsets found) }
{
    let mut found = NumberMap::new(alloc);
    for number in 0..u32::MAX {
        let node = NodeId(number);
        if !tree.holds(node) {
            break;
        }
        if !is_at_start(scrolls, Container::Element(node)) {
            found.insert(u64::from(number), boxed_offset(tree, boxes, scrolls, node))?;
        }
    }
    Ok(found)
}

// Returns the scroll offset in force of a node that has a box: the one in `found`, otherwise measured.
pub(crate) fn offset_of<P: Styled>(
    tree: &Tree<P>,
    boxes: &Kept,
    scrolls: &Scrolls,
    found: Option<&NumberMap<Point>>,
    node: NodeId,
) -> Point
    requires node { node.0 < length tree.now.nodes }
    requires found { IfSome found (λ map. AreOffsets map.now) }
    ensures value { let at = layout_tree P.style P.kind tree.now.nodes in (view : View) → IsSized view →
        HoldsAll at view boxes.now → IfSome found.entry (λ map. AreInForce at (stored_in scrolls.now) view map.now) →
        is_some (inputs_in_view at view node.0) ≡ true → result ≡ as_point (offset_in_force at (stored_in scrolls.now) view node.0) }
    ensures range { IsOffset result }
{
    if let Some(map) = found {
        if let Some(offset) = map.get(u64::from(node.0)) {
            return offset;
        }
    }
    boxed_offset(tree, boxes, scrolls, node)
}
