//! Lower bounds of the scroll ranges of elements and viewports: as far as a single box reaches. A stored position within it
//! is in force, and nothing else has to be measured.

ghost use Rattle.std.specs.Prelude.{◌≡◌, ◌+◌, ◌-◌, ◌<◌, ◌≤◌, pos, cond, true, Some, None, length, is_some, unsigned_abs};
ghost use Rattle.px_units.specs.Lengths.{cap};
ghost use Rattle.layout_model.specs.Nodes.{is_static};
ghost use Rattle.layout_model.specs.Boxes.{border_size};
ghost use Rattle.layout_model.specs.Clips.{is_scroll_container};
ghost use Rattle.layout_model.specs.Points.{plus, minus, capped, IsWithin};
ghost use Rattle.layout_model.specs.Views.{View, inputs_in_view};
ghost use Rattle.layout_model.specs.Reach.{range_of, range_of_view};
ghost use Rattle.page_model.specs.PageBoxes.{view_with};
ghost use Rattle.scrolling.specs.Ranges.{IsRange};
ghost use Rattle.element_tree.specs.Forest.{has, children_of};
ghost use Rattle.block_layout.specs.Seen.{as_size};
ghost use Rattle.block_layout.specs.Trees.{layout_tree};
ghost use Rattle.page_boxes.specs.Fresh.{HoldsAll};
ghost use Rattle.page_boxes.specs.Pages.{seen_pair};

use crate::documents::ShownRoot;
use crate::ranges::range_between;
use block_layout::{BoxOf, Boxes, Styled, is_hidden, is_scroll_container};
use element_tree::{NodeId, Tree};
use kept_layout::{Kept, Shift};
use layout_model::capped;
use px_units::{BoxKind, Point, Size};
use style_values::Position;

const ORIGIN: Point = Point { left: 0, top: 0 };

const NO_SIZE: Size = Size {
    width: 0,
    height: 0,
};

// Returns the end of a length that begins at `corner`, relative to `less`.
fn end(corner: u64, length: i64, less: i64) -> i64
    requires { corner ≤ 2147483647 }
    ensures { result ≡ pos (cap (corner + unsigned_abs length - unsigned_abs less)) }
{
    capped((corner + length.unsigned_abs()).saturating_sub(less.unsigned_abs())) as i64
}

// Returns the right and bottom edges of a border box at a corner, relative to a point.
fn edges(corner: Shift, own: &BoxOf, from: Point) -> Size
    requires across { corner.across ≤ 2147483647 }
    requires down { corner.down ≤ 2147483647 }
    ensures { result ≡ as_size (capped (minus (plus (corner.across, corner.down) (border_size own.now)) (unsigned_abs from.left, unsigned_abs from.top))) }
{
    let border = own.size(BoxKind::Border);
    Size {
        width: end(corner.across, border.width, from.left),
        height: end(corner.down, border.height, from.top),
    }
}

// Returns a lower bound of the range of the viewport in which a root element is shown, from the border box of that element.
pub(crate) fn root_range<P: Styled>(tree: &Tree<P>, boxes: &Kept, shown: ShownRoot) -> Size
    requires { shown.root.0 < length tree.now.nodes }
    ensures within { let at = layout_tree P.style P.kind tree.now.nodes in (at shown.root.0).parent ≡ None → (view : View) →
        view ≡ view_with (Some shown.root.0) (Some (seen_pair shown.size)) → HoldsAll at view boxes.now →
        IsWithin (seen_pair result) (range_of_view at view) }
    ensures range { IsRange result }
{
    if is_hidden(tree, shown.root) {
        return NO_SIZE;
    }
    let Some(own) = boxes.box_of(shown.root) else {
        return NO_SIZE;
    };
    let corner = boxes.shift(tree, shown.root);
    range_between(edges(corner, &own, ORIGIN), shown.size)
}

// Whether the style of a node has `position: static`, so that its box is at its static position.
fn is_static<P: Styled>(tree: &Tree<P>, node: NodeId) -> bool
    requires { node.0 < length tree.now.nodes }
    ensures { result ≡ is_static ((layout_tree P.style P.kind tree.now.nodes node.0).item.style.position) }
{
    match tree.payload(node).style().position {
        Position::Static => true,
        Position::Relative | Position::Absolute | Position::Fixed => false,
    }
}

// Returns a lower bound of the range of a node that has a box, from the border box of its last child if that is static.
pub(crate) fn last_range<P: Styled>(tree: &Tree<P>, boxes: &Kept, node: NodeId) -> Size
    requires { node.0 < length tree.now.nodes }
    ensures within { let at = layout_tree P.style P.kind tree.now.nodes in (view : View) →
        HoldsAll at view boxes.now → is_some (inputs_in_view at view node.0) ≡ true →
        IsWithin (seen_pair result) (cond (is_scroll_container (at node.0)) (range_of at view node.0) (0, 0)) }
    ensures range { IsRange result }
{
    if !is_scroll_container(tree, node) {
        return NO_SIZE;
    }
    match tree.last_child(node) {
        Some(child) => range_to(tree, boxes, node, child),
        None => NO_SIZE,
    }
}

// Returns a lower bound of the range of a scroll container, from the border box of a child if that is static.
fn range_to<P: Styled>(tree: &Tree<P>, boxes: &Kept, node: NodeId, child: NodeId) -> Size
    requires node { node.0 < length tree.now.nodes }
    requires child { child.0 < length tree.now.nodes }
    requires listed { has (children_of tree.now.nodes node.0) child.0 ≡ true }
    requires scroller { is_scroll_container (layout_tree P.style P.kind tree.now.nodes node.0) ≡ true }
    ensures within { let at = layout_tree P.style P.kind tree.now.nodes in (view : View) →
        HoldsAll at view boxes.now → is_some (inputs_in_view at view node.0) ≡ true →
        IsWithin (seen_pair result) (range_of at view node.0) }
    ensures range { IsRange result }
{
    if is_hidden(tree, child) {
        return NO_SIZE;
    }
    if !is_static(tree, child) {
        return NO_SIZE;
    }
    let Some(outer) = boxes.box_of(node) else {
        return NO_SIZE;
    };
    let Some(own) = boxes.box_of(child) else {
        return NO_SIZE;
    };
    let corner = boxes.shift(tree, child);
    let reach = edges(corner, &own, outer.padding_corner());
    range_between(reach, outer.padding_size())
}
