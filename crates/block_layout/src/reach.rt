//! The scrollable overflow of scroll containers and viewports (CSS Overflow 3, 2.2; CSSOM View: scrolling area).

ghost use Rattle.std.specs.Prelude.{◌≡◌, ◌+◌, ◌*◌, ◌^◌, ◌<◌, ◌≤◌, cond, Some, None, IfSome, length, unsigned_abs};
ghost use Rattle.layout_model.specs.Boxes.{Inputs, kids_of, box_in, border_size, inner_corner};
ghost use Rattle.layout_model.specs.Points.{plus, minus, capped, larger};
ghost use Rattle.layout_model.specs.Views.{View, inputs_in_view};
ghost use Rattle.layout_model.specs.Reach.{reach_of, reach_of_view};
ghost use Rattle.block_layout.specs.Far.{open_kids};
ghost use Rattle.element_tree.specs.Forest.{IsForest, depth, first_of};
ghost use Rattle.element_tree.specs.Links.{node_ids};
ghost use Rattle.block_layout.specs.Around.{seen_extent};
ghost use Rattle.block_layout.specs.Far.{far_in};
ghost use Rattle.block_layout.specs.Filling.{IsUnpositioned};
ghost use Rattle.block_layout.specs.Held.{HoldsBoxes};
ghost use Rattle.block_layout.specs.Ranges.{IsLength};
ghost use Rattle.block_layout.specs.Seen.{as_size};
ghost use Rattle.block_layout.specs.Trees.{layout_tree};

use crate::held::Boxes;
use crate::sizes::Extent;
use crate::trees::{first_inner, is_clipping, is_hidden};
use crate::{BoxOf, Styled};
use element_tree::{NodeId, Tree};
use layout_model::capped;
use px_units::Size;

const NOWHERE: Extent = Extent { across: 0, down: 0 };

impl Extent {
    fn plus(self, by: Extent) -> Extent
        requires across { self.across + by.across < 2 ^ 64 }
        requires down { self.down + by.down < 2 ^ 64 }
        ensures { seen_extent result ≡ plus (seen_extent self) (seen_extent by) }
    {
        Extent {
            across: self.across + by.across,
            down: self.down + by.down,
        }
    }

    fn minus(self, by: Extent) -> Extent
        ensures { seen_extent result ≡ minus (seen_extent self) (seen_extent by) }
    {
        Extent {
            across: self.across.saturating_sub(by.across),
            down: self.down.saturating_sub(by.down),
        }
    }

    fn larger(self, other: Extent) -> Extent
        ensures { seen_extent result ≡ larger (seen_extent self) (seen_extent other) }
    {
        Extent {
            across: self.across.max(other.across),
            down: self.down.max(other.down),
        }
    }

    fn capped(self) -> Extent
        ensures value { seen_extent result ≡ capped (seen_extent self) }
        ensures across { result.across ≤ 2147483647 }
        ensures down { result.down ≤ 2147483647 }
    {
        Extent {
            across: capped(self.across),
            down: capped(self.down),
        }
    }
}

/// Returns the size of the scrollable overflow: if `view` is `None`, of the scroll container `node`, from the corner of its
/// padding box and at its own scroll offset 0; otherwise of the viewport of that size whose root element is `node`. Each
/// length is at most 2,147,483,647 units.
///
/// Exact if no element of the node's tree is positioned, and the boxes of the node and its descendants are up to date in
/// `boxes`. For a box that doesn't clip it is the size of its padding box. It recurses once per level: a tree of 2,000 levels
/// was tested, while some 5,000 may overflow the stack.
pub fn overflow_reach<P: Styled, B: Boxes>(
    tree: &Tree<P>,
    boxes: &B,
    node: NodeId,
    view: Option<Size>,
) -> Size
    requires { node.0 < length tree.now.nodes }
    ensures container { let at = layout_tree P.style P.kind tree.now.nodes in
        view ≡ None → IsUnpositioned at node.0 → (document : View) (inputs : Inputs) → inputs_in_view at document node.0 ≡ Some inputs →
        HoldsBoxes at document node.0 (B.held boxes.now) → result ≡ as_size (reach_of at document node.0) }
    ensures viewport { let at = layout_tree P.style P.kind tree.now.nodes in
        IfSome view (λ size. IsUnpositioned at node.0 → (at node.0).parent ≡ None → (document : View) → document.root ≡ Some node.0 →
        document.width ≡ unsigned_abs size.width → document.height ≡ unsigned_abs size.height →
        HoldsBoxes at document node.0 (B.held boxes.now) → result ≡ as_size (reach_of_view at document)) }
    ensures range { IsLength result.width × IsLength result.height }
{
    match view {
        None => container_reach(tree, boxes, node),
        Some(size) => view_reach(
            tree,
            boxes,
            node,
            Extent {
                across: size.width.unsigned_abs(),
                down: size.height.unsigned_abs(),
            },
        ),
    }
}

// Returns how far a box reaches: over its padding box, and over its content if it clips that.
fn container_reach<P: Styled, B: Boxes>(tree: &Tree<P>, boxes: &B, node: NodeId) -> Size
    requires { node.0 < length tree.now.nodes }
    ensures value { IsUnpositioned (layout_tree P.style P.kind tree.now.nodes) node.0 → (document : View) (inputs : Inputs) →
        inputs_in_view (layout_tree P.style P.kind tree.now.nodes) document node.0 ≡ Some inputs →
        HoldsBoxes (layout_tree P.style P.kind tree.now.nodes) document node.0 (B.held boxes.now) →
        result ≡ as_size (reach_of (layout_tree P.style P.kind tree.now.nodes) document node.0) }
    ensures range { IsLength result.width × IsLength result.height }
{
    match boxes.box_of(node) {
        Some(own) => {
            let far = far_inside(tree, boxes, node, own, NOWHERE, !is_clipping(tree, node));
            let inside = far.minus(own.padding_offset());
            own.padding_extent().larger(inside).capped().size()
        }
        None => NOWHERE.size(),
    }
}

fn view_reach<P: Styled, B: Boxes>(tree: &Tree<P>, boxes: &B, root: NodeId, size: Extent) -> Size
    requires { root.0 < length tree.now.nodes }
    ensures value { IsUnpositioned (layout_tree P.style P.kind tree.now.nodes) root.0 → (layout_tree P.style P.kind tree.now.nodes root.0).parent ≡ None → (document : View) →
        document.root ≡ Some root.0 → document.width ≡ size.across → document.height ≡ size.down →
        HoldsBoxes (layout_tree P.style P.kind tree.now.nodes) document root.0 (B.held boxes.now) →
        result ≡ as_size (reach_of_view (layout_tree P.style P.kind tree.now.nodes) document) }
    ensures range { IsLength result.width × IsLength result.height }
{
    match shown_box(tree, boxes, root) {
        Some(own) => {
            let corner = own.margin_offset();
            let deeper = far_inside(tree, boxes, root, own, corner, is_clipping(tree, root));
            size.larger(far_edge(corner, own, deeper)).capped().size()
        }
        None => size.capped().size(),
    }
}

// Returns the box held for a node, `None` if the node isn't displayed.
fn shown_box<P: Styled, B: Boxes>(tree: &Tree<P>, boxes: &B, node: NodeId) -> Option<BoxOf>
    requires { node.0 < length tree.now.nodes }
    ensures value { result ≡ cond (layout_tree P.style P.kind tree.now.nodes node.0).item.style.hidden None (B.held boxes.now node.0) }
    ensures forest { IsForest tree.now.most_depth tree.now.nodes }
{
    if is_hidden(tree, node) {
        return None;
    }
    boxes.box_of(node)
}

// Returns the offset from the corner of a parent's border box to that of a child's, `above` being the height of its earlier
// siblings.
fn offset(parent: BoxOf, above: u64, child: BoxOf) -> Extent
    requires { above ≤ 2147483647 }
    ensures value { seen_extent result ≡ capped (plus (plus (inner_corner parent) (0, above)) (child.margin.left, child.margin.top)) }
    ensures across { result.across ≤ 2147483647 }
    ensures down { result.down ≤ 2147483647 }
{
    let inner = parent.inner_corner();
    let margin = child.margin_offset();
    let whole = Extent {
        across: inner.across + margin.across,
        down: inner.down + above + margin.down,
    };
    whole.capped()
}

// Returns the farther of a border box's right and bottom edges and of `deeper`, those of its content.
fn far_edge(corner: Extent, own: BoxOf, deeper: Extent) -> Extent
    requires across { corner.across ≤ 65536 * 2147483647 }
    requires down { corner.down ≤ 65536 * 2147483647 }
    ensures { seen_extent result ≡ larger (plus (seen_extent corner) (border_size own)) (seen_extent deeper) }
{
    corner.plus(own.border_extent()).larger(deeper)
}

// Returns the first of the children whose boxes count for the overflow of an outer box, `None` if the node clips them.
fn first_open<P: Styled>(tree: &Tree<P>, node: NodeId, closed: bool) -> Option<NodeId>
    requires { node.0 < length tree.now.nodes }
    ensures value { result ≡ node_ids (first_of (open_kids closed (kids_of (layout_tree P.style P.kind tree.now.nodes node.0)))) }
    ensures forest { IsForest tree.now.most_depth tree.now.nodes }
{
    let first = first_inner(tree, node);
    if closed { None } else { first }
}

// Returns the farthest edges of the border boxes in a node, given the corner of its own border box. `closed` means that none
// of them counts.
fn far_inside<P: Styled, B: Boxes>(
    tree: &Tree<P>,
    boxes: &B,
    node: NodeId,
    own: BoxOf,
    corner: Extent,
    closed: bool,
) -> Extent
    requires node { node.0 < length tree.now.nodes }
    requires across { corner.across ≤ depth tree.now.nodes node.0 * 2147483647 }
    requires down { corner.down ≤ depth tree.now.nodes node.0 * 2147483647 }
    ensures { IsUnpositioned (layout_tree P.style P.kind tree.now.nodes) node.0 → (document : View) (inputs : Inputs) →
        inputs_in_view (layout_tree P.style P.kind tree.now.nodes) document node.0 ≡ Some inputs →
        HoldsBoxes (layout_tree P.style P.kind tree.now.nodes) document node.0 (B.held boxes.now) →
        own ≡ box_in (layout_tree P.style P.kind tree.now.nodes) inputs node.0 →
        seen_extent result ≡ far_in (layout_tree P.style P.kind tree.now.nodes) node.0 inputs (seen_extent corner) (open_kids closed (kids_of (layout_tree P.style P.kind tree.now.nodes node.0))) }
{
    let mut far = NOWHERE;
    let mut above = 0;
    let mut next = first_open(tree, node, closed);
    while let Some(child) = next {
        if let Some(inner) = shown_box(tree, boxes, child) {
            let place = corner.plus(offset(own, above, inner));
            let deeper = far_inside(tree, boxes, child, inner, place, is_clipping(tree, child));
            far = far.larger(far_edge(place, inner, deeper));
            above = capped(above + inner.margin_units());
        }
        next = tree.next_sibling(child);
    }
    far
}
