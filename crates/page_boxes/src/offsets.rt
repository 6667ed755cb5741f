//! How far the holders of a box are scrolled, and its place then (CSS 2.2, 9.4.1 and 10.1; CSSOM View, 6).

ghost use Rattle.std.specs.Prelude.{◌≡◌, ◌*◌, ◌<◌, ◌≤◌, ℕ, true, cond, length, IfSome, is_some, unsigned_abs};
ghost use Rattle.layout_model.specs.Nodes.{holders_of, is_on_screen};
ghost use Rattle.layout_model.specs.Points.{plus, moved_back, sum_points};
ghost use Rattle.layout_model.specs.Views.{View, inputs_in_view};
ghost use Rattle.layout_model.specs.Reach.{offset_in_force, view_in_force};
ghost use Rattle.layout_model.specs.Places.{place_in};
ghost use Rattle.block_layout.specs.Seen.{as_point};
ghost use Rattle.block_layout.specs.Trees.{layout_tree};
ghost use Rattle.positioned_layout.specs.Seen.{IsNear};
ghost use Rattle.kept_layout.specs.Measures.{IsSized};
ghost use Rattle.page_model.specs.PageBoxes.{point_of, stored_in};
ghost use Rattle.page_boxes.specs.Fresh.{HoldsAll};
ghost use Rattle.page_boxes.specs.Offsets.{AreOffsets, AreInForce};
ghost use Rattle.page_boxes.specs.Ranges.{IsOffset, IsPlace};

use crate::found::offset_of;
use block_layout::Styled;
use element_tree::{NodeId, Tree};
use kept_layout::{Kept, Shift};
use number_map::NumberMap;
use positioned_layout::{Holder, holder_of};
use px_units::Point;
use scrolling::Scrolls;

fn unsigned(offset: Point) -> Shift
    ensures across { result.across ≡ unsigned_abs offset.left }
    ensures down { result.down ≡ unsigned_abs offset.top }
{
    Shift {
        across: offset.left.unsigned_abs(),
        down: offset.top.unsigned_abs(),
    }
}

// Returns the scroll offset in force of a node that has a box.
fn own_scroll<P: Styled>(
    tree: &Tree<P>,
    boxes: &Kept,
    scrolls: &Scrolls,
    found: Option<&NumberMap<Point>>,
    node: NodeId,
) -> Shift
    requires node { node.0 < length tree.now.nodes }
    requires found { IfSome found (λ map. AreOffsets map.now) }
    ensures value { let at = layout_tree P.style P.kind tree.now.nodes in (view : View) → IsSized view →
        HoldsAll at view boxes.now → IfSome found.entry (λ map. AreInForce at (stored_in scrolls.now) view map.now) →
        is_some (inputs_in_view at view node.0) ≡ true →
        (result.across, result.down) ≡ offset_in_force at (stored_in scrolls.now) view node.0 }
    ensures across { result.across ≤ 2147483647 }
    ensures down { result.down ≤ 2147483647 }
{
    unsigned(offset_of(tree, boxes, scrolls, found, node))
}

// How far the elements that hold a box are scrolled, and whether the screen holds the last of them.
#[derive(Clone, Copy)]
struct HolderScroll {
    shift: Shift,
    on_screen: bool,
}

fn scrolled<P: Styled>(
    tree: &Tree<P>,
    boxes: &Kept,
    scrolls: &Scrolls,
    found: Option<&NumberMap<Point>>,
    node: NodeId,
) -> HolderScroll
    requires node { node.0 < length tree.now.nodes }
    requires found { IfSome found (λ map. AreOffsets map.now) }
    ensures value { let at = layout_tree P.style P.kind tree.now.nodes in (view : View) → IsSized view →
        HoldsAll at view boxes.now → IfSome found.entry (λ map. AreInForce at (stored_in scrolls.now) view map.now) →
        is_some (inputs_in_view at view node.0) ≡ true →
        (result.shift.across, result.shift.down) ≡ sum_points (offset_in_force at (stored_in scrolls.now) view) (holders_of at node.0) }
    ensures ends { result.on_screen ≡ is_on_screen (layout_tree P.style P.kind tree.now.nodes) node.0 }
    ensures across { result.shift.across ≤ 2147483647 * tree.now.most_depth }
    ensures down { result.shift.down ≤ 2147483647 * tree.now.most_depth }
{
    let mut shift = Shift::NONE;
    let mut held = holder_of(tree, node);
    while let Holder::Node(element) = held {
        let more = own_scroll(tree, boxes, scrolls, found, element);
        shift = Shift {
            across: shift.across + more.across,
            down: shift.down + more.down,
        };
        held = holder_of(tree, element);
    }
    let on_screen = match held {
        Holder::Screen => true,
        Holder::Node(_) | Holder::Page => false,
    };
    HolderScroll { shift, on_screen }
}

// Moves a flat place back by the scroll offsets of the elements that hold the box and of the viewport.
fn moved_back(place: Point, inner: Shift, view: Shift) -> Point
    requires left { IsNear 256 place.left }
    requires top { IsNear 256 place.top }
    requires inner_across { inner.across ≤ 2147483647 * 256 }
    requires inner_down { inner.down ≤ 2147483647 * 256 }
    requires view_across { view.across ≤ 2147483647 }
    requires view_down { view.down ≤ 2147483647 }
    ensures value { result ≡ point_of (moved_back (place.left, place.top) (plus (inner.across, inner.down) (view.across, view.down))) }
    ensures left { IsPlace result.left }
    ensures top { IsPlace result.top }
{
    Point {
        left: place.left - (inner.across + view.across) as i64,
        top: place.top - (inner.down + view.down) as i64,
    }
}

// Returns how far a viewport's scroll offset moves a box: 0 if the screen is its outermost holder.
fn view_shift(view: Point, on_screen: bool) -> Shift
    requires { IsOffset view }
    ensures left { result.across ≡ cond on_screen 0 (unsigned_abs view.left) }
    ensures top { result.down ≡ cond on_screen 0 (unsigned_abs view.top) }
    ensures across { result.across ≤ 2147483647 }
    ensures down { result.down ≤ 2147483647 }
{
    if on_screen {
        Shift::NONE
    } else {
        unsigned(view)
    }
}

/// Returns the place of the border box of a node that has a box, in its document's viewport, `view` being the viewport's
/// scroll offset (CSSOM View, 6: `getBoundingClientRect`). Exact if the boxes of its document are up to date
/// (`refresh_in`) and no length of the viewport is above the largest one. Doesn't allocate.
///
/// It visits the boxes of the node, its ancestors and its holders alone, with the cached height above each; scroll offsets on
/// the way are measured unless they are in `found` (`boxed_offsets`).
pub fn place_in<P: Styled>(
    tree: &Tree<P>,
    boxes: &Kept,
    scrolls: &Scrolls,
    found: Option<&NumberMap<Point>>,
    view: Point,
    node: NodeId,
) -> Point
    requires depth { tree.now.most_depth ≤ 256 }
    requires found { IfSome found (λ map. AreOffsets map.now) }
    requires view { IsOffset view }
    ensures value { let at = layout_tree P.style P.kind tree.now.nodes in (inside : View) (scrolled : ℕ × ℕ) → IsSized inside →
        HoldsAll at inside boxes.now → IfSome found.entry (λ map. AreInForce at (stored_in scrolls.now) inside map.now) →
        is_some (inputs_in_view at inside node.0) ≡ true →
        view ≡ as_point (view_in_force at (record inside { scrolled = scrolled })) →
        result ≡ point_of (place_in at (stored_in scrolls.now) (record inside { scrolled = scrolled }) node.0) }
    ensures left { IsPlace result.left }
    ensures top { IsPlace result.top }
{
    let place = boxes.flat_place_of(tree, node);
    if !tree.holds(node) {
        return place;
    }
    let scrolled = scrolled(tree, boxes, scrolls, found, node);
    moved_back(place, scrolled.shift, view_shift(view, scrolled.on_screen))
}
