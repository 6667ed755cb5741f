//! The places of border boxes while nothing is scrolled.

ghost use Rattle.std.specs.Prelude.{◌≡◌, ◌<◌, ◌≤◌, ◌+◌, ℕ, Bool, cond, pos, ◌+ℤ◌, Some, None, true, false, length, is_some, option_map, unsigned_abs, IfSome};
ghost use Rattle.layout_model.specs.Nodes.{Node, is_in_path, is_in_flow, holder};
ghost use Rattle.layout_model.specs.Boxes.{used_insets, box_in};
ghost use Rattle.layout_model.specs.Points.{moved};
ghost use Rattle.layout_model.specs.Views.{View, inputs_under, inputs_in_view};
ghost use Rattle.layout_model.specs.FlatPlaces.{offset_of, border_corner, corner_of, above_of, flat_place};
ghost use Rattle.element_tree.specs.Forest.{IsForest, above, depth};
ghost use Rattle.element_tree.specs.Links.{number};
ghost use Rattle.px_units.specs.Lengths.{cap, seen_length};
ghost use Rattle.style_values.specs.Ranges.{IsSize, IsStyle};
ghost use Rattle.style_values.specs.Seen.{seen_style};
ghost use Rattle.block_layout.specs.Ranges.{IsLength};
ghost use Rattle.positioned_layout.specs.Along.{part, along, far_side, is_held, moved_by, place_of};
ghost use Rattle.positioned_layout.specs.Measured.{IsMeasureOf, AreMeasuresUp, IsMeasuredAt};
ghost use Rattle.positioned_layout.specs.Seen.{as_place, seen_measure, seen_side, IsMeasure, IsReach, IsNear, IsWalked, IsNearPoint, IsCorner, IsCornerPoint, IsSide};
ghost use Rattle.positioned_layout.specs.Trees.{AreNodesOf};

use crate::holders::{holder_of, position};
use crate::insets::{Axis, Moved, Side, against, used_margin};
use crate::{Holder, Measure, Measures, Placed};
use element_tree::{NodeId, Tree};
use layout_model::capped;
use px_units::{Length, Point};
use style_values::Style;

fn far_side(style: &Style, axis: Axis) -> Length
    requires { IsStyle style.now }
    ensures value { seen_length result ≡ far_side axis (seen_style style.now).margin }
    ensures range { IsSize result }
{
    match axis {
        Axis::Across => style.margin_right,
        Axis::Down => style.margin_bottom,
    }
}

// Returns a box along an axis. The far margin is read from the style; a measure has only the near ones.
fn side(style: &Style, measure: &Measure, axis: Axis) -> Side
    requires style { IsStyle style.now }
    requires measure { IsMeasure measure.now }
    ensures value { (at : ℕ → Node) (view : View) (n : ℕ) → (at n).item.style ≡ seen_style style.now → IsMeasuredAt at view n (seen_measure measure.now) →
        seen_side result ≡ along axis (inputs_under at view n) (used_insets (at n).item.style.inset (inputs_under at view n)) (box_in at (inputs_under at view n) n) }
    ensures range { IsSide result }
{
    let far_margin = used_margin(far_side(style, axis), measure.width);
    match axis {
        Axis::Across => Side {
            containing: measure.width,
            near: against(style.left, Some(measure.width)),
            far: against(style.right, Some(measure.width)),
            near_margin: measure.margin.left,
            far_margin,
            border: measure.border.width,
        },
        Axis::Down => Side {
            containing: measure.height.unwrap_or(0),
            near: against(style.top, measure.height),
            far: against(style.bottom, measure.height),
            near_margin: measure.margin.top,
            far_margin,
            border: measure.border.height,
        },
    }
}

fn along(point: Point, axis: Axis) -> i64
    ensures { result ≡ part axis (point.left, point.top) }
{
    match axis {
        Axis::Across => point.left,
        Axis::Down => point.top,
    }
}

// Caps a non-negative length at the largest one.
fn cut(units: i64) -> i64
    ensures value { result ≡ pos (cap (unsigned_abs units)) }
    ensures range { IsReach result }
{
    capped(units.unsigned_abs()) as i64
}

// Returns the height stacked above a box along an axis: 0 horizontally.
fn above(own: &Measure, axis: Axis) -> i64
    ensures { result ≡ part axis (pos 0, own.now.above) }
{
    match axis {
        Axis::Across => 0,
        Axis::Down => own.above,
    }
}

// Returns the offset from the corner of a parent's border box to a child's static position.
fn offset(parent: &Measure, own: &Measure, axis: Axis) -> i64
    requires parent { IsMeasure parent.now }
    requires own { IsMeasure own.now }
    ensures value { (at : ℕ → Node) (view : View) (c p : ℕ) → (at c).parent ≡ Some p → IsMeasuredAt at view p (seen_measure parent.now) →
        IsMeasuredAt at view c (seen_measure own.now) → result ≡ pos (part axis (offset_of at view c)) }
    ensures range { IsReach result }
{
    cut(along(parent.inner, axis) + above(own, axis) + along(own.margin, axis))
}

// The same, 0 without the measure of the parent.
fn offset_in(outer: Option<Measure>, own: &Measure, axis: Axis) -> i64
    requires outer { IfSome outer IsMeasure }
    requires own { IsMeasure own.now }
    ensures value { (at : ℕ → Node) (view : View) (c p : ℕ) → (at c).parent ≡ Some p → IsMeasureOf at view p (option_map seen_measure outer) →
        is_some (inputs_in_view at view p) ≡ true → IsMeasuredAt at view c (seen_measure own.now) → result ≡ pos (part axis (offset_of at view c)) }
    ensures range { IsReach result }
{
    match outer {
        Some(outer) => offset(&outer, own, axis),
        None => 0,
    }
}

// Returns the offset from the viewport's corner to a root element's border box.
fn top_offset(own: &Measure, axis: Axis) -> i64
    requires { IsMeasure own.now }
    ensures value { (at : ℕ → Node) (view : View) (n : ℕ) → (at n).parent ≡ None → IsMeasuredAt at view n (seen_measure own.now) →
        result ≡ pos (part axis (offset_of at view n)) }
    ensures range { IsReach result }
{
    cut(along(own.margin, axis))
}

// One step outwards: the offset of a box from the border box of another, or from the viewport, and the measure of the other.
#[derive(Clone, Copy)]
struct Step {
    left: i64,
    top: i64,
    to: Option<NodeId>,
    outer: Option<Measure>,
}

// Returns the near border of an element's box, 0 without its measure.
fn corner(outer: Option<Measure>, axis: Axis) -> i64
    requires { IfSome outer IsMeasure }
    ensures value { (at : ℕ → Node) (view : View) (n : ℕ) → IsMeasureOf at view n (option_map seen_measure outer) →
        is_some (inputs_in_view at view n) ≡ true → result ≡ pos (part axis (border_corner (at n).item)) }
    ensures range { IsLength result }
{
    match outer {
        Some(measure) => along(measure.corner, axis),
        None => 0,
    }
}

// Returns the step to the holder of a node's box, which is at `left` and `top` in the holder's padding box.
fn from_holder<P: Placed, M: Measures>(
    tree: &Tree<P>,
    measures: &M,
    node: NodeId,
    left: i64,
    top: i64,
) -> Step
    requires node { node.0 < length tree.now.nodes }
    requires left { IsReach left }
    requires top { IsReach top }
    ensures value { (at : ℕ → Node) (view : View) → AreNodesOf P.placed tree.now.nodes at → AreMeasuresUp at view node.0 (M.measured measures.now) →
        is_some (inputs_in_view at view node.0) ≡ true → (axis : Axis) →
        part axis (corner_of at (flat_place at view) (holder at node.0)) +ℤ part axis (left, top)
        ≡ part axis (place_of (flat_place at view) (option_map number result.to)) +ℤ part axis (result.left, result.top) }
    ensures above { IfSome result.to (λ outer. (outer.0 < length tree.now.nodes) × (depth tree.now.nodes outer.0 < depth tree.now.nodes node.0)) }
    ensures inside { (at : ℕ → Node) → AreNodesOf P.placed tree.now.nodes at → IfSome result.to (λ outer. is_in_path at outer.0 node.0 ≡ true) }
    ensures outer { IfSome result.to (λ outer. option_map seen_measure result.outer ≡ M.measured measures.now outer.0) }
    ensures measure { IfSome result.outer IsMeasure }
    ensures range { IsNear 1 result.left × IsNear 1 result.top }
{
    match holder_of(tree, node) {
        Holder::Node(element) => {
            let outer = measures.measure(element);
            Step {
                left: left + corner(outer, Axis::Across),
                top: top + corner(outer, Axis::Down),
                to: Some(element),
                outer,
            }
        }
        Holder::Page | Holder::Screen => Step {
            left,
            top,
            to: None,
            outer: None,
        },
    }
}

// Returns the step to a node's parent, from its static position moved by `left` and `top`.
fn from_flow<P: Placed, M: Measures>(
    tree: &Tree<P>,
    measures: &M,
    node: NodeId,
    own: &Measure,
    left: i64,
    top: i64,
) -> Step
    requires node { node.0 < length tree.now.nodes }
    requires own { IsMeasure own.now }
    requires left { IsReach left }
    requires top { IsReach top }
    ensures value { (at : ℕ → Node) (view : View) → AreNodesOf P.placed tree.now.nodes at → AreMeasuresUp at view node.0 (M.measured measures.now) →
        is_some (inputs_in_view at view node.0) ≡ true → IsMeasuredAt at view node.0 (seen_measure own.now) → (axis : Axis) →
        part axis (moved (above_of (flat_place at view) (at node.0).parent) (offset_of at view node.0)) +ℤ part axis (left, top)
        ≡ part axis (place_of (flat_place at view) (option_map number result.to)) +ℤ part axis (result.left, result.top) }
    ensures above { IfSome result.to (λ outer. (outer.0 < length tree.now.nodes) × (depth tree.now.nodes outer.0 < depth tree.now.nodes node.0)) }
    ensures inside { (at : ℕ → Node) → AreNodesOf P.placed tree.now.nodes at → IfSome result.to (λ outer. is_in_path at outer.0 node.0 ≡ true) }
    ensures outer { IfSome result.to (λ outer. option_map seen_measure result.outer ≡ M.measured measures.now outer.0) }
    ensures measure { IfSome result.outer IsMeasure }
    ensures range { IsNear 1 result.left × IsNear 1 result.top }
{
    let Some(parent) = tree.parent(node) else {
        return Step {
            left: top_offset(own, Axis::Across) + left,
            top: top_offset(own, Axis::Down) + top,
            to: None,
            outer: None,
        };
    };
    let outer = measures.measure(parent);
    Step {
        left: offset_in(outer, own, Axis::Across) + left,
        top: offset_in(outer, own, Axis::Down) + top,
        to: Some(parent),
        outer,
    }
}

// Returns how far a box is moved along an axis, and from where.
fn moved_along<P: Placed>(tree: &Tree<P>, node: NodeId, own: &Measure, axis: Axis) -> Moved
    requires node { node.0 < length tree.now.nodes }
    requires own { IsMeasure own.now }
    ensures value { (at : ℕ → Node) (view : View) → AreNodesOf P.placed tree.now.nodes at → IsMeasuredAt at view node.0 (seen_measure own.now) →
        part axis (flat_place at view node.0) ≡ cond (is_held result) (part axis (corner_of at (flat_place at view) (holder at node.0)))
        (part axis (moved (above_of (flat_place at view) (at node.0).parent) (offset_of at view node.0))) +ℤ moved_by result }
    ensures range { IsReach (moved_by result) }
    ensures forest { IsForest tree.now.most_depth tree.now.nodes }
{
    side(tree.payload(node).style(), own, axis).moved(position(tree, node))
}

// Whether a box is offset from its holder on this axis, or on both axes for `None`; `None` if the axes differ.
fn way(across: Moved, down: Moved, axis: Option<Axis>) -> Option<bool>
    ensures value { (held : Bool) → result ≡ Some held → (a : Axis) → IfSome axis (λ only. a ≡ only) → is_held (part a (across, down)) ≡ held }
    ensures one { is_some axis ≡ true → is_some result ≡ true }
{
    match axis {
        Some(Axis::Across) => Some(across.is_held()),
        Some(Axis::Down) => Some(down.is_held()),
        None => {
            if across.is_held() == down.is_held() {
                Some(across.is_held())
            } else {
                None
            }
        }
    }
}

// Returns the step from a box that is moved by `left` and `top` from its holder if it is `held`, else from its place in flow.
fn outwards<P: Placed, M: Measures>(
    tree: &Tree<P>,
    measures: &M,
    node: NodeId,
    own: &Measure,
    held: bool,
    left: i64,
    top: i64,
) -> Step
    requires node { node.0 < length tree.now.nodes }
    requires own { IsMeasure own.now }
    requires left { IsReach left }
    requires top { IsReach top }
    ensures value { (at : ℕ → Node) (view : View) → AreNodesOf P.placed tree.now.nodes at → AreMeasuresUp at view node.0 (M.measured measures.now) →
        is_some (inputs_in_view at view node.0) ≡ true → IsMeasuredAt at view node.0 (seen_measure own.now) → (axis : Axis) →
        cond held (part axis (corner_of at (flat_place at view) (holder at node.0)))
        (part axis (moved (above_of (flat_place at view) (at node.0).parent) (offset_of at view node.0))) +ℤ part axis (left, top)
        ≡ part axis (place_of (flat_place at view) (option_map number result.to)) +ℤ part axis (result.left, result.top) }
    ensures above { IfSome result.to (λ outer. (outer.0 < length tree.now.nodes) × (depth tree.now.nodes outer.0 < depth tree.now.nodes node.0)) }
    ensures inside { (at : ℕ → Node) → AreNodesOf P.placed tree.now.nodes at → IfSome result.to (λ outer. is_in_path at outer.0 node.0 ≡ true) }
    ensures outer { IfSome result.to (λ outer. option_map seen_measure result.outer ≡ M.measured measures.now outer.0) }
    ensures measure { IfSome result.outer IsMeasure }
    ensures range { IsNear 1 result.left × IsNear 1 result.top }
{
    if held {
        from_holder(tree, measures, node, left, top)
    } else {
        from_flow(tree, measures, node, own, left, top)
    }
}

// How far a walk outwards came: the offset of its first box from the box `from`, or from the viewport.
#[derive(Clone, Copy)]
struct Walked {
    left: i64,
    top: i64,
    from: Option<NodeId>,
}

// Walks outwards along an axis, or along both for `None`, which ends where they step to different boxes. Each step is of less
// than 2^41 units: 65,536 of them stay within 2^57. The coordinate on an axis that isn't walked along means nothing.
fn walk<P: Placed, M: Measures>(
    tree: &Tree<P>,
    measures: &M,
    node: NodeId,
    axis: Option<Axis>,
) -> Walked
    requires { node.0 < length tree.now.nodes }
    ensures value { (at : ℕ → Node) (view : View) → AreNodesOf P.placed tree.now.nodes at → AreMeasuresUp at view node.0 (M.measured measures.now) →
        is_some (inputs_in_view at view node.0) ≡ true → (a : Axis) → IfSome axis (λ only. a ≡ only) →
        part a (flat_place at view node.0) ≡ part a (place_of (flat_place at view) (option_map number result.from)) +ℤ part a (result.left, result.top) }
    ensures inside { (at : ℕ → Node) (view : View) → AreNodesOf P.placed tree.now.nodes at → AreMeasuresUp at view node.0 (M.measured measures.now) →
        is_some (inputs_in_view at view node.0) ≡ true →
        IfSome result.from (λ from. AreMeasuresUp at view from.0 (M.measured measures.now) × (is_some (inputs_in_view at view from.0) ≡ true)) }
    ensures one { is_some axis ≡ true → result.from ≡ None }
    ensures within { IfSome result.from (λ from. (from.0 < length tree.now.nodes) × (depth tree.now.nodes node.0 ≤ 65536)) }
    ensures range { IsWalked (depth tree.now.nodes node.0) (above (depth tree.now.nodes) (option_map number result.from)) result.left
        × IsWalked (depth tree.now.nodes node.0) (above (depth tree.now.nodes) (option_map number result.from)) result.top }
    ensures short { IsNear 65536 result.left × IsNear 65536 result.top }
{
    let mut left = 0;
    let mut top = 0;
    let mut next = Some(node);
    let mut measured = measures.measure(node);
    while let Some(at) = next {
        let Some(own) = measured else {
            return Walked {
                left,
                top,
                from: None,
            };
        };
        let across = moved_along(tree, at, &own, Axis::Across);
        let down = moved_along(tree, at, &own, Axis::Down);
        let Some(held) = way(across, down, axis) else {
            return Walked {
                left,
                top,
                from: Some(at),
            };
        };
        let step = outwards(tree, measures, at, &own, held, across.by(), down.by());
        left += step.left;
        top += step.top;
        next = step.to;
        measured = step.outer;
    }
    Walked {
        left,
        top,
        from: None,
    }
}

/// Returns the place of the border box of a node with a box in its document's viewport, with all scroll offsets taken as 0.
/// In flow it is determined by the node's parent and its earlier siblings, and moved by its insets if it is relative; out of
/// flow it is offset from its holder by its insets, and on an axis without an inset it is the static position. Exact if
/// `measures` is exact for the node and its ancestors. Doesn't allocate.
///
/// It walks outwards over the boxes of the node and of those that determine its place, along both axes at once as long as
/// they come to the same box.
pub fn flat_place<P: Placed, M: Measures>(tree: &Tree<P>, measures: &M, node: NodeId) -> Point
    requires { node.0 < length tree.now.nodes }
    ensures value { (at : ℕ → Node) (view : View) → AreNodesOf P.placed tree.now.nodes at → AreMeasuresUp at view node.0 (M.measured measures.now) →
        is_some (inputs_in_view at view node.0) ≡ true → result ≡ as_place (flat_place at view node.0) }
    ensures range { IsNearPoint (depth tree.now.nodes node.0) result }
    ensures short { IsNearPoint 65536 result }
{
    let both = walk(tree, measures, node, None);
    let Some(from) = both.from else {
        return Point {
            left: both.left,
            top: both.top,
        };
    };
    let across = walk(tree, measures, from, Some(Axis::Across));
    let down = walk(tree, measures, from, Some(Axis::Down));
    Point {
        left: both.left + across.left,
        top: both.top + down.top,
    }
}

// Returns the place of a child's border box along an axis, its parent's border box being at `flow` and its holder's padding
// box at `held`.
fn placed_along<P: Placed>(
    tree: &Tree<P>,
    node: NodeId,
    own: &Measure,
    outer: &Measure,
    flow: i64,
    held: i64,
    axis: Axis,
) -> i64
    requires node { node.0 < length tree.now.nodes }
    requires own { IsMeasure own.now }
    requires outer { IsMeasure outer.now }
    requires flow { IsNear 65536 flow }
    requires held { IsCorner 65536 held }
    ensures value { (at : ℕ → Node) (view : View) (p : ℕ) → AreNodesOf P.placed tree.now.nodes at → (at node.0).parent ≡ Some p →
        IsMeasuredAt at view node.0 (seen_measure own.now) → IsMeasuredAt at view p (seen_measure outer.now) →
        flow ≡ part axis (flat_place at view p) →
        (is_in_flow (at node.0) ≡ false → held ≡ part axis (corner_of at (flat_place at view) (holder at node.0))) →
        result ≡ part axis (flat_place at view node.0) }
    ensures range { (boxes : ℕ) → IsNear boxes flow → IsCorner boxes held → IsNear (boxes + 1) result }
{
    let side = side(tree.payload(node).style(), own, axis);
    match side.moved(position(tree, node)) {
        Moved::FromHolder(by) => held + by,
        Moved::FromFlow(by) => flow + offset(outer, own, axis) + by,
    }
}

// The same on both axes.
pub(crate) fn placed<P: Placed>(
    tree: &Tree<P>,
    node: NodeId,
    own: &Measure,
    outer: &Measure,
    flow: Point,
    held: Point,
) -> Point
    requires node { node.0 < length tree.now.nodes }
    requires own { IsMeasure own.now }
    requires outer { IsMeasure outer.now }
    requires flow { IsNearPoint 65536 flow }
    requires held { IsCornerPoint 65536 held }
    ensures value { (at : ℕ → Node) (view : View) (p : ℕ) → AreNodesOf P.placed tree.now.nodes at → (at node.0).parent ≡ Some p →
        IsMeasuredAt at view node.0 (seen_measure own.now) → IsMeasuredAt at view p (seen_measure outer.now) →
        flow ≡ as_place (flat_place at view p) →
        (is_in_flow (at node.0) ≡ false → held ≡ as_place (corner_of at (flat_place at view) (holder at node.0))) →
        result ≡ as_place (flat_place at view node.0) }
    ensures range { (boxes : ℕ) → IsNearPoint boxes flow → IsCornerPoint boxes held → IsNearPoint (boxes + 1) result }
{
    Point {
        left: placed_along(tree, node, own, outer, flow.left, held.left, Axis::Across),
        top: placed_along(tree, node, own, outer, flow.top, held.top, Axis::Down),
    }
}
