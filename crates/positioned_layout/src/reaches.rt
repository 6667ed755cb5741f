//! The scrollable overflow of scroll containers and viewports.

ghost use Rattle.std.specs.Prelude.{◌≡◌, ◌<◌, ◌+◌, ◌-◌, ◌+ℤ◌, ◌-ℤ◌, ◌&&◌, ℕ, max, not, Bool, Some, None, true, false, cond, length, find, is_some, IfSome, unsigned_abs};
ghost use Rattle.px_units.specs.Lengths.{at_least_zero};
ghost use Rattle.layout_model.specs.Nodes.{Node, ancestors_of, position_of, is_positioned, is_in_flow, HeldByElement, Holder, held_by, holder, IsShallow};
ghost use Rattle.layout_model.specs.Boxes.{Inputs};
ghost use Rattle.layout_model.specs.Points.{moved, capped, larger};
ghost use Rattle.layout_model.specs.Views.{View, inputs_in_view};
ghost use Rattle.layout_model.specs.FlatPlaces.{flat_place, border_corner, corner_of};
ghost use Rattle.layout_model.specs.Reach.{reach_of, reach_of_view};
ghost use Rattle.element_tree.specs.Forest.{IsForest, depth, parent_of, children_of};
ghost use Rattle.style_values.specs.Seen.{seen_position};
ghost use Rattle.block_layout.specs.Ranges.{IsLength};
ghost use Rattle.positioned_layout.specs.Measured.{AreMeasuresOf, AreMeasuresUp, IsMeasuredAt};
ghost use Rattle.positioned_layout.specs.Seen.{as_place, as_size, pair_of_size, seen_measure, IsMeasure, IsNear, IsNearPoint, IsCorner, IsCornerPoint, IsSpan, IsSpanOfSize};
ghost use Rattle.positioned_layout.specs.Trees.{AreNodesOf};
ghost use Rattle.positioned_layout.specs.Walked.{edges_past, absolute_in, opens_in, IsFar, IsReached, IsReachedIn, IsOpenIn, IsHeld, IsAround, IsNearAround, IsEdge, IsRoom};

use crate::holders::{is_positioned, position, positioned_ancestor};
use crate::places::{flat_place, placed};
use crate::{Measure, Measures, Placed};
use element_tree::{NodeId, Tree};
use layout_model::capped;
use px_units::{Point, Size};
use style_values::Position;

// A holder on the way down: the corner of its padding box, and whether what it holds counts.
#[derive(Clone, Copy)]
struct Held {
    corner: Point,
    opened: bool,
}

// The possible holders of the boxes in a node: the node itself for those in flow, its nearest positioned inclusive ancestor
// or the page for absolute ones, and the screen for fixed ones. `place` is that of the node's border box.
#[derive(Clone, Copy)]
struct Around {
    place: Point,
    flow: bool,
    absolute: Held,
    fixed: Held,
}

impl Around {
    // Whether nothing in the node counts.
    fn is_closed(self) -> bool
        ensures { result ≡ (not self.flow && (not self.absolute.opened && not self.fixed.opened)) }
    {
        !self.flow && !self.absolute.opened && !self.fixed.opened
    }

    // Returns the holder of a child with this `position`. A child in flow is placed by its parent; the corner is meaningless
    // then.
    fn holding(self, position: Position) -> Held
        ensures value { (at : ℕ → Node) (view : View) (opens : Holder → Bool) (p c : ℕ) → IsShallow at → (at c).parent ≡ Some p →
            seen_position position ≡ position_of (at c) → IsAround at view p opens self →
            (result.opened ≡ opens (holder at c)) × (is_in_flow (at c) ≡ false → result.corner ≡ as_place (corner_of at (flat_place at view) (holder at c))) }
        ensures range { (boxes : ℕ) → IsNearAround boxes self → IsCornerPoint boxes result.corner }
    {
        match position {
            Position::Static | Position::Relative => Held {
                corner: self.place,
                opened: self.flow,
            },
            Position::Absolute => self.absolute,
            Position::Fixed => self.fixed,
        }
    }

    // Returns the holder of the absolute boxes in a child with this `position`: the child itself (`own`) if it is positioned.
    fn absolute_in(self, position: Position, own: Held) -> Held
        ensures value { (at : ℕ → Node) (view : View) (opens : Holder → Bool) (p c : ℕ) → IsShallow at → (at c).parent ≡ Some p →
            seen_position position ≡ position_of (at c) → IsHeld at view opens (absolute_in at p) self.absolute →
            IsHeld at view opens (HeldByElement c) own → IsHeld at view opens (absolute_in at c) result }
        ensures range { (boxes : ℕ) → IsCornerPoint boxes self.absolute.corner → IsCornerPoint (boxes + 1) own.corner → IsCornerPoint (boxes + 1) result.corner }
    {
        match position {
            Position::Static => self.absolute,
            Position::Relative | Position::Absolute | Position::Fixed => own,
        }
    }

    // Returns the holders in a child with this `position`, whose box is at `place`; `opened` says whether what the child
    // holds counts.
    fn inside(self, position: Position, place: Point, own: &Measure, opened: bool) -> Around
        requires measure { IsMeasure own.now }
        requires place { IsNearPoint 65536 place }
        ensures value { (at : ℕ → Node) (view : View) (opens : Holder → Bool) (p c : ℕ) → IsShallow at → (at c).parent ≡ Some p →
            seen_position position ≡ position_of (at c) → IsAround at view p opens self →
            place ≡ as_place (flat_place at view c) → IsMeasuredAt at view c (seen_measure own.now) →
            opened ≡ opens (HeldByElement c) → IsAround at view c opens result }
        ensures range { (boxes : ℕ) → IsNearAround boxes self → IsNearPoint (boxes + 1) place → IsNearAround (boxes + 1) result }
    {
        let corner = padding_corner(place, own);
        Around {
            place,
            flow: opened,
            absolute: self.absolute_in(position, Held { corner, opened }),
            fixed: self.fixed,
        }
    }
}

// Returns the corner of the padding box of a border box.
fn padding_corner(place: Point, own: &Measure) -> Point
    requires measure { IsMeasure own.now }
    requires place { IsNearPoint 65536 place }
    ensures value { (at : ℕ → Node) (view : View) (n : ℕ) → place ≡ as_place (flat_place at view n) → IsMeasuredAt at view n (seen_measure own.now) →
        result ≡ as_place (moved (flat_place at view n) (border_corner (at n).item)) }
    ensures range { (boxes : ℕ) → IsNearPoint boxes place → IsCornerPoint boxes result }
{
    Point {
        left: place.left + own.corner.left,
        top: place.top + own.corner.top,
    }
}

// Returns the farther of the farthest edge so far and that of a border box, relative to a corner.
fn farther(edge: i64, place: i64, border: i64, corner: i64) -> i64
    requires edge { IsEdge edge }
    requires place { IsNear 65536 place }
    requires border { IsSpan border }
    requires corner { IsCorner 65536 corner }
    ensures value { unsigned_abs result ≡ max (at_least_zero (place +ℤ border -ℤ corner)) (unsigned_abs edge) }
    ensures range { IsEdge result }
{
    edge.max(place + border - corner)
}

// The farthest edges so far, relative to a corner.
#[derive(Clone, Copy)]
struct Farthest {
    corner: Point,
    size: Size,
}

impl Farthest {
    // Includes the edges of a border box, if it counts.
    fn with(self, opened: bool, place: Point, border: Size) -> Farthest
        requires place { IsNearPoint 65536 place }
        requires border { IsSpanOfSize border }
        requires room { IsRoom self }
        ensures value { pair_of_size result.size ≡ cond opened (larger (edges_past place border self.corner) (pair_of_size self.size)) (pair_of_size self.size) }
        ensures corner { result.corner ≡ self.corner }
        ensures room { IsRoom result }
    {
        if !opened {
            return self;
        }
        Farthest {
            corner: self.corner,
            size: Size {
                width: farther(self.size.width, place.left, border.width, self.corner.left),
                height: farther(self.size.height, place.top, border.height, self.corner.top),
            },
        }
    }

    fn capped(self) -> Size
        ensures value { result ≡ as_size (capped (pair_of_size self.size)) }
        ensures range { IsLength result.width × IsLength result.height }
    {
        Size {
            width: capped(self.size.width.unsigned_abs()) as i64,
            height: capped(self.size.height.unsigned_abs()) as i64,
        }
    }
}

// The state of the walk when it enters a child.
#[derive(Clone, Copy)]
struct Entered {
    around: Around,
    far: Farthest,
}

// Enters a child with a box: includes that box's edges, if it counts, and determines the holders of the boxes in it.
fn enter<P: Placed>(
    tree: &Tree<P>,
    child: NodeId,
    own: &Measure,
    outer: &Measure,
    around: Around,
    far: Farthest,
) -> Entered
    requires child { child.0 < length tree.now.nodes }
    requires own { IsMeasure own.now }
    requires outer { IsMeasure outer.now }
    requires around { IsNearAround (depth tree.now.nodes child.0 - 1) around }
    requires room { IsRoom far }
    ensures around { (at : ℕ → Node) (view : View) (opens : Holder → Bool) (p : ℕ) → AreNodesOf P.placed tree.now.nodes at →
        (at child.0).parent ≡ Some p → IsOpenIn at p opens → IsMeasuredAt at view child.0 (seen_measure own.now) →
        IsMeasuredAt at view p (seen_measure outer.now) → IsAround at view p opens around → IsAround at view child.0 opens result.around }
    ensures far { (at : ℕ → Node) (view : View) (opens : Holder → Bool) (p : ℕ) → AreNodesOf P.placed tree.now.nodes at →
        (at child.0).parent ≡ Some p → is_some (inputs_in_view at view child.0) ≡ true → IsMeasuredAt at view child.0 (seen_measure own.now) →
        IsMeasuredAt at view p (seen_measure outer.now) → IsAround at view p opens around →
        IsFar at view (λ d. (d ≡ child.0) × IsReached at view opens d) far result.far }
    ensures near { IsNearAround (depth tree.now.nodes child.0) result.around }
    ensures corner { result.far.corner ≡ far.corner }
    ensures room { IsRoom result.far }
{
    let position = position(tree, child);
    let held = around.holding(position);
    let place = placed(tree, child, own, outer, around.place, held.corner);
    Entered {
        around: around.inside(position, place, own, held.opened && !own.clips),
        far: far.with(held.opened, place, own.border),
    }
}

// Includes the edges of the boxes below a node that count.
fn far_below<P: Placed, M: Measures>(
    tree: &Tree<P>,
    measures: &M,
    node: NodeId,
    outer: &Measure,
    around: Around,
    far: Farthest,
) -> Farthest
    requires node { node.0 < length tree.now.nodes }
    requires outer { IsMeasure outer.now }
    requires around { IsNearAround (depth tree.now.nodes node.0) around }
    requires room { IsRoom far }
    ensures value { (at : ℕ → Node) (view : View) (opens : Holder → Bool) → AreNodesOf P.placed tree.now.nodes at →
        AreMeasuresOf at view (M.measured measures.now) → IsOpenIn at node.0 opens →
        is_some (inputs_in_view at view node.0) ≡ true → IsMeasuredAt at view node.0 (seen_measure outer.now) →
        IsAround at view node.0 opens around → IsFar at view (IsReachedIn at view opens (children_of tree.now.nodes node.0)) far result }
    ensures corner { result.corner ≡ far.corner }
    ensures room { IsRoom result }
    ensures forest { IsForest tree.now.most_depth tree.now.nodes }
{
    let mut next = tree.first_child(node);
    if around.is_closed() {
        return far;
    }
    let mut farthest = far;
    while let Some(child) = next {
        if let Some(own) = measures.measure(child) {
            let entered = enter(tree, child, &own, outer, around, farthest);
            farthest = far_below(tree, measures, child, &own, entered.around, entered.far);
        }
        next = tree.next_sibling(child);
    }
    farthest
}

/// Returns the size of the scrollable overflow: of the scroll container `of`, from the corner of its padding box, over that
/// box and the border boxes that it holds without a clipping box in between; for `None` of the viewport of this size, over
/// the boxes that the page holds likewise. `root` is the root element of the document. Scroll offsets are taken as 0, and
/// each length is at most 2,147,483,647 units. Exact if `measures` is exact for all boxes of the document. Doesn't
/// allocate.
///
/// It recurses once per level of the tree below.
pub fn reach<P: Placed, M: Measures>(
    tree: &Tree<P>,
    measures: &M,
    root: NodeId,
    of: Option<NodeId>,
    view: Size,
) -> Size
    requires root { root.0 < length tree.now.nodes }
    requires of { IfSome of (λ node. node.0 < length tree.now.nodes) }
    requires view { IsSpanOfSize view }
    ensures container { IfSome of (λ node. (at : ℕ → Node) (document : View) (inputs : Inputs) → AreNodesOf P.placed tree.now.nodes at →
        AreMeasuresOf at document (M.measured measures.now) →
        inputs_in_view at document node.0 ≡ Some inputs → result ≡ as_size (reach_of at document node.0)) }
    ensures viewport { of ≡ None → parent_of tree.now.nodes root.0 ≡ None → (at : ℕ → Node) (document : View) → AreNodesOf P.placed tree.now.nodes at →
        document.root ≡ Some root.0 → document.width ≡ unsigned_abs view.width → document.height ≡ unsigned_abs view.height →
        AreMeasuresOf at document (M.measured measures.now) → result ≡ as_size (reach_of_view at document) }
    ensures range { IsLength result.width × IsLength result.height }
{
    match of {
        Some(node) => container_reach(tree, measures, node),
        None => view_reach(tree, measures, root, view),
    }
}

const NOWHERE: Point = Point { left: 0, top: 0 };

const CLOSED: Held = Held {
    corner: NOWHERE,
    opened: false,
};

// Returns the holder of the absolute boxes in a node that isn't positioned itself; what it holds doesn't count.
fn outer_holder<P: Placed, M: Measures>(tree: &Tree<P>, measures: &M, node: NodeId) -> Held
    requires { node.0 < length tree.now.nodes }
    ensures value { (at : ℕ → Node) (view : View) → AreNodesOf P.placed tree.now.nodes at → AreMeasuresUp at view node.0 (M.measured measures.now) →
        is_some (inputs_in_view at view node.0) ≡ true →
        result.corner ≡ as_place (corner_of at (flat_place at view) (held_by (find (λ a. is_positioned (at a)) (ancestors_of at node.0)))) }
    ensures closed { result.opened ≡ false }
    ensures range { IsCornerPoint (depth tree.now.nodes node.0) result.corner }
{
    let Some(ancestor) = positioned_ancestor(tree, node) else {
        return CLOSED;
    };
    let Some(own) = measures.measure(ancestor) else {
        return CLOSED;
    };
    Held {
        corner: padding_corner(flat_place(tree, measures, ancestor), &own),
        opened: false,
    }
}

// Returns the holder of the absolute boxes in the node whose overflow is measured: the node itself if it is positioned.
fn absolute_holder<P: Placed, M: Measures>(
    tree: &Tree<P>,
    measures: &M,
    node: NodeId,
    positioned: bool,
    own: Held,
) -> Held
    requires node { node.0 < length tree.now.nodes }
    requires own { IsCornerPoint (depth tree.now.nodes node.0) own.corner }
    ensures value { (at : ℕ → Node) (view : View) → AreNodesOf P.placed tree.now.nodes at → IsShallow at → AreMeasuresUp at view node.0 (M.measured measures.now) →
        positioned ≡ is_positioned (at node.0) → is_some (inputs_in_view at view node.0) ≡ true → IsHeld at view (opens_in at node.0) (HeldByElement node.0) own →
        IsHeld at view (opens_in at node.0) (absolute_in at node.0) result }
    ensures range { IsCornerPoint (depth tree.now.nodes node.0) result.corner }
{
    if positioned {
        own
    } else {
        outer_holder(tree, measures, node)
    }
}

fn container_reach<P: Placed, M: Measures>(tree: &Tree<P>, measures: &M, node: NodeId) -> Size
    requires { node.0 < length tree.now.nodes }
    ensures value { (at : ℕ → Node) (document : View) (inputs : Inputs) → AreNodesOf P.placed tree.now.nodes at →
        AreMeasuresOf at document (M.measured measures.now) →
        inputs_in_view at document node.0 ≡ Some inputs → result ≡ as_size (reach_of at document node.0) }
    ensures range { IsLength result.width × IsLength result.height }
{
    let positioned = is_positioned(tree, node);
    let Some(own) = measures.measure(node) else {
        return Size {
            width: 0,
            height: 0,
        };
    };
    let place = flat_place(tree, measures, node);
    let corner = padding_corner(place, &own);
    // The reach of a box that doesn't clip is the box alone.
    let opened = own.clips;
    let around = Around {
        place,
        flow: opened,
        absolute: absolute_holder(tree, measures, node, positioned, Held { corner, opened }),
        fixed: CLOSED,
    };
    let size = own.padding;
    far_below(
        tree,
        measures,
        node,
        &own,
        around,
        Farthest { corner, size },
    )
    .capped()
}

fn view_reach<P: Placed, M: Measures>(
    tree: &Tree<P>,
    measures: &M,
    root: NodeId,
    view: Size,
) -> Size
    requires root { root.0 < length tree.now.nodes }
    requires view { IsSpanOfSize view }
    ensures value { parent_of tree.now.nodes root.0 ≡ None → (at : ℕ → Node) (document : View) → AreNodesOf P.placed tree.now.nodes at →
        document.root ≡ Some root.0 → document.width ≡ unsigned_abs view.width → document.height ≡ unsigned_abs view.height →
        AreMeasuresOf at document (M.measured measures.now) → result ≡ as_size (reach_of_view at document) }
    ensures range { IsLength result.width × IsLength result.height }
{
    let far = Farthest {
        corner: NOWHERE,
        size: view,
    };
    let Some(own) = measures.measure(root) else {
        return far.capped();
    };
    let place = flat_place(tree, measures, root);
    // A root element counts as static and clips nothing.
    let around = Around {
        place,
        flow: true,
        absolute: Held {
            corner: NOWHERE,
            opened: true,
        },
        fixed: CLOSED,
    };
    far_below(
        tree,
        measures,
        root,
        &own,
        around,
        far.with(true, place, own.border),
    )
    .capped()
}
