//! The place of a box in its viewport (CSS 2.2, 8.1, 9.4.1 and 10.1) while nothing is scrolled, from the cached boxes and the
//! height above each.

ghost use Rattle.std.specs.Prelude.{◌≡◌, ◌+◌, ◌*◌, ◌<◌, ◌≤◌, pos, ◌≤ℤ◌, neg_ℤ};
ghost use Rattle.px_units.specs.Lengths.{cap};
ghost use Rattle.layout_model.specs.Views.{View};
ghost use Rattle.layout_model.specs.FlatPlaces.{offset_of, flat_place};
ghost use Rattle.element_tree.specs.Forest.{IsForest};
ghost use Rattle.block_layout.specs.Trees.{layout_tree};
ghost use Rattle.positioned_layout.specs.Seen.{IsNear};
ghost use Rattle.kept_layout.specs.Fresh.{IsFreshPath};
ghost use Rattle.kept_layout.specs.Measures.{IsSized};
ghost use Rattle.kept_layout.specs.Positions.{point_of};
ghost use Rattle.kept_layout.specs.Slots.{slot_in};

use crate::Kept;
use crate::slots::Slot;
use block_layout::{BoxOf, Styled};
use element_tree::{NodeId, Tree};
use layout_model::capped;
use positioned_layout::flat_place;
use px_units::Point;

/// An offset to the right and downwards, in units of 1/64 pixel.
#[derive(Clone, Copy, Debug, PartialEq, Eq)]
pub struct Shift {
    pub across: u64,
    pub down: u64,
}

impl Shift {
    pub const NONE: Shift = Shift { across: 0, down: 0 };
}

const ORIGIN: Point = Point { left: 0, top: 0 };

// Returns the offset from the corner of the parent's border box to that of a child's, `above` being the height stacked above
// it.
fn below(outer: &BoxOf, above: u64, own: &BoxOf) -> Shift
    ensures across { result.across ≡ cap (outer.now.border.left + outer.now.padding.left + own.now.margin.left) }
    ensures down { result.down ≡ cap (outer.now.border.top + outer.now.padding.top + cap above + own.now.margin.top) }
{
    let inner = outer.inner();
    let margin = own.margin_corner();
    Shift {
        across: capped(inner.left.unsigned_abs() + margin.left.unsigned_abs()),
        down: capped(inner.top.unsigned_abs() + capped(above) + margin.top.unsigned_abs()),
    }
}

// Returns the offset from the viewport's corner to that of a root element's border box.
fn on_top(own: &BoxOf) -> Shift
    ensures across { result.across ≡ cap own.now.margin.left }
    ensures down { result.down ≡ cap own.now.margin.top }
{
    let margin = own.margin_corner();
    Shift {
        across: capped(margin.left.unsigned_abs()),
        down: capped(margin.top.unsigned_abs()),
    }
}

impl Kept {
    /// Returns the offset from the corner of the parent's border box to the node's static position, for a root element from
    /// the viewport's corner (CSS 2.2, 8.1 and 9.4.1), while nothing is scrolled. Exact if the node has a box, and the
    /// boxes of the node and its ancestors are up to date (`refresh`). It reads the boxes of the node and its parent alone.
    pub fn shift<P: Styled>(&self, tree: &Tree<P>, node: NodeId) -> Shift
        ensures value { let at = layout_tree P.style P.kind tree.now.nodes in (view : View) →
            IsFreshPath at view (slot_in self.now) node.0 → (result.across, result.down) ≡ offset_of at view node.0 }
        ensures across { result.across ≤ 2147483647 }
        ensures down { result.down ≤ 2147483647 }
        ensures forest { IsForest tree.now.most_depth tree.now.nodes }
    {
        let up = tree.parent(node);
        let Slot { above, found, .. } = self.slot_of(node);
        let Some(found) = found else {
            return Shift::NONE;
        };
        let Some(parent) = up else {
            return on_top(&found.own);
        };
        match self.slot_of(parent).found {
            Some(outer) => below(&outer.own, above, &found.own),
            None => Shift::NONE,
        }
    }

    /// Returns the place of a node's border box in its document's viewport, with all scroll offsets taken as 0 (CSS 2.2, 9.4
    /// and 10; CSS Positioned Layout 3, 2 and 3). Exact if the node has a box, and the boxes of the node and its
    /// ancestors are up to date (`refresh`) in a viewport whose lengths are at most the largest one. It reads the boxes of
    /// the node and its ancestors alone.
    pub fn flat_place_of<P: Styled>(&self, tree: &Tree<P>, node: NodeId) -> Point
        ensures value { let at = layout_tree P.style P.kind tree.now.nodes in (view : View) → IsSized view →
            IsFreshPath at view (slot_in self.now) node.0 → result ≡ point_of (flat_place at view node.0) }
        ensures left { IsNear tree.now.most_depth result.left }
        ensures top { IsNear tree.now.most_depth result.top }
        ensures levels { tree.now.most_depth ≤ 65536 }
    {
        if tree.holds(node) {
            flat_place(tree, &self.measures(tree), node)
        } else {
            ORIGIN
        }
    }
}
