//! Holders: the containing blocks of boxes.

ghost use Rattle.std.specs.Prelude.{◌≡◌, ◌<◌, ℕ, length, option_map, find, IfSome};
ghost use Rattle.layout_model.specs.Nodes.{Node, ancestors_of, position_of, is_positioned, holder};
ghost use Rattle.element_tree.specs.Forest.{IsForest, depth};
ghost use Rattle.element_tree.specs.Links.{number};
ghost use Rattle.style_values.specs.Seen.{seen_position};
ghost use Rattle.positioned_layout.specs.Seen.{seen_holder, held_from, IfElement};
ghost use Rattle.positioned_layout.specs.Trees.{AreNodesOf};

use crate::{Holder, Placed};
use element_tree::{NodeId, Tree};
use style_values::Position;

/// Returns the used `position` of an element: that of a root element is static. Doesn't allocate.
pub fn position<P: Placed>(tree: &Tree<P>, node: NodeId) -> Position
    requires { node.0 < length tree.now.nodes }
    ensures value { (at : ℕ → Node) → AreNodesOf P.placed tree.now.nodes at → seen_position result ≡ position_of (at node.0) }
    ensures forest { IsForest tree.now.most_depth tree.now.nodes }
{
    match tree.parent(node) {
        Some(_) => tree.payload(node).style().position,
        None => Position::Static,
    }
}

pub(crate) fn is_positioned<P: Placed>(tree: &Tree<P>, node: NodeId) -> bool
    requires { node.0 < length tree.now.nodes }
    ensures value { (at : ℕ → Node) → AreNodesOf P.placed tree.now.nodes at → result ≡ is_positioned (at node.0) }
    ensures forest { IsForest tree.now.most_depth tree.now.nodes }
{
    match position(tree, node) {
        Position::Static => false,
        Position::Relative | Position::Absolute | Position::Fixed => true,
    }
}

// Returns the nearest positioned ancestor.
pub(crate) fn positioned_ancestor<P: Placed>(tree: &Tree<P>, node: NodeId) -> Option<NodeId>
    requires { node.0 < length tree.now.nodes }
    ensures value { (at : ℕ → Node) → AreNodesOf P.placed tree.now.nodes at →
        option_map number result ≡ find (λ a. is_positioned (at a)) (ancestors_of at node.0) }
    ensures above { IfSome result (λ ancestor. (ancestor.0 < length tree.now.nodes) × (depth tree.now.nodes ancestor.0 < depth tree.now.nodes node.0)) }
    ensures forest { IsForest tree.now.most_depth tree.now.nodes }
{
    let mut up = tree.parent(node);
    while let Some(ancestor) = up {
        if is_positioned(tree, ancestor) {
            return Some(ancestor);
        }
        up = tree.parent(ancestor);
    }
    None
}

// Returns the box of this element, or the page for `None`.
fn held_by(element: Option<NodeId>) -> Holder
    ensures { result ≡ held_from element }
{
    match element {
        Some(element) => Holder::Node(element),
        None => Holder::Page,
    }
}

/// Returns the holder of a node's box: in flow its parent's box; for an absolute box that of its nearest positioned ancestor,
/// or the page if there is none; for a fixed box the screen; for a root element, which counts as static, the page. A holder
/// that is an element is nearer to the root. Doesn't allocate.
pub fn holder_of<P: Placed>(tree: &Tree<P>, node: NodeId) -> Holder
    requires { node.0 < length tree.now.nodes }
    ensures value { (at : ℕ → Node) → AreNodesOf P.placed tree.now.nodes at → seen_holder result ≡ holder at node.0 }
    ensures above { IfElement result (λ element. (element < length tree.now.nodes) × (depth tree.now.nodes element < depth tree.now.nodes node.0)) }
    ensures forest { IsForest tree.now.most_depth tree.now.nodes }
{
    match position(tree, node) {
        Position::Static | Position::Relative => held_by(tree.parent(node)),
        Position::Absolute => held_by(positioned_ancestor(tree, node)),
        Position::Fixed => Holder::Screen,
    }
}
