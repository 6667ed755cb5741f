//! Whether a node has a box, which its ancestors decide (CSS 2.2, 9.2.4).

ghost use Rattle.std.specs.Prelude.{◌≡◌, ◌<◌, ◌&&◌, not, length, option_map, is_some};
ghost use Rattle.layout_model.specs.Clips.{is_block};
ghost use Rattle.layout_model.specs.Views.{View, inputs_in_view};
ghost use Rattle.element_tree.specs.Links.{number};
ghost use Rattle.page_model.specs.Documents.{is_number};
ghost use Rattle.block_layout.specs.Trees.{layout_tree};

use block_layout::{Styled, is_block, is_hidden};
use element_tree::{NodeId, Tree};

// Whether a node has a box if its parent has one.
fn takes_part<P: Styled>(tree: &Tree<P>, parent: NodeId, node: NodeId) -> bool
    requires parent { parent.0 < length tree.now.nodes }
    requires node { node.0 < length tree.now.nodes }
    ensures { let at = layout_tree P.style P.kind tree.now.nodes in
        result ≡ (not (at node.0).item.style.hidden && is_block (at parent.0).item.kind) }
{
    !is_hidden(tree, node) && is_block(tree, parent)
}

// Whether a node without a parent has a box.
fn tops<P: Styled>(tree: &Tree<P>, root: Option<NodeId>, node: NodeId) -> bool
    requires { node.0 < length tree.now.nodes }
    ensures { let at = layout_tree P.style P.kind tree.now.nodes in
        result ≡ (not (at node.0).item.style.hidden && is_number (option_map number root) node.0) }
{
    match root {
        Some(top) => !is_hidden(tree, node) && top.0 == node.0,
        None => false,
    }
}

// Whether a node has a box in the viewport in which this root element is shown: neither it nor an ancestor has
// `display: none`, each proper ancestor is a block, and the last one is the root element.
pub(crate) fn is_boxed<P: Styled>(tree: &Tree<P>, root: Option<NodeId>, node: NodeId) -> bool
    requires { node.0 < length tree.now.nodes }
    ensures { (view : View) → view.root ≡ option_map number root →
        result ≡ is_some (inputs_in_view (layout_tree P.style P.kind tree.now.nodes) view node.0) }
{
    let mut at = node;
    while let Some(parent) = tree.parent(at) {
        if !takes_part(tree, parent, at) {
            return false;
        }
        at = parent;
    }
    tops(tree, root, at)
}
