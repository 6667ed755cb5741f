//! Adoption of a subtree, and whether an element is in the tree of an Active document.

ghost use Rattle.std.specs.Prelude.{◌≡◌, ◌<◌, List, [], length, option_map};
ghost use Rattle.element_tree.specs.Documents.{document_number};
ghost use Rattle.element_tree.specs.Forest.{IsForest};
ghost use Rattle.element_tree.specs.Edits.{with_nodes};
ghost use Rattle.page_model.specs.World.{Document};
ghost use Rattle.page_model.specs.Lookups.{change_each};
ghost use Rattle.page_model.specs.Documents.{order_down, root_of, adopted, is_root_element, tree_document, stands_in_active};
ghost use Rattle.page_documents.specs.Seen.{seen_tree};
ghost use Rattle.page_documents.specs.Adoption.{adopting, adopted_in};

use crate::entry::{DocumentState, Entry};
use crate::finding::{LEVELS, is_in};
use crate::owned::Owned;
use element_tree::{DocumentId, NodeId, Tree};

// Sets the node document of an element and its descendants (DOM, 4.5: adopt).
pub(crate) fn adopt<P: Owned>(tree: &mut Tree<P>, node: NodeId, document: DocumentId)
    requires { node.0 < length tree.old.nodes }
    ensures adopted { tree.new ≡ adopted_in P.carried P.adopted document.0 node.0 tree.old }
    ensures seen { (documents : List Document) → seen_tree P.carried tree.new documents ≡ adopted (seen_tree P.carried tree.old documents) document.0 node.0 }
    ensures count { node.0 < length tree.new.nodes }
{
    adopt_down(tree, node, LEVELS, document);
}

// The same for at most `high` levels.
fn adopt_down<P: Owned>(tree: &mut Tree<P>, node: NodeId, high: u32, document: DocumentId)
    requires { node.0 < length tree.old.nodes }
    ensures { tree.new ≡ with_nodes (change_each (adopting P.adopted document.0) (order_down high (seen_tree P.carried tree.old []) node.0)) tree.old }
{
    if high == 0 {
        return;
    }
    tree.payload_mut(node).set_document(document);
    let mut next = tree.first_child(node);
    while let Some(child) = next {
        adopt_down(tree, child, high - 1, document);
        next = tree.next_sibling(child);
    }
}

// Returns the root of the tree that contains an element.
fn top_of<P: Owned>(tree: &Tree<P>, node: NodeId) -> NodeId
    requires { node.0 < length tree.now.nodes }
    ensures value { result.0 ≡ root_of (seen_tree P.carried tree.now []) node.0 }
    ensures known { result.0 < length tree.now.nodes }
    ensures forest { IsForest tree.now.most_depth tree.now.nodes }
{
    let mut at = node;
    while let Some(parent) = tree.parent(at) {
        at = parent;
    }
    at
}

// Whether an element is the root element of its document.
fn is_root_element<P: Owned>(entries: &[Entry], tree: &Tree<P>, node: NodeId) -> bool
    requires { node.0 < length tree.now.nodes }
    ensures { result ≡ is_root_element (seen_tree P.carried tree.now entries.now) node.0 }
{
    let Some(entry) = entries.get(tree.payload(node).document().0 as usize) else {
        return false;
    };
    match entry.root() {
        Some(root) => root.0 == node.0,
        None => false,
    }
}

// Returns the document whose tree contains an element, `None` if it is in no document's tree.
pub(crate) fn tree_document<P: Owned>(
    entries: &[Entry],
    tree: &Tree<P>,
    node: NodeId,
) -> Option<DocumentId>
    requires { node.0 < length tree.now.nodes }
    ensures value { option_map document_number result ≡ tree_document (seen_tree P.carried tree.now entries.now) node.0 }
    ensures forest { IsForest tree.now.most_depth tree.now.nodes }
{
    if !is_root_element(entries, tree, top_of(tree, node)) {
        return None;
    }
    Some(tree.payload(node).document())
}

// Whether an element is in the tree of an Active document.
pub(crate) fn stands_in_active<P: Owned>(entries: &[Entry], tree: &Tree<P>, node: NodeId) -> bool
    requires { node.0 < length tree.now.nodes }
    ensures value { result ≡ stands_in_active (seen_tree P.carried tree.now entries.now) node.0 }
    ensures forest { IsForest tree.now.most_depth tree.now.nodes }
{
    match tree_document(entries, tree, node) {
        Some(document) => is_in(entries, document, DocumentState::Active),
        None => false,
    }
}
