//! The container of an element, and the effect of its removal on the documents (DOM, 4.2.1 and 4.2.3).

ghost use Rattle.std.specs.Prelude.{◌≡◌, ◌<◌, length, option_map, IfSome};
ghost use Rattle.element_tree.specs.Links.{number};
ghost use Rattle.page_model.specs.World.{InDocument};
ghost use Rattle.page_model.specs.Lookups.{element_at, document_at};
ghost use Rattle.page_model.specs.Documents.{is_number, is_root_element, container_of, stands_in_active, removed};
ghost use Rattle.page_model.specs.Commands.{is_container_of, is_no_child};
ghost use Rattle.page_documents.specs.Seen.{seen_tree};
ghost use Rattle.page_documents.specs.Held.{ending};
ghost use Rattle.page_tree.specs.Items.{carried_in};
ghost use Rattle.container_model.specs.Seen.{seen_container};
ghost use Rattle.page_tree.specs.Steps.{IsBelow};

use crate::element::Element;
use element_tree::{Container, DocumentId, NodeId, Tree};
use page_documents::{Documents, Owned};

/// The document `top`, the node document of elements that don't exist.
const TOP: DocumentId = DocumentId(0);

// Returns the node document of an element.
pub(crate) fn document_of(tree: &Tree<Element>, documents: &Documents, node: NodeId) -> DocumentId
    ensures { result.0 ≡ (element_at (seen_tree carried_in tree.now documents.now.held) node.0).document }
{
    if tree.holds(node) {
        tree.payload(node).document()
    } else {
        TOP
    }
}

// Returns the root element of a document, `None` if there is no such document.
pub(crate) fn root_of(
    tree: &Tree<Element>,
    documents: &Documents,
    document: DocumentId,
) -> Option<NodeId>
    ensures { option_map number result ≡ (document_at (seen_tree carried_in tree.now documents.now.held) document.0).root }
{
    if document.0 < documents.count() {
        documents.root_of(document)
    } else {
        None
    }
}

// Whether `named` is this node.
fn is_named(named: Option<NodeId>, node: NodeId) -> bool
    ensures { result ≡ is_number (option_map number named) node.0 }
{
    match named {
        Some(found) => found.0 == node.0,
        None => false,
    }
}

// Whether an element is the root element of its node document.
fn is_root_element(tree: &Tree<Element>, documents: &Documents, node: NodeId) -> bool
    ensures { result ≡ is_root_element (seen_tree carried_in tree.now documents.now.held) node.0 }
{
    is_named(
        root_of(tree, documents, document_of(tree, documents, node)),
        node,
    )
}

// Returns the container of an element, `None` if it is detached.
pub(crate) fn container_of(
    tree: &Tree<Element>,
    documents: &Documents,
    node: NodeId,
) -> Option<Container>
    ensures value { option_map seen_container result ≡ container_of (seen_tree carried_in tree.now documents.now.held) node.0 }
    ensures held { IfSome result (IsBelow (length documents.now.held)) }
{
    if let Some(parent) = tree.parent(node) {
        return Some(Container::Element(parent));
    }
    if is_root_element(tree, documents, node) {
        Some(Container::Document(document_of(tree, documents, node)))
    } else {
        None
    }
}

// Whether an element with this container is the root element of this document.
fn is_in_document(container: Option<Container>, document: DocumentId) -> bool
    ensures { result ≡ is_container_of (InDocument document.0) (option_map seen_container container) }
{
    match container {
        Some(Container::Document(found)) => document.0 == found.0,
        Some(Container::Element(_)) | None => false,
    }
}

// Whether a sibling is given that isn't the root element of the document.
pub(crate) fn is_no_root(
    tree: &Tree<Element>,
    documents: &Documents,
    document: DocumentId,
    sibling: Option<NodeId>,
) -> bool
    ensures { result ≡ is_no_child (seen_tree carried_in tree.now documents.now.held) (InDocument document.0) (option_map number sibling) }
{
    match sibling {
        Some(named) => !is_in_document(container_of(tree, documents, named), document),
        None => false,
    }
}

// Ends the documents in frames of a subtree that is removed from the tree of an Active document.
fn end_inside(tree: &Tree<Element>, documents: &mut Documents, node: NodeId)
    requires { node.0 < length tree.now.nodes }
    ensures { let before = seen_tree carried_in tree.now documents.old.held in
        documents.new ≡ ending (stands_in_active before node.0) before node.0 documents.old }
{
    if let Some(from) = documents.tree_document(tree, node) {
        documents.left(tree, node, from);
    }
}

// Updates the documents for the removal of an element. The tree is unchanged.
pub(crate) fn leave(tree: &Tree<Element>, documents: &mut Documents, node: NodeId)
    requires { node.0 < length tree.now.nodes }
    ensures { documents.new ≡ record documents.old { held = (removed (seen_tree carried_in tree.now documents.old.held) node.0).documents } }
{
    let found = container_of(tree, documents, node);
    end_inside(tree, documents, node);
    let Some(container) = found else {
        return;
    };
    match container {
        Container::Element(_) => {}
        Container::Document(document) => documents.set_root(document, None),
    }
}
