//! Paint order.

ghost use Rattle.std.specs.Prelude.{◌≡◌, ◌<◌, ◌++◌, length, map, option_map, option_to_list, IfOk, IfSome, OnOk};
ghost use Rattle.element_tree.specs.Links.{number};
ghost use Rattle.page_model.specs.Lookups.{element_at};
ghost use Rattle.page_documents.specs.Seen.{seen_tree};
ghost use Rattle.page_tree.specs.Items.{carried_in};
ghost use Rattle.hit_test.specs.Painting.{paint_order, painted_down, painted_inside, painted_root};

use element_tree::{DocumentId, NodeId, Tree};
use page_tree::{Element, PageTree};
use std::alloc::{AllocError, Global};

// The bound on levels that are visited, each document's below its frame: more than there can be.
const LEVELS: u32 = 65536;

// Returns the root element of a document, `None` if it has none or isn't Active.
fn painted_root(page: &PageTree, document: DocumentId) -> Option<NodeId>
    ensures value { option_to_list (option_map number result) ≡ painted_root page.now.tree document.0 }
    ensures held { IfSome result (λ root. root.0 < length page.now.tree.elements) }
{
    if page.is_active(document) {
        page.root(document)
    } else {
        None
    }
}

// Returns the root element of the document in a frame.
fn painted_inside(page: &PageTree, node: NodeId) -> Option<NodeId>
    ensures value { option_to_list (option_map number result) ≡ painted_inside page.now.tree (element_at page.now.tree node.0).framed }
    ensures held { IfSome result (λ root. root.0 < length page.now.tree.elements) }
{
    painted_root(page, page.framed(node)?)
}

// Appends an element and its descendants, down to `high` levels.
fn paint_down(
    page: &PageTree,
    tree: &Tree<Element>,
    node: NodeId,
    high: u32,
    painted: &mut Vec<NodeId>,
) -> Result<(), AllocError>
    requires { seen_tree carried_in tree.now page.now.tree.documents ≡ page.now.tree }
    ensures { OnOk result (map number painted.new.items ≡ map number painted.old.items ++ painted_down high page.now.tree node.0) }
{
    if high == 0 {
        return Ok(());
    }
    painted.push(node)?;
    let mut next = tree.first_child(node);
    while let Some(child) = next {
        paint_down(page, tree, child, high - 1, painted)?;
        next = tree.next_sibling(child);
    }
    match painted_inside(page, node) {
        Some(root) => paint_down(page, tree, root, high - 1, painted),
        None => Ok(()),
    }
}

/// Returns the elements in the trees of documents that are shown, in paint order: the preorder of the tree in which the root
/// element of a document is the child of its frame (this project's own rule). Elements without a box are included.
///
/// It recurses once per level of that tree.
///
/// # Errors
///
/// If an allocation fails.
pub fn paint_order(alloc: Global, page: &PageTree) -> Result<Vec<NodeId>, AllocError>
    ensures { IfOk result (λ painted. map number painted.items ≡ paint_order page.now.tree) }
{
    let mut painted = Vec::new(alloc);
    if let Some(root) = painted_root(page, DocumentId(0)) {
        paint_down(page, page.tree(), root, LEVELS, &mut painted)?;
    }
    Ok(painted)
}
