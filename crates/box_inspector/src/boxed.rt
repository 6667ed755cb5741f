//! The elements of a document that have a box.

ghost use Rattle.std.specs.Prelude.{◌≡◌, ◌++◌, ◌∷◌, [], filter, map, true, All, IfOk, OnOk};
ghost use Rattle.element_tree.specs.Links.{number};
ghost use Rattle.page_model.specs.Documents.{order_down};
ghost use Rattle.page_model.specs.Shown.{has_box};
ghost use Rattle.page_documents.specs.Seen.{seen_tree};
ghost use Rattle.page_tree.specs.Items.{carried_in};
ghost use Rattle.box_inspector.specs.Boxes.{boxed_elements};

use element_tree::{DocumentId, NodeId, Tree};
use page_geometry::Shown;
use page_tree::Element;
use std::alloc::{AllocError, Global};

// The bound on levels of a tree that are visited: more than there can be.
const LEVELS: u32 = 65536;

// Appends an element if it has a box.
#[tactic(auto, using(crate::proofs::Listed::pushed, crate::proofs::Listed::passed_over))]
fn push_boxed(shown: &Shown<'_>, node: NodeId, listed: &mut Vec<NodeId>) -> Result<(), AllocError>
    ensures { OnOk result (map number listed.new.items ≡ map number listed.old.items ++ filter (has_box shown.now) (node.0 ∷ [])) }
{
    if !shown.has_box(node) {
        return Ok(());
    }
    listed.push(node)?;
    Ok(())
}

// Appends those of an element and its descendants, down to `high` levels, that have a box.
fn list_down(
    shown: &Shown<'_>,
    tree: &Tree<Element>,
    node: NodeId,
    high: u32,
    listed: &mut Vec<NodeId>,
) -> Result<(), AllocError>
    requires { seen_tree carried_in tree.now shown.now.tree.documents ≡ shown.now.tree }
    ensures { OnOk result (map number listed.new.items ≡ map number listed.old.items ++ filter (has_box shown.now) (order_down high shown.now.tree node.0)) }
{
    if high == 0 {
        return Ok(());
    }
    push_boxed(shown, node, listed)?;
    let mut next = tree.first_child(node);
    while let Some(child) = next {
        list_down(shown, tree, child, high - 1, listed)?;
        next = tree.next_sibling(child);
    }
    Ok(())
}

/// Returns the elements of a document's tree that have a box (CSS 2.2, 9.2.4), in tree order. The list is empty if the
/// document isn't shown.
///
/// It recurses once per level of the tree.
///
/// # Errors
///
/// If an allocation fails.
pub fn elements(
    alloc: Global,
    shown: &Shown<'_>,
    document: DocumentId,
) -> Result<Vec<NodeId>, AllocError>
    ensures list { IfOk result (λ listed. map number listed.items ≡ boxed_elements shown.now document.0) }
    ensures boxed { IfOk result (λ listed. All (λ node. has_box shown.now node.0 ≡ true) listed.items) }
{
    let page = shown.page();
    let mut listed = Vec::new(alloc);
    if let Some(root) = page.root(document) {
        list_down(shown, page.tree(), root, LEVELS, &mut listed)?;
    }
    Ok(listed)
}
