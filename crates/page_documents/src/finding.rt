//! Walks over the documents that frames lead to.

ghost use Rattle.std.specs.Prelude.{◌≡◌, ◌<◌, ◌≤◌, true, false, length, OnOk, IfSome, option_map, option_to_list};
ghost use Rattle.page_model.specs.World.{Dead};
ghost use Rattle.element_tree.specs.Documents.{document_number};
ghost use Rattle.element_tree.specs.Links.{number};
ghost use Rattle.page_model.specs.Lookups.{entry_or, no_document};
ghost use Rattle.page_model.specs.Documents.{led_to};
ghost use Rattle.page_documents.specs.States.{is_in};
ghost use Rattle.page_documents.specs.Seen.{seen_tree};
ghost use Rattle.page_documents.specs.Walks.{root_held, frames_down, taken};

use crate::entry::{DocumentState, Entry};
use crate::found::Finder;
use crate::owned::Owned;
use element_tree::{DocumentId, NodeId, Tree};

/// The bound on levels of a tree, and of nested frames, that are visited: more than there can be.
pub(crate) const LEVELS: u32 = 65536;

// Passes to the finder, in tree order, the documents in this state that the frames among an element and its descendants lead
// to, each followed by those nested in it. Visits at most `high` levels of the tree and `deep` levels of frames.
#[cycle(finding)]
pub(crate) fn find_in<P: Owned, F: Finder>(
    entries: &[Entry],
    tree: &Tree<P>,
    state: DocumentState,
    node: NodeId,
    high: u32,
    deep: u32,
    finder: &mut F,
) -> Result<(), F::Fault>
    requires node { node.0 < length tree.now.nodes }
    requires sought { is_in state Dead ≡ false }
    requires few { length entries.now ≤ 64 }
    ensures { OnOk result (finder.new ≡ taken F.with (led_to deep (is_in state) (seen_tree P.carried tree.now entries.now) (frames_down high (seen_tree P.carried tree.now entries.now) node.0)) finder.old) }
{
    if high == 0 {
        return Ok(());
    }
    find_from(
        entries,
        tree,
        state,
        tree.payload(node).framed(),
        deep,
        finder,
    )?;
    let mut next = tree.first_child(node);
    while let Some(child) = next {
        find_in(entries, tree, state, child, high - 1, deep, finder)?;
        next = tree.next_sibling(child);
    }
    Ok(())
}

// Passes a document to the finder, if there is one and it is in this state, and then those that frames in its tree lead to.
#[cycle(finding)]
pub(crate) fn find_from<P: Owned, F: Finder>(
    entries: &[Entry],
    tree: &Tree<P>,
    state: DocumentState,
    document: Option<DocumentId>,
    deep: u32,
    finder: &mut F,
) -> Result<(), F::Fault>
    requires sought { is_in state Dead ≡ false }
    requires few { length entries.now ≤ 64 }
    ensures { OnOk result (finder.new ≡ taken F.with (led_to deep (is_in state) (seen_tree P.carried tree.now entries.now) (option_to_list (option_map document_number document))) finder.old) }
{
    let Some(found) = document else {
        return Ok(());
    };
    if deep == 0 || !is_in(entries, found, state) {
        return Ok(());
    }
    finder.take(found)?;
    match root_in(entries, tree, found) {
        Some(root) => find_in(entries, tree, state, root, LEVELS, deep - 1, finder),
        None => Ok(()),
    }
}

// Whether a document is in this state, which isn't Dead.
pub(crate) fn is_in(entries: &[Entry], document: DocumentId, state: DocumentState) -> bool
    requires { is_in state Dead ≡ false }
    ensures value { result ≡ is_in state (entry_or no_document entries.now document.0).state }
    ensures held { result ≡ true → document.0 < length entries.now }
{
    match entries.get(document.0 as usize) {
        Some(entry) => entry.is_in(state),
        None => false,
    }
}

// Returns the root element of a document, if there is one in the tree.
fn root_in<P: Owned>(entries: &[Entry], tree: &Tree<P>, document: DocumentId) -> Option<NodeId>
    ensures value { option_map number result ≡ root_held (seen_tree P.carried tree.now entries.now) document.0 }
    ensures held { IfSome result (λ root. root.0 < length tree.now.nodes) }
{
    let root = entries.get(document.0 as usize)?.root()?;
    if tree.holds(root) { Some(root) } else { None }
}
