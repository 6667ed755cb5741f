//! The observers that are updated with a document.

ghost use Rattle.std.specs.Prelude.{◌≡◌, ◌<◌, All, IfOk, length};
ghost use Rattle.page_model.specs.Documents.{is_number, tree_document};
ghost use Rattle.page_model.specs.Intersections.{is_rooted_in, watchers as numbers_of};
ghost use Rattle.intersection_observer.specs.Seen.{seen_root};
ghost use Rattle.intersection_observer.specs.Watchers.{watcher_at};
ghost use Rattle.intersection_observer.specs.declared.root.WatcherId.{WatcherId};
ghost use Rattle.intersection_update.specs.Watching.{watcher_numbers, is_watching, is_watched, has_entry, have_entries};

use element_tree::{DocumentId, NodeId};
use intersection_observer::{Root, WatcherId, Watchers};
use page_tree::PageTree;
use std::alloc::{AllocError, Global};

// Whether an element is in the tree of a document; false if there is no such element.
fn stands_in(page: &PageTree, node: NodeId, document: DocumentId) -> bool
    ensures { result ≡ is_number (tree_document page.now.tree node.0) document.0 }
{
    if !page.tree().holds(node) {
        return false;
    }
    match page.tree_document(node) {
        Some(own) => own.0 == document.0,
        None => false,
    }
}

// Whether an observer with this root is updated with a document: if the root is the document or is in its tree; with the
// implicit root, if it is the top document.
fn is_rooted_in(page: &PageTree, root: Root, document: DocumentId) -> bool
    ensures { result ≡ is_rooted_in page.now.tree document.0 (seen_root root) }
{
    match root {
        Root::Implicit => document.0 == 0,
        Root::Document(own) => own.0 == document.0,
        Root::Node(node) => stands_in(page, node, document),
    }
}

/// Whether an observer is updated with a document, which depends on its root alone, not on the document that it was created
/// for. Doesn't allocate.
pub(crate) fn is_looked_at(
    page: &PageTree,
    watchers: &Watchers,
    watcher: WatcherId,
    document: DocumentId,
) -> bool
    requires { watcher.0 < length watchers.now.part.made }
    ensures { result ≡ is_rooted_in page.now.tree document.0 (watcher_at watchers.now watcher.0).root }
{
    is_rooted_in(page, watchers.root_of(watcher), document)
}

// Whether an observer that is updated with a document has a registration.
fn is_watching(
    page: &PageTree,
    watchers: &Watchers,
    watcher: WatcherId,
    document: DocumentId,
) -> bool
    requires { watcher.0 < length watchers.now.part.made }
    ensures { result ≡ is_watching page.now.tree document.0 (watcher_at watchers.now watcher.0) }
{
    is_looked_at(page, watchers, watcher, document) && watchers.registrations(watcher).len() > 0
}

/// Whether an update of a document looks at any registration: whether an observer whose root is the document or is in its
/// tree, for the top document also one with the implicit root, has a target. Doesn't allocate.
pub fn is_watched(page: &PageTree, watchers: &Watchers, document: DocumentId) -> bool
    ensures { result ≡ is_watched page.now.tree document.0 watchers.now.part }
{
    for number in 0..watchers.count() {
        if is_watching(page, watchers, WatcherId(number), document) {
            return true;
        }
    }
    false
}

// Whether an observer that is updated with a document has an entry in its queue.
fn has_entry(page: &PageTree, watchers: &Watchers, watcher: WatcherId, document: DocumentId) -> bool
    requires { watcher.0 < length watchers.now.part.made }
    ensures { result ≡ has_entry page.now.tree document.0 (watcher_at watchers.now watcher.0) }
{
    is_looked_at(page, watchers, watcher, document) && watchers.queue(watcher).len() > 0
}

/// Whether an entry waits at an observer that is updated with a document. Doesn't allocate.
pub fn have_entries(page: &PageTree, watchers: &Watchers, document: DocumentId) -> bool
    ensures { result ≡ have_entries page.now.tree document.0 watchers.now.part }
{
    for number in 0..watchers.count() {
        if has_entry(page, watchers, WatcherId(number), document) {
            return true;
        }
    }
    false
}

/// Returns the observers that are updated with a document, in creation order: those whose root is the document or is in its
/// tree, and for the top document those with the implicit root (Intersection Observer, 3.2.10: run the update intersection
/// observations steps).
///
/// # Errors
///
/// If an allocation fails.
pub fn watchers_of(
    alloc: Global,
    page: &PageTree,
    watchers: &Watchers,
    document: DocumentId,
) -> Result<Vec<WatcherId>, AllocError>
    ensures numbers { IfOk result (λ list. watcher_numbers list.items ≡ numbers_of page.now.tree document.0 watchers.now.part) }
    ensures made { IfOk result (λ list. All (λ watcher. watcher.0 < length watchers.now.part.made) list.items) }
{
    let mut found = Vec::new(alloc);
    for number in 0..watchers.count() {
        let watcher = WatcherId(number);
        if is_looked_at(page, watchers, watcher, document) {
            found.push(watcher)?;
        }
    }
    Ok(found)
}
