//! The relation of a target to a root (Intersection Observer, 2.2 and 3.2.10).

ghost use Rattle.std.specs.Prelude.{◌≡◌};
ghost use Rattle.page_model.specs.Findings.{is_on_chain, is_apart};
ghost use Rattle.intersection_observer.specs.Seen.{seen_root};

use crate::shown::Shown;
use element_tree::NodeId;
use intersection_observer::Root;
use page_tree::PageTree;
use positioned_layout::{Holder, holder_of};

// Whether an element is on the chain of holders of the target's box (CSS 2.2, 10.1: containing block).
fn is_on_chain(page: &PageTree, element: NodeId, target: NodeId) -> bool
    ensures { result ≡ is_on_chain page.now.tree element.0 target.0 }
{
    if element == target {
        return false;
    }
    if !page.holds(target) {
        return false;
    }
    let tree = page.tree();
    let mut held = holder_of(tree, target);
    while let Holder::Node(holder) = held {
        if holder == element {
            return true;
        }
        held = holder_of(tree, holder);
    }
    false
}

// Whether a target is apart from a root: the root is of another document, or an element that isn't on the target's chain, or
// one of the two has no box.
pub(crate) fn is_apart(shown: &Shown<'_>, root: Root, target: NodeId) -> bool
    ensures { result ≡ is_apart shown.now (seen_root root) target.0 }
{
    match root {
        Root::Implicit => false,
        Root::Document(document) => shown.document_of(target).0 != document.0,
        Root::Node(node) => {
            shown.document_of(target).0 != shown.document_of(node).0
                || !is_on_chain(shown.page(), node, target)
                || !shown.has_box(node)
                || !shown.has_box(target)
        }
    }
}
