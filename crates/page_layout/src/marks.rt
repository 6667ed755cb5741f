//! Marking cached boxes when the elements of a page change.

ghost use Rattle.std.specs.Prelude.{◌≡◌, ◌<◌, ◌≤◌, length, option_map};
ghost use Rattle.std.specs.Option.{ForSome};
ghost use Rattle.element_tree.specs.Links.{number};
ghost use Rattle.page_model.specs.Documents.{nodes_of};
ghost use Rattle.container_model.specs.Seen.{seen_container};
ghost use Rattle.page_layout.specs.Marks.{element_of, is_over, Mends, MarksOnly};

use element_tree::{Container, NodeId};
use kept_layout::Kept;
use page_tree::PageTree;

// Returns the parent element of an element.
pub(crate) fn parent_of(page: &PageTree, node: NodeId) -> Option<NodeId>
    ensures value { option_map number result ≡ (nodes_of page.now.tree node.0).parent }
    ensures made { ForSome result (λ parent. parent.0 < length page.now.tree.elements) }
{
    page.tree().parent(node)
}

// Returns the element that a container is, `None` for a document.
pub(crate) fn element_of(container: Container) -> Option<NodeId>
    ensures { option_map number result ≡ element_of (seen_container container) }
{
    match container {
        Container::Element(parent) => Some(parent),
        Container::Document(_) => None,
    }
}

// Marks an element with its ancestors, if there is one.
pub(crate) fn mark(boxes: &mut Kept, page: &PageTree, node: Option<NodeId>)
    requires made { ForSome node (λ n. n.0 < length page.now.tree.elements) }
    requires slots { length page.now.tree.elements ≤ length boxes.old }
    ensures mended { Mends page.now.tree (option_map number node) boxes.old boxes.new }
    ensures marks { MarksOnly (is_over page.now.tree (option_map number node)) boxes.old boxes.new }
    ensures slots { length boxes.new ≡ length boxes.old }
{
    if let Some(named) = node {
        boxes.mark(page.tree(), named);
    }
}
