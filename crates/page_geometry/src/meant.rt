//! The document that an element or a document, read or scrolled, belongs to.

ghost use Rattle.std.specs.Prelude.{◌≡◌};
ghost use Rattle.page_model.specs.Documents.{document_of_container};
ghost use Rattle.container_model.specs.Seen.{seen_container};

use element_tree::{Container, DocumentId};
use page_tree::PageTree;

/// Returns the node document of an element, or the document itself.
pub fn document_of_container(page: &PageTree, container: Container) -> DocumentId
    ensures { result.0 ≡ document_of_container page.now.tree (seen_container container) }
{
    match container {
        Container::Element(node) => page.document_of(node),
        Container::Document(document) => document,
    }
}
