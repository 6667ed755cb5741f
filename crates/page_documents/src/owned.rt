//! What the elements of a tree must provide.

ghost use Rattle.std.specs.Prelude.{◌≡◌, ℕ, option_map};
ghost use Rattle.element_tree.specs.Documents.{document_number};
ghost use Rattle.page_documents.specs.Seen.{Carried};

use element_tree::DocumentId;

/// An element, which has a node document and may be a frame with a document in it (DOM, 4.4: node document; HTML, 4.8.5).
pub trait Owned {
    ghost carried: { Self → Carried };

    ghost adopted: { ℕ → Self → Self };

    /// Returns the node document of the element.
    fn document(&self) -> DocumentId
        ensures { result.0 ≡ (carried self.now).document };

    /// Sets the node document. Nothing else of the element changes.
    fn set_document(&mut self, document: DocumentId)
        ensures { self.new ≡ adopted document.0 self.old };

    /// Returns the document in a frame, `None` for any other element.
    fn framed(&self) -> Option<DocumentId>
        ensures { option_map document_number result ≡ (carried self.now).framed };

    ghost adopts: { (document : ℕ) (it : Self) → carried (adopted document it) ≡ record (carried it) { document = document } };
}
