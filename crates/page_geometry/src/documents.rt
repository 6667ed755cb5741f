//! What is precomputed of documents.

ghost use Rattle.std.specs.Prelude.{◌≡◌, ◌<◌, Some, None, replicate, slice_set};
ghost use Rattle.page_geometry.specs.Found.{found_at};

use crate::view::DocumentView;
use element_tree::DocumentId;
use page_documents::MOST_DOCUMENTS;
use px_units::Point;
use std::marker::Model;

// The view of a document, and the origin of its viewport in that of `top`, `None` if that wasn't computed.
#[derive(Clone, Copy, Debug, PartialEq, Eq)]
pub(crate) struct FoundDocument {
    pub(crate) view: DocumentView,
    pub(crate) origin: Option<Point>,
}

// An entry for each document, `None` if it wasn't looked at. It doesn't allocate.
#[derive(Drop)]
pub(crate) struct FoundDocuments {
    documents: [Option<FoundDocument>; MOST_DOCUMENTS],
}

impl Model for FoundDocuments {
    ghost use Rattle.std.specs.Prelude.{Option, List};
    ghost use Rattle.page_geometry.specs.declared.documents.FoundDocument.{FoundDocument};

    ghost Value = { List (Option FoundDocument) };

    ghost view = { λ f. f.documents };
}

impl FoundDocuments {
    pub(crate) fn new() -> FoundDocuments
        ensures { result ≡ replicate 64 None }
    {
        FoundDocuments {
            documents: [None; MOST_DOCUMENTS],
        }
    }

    pub(crate) fn of(&self, document: DocumentId) -> Option<FoundDocument>
        requires { document.0 < 64 }
        ensures { result ≡ found_at self.now document.0 }
    {
        self.documents[document.0 as usize]
    }

    pub(crate) fn put(&mut self, document: DocumentId, found: FoundDocument)
        requires { document.0 < 64 }
        ensures { self.new ≡ slice_set self.old document.0 (Some found) }
    {
        self.documents[document.0 as usize] = Some(found);
    }
}
