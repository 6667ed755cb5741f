//! What a walk over documents passes the documents to.

ghost use Rattle.std.specs.Prelude.{◌≡◌, ℕ, ◌<◌, ◌++◌, ◌∷◌, [], OnOk, true, slice_set, get_or};
ghost use Rattle.element_tree.specs.Documents.{document_numbers};
ghost use Rattle.page_documents.specs.Walks.{no_marks};

use element_tree::DocumentId;
use std::alloc::{AllocError, Global};
use std::convert::Infallible;
use std::marker::Model;

/// The largest number of documents that a page can have.
pub const MOST_DOCUMENTS: usize = 64;

// Receives the documents that a walk reaches, in its order.
pub(crate) trait Finder {
    type Fault: Drop;

    ghost with: { ℕ → Self → Self };

    fn take(&mut self, document: DocumentId) -> Result<(), Self::Fault>
        requires { document.0 < 64 }
        ensures { OnOk result (self.new ≡ with document.0 self.old) };
}

// The documents reached, in order.
#[derive(Drop)]
pub(crate) struct Listed {
    documents: Vec<DocumentId>,
}

impl Model for Listed {
    ghost use Rattle.std.specs.Prelude.{ℕ, List};
    ghost use Rattle.element_tree.specs.Documents.{document_numbers};

    ghost Value = { List ℕ };

    ghost view = { λ l. document_numbers l.documents.items };
}

impl Listed {
    pub(crate) fn new(alloc: Global) -> Listed
        ensures { result ≡ [] }
    {
        Listed {
            documents: Vec::new(alloc),
        }
    }

    pub(crate) fn into_documents(self) -> Vec<DocumentId>
        ensures { document_numbers result.items ≡ self }
    {
        let Listed { documents } = self;
        documents
    }
}

impl Finder for Listed {
    type Fault = AllocError;

    ghost with = { λ document found. found ++ document ∷ [] };

    fn take(&mut self, document: DocumentId) -> Result<(), AllocError> {
        self.documents.push(document)?;
        Ok(())
    }
}

// The set of documents reached. It doesn't allocate.
#[derive(Drop)]
pub(crate) struct Marks {
    marks: [bool; MOST_DOCUMENTS],
}

impl Model for Marks {
    ghost use Rattle.std.specs.Prelude.{Bool, List};

    ghost Value = { List Bool };

    ghost view = { λ m. m.marks };
}

impl Marks {
    pub(crate) fn new() -> Marks
        ensures { result ≡ no_marks }
    {
        Marks {
            marks: [false; MOST_DOCUMENTS],
        }
    }

    pub(crate) fn has(&self, document: usize) -> bool
        requires { document < 64 }
        ensures { result ≡ get_or self.now document true }
    {
        self.marks[document]
    }
}

impl Finder for Marks {
    type Fault = Infallible;

    ghost with = { λ document marks. slice_set marks document true };

    fn take(&mut self, document: DocumentId) -> Result<(), Infallible> {
        self.marks[document.0 as usize] = true;
        Ok(())
    }
}
