//! Which documents have been laid out, and what they show.

ghost use Rattle.std.specs.Prelude.{◌≡◌, ◌<◌, false, true, None, replicate, slice_set};
ghost use Rattle.page_model.specs.Lookups.{entry_or};
ghost use Rattle.page_boxes.specs.LaidOut.{is_marked};

use element_tree::{DocumentId, NodeId};
use page_documents::MOST_DOCUMENTS;
use std::marker::Model;

// A mark for each document, and the root element that a marked one shows. It doesn't allocate.
#[derive(Drop)]
pub(crate) struct LaidOut {
    marks: [bool; MOST_DOCUMENTS],
    roots: [Option<NodeId>; MOST_DOCUMENTS],
}

impl Model for LaidOut {
    ghost use Rattle.page_boxes.specs.LaidOut.{Laid};

    ghost Value = { Laid };

    ghost view = { λ l. record { marks = l.marks; roots = l.roots } };
}

impl LaidOut {
    pub(crate) fn new() -> LaidOut
        ensures { result ≡ record { marks = replicate 64 false; roots = replicate 64 None } }
    {
        LaidOut {
            marks: [false; MOST_DOCUMENTS],
            roots: [None; MOST_DOCUMENTS],
        }
    }

    pub(crate) fn has(&self, document: DocumentId) -> bool
        requires { document.0 < 64 }
        ensures { result ≡ is_marked self.now.marks document.0 }
    {
        self.marks[document.0 as usize]
    }

    // Returns the root element that a marked document shows.
    pub(crate) fn root(&self, document: DocumentId) -> Option<NodeId>
        requires { document.0 < 64 }
        ensures { result ≡ entry_or None self.now.roots document.0 }
    {
        self.roots[document.0 as usize]
    }

    pub(crate) fn mark(&mut self, document: DocumentId, root: Option<NodeId>)
        requires { document.0 < 64 }
        ensures { self.new ≡ record { marks = slice_set self.old.marks document.0 true; roots = slice_set self.old.roots document.0 root } }
    {
        self.marks[document.0 as usize] = true;
        self.roots[document.0 as usize] = root;
    }
}
