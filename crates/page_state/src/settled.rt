//! The documents that are as their last update of intersections left them.

ghost use Rattle.std.specs.Prelude.{◌≡◌, ◌<◌};
ghost use Rattle.page_boxes.specs.LaidOut.{is_marked};
ghost use Rattle.page_state.specs.Quiet.{NoneSettled, noted};

use element_tree::DocumentId;
use page_documents::MOST_DOCUMENTS;
use std::marker::Model;

/// A mark for each document: nothing that an update of its intersections looks at has changed since the last one. Marks are
/// cleared before anything is changed. It doesn't allocate.
#[derive(Drop)]
pub(crate) struct Settled {
    marks: [bool; MOST_DOCUMENTS],
}

impl Model for Settled {
    ghost use Rattle.std.specs.Prelude.{Bool, List};

    ghost Value = { List Bool };

    ghost view = { λ s. s.marks };
}

#[tactic(auto, using(crate::proofs::Quiet::none_settled))]
impl Settled {
    // No document is marked.
    pub(crate) fn new() -> Settled
        ensures { NoneSettled result }
    {
        Settled {
            marks: [false; MOST_DOCUMENTS],
        }
    }

    pub(crate) fn has(&self, document: DocumentId) -> bool
        ensures { result ≡ is_marked self.now document.0 }
    {
        match self.marks.get(document.0 as usize) {
            Some(mark) => *mark,
            None => false,
        }
    }

    // Marks a document once it was updated. If its update failed, no document stays marked.
    pub(crate) fn note(&mut self, document: DocumentId, ended_well: bool)
        requires { document.0 < 64 }
        ensures { self.new ≡ noted document.0 ended_well self.old }
    {
        if ended_well {
            self.marks[document.0 as usize] = true;
        } else {
            self.marks = [false; MOST_DOCUMENTS];
        }
    }

    // Before anything is changed that an update looks at.
    pub(crate) fn clear(&mut self)
        ensures { NoneSettled self.new }
    {
        self.marks = [false; MOST_DOCUMENTS];
    }
}
