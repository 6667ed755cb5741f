//! The observers of each document, indexed by their place.

ghost use Rattle.std.specs.Prelude.{◌≡◌, ◌≤◌, [], ◌∷◌, ◌++◌, List, length, nat_eq, unwrap_or, OnOk, OnErr};
ghost use Rattle.std.specs.HashMap.{get};
ghost use Rattle.page_model.specs.World.{ResizeObserver};
ghost use Rattle.resize_observer.specs.Documents.{Tells, same_key};

use element_tree::DocumentId;
use std::alloc::{AllocError, Global};
use std::collections::HashMap;

/// The number of observers of each document, and the observer number at each place among a document's observers, so that the
/// list of all observers is never scanned.
#[derive(Drop)]
pub(crate) struct Documents {
    counts: HashMap<u32, usize>,
    numbers: HashMap<(u32, usize), u32>,
}

impl Documents {
    pub(crate) fn new(alloc: Global) -> Documents
        ensures { Tells result [] }
    {
        Documents {
            counts: HashMap::new(alloc),
            numbers: HashMap::new(alloc),
        }
    }

    /// Returns the number of the document's observer at this place, `None` past the last.
    pub(crate) fn at(&self, document: DocumentId, place: usize) -> Option<u32>
        ensures { result ≡ get same_key self.now.numbers (document.0, place) }
    {
        self.numbers.get(&(document.0, place)).copied()
    }

    /// Records the observer that is created next, with its document and number.
    pub(crate) fn note(&mut self, document: DocumentId, number: u32) -> Result<(), AllocError>
        requires { unwrap_or (get nat_eq self.old.counts document.0) 0 ≤ number }
        ensures noted { OnOk result ((made : List ResizeObserver) (new : ResizeObserver) → Tells self.old made → length made ≡ number → new.document ≡ document.0 → Tells self.new (made ++ new ∷ [])) }
        ensures same { OnErr result ((made : List ResizeObserver) → Tells self.old made → Tells self.new made) }
    {
        self.counts.reserve(1)?;
        let place = self.counts.get(&document.0).copied().unwrap_or(0);
        self.numbers.insert((document.0, place), number)?;
        self.counts.insert(document.0, place + 1)?;
        Ok(())
    }
}
