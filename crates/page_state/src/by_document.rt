//! A table by document, up to the last document that has an entry.

ghost use Rattle.std.specs.Prelude.{◌≡◌, ◌<◌, IfOk, []};
ghost use Rattle.page_model.specs.Lookups.{entry_or, put_at, change_at};

use element_tree::DocumentId;
use page_documents::MOST_DOCUMENTS;
use std::alloc::{AllocError, Global};
use std::marker::Model;

/// An entry for each document. Capacity for all is reserved at first, so that setting one doesn't allocate.
#[derive(Drop)]
pub(crate) struct ByDocument<T> {
    entries: Vec<T>,
}

impl<T> Model for ByDocument<T> {
    ghost use Rattle.std.specs.Prelude.{◌≤◌, List, vec_capacity};

    ghost Value = { List T };

    ghost view = { λ it. it.entries.items };

    ghost invariant = { λ it. 64 ≤ vec_capacity it.entries };
}

impl<T: Copy> ByDocument<T> {
    pub(crate) fn new(alloc: Global) -> Result<ByDocument<T>, AllocError>
        ensures { IfOk result (λ it. it ≡ []) }
    {
        let entries = Vec::with_capacity(alloc, MOST_DOCUMENTS)?;
        Ok(ByDocument { entries })
    }

    // Returns the entry of a document, the default if it has none.
    pub(crate) fn get(&self, document: DocumentId, default: T) -> T
        ensures { result ≡ entry_or default self.now document.0 }
    {
        match self.entries.get(document.0 as usize) {
            Some(entry) => *entry,
            None => default,
        }
    }

    // Sets the entry of a document. Documents before it without an entry get the default.
    pub(crate) fn set(&mut self, document: DocumentId, value: T, default: T)
        requires { document.0 < 64 }
        ensures { self.new ≡ put_at default document.0 value self.old }
    {
        let place = document.0 as usize;
        if place < self.entries.len() {
            self.entries[place] = value;
            return;
        }
        let Ok(()) = self.entries.resize(place, default) else {
            return;
        };
        self.entries.push_reserved(value);
    }

    // Sets the entry of a document that has one.
    pub(crate) fn reset(&mut self, document: DocumentId, value: T)
        ensures { self.new ≡ change_at (λ before. value) document.0 self.old }
    {
        let place = document.0 as usize;
        if place < self.entries.len() {
            self.entries[place] = value;
        }
    }
}
