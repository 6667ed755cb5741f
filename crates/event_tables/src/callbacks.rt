//! What frame callbacks and timers share: their keys, and batches of those to be run.

ghost use Rattle.std.specs.Prelude.{◌≡◌, [], ◌∷◌, ◌++◌, OnOk, MatchOption};
ghost use Rattle.event_tables.specs.Seen.{seen_callback};

use crate::HandlerId;
use element_tree::DocumentId;
use std::alloc::{AllocError, Global};
use std::collections::VecDeque;
use std::marker::Model;
use text_io::Name;

/// A key within a document.
#[derive(Clone, Copy, PartialEq, Eq, Hash)]
pub(crate) struct DocumentKey {
    pub(crate) document: DocumentId,
    pub(crate) key: Name,
}

/// A copied callback.
#[derive(Clone, Copy)]
pub(crate) struct Callback {
    pub(crate) serial: u64,
    pub(crate) key: DocumentKey,
    pub(crate) handler: HandlerId,
}

/// The frame callbacks or timers that were copied when a batch began, and that `next` hasn't taken yet. Contracts see them as
/// a list of callbacks.
#[derive(Drop)]
pub struct Batch {
    left: VecDeque<Callback>,
}

impl Model for Batch {
    ghost use Rattle.std.specs.Prelude.{List, map};
    ghost use Rattle.page_model.specs.World.{FrameCallback};

    ghost Value = { List FrameCallback };

    ghost use Rattle.event_tables.specs.Seen.{seen_callback};

    ghost view = { λ b. map seen_callback b.left.items };
}

impl Batch {
    pub(crate) fn new(alloc: Global) -> Batch
        ensures { result ≡ [] }
    {
        Batch {
            left: VecDeque::new(alloc),
        }
    }

    pub(crate) fn push(&mut self, callback: Callback) -> Result<(), AllocError>
        ensures { OnOk result (self.new ≡ self.old ++ seen_callback callback ∷ []) }
    {
        self.left.push_back(callback)?;
        Ok(())
    }

    // Removes the first one.
    pub(crate) fn pop(&mut self) -> Option<Callback>
        ensures { MatchOption result ((self.old ≡ []) × (self.new ≡ [])) (λ callback. self.old ≡ seen_callback callback ∷ self.new) }
    {
        self.left.pop_front()
    }
}
