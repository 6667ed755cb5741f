//! Animation frame callbacks (HTML, animation frames).

ghost use Rattle.std.specs.Prelude.{◌≡◌, ℕ, List, ◌+◌, ◌<◌, ◌≤◌, ◌-◌, ◌^◌, [], ◌==◌, false, find, filter, map, option_map, IfOk, OnOk, OnErr};
ghost use Rattle.std.specs.List.{list_any};
ghost use Rattle.page_model.specs.World.{FrameCallback};
ghost use Rattle.page_model.specs.FrameCallbacks.{is_frame_requested, with_frame_callback, without_frame_callback, frame_callbacks_of, frame_callback_stands, frame_callback_taken};
ghost use Rattle.event_tables.specs.Answers.{Enters};
ghost use Rattle.event_tables.specs.Handed.{behind_first};
ghost use Rattle.event_tables.specs.Seen.{seen_callback, seen_frame_callback};
ghost use Rattle.event_tables.specs.Tables.{has_room};
ghost use Rattle.event_tables.specs.FrameCallbacks.{once_handed, told};

use crate::callbacks::{Callback, DocumentKey};
use crate::entries::Entries;
use crate::{Batch, HandlerId, TableFault};
use element_tree::DocumentId;
use std::alloc::{AllocError, Global};
use std::collections::BTreeMap;
use std::marker::Model;
use text_io::Name;

/// The frame callbacks of a page in creation order, each with its document and a key unique in that document. Contracts see
/// them as the definitions of a world do, with the count of serial numbers given out and the limit.
#[derive(Drop)]
pub struct FrameCallbacks {
    entries: Entries<DocumentKey, HandlerId>,
}

impl Model for FrameCallbacks {
    ghost use Rattle.page_model.specs.World.{FrameCallback};
    ghost use Rattle.event_tables.specs.Tables.{Bounded};

    ghost Value = { Bounded FrameCallback };

    ghost use Rattle.event_tables.specs.Seen.{seen_frame_callback};
    ghost use Rattle.event_tables.specs.Tables.{seen_table};

    ghost view = { λ f. seen_table seen_frame_callback f.entries };
}

impl FrameCallbacks {
    /// Creates an empty set of frame callbacks; allocates nothing. At most `most` can be held.
    pub fn new(alloc: Global, most: u32) -> FrameCallbacks
        ensures { result ≡ record { part = record { given = 0; held = [] }; most = most } }
    {
        FrameCallbacks {
            entries: Entries::new(alloc, most),
        }
    }

    /// Requests a frame callback of a document under a key; it runs after those already requested.
    ///
    /// `Taken` exactly when the key is in use in the document; otherwise `Limit` exactly when `most` are held; otherwise
    /// `Memory` if an allocation fails. Requires that fewer than 2^64 - 1 serial numbers have been given out.
    pub fn request(
        &mut self,
        document: DocumentId,
        key: Name,
        handler: HandlerId,
    ) -> Result<(), TableFault>
        requires { self.old.part.given < 2 ^ 64 - 1 }
        ensures answer { Enters result (is_frame_requested document.0 key self.old.part) (has_room self.old) }
        ensures requested { OnOk result (self.new ≡ record self.old { part = with_frame_callback document.0 key handler.0 (self.old.part) }) }
        ensures same { OnErr result (self.new ≡ self.old) }
        ensures given { self.new.part.given ≤ self.old.part.given + 1 }
    {
        self.entries.enter(DocumentKey { document, key }, handler)
    }

    /// Cancels the frame callback of a document under a key. Returns false, and changes nothing, exactly when there is none.
    pub fn cancel(&mut self, document: DocumentId, key: Name) -> bool
        ensures answer { result ≡ is_frame_requested document.0 key self.old.part }
        ensures cancelled { self.new ≡ record self.old { part = without_frame_callback document.0 key (self.old.part) } }
        ensures same { result ≡ false → self.new ≡ self.old }
    {
        self.entries.remove(DocumentKey { document, key })
    }

    /// Copies the frame callbacks of a document as it begins to run them.
    pub fn begin(&self, document: DocumentId) -> Result<Batch, AllocError>
        ensures { IfOk result (λ batch. batch ≡ frame_callbacks_of document.0 self.now.part) }
    {
        copies(self.entries.allocator(), self.entries.held(), document)
    }

    /// Removes the first frame callback of the batch that is still registered, and returns its key and handler; the batch is
    /// advanced past it. `None` exactly when none of the rest is still registered. One that was cancelled and requested again
    /// counts as a different one.
    pub fn next(&mut self, batch: &mut Batch) -> Option<(Name, HandlerId)>
        ensures value { option_map {U = List ℕ × ℕ} (λ called. (called.0, called.1.0)) result ≡ option_map told (find (λ it. frame_callback_stands it self.old.part) batch.old) }
        ensures removed { self.new ≡ record self.old { part = once_handed (find (λ it. frame_callback_stands it self.old.part) batch.old) (self.old.part) } }
        ensures left { batch.new ≡ behind_first (λ it. frame_callback_stands it self.old.part) batch.old }
        ensures given { self.new.part.given ≡ self.old.part.given }
    {
        let callback = self.first_standing(batch)?;
        self.take(callback.serial);
        Some((callback.key.key, callback.handler))
    }

    // Advances the batch past the first callback that is still registered, and returns that.
    fn first_standing(&self, batch: &mut Batch) -> Option<Callback>
        ensures value { option_map seen_callback result ≡ find (λ it. frame_callback_stands it self.now.part) batch.old }
        ensures left { batch.new ≡ behind_first (λ it. frame_callback_stands it self.now.part) batch.old }
    {
        while let Some(callback) = batch.pop() {
            if self.stands(callback.serial) {
                return Some(callback);
            }
        }
        None
    }

    // Removes the one with this serial number.
    fn take(&mut self, serial: u64)
        ensures { self.new ≡ record self.old { part = frame_callback_taken serial (self.old.part) } }
    {
        self.entries.take(serial);
    }

    // Whether the callback with this serial number is registered.
    fn stands(&self, serial: u64) -> bool
        ensures { result ≡ list_any (λ (each : FrameCallback). each.serial == serial) self.now.part.held }
    {
        self.entries.has_serial(serial)
    }
}

// Copies those of a document.
fn copies(
    alloc: Global,
    held: &BTreeMap<u64, (DocumentKey, HandlerId)>,
    document: DocumentId,
) -> Result<Batch, AllocError>
    ensures { IfOk result (λ batch. batch ≡ filter (λ (each : FrameCallback). each.document == document.0) (map seen_frame_callback held.now.entries)) }
{
    let mut batch = Batch::new(alloc);
    for (serial, (key, handler)) in held {
        if key.document.0 == document.0 {
            batch.push(Callback {
                serial: *serial,
                key: *key,
                handler: *handler,
            })?;
        }
    }
    Ok(batch)
}
