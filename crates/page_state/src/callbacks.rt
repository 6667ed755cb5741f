//! The calls of ticks and dispatches on the event tables of a page (DOM, 2.9; HTML, timers, animation frames and tasks).

ghost use Rattle.std.specs.Prelude.{◌≡◌, ℕ, List, find, map, option_map, IfOk, IfSome};
ghost use Rattle.page_model.specs.World.{Listener as ModelListener};
ghost use Rattle.page_model.specs.Listeners.{listeners_of, listener_stands};
ghost use Rattle.page_model.specs.FrameCallbacks.{frame_callbacks_of, frame_callback_stands};
ghost use Rattle.page_model.specs.Timers.{due_timers};
ghost use Rattle.page_model.specs.Scrolls.{pending_of, without_pending};
ghost use Rattle.page_laws.specs.Ready.{IsReadyFor, with_first};
ghost use Rattle.event_tables.specs.FrameCallbacks as frames;
ghost use Rattle.event_tables.specs.Handed.{behind_first};
ghost use Rattle.event_tables.specs.Seen.{seen_target, seen_task};
ghost use Rattle.event_tables.specs.Tasks.{first_of, others_of};
ghost use Rattle.event_tables.specs.Timers.{callback_of, copied_stands};
ghost use Rattle.event_tables.specs.Timers as timers;
ghost use Rattle.container_model.specs.Seen.{seen_containers};

use crate::page::Page;
use element_tree::{Container, DocumentId};
use event_tables::{Batch, Dispatch, EventTarget, HandlerId, Task};
use std::alloc::AllocError;
use text_io::{EventKind, Name};

impl Page {
    /// Copies the listeners for an event as it reaches a target (DOM, 2.9: inner invoke).
    pub fn begin_dispatch(
        &self,
        target: EventTarget,
        event: EventKind,
    ) -> Result<Dispatch, AllocError>
        ensures { IfOk result (λ dispatch. dispatch ≡ listeners_of (seen_target target) event self.now.world.listeners) }
    {
        self.listeners.begin_dispatch(target, event)
    }

    /// Returns the handler of the first listener of the dispatch that is still registered; the dispatch is advanced past it.
    /// `None` exactly when none of the rest is still registered.
    pub fn next_listener(&self, dispatch: &mut Dispatch) -> Option<HandlerId>
        ensures value { option_map (λ handler. handler.0) result ≡ option_map (λ (it : ModelListener). it.handler) (find (λ it. listener_stands it self.now.world.listeners) dispatch.old) }
        ensures left { dispatch.new ≡ behind_first (λ it. listener_stands it self.now.world.listeners) dispatch.old }
    {
        self.listeners.next(dispatch)
    }

    /// Copies the frame callbacks of a document as it begins to run them (HTML, animation frames).
    pub fn begin_frames(&self, document: DocumentId) -> Result<Batch, AllocError>
        ensures { IfOk result (λ batch. batch ≡ frame_callbacks_of document.0 self.now.world.frame_callbacks) }
    {
        self.frame_callbacks.begin(document)
    }

    /// Removes the first frame callback of the batch that is still registered, and returns its key and handler; the batch is
    /// advanced past it. `None` exactly when none of the rest is still registered.
    pub fn next_frame(&mut self, batch: &mut Batch) -> Option<(Name, HandlerId)>
        ensures value { option_map {U = List ℕ × ℕ} (λ called. (called.0, called.1.0)) result
            ≡ option_map frames.told (find (λ it. frame_callback_stands it self.old.world.frame_callbacks) batch.old) }
        ensures removed { self.new ≡ record self.old {
          world = record (self.old.world) {
            frame_callbacks = frames.once_handed (find (λ it. frame_callback_stands it self.old.world.frame_callbacks) batch.old) (self.old.world.frame_callbacks);
          };
        } }
        ensures left { batch.new ≡ behind_first (λ it. frame_callback_stands it self.old.world.frame_callbacks) batch.old }
        ensures ready { (handlers : ℕ) → IsReadyFor handlers self.old.world → IsReadyFor handlers self.new.world }
    {
        self.frame_callbacks.next(batch)
    }

    /// Copies the timers that are due at the clock's time, ordered by due time and then by creation (HTML, timers).
    pub fn take_due(&self) -> Result<Batch, AllocError>
        ensures { IfOk result (λ batch. batch ≡ map callback_of (due_timers self.now.world.clock self.now.world.timers)) }
    {
        self.timers.take_due(self.clock)
    }

    /// Removes the first timer of the batch that is still registered, and returns its document, key and handler; the batch is
    /// advanced past it. `None` exactly when none of the rest is still registered.
    pub fn next_timer(&mut self, batch: &mut Batch) -> Option<(DocumentId, Name, HandlerId)>
        ensures value { option_map {U = ℕ × List ℕ × ℕ} (λ called. (called.0.0, called.1, called.2.0)) result
            ≡ option_map timers.told (find (copied_stands self.old.world.timers) batch.old) }
        ensures removed { self.new ≡ record self.old {
          world = record (self.old.world) {
            timers = timers.once_handed (find (copied_stands self.old.world.timers) batch.old) (self.old.world.timers);
          };
        } }
        ensures left { batch.new ≡ behind_first (copied_stands self.old.world.timers) batch.old }
        ensures ready { (handlers : ℕ) → IsReadyFor handlers self.old.world → IsReadyFor handlers self.new.world }
    {
        self.timers.next(batch)
    }

    /// Removes and returns the first task. `None` exactly when no task is queued. A page that was ready for a tick is also
    /// ready with that task put back in front, as `notify_list` requires.
    pub fn pop_task(&mut self) -> Option<Task>
        ensures value { option_map seen_task result ≡ first_of self.old.world.tasks }
        ensures left { self.new ≡ record self.old { world = record (self.old.world) { tasks = others_of (self.old.world.tasks) } } }
        ensures ready { (handlers : ℕ) → IsReadyFor handlers self.old.world → IsReadyFor handlers self.new.world }
        ensures task { (handlers : ℕ) → IsReadyFor handlers self.old.world → IfSome result (λ task. IsReadyFor handlers (with_first (seen_task task) self.new.world)) }
    {
        self.tasks.pop()
    }

    /// Takes the list of the targets that scrolled in a document since the last call, in order, leaving it empty (CSSOM View,
    /// 13: run the scroll steps). Doesn't allocate.
    pub fn take_scrolled(&mut self, document: DocumentId) -> Vec<Container>
        ensures value { seen_containers result.items ≡ pending_of document.0 self.old.world.scrolls }
        ensures taken { self.new ≡ record self.old { world = record (self.old.world) { scrolls = without_pending document.0 (self.old.world.scrolls) } } }
        ensures ready { (handlers : ℕ) → IsReadyFor handlers self.old.world → IsReadyFor handlers self.new.world }
    {
        let scrolled = self.scrolls.take_pending(document);
        if scrolled.as_slice().is_empty() {
            return scrolled;
        }
        self.settled.clear();
        scrolled
    }
}
