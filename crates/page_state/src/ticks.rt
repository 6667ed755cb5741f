//! The calls of a tick on a page, besides those of the resize loop and on the event tables (HTML, update the rendering).

ghost use Rattle.std.specs.Prelude.{◌≡◌, ◌<◌, ℕ, Bool, All, not, length, IfOk, OnOk, OnErr};
ghost use Rattle.element_tree.specs.Documents.{document_numbers};
ghost use Rattle.page_model.specs.Documents.{active_documents, is_active};
ghost use Rattle.page_model.specs.Intersections.{update_intersections, watchers};
ghost use Rattle.page_model.specs.IntersectionObserving.{without_queue};
ghost use Rattle.page_model.specs.Lookups.{intersection_observer_at};
ghost use Rattle.page_model.specs.PageBoxes.{viewport_of};
ghost use Rattle.page_model.specs.Shown.{shown_of};
ghost use Rattle.page_model.specs.Tasks.{is_notifying, without_notifying};
ghost use Rattle.page_model.specs.World.{World, Notify, InDocument};
ghost use Rattle.page_model.specs.Viewports.{noted_size, with_noted, differs_from};
ghost use Rattle.page_laws.specs.Ready.{IsReadyFor, with_first};
ghost use Rattle.page_boxes.specs.Around.{rests_on};
ghost use Rattle.page_boxes.specs.Kept.{FillsOnly, LeavesUnboxed};
ghost use Rattle.intersection_update.specs.Keeping.{HaveChains, IsRefused};
ghost use Rattle.intersection_update.specs.Updating.{AreSettled, IsStopped, has_news};
ghost use Rattle.intersection_update.specs.Watching.{AreWritten, watcher_numbers, have_entries};
ghost use Rattle.page_state.specs.Boxes.{ComputesIn};
ghost use Rattle.page_state.specs.Findings.{Updates, AreUpdated, TakesAtMost, settled_now};
ghost use Rattle.page_state.specs.Notices.{IsNoticed, once_told, with_task_if};

use crate::page::{Page, shown_at_once, viewport_now};
use element_tree::DocumentId;
use event_tables::Task;
use intersection_observer::{EntryList, WatcherId};
use intersection_update::{have_entries, tell_serials, update, watchers_of};
use std::alloc::AllocError;
use std::sync::ledger::Ledger;
use step_count::Steps;

impl Page {
    /// Whether a document is Active (HTML, 7.3). False if there is no such document.
    pub fn is_active(&self, document: DocumentId) -> bool
        ensures { result ≡ is_active self.now.world.tree document.0 }
    {
        self.laid.page().is_active(document)
    }

    /// Returns the Active documents, in preorder of the frame tree. Fails only if an allocation fails.
    pub fn active_documents(&self) -> Result<Vec<DocumentId>, AllocError>
        ensures { IfOk result (λ documents. document_numbers documents.items ≡ active_documents self.now.world.tree) }
    {
        self.laid.page().active_documents()
    }

    /// Whether the size of a document's viewport differs from the one recorded by the last call for this document; the new
    /// size is recorded (CSSOM View, 13: run the resize steps). The first call only records it and returns false. Doesn't
    /// allocate.
    pub fn viewport_changed<L: Ledger>(
        &mut self,
        document: DocumentId,
        steps: &mut Steps<L>,
    ) -> bool
        requires { document.0 < length self.old.world.tree.documents }
        ensures value { result ≡ differs_from (viewport_of self.old.world.tree self.old.world.viewports.screen document.0) (noted_size document.0 self.old.world.viewports) }
        ensures noted { self.new.world ≡ record (self.old.world) {
          viewports = with_noted document.0 (viewport_of (self.old.world.tree) (self.old.world.viewports.screen) document.0) (self.old.world.viewports);
        } }
        ensures begun { self.new.begun ≡ self.old.begun }
        ensures boxes { ComputesIn self.old.world (rests_on self.old.world.tree (InDocument document.0)) self.old.kept self.new.kept steps.old steps.new }
        ensures findings { self.new.found ≡ self.old.found }
        ensures ready { (handlers : ℕ) → IsReadyFor handlers self.old.world → IsReadyFor handlers self.new.world }
    {
        let size = viewport_now(&mut self.laid, self.screen, document, steps);
        // There are at most 64 documents.
        let _count = self.laid.page().document_count();
        let before = self.noted.get(document, None);
        self.noted.set(document, Some(size), None);
        match before {
            None => false,
            Some(noted) => noted != size,
        }
    }

    /// Updates the intersection observations of a document (Intersection Observer, 3.2.10): stores the current finding of
    /// each target of the observers whose root is the document or is in it (for `top` also those with the implicit root),
    /// through the scroll margins of each, queues an entry for each change, and a notify task if an entry was queued. Only
    /// stale findings are recomputed.
    ///
    /// # Errors
    /// If an allocation fails. If it is that of the notify task, nothing is changed. Otherwise the registrations before the failed
    /// one are settled then, and all others, and all queues that these don't add to, are unchanged; and the task is queued if an
    /// entry waits, so that none is lost. It takes no more steps then than it may take otherwise.
    pub fn update_intersections<L: Ledger>(
        &mut self,
        document: DocumentId,
        steps: &mut Steps<L>,
    ) -> Result<(), AllocError>
        requires { document.0 < length self.old.world.tree.documents }
        ensures updated { IfOk result (λ _. self.new ≡ record self.old { world = update_intersections document.0 (self.old.world); kept = self.new.kept; found = self.new.found }) }
        ensures rest { OnErr result ((tells : Bool) × (self.new ≡ record self.old { world = once_told tells document.0 (record (self.old.world) { intersection_observers = self.new.world.intersection_observers }); kept = self.new.kept; found = self.new.found })) }
        ensures noticed { OnErr result (IsNoticed document.0 self.old.world → IsNoticed document.0 self.new.world) }
        ensures stopped { OnErr result (IsStopped (shown_of self.old.world) self.old.world.scroll_margins self.old.world.tree document.0 self.old.world.clock self.old.world.intersection_observers self.new.world.intersection_observers) }
        ensures boxes { FillsOnly self.old.kept self.new.kept }
        ensures unboxed { LeavesUnboxed self.old.world.tree self.old.world.viewports.screen self.old.kept self.new.kept }
        ensures settled { OnOk result (AreSettled (shown_of self.old.world) self.old.world.scroll_margins document.0 self.old.world.intersection_observers self.new.world.intersection_observers) }
        ensures findings { Updates (shown_of self.old.world) self.old.world.scroll_margins document.0 self.old.world.intersection_observers self.old.found self.new.found }
        ensures fresh { OnOk result (AreUpdated (shown_of self.old.world) self.old.world.scroll_margins document.0 self.new.world.intersection_observers self.new.found) }
        ensures refused { (chained : HaveChains (shown_of self.old.world)) →
            OnErr result (IsRefused (shown_of self.old.world) self.old.world.scroll_margins chained document.0 self.old.world.clock self.old.world.intersection_observers self.new.world.intersection_observers self.old.found.kept self.new.found.kept) }
        ensures ticks { (chained : HaveChains (shown_of self.old.world)) → TakesAtMost document.0 self.old self.new chained steps.old steps.new }
        ensures ready { (handlers : ℕ) → IsReadyFor handlers self.old.world → IsReadyFor handlers self.new.world }
    {
        if self.settled.has(document) {
            // Yields that serial numbers are unique.
            tell_serials(&self.watchers);
            return Ok(());
        }
        let queued = self.begin_notice(document)?;
        match self.settle_intersections(document, steps) {
            Ok(tells) => {
                self.end_notice(document, queued, tells);
                Ok(())
            }
            Err(error) => {
                let tells = self.has_entries(document);
                self.end_notice(document, queued, tells);
                Err(error)
            }
        }
    }

    // Queues the notify task of a document, unless it is queued already, and returns whether it did: before anything is queued at
    // an observer, so that no lack of memory comes between an entry and its task.
    fn begin_notice(&mut self, document: DocumentId) -> Result<bool, AllocError>
        ensures queued { IfOk result (λ queued. queued ≡ not (is_notifying document.0 self.old.world.notifying)) }
        ensures task { IfOk result (λ queued. self.new ≡ record self.old { world = with_task_if queued document.0 (self.old.world) }) }
        ensures same { OnErr result (self.new ≡ self.old) }
    {
        if self.notifying.get(document, false) {
            return Ok(false);
        }
        match self.tasks.push(Task::Notify(document)) {
            Ok(()) => Ok(true),
            Err(_) => Err(AllocError),
        }
    }

    // Keeps the task that `begin_notice` queued, if the document is told, and takes it back otherwise.
    fn end_notice(&mut self, document: DocumentId, queued: bool, tells: bool)
        requires { document.0 < length self.old.world.tree.documents }
        ensures { (world : World) → queued ≡ not (is_notifying document.0 world.notifying) → self.old.world ≡ with_task_if queued document.0 world →
            self.new ≡ record self.old { world = once_told tells document.0 world } }
    {
        if !queued {
            return;
        }
        if tells {
            // There are at most 64 documents.
            let _count = self.laid.page().document_count();
            self.notifying.set(document, true, false);
        } else {
            self.tasks.take_back();
        }
    }

    // Whether an entry waits at an observer that is updated with a document.
    fn has_entries(&self, document: DocumentId) -> bool
        ensures { result ≡ have_entries self.now.world.tree document.0 self.now.world.intersection_observers }
    {
        have_entries(self.laid.page(), &self.watchers, document)
    }

    // Settles the registrations of a document with their current findings, and returns whether an entry was queued.
    fn settle_intersections<L: Ledger>(
        &mut self,
        document: DocumentId,
        steps: &mut Steps<L>,
    ) -> Result<bool, AllocError>
        requires { document.0 < length self.old.world.tree.documents }
        ensures updated { OnOk result (self.new.world.intersection_observers ≡ settled_now document.0 self.old.world) }
        ensures queued { IfOk result (λ queued. queued ≡ has_news self.old.world.tree document.0 self.old.world.intersection_observers (settled_now document.0 self.old.world)) }
        ensures rest { self.new ≡ record self.old { world = record (self.old.world) { intersection_observers = self.new.world.intersection_observers }; kept = self.new.kept; found = self.new.found } }
        ensures stopped { OnErr result (IsStopped (shown_of self.old.world) self.old.world.scroll_margins self.old.world.tree document.0 self.old.world.clock self.old.world.intersection_observers self.new.world.intersection_observers) }
        ensures boxes { FillsOnly self.old.kept self.new.kept }
        ensures unboxed { LeavesUnboxed self.old.world.tree self.old.world.viewports.screen self.old.kept self.new.kept }
        ensures settled { OnOk result (AreSettled (shown_of self.old.world) self.old.world.scroll_margins document.0 self.old.world.intersection_observers self.new.world.intersection_observers) }
        ensures findings { Updates (shown_of self.old.world) self.old.world.scroll_margins document.0 self.old.world.intersection_observers self.old.found self.new.found }
        ensures fresh { OnOk result (AreUpdated (shown_of self.old.world) self.old.world.scroll_margins document.0 self.new.world.intersection_observers self.new.found) }
        ensures refused { (chained : HaveChains (shown_of self.old.world)) →
            OnErr result (IsRefused (shown_of self.old.world) self.old.world.scroll_margins chained document.0 self.old.world.clock self.old.world.intersection_observers self.new.world.intersection_observers self.old.found.kept self.new.found.kept) }
        ensures ticks { (chained : HaveChains (shown_of self.old.world)) → TakesAtMost document.0 self.old self.new chained steps.old steps.new }
    {
        self.laid.refresh(self.screen, steps);
        let alloc = *self.queries.allocator();
        let shown = shown_at_once(
            alloc,
            &self.laid,
            &self.scrolls,
            self.screen,
            &self.watchers,
            document,
        );
        let told = update(
            &shown,
            &mut self.watchers,
            self.scroll_margins.as_slice(),
            &mut self.findings,
            document,
            self.clock,
            steps,
        );
        // There are at most 64 documents.
        let _count = self.laid.page().document_count();
        self.settled.note(document, told.is_ok());
        told
    }

    /// Returns the observers that a notify task of a document notifies, in creation order: those whose root is now the
    /// document or is in it, for `top` also those with the implicit root (Intersection Observer, 3.2.4: notify intersection
    /// observers). First clears the document's flag: so a page that was ready for a tick stays so if a notify task of the
    /// document was popped just before (`pop_task`), but needn't if one is still queued.
    ///
    /// # Errors
    /// If an allocation fails; the flag is cleared then, too, so that the next entry for the document queues a task again.
    pub fn notify_list(&mut self, document: DocumentId) -> Result<Vec<WatcherId>, AllocError>
        ensures list { IfOk result (λ list. watcher_numbers list.items ≡ watchers self.old.world.tree document.0 self.old.world.intersection_observers) }
        ensures made { IfOk result (λ list. All (λ watcher. watcher.0 < length self.old.world.intersection_observers.made) list.items) }
        ensures cleared { self.new ≡ record self.old { world = record (self.old.world) { notifying = without_notifying document.0 (self.old.world.notifying) } } }
        ensures ready { (handlers : ℕ) → IsReadyFor handlers (with_first (Notify document.0) self.old.world) → IsReadyFor handlers self.new.world }
    {
        self.notifying.reset(document, false);
        let alloc = *self.queries.allocator();
        watchers_of(alloc, self.laid.page(), &self.watchers, document)
    }

    /// Takes the queue of an intersection observer, leaving it empty. The entries are of existing elements, and their lines
    /// can be written. Doesn't allocate.
    pub fn take_records(&mut self, watcher: WatcherId) -> EntryList
        requires { watcher.0 < length self.old.world.intersection_observers.made }
        ensures value { result ≡ (intersection_observer_at self.old.world.intersection_observers watcher.0).queue }
        ensures taken { self.new ≡ record self.old { world = record (self.old.world) { intersection_observers = without_queue watcher.0 (self.old.world.intersection_observers) } } }
        ensures written { AreWritten (length self.old.world.tree.elements) result }
        ensures ready { (handlers : ℕ) → IsReadyFor handlers self.old.world → IsReadyFor handlers self.new.world }
    {
        self.settled.clear();
        self.watchers.take_records(watcher)
    }
}
