//! The parts of an update of the rendering, for a host whose callbacks are functions of its own: it gathers and delivers,
//! calls its functions, and may run scripts on the page between two of these calls.

ghost use Rattle.std.specs.Prelude.{◌≡◌, ◌<◌, ℕ, Bool, [], None, Some, cond, length, fold, map, option_map, is_some, nat_lt, IfErr, IfOk, IfSome, OnOk, OnErr};
ghost use Rattle.page_model.specs.Documents.{is_active};
ghost use Rattle.page_model.specs.Gathering.{sight_of, without_active};
ghost use Rattle.page_model.specs.IntersectionObserving.{without_queue};
ghost use Rattle.page_model.specs.Intersections.{update_intersections};
ghost use Rattle.page_model.specs.Lookups.{intersection_observer_at};
ghost use Rattle.page_model.specs.Loop.{gather, shallower};
ghost use Rattle.page_laws.specs.Ready.{IsReadyFor};
ghost use Rattle.depth_gather.specs.Deliveries.{turn_of, active_at, entries_in};
ghost use Rattle.depth_gather.specs.Entries.{seen_entry};
ghost use Rattle.depth_gather.specs.Gathering.{active_count};
ghost use Rattle.page_state.specs.Notices.{IsNoticed, once_told};
ghost use Rattle.page_state.specs.Rounds.{next_turn, once_reported};
ghost use Rattle.live_page.specs.Engines.{with_world, IsMemory, IsTaskTaken};

use crate::faults::LiveFault;
use crate::live::LivePage;
use depth_gather::{Delivery, least_depth};
use element_tree::DocumentId;
use event_tables::{HandlerId, Task};
use intersection_observer::{EntryList, WatcherId};
use page_state::Page;
use resize_observer::ObserverId;
use std::alloc::AllocError;
use std::marker::Brand;
use std::sync::ledger::{Blank, Ledger};
use step_count::Steps;
use trace_runs::RunFault;

/// A delivery of a resize loop: the entries of one observer.
#[derive(Drop)]
pub struct Turn {
    /// The observer with its entries, and the place from which the next delivery is looked for.
    pub delivery: Delivery,
    /// The least depth of the entries' targets.
    pub depth: u32,
}

/// A task that was taken off a page's queue.
#[derive(Drop)]
pub enum LiveTask {
    /// To notify these intersection observers of a document, in creation order, each with its queue (`take_records`) if that
    /// has entries (Intersection Observer, 3.2.4).
    Notify(DocumentId, Vec<WatcherId>),
    /// To call a handler of the page's script for a document.
    Posted(DocumentId, HandlerId),
}

// Gathers, with a count of steps of its own.
fn gather_counted<L: Ledger>(blank: Blank, page: &mut Page, document: DocumentId, depth: u32) -> u32
    requires name { blank.name ≡ L.name }
    requires parts { blank.parts ≡ L.parts }
    requires one_part { 0 < blank.parts }
    ensures gathered { page.new ≡ record page.old { world = gather document.0 depth (page.old.world); kept = page.new.kept } }
    ensures number { result ≡ active_count document.0 page.new.world.resize_observers }
    ensures ready { (handlers : ℕ) → IsReadyFor handlers page.old.world → IsReadyFor handlers page.new.world }
{
    let mut steps = Steps::<L>::new(blank);
    page.gather(document, depth, &mut steps)
}

// Finds the next delivery, with a count of steps of its own.
fn next_counted<L: Ledger>(
    blank: Blank,
    page: &mut Page,
    document: DocumentId,
    place: usize,
) -> Result<Option<Delivery>, AllocError>
    requires name { blank.name ≡ L.name }
    requires parts { blank.parts ≡ L.parts }
    requires one_part { 0 < blank.parts }
    ensures turn { IfOk result (λ next. option_map turn_of next ≡ next_turn document.0 place page.old.world) }
    ensures entries { IfOk result (λ next. IfSome next (λ it. it.entries ≡ entries_in (sight_of page.old.world) (active_at page.old.world.resize_observers it.observer.0))) }
    ensures some { IfOk result (λ next. IfSome next (λ it. 0 < length it.entries)) }
    ensures reported { OnOk result (page.new ≡ record page.old { world = once_reported (next_turn document.0 place page.old.world) (page.old.world); kept = page.new.kept }) }
    ensures same { OnErr result (page.new ≡ record page.old { kept = page.new.kept }) }
    ensures ready { (handlers : ℕ) → IsReadyFor handlers page.old.world → IsReadyFor handlers page.new.world }
{
    let mut steps = Steps::<L>::new(blank);
    page.next_delivery(document, place, &mut steps)
}

// Updates intersections, with a count of steps of its own.
fn update_counted<L: Ledger>(
    blank: Blank,
    page: &mut Page,
    document: DocumentId,
) -> Result<(), AllocError>
    requires name { blank.name ≡ L.name }
    requires parts { blank.parts ≡ L.parts }
    requires one_part { 0 < blank.parts }
    requires there { document.0 < length page.old.world.tree.documents }
    ensures updated { OnOk result (page.new.world ≡ update_intersections document.0 page.old.world) }
    ensures rest { OnErr result ((tells : Bool) × (page.new.world ≡ once_told tells document.0 (record (page.old.world) { intersection_observers = page.new.world.intersection_observers }))) }
    ensures noticed { OnErr result (IsNoticed document.0 page.old.world → IsNoticed document.0 page.new.world) }
    ensures ready { (handlers : ℕ) → IsReadyFor handlers page.old.world → IsReadyFor handlers page.new.world }
{
    let mut steps = Steps::<L>::new(blank);
    page.update_intersections(document, &mut steps)
}

impl LivePage {
    /// Gathers the active observations of a document at a depth (Resize Observer, 3.4: gather active observations at depth),
    /// and returns how many there are. Doesn't allocate.
    pub fn gather(&mut self, document: DocumentId, depth: u32) -> u32
        ensures gathered { self.new ≡ with_world (gather document.0 depth (self.old.page.world)) (self.new.page.kept) self.old }
        ensures number { result ≡ active_count document.0 self.new.page.world.resize_observers }
    {
        gather_counted::<Brand>(Blank::new(1), &mut self.page, document, depth)
    }

    /// Returns the next delivery of a document (Resize Observer, 3.4: broadcast active observations, up to the callback): the
    /// first of its observers from `place` on, at first 0, that has active observations, with an entry for each. `None`
    /// exactly when no observer with active observations is left.
    ///
    /// # Errors
    /// `Stopped(Memory)` if an allocation fails, and no other; the page's world is unchanged then.
    pub fn next_turn(
        &mut self,
        document: DocumentId,
        place: usize,
    ) -> Result<Option<Turn>, LiveFault>
        ensures turn { IfOk result (λ next. option_map (λ it. turn_of it.delivery) next ≡ next_turn document.0 place self.old.page.world) }
        ensures entries { IfOk result (λ next. IfSome next (λ it. it.delivery.entries ≡ entries_in (sight_of self.old.page.world) (active_at self.old.page.world.resize_observers it.delivery.observer.0))) }
        ensures depth { IfOk result (λ next. IfSome next (λ it. fold shallower None (map seen_entry it.delivery.entries) ≡ Some it.depth)) }
        ensures reported { OnOk result (self.new ≡ with_world (once_reported (next_turn document.0 place self.old.page.world) (self.old.page.world)) (self.new.page.kept) self.old) }
        ensures same { OnErr result (self.new ≡ with_world (self.old.page.world) (self.new.page.kept) self.old) }
        ensures fault { IfErr result IsMemory }
    {
        match next_counted::<Brand>(Blank::new(1), &mut self.page, document, place) {
            Ok(None) => Ok(None),
            Ok(Some(delivery)) => {
                let depth = least_depth(&delivery);
                Ok(Some(Turn { delivery, depth }))
            }
            Err(_) => Err(LiveFault::Stopped(RunFault::Memory)),
        }
    }

    /// Ends an observer's turn after its callback was called: clears its active list. Nothing for an observer that doesn't
    /// exist. Doesn't allocate.
    pub fn end_turn(&mut self, observer: ObserverId)
        ensures { self.new ≡ with_world (record (self.old.page.world) { resize_observers = without_active observer.0 (self.old.page.world.resize_observers) }) (self.old.page.kept) self.old }
    {
        if observer.0 < self.page.resize_observers().count() {
            self.page.end_delivery(observer);
        }
    }

    /// Updates the intersection observations of a document, if it is Active (Intersection Observer, 3.2.10), and queues a
    /// notify task if an entry was queued.
    ///
    /// # Errors
    /// `Stopped(Memory)` if an allocation fails, and no other. Of the page's world only its intersection observers changed then, and
    /// the document's notify task is queued if an entry waits.
    pub fn update_intersections(&mut self, document: DocumentId) -> Result<(), LiveFault>
        ensures updated { OnOk result (self.new.page.world ≡ cond (is_active self.old.page.world.tree document.0) (update_intersections document.0 (self.old.page.world)) (self.old.page.world)) }
        ensures rest { OnErr result ((tells : Bool) × (self.new.page.world ≡ once_told tells document.0 (record (self.old.page.world) { intersection_observers = self.new.page.world.intersection_observers }))) }
        ensures noticed { OnErr result (IsNoticed document.0 self.old.page.world → IsNoticed document.0 self.new.page.world) }
        ensures fault { IfErr result IsMemory }
        ensures handlers { self.new.handlers ≡ self.old.handlers }
    {
        if !self.page.is_active(document) {
            return Ok(());
        }
        match update_counted::<Brand>(Blank::new(1), &mut self.page, document) {
            Ok(()) => Ok(()),
            Err(_) => Err(LiveFault::Stopped(RunFault::Memory)),
        }
    }

    /// Takes the first task off the queue; for a notify task of an Active document, its flag is cleared, and its observers are
    /// listed (Intersection Observer, 3.2.4). `None` exactly when no task is queued.
    ///
    /// # Errors
    /// `Stopped(Memory)` if the observers can't be listed for want of memory, and no other; the task is taken then.
    pub fn next_task(&mut self) -> Result<Option<LiveTask>, LiveFault>
        ensures taken { IfOk result (λ task. IsTaskTaken task self.old.page.world self.new.page.world) }
        ensures fault { IfErr result IsMemory }
        ensures handlers { self.new.handlers ≡ self.old.handlers }
    {
        match self.page.pop_task() {
            None => Ok(None),
            Some(Task::Posted(document, handler)) => Ok(Some(LiveTask::Posted(document, handler))),
            Some(Task::Notify(document)) => {
                if !self.page.is_active(document) {
                    return Ok(Some(LiveTask::Notify(document, Vec::new(self.alloc))));
                }
                match self.page.notify_list(document) {
                    Ok(list) => Ok(Some(LiveTask::Notify(document, list))),
                    Err(_) => Err(LiveFault::Stopped(RunFault::Memory)),
                }
            }
        }
    }

    /// Takes the queue of an intersection observer, leaving it empty. `None` exactly for one that doesn't exist. Doesn't
    /// allocate.
    pub fn take_records(&mut self, watcher: WatcherId) -> Option<EntryList>
        ensures there { is_some result ≡ nat_lt watcher.0 (length self.old.page.world.intersection_observers.made) }
        ensures value { IfSome result (λ entries. entries ≡ (intersection_observer_at self.old.page.world.intersection_observers watcher.0).queue) }
        ensures taken { self.new ≡ with_world (record (self.old.page.world) { intersection_observers = without_queue watcher.0 (self.old.page.world.intersection_observers) }) (self.old.page.kept) self.old }
    {
        if watcher.0 < self.page.intersection_observers().count() {
            return Some(self.page.take_records(watcher));
        }
        None
    }
}
