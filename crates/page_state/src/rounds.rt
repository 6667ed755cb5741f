//! The calls of the resize loop on a page (Resize Observer, 3.4). Sizes are those of the current boxes.

ghost use Rattle.std.specs.Prelude.{◌≡◌, ◌<◌, ℕ, length, option_map, IfOk, IfSome, OnErr};
ghost use Rattle.page_model.specs.Gathering.{has_skipped, sight_of, without_active};
ghost use Rattle.page_model.specs.Loop.{gather};
ghost use Rattle.page_laws.specs.Ready.{IsReadyFor};
ghost use Rattle.depth_gather.specs.Deliveries.{turn_of, active_at, entries_in};
ghost use Rattle.depth_gather.specs.Gathering.{active_count};
ghost use Rattle.depth_gather.specs.Entries.{HasLengths};
ghost use Rattle.std.specs.List.{AllByRecursion};
ghost use Rattle.page_state.specs.Boxes.{Computes};
ghost use Rattle.page_state.specs.Rounds.{next_turn, once_reported};

use crate::page::{Page, shown_now, sizes_now};
use depth_gather::Delivery;
use element_tree::DocumentId;
use resize_observer::ObserverId;
use std::alloc::AllocError;
use std::sync::ledger::Ledger;
use step_count::Steps;

impl Page {
    /// Gathers the active observations of a document at a depth (Resize Observer, 3.4: gather active observations at depth),
    /// and returns how many there are. Doesn't allocate.
    pub fn gather<L: Ledger>(
        &mut self,
        document: DocumentId,
        depth: u32,
        steps: &mut Steps<L>,
    ) -> u32
        ensures gathered { self.new ≡ record self.old { world = gather document.0 depth (self.old.world); kept = self.new.kept } }
        ensures boxes { Computes self.old.world self.old.kept self.new.kept steps.old steps.new }
        ensures number { result ≡ active_count document.0 self.new.world.resize_observers }
        ensures ready { (handlers : ℕ) → IsReadyFor handlers self.old.world → IsReadyFor handlers self.new.world }
    {
        self.laid.refresh(self.screen, steps);
        let sizes = sizes_now(
            &self.laid,
            &self.scrolls,
            self.screen,
            &self.observers,
            document,
        );
        depth_gather::gather(&mut self.observers, &sizes, document, depth)
    }

    /// Returns the next delivery of a document (Resize Observer, 3.4: broadcast active observations, up to the callback): the
    /// first of its observers from `place` on that has active observations, with an entry for each of them of the current
    /// sizes, which become the last reported ones. `None` exactly when no observer with active observations is left.
    ///
    /// # Errors
    /// If an allocation fails; the world is unchanged then.
    pub fn next_delivery<L: Ledger>(
        &mut self,
        document: DocumentId,
        place: usize,
        steps: &mut Steps<L>,
    ) -> Result<Option<Delivery>, AllocError>
        ensures turn { IfOk result (λ next. option_map turn_of next ≡ next_turn document.0 place self.old.world) }
        ensures entries { IfOk result (λ next. IfSome next (λ it. it.entries ≡ entries_in (sight_of self.old.world) (active_at self.old.world.resize_observers it.observer.0))) }
        ensures reported { IfOk result (λ next. self.new ≡ record self.old { world = once_reported (next_turn document.0 place self.old.world) (self.old.world); kept = self.new.kept }) }
        ensures boxes { Computes self.old.world self.old.kept self.new.kept steps.old steps.new }
        ensures made { IfOk result (λ next. IfSome next (λ it. it.observer.0 < length self.old.world.resize_observers.made)) }
        ensures some { IfOk result (λ next. IfSome next (λ it. 0 < length it.entries)) }
        ensures lengths { IfOk result (λ next. IfSome next (λ it. AllByRecursion HasLengths it.entries)) }
        ensures same { OnErr result (self.new ≡ record self.old { kept = self.new.kept }) }
        ensures ready { (handlers : ℕ) → IsReadyFor handlers self.old.world → IsReadyFor handlers self.new.world }
    {
        self.laid.refresh(self.screen, steps);
        let sizes = shown_now(&self.laid, &self.scrolls, self.screen).with_views();
        let alloc = *self.queries.allocator();
        depth_gather::next_delivery(alloc, &mut self.observers, &sizes, document, place)
    }

    /// Ends an observer's turn after its callback was called: clears its active list. Doesn't allocate.
    pub fn end_delivery(&mut self, observer: ObserverId)
        requires { observer.0 < length self.old.world.resize_observers.made }
        ensures emptied { self.new ≡ record self.old { world = record (self.old.world) { resize_observers = without_active observer.0 (self.old.world.resize_observers) } } }
        ensures ready { (handlers : ℕ) → IsReadyFor handlers self.old.world → IsReadyFor handlers self.new.world }
    {
        depth_gather::end_delivery(&mut self.observers, observer);
    }

    /// Whether an observation was skipped when a document's observations were last gathered. Doesn't allocate.
    pub fn has_skipped(&self, document: DocumentId) -> bool
        ensures { result ≡ has_skipped document.0 self.now.world.resize_observers }
    {
        depth_gather::has_skipped(&self.observers, document)
    }
}
