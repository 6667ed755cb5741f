//! Laws for hosts that call handlers themselves, or go on with further scripts.

ghost use Rattle.std.specs.Prelude.{◌≡◌, ◌≤◌, ◌<◌, ℕ, List, Some, length, map};
ghost use Rattle.std.specs.List.{AllByRecursion};
ghost use Rattle.page_model.specs.Callbacks.{SizeEntries, CutEntries};
ghost use Rattle.page_model.specs.Gathering.{sight_of};
ghost use Rattle.page_model.specs.IntersectionObserving.{without_queue};
ghost use Rattle.page_model.specs.World.{World, Entry};
ghost use Rattle.page_laws.specs.Ready.{IsReadyFor};
ghost use Rattle.depth_gather.specs.Deliveries.{turn_of, active_at, entries_in};
ghost use Rattle.depth_gather.specs.Entries.{seen_entry, HasLengths};
ghost use Rattle.depth_gather.specs.declared.deliveries.Delivery.{Delivery as Delivered};
ghost use Rattle.intersection_update.specs.Watching.{AreWritten};
ghost use Rattle.page_state.specs.Rounds.{next_turn, once_reported};
ghost use Rattle.handlers.specs.Entries.{AreHanded};

/// A page that is ready for a tick with some handlers is also ready with more: a host can go on with a further script that
/// has more handlers.
pub fn more_handlers_leave_a_page_ready()
    ensures { (few many : ℕ) (world : World) → few ≤ many → IsReadyFor few world → IsReadyFor many world }
{}

/// What a page delivers can be passed to a handler (`AreHanded`, which `run_handler` requires) as the page is just then: the
/// entries of the next delivery of a page that is ready (`deliveries`, by what `next_delivery` ensures), and a queue that was
/// taken (`queues`, by what `take_records` ensures).
pub fn what_is_delivered_can_be_handed()
    ensures deliveries { (handlers document place : ℕ) (old : World) (it : Delivered) → IsReadyFor handlers old →
        Some (turn_of it) ≡ next_turn document place old → it.entries ≡ entries_in (sight_of old) (active_at (old.resize_observers) (it.observer.0)) →
        it.observer.0 < length old.resize_observers.made → 0 < length it.entries → AllByRecursion HasLengths it.entries →
        AreHanded (once_reported (next_turn document place old) old) (SizeEntries (it.observer.0) (map seen_entry it.entries)) }
    ensures queues { (old : World) (observer : ℕ) (entries : List Entry) → observer < length old.intersection_observers.made →
        AreWritten (length old.tree.elements) entries →
        AreHanded (record old { intersection_observers = without_queue observer (old.intersection_observers) }) (CutEntries observer entries) }
{}
