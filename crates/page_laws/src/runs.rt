//! Laws about callbacks, ticks and whole runs.

ghost use Rattle.std.specs.Prelude.{◌≡◌, ℕ, suc, ◌<◌, ◌≤◌, List, [], ◌∷◌, Option, None, length};
ghost use Rattle.std.specs.List.{AllByRecursion};
ghost use Rattle.text_io.specs.declared.kinds.ThrowKind.TheVariants.{RangeError};
ghost use Rattle.text_io.specs.declared.kinds.LimitKind.TheVariants as limits;
ghost use Rattle.text_io.specs.declared.kinds.Version.{Version};
ghost use Rattle.text_io.specs.Limits.{limit_number};
ghost use Rattle.script_model.specs.Syntax.{Action, Command, Item};
ghost use Rattle.script_model.specs.Scripts.{handlers_in};
ghost use Rattle.script_model.specs.TraceLines.{ThrowLine, TickLine};
ghost use Rattle.page_model.specs.World.{World};
ghost use Rattle.page_model.specs.Operands.{Handlers, Present};
ghost use Rattle.page_model.specs.Commands.{begun_in, does};
ghost use Rattle.page_model.specs.Ranges.{IsInRange, IsPresentIn};
ghost use Rattle.page_model.specs.Documents.{is_active};
ghost use Rattle.page_model.specs.Gathering.{due_at};
ghost use Rattle.page_model.specs.Loop.{Broadcast, gather, broadcast, deliver_some, round};
ghost use Rattle.page_laws.specs.Bounds.{IsWithinLimits, places_up_to};
ghost use Rattle.page_laws.specs.Later.{IsLater};
ghost use Rattle.page_laws.specs.Quiet.{IsQuiet};
ghost use Rattle.page_laws.specs.Successors.{OnDid};
ghost use Rattle.page_model.specs.Runs.{Thrown};
ghost use Rattle.page_model.specs.Callbacks.{Script, Entries, presents, run_command, call};
ghost use Rattle.page_model.specs.Ticks.{evaluate, media_steps, run_first, tick, time_set};
ghost use Rattle.page_model.specs.Outcome.{opening_world, run_item, run_items, run_tick};

/// A command with its block, a callback, a tick and the items of a script lead to a world that is no earlier (`IsLater`) in what was
/// created, the states of documents, names, the clock, the count of commands and the version. This includes those that throw or meet a
/// limit.
pub fn runs_take_nothing_back()
    ensures commands { (script : Script) (entries : List Present) (command : Command) (present : Present) (world : World) →
        IsLater world (run_command script entries command present world).state }
    ensures callbacks { (script : Script) (document : ℕ) (handler : Option ℕ) (handed : Entries) (world : World) →
        IsLater world (call script document handler handed world).state }
    ensures ticks { (script : Script) (line time : ℕ) (world : World) → IsLater world (run_tick script line time world).state }
    ensures scripts { (items : List Item) (world : World) → IsLater world (run_items items world).state }
{}

/// The clock stays at a tick's time until the tick has ended, and a tick at an earlier time throws a RangeError.
pub fn the_clock_stands_in_a_tick()
    ensures stands { (script : Script) (world : World) → (tick script world).state.clock ≡ world.clock }
    ensures refused { (script : Script) (line time : ℕ) (world : World) → world.begun < limit_number (world.version) limits.Commands → time < world.clock →
        run_tick script line time world ≡ record { lines = ThrowLine line RangeError ∷ []; flow = Thrown; state = record world { begun = suc world.begun } } }
{}

/// Every number in a world remains that of an existing thing over whole runs too, so no lookup ever yields a default. A script starts in
/// a world in range. From any world in range a command with its block, a callback, a tick and an item lead to one, if the entries passed
/// in are of existing elements and the handlers are those of the script; and so do counting a command and setting the clock. (For the
/// effect of a single command see `numbers_stay_in_range`.)
pub fn runs_stay_in_range()
    ensures opening { (handlers : ℕ) (version : Version) → IsInRange handlers (opening_world version) }
    ensures counts { (handlers : ℕ) (world : World) → IsInRange handlers world → OnDid (begun_in world) (IsInRange handlers) }
    ensures times { (handlers time : ℕ) (world : World) → IsInRange handlers world → OnDid (time_set time world) (IsInRange handlers) }
    ensures commands { (script : Script) (world : World) → IsInRange (length script) world →
        (entries : List Present) (command : Command) (present : Present) → AllByRecursion (IsPresentIn world) entries → IsPresentIn world present →
        IsInRange (length script) (run_command script entries command present world).state }
    ensures callbacks { (script : Script) (world : World) → IsInRange (length script) world → (document : ℕ) (handler : Option ℕ) (handed : Entries) →
        AllByRecursion (IsPresentIn world) (presents handed) → IsInRange (length script) (call script document handler handed world).state }
    ensures ticks { (script : Script) (world : World) → IsInRange (length script) world → IsInRange (length script) (tick script world).state }
    ensures items { (script : Script) (item : Item) (world : World) → IsInRange (length script) world →
        IsInRange (length script) (run_item script item world).state }
    ensures scripts { (items : List Item) (version : Version) →
        IsInRange (length (handlers_in items)) (run_items items (opening_world version)).state }
{}

/// On a quiet page a tick writes its own line and nothing else, and leaves the page quiet.
pub fn ticks_of_a_quiet_page_say_nothing_more()
    ensures line { (script : Script) (world : World) → IsQuiet world → (tick script world).lines ≡ TickLine (world.clock) ∷ [] }
    ensures quiet { (script : Script) (world : World) → IsQuiet world → IsQuiet (tick script world).state }
{}

/// The limits on resize observers, query lists, commands begun, documents and tasks are respected by the effect of each command, by
/// counting commands and setting the clock, and over whole runs: by commands and callbacks, by gathering, broadcasts and rounds of a
/// resize loop, by each task, and by ticks and items. Only documents with a mark have a notify task queued, so at most 4,160 tasks are.
pub fn limits_are_kept()
    ensures opening { (version : Version) → IsWithinLimits (opening_world version) }
    ensures effects { (handlers : Handlers) (world : World) → IsWithinLimits world → (present : Present) (action : Action) →
        OnDid (does handlers world present action) (λ effect. IsWithinLimits (effect.world)) }
    ensures counts { (world : World) → IsWithinLimits world → OnDid (begun_in world) IsWithinLimits }
    ensures times { (time : ℕ) (world : World) → IsWithinLimits world → OnDid (time_set time world) IsWithinLimits }
    ensures commands { (script : Script) (world : World) → IsWithinLimits world → (entries : List Present) (command : Command) (present : Present) →
        IsWithinLimits (run_command script entries command present world).state }
    ensures callbacks { (script : Script) (world : World) → IsWithinLimits world → (document : ℕ) (handler : Option ℕ) (handed : Entries) →
        IsWithinLimits (call script document handler handed world).state }
    ensures gatherings { (script : Script) (world : World) → IsWithinLimits world → (document depth : ℕ) →
        IsWithinLimits (gather document depth world) }
    ensures broadcasts { (script : Script) (world : World) → IsWithinLimits world → (document : ℕ) →
        IsWithinLimits (broadcast script document world).state.world }
    ensures rounds { (script : Script) (world : World) → IsWithinLimits world → (document : ℕ) → IsWithinLimits (round script document world).state }
    ensures tasks { (script : Script) (world : World) → IsWithinLimits world → IsWithinLimits (run_first script (world.tasks) world).state }
    ensures ticks { (script : Script) (world : World) → IsWithinLimits world → IsWithinLimits (tick script world).state }
    ensures items { (script : Script) (world : World) → IsWithinLimits world → (item : Item) → IsWithinLimits (run_item script item world).state }
    ensures scripts { (items : List Item) (version : Version) → IsWithinLimits (run_items items (opening_world version)).state }
    ensures waiting { (world : World) → IsWithinLimits world → length world.tasks ≤ 4160 }
{}

/// The loops that go over a list by position, over the query lists and over the resize observers, are never cut off by the bound on
/// their recursion: with any bound from 4,096 on the result is the same, even while callbacks create more.
pub fn turns_by_place_are_never_cut_off()
    ensures query_lists { (script : Script) (world : World) → IsWithinLimits world → (document most : ℕ) → 4096 ≤ most →
        media_steps script document world ≡ places_up_to most (λ now. length (now.queries)) (λ now. is_active (now.tree) document)
        (evaluate script document) world }
    ensures observers { (script : Script) (world : World) → IsWithinLimits world → (document most : ℕ) → 4096 ≤ most →
        broadcast script document world ≡ places_up_to most (λ (so_far : Broadcast). length (so_far.world.resize_observers.made))
        (λ so_far. is_active (so_far.world.tree) document)
        (λ observer so_far. deliver_some script document observer so_far (due_at document observer (so_far.world.resize_observers)))
        (record { world = world; shallowest = None }) }
{}
