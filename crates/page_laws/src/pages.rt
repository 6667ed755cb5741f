//! Laws about single commands and about reading a page.

ghost use Rattle.std.specs.Prelude.{◌≡◌, ℕ, suc, ◌+◌, ◌<◌, ◌≤◌, IsTrue, length, Option, None, false};
ghost use Rattle.std.specs.List.{AllByRecursion};
ghost use Rattle.px_units.specs.declared.BoxKind.{BoxKind};
ghost use Rattle.layout_model.specs.Items.{Kind};
ghost use Rattle.text_io.specs.declared.kinds.LimitKind.TheVariants as limits;
ghost use Rattle.text_io.specs.Limits.{limit_number};
ghost use Rattle.script_model.specs.Syntax.{Action, Operand, Read};
ghost use Rattle.page_model.specs.World.{Screen, Tree, World, InElement};
ghost use Rattle.page_model.specs.Lookups.{no_extent};
ghost use Rattle.page_model.specs.Documents.{active_documents, element_depth, is_active};
ghost use Rattle.page_model.specs.Edits.{with_element, with_frame};
ghost use Rattle.page_model.specs.PageBoxes.{inputs_of, has_box, size_of, view_of, viewport_of};
ghost use Rattle.page_model.specs.Operands.{Handlers, Present, present_target};
ghost use Rattle.page_model.specs.Commands.{begun_in, does, placing};
ghost use Rattle.page_model.specs.Ranges.{counts_of, IsInRange, IsPresentIn, IsThingIn};
ghost use Rattle.page_laws.specs.Changed.{AnyThing, Change};
ghost use Rattle.page_laws.specs.Making.{NamesMade, KeepsBoxes};
ghost use Rattle.page_laws.specs.Successors.{IsSuccessor, OnDid};

/// Each command that neither throws nor meets a limit makes one of the changes of `Change`, which may be none. If numbers are in range,
/// the change involves only existing things.
pub fn commands_make_one_change()
    ensures each { (handlers : Handlers) (world : World) (present : Present) (action : Action) →
        OnDid (does handlers world present action) (λ effect. Change AnyThing (length handlers) world (effect.world)) }
    ensures range { (handlers : Handlers) (world : World) → IsInRange (length handlers) world →
        (present : Present) (action : Action) → IsPresentIn world present →
        OnDid (does handlers world present action) (λ effect. Change (IsThingIn (counts_of (length handlers) world)) (length handlers) world (effect.world)) }
{}

/// No command deletes an element, or takes back what an earlier one did to the states of documents or to names: a Dead
/// document stays Dead, and a name keeps its meaning. Nor does it change the clock, the count of commands or the version. (A command
/// that throws or meets a limit gives no new world, so the world is unchanged then.)
pub fn commands_take_nothing_back()
    ensures { (handlers : Handlers) (world : World) (present : Present) (action : Action) →
        OnDid (does handlers world present action) (λ effect. IsSuccessor world (effect.world)) }
{}

/// Every number in a world remains that of an existing thing, so no lookup yields a default; and nothing is stored for things that
/// don't exist yet, so that what is created later begins unscrolled.
pub fn numbers_stay_in_range()
    ensures { (handlers : Handlers) (world : World) → IsInRange (length handlers) world →
        (present : Present) (action : Action) → IsPresentIn world present →
        OnDid (does handlers world present action) (λ effect. IsInRange (length handlers) (effect.world)) }
{}

/// `read` changes nothing.
pub fn readings_change_nothing()
    ensures { (handlers : Handlers) (world : World) (present : Present) (operand : Operand) →
        OnDid (does handlers world present (Read operand)) (λ effect. effect.world ≡ world) }
{}

/// A command that begins raises the count by one and changes nothing else, and it begins only if fewer have begun than
/// the version of the script allows.
pub fn commands_are_counted()
    ensures { (world : World) →
        OnDid (begun_in world) (λ after. (after ≡ record world { begun = suc world.begun }) × (world.begun < limit_number (world.version) limits.Commands)) }
{}

/// The list of Active documents contains only Active documents.
pub fn listed_documents_are_active()
    ensures { (tree : Tree) → AllByRecursion (λ document. IsTrue (is_active tree document)) (active_documents tree) }
{}

/// An element without a box has the size 0 by 0.
pub fn no_box_has_no_size()
    ensures { (tree : Tree) (screen : Screen) (n : ℕ) (kind : BoxKind) → has_box tree screen n ≡ false → size_of tree screen n kind ≡ no_extent }
{}

/// An element that doesn't exist yet has no box, and creating elements and documents changes no box: what is created has none, and each
/// other element has its box from the same inputs as before, or none as before. This holds in each tree whose parents, children, frames
/// and root elements exist, as those of a world in range do.
pub fn what_is_made_has_no_box()
    ensures unmade { (tree : Tree) → NamesMade tree → (screen : Screen) (n : ℕ) → length tree.elements ≤ n → inputs_of tree screen n ≡ None }
    ensures elements { (tree : Tree) → NamesMade tree → (kind : Kind) (document : ℕ) (framed : Option ℕ) →
        KeepsBoxes tree (with_element kind document framed tree) }
    ensures frames { (tree : Tree) → NamesMade tree → (document : ℕ) → KeepsBoxes tree (with_frame document tree) }
    ensures range { (handlers : ℕ) (world : World) → IsInRange handlers world → NamesMade (world.tree) }
{}

/// The device pixel ratio of a screen affects neither viewports nor what boxes are laid out from.
pub fn boxes_do_not_read_the_ratio()
    ensures views { (tree : Tree) (screen : Screen) (hundredths document : ℕ) →
        view_of tree (record screen { ratio = hundredths }) document ≡ view_of tree screen document }
    ensures inputs { (tree : Tree) (screen : Screen) (hundredths n : ℕ) →
        inputs_of tree (record screen { ratio = hundredths }) n ≡ inputs_of tree screen n }
    ensures viewports { (tree : Tree) (screen : Screen) (hundredths document : ℕ) →
        viewport_of tree (record screen { ratio = hundredths }) document ≡ viewport_of tree screen document }
{}

/// An element that is inserted into another one, last or before a sibling, is one level deeper than that one.
pub fn children_are_one_level_deeper()
    ensures { (tree : Tree) (parent n : ℕ) (sibling : Option ℕ) → n < length tree.elements →
        OnDid (placing (InElement parent) n sibling tree) (λ after. element_depth after n ≡ element_depth tree parent + 1) }
{}

/// Of the present entry a command reads only the target: it does the same for two entries with the same target, or with none.
pub fn commands_read_the_target_alone()
    ensures { (handlers : Handlers) (world : World) (present other : Present) (action : Action) → present_target present ≡ present_target other →
        does handlers world present action ≡ does handlers world other action }
{}
