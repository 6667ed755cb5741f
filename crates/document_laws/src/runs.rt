//! Laws on commands, callbacks, ticks and whole runs.

ghost use Rattle.std.specs.Prelude.{◌≡◌, ◌≤◌, ℕ, List, Option, length};
ghost use Rattle.std.specs.List.{AllByRecursion};
ghost use Rattle.layout_model.specs.Nodes.{path_up, path_of};
ghost use Rattle.text_io.specs.declared.kinds.Version.{Version};
ghost use Rattle.script_model.specs.Syntax.{Action, Command, Item};
ghost use Rattle.page_model.specs.Documents.{nodes_of};
ghost use Rattle.page_model.specs.World.{World};
ghost use Rattle.page_model.specs.Steps.{Effect};
ghost use Rattle.page_model.specs.Operands.{Handlers, Present};
ghost use Rattle.page_model.specs.Commands.{does};
ghost use Rattle.page_model.specs.Ranges.{IsInRange, IsPresentIn};
ghost use Rattle.page_model.specs.Callbacks.{Script, Entries, presents, run_command, call};
ghost use Rattle.page_model.specs.Ticks.{tick};
ghost use Rattle.page_model.specs.Outcome.{opening_world, outcome, run_item, run_items};
ghost use Rattle.page_laws.specs.Successors.{OnDid};
ghost use Rattle.document_laws.specs.Levels.{IsWithinLevels};

use crate::levels::levels_are_never_cut_off;

/// Over whole runs elements form trees of at most 256 levels, frames and documents are consistent, from each Active document
/// the chain of frames leads up to `top`, and there are at most 64 documents. A script starts and ends in such a world. From
/// any such world in range each command, a command with its block, a callback, a tick and an item lead to one, if the entries
/// passed to them are of existing elements and the handlers are those of the script.
pub fn trees_are_kept()
    ensures opening { (version : Version) → IsWithinLevels (opening_world version).tree }
    ensures steps { (handlers : Handlers) (world : World) → IsInRange (length handlers) world → IsWithinLevels world.tree →
        (present : Present) (action : Action) → IsPresentIn world present →
        OnDid (does handlers world present action) (λ (effect : Effect). IsWithinLevels effect.world.tree) }
    ensures commands { (script : Script) (world : World) → IsInRange (length script) world → IsWithinLevels world.tree →
        (entries : List Present) (command : Command) (present : Present) → AllByRecursion (IsPresentIn world) entries → IsPresentIn world present →
        IsWithinLevels (run_command script entries command present world).state.tree }
    ensures callbacks { (script : Script) (world : World) → IsInRange (length script) world → IsWithinLevels world.tree →
        (document : ℕ) (handler : Option ℕ) (handed : Entries) → AllByRecursion (IsPresentIn world) (presents handed) →
        IsWithinLevels (call script document handler handed world).state.tree }
    ensures ticks { (script : Script) (world : World) → IsInRange (length script) world → IsWithinLevels world.tree →
        IsWithinLevels (tick script world).state.tree }
    ensures items { (script : Script) (item : Item) (world : World) → IsInRange (length script) world → IsWithinLevels world.tree →
        IsWithinLevels (run_item script item world).state.tree }
    ensures scripts { (items : List Item) (version : Version) → IsWithinLevels (run_items items (opening_world version)).state.tree }
    ensures outcomes { (text : List ℕ) → IsWithinLevels (outcome text).world.tree }
{}

/// On the page that a script leaves, the path from an element to the root of its tree is the same with any bound of at least
/// 256.
pub fn paths_of_runs_are_whole()
    ensures { (text : List ℕ) (most n : ℕ) → 256 ≤ most →
        path_up most (nodes_of (outcome text).world.tree) n ≡ path_of (nodes_of (outcome text).world.tree) n }
{
    trees_are_kept(); // the tree of such a page is within its levels
    levels_are_never_cut_off(); // and there paths are the same with any such bound
}
