//! Laws about the worlds of a page that a host keeps.

ghost use Rattle.std.specs.Prelude.{ℕ, List, Option, length};
ghost use Rattle.std.specs.List.{AllByRecursion};
ghost use Rattle.script_model.specs.Syntax.{Command};
ghost use Rattle.page_model.specs.Callbacks.{Script, Entries, call, presents, run_command};
ghost use Rattle.page_model.specs.Operands.{Present};
ghost use Rattle.page_model.specs.Ranges.{IsPresentIn};
ghost use Rattle.page_model.specs.World.{World};
ghost use Rattle.page_laws.specs.Ready.{IsReadyFor};

/// By the definitions, a command with its block and a callback lead from a world that is ready for a tick to one that is
/// ready, if the entries are of existing elements.
pub fn commands_and_callbacks_leave_worlds_ready()
    ensures commands { (script : Script) (world : World) → IsReadyFor (length script) world → (entries : List Present) (command : Command) (present : Present) →
        AllByRecursion (IsPresentIn world) entries → IsPresentIn world present → IsReadyFor (length script) (run_command script entries command present world).state }
    ensures callbacks { (script : Script) (world : World) → IsReadyFor (length script) world → (document : ℕ) (handler : Option ℕ) (handed : Entries) →
        AllByRecursion (IsPresentIn world) (presents handed) → IsReadyFor (length script) (call script document handler handed world).state }
{}
