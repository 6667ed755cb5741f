//! Laws about the count of commands over callbacks and rounds.

ghost use Rattle.std.specs.Prelude.{◌≡◌, ◌+◌, ℕ, List, Option, length};
ghost use Rattle.script_model.specs.Syntax.{Command, Block};
ghost use Rattle.page_model.specs.World.{World};
ghost use Rattle.page_model.specs.Operands.{Present};
ghost use Rattle.page_model.specs.Callbacks.{Script, Entries, run_command, run_block, call};
ghost use Rattle.page_model.specs.Loop.{broadcast, round};
ghost use Rattle.loop_laws.specs.Still.{IsStill, IsStillOutside};
ghost use Rattle.loop_laws.specs.Moments.{command_moments, block_moments, call_moments, broadcast_moments};

/// The count of commands never falls, and if it doesn't rise, nothing else changes: a command with its block, a block and a callback
/// leave the whole world unchanged, a broadcast of resize observations and a round of the resize loop all of it but the resize observers.
pub fn nothing_changes_while_no_command_begins()
    ensures commands { (script : Script) (entries : List Present) (command : Command) (present : Present) (world : World) →
        IsStill world (run_command script entries command present world).state }
    ensures blocks { (script : Script) (entries : List Present) (block : Block) (present : Present) (world : World) →
        IsStill world (run_block script entries block present world).state }
    ensures callbacks { (script : Script) (document : ℕ) (handler : Option ℕ) (handed : Entries) (world : World) →
        IsStill world (call script document handler handed world).state }
    ensures broadcasts { (script : Script) (document : ℕ) (world : World) →
        IsStillOutside world (broadcast script document world).state.world }
    ensures rounds { (script : Script) (document : ℕ) (world : World) → IsStillOutside world (round script document world).state }
{}

/// The number of moments that are listed for a run is the number of commands begun in it: none is left out and none is listed twice.
pub fn moments_are_the_commands_begun()
    ensures commands { (script : Script) (entries : List Present) (command : Command) (present : Present) (world : World) →
        (run_command script entries command present world).state.begun
        ≡ world.begun + length (command_moments script entries command present world) }
    ensures blocks { (script : Script) (entries : List Present) (block : Block) (present : Present) (world : World) →
        (run_block script entries block present world).state.begun ≡ world.begun + length (block_moments script entries block present world) }
    ensures callbacks { (script : Script) (document : ℕ) (handler : Option ℕ) (handed : Entries) (world : World) →
        (call script document handler handed world).state.begun ≡ world.begun + length (call_moments script document handler handed world) }
    ensures broadcasts { (script : Script) (document : ℕ) (world : World) →
        (broadcast script document world).state.world.begun ≡ world.begun + length (broadcast_moments script document world) }
{}
