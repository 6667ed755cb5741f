//! Running the items of a script on a page.

ghost use Rattle.std.specs.Prelude.{[], map};
ghost use Rattle.std.specs.List.{All};
ghost use Rattle.script_syntax.specs.Allowed.{IsAllowed, ItemAllowed};
ghost use Rattle.script_syntax.specs.Seen.{command_of, item_of};
ghost use Rattle.page_model.specs.Callbacks.{run_command};
ghost use Rattle.page_model.specs.Operands.{NoEntry};
ghost use Rattle.page_model.specs.Outcome.{run_item, run_items};
ghost use Rattle.page_model.specs.Runs.{caught, for_each};
ghost use Rattle.handlers.specs.Runs.{handlers_of, world_of, Carries, IsHeld, StaysReady};
ghost use Rattle.frame_update.specs.Ready.{IsReady};
ghost use Rattle.trace_runs.specs.Flows.{goes_on};

use frame_update::tick;
use handlers::{Entries, Run, run_command};
use script_syntax::{Command, Item};
use std::sync::ledger::Ledger;
use text_io::Sink;
use trace_runs::RunFault;

// Runs a command outside handlers. Its exceptions are caught.
fn run_caught<K: Sink, L: Ledger>(run: &mut Run<K, L>, command: &Command) -> Result<(), RunFault>
    requires { IsAllowed command.now }
    ensures says { Carries goes_on K.taken K.faults run.old run.new result
        (caught (run_command (handlers_of run.old) [] (command_of command.now) NoEntry (world_of run.old))) }
    ensures ready { StaysReady run.old run.new }
    ensures held { IsHeld run.old run.new }
{
    let nothing = Entries::Nothing;
    run_command(run, command, &nothing, None)?;
    Ok(())
}

/// Runs one item, and writes its lines as they are produced; the handlers are those of the run's script, which needn't be the
/// item's own. An exception ends only the item. The page is ready for a further item, whatever is returned (`IsReady`). The
/// errors are those of `play`.
pub fn run_item<K: Sink, L: Ledger>(run: &mut Run<K, L>, item: &Item) -> Result<(), RunFault>
    requires ready { IsReady run.old.script.now.items (world_of run.old) }
    requires allowed { ItemAllowed item.now }
    ensures says { Carries goes_on K.taken K.faults run.old run.new result
        (run_item (handlers_of run.old) (item_of item.now) (world_of run.old)) }
    ensures ready { IsReady run.old.script.now.items (world_of run.new) }
    ensures held { IsHeld run.old run.new }
{
    match item {
        Item::Command(command) => run_caught(run, command),
        Item::Tick { line, time } => tick(run, *line, *time),
        Item::Handler(_) => Ok(()),
    }
}

/// Runs these items one after another, and writes their lines as they are produced; the handlers are those of the script,
/// which needn't be the items' own. The page is ready for further items, whatever is returned (`IsReady`). The errors are
/// those of `play`.
pub fn play_items<K: Sink, L: Ledger>(run: &mut Run<K, L>, items: &[Item]) -> Result<(), RunFault>
    requires ready { IsReady run.old.script.now.items (world_of run.old) }
    requires allowed { All ItemAllowed items.now }
    ensures says { Carries goes_on K.taken K.faults run.old run.new result
        (for_each (run_item (handlers_of run.old)) (map item_of items.now) (world_of run.old)) }
    ensures ready { IsReady run.old.script.now.items (world_of run.new) }
    ensures held { IsHeld run.old run.new }
{
    for item in items {
        run_item(run, item)?;
    }
    Ok(())
}

/// Runs the items of a script, and writes their lines as they are produced. The page is ready for further items of the
/// script, whatever is returned (`IsReady`).
///
/// # Errors
/// - `Limit` only if a limit is met, and always then unless an allocation or the sink fails first; every line up to its own
///   was written, and the page's world is that of the definition at the limit.
/// - `WriteFault` only if the sink's fault count rose in this call, `Memory` if an allocation fails; a prefix of the lines
///   was written, and of the page's world, which may be one inside of a step, only that it is ready is said.
pub fn play<K: Sink, L: Ledger>(run: &mut Run<K, L>) -> Result<(), RunFault>
    requires ready { IsReady run.old.script.now.items (world_of run.old) }
    ensures says { Carries goes_on K.taken K.faults run.old run.new result (run_items run.old.script.now.items (world_of run.old)) }
    ensures ready { IsReady run.old.script.now.items (world_of run.new) }
    ensures held { IsHeld run.old run.new }
{
    let script = run.script;
    play_items(run, script.items())
}
