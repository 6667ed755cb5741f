//! Runs that stop at the end of one of their ticks.

ghost use Rattle.std.specs.Prelude.{◌≡◌, ◌-◌, ◌≤◌, IfOk};
ghost use Rattle.script_syntax.specs.Seen.{item_of};
ghost use Rattle.page_model.specs.Outcome.{run_item};
ghost use Rattle.page_model.specs.Runs.{for_each};
ghost use Rattle.trace_runs.specs.Flows.{goes_on};
ghost use Rattle.handlers.specs.Runs.{handlers_of, world_of, Carries, IsHeld};
ghost use Rattle.frame_update.specs.Ready.{IsReady};
ghost use Rattle.script_items.specs.Stops.{tick_count, ticks_in, to_tick};

use crate::items::run_item;
use handlers::Run;
use script_syntax::Item;
use std::sync::ledger::Ledger;
use text_io::Sink;
use trace_runs::RunFault;

// Returns 1 for a tick, 0 for any other item.
fn ticks_in(item: &Item) -> u64
    ensures value { result ≡ ticks_in (item_of item.now) }
    ensures bound { result ≤ 1 }
{
    match item {
        Item::Tick { .. } => 1,
        Item::Command(_) | Item::Handler(_) => 0,
    }
}

/// Runs the items of a script until the end of the tick with this number, counted from 1, and writes their lines as they are
/// produced. Returns the number of ticks that are lacking: 0 if that tick ended, even if it threw, otherwise the number of
/// ticks that the script has too few. The page is ready for further items of the script, whatever is returned. The errors are
/// those of `play`.
pub fn play_to_tick<K: Sink, L: Ledger>(run: &mut Run<K, L>, number: u64) -> Result<u64, RunFault>
    requires { IsReady run.old.script.now.items (world_of run.old) }
    ensures says { Carries goes_on K.taken K.faults run.old run.new result
        (for_each (run_item (handlers_of run.old)) (to_tick number run.old.script.now.items) (world_of run.old)) }
    ensures lacking { IfOk result (λ lacking. lacking ≡ number - tick_count run.old.script.now.items) }
    ensures ready { IsReady run.old.script.now.items (world_of run.new) }
    ensures held { IsHeld run.old run.new }
{
    let script = run.script;
    let mut left = number;
    for item in script.items() {
        if left == 0 {
            return Ok(0);
        }
        run_item(run, item)?;
        left -= ticks_in(item);
    }
    Ok(left)
}
