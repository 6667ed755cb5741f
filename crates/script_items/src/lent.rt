//! The same for callers whose page and sink are lent one by one, and used again after the call.

ghost use Rattle.std.specs.Prelude.{◌≡◌, ◌-◌, IfOk};
ghost use Rattle.script_model.specs.Scripts.{handlers_in};
ghost use Rattle.script_syntax.specs.Allowed.{ItemAllowed};
ghost use Rattle.script_syntax.specs.Seen.{item_of};
ghost use Rattle.page_model.specs.Outcome.{run_item, run_items};
ghost use Rattle.page_model.specs.Runs.{for_each};
ghost use Rattle.frame_update.specs.Ready.{IsReady};
ghost use Rattle.trace_runs.specs.Flows.{goes_on};
ghost use Rattle.trace_runs.specs.Runs.{Runs};
ghost use Rattle.script_items.specs.Stops.{tick_count, to_tick};

use crate::{items, stops};
use handlers::Run;
use page_state::Page;
use script_syntax::{Item, Script};
use std::alloc::Global;
use std::sync::ledger::Ledger;
use step_count::Steps;
use text_io::Sink;
use trace_runs::RunFault;

/// Runs one item, as `run_item` of the crate.
pub fn run_item<K: Sink, L: Ledger>(
    alloc: Global,
    page: &mut Page,
    script: &Script,
    item: &Item,
    sink: &mut K,
    steps: &mut Steps<L>,
) -> Result<(), RunFault>
    requires ready { IsReady script.now.items page.old.world }
    requires allowed { ItemAllowed item.now }
    ensures says { Runs goes_on page.new.world result (K.taken sink.old) (K.taken sink.new) (K.faults sink.old) (K.faults sink.new)
        (run_item (handlers_in script.now.items) (item_of item.now) page.old.world) }
    ensures ready { IsReady script.now.items page.new.world }
{
    let mut run = Run {
        alloc,
        page,
        script,
        sink,
        steps,
    };
    items::run_item(&mut run, item)
}

/// Runs the items of a script, as `play` of the crate.
pub fn play<K: Sink, L: Ledger>(
    alloc: Global,
    page: &mut Page,
    script: &Script,
    sink: &mut K,
    steps: &mut Steps<L>,
) -> Result<(), RunFault>
    requires ready { IsReady script.now.items page.old.world }
    ensures says { Runs goes_on page.new.world result (K.taken sink.old) (K.taken sink.new) (K.faults sink.old) (K.faults sink.new) (run_items script.now.items page.old.world) }
    ensures ready { IsReady script.now.items page.new.world }
{
    let mut run = Run {
        alloc,
        page,
        script,
        sink,
        steps,
    };
    items::play(&mut run)
}

/// Runs the items of a script until the end of one of its ticks, as `play_to_tick` of the crate.
pub fn play_to_tick<K: Sink, L: Ledger>(
    alloc: Global,
    page: &mut Page,
    script: &Script,
    number: u64,
    sink: &mut K,
    steps: &mut Steps<L>,
) -> Result<u64, RunFault>
    requires { IsReady script.now.items page.old.world }
    ensures says { Runs goes_on page.new.world result (K.taken sink.old) (K.taken sink.new) (K.faults sink.old) (K.faults sink.new)
        (for_each (run_item (handlers_in script.now.items)) (to_tick number script.now.items) page.old.world) }
    ensures lacking { IfOk result (λ lacking. lacking ≡ number - tick_count script.now.items) }
    ensures ready { IsReady script.now.items page.new.world }
{
    let mut run = Run {
        alloc,
        page,
        script,
        sink,
        steps,
    };
    stops::play_to_tick(&mut run, number)
}
