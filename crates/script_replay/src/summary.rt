//! Running scripts for the summaries of their traces.

ghost use Rattle.std.specs.Prelude.{◌≡◌, true, Ok, is_some, IfSome};
ghost use Rattle.page_model.specs.Outcome.{opening_world, outcome_read};
ghost use Rattle.run_replies.specs.Answers.{Tells};
ghost use Rattle.run_replies.specs.Statuses.{is_done};
ghost use Rattle.script_replay.specs.ScriptReplies.{script_reply};

use crate::report::Report;
use page_state::Page;
use run_replies::{Job, Status, status_of, summarize_to_limit, write_summary};
use script_items::lent::play;
use script_syntax::Script;
use std::alloc::Global;
use std::sync::ledger::Ledger;
use step_count::Steps;
use text_io::Sink;
use text_lines::GatherSink;
use trace_runs::RunFault;

// Runs a script on a new page, collecting its trace in memory.
fn summarize_on<K: Sink, L: Ledger>(
    alloc: Global,
    page: &mut Page,
    script: &Script,
    sink: &mut K,
    steps: &mut Steps<L>,
) -> Status
    requires opening { page.old.world ≡ opening_world script.now.version }
    ensures tells { Tells result (script_reply Job.Summary script.now) (K.taken sink.old) (K.taken sink.new) (K.faults sink.old) (K.faults sink.new) }
    ensures world { is_done result ≡ true → page.new.world ≡ (outcome_read (Ok script.now)).world }
{
    let mut gathered = GatherSink::new(alloc);
    match play(alloc, page, script, &mut gathered, steps) {
        Ok(()) => status_of(write_summary(alloc, gathered.taken(), sink), Status::Done),
        Err(RunFault::Limit { kind, line, number }) => {
            summarize_to_limit(alloc, kind, line, number, gathered, sink)
        }
        // A write to memory fails only if an allocation fails.
        Err(RunFault::Memory | RunFault::WriteFault) => Status::NoMemory,
    }
}

/// Runs a script on a page of its own, and writes how many lines of each kind its trace has, reading the lines back.
pub fn summarize<K: Sink, L: Ledger>(
    alloc: Global,
    script: &Script,
    sink: &mut K,
    steps: &mut Steps<L>,
) -> Report
    ensures tells { Tells result.status (script_reply Job.Summary script.now) (K.taken sink.old) (K.taken sink.new) (K.faults sink.old) (K.faults sink.new) }
    ensures page { is_some result.page ≡ is_done result.status }
    ensures world { IfSome result.page (λ page. page.world ≡ (outcome_read (Ok script.now)).world) }
{
    match Page::new(alloc, script.version()) {
        Ok(mut page) => {
            let status = summarize_on(alloc, &mut page, script, sink, steps);
            Report::with_page(status, page)
        }
        Err(_) => Report::without_page(Status::NoMemory),
    }
}
