//! The jobs on a script.

ghost use Rattle.std.specs.Prelude.{◌≡◌, ◌&&◌, Ok, Err, is_some, true, false, IfSome};
ghost use Rattle.script_model.specs.Reading.{Reading, Refusal, reading};
ghost use Rattle.script_syntax.specs.Parsing.{Parses};
ghost use Rattle.page_model.specs.Outcome.{opening_world, outcome_read};
ghost use Rattle.frame_update.specs.Ready.{IsReady};
ghost use Rattle.run_replies.specs.Answers.{Tells};
ghost use Rattle.run_replies.specs.Replies.{outcome_reply};
ghost use Rattle.run_replies.specs.Statuses.{is_done};
ghost use Rattle.run_replies.specs.Words.{is_run};
ghost use Rattle.script_replay.specs.Ready.{IsReadyOf};
ghost use Rattle.script_replay.specs.ScriptReplies.{read_reply, script_reply, takes_steps};

use crate::report::Report;
use crate::sights::write_sight;
use crate::summary::summarize;
use page_state::Page;
use run_replies::{
    Job, Status, meet_limit, refuse_at, status_of, write_certificates, write_check, write_limit,
    write_script,
};
use script_items::lent::play;
use script_source::ScriptText;
use script_syntax::{ParseFault, Script};
use std::alloc::Global;
use std::sync::ledger::Ledger;
use step_count::Steps;
use text_io::Sink;
use trace_runs::RunFault;

// Writes the line for a text that isn't a script.
fn refuse_text<K: Sink>(alloc: Global, fault: ParseFault, sink: &mut K) -> Status
    ensures tells { (job : Job) (read : Reading) → Parses (Err fault) read → Tells result (read_reply job read)
        (K.taken sink.old) (K.taken sink.new) (K.faults sink.old) (K.faults sink.new) }
    ensures done { is_done result ≡ false }
{
    match fault {
        ParseFault::Syntax { line, column } => refuse_at(alloc, line, column, sink),
        ParseFault::ScriptLimit { kind, line } => meet_limit(alloc, kind, line, sink),
        ParseFault::Memory => Status::NoMemory,
    }
}

// Runs a script on a new page.
fn run_on<K: Sink, L: Ledger>(
    alloc: Global,
    page: &mut Page,
    script: &Script,
    sink: &mut K,
    steps: &mut Steps<L>,
) -> Status
    requires opening { page.old.world ≡ opening_world script.now.version }
    ensures answers { Tells result (outcome_reply (outcome_read (Ok script.now))) (K.taken sink.old) (K.taken sink.new) (K.faults sink.old) (K.faults sink.new) }
    ensures world { is_done result ≡ true → page.new.world ≡ (outcome_read (Ok script.now)).world }
{
    match play(alloc, page, script, sink, steps) {
        Ok(()) => Status::Done,
        Err(RunFault::Limit { kind, line, number }) => {
            let wrote = write_limit(alloc, kind, line, number, sink);
            status_of(wrote, Status::Limit)
        }
        Err(RunFault::Memory) => Status::NoMemory,
        Err(RunFault::WriteFault) => Status::WriteFault,
    }
}

// Runs a script on a page of its own.
fn run_script<K: Sink, L: Ledger>(
    alloc: Global,
    script: &Script,
    sink: &mut K,
    steps: &mut Steps<L>,
) -> Report
    ensures answers { Tells result.status (outcome_reply (outcome_read (Ok script.now))) (K.taken sink.old) (K.taken sink.new) (K.faults sink.old) (K.faults sink.new) }
    ensures page { is_some result.page ≡ is_done result.status }
    ensures world { IfSome result.page (λ page. page.world ≡ (outcome_read (Ok script.now)).world) }
{
    match Page::new(alloc, script.version()) {
        Ok(mut page) => {
            let status = run_on(alloc, &mut page, script, sink, steps);
            Report::with_page(status, page)
        }
        Err(_) => Report::without_page(Status::NoMemory),
    }
}

/// Performs a job on a script, and writes the result. The page is returned exactly when the script was run to its end for its
/// trace or its summary; it is ready for further items of the script, and for ticks.
///
/// - `Done`, `Limit`: exactly as the reply to the job and the script says, and all of its text was written. `Syntax`,
///   `Differs`, `Usage` and `ReadFault` don't occur.
/// - `WriteFault`: only if the sink's fault count rose in this call; a prefix of the text was written.
/// - `NoMemory` if an allocation fails; the first lines of the text were written, each of them whole.
///
/// `Check`, `Lint` and `Print` take no steps.
pub fn perform<K: Sink, L: Ledger>(
    alloc: Global,
    job: Job,
    script: &Script,
    sink: &mut K,
    steps: &mut Steps<L>,
) -> Report
    ensures tells { Tells result.status (script_reply job script.now) (K.taken sink.old) (K.taken sink.new) (K.faults sink.old) (K.faults sink.new) }
    ensures page { is_some result.page ≡ (is_run job && is_done result.status) }
    ensures world { IfSome result.page (λ page. page.world ≡ (outcome_read (Ok script.now)).world) }
    ensures ready { IfSome result.page (λ page. IsReady script.now.items page.world) }
    ensures steps { takes_steps job ≡ false → steps.new ≡ steps.old }
{
    match job {
        Job::Replay => run_script(alloc, script, sink, steps),
        Job::Check => Report {
            status: write_check(alloc, script, sink),
            page: None,
        },
        Job::Lint => Report {
            status: write_certificates(alloc, script, sink),
            page: None,
        },
        Job::Summary => summarize(alloc, script, sink, steps),
        Job::Print => Report {
            status: write_script(alloc, script, sink),
            page: None,
        },
        Job::AtTick(sight, number) => Report {
            status: write_sight(alloc, sight, number, script, sink, steps),
            page: None,
        },
    }
}

/// The same for the text of a script; for a text that isn't a script, writes the line that says where the fault is, with
/// `Syntax` or `Limit`, and takes no steps.
pub fn perform_on_text<K: Sink, L: Ledger>(
    alloc: Global,
    job: Job,
    text: ScriptText,
    sink: &mut K,
    steps: &mut Steps<L>,
) -> Report
    ensures tells { Tells result.status (read_reply job (reading text)) (K.taken sink.old) (K.taken sink.new) (K.faults sink.old) (K.faults sink.new) }
    ensures page { is_some result.page ≡ (is_run job && is_done result.status) }
    ensures world { IfSome result.page (λ page. page.world ≡ (outcome_read (reading text)).world) }
    ensures ready { IfSome result.page (λ page. IsReadyOf (reading text) page.world) }
    ensures steps { takes_steps job ≡ false → steps.new ≡ steps.old }
    ensures refused_steps { (refusal : Refusal) → reading text ≡ Err refusal → steps.new ≡ steps.old }
{
    match text.parse(alloc) {
        Ok(script) => perform(alloc, job, &script, sink, steps),
        Err(fault) => Report::without_page(refuse_text(alloc, fault, sink)),
    }
}
