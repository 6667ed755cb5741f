//! Judging recorded traces by the traces of their scripts.

ghost use Rattle.std.specs.Prelude.{◌≡◌, ◌⊎◌, drop, Err, Some, IfOk, IfSome};
ghost use Rattle.text_io.specs.Streams.{Rose};
ghost use Rattle.script_model.specs.Reading.{Refusal, reading};
ghost use Rattle.page_model.specs.Outcome.{trace};
ghost use Rattle.trace_judge.specs.Judging.{judgement};
ghost use Rattle.trace_judge.specs.Recordings.{script_of};
ghost use Rattle.run_replies.specs.Answers.{Ends, IsTaken, Tells};
ghost use Rattle.replay_run.specs.Replies.{judge_reply, judgement_reply, judgement_status};

use recorded_source::{RecordedText, read_recorded};
use run_replies::{Job, Status, meet_limit, status_of};
use script_replay::perform_on_text;
use script_source::ScriptText;
use std::alloc::{AllocError, Global};
use std::sync::ledger::Ledger;
use step_count::Steps;
use text_io::{LimitKind, Sink, Source, TextFault};
use text_lines::GatherSink;
use trace_judge::{Judgement, judge};

// Returns the trace of a script, collected in memory. Fails only if an allocation fails.
fn trace_of<L: Ledger>(
    alloc: Global,
    script: ScriptText,
    steps: &mut Steps<L>,
) -> Result<GatherSink, AllocError>
    ensures trace { IfOk result (λ gathered. gathered.taken ≡ trace script) }
    ensures refused_steps { (refusal : Refusal) → reading script ≡ Err refusal → steps.new ≡ steps.old }
{
    let mut gathered = GatherSink::new(alloc);
    let report = perform_on_text(alloc, Job::Replay, script, &mut gathered, steps);
    if report.status.is_whole() {
        Ok(gathered)
    } else {
        // A write to memory fails only if an allocation fails.
        Err(AllocError)
    }
}

fn status_by(judgement: &Judgement) -> Status
    ensures { result ≡ judgement_status judgement.now }
{
    match judgement {
        Judgement::Equal { .. } => Status::Done,
        Judgement::Differs { .. } => Status::Differs,
    }
}

// Judges a recorded trace by the trace of its script.
fn judge_trace<K: Sink, L: Ledger>(
    alloc: Global,
    script: ScriptText,
    recorded: &[u8],
    sink: &mut K,
    steps: &mut Steps<L>,
) -> Status
    ensures tells { Tells result (judgement_reply (judgement (trace script) recorded.now))
        (K.taken sink.old) (K.taken sink.new) (K.faults sink.old) (K.faults sink.new) }
    ensures refused_steps { (refusal : Refusal) → reading script ≡ Err refusal → steps.new ≡ steps.old }
{
    let Ok(expected) = trace_of(alloc, script, steps) else {
        return Status::NoMemory;
    };
    let judgement = judge(expected.taken(), recorded);
    status_of(judgement.write_to(alloc, sink), status_by(&judgement))
}

// The same, with both as they were read.
fn judge_recorded<K: Sink, L: Ledger>(
    alloc: Global,
    recorded: RecordedText,
    sink: &mut K,
    steps: &mut Steps<L>,
) -> Status
    ensures tells { Tells result (judgement_reply (judgement (trace recorded.script) recorded.trace))
        (K.taken sink.old) (K.taken sink.new) (K.faults sink.old) (K.faults sink.new) }
    ensures refused_steps { (refusal : Refusal) → reading recorded.script ≡ Err refusal → steps.new ≡ steps.old }
{
    let (script, trace) = recorded.into_parts();
    judge_trace(alloc, script, &trace, sink, steps)
}

/// Judges the recorded trace that follows the script in the source.
pub fn judge_source<S: Source, K: Sink, L: Ledger>(
    alloc: Global,
    source: &mut S,
    sink: &mut K,
    steps: &mut Steps<L>,
) -> Status
    ensures usage { result ≡ Status.Usage → ⊥ }
    ensures ends { IfSome (S.left source.old) (λ text.
        Ends result (judge_reply text) (K.taken sink.old) (K.taken sink.new) (K.faults sink.old) (K.faults sink.new)) }
    ensures read { IfSome (S.left source.old) (λ text. IsTaken result 67108865 text (S.left source.new)) }
    // Nothing is written before the source is read.
    ensures out_of_memory { result ≡ Status.NoMemory → (sink.new ≡ sink.old) ⊎ IfSome (S.left source.old) (λ text. S.left source.new ≡ Some (drop 67108865 text)) }
    ensures read_fault { result ≡ Status.ReadFault → Rose (S.faults source.old) (S.faults source.new) × (sink.new ≡ sink.old) }
    ensures write_fault { result ≡ Status.WriteFault → Rose (K.faults sink.old) (K.faults sink.new) }
    ensures unfailed_read { (result ≡ Status.ReadFault → ⊥) → S.faults source.new ≡ S.faults source.old }
    ensures unfailed_write { (result ≡ Status.WriteFault → ⊥) → K.faults sink.new ≡ K.faults sink.old }
    ensures refused_steps { IfSome (S.left source.old) (λ text. (refusal : Refusal) → reading (script_of text) ≡ Err refusal → steps.new ≡ steps.old) }
{
    match read_recorded(alloc, source) {
        Ok(recorded) => judge_recorded(alloc, recorded, sink, steps),
        Err(TextFault::TooLong { feeds }) => {
            meet_limit(alloc, LimitKind::Recorded, feeds + 1, sink)
        }
        Err(TextFault::ReadFault) => Status::ReadFault,
        Err(_) => Status::NoMemory,
    }
}
