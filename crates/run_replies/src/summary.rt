//! The reply with the summary of a trace that was collected in memory.

ghost use Rattle.std.specs.Prelude.{◌≡◌, ◌++◌, List, [], ◌∷◌, false};
ghost use Rattle.script_model.specs.Summary.{summary_text};
ghost use Rattle.script_model.specs.TraceLines.{LimitLine, TraceLine as LineModel};
ghost use Rattle.script_model.specs.TraceText.{line_text};
ghost use Rattle.trace_runs.specs.Writes.{Wrote};
ghost use Rattle.trace_summary.specs.Counts.{IsTrace};
ghost use Rattle.run_replies.specs.Answers.{Tells};
ghost use Rattle.run_replies.specs.Statuses.{is_done};

use crate::status::{Status, status_of};
use std::alloc::Global;
use text_io::{LimitKind, Sink};
use text_lines::GatherSink;
use trace_runs::{RunFault, write_one};
use trace_summary::{Summary, a_text_has_one_trace, rows_are_the_summary};
use trace_text::TraceLine;

/// Writes how many lines of each kind a trace has, given its text: the lines are read back and counted.
///
/// # Errors
/// `WriteFault` only where the sink's fault count rose in this call, or `Memory` if an allocation fails; a prefix of the summary was
/// written then. No other fault.
pub fn write_summary<K: Sink>(alloc: Global, trace: &[u8], sink: &mut K) -> Result<(), RunFault>
    requires { (lines : List LineModel) × IsTrace trace.now lines }
    ensures { (lines : List LineModel) → IsTrace trace.now lines →
        Wrote result (K.taken sink.old) (K.taken sink.new) (K.faults sink.old) (K.faults sink.new) (summary_text lines) }
{
    // the laws by which the lines read back are those of the trace
    a_text_has_one_trace();
    rows_are_the_summary();
    // the text of a trace consists of lines
    let summary = Summary::of(trace).unwrap();
    summary.write_to(alloc, sink)
}

/// Like `write_summary`, for a trace that a limit ended: the line of the limit is appended to the trace and counted too.
///
/// Returns `Limit`; or `NoMemory` if an allocation fails, or `WriteFault`, only where the sink's fault count rose in this call, with a prefix
/// of the summary written.
pub fn summarize_to_limit<K: Sink>(
    alloc: Global,
    kind: LimitKind,
    line: u32,
    number: u64,
    mut gathered: GatherSink,
    sink: &mut K,
) -> Status
    requires { (lines : List LineModel) × IsTrace gathered.taken lines }
    ensures tells { (lines : List LineModel) → IsTrace gathered.taken lines →
        Tells result (record { text = summary_text (lines ++ LimitLine kind line number ∷ []); status = Status.Limit }) (K.taken sink.old) (K.taken sink.new) (K.faults sink.old) (K.faults sink.new) }
    // The same by the whole text, whatever was collected before.
    ensures whole { (lines : List LineModel) → IsTrace (gathered.taken ++ line_text (LimitLine kind line number)) lines →
        Tells result (record { text = summary_text lines; status = Status.Limit }) (K.taken sink.old) (K.taken sink.new) (K.faults sink.old) (K.faults sink.new) }
    ensures done { is_done result ≡ false }
{
    let line = TraceLine::Limit(kind, line, number);
    match write_one(alloc, &line, &mut gathered) {
        Ok(()) => status_of(write_summary(alloc, gathered.taken(), sink), Status::Limit),
        // Writing to memory fails only if an allocation fails.
        Err(_) => Status::NoMemory,
    }
}
