//! The replies for limits, and for texts that aren't scripts.

ghost use Rattle.std.specs.Prelude.{◌≡◌, [], ◌∷◌, false};
ghost use Rattle.script_model.specs.TraceLines.{LimitLine};
ghost use Rattle.script_model.specs.Reading.{LimitAt, SyntaxAt};
ghost use Rattle.trace_runs.specs.Writes.{Told};
ghost use Rattle.run_replies.specs.Answers.{Tells};
ghost use Rattle.run_replies.specs.Replies.{refused_with};
ghost use Rattle.run_replies.specs.Statuses.{is_done};

use crate::status::{Status, status_of};
use std::alloc::Global;
use text_io::{LimitKind, Sink, Version};
use trace_runs::{RunFault, write_one};
use trace_text::TraceLine;

/// Writes the trace line for a limit that is met on a line of the script; `number` is the value of the limit.
///
/// # Errors
/// - `WriteFault` only where the sink's fault count rose in this call; a prefix of the line was written then.
/// - `Memory` if an allocation fails; nothing was written then. No other fault.
pub fn write_limit<K: Sink>(
    alloc: Global,
    kind: LimitKind,
    line: u32,
    number: u64,
    sink: &mut K,
) -> Result<(), RunFault>
    ensures told { Told result (K.taken sink.old) (K.taken sink.new) (K.faults sink.old) (K.faults sink.new)
        (LimitLine kind line number ∷ []) }
    ensures memory { result ≡ Err RunFault.Memory → sink.new ≡ sink.old }
{
    let line = TraceLine::Limit(kind, line, number);
    write_one(alloc, &line, sink)
}

/// Writes the trace line for a limit that was met while a source was read, with its value in version 1; before a version is known only
/// limits are met that are the same in every version.
///
/// Returns `Limit`; or `NoMemory` if an allocation fails, with nothing written; or `WriteFault`, only where the sink's fault count rose in
/// this call, with a prefix of the line written.
pub fn meet_limit<K: Sink>(alloc: Global, kind: LimitKind, line: u32, sink: &mut K) -> Status
    ensures tells { Tells result (refused_with (LimitAt kind line)) (K.taken sink.old) (K.taken sink.new) (K.faults sink.old) (K.faults sink.new) }
    ensures done { is_done result ≡ false }
    ensures memory { result ≡ Status.NoMemory → sink.new ≡ sink.old }
{
    let number = kind.number(Version::First);
    let wrote = write_limit(alloc, kind, line, number, sink);
    status_of(wrote, Status::Limit)
}

/// Writes the trace line for a text that isn't a script, with the position of its first fault: a line and a column, each counted from 1.
///
/// Returns `Syntax`; or `NoMemory` if an allocation fails, with nothing written; or `WriteFault`, only where the sink's fault count rose in
/// this call, with a prefix of the line written.
pub fn refuse_at<K: Sink>(alloc: Global, line: u32, column: u32, sink: &mut K) -> Status
    ensures tells { Tells result (refused_with (SyntaxAt line column)) (K.taken sink.old) (K.taken sink.new) (K.faults sink.old) (K.faults sink.new) }
    ensures done { is_done result ≡ false }
    ensures memory { result ≡ Status.NoMemory → sink.new ≡ sink.old }
{
    let wrote = write_one(alloc, &TraceLine::Syntax(line, column), sink);
    status_of(wrote, Status::Syntax)
}
