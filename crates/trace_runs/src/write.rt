//! Writing of lines to a sink.

ghost use Rattle.std.specs.Prelude.{◌≡◌, [], ◌∷◌, IfErr};
ghost use Rattle.script_model.specs.TraceLines.{ThrowLine};
ghost use Rattle.page_model.specs.Runs.{Thrown};
ghost use Rattle.page_model.specs.World.{World};
ghost use Rattle.trace_text.specs.Seen.{seen_line};
ghost use Rattle.trace_text.specs.Ranges.{HasReach};
ghost use Rattle.trace_runs.specs.Flows.{flow_of};
ghost use Rattle.trace_runs.specs.Runs.{Runs};
ghost use Rattle.trace_runs.specs.Writes.{Told, Wrote};

use crate::faults::{Flow, RunFault};
use std::alloc::Global;
use text_io::{Sink, ThrowKind, write_all};
use trace_text::{TraceLine, value_is_a_line, write_line};

/// Writes a text.
///
/// # Errors
/// `WriteFault`, and no other fault, only where the sink's fault count rose in this call; a prefix of the text was written then.
pub fn write_text<K: Sink>(sink: &mut K, text: &[u8]) -> Result<(), RunFault>
    ensures wrote { Wrote result (K.taken sink.old) (K.taken sink.new) (K.faults sink.old) (K.faults sink.new) text.now }
    ensures fault { IfErr result (λ fault. fault ≡ RunFault.WriteFault) }
{
    match write_all(sink, text) {
        Ok(()) => Ok(()),
        Err(_) => Err(RunFault::WriteFault),
    }
}

/// Writes a line, which can be read back.
///
/// # Errors
/// - `WriteFault` only where the sink's fault count rose in this call; a prefix of the line was written then.
/// - `Memory` if an allocation fails; nothing was written then. No other fault.
pub fn write_one<K: Sink>(alloc: Global, line: &TraceLine, sink: &mut K) -> Result<(), RunFault>
    requires { HasReach (seen_line line.now) }
    ensures told { Told result (K.taken sink.old) (K.taken sink.new) (K.faults sink.old) (K.faults sink.new) (seen_line line.now ∷ []) }
    ensures memory { result ≡ Err RunFault.Memory → sink.new ≡ sink.old }
{
    value_is_a_line(line);
    let mut text = Vec::new(alloc);
    let Ok(()) = write_line(alloc, line, &mut text) else {
        return Err(RunFault::Memory);
    };
    write_text(sink, &text)
}

/// Writes that the command on a line threw, and returns `Thrown`.
///
/// # Errors
/// Those of `write_one`.
pub fn write_throw<K: Sink>(
    alloc: Global,
    line: u32,
    kind: ThrowKind,
    sink: &mut K,
) -> Result<Flow, RunFault>
    ensures runs { (state : World) → Runs flow_of state result (K.taken sink.old) (K.taken sink.new) (K.faults sink.old) (K.faults sink.new)
        (record { lines = ThrowLine line kind ∷ []; flow = Thrown; state = state }) }
    ensures memory { result ≡ Err RunFault.Memory → sink.new ≡ sink.old }
{
    match write_one(alloc, &TraceLine::Throw(line, kind), sink) {
        Ok(()) => Ok(Flow::Thrown),
        Err(fault) => Err(fault),
    }
}
