//! Writing the lines of a page of a stream with its name.

ghost use Rattle.std.specs.Prelude.{◌≡◌, ◌∷◌, ◌++◌, List, IfOk};
ghost use Rattle.script_model.specs.TraceLines.{TraceLine as LineModel};
ghost use Rattle.trace_runs.specs.Writes.{Wrote};
ghost use Rattle.trace_summary.specs.Counts.{IsTrace};
ghost use Rattle.stream_runs.specs.StreamRuns.{named_text};
ghost use Rattle.stream_replay.specs.NamedTexts.{named_lines};

use std::alloc::{AllocError, Global};
use text_io::{Name, Sink};
use text_lines::split_line;
use trace_runs::{RunFault, write_text};
use trace_text::line_ends_once;

// Returns a line prefixed with the name and a space.
fn named_line(alloc: Global, name: &Name, line: &[u8]) -> Result<Vec<u8>, AllocError>
    ensures { IfOk result (λ text. text.items ≡ name.now ++ (32 ∷ line.now)) }
{
    let mut text = Vec::from_slice(alloc, name.bytes())?;
    text.push(b' ')?;
    text.extend_from_slice(line)?;
    Ok(text)
}

fn write_line<K: Sink>(
    alloc: Global,
    name: &Name,
    line: &[u8],
    sink: &mut K,
) -> Result<(), RunFault>
    ensures { Wrote result (K.taken sink.old) (K.taken sink.new) (K.faults sink.old) (K.faults sink.new) (name.now ++ (32 ∷ line.now)) }
{
    match named_line(alloc, name, line) {
        Ok(text) => write_text(sink, &text),
        Err(_) => Err(RunFault::Memory),
    }
}

/// Writes the lines of a trace, or of any text, each prefixed with the page's name and a space.
///
/// - `WriteFault` only if the sink's fault count rose in this call; a prefix of the text was written.
/// - `Memory` if an allocation fails. No other error occurs.
pub fn write_named<K: Sink>(
    alloc: Global,
    name: &Name,
    trace: &[u8],
    sink: &mut K,
) -> Result<(), RunFault>
    ensures text { Wrote result (K.taken sink.old) (K.taken sink.new) (K.faults sink.old) (K.faults sink.new) (named_lines name.now trace.now) }
    ensures of_trace { (lines : List LineModel) → IsTrace trace.now lines →
        Wrote result (K.taken sink.old) (K.taken sink.new) (K.faults sink.old) (K.faults sink.new) (named_text name.now lines) }
{
    // the law by which a line ends where it is cut off
    line_ends_once();
    let mut rest = trace;
    while !rest.is_empty() {
        let (line, behind) = split_line(rest);
        write_line(alloc, name, line, sink)?;
        rest = behind;
    }
    Ok(())
}
