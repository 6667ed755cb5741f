//! Lines over a sink that takes 4 bytes a call.

use crate::same::{same, same_bytes};
use crate::streams::sink;
use std::alloc::Global;
use std::process::Abort;
use std::test::Fail;
use text_io::{MemorySink, ThrowKind};
use trace_runs::{Flow, RunFault, write_one, write_throw};
use trace_text::TraceLine;

/// The call that fails, what comes of the two lines, and what is written of them.
type Row = (Option<u64>, Result<Flow, RunFault>, &'static str);

const ROWS: [Row; 3] = [
    (None, Ok(Flow::Thrown), "tick 16\nthrow 7 NotFoundError\n"),
    (Some(0), Err(RunFault::WriteFault), ""),
    (Some(3), Err(RunFault::WriteFault), "tick 16\nthro"),
];

fn two_lines(alloc: Global, sink: &mut MemorySink) -> Result<Flow, RunFault> {
    write_one(alloc, &TraceLine::Tick(16), sink)?;
    write_throw(alloc, 7, ThrowKind::NotFoundError, sink)
}

fn see_lines(rt: &impl Abort, alloc: Global, sink: &mut MemorySink, row: Row) {
    let (_, result, taken) = row;
    same(rt, &two_lines(alloc, sink), &result, taken);
    same_bytes(rt, sink.taken(), taken.as_bytes(), taken);
}

#[test]
fn lines_are_written_up_to_the_call_that_fails(rt: HostRuntime) -> Result<(), Fail> {
    for row in ROWS {
        let mut sink = sink(rt.alloc(), 64, 4, row.0)?;
        see_lines(&rt, rt.alloc(), &mut sink, row);
    }
    Ok(())
}
