//! Traces with their counts, and writes that fail.

use crate::same::{same, same_bytes};
use crate::streams::sink;
use std::alloc::Global;
use std::process::Abort;
use std::test::Fail;
use text_io::{TextFault, write_all};
use text_lines::GatherSink;
use trace_runs::RunFault;
use trace_summary::Summary;

/// Lines of every kind; kinds' names stand in other lines too.
const TRACE: &str = "tick 0
timer top tick
frame top limit
task top say
event scroll resize
event resize @top
event change syntax true
event error @top ResizeObserver loop completed with undelivered notifications.
resize tick round rect 1 2 3 4 border 5 6
resize o tick rect 0 0 10.5 3 border 10.5 3 device 16 5
round top 2
intersect read throw 0 yes 1/1 root 0 0 8 6 box 0 0 8 0 cut 0 0 8 0
take io 1
say tick
say syntax
read tick 0 0 800 20 0 0
throw 7 TypeError
limit tasks 8 4096
syntax 2 14
tick 16
";

const SUMMARY: &str = "tick 2
timer 1
frame 1
task 1
event 4
resize 2
round 1
intersect 1
take 1
say 2
read 1
throw 1
limit 1
syntax 1
";

/// Texts of several lines, one of which isn't any.
const NO_TRACES: [&str; 2] = ["tick 0\nsay a", "tick 0\n\nsay a\n"];

fn gather(sink: &mut GatherSink, text: &str) -> Result<(), TextFault> {
    for piece in text.as_bytes().chunks(5) {
        write_all(sink, piece)?;
    }
    Ok(())
}

fn see_summary(rt: &impl Abort, alloc: Global, trace: &[u8]) -> Result<(), Fail> {
    let summary = Summary::of(trace)?;
    let mut output = sink(alloc, 200, 7, None)?;
    same(
        rt,
        &summary.write_to(alloc, &mut output),
        &Ok(()),
        "a summary is written",
    );
    same_bytes(rt, output.taken(), SUMMARY.as_bytes(), "what is written");
    Ok(())
}

#[test]
fn lines_are_counted_by_their_kinds(rt: HostRuntime) -> Result<(), Fail> {
    let mut sink = GatherSink::new(rt.alloc());
    gather(&mut sink, TRACE)?;
    same_bytes(&rt, sink.taken(), TRACE.as_bytes(), "what is gathered");
    see_summary(&rt, rt.alloc(), sink.taken())
}

#[test]
fn a_text_without_lines_has_none(rt: HostRuntime) -> Result<(), Fail> {
    let summary = Summary::of(b"")?;
    same(
        &rt,
        &(summary.tick, summary.syntax),
        &(0, 0),
        "counts of no text",
    );
    Ok(())
}

#[test]
fn other_texts_are_no_traces(rt: HostRuntime) {
    for text in NO_TRACES {
        assert!(rt; Summary::of(text.as_bytes()).is_err(), "of {text:?}");
    }
}

#[test]
fn a_write_that_fails_ends_the_summary(rt: HostRuntime) -> Result<(), Fail> {
    let summary = Summary::of(b"tick 0\n")?;
    let mut output = sink(rt.alloc(), 200, 100, Some(2))?;
    same(
        &rt,
        &summary.write_to(rt.alloc(), &mut output),
        &Err(RunFault::WriteFault),
        "the third write fails",
    );
    same_bytes(
        &rt,
        output.taken(),
        b"tick 1\ntimer 0\n".as_slice(),
        "what is written",
    );
    Ok(())
}
