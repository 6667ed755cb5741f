//! Recorded traces judged, whole and in pieces, and calls that fail.

use crate::replay_run_scripts::PAGE;
use crate::replay_run_tests::{Streams, WHOLE, in_pieces, replayed};
use crate::same::{same, same_bytes};
use replay_run::Status;
use std::alloc::Global;
use std::process::Abort;
use std::test::Fail;

/// What stands behind the script `PAGE`, and what is said of both.
const BEHIND_PAGE: [(&str, &str); 23] = [
    // the trace of the script, with a line more, with lines less, with what is no line, and with another size
    (
        "trace\ntick 0\nresize o r rect 0 0 800 0 border 800 0\nround top 1\n",
        "equal 3\n",
    ),
    (
        "trace\ntick 0\nresize o r rect 0 0 800 0 border 800 0\nround top 1\ntick 16\n",
        "differs 4 extra\n",
    ),
    ("trace\ntick 0\n", "differs 2 missing\n"),
    ("trace\ntick 0\nhello\n", "differs 2 not-a-line\n"),
    (
        "trace\ntick 0\nresize o r rect 0 0 800 1 border 800 0\nround top 1\n",
        "differs 2 text 25\n",
    ),
    ("trace\ntick 0\ntick 16\n", "differs 2 text 1\n"),
    // the line between them, with a carriage return, at the end, twice, and behind a comment of the same word
    (
        "trace\r\ntick 0\nresize o r rect 0 0 800 0 border 800 0\nround top 1\n",
        "equal 3\n",
    ),
    ("trace", "differs 1 missing\n"),
    ("trace\n", "differs 1 missing\n"),
    ("trace\ntick 0\ntrace\n", "differs 2 not-a-line\n"),
    (
        "# trace\ntrace\ntick 0\nresize o r rect 0 0 800 0 border 800 0\nround top 1\n",
        "equal 3\n",
    ),
    // no such line: the script goes on to the end, and is none
    ("", "differs 1 missing\n"),
    ("trace\r", "differs 1 missing\n"),
    ("trace\r\r\ntick 0\n", "differs 1 missing\n"),
    (" trace\ntick 0\n", "differs 1 missing\n"),
    ("trace \ntick 0\n", "differs 1 missing\n"),
    ("Trace\ntick 0\n", "differs 1 missing\n"),
    ("traces\ntrace\ntick 0\n", "differs 1 text 1\n"),
    // bytes that are no lines, and a rest without a line feed
    ("trace\n\n", "differs 1 not-a-line\n"),
    ("trace\ntick 0\n\u{0}\u{7f}\n", "differs 2 not-a-line\n"),
    ("trace\ntick 0\ntick \u{e9}\n", "differs 2 not-a-line\n"),
    ("trace\ntick 0\r\n", "differs 1 not-a-line\n"),
    (
        "trace\ntick 0\nresize o r rect 0 0 800 0 border 800 0\nround top 1",
        "differs 3 not-a-line\n",
    ),
];

/// Whole sources, and what is said of them.
const SOURCES: [(&str, &str); 10] = [
    ("", "differs 1 missing\n"),
    ("tra", "differs 1 missing\n"),
    ("\n\ntrace", "differs 1 missing\n"),
    ("script 1\ntrace\n", "equal 0\n"),
    ("script 1\ntrace\ntick 0\n", "differs 1 extra\n"),
    // the trace of a text that is no script is the line that says so
    ("trace\nsyntax 1 1\n", "equal 1\n"),
    ("script 1\nsay 5\ntrace\nsyntax 2 5\n", "equal 1\n"),
    (
        "script 1\nsay 5\ntrace\nsyntax 2 4\n",
        "differs 1 text 10\n",
    ),
    (
        "script 1\nhandler h\ntrace\nend\n",
        "differs 1 not-a-line\n",
    ),
    (
        "script 1\nremove z\ntrace\nthrow 2 ReferenceError\n",
        "equal 1\n",
    ),
];

fn see_judged(
    rt: &impl Abort,
    alloc: Global,
    source: &str,
    streams: Streams,
    status: Status,
    told: &str,
) -> Result<(), Fail> {
    let mut words = Vec::new(alloc);
    words.push(String::from_str(alloc, "--judge")?)?;
    let it = replayed(alloc, &words, source.as_bytes(), streams)?;
    same(rt, &it.status, &status, source);
    assert!(rt; !it.has_page, "{source}");
    same_bytes(rt, it.sink.taken(), told.as_bytes(), source);
    Ok(())
}

fn status_of(told: &str) -> Status {
    if told.starts_with("equal") {
        Status::Done
    } else {
        Status::Differs
    }
}

// A judgement is the same in pieces of any size.
fn see_in_pieces(rt: &impl Abort, alloc: Global, source: &str, told: &str) -> Result<(), Fail> {
    for streams in [
        WHOLE,
        in_pieces(1),
        in_pieces(2),
        in_pieces(3),
        in_pieces(4096),
    ] {
        see_judged(rt, alloc, source, streams, status_of(told), told)?;
    }
    Ok(())
}

#[test]
fn recorded_traces_are_judged(rt: HostRuntime) -> Result<(), Fail> {
    for (behind, told) in BEHIND_PAGE {
        let mut source = String::from_str(rt.alloc(), PAGE)?;
        source.push_str(behind)?;
        see_in_pieces(&rt, rt.alloc(), &source, told)?;
    }
    Ok(())
}

#[test]
fn sources_without_a_script_are_judged(rt: HostRuntime) -> Result<(), Fail> {
    for (source, told) in SOURCES {
        see_in_pieces(&rt, rt.alloc(), source, told)?;
    }
    Ok(())
}

/// Bytes of a line: more than one may have by the limit `line`, 4,096, and than a piece has.
const LONG: u32 = 5000;

// A line that may become the one between script and trace is cut by a piece, behind one that is longer than a piece.
#[test]
fn a_long_line_is_judged_in_pieces(rt: HostRuntime) -> Result<(), Fail> {
    let mut source = String::new(rt.alloc());
    for _ in 0..LONG {
        source.push('#')?;
    }
    source.push_str("\ntrace\nlimit line 1 4096\n")?;
    see_in_pieces(&rt, rt.alloc(), &source, "equal 1\n")
}

/// A script without commands, with a trace of a line too many, and what is said of it: each byte is one call, and so is the source's end.
const FAILING: &str = "script 1\ntrace\ntick 0\n";

const FAILING_BYTES: u64 = 22;

const TOLD_BYTES: u64 = 16;

#[test]
fn a_judgement_ends_with_a_call_that_fails(rt: HostRuntime) -> Result<(), Fail> {
    let source = FAILING;
    same(&rt, &(source.len() as u64), &FAILING_BYTES, "bytes");
    for call in 0..FAILING_BYTES + 1 {
        let streams = in_pieces(1).failing_at(Some(call), None);
        see_judged(&rt, rt.alloc(), source, streams, Status::ReadFault, "")?;
    }
    for call in 0..TOLD_BYTES {
        let streams = in_pieces(1).failing_at(None, Some(call));
        let told = &"differs 1 extra\n"[..call as usize];
        see_judged(&rt, rt.alloc(), source, streams, Status::WriteFault, told)?;
    }
    Ok(())
}
