//! Traces judged, and judgements written.

use crate::same::{same, same_bytes};
use std::alloc::Global;
use std::process::Abort;
use std::test::Fail;
use text_io::MemorySink;
use trace_judge::{How, Judgement, judge};
use trace_runs::RunFault;

/// The trace of a block that fills its viewport, seen by a resize observer.
const TRACE: &str = "tick 0\nresize o r rect 0 0 800 0 border 800 0\nround top 1\n";

/// A trace of version 2, whose `resize` lines end with device pixels.
const DEVICE_TRACE: &str =
    "tick 0\nresize o r rect 0 0 10.5 3 border 10.5 3 device 16 5\nround top 1\n";

/// Recorded traces beside that one.
const DEVICE_RECORDED: [(&str, Judgement); 5] = [
    (DEVICE_TRACE, Judgement::Equal { lines: 3 }),
    // another number of pixels; none told; one that isn't whole; one too few
    (
        "tick 0\nresize o r rect 0 0 10.5 3 border 10.5 3 device 16 4\nround top 1\n",
        Judgement::Differs {
            line: 2,
            how: How::Text(52),
        },
    ),
    (
        "tick 0\nresize o r rect 0 0 10.5 3 border 10.5 3\nround top 1\n",
        Judgement::Differs {
            line: 2,
            how: How::Text(41),
        },
    ),
    (
        "tick 0\nresize o r rect 0 0 10.5 3 border 10.5 3 device 15.75 5\nround top 1\n",
        Judgement::Differs {
            line: 2,
            how: How::NotALine,
        },
    ),
    (
        "tick 0\nresize o r rect 0 0 10.5 3 border 10.5 3 device 16\nround top 1\n",
        Judgement::Differs {
            line: 2,
            how: How::NotALine,
        },
    ),
];

/// Recorded traces beside `TRACE`: two more are in `a_recorded_trace_is_judged`, which the README shows.
const RECORDED: [(&str, Judgement); 16] = [
    (
        "tick 0\nresize o r rect 0 0 800 0 border 800 0\nround top 1\ntick 16\n",
        Judgement::Differs {
            line: 4,
            how: How::Extra,
        },
    ),
    (
        "tick 0\nresize o r rect 0 0 800 0 border 800 0\nround top 1\nhello",
        Judgement::Differs {
            line: 4,
            how: How::Extra,
        },
    ),
    (
        "tick 0\nresize o r rect 0 0 800 0 border 800 0\nround top 1\n\n",
        Judgement::Differs {
            line: 4,
            how: How::Extra,
        },
    ),
    (
        "",
        Judgement::Differs {
            line: 1,
            how: How::Missing,
        },
    ),
    (
        "tick 0\nhello\n",
        Judgement::Differs {
            line: 2,
            how: How::NotALine,
        },
    ),
    // the width of a line is right and its height isn't; another kind; a line too early
    (
        "tick 0\nresize o r rect 0 0 800 1 border 800 0\nround top 1\n",
        Judgement::Differs {
            line: 2,
            how: How::Text(25),
        },
    ),
    (
        "tick 0\nread o 0 0 800 0 0 0\n",
        Judgement::Differs {
            line: 2,
            how: How::Text(3),
        },
    ),
    (
        "tick 0\nround top 1\n",
        Judgement::Differs {
            line: 2,
            how: How::Text(2),
        },
    ),
    (
        "tick 1\n",
        Judgement::Differs {
            line: 1,
            how: How::Text(6),
        },
    ),
    (
        "tick 00\n",
        Judgement::Differs {
            line: 1,
            how: How::NotALine,
        },
    ),
    (
        "say tick\n",
        Judgement::Differs {
            line: 1,
            how: How::Text(1),
        },
    ),
    // a line as it should be, but for its end
    (
        "tick 0",
        Judgement::Differs {
            line: 1,
            how: How::NotALine,
        },
    ),
    (
        "tick 0\r\n",
        Judgement::Differs {
            line: 1,
            how: How::NotALine,
        },
    ),
    (
        "tick 0\nresize o r rect 0 0 800 0 border 800 0\nround top 1",
        Judgement::Differs {
            line: 3,
            how: How::NotALine,
        },
    ),
    (
        "\n",
        Judgement::Differs {
            line: 1,
            how: How::NotALine,
        },
    ),
    (
        "tick 0\n\n",
        Judgement::Differs {
            line: 2,
            how: How::NotALine,
        },
    ),
];

/// An expected and a recorded trace.
const PAIRS: [(&str, &str, Judgement); 7] = [
    ("", "", Judgement::Equal { lines: 0 }),
    (
        "",
        "tick 0\n",
        Judgement::Differs {
            line: 1,
            how: How::Extra,
        },
    ),
    (
        "",
        "hello",
        Judgement::Differs {
            line: 1,
            how: How::Extra,
        },
    ),
    (
        "syntax 1 1\n",
        "syntax 1 1\n",
        Judgement::Equal { lines: 1 },
    ),
    // an expected rest without a line feed is a line of its own
    ("tick 0", "tick 0", Judgement::Equal { lines: 1 }),
    (
        "tick 0",
        "tick 0\n",
        Judgement::Differs {
            line: 1,
            how: How::Text(7),
        },
    ),
    (
        "tick 0\nsay a",
        "tick 0\n",
        Judgement::Differs {
            line: 2,
            how: How::Missing,
        },
    ),
];

/// Judgements with the lines that tell them.
const LINES: [(Judgement, &str); 8] = [
    (Judgement::Equal { lines: 3 }, "equal 3\n"),
    (Judgement::Equal { lines: 0 }, "equal 0\n"),
    (
        Judgement::Differs {
            line: 4,
            how: How::Extra,
        },
        "differs 4 extra\n",
    ),
    (
        Judgement::Differs {
            line: 2,
            how: How::Missing,
        },
        "differs 2 missing\n",
    ),
    (
        Judgement::Differs {
            line: 2,
            how: How::NotALine,
        },
        "differs 2 not-a-line\n",
    ),
    (
        Judgement::Differs {
            line: 2,
            how: How::Text(25),
        },
        "differs 2 text 25\n",
    ),
    (
        Judgement::Differs {
            line: u64::MAX,
            how: How::Text(u32::MAX),
        },
        "differs 18446744073709551615 text 4294967295\n",
    ),
    (
        Judgement::Equal { lines: u64::MAX },
        "equal 18446744073709551615\n",
    ),
];

#[test]
fn device_pixels_are_judged_with_their_line(rt: HostRuntime) {
    for (recorded, judgement) in &DEVICE_RECORDED {
        same(
            &rt,
            &judge(DEVICE_TRACE.as_bytes(), recorded.as_bytes()),
            judgement,
            recorded,
        );
    }
}

#[test]
fn recorded_traces_differ_at_a_line_and_somehow(rt: HostRuntime) {
    for (recorded, judgement) in &RECORDED {
        same(
            &rt,
            &judge(TRACE.as_bytes(), recorded.as_bytes()),
            judgement,
            recorded,
        );
    }
}

#[test]
fn other_traces_may_be_expected(rt: HostRuntime) {
    for (expected, recorded, judgement) in &PAIRS {
        same(
            &rt,
            &judge(expected.as_bytes(), recorded.as_bytes()),
            judgement,
            recorded,
        );
    }
}

#[test]
fn a_recorded_trace_is_judged(rt: HostRuntime) {
    assert_eq!(&rt;
        judge(TRACE.as_bytes(), TRACE.as_bytes()),
        Judgement::Equal { lines: 3 }
    );
    assert_eq!(&rt;
        judge(TRACE.as_bytes(), b"tick 0\n"),
        Judgement::Differs {
            line: 2,
            how: How::Missing,
        }
    );
}

fn written(rt: &impl Abort, alloc: Global, judgement: &Judgement, line: &str) -> Result<(), Fail> {
    let mut sink = MemorySink::new(alloc, 100, 7, Vec::new(alloc))?;
    same(rt, &judgement.write_to(alloc, &mut sink), &Ok(()), line);
    same_bytes(rt, sink.taken(), line.as_bytes(), line);
    Ok(())
}

#[test]
fn judgements_are_written_as_lines(rt: HostRuntime) -> Result<(), Fail> {
    for (judgement, line) in &LINES {
        written(&rt, rt.alloc(), judgement, line)?;
    }
    Ok(())
}

#[test]
fn a_write_that_fails_leaves_a_first_part(rt: HostRuntime) -> Result<(), Fail> {
    let mut failing = Vec::new(rt.alloc());
    failing.push(2)?;
    let mut sink = MemorySink::new(rt.alloc(), 100, 4, failing)?;
    let judgement = Judgement::Differs {
        line: 2,
        how: How::NotALine,
    };
    same(
        &rt,
        &judgement.write_to(rt.alloc(), &mut sink),
        &Err(RunFault::WriteFault),
        "the second write fails",
    );
    same_bytes(&rt, sink.taken(), b"differs ".as_slice(), "what is written");
    Ok(())
}
