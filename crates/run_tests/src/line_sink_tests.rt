//! The lines of a trace as values, collected by a sink. The texts are those that an independent program writes.

ghost use Rattle.std.specs.Prelude.{◌<◌};

use crate::same::same;
use live_page::LivePage;
use std::alloc::Global;
use std::process::Abort;
use std::test::Fail;
use text_io::{Failed, Sink, Version, write_all};
use trace_lines::LineSink;
use trace_text::{EventLine, TraceLine};

// A card whose observer makes it higher.
const CARD: &[u8] =
    b"script 1\nhandler open\neach\nset $target height 200px\nend\nend\nblock card top\nappend top card\nset card height 120px\nro sizes top open\nro-observe sizes card content\n";

const TRACE: &[u8] =
    b"tick 0\nresize sizes card rect 0 0 800 120 border 800 120\nround top 1\nevent error @top ResizeObserver loop completed with undelivered notifications.\n";

// No piece is longer; the trace is shorter.
const LONGEST: usize = 160;

// Whether these are the lines of the trace.
fn is_trace(lines: &[TraceLine]) -> bool {
    matches!(
        lines,
        [
            TraceLine::Tick(0),
            TraceLine::Resize { .. },
            TraceLine::Round(_, 1),
            TraceLine::Event(EventLine::Error(_))
        ]
    )
}

#[test]
fn a_tick_gives_lines_as_values(rt: HostRuntime) -> Result<(), Fail> {
    let alloc = rt.alloc();
    let mut live = LivePage::new(alloc, Version::First)?;
    let mut sink = LineSink::new(alloc);
    assert!(rt; live.run(CARD, &mut sink).is_ok());
    assert!(rt; live.tick(0, &mut sink).is_ok());
    let lines = sink.lines();
    assert_eq!(rt; lines.len(), 4);
    assert!(rt; matches!(&lines[0], TraceLine::Tick(0)));
    assert!(rt; matches!(&lines[2], TraceLine::Round(_, 1)));
    assert!(rt; is_trace(sink.take_lines().as_slice()));
    same(&rt, &sink.lines().len(), &0, "the lines left");
    Ok(())
}

// Writes a trace in pieces of this length.
fn in_pieces(rt: &impl Abort, alloc: Global, size: usize)
    requires { 0 < size }
{
    let mut sink = LineSink::new(alloc);
    for piece in TRACE.chunks(size) {
        assert!(rt; write_all(&mut sink, piece).is_ok());
    }
    assert!(rt; is_trace(sink.lines()), "{size}");
}

#[test]
fn pieces_of_every_length_give_the_same_lines(rt: HostRuntime) -> Result<(), Fail> {
    for size in 1..LONGEST {
        in_pieces(&rt, rt.alloc(), size);
    }
    Ok(())
}

// What isn't a line of a trace isn't taken, and the lines before it are kept.
#[test]
fn a_text_that_is_no_trace_is_refused(rt: HostRuntime) -> Result<(), Fail> {
    let mut sink = LineSink::new(rt.alloc());
    assert!(rt; write_all(&mut sink, TRACE).is_ok());
    assert!(rt; sink.write(b"tick early\ntick 16\n") == Err(Failed));
    assert!(rt; is_trace(sink.lines()));
    same(
        &rt,
        &sink.write(b"tick 16\ntick"),
        &Ok(8),
        "the bytes taken",
    );
    same(&rt, &sink.lines().len(), &5, "the lines");
    Ok(())
}
