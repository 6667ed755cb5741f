//! Scripts with their traces, whole and in pieces, texts that are no scripts, and calls that fail.

use crate::common::failing;
use crate::replay_run_scripts::{ENDLESS, GROWING, PAGE, REFUSED, RUNS, TOLD};
use crate::same::{same, same_bytes};
use replay_run::{Status, run_uncounted};
use std::alloc::{AllocError, Global};
use std::marker::Brand;
use std::process::Abort;
use std::sync::ledger::Blank;
use std::test::Fail;
use text_io::{MemorySink, MemorySource};

// How a source gives and a sink takes: bytes a call, those that the sink has room for, and the number of the call that
// fails, from 0.
#[derive(Clone, Copy)]
pub(crate) struct Streams {
    piece: usize,
    room: usize,
    failing_read: Option<u64>,
    failing_write: Option<u64>,
}

/// Each text that isn't made here is read at once, and each line written at once; no trace that isn't made here has more bytes.
pub(crate) const WHOLE: Streams = Streams {
    piece: 65536,
    room: 1024,
    failing_read: None,
    failing_write: None,
};

pub(crate) fn in_pieces(piece: usize) -> Streams {
    Streams { piece, ..WHOLE }
}

impl Streams {
    // The same with a read or a write that fails.
    pub(crate) fn failing_at(
        self,
        failing_read: Option<u64>,
        failing_write: Option<u64>,
    ) -> Streams {
        Streams {
            failing_read,
            failing_write,
            ..self
        }
    }
}

// What a run answered and wrote.
#[derive(Drop)]
pub(crate) struct Answer {
    pub(crate) status: Status,
    pub(crate) has_page: bool,
    pub(crate) sink: MemorySink,
}

pub(crate) fn replayed(
    alloc: Global,
    words: &[String],
    text: &[u8],
    streams: Streams,
) -> Result<Answer, AllocError> {
    let bytes = text.to_vec(alloc)?;
    let reads = failing(alloc, streams.failing_read)?;
    let mut source = MemorySource::new(bytes, streams.piece, reads);
    let writes = failing(alloc, streams.failing_write)?;
    let mut sink = MemorySink::new(alloc, streams.room, streams.piece, writes)?;
    let report = run_uncounted::<_, _, Brand>(Blank::new(1), alloc, words, &mut source, &mut sink);
    Ok(Answer {
        has_page: report.page.is_some(),
        status: report.status,
        sink,
    })
}

// Replays a text without words, and compares all that it answers.
pub(crate) fn expect(
    rt: &impl Abort,
    alloc: Global,
    text: &str,
    streams: Streams,
    status: Status,
    taken: &str,
) -> Result<(), Fail> {
    let it = replayed(alloc, &[], text.as_bytes(), streams)?;
    same(rt, &it.status, &status, text);
    same(rt, &it.has_page, &(status == Status::Done), text);
    same_bytes(rt, it.sink.taken(), taken.as_bytes(), text);
    Ok(())
}

// A script is the same in pieces of any size.
#[test]
fn scripts_give_their_traces(rt: HostRuntime) -> Result<(), Fail> {
    for (text, told) in RUNS {
        for streams in [WHOLE, in_pieces(1), in_pieces(2), in_pieces(3)] {
            expect(&rt, rt.alloc(), text, streams, Status::Done, told)?;
        }
    }
    Ok(())
}

#[test]
fn texts_that_are_no_scripts_are_refused(rt: HostRuntime) -> Result<(), Fail> {
    for (text, told) in REFUSED {
        expect(&rt, rt.alloc(), text, WHOLE, Status::Syntax, told)?;
    }
    Ok(())
}

/// The limit `depth` of `docs/SCRIPT.md`.
const MOST_DEPTH: u32 = 256;

// So many blocks in one another, the first on the lines 2 to 4 and each on three lines, and behind a reading one block more, which is put
// in on line 772: 1 + 3 * 256 + 1 + 2.
fn push_chain(text: &mut String) -> Result<(), AllocError> {
    text.push_str("script 1\nblock e1 top\nset e1 width 10000%\nappend top e1\n")?;
    for k in 1..MOST_DEPTH {
        let next = k + 1;
        write!(
            text,
            "block e{next} top\nset e{next} width 10000%\nappend e{k} e{next}\n"
        )?;
    }
    text.push_str("read e256\nblock e257 top\nappend e256 e257\n")
}

// Widths are capped, and the limit ends the run after the reading.
#[test]
fn a_chain_is_256_blocks_deep_at_most(rt: HostRuntime) -> Result<(), Fail> {
    let mut text = String::new(rt.alloc());
    push_chain(&mut text)?;
    let told = "read e256 0 0 33554431.984375 0 0 0\nlimit depth 772 256\n";
    expect(&rt, rt.alloc(), &text, WHOLE, Status::Limit, told)
}

/// The limit `commands` of the first version, as `docs/SCRIPT.md` says.
const MOST_COMMANDS: u32 = 1_000_000;

/// How many commands of `ENDLESS` stand outside handlers, and how many are run in each of its rounds: two of `ha`, and one of `hb`.
const OUTSIDE: u32 = 15;

const IN_A_ROUND: u32 = 3;

/// The height of `x` at first, in pixels, and in the round that is cut: a pixel is added in each round. It is the 333,329th, of which one
/// command is run, since 1,000,000 - 15 is 333,328 times 3, and 1.
const FIRST_HEIGHT: u32 = 10;

const LAST_HEIGHT: u32 = FIRST_HEIGHT + (MOST_COMMANDS - OUTSIDE) / IN_A_ROUND;

// What the endless script writes: the whole rounds, and the one in which the second command of `ha`, on line 4, is one too many.
fn push_endless(told: &mut String) -> Result<(), AllocError> {
    told.push_str("tick 0\n")?;
    for height in FIRST_HEIGHT..LAST_HEIGHT {
        write!(
            told,
            "resize a x rect 0 0 800 {height} border 800 {height}\nresize b y rect 0 0 0 0 border 0 0\nround top 1\n"
        )?;
    }
    let (last, most) = (LAST_HEIGHT, MOST_COMMANDS);
    write!(
        told,
        "resize a x rect 0 0 800 {last} border 800 {last}\nlimit commands 4 {most}\n"
    )
}

#[test]
fn a_loop_without_end_meets_the_limit_of_commands(rt: HostRuntime) -> Result<(), Fail> {
    let mut told = String::new(rt.alloc());
    push_endless(&mut told)?;
    // room for these bytes, and for no more
    let streams = Streams {
        room: told.len(),
        ..WHOLE
    };
    expect(
        &rt,
        rt.alloc(),
        ENDLESS,
        streams,
        Status::Limit,
        told.as_str(),
    )
}

// Each line is one call of the sink, so that the lines before it were written.
fn see_write(rt: &impl Abort, alloc: Global, call: u64) -> Result<(), Fail> {
    let (text, told) = GROWING;
    let streams = Streams {
        failing_write: Some(call),
        ..WHOLE
    };
    let it = replayed(alloc, &[], text.as_bytes(), streams)?;
    let taken = it.sink.taken();
    let feeds = taken.iter().filter(|byte| **byte == b'\n').count();
    same(rt, &it.status, &Status::WriteFault, call);
    assert!(rt; told.as_bytes().starts_with(taken));
    same(rt, &(feeds as u64), &call, call);
    same(rt, &taken.last().copied().unwrap_or(b'\n'), &b'\n', call);
    Ok(())
}

/// The lines of the trace of `GROWING`.
const GROWING_LINES: u64 = 14;

#[test]
fn a_write_that_fails_ends_the_run(rt: HostRuntime) -> Result<(), Fail> {
    for call in 0..GROWING_LINES {
        see_write(&rt, rt.alloc(), call)?;
    }
    Ok(())
}

/// The bytes of `PAGE`.
const PAGE_BYTES: u64 = 75;

// Each byte is one call, and so is the end.
#[test]
fn a_read_that_fails_ends_the_run(rt: HostRuntime) -> Result<(), Fail> {
    same(&rt, &(PAGE.len() as u64), &PAGE_BYTES, "bytes");
    for call in 0..PAGE_BYTES + 1 {
        let streams = Streams {
            piece: 1,
            failing_read: Some(call),
            ..WHOLE
        };
        expect(&rt, rt.alloc(), PAGE, streams, Status::ReadFault, "")?;
    }
    Ok(())
}

#[test]
fn calls_fail_in_pieces_and_behind_the_end(rt: HostRuntime) -> Result<(), Fail> {
    // nine bytes are written before
    let cut = Streams {
        piece: 1,
        failing_write: Some(9),
        ..WHOLE
    };
    expect(&rt, rt.alloc(), PAGE, cut, Status::WriteFault, "tick 0\nre")?;
    // two reads give the text and its end, and three writes its three lines
    let behind = Streams {
        failing_read: Some(2),
        failing_write: Some(3),
        ..WHOLE
    };
    expect(&rt, rt.alloc(), PAGE, behind, Status::Done, TOLD)
}
