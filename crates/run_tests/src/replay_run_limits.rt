//! Each limit at its number of `docs/SCRIPT.md`, and one past it.

use crate::common::failing;
use crate::replay_run_scripts::{NUMBERED, Numbered, OBSERVING, Observing};
use crate::replay_run_tests::{WHOLE, expect};
use crate::same::{same, same_bytes};
use replay_run::Status;
use run_replies::meet_limit;
use std::alloc::{AllocError, Global};
use std::process::Abort;
use std::test::Fail;
use text_io::{LimitKind, MemorySink};

// What a script that goes on writes, which is its last command too.
const ON: &str = "say on\n";

/// The observations of a kind at one time.
const MOST_OBSERVED: u32 = 50_000;

const MOST_OBSERVED_BY_SECOND: u32 = 100_000;

/// A third of one more, so that three observers have room for it.
const BLOCKS: u32 = 16_667;

const BLOCKS_OF_SECOND: u32 = 33_334;

/// Four kinds of events at each of so many blocks are as many listeners as there may be, 4,096.
const LISTENED: u32 = 1024;

/// The documents, without `top`.
const MOST_FRAMED: u32 = 63;

const MOST_NESTED: u32 = 16;

/// The bytes of a line.
const MOST_LINE: u32 = 4096;

/// The bytes of a script.
const MOST_SCRIPT: u32 = 16_777_216;

// Appends a line so many times, each with its number from 0.
fn push_numbered(
    text: &mut String,
    before: &str,
    after: &str,
    count: u32,
) -> Result<(), AllocError> {
    for k in 0..count {
        write!(text, "{before}{k}{after}")?;
    }
    Ok(())
}

// Appends a text so many times.
fn push_times(text: &mut String, line: &str, count: u32) -> Result<(), AllocError> {
    for _ in 0..count {
        text.push_str(line)?;
    }
    Ok(())
}

// Compares a text that goes on at its end.
fn expect_on(rt: &impl Abort, alloc: Global, text: &mut String) -> Result<(), Fail> {
    text.push_str(ON)?;
    expect(rt, alloc, text, WHOLE, Status::Done, ON)
}

fn push_number(text: &mut String, it: &Numbered, count: u32) -> Result<(), AllocError> {
    text.push_str(it.first)?;
    push_numbered(text, it.before, it.after, count)
}

fn see_most(rt: &impl Abort, alloc: Global, it: &Numbered) -> Result<(), Fail> {
    let mut text = String::new(alloc);
    push_number(&mut text, it, it.most)?;
    expect_on(rt, alloc, &mut text)
}

fn see_too_many(rt: &impl Abort, alloc: Global, it: &Numbered) -> Result<(), Fail> {
    let mut text = String::new(alloc);
    push_number(&mut text, it, it.most.saturating_add(1))?;
    expect(rt, alloc, &text, WHOLE, Status::Limit, it.told)
}

#[test]
fn no_more_is_made_than_the_limits(rt: HostRuntime) -> Result<(), Fail> {
    for it in &NUMBERED {
        see_most(&rt, rt.alloc(), it)?;
        see_too_many(&rt, rt.alloc(), it)?;
    }
    Ok(())
}

// Three observers, of which each observes all blocks, until there are so many observations.
fn push_observed(text: &mut String, it: &Observing, count: u32) -> Result<(), AllocError> {
    text.push_str("script 1\n")?;
    push_numbered(text, "block b", " top\n", BLOCKS)?;
    push_numbered(text, it.make, it.made, 3)?;
    for k in 0..count {
        let (observer, block) = (k / BLOCKS, k % BLOCKS);
        write!(text, "{}{observer} b{block}{}", it.observe, it.observed)?;
    }
    Ok(())
}

// The same in the second version.
fn push_observed_by_second(
    text: &mut String,
    it: &Observing,
    count: u32,
) -> Result<(), AllocError> {
    text.push_str("script 2\n")?;
    push_numbered(text, "block b", " top\n", BLOCKS_OF_SECOND)?;
    push_numbered(text, it.make, it.made, 3)?;
    for k in 0..count {
        let (observer, block) = (k / BLOCKS_OF_SECOND, k % BLOCKS_OF_SECOND);
        write!(text, "{}{observer} b{block}{}", it.observe, it.observed)?;
    }
    Ok(())
}

fn see_all_observed(rt: &impl Abort, alloc: Global, it: &Observing) -> Result<(), Fail> {
    let mut text = String::new(alloc);
    push_observed(&mut text, it, MOST_OBSERVED)?;
    expect_on(rt, alloc, &mut text)
}

fn see_too_many_observed(rt: &impl Abort, alloc: Global, it: &Observing) -> Result<(), Fail> {
    let mut text = String::new(alloc);
    push_observed(&mut text, it, MOST_OBSERVED + 1)?;
    expect(rt, alloc, &text, WHOLE, Status::Limit, it.told)
}

fn see_observed_by_second(rt: &impl Abort, alloc: Global, it: &Observing) -> Result<(), Fail> {
    let mut text = String::new(alloc);
    push_observed_by_second(&mut text, it, MOST_OBSERVED_BY_SECOND + 1)?;
    expect(rt, alloc, &text, WHOLE, Status::Limit, it.told_by_second)
}

#[test]
fn no_more_is_observed_than_the_limits(rt: HostRuntime) -> Result<(), Fail> {
    for it in &OBSERVING {
        see_all_observed(&rt, rt.alloc(), it)?;
        see_too_many_observed(&rt, rt.alloc(), it)?;
    }
    Ok(())
}

#[test]
fn no_more_is_observed_than_the_limits_of_the_second_version(rt: HostRuntime) -> Result<(), Fail> {
    for it in &OBSERVING {
        see_observed_by_second(&rt, rt.alloc(), it)?;
    }
    Ok(())
}

// All kinds of events at the blocks, and then one line more; there is one block more.
fn push_listening(text: &mut String, last: &str) -> Result<(), AllocError> {
    text.push_str("script 1\nhandler h\nend\n")?;
    push_numbered(text, "block b", " top\n", LISTENED + 1)?;
    for kind in [" resize h\n", " scroll h\n", " error h\n", " change h\n"] {
        push_numbered(text, "listen b", kind, LISTENED)?;
    }
    text.push_str(last)
}

// One that is there already isn't added.
fn see_same_listened(rt: &impl Abort, alloc: Global) -> Result<(), Fail> {
    let mut text = String::new(alloc);
    push_listening(&mut text, "listen b1 scroll h\n")?;
    expect_on(rt, alloc, &mut text)
}

fn see_too_many_listened(rt: &impl Abort, alloc: Global) -> Result<(), Fail> {
    let mut text = String::new(alloc);
    push_listening(&mut text, "listen b1024 resize h\n")?;
    let told = "limit listeners 5125 4096\n";
    expect(rt, alloc, &text, WHOLE, Status::Limit, told)
}

#[test]
fn no_more_is_listened_than_the_limit(rt: HostRuntime) -> Result<(), Fail> {
    see_same_listened(&rt, rt.alloc())?;
    see_too_many_listened(&rt, rt.alloc())
}

// `top` is one of the documents.
fn push_framed(text: &mut String, count: u32) -> Result<(), AllocError> {
    text.push_str("script 1\n")?;
    for k in 0..count {
        write!(text, "frame f{k} top d{k}\n")?;
    }
    Ok(())
}

fn see_all_framed(rt: &impl Abort, alloc: Global) -> Result<(), Fail> {
    let mut text = String::new(alloc);
    push_framed(&mut text, MOST_FRAMED)?;
    expect_on(rt, alloc, &mut text)
}

fn see_too_many_framed(rt: &impl Abort, alloc: Global) -> Result<(), Fail> {
    let mut text = String::new(alloc);
    push_framed(&mut text, MOST_FRAMED + 1)?;
    let told = "limit documents 65 64\n";
    expect(rt, alloc, &text, WHOLE, Status::Limit, told)
}

#[test]
fn no_more_documents_are_made_than_the_limit(rt: HostRuntime) -> Result<(), Fail> {
    see_all_framed(&rt, rt.alloc())?;
    see_too_many_framed(&rt, rt.alloc())
}

// A line so many times between what comes before and after it.
fn push_around(
    text: &mut String,
    first: &str,
    line: &str,
    count: u32,
    last: &str,
) -> Result<(), AllocError> {
    text.push_str(first)?;
    push_times(text, line, count)?;
    text.push_str(last)
}

fn see_nested(rt: &impl Abort, alloc: Global) -> Result<(), Fail> {
    let mut text = String::new(alloc);
    let first = "script 1\nblock b top\n";
    push_around(&mut text, first, "when not attached b\n", MOST_NESTED, ON)?;
    push_times(&mut text, "end\n", MOST_NESTED)?;
    expect(rt, alloc, &text, WHOLE, Status::Done, ON)
}

fn see_nested_too_deep(rt: &impl Abort, alloc: Global) -> Result<(), Fail> {
    let mut text = String::new(alloc);
    push_around(
        &mut text,
        "script 1\n",
        "when attached top\n",
        MOST_NESTED + 1,
        "",
    )?;
    let told = "limit nesting 18 16\n";
    expect(rt, alloc, &text, WHOLE, Status::Limit, told)
}

#[test]
fn blocks_are_nested_up_to_the_limit(rt: HostRuntime) -> Result<(), Fail> {
    see_nested(&rt, rt.alloc())?;
    see_nested_too_deep(&rt, rt.alloc())
}

fn see_longest_line(rt: &impl Abort, alloc: Global) -> Result<(), Fail> {
    let mut text = String::new(alloc);
    push_around(&mut text, "script 1\n", " ", MOST_LINE, "\n")?;
    expect_on(rt, alloc, &mut text)
}

fn see_line_too_long(rt: &impl Abort, alloc: Global) -> Result<(), Fail> {
    let mut text = String::new(alloc);
    push_around(&mut text, "script 1\n", " ", MOST_LINE + 1, "\n")?;
    let told = "limit line 2 4096\n";
    expect(rt, alloc, &text, WHOLE, Status::Limit, told)
}

#[test]
fn lines_have_bytes_up_to_the_limit(rt: HostRuntime) -> Result<(), Fail> {
    see_longest_line(&rt, rt.alloc())?;
    see_line_too_long(&rt, rt.alloc())
}

fn see_longest_script(rt: &impl Abort, alloc: Global) -> Result<(), Fail> {
    let mut text = String::new(alloc);
    // 16 bytes, and a line feed for each of the others
    push_around(&mut text, "script 1\nsay on\n", "\n", MOST_SCRIPT - 16, "")?;
    expect(rt, alloc, &text, WHOLE, Status::Done, ON)
}

fn see_script_too_long(rt: &impl Abort, alloc: Global) -> Result<(), Fail> {
    let mut text = String::new(alloc);
    push_times(&mut text, "\n", MOST_SCRIPT + 1)?;
    let told = "limit script 16777217 16777216\n";
    expect(rt, alloc, &text, WHOLE, Status::Limit, told)
}

#[test]
fn scripts_have_bytes_up_to_the_limit(rt: HostRuntime) -> Result<(), Fail> {
    see_longest_script(&rt, rt.alloc())?;
    see_script_too_long(&rt, rt.alloc())
}

/// A limit and the line on which it is met; the line that is written, with the limit's number of the first version; and which write fails.
type ToldRow = (LimitKind, u32, &'static str, Option<u64>, Status);

const TOLD: [ToldRow; 8] = [
    (
        LimitKind::Script,
        1,
        "limit script 1 16777216\n",
        None,
        Status::Limit,
    ),
    (
        LimitKind::Line,
        2,
        "limit line 2 4096\n",
        None,
        Status::Limit,
    ),
    (
        LimitKind::Nesting,
        18,
        "limit nesting 18 16\n",
        None,
        Status::Limit,
    ),
    (
        LimitKind::Recorded,
        3,
        "limit recorded 3 67108864\n",
        None,
        Status::Limit,
    ),
    (
        LimitKind::Pages,
        4_294_967_295,
        "limit pages 4294967295 8\n",
        None,
        Status::Limit,
    ),
    (
        LimitKind::Commands,
        7,
        "limit commands 7 1000000\n",
        None,
        Status::Limit,
    ),
    (LimitKind::Script, 1, "", Some(0), Status::WriteFault),
    (
        LimitKind::Script,
        1,
        "limit sc",
        Some(1),
        Status::WriteFault,
    ),
];

fn see_told(rt: &impl Abort, alloc: Global, row: ToldRow) -> Result<(), Fail> {
    let (kind, line, text, failing_write, status) = row;
    let writes = failing(alloc, failing_write)?;
    let mut sink = MemorySink::new(alloc, 64, 8, writes)?;
    let found = meet_limit(alloc, kind, line, &mut sink);
    same(rt, &found, &status, text);
    same_bytes(rt, sink.taken(), text.as_bytes(), text);
    Ok(())
}

// A limit of the source is told without a run.
#[test]
fn a_limit_is_told_with_its_number(rt: HostRuntime) -> Result<(), Fail> {
    for row in TOLD {
        see_told(&rt, rt.alloc(), row)?;
    }
    Ok(())
}
