//! A line of every kind at its bounds, texts that are almost lines, and whole traces.

use crate::same::same_bytes;
use crate::traces::TRACES;
use px_units::{Point, Rect, Size};
use std::alloc::Global;
use std::process::Abort;
use std::test::Fail;
use text_io::{LimitKind, Name, ThrowKind};
use trace_text::{EventLine, TraceFault, TraceLine, read_line, write_line};

// 2^50 units, which are 17,592,186,044,416 pixels.
const REACH: i64 = 1125899906842624;

// No byte of these texts can be left out or added.
const NO_LINES: [&str; 49] = [
    "",
    "\n",
    "tick\n",
    "tick 0",
    "tick 0 \n",
    "tick 0\r\n",
    "tick 0\n\n",
    "tick  0\n",
    " tick 0\n",
    "tick 00\n",
    "tick 01\n",
    "tick -1\n",
    "tick +1\n",
    "tick 1.0\n",
    "tick 18446744073709551616\n",
    "tick 9999999999999999999999999999999999999999999\n",
    "Tick 0\n",
    "timer top\n",
    "timer top 1a\n",
    "say a b\n",
    "say abcdefghijklmnopqrstuvwxyz0123456\n",
    "round top 4294967296\n",
    "event resize top\n",
    "event scroll @top\n",
    "event change q yes\n",
    "event error @top ResizeObserver loop completed with undelivered notifications\n",
    "throw 1 Error\n",
    "throw RangeError 1\n",
    "limit tick 1 2\n",
    "syntax 4294967296 1\n",
    "read a 0 0 0 0 -0 0\n",
    "read a 0 0 0 0 0.50 0\n",
    "read a 0 0 0 0 0.1 0\n",
    "read a 0 0 0 0 .5 0\n",
    "read a 0 0 0 0 17592186044416.015625 0\n",
    "read a 17592186044416 0 0.015625 0 0 0\n",
    "read a 0 0 0 0 0\n",
    "resize o a rect 0 0 1 1 border 1 1 device\n",
    "resize o a rect 0 0 1 1 border 1 1 device 1\n",
    "resize o a rect 0 0 1 1 border 1 1 device 1 \n",
    "resize o a rect 0 0 1 1 border 1 1 device 1 1 1\n",
    "resize o a rect 0 0 1 1 border 1 1 1 1\n",
    "resize o a rect 0 0 1 1 border 1 1 \n",
    "resize o a rect 0 0 1 1 border 1 1 devices 1 1\n",
    "resize o a rect 0 0 1 1 border 1 1 device 1.5 1\n",
    "resize o a rect 0 0 1 1 border 1 1 device 01 1\n",
    "resize o a rect 0 0 1 1 border 1 1 device 1 -0\n",
    "resize o a rect 0 0 1 1 border 1 1 device 1 1125899906842625\n",
    "resize o a rect 0 0 1 1 border 1 1 device -1125899906842625 1\n",
];

fn comes_back(rt: &impl Abort, alloc: Global, text: &str) -> Result<(), Fail> {
    let line = read_line(text.as_bytes())?;
    let mut written = Vec::new(alloc);
    write_line(alloc, &line, &mut written)?;
    same_bytes(rt, written.as_slice(), text.as_bytes(), text);
    Ok(())
}

fn name(rt: &impl Abort, text: &str) -> Name {
    Name::read(text.as_bytes()).expect(rt, "a name")
}

fn comes_as(rt: &impl Abort, alloc: Global, text: &str, line: &TraceLine) -> Result<(), Fail> {
    assert!(rt; read_line(text.as_bytes())? == *line, "{text}");
    comes_back(rt, alloc, text)
}

#[test]
fn lines_come_back(rt: HostRuntime) -> Result<(), Fail> {
    let top = name(&rt, "top");
    let a = name(&rt, "a-1_B");
    let long = name(&rt, "abcdefghijklmnopqrstuvwxyz012345");
    let rows = [
        ("tick 0\n", TraceLine::Tick(0)),
        ("tick 18446744073709551615\n", TraceLine::Tick(u64::MAX)),
        ("timer top a-1_B\n", TraceLine::Timer(top, a)),
        (
            "frame top abcdefghijklmnopqrstuvwxyz012345\n",
            TraceLine::Frame(top, long),
        ),
        ("task a-1_B top\n", TraceLine::Task(a, top)),
        (
            "event resize @top\n",
            TraceLine::Event(EventLine::Resize(top)),
        ),
        (
            "event scroll a-1_B\n",
            TraceLine::Event(EventLine::Scroll(a)),
        ),
        (
            "event change a-1_B true\n",
            TraceLine::Event(EventLine::Change(a, true)),
        ),
        (
            "event change a-1_B false\n",
            TraceLine::Event(EventLine::Change(a, false)),
        ),
        (
            "event error @top ResizeObserver loop completed with undelivered notifications.\n",
            TraceLine::Event(EventLine::Error(top)),
        ),
        ("round top 4294967295\n", TraceLine::Round(top, u32::MAX)),
        ("take a-1_B 0\n", TraceLine::Take(a, 0)),
        (
            "take a-1_B 18446744073709551615\n",
            TraceLine::Take(a, u64::MAX),
        ),
        ("say a-1_B\n", TraceLine::Say(a)),
        (
            "throw 4294967295 HierarchyRequestError\n",
            TraceLine::Throw(u32::MAX, ThrowKind::HierarchyRequestError),
        ),
        (
            "limit intersection-observations 0 18446744073709551615\n",
            TraceLine::Limit(LimitKind::IntersectionObservations, 0, u64::MAX),
        ),
        ("syntax 1 4294967295\n", TraceLine::Syntax(1, u32::MAX)),
    ];
    for (text, line) in &rows {
        comes_as(&rt, rt.alloc(), text, line)?;
    }
    Ok(())
}

/// The corners stand as far out as they may.
const WIDEST: Rect = Rect {
    left: -REACH,
    top: 0,
    right: 0,
    bottom: REACH,
};

/// The right edge lies left of the left one, and the lower above the upper.
const CROSSED: Rect = Rect {
    left: 64,
    top: -32,
    right: 32,
    bottom: -95,
};

const NOWHERE: Rect = Rect {
    left: 0,
    top: 0,
    right: 0,
    bottom: 0,
};

#[test]
fn boxes_come_back(rt: HostRuntime) -> Result<(), Fail> {
    let a = name(&rt, "a");
    let o = name(&rt, "o");
    let rows = [
        (
            "resize o a rect -17592186044416 0 17592186044416 17592186044416 border 0.984375 800\n",
            TraceLine::Resize {
                observer: o,
                target: a,
                rect: WIDEST,
                border: Size {
                    width: 63,
                    height: 51200,
                },
                device: None,
            },
        ),
        // device pixels are whole numbers and no lengths
        (
            "resize o a rect 0 0 0 0 border 0.984375 800 device 34 -1125899906842624\n",
            TraceLine::Resize {
                observer: o,
                target: a,
                rect: NOWHERE,
                border: Size {
                    width: 63,
                    height: 51200,
                },
                device: Some(Size {
                    width: 34,
                    height: -REACH,
                }),
            },
        ),
        (
            "resize o a rect 0 0 0 0 border 0 0 device 0 1125899906842624\n",
            TraceLine::Resize {
                observer: o,
                target: a,
                rect: NOWHERE,
                border: Size {
                    width: 0,
                    height: 0,
                },
                device: Some(Size {
                    width: 0,
                    height: REACH,
                }),
            },
        ),
        (
            "read a 1 -0.5 -0.5 -0.984375 -17592186044416 17592186044416\n",
            TraceLine::Read {
                target: a,
                rect: CROSSED,
                scroll: Point {
                    left: -REACH,
                    top: REACH,
                },
            },
        ),
        (
            "intersect o a 5 yes 0/340282366920938463463374607431768211455 root 1 -0.5 -0.5 -0.984375 box 1 -0.5 -0.5 -0.984375 cut -17592186044416 0 17592186044416 17592186044416\n",
            TraceLine::Intersect {
                observer: o,
                target: a,
                time: 5,
                meets: true,
                part: 0,
                whole: u128::MAX,
                root: CROSSED,
                bounds: CROSSED,
                cut: WIDEST,
            },
        ),
    ];
    for (text, line) in &rows {
        comes_as(&rt, rt.alloc(), text, line)?;
    }
    Ok(())
}

#[test]
fn other_texts_are_no_lines(rt: HostRuntime) {
    for text in NO_LINES {
        assert!(rt;
            read_line(text.as_bytes()) == Err(TraceFault::NotALine),
            "{text}"
        );
    }
}

fn trace_comes_back(rt: &impl Abort, alloc: Global, trace: &str) -> Result<(), Fail> {
    for line in trace.split_inclusive('\n') {
        comes_back(rt, alloc, line)?;
    }
    Ok(())
}

#[test]
fn traces_come_back(rt: HostRuntime) -> Result<(), Fail> {
    for trace in TRACES {
        trace_comes_back(&rt, rt.alloc(), trace)?;
    }
    Ok(())
}
