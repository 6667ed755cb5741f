//! Texts with their faults, matches and printed forms, by tables, at other texts than those of the laws in `script_model/src/texts.rt`.

use crate::same::{same, same_bytes};
use media_queries::{Query, QueryFault};
use px_units::Size;
use std::alloc::{AllocError, Global};
use std::test::Fail;

/// A text, and the column of its fault, none where it is a list.
const TEXTS: [(&str, Option<u32>); 44] = [
    ("all", None),
    ("screen , print", None),
    ("\tall", Some(1)),
    ("all,", Some(5)),
    ("all, ,screen", Some(6)),
    ("all,screen", None),
    ("allx", Some(4)),
    ("only all", None),
    ("only  (width: 1px)", Some(7)),
    ("not (width: 1px)", None),
    ("not print", None),
    ("not print and", Some(14)),
    ("not all and (width:1px)and (height: 2px)", Some(24)),
    ("(width: 1px)", None),
    ("( \tmin-width\t:\t640.5px )", None),
    ("(max-height:1000000.00px)", None),
    ("(max-height:1000000.01px)", Some(22)),
    ("(max-height:1000001px)", Some(19)),
    ("(width:12345678px)", Some(14)),
    ("(width:0.125px)", Some(12)),
    ("(width:1.px)", Some(10)),
    ("(width:.5px)", Some(8)),
    ("(width:-1px)", Some(8)),
    ("(width: 10 px)", Some(11)),
    ("(min-widht: 1px)", Some(9)),
    ("(orientation: portrait)", None),
    ("(orientation:landscape)", None),
    ("(orientation: square)", Some(15)),
    ("(orientation: portrait", Some(23)),
    ("(width)", Some(7)),
    ("(width:1px) and (height:2px)", None),
    ("(width:1px) or (height:2px)", None),
    ("(width:1px) and (height:2px) or (width:3px)", Some(30)),
    ("(width:1px) or (height:2px) and (width:3px)", Some(29)),
    (
        "(width:1px) or (height:2px) or (orientation:landscape)",
        None,
    ),
    ("(width:1px)or (height:2px)", Some(12)),
    ("print and (width:1px) or (height:1px)", Some(23)),
    ("(width:1px), not screen, (height:2px)", None),
    ("(width:1px) ,", Some(14)),
    ("not(width: 1px)", Some(4)),
    ("not (width:1px) and (height:1px)", Some(17)),
    ("ALL", Some(1)),
    ("(min-orientation: portrait)", Some(6)),
    ("((width:1px))", Some(2)),
];

/// A list, the width and height of a viewport in 1/64 pixel, and whether it matches.
const VIEWPORTS: [(&str, i64, i64, bool); 18] = [
    ("all", 0, 0, true),
    ("print", 640, 640, false),
    ("not print", 640, 640, true),
    ("only screen", 1, 2, true),
    ("(orientation: landscape)", 640, 640, false),
    ("(orientation: landscape)", 641, 640, true),
    (
        "not screen and (width: 1px) and (height: 1px)",
        64,
        65,
        true,
    ),
    (
        "not screen and (width: 1px) and (height: 1px)",
        64,
        64,
        false,
    ),
    ("(min-width: 10px)", 640, 0, true),
    ("(min-width: 10px)", 639, 0, false),
    ("(max-height: 10px)", 0, 640, true),
    ("(max-height: 10px)", 0, 641, false),
    ("(width: 0.02px)", 1, 0, true),
    ("(width: 0.02px)", 2, 0, false),
    (
        "(width: 1px) or (height: 1px) or (orientation: portrait)",
        65,
        64,
        true,
    ),
    (
        "(width: 1px) or (height: 1px) or (width: 2px)",
        128,
        0,
        true,
    ),
    ("print, (width: 1px)", 64, 0, true),
    ("not (width: 1px)", 64, 0, false),
];

/// A list, and its text with one space for each gap, no other, and the shortest lengths.
const PRINTED: [(&str, &str); 13] = [
    ("all", "all"),
    ("only\tscreen", "only screen"),
    ("not  print ,\tall", "not print,all"),
    ("( \tmin-width\t:\t640.50px )", "(min-width:640.5px)"),
    ("(max-height:0007.00px)", "(max-height:7px)"),
    ("(height:0.10px)", "(height:0.1px)"),
    ("(min-height:0.99px)", "(min-height:0.99px)"),
    ("(max-width:0.03px)", "(max-width:0.02px)"),
    ("(width:0.01px)", "(width:0px)"),
    (
        "screen\tand\t(width:1000000.00px)  and (height: 0.20px)",
        "screen and (width:1000000px) and (height:0.2px)",
    ),
    (
        "(width: 12.34px)  or (height:2.25px) or\t( orientation : portrait )",
        "(width:12.33px) or (height:2.25px) or (orientation:portrait)",
    ),
    (
        "(width:1px) and  (orientation:landscape)",
        "(width:1px) and (orientation:landscape)",
    ),
    (
        "not  ( orientation : landscape )",
        "not (orientation:landscape)",
    ),
];

/// No text that is read here is longer, so that `Query::parse` takes each.
const LONGEST: usize = 4096;

// The column of a text's fault, none for a list, and 0, which is no column, for anything else.
fn fault_of(alloc: Global, text: &[u8]) -> Option<u32> {
    if text.len() > LONGEST {
        return Some(0);
    }
    match Query::parse(alloc, text) {
        Ok(_) => None,
        Err(QueryFault::BadQuery { column }) => Some(column),
        Err(QueryFault::Memory) => Some(0),
    }
}

// The list of a text that is one.
fn parsed(alloc: Global, text: &[u8]) -> Result<Query, AllocError> {
    if text.len() > LONGEST {
        return Err(AllocError);
    }
    Query::parse(alloc, text).map_err(|_| AllocError)
}

#[test]
fn texts_are_read_to_their_fault(rt: HostRuntime) {
    for (text, want) in TEXTS {
        same(&rt, &fault_of(rt.alloc(), text.as_bytes()), &want, text);
    }
}

#[test]
fn lists_match_viewports(rt: HostRuntime) -> Result<(), Fail> {
    for (text, width, height, want) in VIEWPORTS {
        let size = Size { width, height };
        let query = parsed(rt.alloc(), text.as_bytes())?;
        same(&rt, &query.matches(size), &want, text);
        let copy = query.copy(rt.alloc())?;
        same(&rt, &copy.matches(size), &want, text);
    }
    Ok(())
}

#[test]
fn lists_are_printed(rt: HostRuntime) -> Result<(), Fail> {
    for (text, want) in PRINTED {
        let query = parsed(rt.alloc(), text.as_bytes())?;
        let mut out = Vec::new(rt.alloc());
        query.push_text(&mut out)?;
        same_bytes(&rt, out.as_slice(), want.as_bytes(), text);
    }
    Ok(())
}
