//! What is seen of a page as one of its script's ticks ends: its boxes, and what a point hits.

use crate::replay_run_tests::{WHOLE, replayed};
use crate::same::{same, same_bytes};
use replay_run::Status;
use std::alloc::Global;
use std::process::Abort;
use std::test::Fail;

/// A scroll container with a block that is higher than it, and one of ten pixels behind that one, which is seen once it is scrolled.
const SCROLLED: &str =
    "script 1\nblock r top\nappend top r\nblock s top\nset s height 100px\nset s overflow hidden\nappend r s\nblock u top\nset u height 300px\nappend s u\nblock t top\nset t height 10px\nappend s t\nio i top - root - margin threshold 0\nio-observe i t\ntick 0\nscroll s 0px 250px\ntick 16\n";

/// A document in a frame of 100 by 50 pixels, which stands 10 pixels from the left and the top and has a block of 60 pixels.
const FRAMED: &str =
    "script 1\nblock r top\nset r padding 10px\nappend top r\nframe f top d\nset f width 100px\nset f height 50px\nappend r f\nblock b d\nset b height 60px\nappend d b\ntick 0\n";

/// A tick that throws, since the clock doesn't go back, and two others.
const THROWN: &str =
    "script 1\nblock r top\nset r height 5px\nappend top r\ntick 5\ntick 0\nset r height 6px\ntick 9\n";

/// An observer with a scroll margin, for which alone a clip is moved: what is seen of a box is cut by the clips as they are.
const MOVED: &str =
    "script 2\nblock r top\nappend top r\nblock s top\nset s height 100px\nset s overflow hidden\nappend r s\nblock u top\nset u height 130px\nappend s u\nblock t top\nset t height 10px\nappend s t\nio i top - root - margin scroll 60px threshold 0\nio j top - root - margin threshold 0\nio-observe i t\nio-observe j t\ntick 0\n";

/// Words, the text of the source, and the status and the text that they give.
const SIGHTS: [(&[&str], &str, Status, &str); 17] = [
    (
        &["--inspect", "1"],
        MOVED,
        Status::Done,
        "box r 1 0 0 800 100 seen 0 0 800 100\nbox s 2 0 0 800 100 seen 0 0 800 100\nbox u 3 0 0 800 130 seen 0 0 800 100\nbox t 3 0 130 800 10 hidden\n",
    ),
    (
        &["--hit", "1", "5px", "135px"],
        MOVED,
        Status::Done,
        "miss\n",
    ),
    (
        &["--inspect", "2"],
        SCROLLED,
        Status::Done,
        "box r 1 0 0 800 100 seen 0 0 800 100\nbox s 2 0 0 800 100 seen 0 0 800 100\nbox u 3 0 -210 800 300 seen 0 0 800 90\nbox t 3 0 90 800 10 seen 0 90 800 10\n",
    ),
    (
        &["--inspect", "1"],
        SCROLLED,
        Status::Done,
        "box r 1 0 0 800 100 seen 0 0 800 100\nbox s 2 0 0 800 100 seen 0 0 800 100\nbox u 3 0 0 800 300 seen 0 0 800 100\nbox t 3 0 300 800 10 hidden\n",
    ),
    (
        &["--hit", "2", "5px", "95px"],
        SCROLLED,
        Status::Done,
        "hit t\nhit s\nhit r\n",
    ),
    (
        &["--hit", "1", "5px", "305px"],
        SCROLLED,
        Status::Done,
        "miss\n",
    ),
    // the left and top edges of a box belong to it, the right and bottom ones don't
    (
        &["--hit", "2", "0px", "90px"],
        SCROLLED,
        Status::Done,
        "hit t\nhit s\nhit r\n",
    ),
    (
        &["--hit", "2", "5px", "100px"],
        SCROLLED,
        Status::Done,
        "miss\n",
    ),
    (
        &["--hit", "2", "-0.5px", "95px"],
        SCROLLED,
        Status::Done,
        "miss\n",
    ),
    (&["--inspect", "3"], SCROLLED, Status::Done, "ticks 2\n"),
    (
        &["--hit", "1000000", "5px", "95px"],
        SCROLLED,
        Status::Done,
        "ticks 2\n",
    ),
    (
        &["--inspect", "1"],
        FRAMED,
        Status::Done,
        "box r 1 0 0 800 70 seen 0 0 800 70\nbox f 2 10 10 100 50 seen 10 10 100 50\nbox b 1 0 0 100 60 seen 0 0 100 50\n",
    ),
    (
        &["--hit", "1", "15px", "15px"],
        FRAMED,
        Status::Done,
        "hit b\nhit f\nhit r\n",
    ),
    (
        &["--inspect", "2"],
        THROWN,
        Status::Done,
        "box r 1 0 0 800 5 seen 0 0 800 5\n",
    ),
    (
        &["--inspect", "1"],
        "script 1\nsay 5\n",
        Status::Syntax,
        "syntax 2 5\n",
    ),
    (
        &["--hit", "2", "5px", "5px"],
        "",
        Status::Syntax,
        "syntax 1 1\n",
    ),
    (&["--inspect", "1"], "script 1\n", Status::Done, "ticks 0\n"),
];

/// Words that are of none of the forms.
const OTHERS: [&[&str]; 14] = [
    &["--inspect"],
    &["--inspect", "0"],
    &["--inspect", "01"],
    &["--inspect", "1000001"],
    &["--inspect", "1", "1"],
    &["--Inspect", "1"],
    &["--hit"],
    &["--hit", "1"],
    &["--hit", "1", "5px"],
    &["--hit", "0", "5px", "5px"],
    &["--hit", "1", "5", "5px"],
    &["--hit", "1", "5px", "+5px"],
    &["--hit", "1", "5px", "1000000.01px"],
    &["--hit", "1", "5px", "5px", "5px"],
];

fn see(
    rt: &impl Abort,
    alloc: Global,
    words: &[&str],
    text: &str,
    status: Status,
    told: &str,
) -> Result<(), Fail> {
    let mut owned = Vec::new(alloc);
    for word in words {
        owned.push(String::from_str(alloc, word)?)?;
    }
    let it = replayed(alloc, &owned, text.as_bytes(), WHOLE)?;
    same(rt, &it.status, &status, told);
    same_bytes(rt, it.sink.taken(), told.as_bytes(), told);
    assert!(rt; !it.has_page, "{told}");
    Ok(())
}

#[test]
fn what_is_seen_is_told(rt: HostRuntime) -> Result<(), Fail> {
    for (words, text, status, told) in SIGHTS {
        see(&rt, rt.alloc(), words, text, status, told)?;
    }
    Ok(())
}

#[test]
fn other_words_than_those_of_sights_are_refused(rt: HostRuntime) -> Result<(), Fail> {
    for words in OTHERS {
        see(&rt, rt.alloc(), words, SCROLLED, Status::Usage, "")?;
    }
    Ok(())
}
