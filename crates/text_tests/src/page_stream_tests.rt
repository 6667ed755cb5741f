//! Streams split into their pages, and sources that are none.

use crate::same::{same, same_bytes};
use page_stream::{Part, StreamFault, split};
use std::test::Fail;

/// The limit `pages` of `docs/SCRIPT.md`.
const MOST_PAGES: usize = 8;

/// Two pages in turn, of which the first comes back.
const STREAM: &[u8] = b"page a\nscript 1\npage b\r\nscript 1\nremove z\npage a\ntick 0\n";

/// The parts of that stream: the line, the page and the place of each.
const PARTS: [Part; 4] = [
    Part {
        line: 1,
        page: 0,
        from: 7,
        to: 16,
    },
    Part {
        line: 1,
        page: 1,
        from: 24,
        to: 33,
    },
    Part {
        line: 2,
        page: 1,
        from: 33,
        to: 42,
    },
    Part {
        line: 2,
        page: 0,
        from: 49,
        to: 56,
    },
];

/// Sources with the script of their first page: of lines that are almost page lines, and of a page without lines.
const FIRST_SCRIPTS: [(&[u8], &[u8]); 8] = [
    (STREAM, b"script 1\ntick 0\n"),
    (
        b"page a\npage  a\npage\nPage a\npage a b\n page a\n",
        b"page  a\npage\nPage a\npage a b\n page a\n",
    ),
    (
        b"page a\npage 5\npage -\npage a \n",
        b"page 5\npage -\npage a \n",
    ),
    (b"page a\ntick 0\npage b\r", b"tick 0\npage b\r"),
    (b"page a\npage b\r\r\ntick 0", b"page b\r\r\ntick 0"),
    (b"page a", b""),
    (b"page a\npage b\ntick 0\npage a\npage a", b""),
    (b"page a\r\n\n\r\n", b"\n\r\n"),
];

/// Nine pages, of which the ninth is named first on line 11.
const NINE: &[u8] =
    b"page a\npage b\npage c\npage d\npage e\npage a\npage f\ntick 0\npage g\npage h\npage i\npage j\n";

/// Sources whose first line isn't a page line.
const NO_STREAMS: [&[u8]; 9] = [
    b"",
    b"\n",
    b"tick 0\n",
    b"\npage a\n",
    b"# a comment\npage a\n",
    b"page  a\n",
    b"page a\r",
    b"page 1\n",
    b"page abcdefghijklmnopqrstuvwxyz0123456\n",
];

#[test]
fn pages_and_parts_of_a_stream(rt: HostRuntime) -> Result<(), Fail> {
    let stream = split(rt.alloc(), STREAM, MOST_PAGES)?;
    let names: [&[u8]; 2] = [b"a", b"b"];
    assert_eq!(&rt; stream.pages().len(), names.len());
    for (page, name) in stream.pages().iter().zip(names.iter()) {
        assert_eq!(&rt; page.bytes(), *name);
    }
    assert_eq!(&rt; stream.parts(), PARTS.as_slice());
    assert_eq!(&rt;
        stream.script(rt.alloc(), 1)?.as_slice(),
        b"script 1\nremove z\n".as_slice()
    );
    Ok(())
}

#[test]
fn scripts_of_first_pages(rt: HostRuntime) -> Result<(), Fail> {
    for (source, script) in FIRST_SCRIPTS.iter() {
        let stream = split(rt.alloc(), source, MOST_PAGES)?;
        assert!(rt; !stream.pages().is_empty());
        if !stream.pages().is_empty() {
            same_bytes(
                &rt,
                stream.script(rt.alloc(), 0)?.as_slice(),
                script,
                "the first script",
            );
        }
    }
    Ok(())
}

#[test]
fn a_page_too_many(rt: HostRuntime) -> Result<(), Fail> {
    same(
        &rt,
        &split(rt.alloc(), NINE, MOST_PAGES).err(),
        &Some(StreamFault::TooManyPages { line: 11 }),
        "nine pages of eight",
    );
    same(
        &rt,
        &split(rt.alloc(), NINE, 10)?.pages().len(),
        &10,
        "nine pages of ten",
    );
    same(
        &rt,
        &split(rt.alloc(), STREAM, 1).err(),
        &Some(StreamFault::TooManyPages { line: 3 }),
        "two pages of one",
    );
    same(
        &rt,
        &split(rt.alloc(), STREAM, 0).err(),
        &Some(StreamFault::TooManyPages { line: 1 }),
        "two pages of none",
    );
    Ok(())
}

#[test]
fn sources_that_are_no_streams(rt: HostRuntime) {
    for source in NO_STREAMS.iter() {
        same(
            &rt,
            &split(rt.alloc(), source, MOST_PAGES).err(),
            &Some(StreamFault::NoPage),
            "a source without a page",
        );
    }
}
