//! Several pages in one stream, with what an independent program gives for them.

use crate::replay_run_tests::{Answer, WHOLE, replayed};
use crate::same::{same, same_bytes};
use replay_run::Status;
use std::alloc::{AllocError, Global};
use std::process::Abort;
use std::test::Fail;

/// Streams, and the status and the text that they give.
const STREAMS: [(&str, Status, &str); 10] = [
    // two pages in turn
    (
        "page a\nscript 1\npage b\nscript 1\npage a\nblock r top\nappend top r\ntick 5\npage b\nremove z\ntick 3\npage a\ntick 9\n",
        Status::Done,
        "a tick 5\nb throw 2 ReferenceError\nb tick 3\na tick 9\n",
    ),
    // a script that is refused while another page runs
    (
        "page a\nscript 1\nbad\npage b\nscript 1\ntick 0\n",
        Status::Syntax,
        "a syntax 2 1\nb tick 0\n",
    ),
    // no page line first
    ("tick 0\n", Status::Syntax, "syntax 1 1\n"),
    // nothing
    ("", Status::Syntax, "syntax 1 1\n"),
    // a ninth page
    (
        "page a\npage b\npage c\npage d\npage e\npage f\npage g\npage h\npage a\nscript 1\npage i\n",
        Status::Limit,
        "limit pages 11 8\n",
    ),
    // almost a page line, and one that comes again
    (
        "page a\nscript 1\ntick 0\npage  b\npage b\nscript 1\r\ntick 1\npage a\n",
        Status::Syntax,
        "a syntax 3 1\nb tick 1\n",
    ),
    // a page without lines, and a carriage return at the end
    (
        "page a\npage b\nscript 1\ntick 0\npage c\r",
        Status::Syntax,
        "a syntax 1 1\nb syntax 3 7\n",
    ),
    // pages of both versions
    (
        "page a\nscript 2\npage b\nscript 1\npage a\nblock r top\nset r width 10.5px\nappend top r\nratio 150%\nro o top -\nro-observe o r device\npage b\nblock r top\nappend top r\nro o top -\nro-observe o r content\npage a\ntick 0\npage b\ntick 0\n",
        Status::Done,
        "a tick 0\na resize o r rect 0 0 10.5 0 border 10.5 0 device 16 0\na round top 1\nb tick 0\nb resize o r rect 0 0 800 0 border 800 0\nb round top 1\n",
    ),
    // a command of the second version in a page of the first
    (
        "page a\nscript 2\npage b\nscript 1\npage a\nratio 150%\npage b\nratio 150%\npage a\nblock r top\nappend top r\nro o top -\nro-observe o r content\ntick 0\n",
        Status::Syntax,
        "b syntax 2 1\na tick 0\na resize o r rect 0 0 800 0 border 800 0 device 1200 0\na round top 1\n",
    ),
    // a limit that one page meets
    (
        "page a\nscript 1\nframe f0 top d0\nframe f1 top d1\nframe f2 top d2\nframe f3 top d3\nframe f4 top d4\nframe f5 top d5\nframe f6 top d6\nframe f7 top d7\nframe f8 top d8\nframe f9 top d9\nframe f10 top d10\nframe f11 top d11\nframe f12 top d12\nframe f13 top d13\nframe f14 top d14\nframe f15 top d15\nframe f16 top d16\nframe f17 top d17\nframe f18 top d18\nframe f19 top d19\nframe f20 top d20\nframe f21 top d21\nframe f22 top d22\nframe f23 top d23\nframe f24 top d24\nframe f25 top d25\nframe f26 top d26\nframe f27 top d27\nframe f28 top d28\nframe f29 top d29\nframe f30 top d30\nframe f31 top d31\nframe f32 top d32\nframe f33 top d33\nframe f34 top d34\nframe f35 top d35\nframe f36 top d36\nframe f37 top d37\nframe f38 top d38\nframe f39 top d39\nframe f40 top d40\nframe f41 top d41\nframe f42 top d42\nframe f43 top d43\nframe f44 top d44\nframe f45 top d45\nframe f46 top d46\nframe f47 top d47\nframe f48 top d48\nframe f49 top d49\nframe f50 top d50\nframe f51 top d51\nframe f52 top d52\nframe f53 top d53\nframe f54 top d54\nframe f55 top d55\nframe f56 top d56\nframe f57 top d57\nframe f58 top d58\nframe f59 top d59\nframe f60 top d60\nframe f61 top d61\nframe f62 top d62\nframe f63 top d63\npage b\nscript 1\ntick 0\npage a\ntick 0\npage b\ntick 1\n",
        Status::Limit,
        "a limit documents 65 64\nb tick 0\nb tick 1\n",
    ),
];

fn run_side_by_side(alloc: Global, text: &[u8]) -> Result<Answer, AllocError> {
    let mut words = Vec::new(alloc);
    words.push(String::from_str(alloc, "--pages")?)?;
    replayed(alloc, &words, text, WHOLE)
}

fn see_stream(
    rt: &impl Abort,
    alloc: Global,
    text: &str,
    status: Status,
    told: &str,
) -> Result<(), Fail> {
    let it = run_side_by_side(alloc, text.as_bytes())?;
    same(rt, &it.status, &status, told);
    same_bytes(rt, it.sink.taken(), told.as_bytes(), told);
    assert!(rt; !it.has_page);
    Ok(())
}

#[test]
fn pages_run_side_by_side(rt: HostRuntime) -> Result<(), Fail> {
    for (text, status, told) in STREAMS {
        see_stream(&rt, rt.alloc(), text, status, told)?;
    }
    Ok(())
}

/// One more than the bytes that a stream may have, by the limit `script`.
const TOO_LONG: usize = 16_777_217;

#[test]
fn a_stream_that_is_too_long_is_refused(rt: HostRuntime) -> Result<(), Fail> {
    let mut text = Vec::from_slice(rt.alloc(), b"page a\nscript 1\n")?;
    text.resize(TOO_LONG, b' ')?;
    let it = run_side_by_side(rt.alloc(), &text)?;
    same(&rt, &it.status, &Status::Limit, "a script too long");
    same_bytes(
        &rt,
        it.sink.taken(),
        b"limit script 3 16777216\n".as_slice(),
        "a script too long",
    );
    Ok(())
}
