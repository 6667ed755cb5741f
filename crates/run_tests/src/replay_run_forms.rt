//! The forms of words, with what they give, and other words.

use crate::replay_run_scripts::{GROWING, PAGE};
use crate::replay_run_tests::{Answer, WHOLE, replayed};
use crate::same::{same, same_bytes};
use replay_run::Status;
use std::alloc::{AllocError, Global};
use std::process::Abort;
use std::test::Fail;

/// Words, the text of the source, and the status and the text that they give.
const FORMS: [(&[&str], &str, Status, &str); 14] = [
    (&["--check"], PAGE, Status::Done, "ok 5\n"),
    (&["--check"], "", Status::Syntax, "syntax 1 1\n"),
    (
        &["--check"],
        "script 1\nhandler h\neach\nwhen seen\nsay a\nend\nend\nend\ntick 0\n",
        Status::Done,
        "ok 4\n",
    ),
    (&["--lint"], PAGE, Status::Done, "steady\nquiet\n"),
    // a handler makes a deeper element higher
    (
        &["--lint"],
        "script 1\nhandler more\ngrow c height 1px\nend\nro o top more\n",
        Status::Done,
        "steady\nunquiet 3\n",
    ),
    // two handlers move each other's target
    (
        &["--lint"],
        "script 1\nhandler ha\ngrow x height 1px\nremove y\nend\nhandler hb\nappend z y\nend\nro a top ha\nro b top hb\n",
        Status::Done,
        "unsteady 4\nunquiet 3\n",
    ),
    (
        &["--lint"],
        "script 1\nsay 5\n",
        Status::Syntax,
        "syntax 2 5\n",
    ),
    (
        &["--summary"],
        "script 1\nsay tick\nsay throw\nremove say\n",
        Status::Done,
        "tick 0\ntimer 0\nframe 0\ntask 0\nevent 0\nresize 0\nround 0\nintersect 0\ntake 0\nsay 2\nread 0\nthrow 1\nlimit 0\nsyntax 0\n",
    ),
    (
        &["--summary"],
        "script 1\nsay 5\n",
        Status::Syntax,
        "syntax 2 5\n",
    ),
    (
        &["--judge"],
        "script 1\nsay tick\ntrace\nsay tick\n",
        Status::Done,
        "equal 1\n",
    ),
    (
        &["--judge"],
        "script 1\nsay tick\ntrace\nsay tack\n",
        Status::Differs,
        "differs 1 text 6\n",
    ),
    (
        &["--generate", "0"],
        "no script",
        Status::Done,
        "script 1\nhandler show\neach\nwhen seen\nload $target 80px 60px\nio-unobserve lazy $target\nend\nend\nend\nblock r top\nappend top r\nro fit top -\nro-observe fit r content\nio lazy top show root - margin 200px threshold 0\nblock c0 top\nset c0 height 100px\nappend r c0\nimage g0 top 0px 0px\nappend c0 g0\nblock t0 top\nset t0 height 20px\nappend c0 t0\nio-observe lazy g0\ntick 0\nscroll top 0px 1000px\ntick 16\nscroll top 0px 5000px\ntick 32\nscroll top 0px 20000px\ntick 48\nscroll top 0px 60000px\ntick 64\n",
    ),
    (
        &["--generate-run", "9"],
        "no script",
        Status::Done,
        "tick 5\ntimer 0\nframe 0\ntask 0\nevent 1\nresize 1\nround 1\nintersect 11\ntake 0\nsay 0\nread 0\nthrow 0\nlimit 0\nsyntax 0\n",
    ),
    (
        &["--generate-run", "24"],
        "no script",
        Status::Done,
        "tick 5\ntimer 0\nframe 0\ntask 0\nevent 2\nresize 1\nround 1\nintersect 41\ntake 0\nsay 0\nread 0\nthrow 0\nlimit 0\nsyntax 0\n",
    ),
];

/// The summary of a script that grows what it observes, in two ticks.
const GROWING_SUMMARY: &str =
    "tick 2\ntimer 0\nframe 0\ntask 0\nevent 2\nresize 6\nround 4\nintersect 0\ntake 0\nsay 0\nread 0\nthrow 0\nlimit 0\nsyntax 0\n";

/// Words that are of none of the forms: in another order, with other numbers, too many.
const OTHERS: [&[&str]; 20] = [
    &[""],
    &["--check", "x"],
    &["--check", ""],
    &["--check", "--summary"],
    &["--lint", "x"],
    &["--Lint"],
    &["--judge", "x"],
    &["--judged"],
    &["--summary", "1"],
    &["--Check"],
    &["--check "],
    &["--ch\u{e9}ck"],
    &["--generate"],
    &["1", "--generate"],
    &["--generate", "1000001"],
    &["--generate", "01"],
    &["--generate", "+1"],
    &["--generate", "-1"],
    &["--generate-run", ""],
    &["--generate-run", "1", "1"],
];

fn answered(alloc: Global, words: &[&str], text: &str) -> Result<Answer, AllocError> {
    let mut owned = Vec::new(alloc);
    for word in words {
        owned.push(String::from_str(alloc, word)?)?;
    }
    replayed(alloc, &owned, text.as_bytes(), WHOLE)
}

fn see_form(
    rt: &impl Abort,
    alloc: Global,
    words: &[&str],
    text: &str,
    status: Status,
    told: &str,
) -> Result<(), Fail> {
    let it = answered(alloc, words, text)?;
    same(rt, &it.status, &status, told);
    same_bytes(rt, it.sink.taken(), told.as_bytes(), told);
    Ok(())
}

#[test]
fn each_form_gives_its_text(rt: HostRuntime) -> Result<(), Fail> {
    for (words, text, status, told) in FORMS {
        see_form(&rt, rt.alloc(), words, text, status, told)?;
    }
    Ok(())
}

#[test]
fn a_summary_counts_the_lines_of_the_trace(rt: HostRuntime) -> Result<(), Fail> {
    let (text, _told) = GROWING;
    let words = ["--summary"];
    see_form(&rt, rt.alloc(), &words, text, Status::Done, GROWING_SUMMARY)
}

#[test]
fn other_words_are_refused(rt: HostRuntime) -> Result<(), Fail> {
    for words in OTHERS {
        see_form(&rt, rt.alloc(), words, PAGE, Status::Usage, "")?;
    }
    Ok(())
}

/// The words of a run, and whether a page is handed out.
const PAGES: [(&[&str], bool); 6] = [
    (&["--summary"], true),
    (&["--generate-run", "0"], true),
    (&["--check"], false),
    (&["--lint"], false),
    (&["--judge"], false),
    (&["--generate", "0"], false),
];

#[test]
fn a_page_is_handed_out_where_a_script_was_run(rt: HostRuntime) -> Result<(), Fail> {
    for (words, has_page) in PAGES {
        let it = answered(rt.alloc(), words, PAGE)?;
        same(&rt, &it.has_page, &has_page, "whether a page is handed out");
    }
    Ok(())
}
