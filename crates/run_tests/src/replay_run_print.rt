//! Scripts in their printed form, and texts that aren't scripts.

use crate::replay_run_tests::{WHOLE, replayed};
use crate::same::{same, same_bytes};
use replay_run::Status;
use std::alloc::Global;
use std::process::Abort;
use std::test::Fail;

/// Texts, and the status and the text that `--print` gives for them.
const PRINTED: [(&str, Status, &str); 5] = [
    (
        "script 1   # a page\n  viewport 800.50px   600px\n",
        Status::Done,
        "script 1\nviewport 800.5px 600px\n",
    ),
    // each line at its line number, but the first one
    (
        "# nothing\n\nscript 1\n\nhandler h\n\nsay a\nend\ntick 5",
        Status::Done,
        "script 1\n\n\n\nhandler h\n\nsay a\nend\ntick 5\n",
    ),
    (
        "script 2\nset a top  -0.50px\nmedia q top ( width : 010px ) ,print\n",
        Status::Done,
        "script 2\nset a top -0.5px\nmedia q top (width:10px),print\n",
    ),
    ("script 1\nsay 5\n", Status::Syntax, "syntax 2 5\n"),
    ("", Status::Syntax, "syntax 1 1\n"),
];

fn see_printed(
    rt: &impl Abort,
    alloc: Global,
    text: &str,
    status: Status,
    form: &str,
) -> Result<(), Fail> {
    let words = [String::from_str(alloc, "--print")?];
    let it = replayed(alloc, &words, text.as_bytes(), WHOLE)?;
    same(rt, &it.status, &status, text);
    assert!(rt; !it.has_page, "{text}");
    same_bytes(rt, it.sink.taken(), form.as_bytes(), text);
    Ok(())
}

#[test]
fn a_script_is_printed_in_one_form(rt: HostRuntime) -> Result<(), Fail> {
    for (text, status, form) in PRINTED {
        see_printed(&rt, rt.alloc(), text, status, form)?;
    }
    Ok(())
}
