//! Scripts with their verdicts, and the lines that are to blame.

use crate::common::script_of;
use crate::same::same;
use loop_lint::{Law, Verdict, blame, lint};
use std::alloc::Global;
use std::process::Abort;
use std::test::Fail;

/// A script, and for each law the line that it is broken at.
const ROWS: [(&str, Option<u32>, Option<u32>); 9] = [
    (
        "script 1\nblock r top\nappend top r\nro o top -\nro-observe o r content\ntick 0\n",
        None,
        None,
    ),
    // a handler makes a deeper element higher
    (
        "script 1\nhandler more\ngrow c height 1px\nend\nro o top more\n",
        None,
        Some(3),
    ),
    // a handler doubles the device pixels of a pixel, which moves nothing
    (
        "script 2\nhandler h\nratio 200%\nend\nblock r top\nappend top r\nro o top h\nro-observe o r device\ntick 0\n",
        None,
        Some(3),
    ),
    // two handlers move each other's target
    (
        "script 1\nhandler ha\ngrow x height 1px\nremove y\nend\nhandler hb\nappend z y\nend\nro a top ha\nro b top hb\n",
        Some(4),
        Some(3),
    ),
    // a handler that no resize observer has
    (
        "script 1\nhandler move\nremove y\nend\ntimer top t 10 move\nlisten r scroll move\nio w top move root - margin threshold 0\n",
        None,
        None,
    ),
    // deep inside blocks
    (
        "script 1\nhandler deep\nsay one\neach\nwhen not attached r\nsay two\neach\nbefore r a b\nend\nend\nend\nset r width 1px\nend\nro o top deep\n",
        Some(8),
        Some(8),
    ),
    // named by an `ro` that stands deep inside another handler, and before it
    (
        "script 1\nhandler move\nappend r a\nend\nhandler make\neach\nwhen attached r\nro o top move\nend\nend\nend\n",
        Some(3),
        Some(3),
    ),
    // an observation made in a loop handler, which alone isn't quiet
    (
        "script 1\nhandler again\nro-unobserve o r\nro-disconnect o\nio-observe w r\nscroll r 0px 10px\nblock b top\nro-observe o r border\nend\nro o top again\n",
        None,
        Some(8),
    ),
    // all that a quiet handler may hold
    (
        "script 1\nhandler calm\nblock b top\nimage i top 1px 1px\nframe f top inner\nro p top calm\nio w top - root - margin threshold\nlisten r scroll calm\nunlisten r scroll calm\nmedia q top all\nraf top k calm\ntimer top k 1 calm\npost top calm\nsay word\nread r\nend\nro o top calm\n",
        None,
        None,
    ),
];

fn see_row(
    rt: &impl Abort,
    alloc: Global,
    text: &str,
    steady: Option<u32>,
    quiet: Option<u32>,
) -> Result<(), Fail> {
    let script = script_of(alloc, text.as_bytes())?;
    assert_eq!(rt; blame(&script, Law::Steady), steady, "{text}");
    assert_eq!(rt; blame(&script, Law::Quiet), quiet, "{text}");
    let wanted = Verdict {
        steady: steady.is_none(),
        quiet: quiet.is_none(),
    };
    assert_eq!(rt; lint(&script), wanted, "{text}");
    Ok(())
}

#[test]
fn scripts_are_certified_by_their_loop_handlers(rt: HostRuntime) -> Result<(), Fail> {
    for (text, steady, quiet) in ROWS {
        see_row(&rt, rt.alloc(), text, steady, quiet)?;
    }
    Ok(())
}
