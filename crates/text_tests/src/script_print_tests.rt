//! Scripts in free form with their texts.

use crate::same::same_bytes;
use crate::scripts::script_of;
use script_print::print;
use std::alloc::Global;
use std::process::Abort;
use std::test::Fail;

/// Each kind of word that is printed in another form than it was written in, in one script.
const FREE: &str = "script  1
handler show # the observer calls it
    remove\t$target
end
viewport 1.50px   010px

media q top  not screen  and ( min-width : 1.50px ) ,( orientation:portrait )
set a margin-left 12.50% # wide
io o top show root - margin 1.50px   0 threshold 0.2500 1
tick 16";

const PRINTED: &str = "script 1
handler show
remove $target
end
viewport 1.5px 10px

media q top not screen and (min-width:1.5px),(orientation:portrait)
set a margin-left 12.5%
io o top show root - margin 1.50px 0 threshold 0.25 1
tick 16
";

/// A script in free form, and its text.
const ROWS: [(&str, &str); 9] = [
    (FREE, PRINTED),
    ("script 1", "script 1\n"),
    (
        "script 1\nhandler show\neach\nwhen not seen\nsay out\nend\n\nend\nend\ntick 16",
        "script 1\nhandler show\neach\nwhen not seen\nsay out\nend\n\nend\nend\ntick 16\n",
    ),
    (
        "script 1\nblock a top\ngrow a width -1.0px\nset a max-width none\n",
        "script 1\nblock a top\ngrow a width -1px\nset a max-width none\n",
    ),
    (
        "script 1\nmedia q top not screen and ( min-width : 10px ) , (width:1px) or (height:1px)\n",
        "script 1\nmedia q top not screen and (min-width:10px),(width:1px) or (height:1px)\n",
    ),
    (
        "script 1\nio o top show root - margin 10.0px  5% threshold 0 0.250 -1\nlisten @top scroll show\n",
        "script 1\nio o top show root - margin 10.0px 5% threshold 0 0.25 -1\nlisten @top scroll show\n",
    ),
    (
        "script  2\nratio 012.50%\nro-observe r\ta device",
        "script 2\nratio 12.5%\nro-observe r a device\n",
    ),
    (
        "script 2\nio o top - root - margin scroll 1.50px   5% threshold 0.0\nio p top - root - margin 1px scroll threshold",
        "script 2\nio o top - root - margin scroll 1.50px 5% threshold 0\nio p top - root - margin 1px scroll threshold\n",
    ),
    (
        "script 2\nset a position  fixed\nset a top -0.50px\nset a right -012.50%\nset a bottom -0px\nset a left -0.00%\nset a top auto",
        "script 2\nset a position fixed\nset a top -0.5px\nset a right -12.5%\nset a bottom 0px\nset a left 0%\nset a top auto\n",
    ),
];

fn see_print(rt: &impl Abort, alloc: Global, text: &str, form: &str) -> Result<(), Fail> {
    let script = script_of(rt, alloc, text)?;
    let printed = print(alloc, &script)?;
    same_bytes(rt, printed.as_slice(), form.as_bytes(), text);
    Ok(())
}

#[test]
fn scripts_are_printed_in_their_one_form(rt: HostRuntime) -> Result<(), Fail> {
    for (text, form) in ROWS {
        see_print(&rt, rt.alloc(), text, form)?;
    }
    Ok(())
}
