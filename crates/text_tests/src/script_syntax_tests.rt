//! Texts that are scripts, or have a first fault or limit, and the items of a script.

use crate::same::{same, same_bytes};
use crate::scripts::script_of;
use script_syntax::{Action, Command, Item, MarginText, ParseFault, Script, What};
use std::alloc::{AllocError, Global};
use std::process::Abort;
use std::test::Fail;
use text_io::{LimitKind, Name, Version};

/// What comes of a text.
#[derive(Clone, Copy, Debug, PartialEq, Eq)]
enum Outcome {
    Script,
    Syntax(u32, u32),
    Limit(LimitKind, u32),
}

use Outcome::{Limit, Syntax};

const EVERY_COMMAND: &str = "script 1
viewport 800px 600px
block a top
image i top 80px 60.5px
frame f top inner
append top a
before a i f
remove i
set a margin-left 12.5%
grow a width -1px
load i 1px 2px
ro r top -
ro-observe r a border
ro-unobserve r a
ro-disconnect r
io o top show root - margin 10px 5% threshold 0 0.25 -1
io-observe o $target
io-unobserve o a
io-disconnect o
io-take o
listen @top scroll show
unlisten q change show
media q top not screen and (min-width: 10px), (width: 1px) or (height: 1px)
scroll top 0px -5px
scroll-by top 0px 5px
raf top k show
cancel-raf top k
timer top k 1000 show
clear-timer top k
post top show
say hello
read top
tick 1000000000000
handler show # the page calls it
each
when not seen
say in
end

end
end
when wider a 1px
end
when matches q
end
handler hide
end
";

const NESTED: &str = "script 1
handler h
each
each
each
each
each
each
each
each
each
each
each
each
each
each
each
each
each
";

/// A list of queries between words and a comment.
const QUERIES: &str = "script 1\nmedia q top  all\t, print # both\n";

/// What the second version has alone.
const SECOND_VERSION: &str = "script 2
ratio 150.25%
ro-observe r a device
io o top - root - margin 1px scroll 2px 5% threshold 0
io p top - root - margin scroll threshold
io q top - root - margin 1px threshold
scroll top 0px 1px
";

/// The positioned properties, which the second version has alone, with values at the ends of their ranges.
const POSITIONED: &str = "script 2
set a position static
set a position relative
set a position absolute
set a position fixed
set a top auto
set a top 1000000px
set a right -1000000px
set a bottom 10000%
set a left -10000%
set a top -0px
set a right -0%
";

const TEXTS: [(&str, Outcome); 50] = [
    ("", Syntax(1, 1)),
    ("# nothing\n\n", Syntax(3, 1)),
    ("script 1", Outcome::Script),
    ("script 3\n", Syntax(1, 8)),
    ("script 02\n", Syntax(1, 8)),
    ("script 2 1\n", Syntax(1, 10)),
    ("\n script\n", Syntax(2, 8)),
    ("scrip 1\n", Syntax(1, 1)),
    ("script 1 1\n", Syntax(1, 10)),
    ("script 1\nwhen wider a 5", Syntax(2, 14)),
    ("script 1\nmedia m top (width: 5)", Syntax(2, 22)),
    ("script 1\nset a colour red", Syntax(2, 7)),
    ("script 1\nset a width", Syntax(2, 12)),
    ("script 1\nset a width red", Syntax(2, 13)),
    ("script 1\nhandler h\ntick 0\nend", Syntax(3, 1)),
    ("script 1\nhandler h", Syntax(3, 1)),
    ("script 1\nhandler h\nend\nhandler h\nend\n", Syntax(4, 9)),
    ("script 1\nhandler h\nhandler i\nend\nend\n", Syntax(3, 1)),
    ("script 1\nend\n", Syntax(2, 1)),
    ("script 1\nappend a\n", Syntax(2, 9)),
    ("script 1\nappend a b c\n", Syntax(2, 12)),
    ("script 1\nwhen not not seen\nend\n", Syntax(2, 10)),
    (
        "script 1\nio o top - root - margin 1px thresholds 0\n",
        Syntax(2, 42),
    ),
    ("script 1\nsay a\x01\nsay 1\n", Syntax(2, 6)),
    ("script 1\nsay 1\nsay a\x01\n", Syntax(2, 5)),
    (EVERY_COMMAND, Outcome::Script),
    (SECOND_VERSION, Outcome::Script),
    ("script 1\nratio 150%\n", Syntax(2, 1)),
    ("script 2\nratio 150\n", Syntax(2, 7)),
    ("script 2\nratio 10000.01%\n", Syntax(2, 7)),
    ("script 2\nratio 100% 1\n", Syntax(2, 12)),
    ("script 1\nro-observe r a device\n", Syntax(2, 16)),
    // in the first version `scroll` is a word of the margin
    (
        "script 1\nio o top - root - margin 1px scroll 2px threshold 0\n",
        Outcome::Script,
    ),
    (
        "script 2\nio o top - root - margin 1px scroll 2px scroll 3px threshold\n",
        Syntax(2, 41),
    ),
    (
        "script 2\nio o top - root - margin 1px scroll 2px\n",
        Syntax(2, 40),
    ),
    (POSITIONED, Outcome::Script),
    ("script 1\nset a position static\n", Syntax(2, 7)),
    ("script 1\nset a top auto\n", Syntax(2, 7)),
    ("script 1\nset a right 1\n", Syntax(2, 7)),
    ("script 1\nset a bottom", Syntax(2, 7)),
    ("script 1\nset a left -1px\n", Syntax(2, 7)),
    ("script 2\nset a bottom", Syntax(2, 13)),
    ("script 2\nset a position sticky\n", Syntax(2, 16)),
    ("script 2\nset a top 1000000.01px\n", Syntax(2, 11)),
    ("script 2\nset a top -1000000.01px\n", Syntax(2, 11)),
    ("script 2\nset a left 10000.01%\n", Syntax(2, 12)),
    ("script 2\nset a left -10000.01%\n", Syntax(2, 12)),
    ("script 2\nset a right --1px\n", Syntax(2, 13)),
    ("script 2\nset a width -1px\n", Syntax(2, 13)),
    (NESTED, Limit(LimitKind::Nesting, 19)),
];

fn outcome_of(rt: &impl Abort, alloc: Global, text: &str) -> Result<Outcome, AllocError> {
    match script_of(rt, alloc, text) {
        Ok(_) => Ok(Outcome::Script),
        Err(ParseFault::Syntax { line, column }) => Ok(Syntax(line, column)),
        Err(ParseFault::ScriptLimit { kind, line }) => Ok(Limit(kind, line)),
        Err(ParseFault::Memory) => Err(AllocError),
    }
}

#[test]
fn texts_are_scripts_or_have_a_first_fault(rt: HostRuntime) -> Result<(), Fail> {
    for (text, want) in TEXTS {
        let outcome = outcome_of(&rt, rt.alloc(), text)?;
        same(&rt, &outcome, &want, text);
    }
    Ok(())
}

/// The line that an item begins on.
fn line_of(item: &Item) -> u32 {
    match item {
        Item::Command(command) => command.line,
        Item::Tick { line, .. } => *line,
        Item::Handler(handler) => handler.line,
    }
}

// Of `EVERY_COMMAND`: its lines 2 to 33, the handler on line 34, which holds an `each`, a `when` on the lines 42 and 44 each, and the empty
// handler on line 46.
fn see_items(rt: &impl Abort, script: &Script) {
    same(rt, &script.items().len(), &36, "items");
    same(
        rt,
        &script.items().last().map(line_of),
        &Some(46),
        "the line of the last item",
    );
    same(rt, &script.handlers(), &2, "handlers");
    same(
        rt,
        &script.handler(0).map(|it| it.line),
        &Some(34),
        "the line of the first handler",
    );
    same(
        rt,
        &script.handler(0).map(|it| it.commands.as_slice().len()),
        &Some(1),
        "its commands",
    );
    same(
        rt,
        &script.handler(1).map(|it| it.line),
        &Some(46),
        "the line of the second handler",
    );
    same(
        rt,
        &script.handler(2).map(|it| it.line),
        &None,
        "no third handler",
    );
}

fn see_name(rt: &impl Abort, script: &Script, text: &str, number: Option<u32>) {
    match Name::read(text.as_bytes()) {
        Some(name) => same(rt, &script.handler_named(name), &number, text),
        None => assert!(rt; false, "{text}"),
    }
}

#[test]
fn a_script_has_its_items_and_handlers(rt: HostRuntime) -> Result<(), Fail> {
    let script = script_of(&rt, rt.alloc(), EVERY_COMMAND)?;
    see_items(&rt, &script);
    see_name(&rt, &script, "show", Some(0));
    see_name(&rt, &script, "hide", Some(1));
    see_name(&rt, &script, "end", None);
    Ok(())
}

#[test]
fn a_script_has_its_version(rt: HostRuntime) -> Result<(), Fail> {
    let first = script_of(&rt, rt.alloc(), "script 1\n")?;
    same(&rt, &first.version(), &Version::First, "version 1");
    let second = script_of(&rt, rt.alloc(), SECOND_VERSION)?;
    same(&rt, &second.version(), &Version::Second, "version 2");
    Ok(())
}

/// The bytes of a margin, and of a scroll margin that was given.
fn margins_of(item: &Item) -> Option<(&[u8], Option<&[u8]>)> {
    match item {
        Item::Command(
            Command {
                what: What::Act(Action::Io(making)),
                ..
            },
        ) => Some((
            making.margin.as_slice(),
            making.scroll.as_ref().map(MarginText::as_slice),
        )),
        _ => None,
    }
}

fn see_margins(rt: &impl Abort, script: &Script, place: usize, margin: &str, scroll: Option<&str>) {
    let margins = script.items().get(place).and_then(margins_of);
    assert!(rt;
        margins == Some((margin.as_bytes(), scroll.map(str::as_bytes))),
        "{margin}"
    );
}

#[test]
fn observers_have_their_margins(rt: HostRuntime) -> Result<(), Fail> {
    let script = script_of(&rt, rt.alloc(), SECOND_VERSION)?;
    see_margins(&rt, &script, 2, "1px", Some("2px 5%"));
    see_margins(&rt, &script, 3, "", Some(""));
    see_margins(&rt, &script, 4, "1px", None);
    Ok(())
}

/// Appends the list of queries of an item that has one.
fn push_queries(item: &Item, out: &mut Vec<u8>) -> Result<(), AllocError> {
    if let Item::Command(command) = item {
        if let What::Act(Action::Media { query, .. }) = &command.what {
            query.push_text(out)?;
        }
    }
    Ok(())
}

#[test]
fn a_query_has_its_place_in_the_line(rt: HostRuntime) -> Result<(), Fail> {
    let mut out = Vec::new(rt.alloc());
    let script = script_of(&rt, rt.alloc(), QUERIES)?;
    for item in script.items() {
        push_queries(item, &mut out)?;
    }
    same_bytes(
        &rt,
        out.as_slice(),
        b"all,print".as_slice(),
        "the list of queries",
    );
    Ok(())
}
