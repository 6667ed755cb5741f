//! Texts of commands and handlers, run over a sink in memory that may fail.

ghost use Rattle.std.specs.Prelude.{◌≡◌, ◌<◌};
ghost use Rattle.script_syntax.specs.Allowed.{IsAllowed};

use crate::common::{failing, script_of};
use crate::same::{same, same_bytes};
use element_tree::DocumentId;
use event_tables::HandlerId;
use handlers::{Entries, Run, run_command, run_handler};
use page_state::Page;
use script_syntax::{Command, Item, Script};
use std::alloc::{AllocError, Global};
use std::marker::Brand;
use std::process::Abort;
use std::sync::ledger::{Blank, Ledger};
use std::test::Fail;
use step_count::Steps;
use text_io::{LimitKind, MemorySink};
use trace_runs::RunFault;

// Commands outside handlers and in one, with blocks. The lines are those that an independent program writes where the
// handler is posted.
const BLOCKS: &str =
    "script 1\nhandler h\nsay first\nwhen attached b\nsay unattached\nend\nwhen not attached b\nsay detached\neach\nsay never\nend\nappend r b\nend\nwhen attached b\nsay attached\nremove z\nsay unsaid\nend\nsay gone\nend\nblock r top\nappend top r\nblock b top\nsay outside\nwhen attached r\nsay inside\nread r\nremove z\nsay unsaid\nend\neach\nsay never\nend\nset $target width 1px\nsay last\n";

const OUTSIDE: &str =
    "say outside\nsay inside\nread r 0 0 800 0 0 0\nthrow 28 ReferenceError\nthrow 34 ReferenceError\nsay last\n";

const CUT: &str = "say outside\nsay inside\n";

const BLOCKS_TOLD: &str =
    "say outside\nsay inside\nread r 0 0 800 0 0 0\nthrow 28 ReferenceError\nthrow 34 ReferenceError\nsay last\nsay first\nsay detached\nsay attached\nthrow 16 ReferenceError\n";

const GROWS: &str =
    "script 1\nhandler h\nwhen wider r 799px\ngrow r width 10px\nread r\nwhen wider r 809px\nsay wide\nend\nwhen not taller r 0px\nset $target height 1px\nend\nend\nend\nblock r top\nappend top r\nset r width 800px\n";

const GROWS_TOLD: &str = "read r 0 0 810 0 0 0\nsay wide\nthrow 10 ReferenceError\n";

// Queues that are taken with nothing in them, outside handlers and in one.
const TAKES: &str =
    "script 1\nhandler h\nio-take i\nwhen seen\nsay unsaid\nend\nend\nblock r top\nappend top r\nio i top - root - margin threshold\nio-observe i r\nio-take i\n";

const TAKES_TOLD: &str = "take i 0\ntake i 0\nthrow 4 ReferenceError\n";

// A ratio, and margins before scroll margins before thresholds.
const MARGINS: &str =
    "script 2\nhandler h\nratio 150%\nsay first\nio j top - root - margin scroll 2 threshold 3\nend\nio i top - root - margin 1 scroll 2 threshold 3\nio i top - root - margin scroll 2 threshold 3\nio i top - root - margin scroll 2px threshold 3\nratio 50%\nio i top - root - margin scroll 2px threshold 1\nio-take i\n";

const MARGINS_TOLD: &str =
    "throw 7 SyntaxError\nthrow 8 SyntaxError\nthrow 9 RangeError\ntake i 0\nsay first\nthrow 5 SyntaxError\n";

// No trace of a test is longer.
const ROOM: usize = 512;

// A command outside handlers, which may throw.
fn run_outside<L: Ledger>(run: &mut Run<MemorySink, L>, command: &Command) -> Result<(), RunFault>
    requires { IsAllowed command.now }
{
    let nothing = Entries::Nothing;
    match run_command(run, command, &nothing, None) {
        Ok(_) => Ok(()),
        Err(fault) => Err(fault),
    }
}

// The first handler, called for a document with no entries.
fn run_first<L: Ledger>(
    run: &mut Run<MemorySink, L>,
    document: DocumentId,
) -> Result<(), RunFault> {
    let handler = Some(HandlerId(0));
    let nothing = Entries::Nothing;
    run_handler(run, document, handler, &nothing)
}

// Each command but `tick`, and then the first handler for a document.
fn run_text<L: Ledger>(
    blank: Blank,
    alloc: Global,
    page: &mut Page,
    script: &Script,
    document: DocumentId,
    sink: &mut MemorySink,
) -> Result<(), RunFault>
    requires name { blank.name ≡ L.name }
    requires parts { blank.parts ≡ L.parts }
    requires one_part { 0 < blank.parts }
{
    let mut steps = Steps::<L>::new(blank);
    let mut run = Run {
        alloc,
        page,
        script,
        sink,
        steps: &mut steps,
    };
    for item in script.items() {
        if let Item::Command(command) = item {
            run_outside(&mut run, command)?;
        }
    }
    run_first(&mut run, document)
}

// Runs a script on a page of its own. The page goes as that of a report, where it is proved once that it can be dropped.
fn run_alone(
    alloc: Global,
    script: &Script,
    document: DocumentId,
    sink: &mut MemorySink,
) -> Result<(), RunFault> {
    let Ok(mut page) = Page::new(alloc, script.version()) else {
        return Err(RunFault::Memory);
    };
    run_text::<Brand>(Blank::new(1), alloc, &mut page, script, document, sink)
}

// Runs a text over a sink that takes 64 bytes a call, of which the one of this number fails, and compares.
fn expect(
    rt: &impl Abort,
    alloc: Global,
    text: &str,
    document: DocumentId,
    number: Option<u64>,
    ending: Result<(), RunFault>,
    told: &str,
) -> Result<(), Fail> {
    let mut sink = MemorySink::new(alloc, ROOM, 64, failing(alloc, number)?)?;
    let script = script_of(alloc, text.as_bytes())?;
    let ran = run_alone(alloc, &script, document, &mut sink);
    same(rt, &ran, &ending, text);
    same_bytes(rt, sink.taken(), told.as_bytes(), text);
    Ok(())
}

// A text, the document that the handler is called for, the call of the sink that fails, the ending, and the lines.
type Row = (
    &'static str,
    u32,
    Option<u64>,
    Result<(), RunFault>,
    &'static str,
);

const RUNS: [Row; 6] = [
    (BLOCKS, 0, None, Ok(()), BLOCKS_TOLD),
    (GROWS, 0, None, Ok(()), GROWS_TOLD),
    (TAKES, 0, None, Ok(()), TAKES_TOLD),
    (MARGINS, 0, None, Ok(()), MARGINS_TOLD),
    // A document that isn't Active.
    (BLOCKS, 1, None, Ok(()), OUTSIDE),
    (BLOCKS, 0, Some(2), Err(RunFault::WriteFault), CUT),
];

#[test]
fn commands_and_handlers_give_their_lines(rt: HostRuntime) -> Result<(), Fail> {
    for (text, document, number, ending, told) in RUNS {
        expect(
            &rt,
            rt.alloc(),
            text,
            DocumentId(document),
            number,
            ending,
            told,
        )?;
    }
    Ok(())
}

// A handler that appends to the 256th of the blocks in one another that stand outside it.
fn push_deep(text: &mut String) -> Result<(), AllocError> {
    text.push_str(
        "script 1\nhandler h\nsay first\nwhen attached e0\nappend e255 e256\nend\nsay last\nend\nblock e0 top\nappend top e0\n",
    )?;
    for k in 0..255u32 {
        let next = k + 1;
        write!(text, "block e{next} top\nappend e{k} e{next}\n")?;
    }
    text.push_str("block e256 top\n")
}

// A limit in a handler has the line of the command that met it, and isn't written here.
#[test]
fn a_limit_ends_the_run(rt: HostRuntime) -> Result<(), Fail> {
    let mut text = String::new(rt.alloc());
    push_deep(&mut text)?;
    let met = Err(RunFault::Limit {
        kind: LimitKind::Depth,
        line: 5,
        number: 256,
    });
    expect(
        &rt,
        rt.alloc(),
        &text,
        DocumentId(0),
        None,
        met,
        "say first\n",
    )
}
