//! Pages that a host keeps, ticked on after a limit, a failed write and want of memory. The lines of each further tick are those that an
//! independent program writes for a script without what went wrong.

use crate::common::failing;
use crate::same::{same, same_bytes};
use live_page::{LiveFault, LivePage};
use std::alloc::{AllocError, Global};
use std::process::Abort;
use std::test::Fail;
use text_io::{LimitKind, MemorySink, Version};
use trace_runs::RunFault;

// A card whose observer makes it higher, and a handler that sets a timer beyond the limit.
const CARD: &[u8] =
    b"script 1\nhandler open\neach\nset $target height 200px\nend\nend\nhandler full\nsay before\ntimer top extra 5 full\nsay behind\nend\nblock card top\nappend top card\nset card height 120px\nro sizes top open\nro-observe sizes card content\n";

const SHRINK: &[u8] = b"script 1\nset card height 50px\n";

const POST: &[u8] = b"script 1\npost top full\n";

// The first tick, as far as the limit, and the second one.
const FULL: &str =
    "tick 0\nresize sizes card rect 0 0 800 120 border 800 120\nround top 1\nevent error @top ResizeObserver loop completed with undelivered notifications.\ntask top full\nsay before\n";

const AFTER: &str =
    "tick 16\nresize sizes card rect 0 0 800 50 border 800 50\nround top 1\nevent error @top ResizeObserver loop completed with undelivered notifications.\n";

// No trace of a test is longer.
const ROOM: usize = 1024;

// The writes of the first tick: a line each.
const WRITES: u64 = 4;

fn is_limit(answered: &Result<(), LiveFault>) -> bool {
    matches!(
        answered,
        Err(LiveFault::Stopped(RunFault::Limit {
            kind: LimitKind::Timers,
            line: 9,
            number: 4096
        }))
    )
}

fn is_write_fault(answered: &Result<(), LiveFault>) -> bool {
    matches!(answered, Err(LiveFault::Stopped(RunFault::WriteFault)))
}

fn sink_of(alloc: Global, number: Option<u64>) -> Result<MemorySink, AllocError> {
    MemorySink::new(alloc, ROOM, ROOM, failing(alloc, number)?)
}

// As many timers as a page may have, none of which is due.
fn set_timers(alloc: Global, live: &mut LivePage, sink: &mut MemorySink) -> Result<(), Fail> {
    for k in 0..4096u32 {
        let text = format!(in alloc; "script 1\ntimer top k{k} 1000000 full\n")?;
        let _answered = live.run(text.as_bytes(), sink);
    }
    Ok(())
}

#[test]
fn a_page_goes_on_after_a_limit(rt: HostRuntime) -> Result<(), Fail> {
    let alloc = rt.alloc();
    let mut live = LivePage::new(alloc, Version::First)?;
    let mut sink = sink_of(alloc, None)?;
    assert!(rt; live.run(CARD, &mut sink).is_ok());
    set_timers(alloc, &mut live, &mut sink)?;
    assert!(rt; live.run(POST, &mut sink).is_ok());
    let answered = live.tick(0, &mut sink);
    assert!(rt; is_limit(&answered));
    same_bytes(&rt, sink.taken(), FULL.as_bytes(), "the trace");
    assert!(rt; !live.is_ended());
    let mut further = sink_of(alloc, None)?;
    assert!(rt; live.run(SHRINK, &mut further).is_ok());
    assert!(rt; live.tick(16, &mut further).is_ok());
    same_bytes(
        &rt,
        further.taken(),
        AFTER.as_bytes(),
        "the trace that follows",
    );
    Ok(())
}

// Each write of a tick fails in turn: the next tick is whole, whatever was cut off.
#[test]
fn a_page_goes_on_after_a_failed_write(rt: HostRuntime) -> Result<(), Fail> {
    let alloc = rt.alloc();
    for number in 0..WRITES {
        let mut live = LivePage::new(alloc, Version::First)?;
        let mut first = sink_of(alloc, Some(number))?;
        assert!(rt; live.run(CARD, &mut first).is_ok());
        let answered = live.tick(0, &mut first);
        assert!(rt; is_write_fault(&answered), "{number}");
        let mut further = sink_of(alloc, None)?;
        assert!(rt; live.run(SHRINK, &mut further).is_ok());
        assert!(rt; live.tick(16, &mut further).is_ok());
        same_bytes(&rt, further.taken(), AFTER.as_bytes(), number);
    }
    Ok(())
}

// With each allocation refused in turn (`rt try --test --fail-alloc N`), a tick that lacked memory is followed by a whole one.
#[test]
fn a_page_goes_on_after_want_of_memory(rt: HostRuntime) -> Result<(), Fail> {
    let alloc = rt.alloc();
    let mut further = sink_of(alloc, None)?;
    let mut first = sink_of(alloc, None)?;
    let mut live = LivePage::new(alloc, Version::First)?;
    if live.run(CARD, &mut first).is_ok() {
        let _answered = live.tick(0, &mut first);
        if live.run(SHRINK, &mut further).is_ok() && live.tick(16, &mut further).is_ok() {
            same_bytes(
                &rt,
                further.taken(),
                AFTER.as_bytes(),
                "the trace that follows",
            );
        }
    }
    Ok(())
}

// A text that doesn't go with the page changes nothing of it.
#[test]
fn a_text_that_does_not_go_with_the_page_is_refused(rt: HostRuntime) -> Result<(), Fail> {
    let alloc = rt.alloc();
    let mut live = LivePage::new(alloc, Version::First)?;
    let mut sink = sink_of(alloc, None)?;
    assert!(rt; live.run(CARD, &mut sink).is_ok());
    let left = live.page().commands_left();
    assert!(rt;
        matches!(
            live.run(b"script 1\nappend\n", &mut sink),
            Err(LiveFault::Text(_))
        )
    );
    assert!(rt;
        matches!(
            live.run(b"script 2\n", &mut sink),
            Err(LiveFault::OtherVersion)
        )
    );
    let other = b"script 1\nhandler open\nend\nhandler other\nend\n";
    assert!(rt; matches!(live.run(other, &mut sink), Err(LiveFault::OtherHandlers)));
    assert!(rt;
        matches!(
            live.tick(1_000_000_000_001, &mut sink),
            Err(LiveFault::Time)
        )
    );
    same(
        &rt,
        &live.page().commands_left(),
        &left,
        "commands that are left",
    );
    same_bytes(&rt, sink.taken(), b"".as_slice(), "the trace");
    Ok(())
}

// A script with handlers takes the place of the page's: the observer calls the handler of the same name, with its new block.
#[test]
fn a_further_script_changes_a_handler(rt: HostRuntime) -> Result<(), Fail> {
    let alloc = rt.alloc();
    let mut live = LivePage::new(alloc, Version::First)?;
    let mut sink = sink_of(alloc, None)?;
    assert!(rt; live.run(CARD, &mut sink).is_ok());
    let further =
        b"script 1\nhandler open\nsay opened\nend\nhandler full\nend\nhandler more\nsay more\nend\npost top more\n";
    assert!(rt; live.run(further, &mut sink).is_ok());
    assert!(rt; live.tick(0, &mut sink).is_ok());
    let told =
        b"tick 0\nresize sizes card rect 0 0 800 120 border 800 120\nsay opened\nround top 1\ntask top more\nsay more\n";
    same_bytes(&rt, sink.taken(), told.as_slice(), "the trace");
    Ok(())
}
