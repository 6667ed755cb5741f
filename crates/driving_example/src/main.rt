//! A host that drives a page by a clock of its own: it runs a script's commands on a page, asks for updates of the rendering at its own
//! times, and reads a box of the page after each.
#![tactic(auto)]

use live_page::{LiveFault, LivePage};
use std::io;
use text_io::{Name, StdSink, Version};
use trace_runs::RunFault;

// A card whose observer makes it higher.
const SCRIPT: &[u8] =
    b"script 1\nhandler open\neach\nset $target height 200px\nend\nend\nblock card top\nappend top card\nset card height 120px\nro sizes top open\nro-observe sizes card content\n";

// Returns the height of the card in units of 1/64 pixel, 0 if there is none.
fn card_height(live: &mut LivePage) -> i64 {
    live.refresh();
    let page = live.page();
    let Some(name) = Name::read(b"card") else {
        return 0;
    };
    match page.element_named(name) {
        Ok(card) => {
            let rect = page.geometry().border_rect(card);
            rect.bottom - rect.top
        }
        Err(_) => 0,
    }
}

// Updates the rendering at a time in milliseconds, and reads the page.
fn update(rt: &HostRuntime, live: &mut LivePage, time: u64) -> Result<(), LiveFault> {
    let mut sink = StdSink::new(rt.stdout());
    live.tick(time, &mut sink)?;
    let height = card_height(live);
    match println!(rt; "the card is {height} units of 1/64 pixel high") {
        Ok(()) => Ok(()),
        Err(_) => Err(LiveFault::Stopped(RunFault::WriteFault)),
    }
}

fn drive(rt: &HostRuntime, live: &mut LivePage) -> Result<(), LiveFault> {
    let mut sink = StdSink::new(rt.stdout());
    live.run(SCRIPT, &mut sink)?;
    update(rt, live, 0)?;
    update(rt, live, 16)
}

fn main(rt: HostRuntime) -> io::Result<()> {
    let mut live = LivePage::new(rt.alloc(), Version::First)?;
    match drive(&rt, &mut live) {
        Ok(()) => Ok(()),
        Err(fault) => println!(rt; "the page stopped: {fault}"),
    }
}
