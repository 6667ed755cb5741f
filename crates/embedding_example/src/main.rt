//! An embedding host: it replays a script held in memory, writes the trace, and reads the page; then it takes the lines of a
//! further update as values.
#![tactic(auto)]

use live_page::{LiveFault, LivePage};
use std::alloc::Global;
use std::io;
use text_io::{Name, StdSink, Version};
use trace_lines::LineSink;
use trace_text::TraceLine;

const SCRIPT: &[u8] =
    b"script 1\nblock card top\nappend top card\nset card height 120px\nro sizes top -\nro-observe sizes card content\ntick 0\n";

const GROW: &[u8] = b"script 1\nset card height 200px\n";

// Writes the box of the card.
fn show_card(rt: &HostRuntime, live: &mut LivePage) -> io::Result<()> {
    live.refresh();
    let page = live.page();
    let Some(name) = Name::read(b"card") else {
        return Ok(());
    };
    let Ok(node) = page.element_named(name) else {
        return println!(rt; "there is no card");
    };
    let card = page.geometry().border_rect(node);
    let (width, height) = (card.right - card.left, card.bottom - card.top);
    println!(rt; "the card is {width} by {height} units of 1/64 pixel")
}

// Grows the card, and returns what an update of the rendering tells then.
fn grow(alloc: Global, live: &mut LivePage) -> Result<LineSink, LiveFault> {
    let mut told = LineSink::new(alloc);
    live.run(GROW, &mut told)?;
    live.tick(16, &mut told)?;
    Ok(told)
}

// Writes the sizes that observers were told.
fn show_told(rt: &HostRuntime, told: &LineSink) -> io::Result<()> {
    for line in told.lines() {
        if let TraceLine::Resize { border, .. } = line {
            println!(rt;
                "an observer was told {} by {}",
                border.width, border.height
            )?;
        }
    }
    Ok(())
}

fn main(rt: HostRuntime) -> io::Result<()> {
    let mut live = LivePage::new(rt.alloc(), Version::First)?;
    let mut sink = StdSink::new(rt.stdout());
    if let Err(fault) = live.run(SCRIPT, &mut sink) {
        return println!(rt; "the page stopped: {fault}");
    }
    show_card(&rt, &mut live)?;
    match grow(rt.alloc(), &mut live) {
        Ok(told) => show_told(&rt, &told),
        Err(fault) => println!(rt; "the page stopped: {fault}"),
    }
}
