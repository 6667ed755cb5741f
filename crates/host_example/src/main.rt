//! An engine's side of the work: timers and frames are those of its own clock, and the callbacks of the page's observers are functions
//! of its own, which change the page in the middle of a delivery.
#![tactic(auto)]

use depth_gather::ResizeEntry;
use element_tree::DocumentId;
use intersection_observer::Entry;
use live_page::{LiveFault, LivePage, LiveTask};
use px_units::Rect;
use std::io;
use text_io::{StdSink, Version};
use trace_runs::RunFault;

const TOP: DocumentId = DocumentId(0);

// A card with a resize observer and an intersection observer, whose callbacks aren't the script's.
const PAGE: &[u8] =
    b"script 1\nblock card top\nappend top card\nset card height 120px\nro sizes top -\nro-observe sizes card content\nio sight top - root - margin 0px threshold 0 1\nio-observe sight card\n";

const SHRINK: &[u8] = b"script 1\nset card height 600px\n";

const GROW: &[u8] = b"script 1\nset card height 900px\nset card margin-top 300px\n";

// The times of the frames, and of the host's one timer, in milliseconds.
const FRAMES: [u64; 4] = [0, 16, 32, 48];

const TIMER: u64 = 20;

// A host bounds its loops itself: rounds of a frame, turns of a round, and tasks.
const MOST_ROUNDS: u32 = 100;

const MOST_TURNS: u32 = 100;

const MOST_TASKS: u32 = 100;

fn written(done: io::Result<()>) -> Result<(), LiveFault> {
    match done {
        Ok(()) => Ok(()),
        Err(_) => Err(LiveFault::Stopped(RunFault::WriteFault)),
    }
}

// Lengths of a page are in units of 1/64 pixel.
fn pixels(units: i64) -> i64 {
    units / 64
}

fn change(rt: &HostRuntime, live: &mut LivePage, text: &[u8]) -> Result<(), LiveFault> {
    let mut sink = StdSink::new(rt.stdout());
    live.run(text, &mut sink)
}

// The callback of the resize observer: a card that is higher than the viewport is shrunk to it.
fn resized(rt: &HostRuntime, live: &mut LivePage, entry: &ResizeEntry) -> Result<(), LiveFault> {
    let (left, top) = (pixels(entry.corner.left), pixels(entry.corner.top));
    let (width, height) = (pixels(entry.content.width), pixels(entry.content.height));
    let (across, down) = (pixels(entry.border.width), pixels(entry.border.height));
    written(println!(rt;
        "resize sizes card rect {left} {top} {width} {height} border {across} {down}"
    ))?;
    if height > 600 {
        change(rt, live, SHRINK)?;
    }
    Ok(())
}

// A round: each observer's turn, with its entries as they are then. Returns the least depth of the targets.
fn round(rt: &HostRuntime, live: &mut LivePage) -> Result<u32, LiveFault> {
    let mut least = u32::MAX;
    let mut place = 0;
    for _ in 0..MOST_TURNS {
        let Some(turn) = live.next_turn(TOP, place)? else {
            break;
        };
        place = turn.delivery.place;
        least = least.min(turn.depth);
        for entry in turn.delivery.entries.as_slice() {
            resized(rt, live, entry)?;
        }
        live.end_turn(turn.delivery.observer);
    }
    written(println!(rt; "round top {least}"))?;
    Ok(least)
}

// The resize loop: rounds of ever deeper targets, and the error if one was skipped.
fn resize_loop(rt: &HostRuntime, live: &mut LivePage) -> Result<(), LiveFault> {
    let mut depth = 0;
    for _ in 0..MOST_ROUNDS {
        if live.gather(TOP, depth) == 0 {
            break;
        }
        depth = round(rt, live)?;
    }
    if live.page().has_skipped(TOP) {
        return written(println!(rt;
            "event error @top ResizeObserver loop completed with undelivered notifications."
        ));
    }
    Ok(())
}

fn show(rt: &HostRuntime, name: &str, rect: Rect) -> io::Result<()> {
    let (left, top) = (pixels(rect.left), pixels(rect.top));
    let width = pixels(rect.right.saturating_sub(rect.left));
    let height = pixels(rect.bottom.saturating_sub(rect.top));
    print!(rt; " {name} {left} {top} {width} {height}")
}

// The callback of the intersection observer.
fn seen(rt: &HostRuntime, entry: &Entry) -> io::Result<()> {
    let finding = entry.finding;
    let meets = if finding.meets { "yes" } else { "no" };
    let (part, whole) = (finding.ratio.part, finding.ratio.whole);
    print!(rt;
        "intersect sight card {} {meets} {part}/{whole}",
        entry.time
    )?;
    show(rt, "root", finding.root)?;
    show(rt, "box", finding.target)?;
    show(rt, "cut", finding.cut)?;
    println!(rt; "")
}

// The queued tasks: each notified observer with the queue that it has at its turn.
fn tasks(rt: &HostRuntime, live: &mut LivePage) -> Result<(), LiveFault> {
    for _ in 0..MOST_TASKS {
        match live.next_task()? {
            None => return Ok(()),
            Some(LiveTask::Posted(..)) => {}
            Some(LiveTask::Notify(_, watchers)) => {
                for watcher in watchers.iter() {
                    if let Some(records) = live.take_records(*watcher) {
                        for entry in records.as_slice() {
                            written(seen(rt, entry))?;
                        }
                    }
                }
            }
        }
    }
    Ok(())
}

// A frame: the host's timer if it is due, an update of the rendering, and the tasks.
fn frame(
    rt: &HostRuntime,
    live: &mut LivePage,
    time: u64,
    timer: &mut Option<u64>,
) -> Result<(), LiveFault> {
    live.set_time(time)?;
    written(println!(rt; "tick {time}"))?;
    match *timer {
        Some(due) if due <= time => {
            *timer = None;
            written(println!(rt; "timer top grow-card"))?;
            change(rt, live, GROW)?;
        }
        _ => {}
    }
    resize_loop(rt, live)?;
    live.update_intersections(TOP)?;
    tasks(rt, live)
}

fn host(rt: &HostRuntime, live: &mut LivePage) -> Result<(), LiveFault> {
    change(rt, live, PAGE)?;
    let mut timer = Some(TIMER);
    for time in FRAMES {
        frame(rt, live, time, &mut timer)?;
    }
    Ok(())
}

fn main(rt: HostRuntime) -> io::Result<()> {
    let mut live = LivePage::new(rt.alloc(), Version::First)?;
    match host(&rt, &mut live) {
        Ok(()) => Ok(()),
        Err(fault) => println!(rt; "the page stopped: {fault}"),
    }
}
