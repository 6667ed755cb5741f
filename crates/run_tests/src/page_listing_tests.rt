//! What a host reads of the page that a run hands out: what a name refers to, and what each part holds. The numbers are worked out by hand.

use crate::same::same;
use element_tree::{Container, DocumentId, NodeId};
use intersection_observer::WatcherId;
use page_state::Page;
use px_units::Size;
use replay_run::run_uncounted;
use resize_observer::ObserverId;
use std::alloc::Global;
use std::marker::Brand;
use std::process::Abort;
use std::sync::ledger::Blank;
use std::test::Fail;
use text_io::{MemorySink, MemorySource, Name, ThrowKind};

/// Two elements, an observer of each kind, a query list, two timers, a tick in which an element grows, and a scroll behind it. It has 15
/// commands, the tick among them, and one more is run by the handler.
const SCRIPT: &[u8] =
    b"script 1\nhandler grow\nset b height 30px\nend\nblock r top\nappend top r\nblock b top\nset b height 10px\nappend r b\nro sizes top grow\nro-observe sizes b content\nio seen top - root - margin threshold 0\nio-observe seen b\nmedia wide top (min-width: 400px)\ntimer top late 50 grow\ntimer top soon 20 grow\ntick 5\nset r height 2000px\nscroll top 0px 40px\n";

// What is left of the most commands of a script of version 1: it began the 15 of its lines and that of the handler.
const LEFT: u32 = 1_000_000 - 16;

fn named(rt: &impl Abort, text: &[u8]) -> Name {
    Name::read(text).expect(rt, "a name")
}

// The page that the script leaves.
fn page_of(rt: &impl Abort, alloc: Global) -> Result<Page, Fail> {
    let mut source = MemorySource::new(SCRIPT.to_vec(alloc)?, 4096, Vec::new(alloc));
    let mut sink = MemorySink::new(alloc, 4096, 4096, Vec::new(alloc))?;
    let report = run_uncounted::<_, _, Brand>(Blank::new(1), alloc, &[], &mut source, &mut sink);
    Ok(report.page.expect(rt, "a page"))
}

#[test]
fn things_are_found_by_name(rt: HostRuntime) -> Result<(), Fail> {
    let page = page_of(&rt, rt.alloc())?;
    same(
        &rt,
        &page.element_named(named(&rt, b"b")),
        &Ok(NodeId(1)),
        "b",
    );
    same(
        &rt,
        &page.element_named(named(&rt, b"sizes")),
        &Err(ThrowKind::TypeError),
        "sizes, which is no element",
    );
    same(
        &rt,
        &page.element_named(named(&rt, b"none")),
        &Err(ThrowKind::ReferenceError),
        "none",
    );
    same(
        &rt,
        &page.document(named(&rt, b"top")),
        &Ok(DocumentId(0)),
        "top",
    );
    same(
        &rt,
        &page.observer(named(&rt, b"sizes")),
        &Ok(ObserverId(0)),
        "sizes",
    );
    same(
        &rt,
        &page.watcher(named(&rt, b"seen")),
        &Ok(WatcherId(0)),
        "seen",
    );
    same(&rt, &page.query_list(named(&rt, b"wide")), &Ok(0), "wide");
    Ok(())
}

// What was reported is the size before the handler made the element higher.
#[test]
fn observers_are_listed(rt: HostRuntime) -> Result<(), Fail> {
    let page = page_of(&rt, rt.alloc())?;
    let observer = page
        .observer(named(&rt, b"sizes"))
        .expect(&rt, "an observer");
    let targets = page.resize_observers().targets(observer);
    assert!(rt; targets.len() == 1);
    same(&rt, &targets[0].target, &NodeId(1), "the target");
    let last = Size {
        width: 800 * 64,
        height: 10 * 64,
    };
    same(&rt, &targets[0].last, &last, "its last size");
    let watcher = page.watcher(named(&rt, b"seen")).expect(&rt, "an observer");
    let watchers = page.intersection_observers();
    same(
        &rt,
        &watchers.registrations(watcher).len(),
        &1,
        "how many registrations",
    );
    same(&rt, &watchers.queue(watcher).len(), &0, "the queue"); // the tick's task took its entry
    same(&rt, &page.scroll_margins().len(), &1, "scroll margins");
    Ok(())
}

#[test]
fn the_clock_and_what_is_pending_are_read(rt: HostRuntime) -> Result<(), Fail> {
    let page = page_of(&rt, rt.alloc())?;
    same(&rt, &page.clock(), &5, "the clock");
    same(&rt, &page.commands_left(), &LEFT, "commands that are left");
    same(&rt, &page.timers().next_due(), &Some(20), "the next timer"); // set before the tick, at the time 0
    let scrolled = page.scrolls().pending(DocumentId(0));
    assert!(rt; scrolled.len() == 1);
    same(
        &rt,
        &scrolled[0],
        &Container::Document(DocumentId(0)),
        "what scrolled",
    );
    same(&rt, &page.query_list_count(), &1, "how many query lists");
    let query = page.query_list(named(&rt, b"wide")).expect(&rt, "a list");
    same(
        &rt,
        &page.query_list_state(query),
        &(DocumentId(0), true),
        "the query list",
    );
    same(
        &rt,
        &page.elements().document_count(),
        &1,
        "how many documents",
    );
    Ok(())
}
