//! Calls with their answers, as the standard's steps give them, with each call that memory is refused to.
ghost use Rattle.std.specs.Prelude.{◌≡◌, ◌<◌, ◌≤◌, ◌+◌, ◌^◌, [], length, IfOk, OnOk};
ghost use Rattle.intersection_observer.specs.Places.{IsStanding};
ghost use Rattle.thresholds.specs.Roots.{IsRootRect};

use crate::same::same;
use element_tree::{DocumentId, NodeId};
use intersection_observer::{
    Entry, Finding, RegistrationId, Root, Settled, WatchFault, WatcherId, Watchers,
};
use px_units::Rect;
use std::alloc::Global;
use std::process::Abort;
use std::test::Fail;
use thresholds::{Margins, Ratio, Thresholds};

#[derive(Clone, Copy)]
enum Step {
    Observe(u32),
    Unobserve(u32),
    Disconnect,
    // The registration at a place: the time, the index, and whether they meet.
    Settle(usize, u64, u32, bool),
    Take,
}

fn found(index: u32, meets: bool) -> Finding {
    let none = Rect {
        left: 0,
        top: 0,
        right: 0,
        bottom: 0,
    };
    Finding {
        index,
        meets,
        ratio: Ratio { part: 0, whole: 1 },
        root: none,
        target: none,
        cut: none,
    }
}

fn push_entry(text: &mut String, alloc: Global, entry: &Entry) -> Result<(), Fail> {
    let sign = if entry.finding.meets { "+" } else { "-" };
    let shown = format!(in alloc;
        " {}@{}:{}{sign}",
        entry.target.0, entry.time, entry.finding.index
    )?;
    text.push_str(shown.as_str())?;
    Ok(())
}

fn push_entries(text: &mut String, alloc: Global, entries: &[Entry]) -> Result<(), Fail> {
    for entry in entries {
        push_entry(text, alloc, entry)?;
    }
    Ok(())
}

// Entries as target, time, index, and `+` where they met.
fn entries(alloc: Global, entries: &[Entry]) -> Result<String, Fail> {
    let mut text = String::new(alloc);
    push_entries(&mut text, alloc, entries)?;
    Ok(text)
}

fn push_registration(
    text: &mut String,
    alloc: Global,
    watchers: &Watchers,
    registration: RegistrationId,
) -> Result<(), Fail>
    requires { IsStanding registration.0 watchers.now.part }
{
    let target = watchers.target_of(registration);
    let shown = format!(in alloc; " {}:{}", registration.0, target.0)?;
    text.push_str(shown.as_str())?;
    Ok(())
}

fn push_registrations(
    text: &mut String,
    alloc: Global,
    watchers: &Watchers,
    watcher: WatcherId,
) -> Result<(), Fail>
    requires { watcher.0 < length watchers.now.part.made }
{
    for registration in watchers.registrations(watcher) {
        push_registration(text, alloc, watchers, *registration)?;
    }
    Ok(())
}

// The registrations of an observer with their targets.
fn registrations(alloc: Global, watchers: &Watchers, watcher: WatcherId) -> Result<String, Fail>
    requires { watcher.0 < length watchers.now.part.made }
{
    let mut text = String::new(alloc);
    push_registrations(&mut text, alloc, watchers, watcher)?;
    Ok(text)
}

fn observe(
    alloc: Global,
    watchers: &mut Watchers,
    watcher: WatcherId,
    target: u32,
) -> Result<String, Fail>
    requires watcher { watcher.0 < length watchers.old.part.made }
    requires serials { watchers.old.part.given < 2 ^ 32 }
    ensures count { length watchers.new.part.made ≡ length watchers.old.part.made }
    ensures given { watchers.new.part.given ≤ watchers.old.part.given + 1 }
{
    let said = match watchers.observe(watcher, NodeId(target)) {
        Ok(Some(registration)) => format!(in alloc; "{}", registration.0)?,
        Ok(None) => String::from_str(alloc, "None")?,
        Err(WatchFault::Limit) => String::from_str(alloc, "Limit")?,
        Err(WatchFault::Memory) => String::from_str(alloc, "Memory")?,
    };
    Ok(said)
}

fn unobserve(
    alloc: Global,
    watchers: &mut Watchers,
    watcher: WatcherId,
    target: u32,
) -> Result<String, Fail>
    requires { watcher.0 < length watchers.old.part.made }
    ensures count { length watchers.new.part.made ≡ length watchers.old.part.made }
    ensures given { watchers.new.part.given ≡ watchers.old.part.given }
{
    let said = match watchers.unobserve(watcher, NodeId(target)) {
        Some(registration) => format!(in alloc; "{}", registration.0)?,
        None => String::from_str(alloc, "None")?,
    };
    Ok(said)
}

fn settle(
    watchers: &mut Watchers,
    watcher: WatcherId,
    place: usize,
    time: u64,
    finding: Finding,
) -> &'static str
    requires { watcher.0 < length watchers.old.part.made }
    ensures count { length watchers.new.part.made ≡ length watchers.old.part.made }
    ensures given { watchers.new.part.given ≡ watchers.old.part.given }
{
    let listed = watchers.registrations(watcher);
    if place >= listed.len() {
        return "past the last";
    }
    let registration = listed[place];
    match watchers.settle(registration, time, finding) {
        Ok(Settled::Queued) => "Queued",
        Ok(Settled::Kept) => "Kept",
        Err(_) => "Memory",
    }
}

fn apply(
    alloc: Global,
    watchers: &mut Watchers,
    watcher: WatcherId,
    step: Step,
) -> Result<String, Fail>
    requires watcher { watcher.0 < length watchers.old.part.made }
    requires serials { watchers.old.part.given < 2 ^ 32 }
    ensures count { length watchers.new.part.made ≡ length watchers.old.part.made }
    ensures given { watchers.new.part.given ≤ watchers.old.part.given + 1 }
{
    match step {
        Step::Observe(target) => observe(alloc, watchers, watcher, target),
        Step::Unobserve(target) => unobserve(alloc, watchers, watcher, target),
        Step::Disconnect => {
            watchers.disconnect(watcher);
            Ok(String::new(alloc))
        }
        Step::Settle(place, time, index, meets) => {
            let said = settle(watchers, watcher, place, time, found(index, meets));
            Ok(String::from_str(alloc, said)?)
        }
        Step::Take => entries(alloc, watchers.take_records(watcher).as_slice()),
    }
}

fn make_two(alloc: Global, watchers: &mut Watchers) -> Result<(), Fail>
    requires { watchers.old.part.made ≡ [] }
    ensures given { watchers.new.part.given ≡ watchers.old.part.given }
    ensures made { OnOk result (length watchers.new.part.made ≡ 2) }
{
    let margins = Margins::parse(b"")?;
    let thresholds = Thresholds::new(alloc, &[])?;
    watchers.make(DocumentId(0), None, Root::Implicit, margins, thresholds)?;
    let thresholds = Thresholds::new(alloc, &[])?;
    watchers.make(
        DocumentId(1),
        Some(3),
        Root::Document(DocumentId(1)),
        margins,
        thresholds,
    )?;
    Ok(())
}

// Two observers, as many as there may be, and at most four registrations.
fn two_watchers(alloc: Global) -> Result<Watchers, Fail>
    ensures { IfOk result (λ watchers. (watchers.part.given ≡ 0) × (length watchers.part.made ≡ 2)) }
{
    let mut watchers = Watchers::new(alloc, 2, 4);
    make_two(alloc, &mut watchers)?;
    Ok(watchers)
}

// Of an observer: the step, what it answers, and the registrations then.
type Row = (u32, Step, &'static str, &'static str);

const STEPS: [Row; 27] = [
    (0, Step::Observe(5), "0", " 0:5"),
    (0, Step::Observe(6), "1", " 0:5 1:6"),
    (0, Step::Observe(5), "None", " 0:5 1:6"),
    (0, Step::Observe(7), "2", " 0:5 1:6 2:7"),
    (1, Step::Observe(5), "3", " 3:5"),
    (1, Step::Observe(6), "Limit", " 3:5"),
    (0, Step::Observe(6), "None", " 0:5 1:6 2:7"),
    (0, Step::Settle(0, 10, 0, false), "Queued", " 0:5 1:6 2:7"),
    (0, Step::Settle(0, 20, 0, false), "Kept", " 0:5 1:6 2:7"),
    (0, Step::Settle(0, 30, 0, true), "Queued", " 0:5 1:6 2:7"),
    (0, Step::Settle(0, 40, 1, true), "Queued", " 0:5 1:6 2:7"),
    (0, Step::Settle(0, 40, 1, true), "Kept", " 0:5 1:6 2:7"),
    (0, Step::Settle(1, 40, 2, true), "Queued", " 0:5 1:6 2:7"),
    (1, Step::Settle(0, 40, 0, false), "Queued", " 3:5"),
    (0, Step::Unobserve(5), "0", " 1:6 2:7"),
    (0, Step::Unobserve(9), "None", " 1:6 2:7"),
    (0, Step::Settle(0, 50, 2, true), "Kept", " 1:6 2:7"),
    (0, Step::Observe(5), "4", " 1:6 2:7 4:5"),
    (0, Step::Settle(2, 50, 1, true), "Queued", " 1:6 2:7 4:5"),
    (0, Step::Disconnect, "", ""),
    (
        0,
        Step::Take,
        " 5@10:0- 5@30:0+ 5@40:1+ 6@40:2+ 5@50:1+",
        "",
    ),
    (0, Step::Take, "", ""),
    (1, Step::Take, " 5@40:0-", " 3:5"),
    (1, Step::Settle(0, 60, 0, false), "Kept", " 3:5"),
    (0, Step::Observe(7), "5", " 5:7"),
    (0, Step::Settle(0, 60, 0, false), "Queued", " 5:7"),
    (0, Step::Take, " 7@60:0-", " 5:7"),
];

// Whether an observer has these registrations.
fn has(alloc: Global, watchers: &Watchers, watcher: WatcherId, listed: &str) -> Result<bool, Fail>
    requires { watcher.0 < length watchers.now.part.made }
{
    let now = registrations(alloc, watchers, watcher)?;
    Ok(now.as_bytes() == listed.as_bytes())
}

// What a step answers, at a second try where memory was refused to it, which changes nothing.
fn answer_of(
    rt: &impl Abort,
    alloc: Global,
    watchers: &mut Watchers,
    watcher: WatcherId,
    step: Step,
    want: &str,
) -> Result<String, Fail>
    requires watcher { watcher.0 < length watchers.old.part.made }
    requires serials { watchers.old.part.given < 2 ^ 31 }
    ensures count { length watchers.new.part.made ≡ length watchers.old.part.made }
    ensures given { watchers.new.part.given ≤ watchers.old.part.given + 2 }
{
    let before = registrations(alloc, watchers, watcher)?;
    let said = apply(alloc, watchers, watcher, step)?;
    if said.as_bytes() != b"Memory".as_slice() {
        return Ok(said);
    }
    let is_same = has(alloc, watchers, watcher, before.as_str())?;
    assert!(rt; is_same, "refused before {want}");
    apply(alloc, watchers, watcher, step)
}

fn see_step(rt: &impl Abort, alloc: Global, watchers: &mut Watchers, row: Row) -> Result<(), Fail>
    requires { watchers.old.part.given < 2 ^ 31 }
    ensures { watchers.new.part.given ≤ watchers.old.part.given + 2 }
{
    let (number, step, answer, want) = row;
    assert!(rt; number < watchers.count());
    let watcher = WatcherId(number);
    let said = answer_of(rt, alloc, watchers, watcher, step, want)?;
    assert!(rt; said.as_bytes() == answer.as_bytes(), "want {answer}");
    let is_listed = has(alloc, watchers, watcher, want)?;
    assert!(rt; is_listed, "want {want}");
    Ok(())
}

fn see_steps(rt: &impl Abort, alloc: Global, watchers: &mut Watchers) -> Result<(), Fail>
    requires { watchers.old.part.given ≡ 0 }
{
    for row in STEPS {
        see_step(rt, alloc, watchers, row)?;
    }
    Ok(())
}

#[test]
fn steps_queue_what_is_news(rt: HostRuntime) -> Result<(), Fail> {
    let mut watchers = two_watchers(rt.alloc())?;
    see_steps(&rt, rt.alloc(), &mut watchers)
}

// A square of a pixel.
fn small_view() -> Rect
    ensures { IsRootRect result }
{
    Rect {
        left: 0,
        top: 0,
        right: 64,
        bottom: 64,
    }
}

// The upper edge of a view once the root margins of an observer moved it.
fn top_of(watchers: &Watchers, watcher: WatcherId, view: Rect) -> i64
    requires watcher { watcher.0 < length watchers.now.part.made }
    requires view { IsRootRect view }
{
    watchers.margins_of(watcher).dilate(view).top
}

fn see_first(rt: &impl Abort, watchers: &Watchers, first: WatcherId)
    requires { first.0 < length watchers.now.part.made }
{
    same(
        rt,
        &watchers.document_of(first),
        &DocumentId(7),
        "the first document",
    );
    same(rt, &watchers.handler_of(first), &None, "the first handler");
    same(
        rt,
        &watchers.root_of(first),
        &Root::Node(NodeId(3)),
        "the first root",
    );
    same(
        rt,
        &top_of(watchers, first, small_view()),
        &-640,
        "the first top",
    );
    let half = Ratio { part: 1, whole: 2 };
    same(
        rt,
        &watchers.thresholds_of(first).index_of(half),
        &1,
        "the first index",
    );
}

fn see_second(rt: &impl Abort, watchers: &Watchers, second: WatcherId)
    requires { second.0 < length watchers.now.part.made }
{
    same(
        rt,
        &watchers.document_of(second),
        &DocumentId(8),
        "the second document",
    );
    same(
        rt,
        &watchers.handler_of(second),
        &Some(2),
        "the second handler",
    );
    same(
        rt,
        &watchers.root_of(second),
        &Root::Document(DocumentId(8)),
        "the second root",
    );
    same(
        rt,
        &top_of(watchers, second, small_view()),
        &0,
        "the second top",
    );
    let half = Ratio { part: 1, whole: 2 };
    same(
        rt,
        &watchers.thresholds_of(second).index_of(half),
        &1,
        "the second index",
    );
}

fn see_making(rt: &impl Abort, alloc: Global, watchers: &mut Watchers) -> Result<(), Fail> {
    assert!(rt; !watchers.is_full());
    let margins = Margins::parse(b"10px 0px")?;
    let thresholds = Thresholds::new(alloc, &[5000, 10000])?;
    let first = watchers.make(
        DocumentId(7),
        None,
        Root::Node(NodeId(3)),
        margins,
        thresholds,
    )?;
    let margins = Margins::parse(b"")?;
    let thresholds = Thresholds::new(alloc, &[])?;
    let second = watchers.make(
        DocumentId(8),
        Some(2),
        Root::Document(DocumentId(8)),
        margins,
        thresholds,
    )?;
    assert!(rt; watchers.is_full());
    let thresholds = Thresholds::new(alloc, &[])?;
    let refused = watchers.make(DocumentId(9), None, Root::Implicit, margins, thresholds);
    same(rt, &refused, &Err(WatchFault::Limit), "a third observer");
    same(rt, &watchers.count(), &2, "how many there are");
    see_first(rt, watchers, first);
    see_second(rt, watchers, second);
    Ok(())
}

#[test]
fn observers_are_as_they_were_made(rt: HostRuntime) -> Result<(), Fail> {
    let mut watchers = Watchers::new(rt.alloc(), 2, 4);
    see_making(&rt, rt.alloc(), &mut watchers)
}
