//! The lists of observations through the calls, as the standard's steps give them.
ghost use Rattle.std.specs.Prelude.{◌≡◌, ◌<◌, ◌≤◌, ◌+◌, ◌^◌};

use crate::common::three_observers;
use crate::same::same;
use element_tree::{DocumentId, NodeId};
use px_units::{BoxKind, Size};
use resize_observer::{Observation, ObserveFault, Observers};
use std::alloc::Global;
use std::process::Abort;
use std::test::Fail;

#[derive(Clone, Copy)]
enum Step {
    Observe(u32, BoxKind),
    Unobserve(u32),
    Disconnect,
    BeginGather,
    Gathered(usize, bool),
    Report(u64, u32, u32),
    ClearActive,
}

fn answer(outcome: Result<(), ObserveFault>) -> &'static str {
    match outcome {
        Ok(()) => "Ok",
        Err(ObserveFault::Limit) => "Limit",
        Err(ObserveFault::Memory) => "Memory",
    }
}

// The step at an observer of a document, by its place.
fn apply(
    rt: &impl Abort,
    observers: &mut Observers,
    document: DocumentId,
    place: usize,
    step: Step,
) -> &'static str
    requires { observers.old.part.given < 2 ^ 32 }
    ensures { observers.new.part.given ≤ observers.old.part.given + 1 }
{
    let Some(observer) = observers.of_document(document, place) else {
        return "None";
    };
    match step {
        Step::Observe(target, observed) => {
            return answer(observers.observe(observer, NodeId(target), observed));
        }
        Step::Unobserve(target) => observers.unobserve(observer, NodeId(target)),
        Step::Disconnect => observers.disconnect(observer),
        Step::BeginGather => observers.begin_gather(observer),
        Step::Gathered(at, active) => {
            assert!(rt; at < observers.targets(observer).len());
            assert!(rt; observers.active(observer).len() < observers.targets(observer).len());
            assert!(rt; observers.skipped(observer).len() < observers.targets(observer).len());
            observers.gathered(observer, at, active);
        }
        Step::Report(number, width, height) => {
            let last = Size {
                width: width as i64,
                height: height as i64,
            };
            observers.report(observer, number, last);
        }
        Step::ClearActive => observers.clear_active(observer),
    }
    "Ok"
}

// Each observation as its number, target and last reported size, with `b` where the border box is observed.
fn listed(alloc: Global, observations: &[Observation]) -> Result<String, Fail> {
    let mut text = String::new(alloc);
    for each in observations {
        let kind = match each.observed {
            BoxKind::Content => "",
            BoxKind::Border => "b",
            BoxKind::Device => "d",
        };
        let shown = format!(in alloc;
            " {}:{}{}={}x{}",
            each.number, each.target.0, kind, each.last.width, each.last.height
        )?;
        text.push_str(shown.as_str())?;
    }
    Ok(text)
}

// The three lists of an observer of a document.
fn lists(
    alloc: Global,
    observers: &Observers,
    document: DocumentId,
    place: usize,
) -> Result<String, Fail> {
    let Some(observer) = observers.of_document(document, place) else {
        return Ok(String::new(alloc));
    };
    let targets = listed(alloc, observers.targets(observer))?;
    let active = listed(alloc, observers.active(observer))?;
    let skipped = listed(alloc, observers.skipped(observer))?;
    Ok(format!(in alloc; "{targets} |{active} |{skipped}")?)
}

// Of a document and a place among its observers: the step, what it answers, and the lists then.
type Row = (u32, usize, Step, &'static str, &'static str);

const STEPS: [Row; 21] = [
    (
        0,
        0,
        Step::Observe(5, BoxKind::Content),
        "Ok",
        " 0:5=0x0 | |",
    ),
    (
        0,
        0,
        Step::Observe(6, BoxKind::Border),
        "Ok",
        " 0:5=0x0 1:6b=0x0 | |",
    ),
    (
        0,
        0,
        Step::Gathered(0, true),
        "Ok",
        " 0:5=0x0 1:6b=0x0 | 0:5=0x0 |",
    ),
    (
        0,
        0,
        Step::Gathered(1, false),
        "Ok",
        " 0:5=0x0 1:6b=0x0 | 0:5=0x0 | 1:6b=0x0",
    ),
    (
        0,
        0,
        Step::Observe(5, BoxKind::Border),
        "Ok",
        " 1:6b=0x0 2:5b=0x0 | 0:5=0x0 | 1:6b=0x0",
    ),
    (
        0,
        0,
        Step::Report(0, 70, 80),
        "Ok",
        " 1:6b=0x0 2:5b=0x0 | 0:5=0x0 | 1:6b=0x0",
    ),
    (
        0,
        0,
        Step::Report(1, 10, 20),
        "Ok",
        " 1:6b=10x20 2:5b=0x0 | 0:5=0x0 | 1:6b=0x0",
    ),
    (
        1,
        0,
        Step::Observe(5, BoxKind::Content),
        "Ok",
        " 3:5=0x0 | |",
    ),
    (0, 1, Step::Observe(6, BoxKind::Content), "Limit", " | |"),
    (
        0,
        0,
        Step::Observe(6, BoxKind::Content),
        "Ok",
        " 2:5b=0x0 4:6=0x0 | 0:5=0x0 | 1:6b=0x0",
    ),
    (
        0,
        0,
        Step::Unobserve(5),
        "Ok",
        " 4:6=0x0 | 0:5=0x0 | 1:6b=0x0",
    ),
    (
        0,
        0,
        Step::Unobserve(9),
        "Ok",
        " 4:6=0x0 | 0:5=0x0 | 1:6b=0x0",
    ),
    (
        0,
        1,
        Step::Observe(6, BoxKind::Content),
        "Ok",
        " 5:6=0x0 | |",
    ),
    (0, 1, Step::Gathered(0, true), "Ok", " 5:6=0x0 | 5:6=0x0 |"),
    (0, 1, Step::ClearActive, "Ok", " 5:6=0x0 | |"),
    (0, 0, Step::Disconnect, "Ok", " | | 1:6b=0x0"),
    (
        0,
        0,
        Step::Observe(7, BoxKind::Content),
        "Ok",
        " 6:7=0x0 | | 1:6b=0x0",
    ),
    (0, 0, Step::BeginGather, "Ok", " 6:7=0x0 | |"),
    (0, 2, Step::Unobserve(7), "None", ""),
    (1, 1, Step::Unobserve(7), "None", ""),
    (2, 0, Step::Unobserve(7), "None", ""),
];

fn see_step(rt: &impl Abort, alloc: Global, observers: &mut Observers, row: Row) -> Result<(), Fail>
    requires { observers.old.part.given < 2 ^ 32 }
    ensures { observers.new.part.given ≤ observers.old.part.given + 1 }
{
    let (number, place, step, answered, want) = row;
    let document = DocumentId(number);
    let said = apply(rt, observers, document, place, step);
    same(rt, &said, &answered, want);
    let now = lists(alloc, observers, document, place)?;
    assert!(rt; now.as_bytes() == want.as_bytes(), "want {want}");
    Ok(())
}

fn see_steps(rt: &impl Abort, alloc: Global, observers: &mut Observers) -> Result<(), Fail>
    requires { observers.old.part.given ≡ 0 }
{
    for row in STEPS {
        see_step(rt, alloc, observers, row)?;
    }
    Ok(())
}

#[test]
fn steps_give_the_lists_of_observations(rt: HostRuntime) -> Result<(), Fail> {
    let mut observers = three_observers(rt.alloc(), 3)?;
    see_steps(&rt, rt.alloc(), &mut observers)
}

// The observer of a document at a place, by its number and its handler.
const PLACES: [(u32, usize, Option<(u32, Option<u32>)>); 6] = [
    (0, 0, Some((0, None))),
    (0, 1, Some((2, Some(0)))),
    (0, 2, None),
    (1, 0, Some((1, Some(4)))),
    (1, 1, None),
    (2, 0, None),
];

fn see_place(
    rt: &impl Abort,
    observers: &Observers,
    document: DocumentId,
    place: usize,
    want: Option<(u32, Option<u32>)>,
) {
    let Some(observer) = observers.of_document(document, place) else {
        assert!(rt; want.is_none());
        return;
    };
    same(
        rt,
        &Some((observer.0, observers.handler(observer))),
        &want,
        "observer and handler",
    );
    same(rt, &observers.document(observer), &document, "document");
}

#[test]
fn observers_are_found_by_their_documents(rt: HostRuntime) -> Result<(), Fail> {
    let mut observers = three_observers(rt.alloc(), 3)?;
    same(
        &rt,
        &observers.make(DocumentId(0), None),
        &Err(ObserveFault::Limit),
        "an observer too many",
    );
    for (document, place, want) in PLACES {
        see_place(&rt, &observers, DocumentId(document), place, want);
    }
    Ok(())
}
