//! The tables through calls, with answers from the rules.
ghost use Rattle.std.specs.Prelude.{◌≡◌, ◌<◌, ◌≤◌, ◌+◌, ◌^◌};

use crate::same::same;
use element_tree::{DocumentId, NodeId};
use event_tables::{
    Batch, Dispatch, EventTarget, FrameCallbacks, HandlerId, Listeners, TableFault, Task, Tasks,
    Timers,
};
use std::process::Abort;
use std::test::Fail;
use text_io::{EventKind, Name};

const WINDOW: EventTarget = EventTarget::Window(DocumentId(0));

const ELEMENT: EventTarget = EventTarget::Node(NodeId(7));

// What a call answers.
#[derive(Clone, Copy, Debug, PartialEq, Eq)]
enum Outcome {
    Done,
    Nothing,
    Called(u32),
    Refused(TableFault),
}

fn answer(answered: Result<(), TableFault>) -> Outcome {
    match answered {
        Ok(()) => Outcome::Done,
        Err(fault) => Outcome::Refused(fault),
    }
}

fn found(there: bool) -> Outcome {
    if there {
        Outcome::Done
    } else {
        Outcome::Nothing
    }
}

fn name(rt: &impl Abort, word: &[u8]) -> Name {
    Name::read(word).expect(rt, "a name")
}

fn called(handler: Option<HandlerId>) -> Outcome {
    match handler {
        Some(handler) => Outcome::Called(handler.0),
        None => Outcome::Nothing,
    }
}

#[derive(Clone, Copy)]
enum Listening {
    Add(EventTarget, EventKind, u32),
    Remove(EventTarget, EventKind, u32),
    Next,
}

fn listen(listeners: &mut Listeners, dispatch: &mut Dispatch, step: Listening) -> Outcome
    requires { listeners.old.part.given < 2 ^ 32 }
    ensures { listeners.new.part.given ≤ listeners.old.part.given + 1 }
{
    match step {
        Listening::Add(target, kind, handler) => {
            match listeners.add(target, kind, HandlerId(handler)) {
                Ok(added) => found(added),
                Err(fault) => Outcome::Refused(fault),
            }
        }
        Listening::Remove(target, kind, handler) => {
            found(listeners.remove(target, kind, HandlerId(handler)))
        }
        Listening::Next => called(listeners.next(dispatch)),
    }
}

fn add_three(listeners: &mut Listeners) -> Result<(), Fail>
    requires { listeners.old.part.given < 2 ^ 32 }
    ensures { listeners.new.part.given ≤ listeners.old.part.given + 3 }
{
    listeners.add(WINDOW, EventKind::Resize, HandlerId(0))?;
    listeners.add(ELEMENT, EventKind::Resize, HandlerId(1))?;
    listeners.add(WINDOW, EventKind::Resize, HandlerId(2))?;
    Ok(())
}

const LISTENING: [(Listening, Outcome); 7] = [
    (
        Listening::Add(WINDOW, EventKind::Resize, 2),
        Outcome::Nothing,
    ),
    (
        Listening::Add(WINDOW, EventKind::Scroll, 2),
        Outcome::Refused(TableFault::Limit),
    ),
    (
        Listening::Remove(WINDOW, EventKind::Resize, 0),
        Outcome::Done,
    ),
    (
        Listening::Remove(WINDOW, EventKind::Resize, 0),
        Outcome::Nothing,
    ),
    (Listening::Add(WINDOW, EventKind::Resize, 0), Outcome::Done),
    (Listening::Next, Outcome::Called(2)),
    (Listening::Next, Outcome::Nothing),
];

fn see_listening(rt: &impl Abort, listeners: &mut Listeners, dispatch: &mut Dispatch)
    requires { listeners.old.part.given ≤ 3 }
{
    for (step, want) in LISTENING {
        same(
            rt,
            &listen(listeners, dispatch, step),
            &want,
            "the outcome of a step",
        );
    }
}

#[test]
fn a_listener_that_is_made_anew_waits_for_the_next_event(rt: HostRuntime) -> Result<(), Fail> {
    let mut listeners = Listeners::new(rt.alloc(), 3);
    add_three(&mut listeners)?;
    let mut dispatch = listeners.begin_dispatch(WINDOW, EventKind::Resize)?;
    see_listening(&rt, &mut listeners, &mut dispatch);
    Ok(())
}

// A step at a document and a key.
#[derive(Clone, Copy)]
enum Step {
    Add(u32, Name, u32),
    Remove(u32, Name),
    Next,
}

fn request(callbacks: &mut FrameCallbacks, batch: &mut Batch, step: Step) -> Outcome
    requires { callbacks.old.part.given < 2 ^ 32 }
    ensures { callbacks.new.part.given ≤ callbacks.old.part.given + 1 }
{
    match step {
        Step::Add(document, key, handler) => {
            answer(callbacks.request(DocumentId(document), key, HandlerId(handler)))
        }
        Step::Remove(document, key) => found(callbacks.cancel(DocumentId(document), key)),
        Step::Next => match callbacks.next(batch) {
            Some((_, handler)) => Outcome::Called(handler.0),
            None => Outcome::Nothing,
        },
    }
}

fn request_three(callbacks: &mut FrameCallbacks, x: Name, y: Name) -> Result<(), Fail>
    requires { callbacks.old.part.given < 2 ^ 32 }
    ensures { callbacks.new.part.given ≤ callbacks.old.part.given + 3 }
{
    callbacks.request(DocumentId(0), x, HandlerId(4))?;
    callbacks.request(DocumentId(1), x, HandlerId(5))?;
    callbacks.request(DocumentId(0), y, HandlerId(6))?;
    Ok(())
}

fn see_requests(
    rt: &impl Abort,
    callbacks: &mut FrameCallbacks,
    batch: &mut Batch,
    steps: [(Step, Outcome); 7],
)
    requires { callbacks.old.part.given ≤ 3 }
{
    for (step, want) in steps {
        same(
            rt,
            &request(callbacks, batch, step),
            &want,
            "the outcome of a step",
        );
    }
}

#[test]
fn a_frame_callback_that_is_requested_anew_waits_for_the_next_update(
    rt: HostRuntime,
) -> Result<(), Fail> {
    let x = name(&rt, b"x");
    let y = name(&rt, b"y");
    let mut callbacks = FrameCallbacks::new(rt.alloc(), 3);
    request_three(&mut callbacks, x, y)?;
    let mut batch = callbacks.begin(DocumentId(0))?;
    let steps = [
        (Step::Add(0, x, 5), Outcome::Refused(TableFault::Taken)),
        (Step::Add(1, y, 6), Outcome::Refused(TableFault::Limit)),
        (Step::Next, Outcome::Called(4)),
        (Step::Remove(0, x), Outcome::Nothing),
        (Step::Remove(0, y), Outcome::Done),
        (Step::Add(0, y, 7), Outcome::Done),
        (Step::Next, Outcome::Nothing),
    ];
    see_requests(&rt, &mut callbacks, &mut batch, steps);
    Ok(())
}

// A timer that is set is due at 0.
fn set(timers: &mut Timers, batch: &mut Batch, step: Step) -> Outcome
    requires { timers.old.part.given < 2 ^ 32 }
    ensures { timers.new.part.given ≤ timers.old.part.given + 1 }
{
    match step {
        Step::Add(document, key, handler) => {
            answer(timers.add(DocumentId(document), key, 0, HandlerId(handler)))
        }
        Step::Remove(document, key) => found(timers.clear(DocumentId(document), key)),
        Step::Next => match timers.next(batch) {
            Some((_, _, handler)) => Outcome::Called(handler.0),
            None => Outcome::Nothing,
        },
    }
}

fn add_four(timers: &mut Timers, x: Name, y: Name) -> Result<(), Fail>
    requires { timers.old.part.given < 2 ^ 32 }
    ensures { timers.new.part.given ≤ timers.old.part.given + 4 }
{
    timers.add(DocumentId(0), x, 5, HandlerId(0))?;
    timers.add(DocumentId(1), x, 6, HandlerId(1))?;
    timers.add(DocumentId(0), y, 3, HandlerId(2))?;
    timers.add(DocumentId(1), y, 5, HandlerId(3))?;
    Ok(())
}

fn see_timers(rt: &impl Abort, timers: &mut Timers, batch: &mut Batch, steps: [(Step, Outcome); 8])
    requires { timers.old.part.given ≤ 4 }
{
    for (step, want) in steps {
        same(
            rt,
            &set(timers, batch, step),
            &want,
            "the outcome of a step",
        );
    }
}

#[test]
fn timers_run_by_due_time_and_then_by_making(rt: HostRuntime) -> Result<(), Fail> {
    let x = name(&rt, b"x");
    let y = name(&rt, b"y");
    let mut timers = Timers::new(rt.alloc(), 4);
    add_four(&mut timers, x, y)?;
    let mut batch = timers.take_due(5)?;
    let steps = [
        (Step::Add(0, x, 5), Outcome::Refused(TableFault::Taken)),
        (Step::Add(2, x, 5), Outcome::Refused(TableFault::Limit)),
        (Step::Next, Outcome::Called(2)),
        (Step::Next, Outcome::Called(0)),
        (Step::Add(0, x, 4), Outcome::Done),
        (Step::Remove(1, y), Outcome::Done),
        (Step::Remove(1, y), Outcome::Nothing),
        (Step::Next, Outcome::Nothing),
    ];
    see_timers(&rt, &mut timers, &mut batch, steps);
    Ok(())
}

/// How many timers are due at once: more than a node of any tree holds.
const MANY: u32 = 300;

/// When they are due.
const DUE: u64 = 7;

// A timer of each of so many documents.
fn add_many(timers: &mut Timers, x: Name) -> Result<(), Fail>
    requires { timers.old.part.given ≡ 0 }
{
    for document in 0..MANY {
        timers.add(DocumentId(document), x, DUE, HandlerId(document))?;
    }
    Ok(())
}

fn see_many(rt: &impl Abort, timers: &mut Timers, batch: &mut Batch, x: Name) {
    for document in 0..MANY {
        let called = timers.next(batch);
        same(
            rt,
            &called,
            &Some((DocumentId(document), x, HandlerId(document))),
            "what is called",
        );
    }
    same(rt, &timers.next(batch), &None, "no more timers");
}

#[test]
fn timers_that_are_due_at_once_run_in_order_of_setting(rt: HostRuntime) -> Result<(), Fail> {
    let x = name(&rt, b"x");
    let mut timers = Timers::new(rt.alloc(), MANY);
    add_many(&mut timers, x)?;
    let mut batch = timers.take_due(DUE)?;
    see_many(&rt, &mut timers, &mut batch, x);
    Ok(())
}

fn see_tasks(rt: &impl Abort, tasks: &mut Tasks) -> Result<(), Fail> {
    let posted = Task::Posted(DocumentId(0), HandlerId(3));
    tasks.push(posted)?;
    same(
        rt,
        &tasks.push(posted),
        &Err(TableFault::Limit),
        "a task too many",
    );
    tasks.push(Task::Notify(DocumentId(2)))?;
    same(rt, &tasks.pop(), &Some(posted), "the next task");
    tasks.push(posted)?;
    same(
        rt,
        &tasks.pop(),
        &Some(Task::Notify(DocumentId(2))),
        "the next task",
    );
    same(rt, &tasks.pop(), &Some(posted), "the next task");
    same(rt, &tasks.pop(), &None, "the next task");
    Ok(())
}

#[test]
fn a_notify_task_needs_no_room(rt: HostRuntime) -> Result<(), Fail> {
    let mut tasks = Tasks::new(rt.alloc(), 1);
    see_tasks(&rt, &mut tasks)
}
