//! Gathering and deliveries through the calls, as the standard's steps give them.
ghost use Rattle.std.specs.Prelude.{◌≡◌, ◌≤◌, ◌<◌, ◌+◌, ◌^◌, length};

use crate::common::three_observers;
use crate::same::same;
use depth_gather::{
    Delivery, ResizeEntry, ResizeList, Sizes, end_delivery, gather, has_skipped, least_depth,
    next_delivery,
};
use element_tree::{DocumentId, NodeId};
use px_units::{BoxKind, Point, Size};
use resize_observer::Observers;
use std::alloc::{AllocError, Global};
use std::process::Abort;
use std::test::Fail;

// Each element is as wide, as high as its number, and as deep as its number.
#[derive(Clone, Copy)]
struct Wide {
    width: u32,
}

impl Sizes for Wide {
    ghost sight = { λ it. record { size = λ n kind. record { across = it.width; down = n }; corner = λ n. record { across = 1; down = n }; depth = λ n. n } };

    fn size_now(&self, node: NodeId, _kind: BoxKind) -> Size {
        Size {
            width: self.width as i64,
            height: node.0 as i64,
        }
    }

    fn corner_now(&self, node: NodeId) -> Point {
        Point {
            left: 1,
            top: node.0 as i64,
        }
    }

    fn depth_now(&self, node: NodeId) -> u32 {
        node.0
    }
}

// Of a document and a place among its observers; sizes by their width.
#[derive(Clone, Copy)]
enum Step {
    Observe(u32, usize, u32),
    Unobserve(u32, usize, u32),
    Disconnect(u32, usize),
    Gather(u32, u32, u32),
    Deliver(u32, usize, u32),
}

// Each entry as its target, size and depth.
fn listed(alloc: Global, entries: &[ResizeEntry]) -> Result<String, Fail> {
    let mut text = String::new(alloc);
    for each in entries {
        let shown = format!(in alloc;
            " {}:{},{}:{}x{}:{}x{}@{}",
            each.target.0,
            each.corner.left,
            each.corner.top,
            each.content.width,
            each.content.height,
            each.border.width,
            each.border.height,
            each.depth
        )?;
        text.push_str(shown.as_str())?;
    }
    Ok(text)
}

// The next delivery, which then ends.
fn deliver(
    alloc: Global,
    observers: &mut Observers,
    document: DocumentId,
    place: usize,
    width: u32,
) -> Result<String, Fail>
    ensures { observers.new.part.given ≡ observers.old.part.given }
{
    let Some(delivery) = next_delivery(alloc, observers, &Wide { width }, document, place)? else {
        return Ok(format!(in alloc; "none")?);
    };
    end_delivery(observers, delivery.observer);
    let least = least_depth(&delivery);
    let entries = listed(alloc, delivery.entries.as_slice())?;
    Ok(format!(in alloc;
        "{}{entries} least {least} next {}",
        delivery.observer.0, delivery.place
    )?)
}

// Whether there is such an observer, and the step was made; a target that is there once more gets a new observation.
fn change(observers: &mut Observers, step: Step) -> &'static str
    requires { observers.old.part.given < 2 ^ 32 }
    ensures { observers.new.part.given ≤ observers.old.part.given + 1 }
{
    let (document, place) = match step {
        Step::Observe(document, place, _)
        | Step::Unobserve(document, place, _)
        | Step::Disconnect(document, place) => (document, place),
        Step::Gather(..) | Step::Deliver(..) => return "no change",
    };
    let Some(observer) = observers.of_document(DocumentId(document), place) else {
        return "no observer";
    };
    match step {
        Step::Observe(_, _, target) => {
            match observers.observe(observer, NodeId(target), BoxKind::Content) {
                Ok(()) => "changed",
                Err(_) => "refused",
            }
        }
        Step::Unobserve(_, _, target) => {
            observers.unobserve(observer, NodeId(target));
            "changed"
        }
        Step::Disconnect(..) => {
            observers.disconnect(observer);
            "changed"
        }
        Step::Gather(..) | Step::Deliver(..) => "no change",
    }
}

fn apply(alloc: Global, observers: &mut Observers, step: Step) -> Result<String, Fail>
    requires { observers.old.part.given < 2 ^ 32 }
    ensures { observers.new.part.given ≤ observers.old.part.given + 1 }
{
    match step {
        Step::Gather(number, depth, width) => {
            let document = DocumentId(number);
            let active = gather(observers, &Wide { width }, document, depth);
            let skipped = has_skipped(observers, document);
            Ok(format!(in alloc; "{active} {skipped}")?)
        }
        Step::Deliver(document, place, width) => {
            deliver(alloc, observers, DocumentId(document), place, width)
        }
        _ => Ok(format!(in alloc; "{}", change(observers, step))?),
    }
}

// A step, and what it answers.
const STEPS: [(Step, &'static str); 24] = [
    (Step::Observe(0, 0, 1), "changed"),
    (Step::Observe(0, 0, 3), "changed"),
    (Step::Observe(0, 1, 2), "changed"),
    (Step::Observe(1, 0, 5), "changed"),
    (Step::Gather(0, 0, 64), "3 false"),
    // A target of another document isn't gathered.
    (Step::Deliver(1, 0, 64), "none"),
    (
        Step::Deliver(0, 0, 64),
        "0 1:1,1:64x1:64x1@1 3:1,3:64x3:64x3@3 least 1 next 1",
    ),
    // The callback observes the target of the next observer anew: its old observation stays active, and is told
    // with the size of now, which isn't that of the new one.
    (Step::Observe(0, 1, 2), "changed"),
    (
        Step::Deliver(0, 1, 128),
        "2 2:1,2:128x2:128x2@2 least 2 next 2",
    ),
    (Step::Deliver(0, 2, 128), "none"),
    (Step::Gather(0, 1, 128), "2 true"),
    (
        Step::Deliver(0, 0, 128),
        "0 3:1,3:128x3:128x3@3 least 3 next 1",
    ),
    // Unobserving leaves the active list as it is.
    (Step::Unobserve(0, 1, 2), "changed"),
    (
        Step::Deliver(0, 1, 128),
        "2 2:1,2:128x2:128x2@2 least 2 next 2",
    ),
    (Step::Gather(0, 2, 128), "0 true"),
    (Step::Deliver(0, 0, 128), "none"),
    // Nothing is deeper than all, and a target at the depth isn't deeper.
    (Step::Gather(1, 5, 128), "0 true"),
    (Step::Gather(1, 4, 128), "1 false"),
    // Disconnecting empties the active list.
    (Step::Disconnect(1, 0), "changed"),
    (Step::Deliver(1, 0, 128), "none"),
    (Step::Gather(0, 0, 128), "1 false"),
    (
        Step::Deliver(0, 0, 128),
        "0 1:1,1:128x1:128x1@1 least 1 next 1",
    ),
    (Step::Gather(0, 0, 128), "0 false"),
    (Step::Gather(2, 0, 128), "0 false"),
];

fn see_steps(rt: &impl Abort, alloc: Global, observers: &mut Observers) -> Result<(), Fail>
    requires { observers.old.part.given ≡ 0 }
{
    for (step, want) in STEPS {
        let said = apply(alloc, observers, step)?;
        assert!(rt; said.as_bytes() == want.as_bytes(), "{said}, want {want}");
    }
    Ok(())
}

#[test]
fn rounds_follow_the_steps_of_the_standard(rt: HostRuntime) -> Result<(), Fail> {
    let mut observers = three_observers(rt.alloc(), 9)?;
    see_steps(&rt, rt.alloc(), &mut observers)
}

fn entry(depth: u32) -> ResizeEntry {
    let wide = Wide { width: 7 };
    ResizeEntry {
        target: NodeId(depth),
        corner: wide.corner_now(NodeId(depth)),
        content: wide.size_now(NodeId(depth), BoxKind::Content),
        border: wide.size_now(NodeId(depth), BoxKind::Border),
        device: wide.size_now(NodeId(depth), BoxKind::Device),
        depth,
    }
}

fn three_entries(alloc: Global) -> Result<Vec<ResizeEntry>, AllocError> {
    let mut entries = Vec::new(alloc);
    entries.push(entry(4))?;
    entries.push(entry(2))?;
    entries.push(entry(9))?;
    Ok(entries)
}

fn see_delivery(rt: &impl Abort, observers: &mut Observers, delivery: Delivery)
    requires { delivery.observer.0 < length observers.old.part.made }
{
    assert!(rt; delivery.entries.as_slice().len() == 3);
    same(rt, &least_depth(&delivery), &2, "the least depth");
    end_delivery(observers, delivery.observer);
}

#[test]
fn the_least_depth_is_that_of_any_entry(rt: HostRuntime) -> Result<(), Fail> {
    let mut observers = three_observers(rt.alloc(), 9)?;
    let observer = observers
        .of_document(DocumentId(1), 0)
        .expect(&rt, "an observer");
    let entries = ResizeList::new(three_entries(rt.alloc())?);
    let delivery = Delivery {
        observer,
        entries,
        place: 1,
    };
    see_delivery(&rt, &mut observers, delivery);
    Ok(())
}
