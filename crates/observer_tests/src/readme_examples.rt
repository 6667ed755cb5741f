//! The examples of the crates' README files, each the body of a function here, as `tools/check-documents` sees.

use crate::common::{Page, node, rect};
use clip_chain::{reaches, root_rect, visible_rect};
use depth_gather::{Sizes, end_delivery, gather, next_delivery};
use element_tree::{Container, DocumentId, NodeId};
use event_tables::{HandlerId, Timers};
use intersection_observer::{Finding, Root, Settled, Watchers};
use px_units::{BoxKind, Point, Rect, Size};
use resize_observer::Observers;
use scrolling::{Outcome, Scrolls};
use std::test::Fail;
use text_io::Name;
use thresholds::{Margins, Ratio, Thresholds};

// 800 by 600 pixels.
const VIEW: Rect = Rect {
    left: 0,
    top: 0,
    right: 51200,
    bottom: 38400,
};

// A target that fills the viewport.
const FINDING: Finding = Finding {
    index: 1,
    meets: true,
    ratio: Ratio { part: 1, whole: 1 },
    root: VIEW,
    target: VIEW,
    cut: VIEW,
};

// Each element is a square of 100 pixels, and as deep as its number.
struct Squares;

impl Sizes for Squares {
    ghost sight = { λ it. record { size = λ n kind. record { across = 6400; down = 6400 }; corner = λ n. record { across = 0; down = 0 }; depth = λ n. n } };

    fn size_now(&self, _node: NodeId, _kind: BoxKind) -> Size {
        Size {
            width: 6400,
            height: 6400,
        }
    }

    fn corner_now(&self, _node: NodeId) -> Point {
        Point { left: 0, top: 0 }
    }

    fn depth_now(&self, node: NodeId) -> u32 {
        node.0
    }
}

#[test]
fn a_margin_moves_a_root_and_thresholds_are_counted(rt: HostRuntime) -> Result<(), Fail> {
    let margins = Margins::parse(b"10px 5%")?; // above and below 10 pixels, at the sides 5% of the width
    let root = margins.dilate(VIEW); // from 0 to 51200 units across, 800 pixels
    assert_eq!(rt; (root.left, root.top), (-2560, -640));
    let thresholds = Thresholds::new(rt.alloc(), &[10_000, 0, 5_000])?; // 0, 0.5 and 1 once sorted
    let half = Ratio { part: 1, whole: 2 };
    assert_eq!(rt; thresholds.index_of(half), 2); // 0 and 0.5 aren't greater
    Ok(())
}

#[test]
fn an_element_is_observed(rt: HostRuntime) -> Result<(), Fail> {
    let mut observers = Observers::new(rt.alloc(), 4096, 50_000);
    let observer = observers.make(DocumentId(0), None)?; // of `top`, without a handler
    observers.observe(observer, NodeId(3), BoxKind::Content)?;
    assert_eq!(rt; observers.targets(observer).len(), 1); // the one observation
    Ok(())
}

#[test]
fn a_finding_that_is_news_is_queued(rt: HostRuntime) -> Result<(), Fail> {
    let alloc = rt.alloc();
    let mut watchers = Watchers::new(alloc, 4096, 50_000);
    let (margins, thresholds) = (Margins::parse(b"")?, Thresholds::new(alloc, &[])?);
    let watcher = watchers.make(DocumentId(0), None, Root::Implicit, margins, thresholds)?;
    watchers.observe(watcher, NodeId(3))?;
    let registrations = watchers.registrations(watcher);
    assert!(rt; registrations.len() == 1);
    let registration = registrations[0];
    // FINDING is what an update finds of a target, say
    let settled = watchers.settle(registration, 16, FINDING)?;
    assert_eq!(rt; settled, Settled::Queued);
    let queue = watchers.take_records(watcher);
    assert_eq!(rt; queue.as_slice().len(), 1); // its entry
    Ok(())
}

#[test]
fn a_target_is_seen_in_the_viewport(rt: HostRuntime) -> Result<(), Fail> {
    let page = Page::new(); // elements with their boxes, a `Geometry`
    let (target, root) = (node(6), Container::Document(DocumentId(0))); // the implicit root
    assert!(rt; reaches(&page, target, root));
    let limits = Margins::parse(b"1px")?.dilate(root_rect(&page, root));
    let seen = visible_rect(&page, target, root, limits); // None where nothing is seen
    assert_eq!(rt; seen, Some(rect((300, 300, 10, 10)))); // its whole box
    Ok(())
}

#[test]
fn a_viewport_is_scrolled(rt: HostRuntime) -> Result<(), Fail> {
    let mut scrolls = Scrolls::new(rt.alloc());
    let top = DocumentId(0);
    let view = Container::Document(top);
    let range = Size {
        width: 0,
        height: 6400,
    }; // 100 pixels downwards
    let outcome = scrolls.scroll_to(top, view, Point { left: 0, top: 9600 }, range)?;
    assert_eq!(rt; outcome, Outcome::Moved);
    assert_eq!(rt;
        scrolls.offset_in_force(view, range),
        Point { left: 0, top: 6400 }
    );
    Ok(())
}

#[test]
fn what_was_gathered_is_delivered(rt: HostRuntime) -> Result<(), Fail> {
    let alloc = rt.alloc();
    let mut observers = Observers::new(alloc, 4096, 50_000);
    let top = DocumentId(0);
    let observer = observers.make(top, None)?;
    observers.observe(observer, NodeId(3), BoxKind::Content)?;
    // of this document, what is deeper than 0; `Squares` tells the sizes of now
    assert_eq!(rt; gather(&mut observers, &Squares, top, 0), 1);
    if let Some(delivery) = next_delivery(alloc, &mut observers, &Squares, top, 0)? {
        // the observer's callback is called with the entries here; the next delivery is looked for from delivery.place on
        assert_eq!(rt; delivery.entries.as_slice().len(), 1);
        end_delivery(&mut observers, delivery.observer);
    } else {
        assert!(rt; false, "nothing is delivered");
    }
    Ok(())
}

#[test]
fn a_timer_is_due(rt: HostRuntime) -> Result<(), Fail> {
    let key = Name::read(b"later").expect(&rt, "a name");
    let mut timers = Timers::new(rt.alloc(), 4096);
    let top = DocumentId(0);
    timers.add(top, key, 16, HandlerId(2))?; // due at 16 ms
    let mut batch = timers.take_due(20)?;
    assert_eq!(rt; timers.next(&mut batch), Some((top, key, HandlerId(2)))); // its key is free again from here on
    assert_eq!(rt; timers.next(&mut batch), None);
    Ok(())
}
