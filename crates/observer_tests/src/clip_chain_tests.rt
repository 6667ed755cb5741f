//! What is seen in a page with a frame in a scroller, worked by hand from the rules.

ghost use Rattle.std.specs.Prelude.{◌≡◌, pos, Some};
ghost use Rattle.observer_tests.specs.ChainSample.{sides, element};

use crate::same::same;
use clip_chain::{Geometry, Scrolls, Through, reaches, root_rect, visible_rect};
use element_tree::{Container, DocumentId, NodeId};
use px_units::Rect;
use std::process::Abort;
use thresholds::{Margins, ThresholdFault};

// The viewport of the page, and that of the document in the frame.
const TOP: Container = Container::Document(DocumentId(0));

const FRAMED: Container = Container::Document(DocumentId(1));

// A page whose root element, 0, holds a scroller, 1. In it stand a frame, 2, and two boxes at its right edge: 7, which touches
// it, and 8, which lies one unit beyond. The root element of the frame's document, 3, holds a scroller, 4, and in it an open
// box, 5, holds a scroller, 6. Other elements have no box.
struct Sample;

impl Geometry for Sample {
    ghost use Rattle.observer_tests.specs.ChainSample.{sample, sample_rank};

    ghost scene = { λ it. sample };

    ghost rank = { λ it. sample_rank };

    fn container(&self, of: Container) -> Option<Container> {
        match of {
            Container::Document(DocumentId(1)) => Some(node(2)),
            Container::Document(_) => None,
            Container::Element(NodeId(number)) => match number {
                0 => Some(TOP),
                1 => Some(node(0)),
                2 => Some(node(1)),
                3 => Some(FRAMED),
                4 => Some(node(3)),
                5 => Some(node(4)),
                6 => Some(node(5)),
                7 | 8 => Some(node(1)),
                _ => None,
            },
        }
    }

    fn clip(&self, of: Container) -> Option<Rect> {
        match of {
            Container::Document(DocumentId(0)) => Some(rect(0, 0, 800, 600)),
            Container::Document(DocumentId(1)) => Some(rect(100, 200, 400, 500)),
            Container::Document(_) => None,
            Container::Element(NodeId(number)) => match number {
                1 => Some(rect(10, 20, 410, 320)),
                4 => Some(rect(120, 160, 380, 460)),
                6 => Some(rect(131, 181, 140, 190)),
                _ => None,
            },
        }
    }

    fn bounds(&self, of: Container) -> Rect {
        match of {
            Container::Document(DocumentId(0)) => rect(0, 0, 800, 600),
            Container::Document(DocumentId(1)) => rect(100, 200, 400, 500),
            Container::Document(_) => rect(0, 0, 0, 0),
            Container::Element(NodeId(number)) => match number {
                0 => rect(0, 0, 800, 2000),
                1 => rect(5, 15, 415, 325),
                2 => rect(100, 200, 400, 500),
                3 => rect(100, 150, 400, 900),
                4 => rect(115, 155, 385, 465),
                5 => rect(150, 300, 900, 310),
                6 => rect(130, 180, 600, 340),
                7 => rect(410, 50, 500, 100),
                8 => rect(411, 50, 500, 100),
                _ => rect(0, 0, 0, 0),
            },
        }
    }
}

impl Scrolls for Sample {
    fn scrolls(&self, of: Container) -> bool {
        match of {
            Container::Document(_) => false,
            Container::Element(NodeId(number)) => match number {
                1 | 4 | 6 => true,
                _ => false,
            },
        }
    }
}

fn rect(left: u32, top: u32, right: u32, bottom: u32) -> Rect
    ensures { result ≡ sides left top right bottom }
{
    Rect {
        left: left as i64,
        top: top as i64,
        right: right as i64,
        bottom: bottom as i64,
    }
}

fn node(number: u32) -> Container
    ensures { result ≡ element number }
{
    Container::Element(NodeId(number))
}

// None where the root isn't above the target.
fn seen(target: Container, root: Container, limits: Rect) -> Option<Option<Rect>> {
    if reaches(&Sample, target, root) {
        Some(visible_rect(&Sample, target, root, limits))
    } else {
        None
    }
}

// The same as an observer with scroll margins sees it.
fn seen_through(
    target: Container,
    root: Container,
    margins: Margins,
    limits: Rect,
) -> Option<Option<Rect>> {
    let view = Through {
        geometry: &Sample,
        root,
        margins,
    };
    if reaches(&view, target, root) {
        Some(visible_rect(&view, target, root, limits))
    } else {
        None
    }
}

const NODE_0: Container = Container::Element(NodeId(0));

const NODE_1: Container = Container::Element(NodeId(1));

const NODE_2: Container = Container::Element(NodeId(2));

const NODE_4: Container = Container::Element(NodeId(4));

const NODE_5: Container = Container::Element(NodeId(5));

const NODE_6: Container = Container::Element(NodeId(6));

const NODE_7: Container = Container::Element(NodeId(7));

const NODE_8: Container = Container::Element(NodeId(8));

const NODE_9: Container = Container::Element(NodeId(9));

/// The left, top, right and bottom edges of a rectangle.
type Edges = (u32, u32, u32, u32);

const VIEW: Edges = (0, 0, 800, 600);

const WIDE: Edges = (0, 0, 1000, 1000);

fn rect_of(edges: Edges) -> Rect {
    let (left, top, right, bottom) = edges;
    rect(left, top, right, bottom)
}

/// A target, a root, and how the target is cut within `WIDE`: 40 units at the outer scroller and 26 at the inner one, by their widths. The
/// viewport of the frame's document stays.
const THROUGH: [(Container, Container, Option<Edges>); 6] = [
    (NODE_6, TOP, Some((130, 200, 400, 340))),
    (NODE_6, NODE_1, Some((130, 200, 400, 340))),
    (NODE_6, FRAMED, Some((130, 180, 406, 340))),
    (NODE_6, NODE_4, Some((130, 180, 600, 340))),
    (NODE_7, TOP, Some((410, 50, 450, 100))),
    (NODE_8, TOP, Some((411, 50, 450, 100))),
];

#[test]
fn scroll_margins_move_the_clips_of_scrollers(rt: HostRuntime) -> Result<(), ThresholdFault> {
    for (target, root, want) in THROUGH {
        let found = seen_through(target, root, Margins::parse(b"10%")?, rect_of(WIDE));
        see_cut(&rt, target, root, found, want);
    }
    Ok(())
}

fn see_cut(
    rt: &impl Abort,
    target: Container,
    root: Container,
    found: Option<Option<Rect>>,
    want: Option<Edges>,
) {
    let want = Some(want.map(rect_of));
    same(
        rt,
        &(target, root, found),
        &(target, root, want),
        "target, root, cut",
    );
}

/// Roots with their rectangles: the viewports, the clips of the scrollers, and the box of what is open.
const ALONE: [(Container, Edges); 5] = [
    (TOP, (0, 0, 800, 600)),
    (FRAMED, (100, 200, 400, 500)),
    (NODE_1, (10, 20, 410, 320)),
    (NODE_4, (120, 160, 380, 460)),
    (NODE_5, (150, 300, 900, 310)),
];

fn see_root(rt: &impl Abort, root: Container, found: Rect, want: Edges) {
    same(
        rt,
        &(root, found),
        &(root, rect_of(want)),
        "root, rectangle",
    );
}

#[test]
fn scroll_margins_leave_the_root_alone(rt: HostRuntime) -> Result<(), ThresholdFault> {
    for (root, want) in ALONE {
        let view = Through {
            geometry: &Sample,
            root,
            margins: Margins::parse(b"10%")?,
        };
        see_root(&rt, root, root_rect(&view, root), want);
    }
    Ok(())
}

/// A target, a root, limits, and how the target is cut.
const CUTS: [(Container, Container, Edges, Option<Edges>); 14] = [
    // By the scroller and the viewport of the frame's document, and by the outer scroller; neither its own clip nor the
    // boxes of open elements count.
    (NODE_6, TOP, VIEW, Some((130, 200, 380, 320))),
    // The clip of the root isn't counted where limits are wider.
    (NODE_6, NODE_1, WIDE, Some((130, 200, 380, 340))),
    (
        NODE_6,
        NODE_1,
        (10, 20, 410, 320),
        Some((130, 200, 380, 320)),
    ),
    (NODE_6, NODE_2, WIDE, Some((130, 200, 380, 340))),
    // The chain stops at the nested viewport, at the inner scroller, at the open box.
    (NODE_6, FRAMED, WIDE, Some((130, 180, 380, 340))),
    (NODE_6, NODE_4, WIDE, Some((130, 180, 600, 340))),
    (NODE_6, NODE_5, WIDE, Some((130, 180, 600, 340))),
    // A frame and a nested viewport are targets too.
    (NODE_2, TOP, VIEW, Some((100, 200, 400, 320))),
    (FRAMED, TOP, VIEW, Some((100, 200, 400, 320))),
    // An edge and a corner in common are enough; one unit apart is not.
    (NODE_7, TOP, VIEW, Some((410, 50, 410, 100))),
    (
        NODE_7,
        NODE_1,
        (500, 100, 800, 600),
        Some((500, 100, 500, 100)),
    ),
    (NODE_8, TOP, VIEW, None),
    (NODE_7, NODE_1, (501, 100, 800, 600), None),
    // Limits whose edges cross meet nothing.
    (NODE_6, TOP, (301, 0, 299, 600), None),
];

#[test]
fn a_target_is_cut_by_each_clip_strictly_between(rt: HostRuntime) {
    for (target, root, limits, want) in CUTS {
        let found = seen(target, root, rect_of(limits));
        see_cut(&rt, target, root, found, want);
    }
}

const REACHED: [(Container, Container, bool); 13] = [
    (NODE_6, TOP, true),
    (NODE_6, FRAMED, true),
    (NODE_6, NODE_5, true),
    (NODE_6, NODE_0, true),
    (FRAMED, NODE_2, true),
    (NODE_0, TOP, true),
    (NODE_6, NODE_6, false),
    (NODE_5, NODE_6, false),
    (NODE_6, NODE_7, false),
    (NODE_7, NODE_2, false),
    (NODE_7, FRAMED, false),
    (TOP, TOP, false),
    (NODE_9, TOP, false),
];

#[test]
fn a_root_is_reached_from_below_alone(rt: HostRuntime) {
    for (target, root, want) in REACHED {
        let found = reaches(&Sample, target, root);
        same(
            &rt,
            &(target, root, found),
            &(target, root, want),
            "target, root, reached",
        );
    }
}

/// Roots of each kind with their rectangles.
const KINDS: [(Container, Edges); 5] = [
    (TOP, (0, 0, 800, 600)),
    (FRAMED, (100, 200, 400, 500)),
    (NODE_1, (10, 20, 410, 320)),
    (NODE_5, (150, 300, 900, 310)),
    (NODE_9, (0, 0, 0, 0)),
];

#[test]
fn a_root_rectangle_goes_by_the_kind_of_root(rt: HostRuntime) {
    for (root, want) in KINDS {
        see_root(&rt, root, root_rect(&Sample, root), want);
    }
}
