//! Scrolls by the rules of CSSOM View, with the positions of the worked examples.

ghost use Rattle.scrolling.specs.Ranges.{IsRange};

use crate::same::same;
use element_tree::{Container, DocumentId, NodeId};
use px_units::{Point, Size};
use scrolling::{Outcome, Scrolls};
use std::process::Abort;
use std::test::Fail;

const BOX: Container = Container::Element(NodeId(3));

const OTHER: Container = Container::Element(NodeId(1));

const VIEW: Container = Container::Document(DocumentId(1));

const TOP: Container = Container::Document(DocumentId(0));

// A range in whole pixels.
fn range(width: u16, height: u16) -> Size
    ensures { IsRange result }
{
    Size {
        width: i64::from(width) * 64,
        height: i64::from(height) * 64,
    }
}

fn pixels(left: i16, top: i16) -> Point {
    Point {
        left: i64::from(left) * 64,
        top: i64::from(top) * 64,
    }
}

/// What is scrolled, the position that is wanted, the range, in pixels, what comes of it, and the offset then.
type Scroll = (Container, (i16, i16), (u16, u16), Outcome, (i16, i16));

const SCROLLS: [Scroll; 11] = [
    (BOX, (0, 250), (0, 210), Outcome::Moved, (0, 210)),
    (BOX, (0, 900), (0, 210), Outcome::Same, (0, 210)),
    (VIEW, (0, 900), (0, 250), Outcome::Moved, (0, 250)),
    (VIEW, (0, 50), (0, 50), Outcome::Same, (0, 50)),
    (VIEW, (0, 250), (0, 250), Outcome::Same, (0, 250)),
    (VIEW, (7, 40), (5, 50), Outcome::Moved, (5, 40)),
    (OTHER, (-3, -3), (9, 9), Outcome::Same, (0, 0)),
    (OTHER, (4, -3), (9, 9), Outcome::Moved, (4, 0)),
    (OTHER, (8, 8), (0, 0), Outcome::Same, (0, 0)),
    (TOP, (1, 1), (0, 0), Outcome::Same, (0, 0)),
    (BOX, (0, -1), (0, 210), Outcome::Moved, (0, 0)),
];

fn see_offset(
    rt: &impl Abort,
    scrolls: &Scrolls,
    target: Container,
    most: (u16, u16),
    offset: (i16, i16),
) {
    let found = scrolls.offset_in_force(target, range(most.0, most.1));
    same(
        rt,
        &found,
        &pixels(offset.0, offset.1),
        "the offset in force",
    );
}

fn see_scroll(rt: &impl Abort, scrolls: &mut Scrolls, row: Scroll) -> Result<(), Fail> {
    let (target, wanted, most, want, offset) = row;
    let within = range(most.0, most.1);
    let outcome = scrolls.scroll_to(DocumentId(0), target, pixels(wanted.0, wanted.1), within)?;
    same(rt, &(wanted, outcome), &(wanted, want), "wanted, outcome");
    see_offset(rt, scrolls, target, most, offset);
    Ok(())
}

#[test]
fn scrolls_keep_to_their_ranges(rt: HostRuntime) -> Result<(), Fail> {
    let mut scrolls = Scrolls::new(rt.alloc());
    for row in SCROLLS {
        see_scroll(&rt, &mut scrolls, row)?;
    }
    see_offset(&rt, &scrolls, VIEW, (0, 50), (0, 40));
    see_offset(&rt, &scrolls, TOP, (0, 50), (0, 0));
    Ok(())
}

fn take(rt: &impl Abort, scrolls: &mut Scrolls, document: DocumentId, want: &[Container]) {
    let taken = scrolls.take_pending(document);
    same(rt, &taken.as_slice(), &want, "what is taken");
}

/// The document that scrolls, what is scrolled, to which pixel from above, and what comes of it.
type Step = (u32, Container, i16, Outcome);

const STEPS: [Step; 8] = [
    (0, BOX, 1, Outcome::Moved),
    (2, BOX, 2, Outcome::Moved),
    (0, VIEW, 1, Outcome::Moved),
    (0, BOX, 3, Outcome::Moved),
    (0, OTHER, 1, Outcome::Moved),
    (0, OTHER, 1, Outcome::Same),
    (0, Container::Element(NodeId(0)), 0, Outcome::Same),
    (2, TOP, 9, Outcome::Moved),
];

fn see_step(rt: &impl Abort, scrolls: &mut Scrolls, step: Step) -> Result<(), Fail> {
    let (document, target, top, want) = step;
    let outcome = scrolls.scroll_to(DocumentId(document), target, pixels(0, top), range(9, 9))?;
    same(rt, &(top, outcome), &(top, want), "top, outcome");
    Ok(())
}

#[test]
fn pending_lists_have_an_order_and_no_doubles(rt: HostRuntime) -> Result<(), Fail> {
    let mut scrolls = Scrolls::new(rt.alloc());
    for step in STEPS {
        see_step(&rt, &mut scrolls, step)?;
    }
    take(&rt, &mut scrolls, DocumentId(0), &[BOX, VIEW, OTHER]);
    take(&rt, &mut scrolls, DocumentId(0), &[]);
    take(&rt, &mut scrolls, DocumentId(1), &[]);
    see_step(&rt, &mut scrolls, (0, OTHER, 2, Outcome::Moved))?;
    take(&rt, &mut scrolls, DocumentId(0), &[OTHER]);
    take(&rt, &mut scrolls, DocumentId(2), &[BOX, TOP]);
    take(&rt, &mut scrolls, DocumentId(7), &[]);
    Ok(())
}
