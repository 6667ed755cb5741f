//! Readings of a page with the numbers that an independent program for the same rules gives.

ghost use Rattle.std.specs.Prelude.{◌≡◌, ◌<◌, IfOk};
ghost use Rattle.page_tree.specs.Items.{IsKind};
ghost use Rattle.page_boxes.specs.Fresh.{IsFresh, IsFreshIn, IsFreshAbove};
ghost use Rattle.page_boxes.specs.Kept.{AreKept};
ghost use Rattle.page_boxes.specs.Pages.{seen_screen, IsScreen};

use crate::common::{SCREEN, all_boxes, any_name, empty_slots, make_elements, put, remove, set};
use crate::same::same;
use block_layout::ItemKind;
use element_tree::{Container, DocumentId, NodeId};
use kept_layout::Kept;
use page_boxes::{
    Screen, has_box, is_scroller, nothing_kept_fits, refresh_for, refresh_in, size_of,
};
use page_geometry::{Reading, Shown, ShownDocument};
use page_tree::PageTree;
use px_units::{BoxKind, Percent, Point, Rect, Size};
use scrolling::{Outcome, Scrolls};
use std::alloc::Global;
use std::marker::Brand;
use std::process::Abort;
use std::sync::ledger::{Blank, Ledger};
use std::test::Fail;
use step_count::Steps;
use text_io::Version;

/// Parents with their children in order: the root element 0 has 1 to 3; the image 4 and the block 6 are in 3.
const PLACES: [(u32, u32); 7] = [(0, 1), (0, 2), (0, 3), (3, 4), (4, 5), (3, 6), (6, 7)];

const STYLES: [(u32, &str, &str); 20] = [
    (0, "margin-top", "5px"),
    (0, "margin-left", "3.5px"),
    (0, "padding-left", "10%"),
    (0, "padding-top", "2%"),
    (0, "border", "2px"),
    (0, "width", "80%"),
    (1, "height", "20px"),
    (1, "margin", "4px"),
    (2, "display", "none"),
    (2, "height", "100px"),
    (3, "padding", "3px"),
    (3, "border", "1px"),
    (3, "margin-top", "1.25px"),
    (4, "margin", "2px"),
    (5, "height", "9px"),
    (6, "height", "50px"),
    (6, "width", "25%"),
    (6, "margin-left", "10%"),
    (7, "height", "50%"),
    (7, "width", "50%"),
];

/// What is done to the page, or what a reading of it gives, in 1/64 pixel.
#[derive(Clone, Copy)]
enum Step {
    /// The viewport becomes 320 by 200 pixels, from 640 by 480.
    Narrow,
    Show(u32),
    Remove(u32),
    /// The left, top, right and bottom edges.
    Read(u32, (i64, i64, i64, i64)),
    /// The left and top paddings, and the width and height of the content.
    Content(u32, (i64, i64, i64, i64)),
    /// The width and height of the viewport.
    Top(i64, i64),
}

const STEPS: [Step; 26] = [
    Step::Content(0, (4096, 819, 32768, 7760)),
    Step::Content(3, (192, 192, 32256, 5376)),
    Step::Content(5, (0, 0, 0, 0)),
    Step::Content(7, (320, 0, 3712, 1600)),
    Step::Read(0, (224, 320, 37344, 9155)),
    Step::Read(1, (4704, 1523, 36960, 2803)),
    Step::Read(2, (0, 0, 0, 0)),
    Step::Read(3, (4448, 3139, 37216, 9027)),
    Step::Read(4, (4832, 3523, 7392, 5443)),
    Step::Read(5, (0, 0, 0, 0)),
    Step::Read(6, (7929, 5571, 15993, 8771)),
    Step::Read(7, (7929, 5571, 11961, 7171)),
    Step::Remove(1),
    Step::Read(1, (0, 0, 0, 0)),
    Step::Read(3, (4448, 1347, 37216, 7235)),
    Step::Read(7, (7929, 3779, 11961, 5379)),
    Step::Show(2),
    Step::Read(2, (4448, 1267, 37216, 7667)),
    Step::Read(7, (7929, 10179, 11961, 11779)),
    Step::Narrow,
    Step::Read(0, (224, 320, 18912, 13353)),
    Step::Read(7, (4243, 9769, 6227, 11369)),
    Step::Top(20480, 12800),
    Step::Remove(0),
    Step::Read(0, (0, 0, 0, 0)),
    Step::Read(7, (0, 0, 0, 0)),
];

fn kind_of(node: u32) -> ItemKind
    ensures { IsKind result }
{
    if node == 4 {
        ItemKind::Image(Size {
            width: 2560,
            height: 1920,
        })
    } else {
        ItemKind::Block
    }
}

fn make_with_image(rt: &impl Abort, page: &mut PageTree) -> Result<(), Fail> {
    for number in 0..8 {
        same(
            rt,
            &page.make(DocumentId(0), any_name(rt), kind_of(number))?,
            &NodeId(number),
            "a node that is made",
        );
    }
    Ok(())
}

fn place_and_style(rt: &impl Abort, page: &mut PageTree) {
    put(rt, page, Container::Document(DocumentId(0)), 0);
    for (parent, child) in PLACES {
        put(rt, page, Container::Element(NodeId(parent)), child);
    }
    for (node, property, value) in STYLES {
        set(rt, page, node, property, value);
    }
    set(rt, page, 7, "padding-left", "5px");
    set(rt, page, 7, "box-sizing", "border-box");
}

fn page_of(rt: &impl Abort, alloc: Global) -> Result<PageTree, Fail> {
    let mut page = PageTree::new(alloc, Version::First)?;
    make_with_image(rt, &mut page)?;
    place_and_style(rt, &mut page);
    Ok(page)
}

fn reading(edges: (i64, i64, i64, i64), scrolled: i64) -> Reading {
    let (left, top, right, bottom) = edges;
    Reading {
        rect: Rect {
            left,
            top,
            right,
            bottom,
        },
        scroll: Point {
            left: 0,
            top: scrolled,
        },
    }
}

fn screen_of(is_narrow: bool) -> Screen
    ensures { IsScreen result }
{
    let (width, height) = if is_narrow {
        (20480, 12800)
    } else {
        (40960, 30720)
    };
    Screen {
        size: Size { width, height },
        ratio: Percent(10_000),
    }
}

fn see_content(rt: &impl Abort, shown: &Shown<'_>, node: u32, content: (i64, i64, i64, i64)) {
    let (left, top, width, height) = content;
    let corner = shown.corner_of(NodeId(node));
    same(rt, &corner, &Point { left, top }, node);
    let size = shown.size_of(NodeId(node), BoxKind::Content);
    same(rt, &size, &Size { width, height }, node);
}

// Reads the page, if this is what the step does.
fn see(
    rt: &impl Abort,
    alloc: Global,
    page: &PageTree,
    boxes: &Kept,
    scrolls: &Scrolls,
    screen: Screen,
    step: Step,
)
    requires screen { IsScreen screen }
    requires fresh { IsFresh page.now.tree (seen_screen screen) boxes.now }
{
    let shown = Shown::new(page, boxes, scrolls, screen).with_documents(alloc);
    match step {
        Step::Read(node, edges) => {
            let found = shown.read(Container::Element(NodeId(node)));
            same(rt, &found, &reading(edges, 0), node);
            same(rt, &has_box(page, NodeId(node)), &(edges.2 != 0), node);
        }
        Step::Content(node, content) => see_content(rt, &shown, node, content),
        Step::Top(width, height) => {
            let found = shown.read(Container::Document(DocumentId(0)));
            same(
                rt,
                &found,
                &reading((0, 0, width, height), 0),
                "the viewport",
            );
        }
        _ => {}
    }
}

// Changes the page, if this is what the step does.
fn change(rt: &impl Abort, page: &mut PageTree, is_narrow: &mut bool, step: Step) {
    match step {
        Step::Narrow => *is_narrow = true,
        Step::Show(node) => set(rt, page, node, "display", "block"),
        Step::Remove(node) => remove(rt, page, node),
        _ => {}
    }
}

fn take_step(
    rt: &impl Abort,
    alloc: Global,
    page: &mut PageTree,
    scrolls: &Scrolls,
    is_narrow: &mut bool,
    step: Step,
) -> Result<(), Fail> {
    let screen = screen_of(*is_narrow);
    let boxes = all_boxes(rt, alloc, page, screen)?;
    see(rt, alloc, page, &boxes, scrolls, screen, step);
    change(rt, page, is_narrow, step);
    Ok(())
}

fn take_steps(
    rt: &impl Abort,
    alloc: Global,
    page: &mut PageTree,
    scrolls: &Scrolls,
) -> Result<(), Fail> {
    let mut is_narrow = false;
    for step in STEPS {
        take_step(rt, alloc, page, scrolls, &mut is_narrow, step)?;
    }
    Ok(())
}

#[test]
fn pages_are_read_as_they_are(rt: HostRuntime) -> Result<(), Fail> {
    let mut page = page_of(&rt, rt.alloc())?;
    let scrolls = Scrolls::new(rt.alloc());
    take_steps(&rt, rt.alloc(), &mut page, &scrolls)
}

/// Where elements are put: 1 is the frame of document 1, and 3 that of document 2. All are made in `top`.
const NESTED: [(Container, u32); 8] = [
    (Container::Document(DocumentId(0)), 0),
    (Container::Element(NodeId(0)), 1),
    (Container::Document(DocumentId(1)), 2),
    (Container::Element(NodeId(2)), 6),
    (Container::Element(NodeId(2)), 3),
    (Container::Document(DocumentId(2)), 4),
    (Container::Element(NodeId(4)), 5),
    (Container::Element(NodeId(5)), 7),
];

const NESTED_STYLES: [(u32, &str, &str); 24] = [
    (0, "padding", "5px"),
    (0, "border", "1px"),
    (1, "width", "80%"),
    (1, "height", "200px"),
    (1, "padding", "3px"),
    (1, "border", "2px"),
    (1, "margin-left", "10px"),
    (2, "margin", "4px"),
    (2, "height", "100%"),
    (6, "height", "20px"),
    (6, "margin-top", "10%"),
    (3, "width", "50%"),
    (3, "height", "75%"),
    (3, "margin-left", "7.5px"),
    (3, "border", "1px"),
    (4, "width", "50%"),
    (4, "margin-left", "10%"),
    (4, "margin-top", "2px"),
    (5, "height", "30px"),
    (5, "margin-top", "7px"),
    (5, "overflow", "scroll"),
    (5, "padding-left", "2px"),
    (7, "height", "90px"),
    (7, "width", "40%"),
];

/// What is done to the page, or what a reading of it gives, in 1/64 pixel.
#[derive(Clone, Copy)]
enum Look {
    /// One is scrolled downwards to a position, as far as it can be, and whether it was elsewhere.
    Scroll(Container, u16, Outcome),
    Narrow,
    Set(u32, &'static str, &'static str),
    Append(u32, u32),
    /// The left, top, right and bottom edges, and how far it is scrolled downwards.
    Read(u32, (i64, i64, i64, i64), i64),
    /// The width and height of a document's viewport, and how far it is scrolled downwards.
    Viewport(u32, (i64, i64), i64),
}

const LOOKS: [Look; 63] = [
    Look::Read(0, (0, 0, 40960, 14208), 0),
    Look::Read(1, (1024, 384, 33817, 13824), 0),
    Look::Read(2, (256, 256, 31897, 13056), 0),
    Look::Read(3, (736, 4700, 16684, 14428), 0),
    Look::Read(4, (1582, 128, 9492, 2496), 0),
    Look::Read(5, (1582, 576, 9492, 2496), 0),
    Look::Read(6, (256, 3420, 31897, 4700), 0),
    Look::Read(7, (1710, 576, 4822, 6336), 0),
    Look::Viewport(0, (40960, 30720), 0),
    Look::Viewport(1, (32153, 12800), 0),
    Look::Viewport(2, (15820, 9600), 0),
    Look::Scroll(INNER, 1000, Outcome::Moved),
    Look::Scroll(OUTER, 700, Outcome::Moved),
    Look::Read(0, (0, 0, 40960, 14208), 0),
    Look::Read(1, (1024, 384, 33817, 13824), 0),
    Look::Read(2, (256, -444, 31897, 12356), 0),
    Look::Read(3, (736, 4000, 16684, 13728), 0),
    Look::Read(4, (1582, 128, 9492, 2496), 0),
    Look::Read(5, (1582, 576, 9492, 2496), 1000),
    Look::Read(6, (256, 2720, 31897, 4000), 0),
    Look::Read(7, (1710, -424, 4822, 5336), 0),
    Look::Viewport(0, (40960, 30720), 0),
    Look::Viewport(1, (32153, 12800), 700),
    Look::Viewport(2, (15820, 9600), 0),
    Look::Scroll(INNER, 0, Outcome::Moved),
    Look::Scroll(OUTER, 0, Outcome::Moved),
    Look::Narrow,
    Look::Read(0, (0, 0, 20480, 14208), 0),
    Look::Read(1, (1024, 384, 17433, 13824), 0),
    Look::Read(2, (256, 256, 15513, 13056), 0),
    Look::Read(3, (736, 3061, 8492, 12789), 0),
    Look::Read(4, (762, 128, 4576, 2496), 0),
    Look::Read(5, (762, 576, 4576, 2496), 0),
    Look::Read(6, (256, 1781, 15513, 3061), 0),
    Look::Read(7, (890, 576, 2364, 6336), 0),
    Look::Viewport(0, (20480, 12800), 0),
    Look::Viewport(1, (15769, 12800), 0),
    Look::Viewport(2, (7628, 9600), 0),
    Look::Set(1, "display", "none"),
    Look::Read(0, (0, 0, 20480, 768), 0),
    Look::Read(1, (0, 0, 0, 0), 0),
    Look::Read(2, (0, 0, 0, 0), 0),
    Look::Read(3, (0, 0, 0, 0), 0),
    Look::Read(4, (0, 0, 0, 0), 0),
    Look::Read(5, (0, 0, 0, 0), 0),
    Look::Read(6, (0, 0, 0, 0), 0),
    Look::Read(7, (0, 0, 0, 0), 0),
    Look::Viewport(0, (20480, 12800), 0),
    Look::Viewport(1, (0, 0), 0),
    Look::Viewport(2, (0, 0), 0),
    Look::Set(1, "display", "block"),
    Look::Append(0, 3),
    Look::Read(0, (0, 0, 20480, 23936), 0),
    Look::Read(1, (1024, 384, 17433, 13824), 0),
    Look::Read(2, (256, 256, 15513, 13056), 0),
    Look::Read(3, (864, 13824, 10848, 23552), 0),
    Look::Read(4, (0, 0, 0, 0), 0),
    Look::Read(5, (0, 0, 0, 0), 0),
    Look::Read(6, (256, 1781, 15513, 3061), 0),
    Look::Read(7, (0, 0, 0, 0), 0),
    Look::Viewport(0, (20480, 12800), 0),
    Look::Viewport(1, (15769, 12800), 0),
    Look::Viewport(2, (9856, 9600), 0),
];

/// What is scrolled beyond its range, and what becomes of it as the ranges change.
const SCROLLED: [Look; 42] = [
    Look::Scroll(INNER, 64000, Outcome::Moved),
    Look::Scroll(OUTER, 64000, Outcome::Moved),
    Look::Read(2, (256, -1372, 31897, 11428), 0),
    Look::Read(3, (736, 3072, 16684, 12800), 0),
    Look::Read(5, (1582, 576, 9492, 2496), 3840),
    Look::Read(6, (256, 1792, 31897, 3072), 0),
    Look::Read(7, (1710, -3264, 4822, 2496), 0),
    Look::Viewport(1, (32153, 12800), 1628),
    Look::Viewport(2, (15820, 9600), 0),
    Look::Set(7, "height", "50px"),
    Look::Read(5, (1582, 576, 9492, 2496), 1280),
    Look::Read(7, (1710, -704, 4822, 2496), 0),
    Look::Set(7, "height", "90px"),
    Look::Read(5, (1582, 576, 9492, 2496), 3840),
    Look::Read(7, (1710, -3264, 4822, 2496), 0),
    Look::Set(5, "overflow", "clip"),
    Look::Read(5, (1582, 576, 9492, 2496), 0),
    Look::Read(7, (1710, 576, 4822, 6336), 0),
    Look::Set(5, "overflow", "hidden"),
    Look::Read(5, (1582, 576, 9492, 2496), 3840),
    Look::Read(7, (1710, -3264, 4822, 2496), 0),
    Look::Set(2, "overflow", "hidden"),
    Look::Viewport(1, (32153, 12800), 1628),
    Look::Read(2, (256, -1372, 31897, 11428), 0),
    Look::Read(3, (736, 3072, 16684, 12800), 0),
    Look::Set(2, "height", "80%"),
    Look::Viewport(1, (32153, 12800), 0),
    Look::Read(2, (256, 256, 31897, 10496), 0),
    Look::Read(3, (736, 4700, 16684, 12508), 0),
    Look::Set(1, "height", "240px"),
    Look::Viewport(1, (32153, 15360), 0),
    Look::Read(2, (256, 256, 31897, 12544), 0),
    Look::Read(3, (736, 4700, 16684, 14044), 0),
    Look::Set(1, "display", "none"),
    Look::Read(5, (0, 0, 0, 0), 0),
    Look::Viewport(1, (0, 0), 0),
    Look::Set(1, "display", "block"),
    Look::Scroll(INNER, 256, Outcome::Moved),
    Look::Scroll(OUTER, 0, Outcome::Same),
    Look::Read(5, (1582, 576, 9492, 2496), 256),
    Look::Read(7, (1710, 320, 4822, 6080), 0),
    Look::Viewport(1, (32153, 15360), 0),
];

/// The scroll container.
const INNER: Container = Container::Element(NodeId(5));

/// The nested viewport.
const OUTER: Container = Container::Document(DocumentId(1));

fn place_and_style_nested(rt: &impl Abort, page: &mut PageTree) {
    for (container, node) in NESTED {
        put(rt, page, container, node);
    }
    for (node, property, value) in NESTED_STYLES {
        set(rt, page, node, property, value);
    }
}

fn nested_page(rt: &impl Abort, alloc: Global) -> Result<PageTree, Fail> {
    let mut page = PageTree::new(alloc, Version::First)?;
    make_elements(rt, &mut page, 8, &[1, 3])?;
    place_and_style_nested(rt, &mut page);
    Ok(page)
}

fn renew_for<L: Ledger>(
    blank: Blank,
    boxes: &mut Kept,
    page: &PageTree,
    screen: Screen,
    container: Container,
)
    requires name { blank.name ≡ L.name }
    requires parts { blank.parts ≡ L.parts }
    requires one_part { 0 < blank.parts }
    requires kept { AreKept page.now.tree boxes.old }
{
    let mut steps = Steps::<L>::new(blank);
    refresh_for(boxes, page, screen, container, &mut steps);
}

// What is read of an element, and its border rectangle, from boxes that are all computed.
fn read_all(
    rt: &impl Abort,
    alloc: Global,
    page: &PageTree,
    scrolls: &Scrolls,
    screen: Screen,
    node: u32,
) -> Result<(Reading, Rect), Fail>
    requires { IsScreen screen }
{
    let all = all_boxes(rt, alloc, page, screen)?;
    let shown = Shown::new(page, &all, scrolls, screen);
    let found = shown.read(Container::Element(NodeId(node)));
    let rect = shown.border_rect(NodeId(node));
    Ok((found, rect))
}

// What is read of an element where documents are looked at first, and its border rectangle.
fn read_looked(
    rt: &impl Abort,
    alloc: Global,
    page: &PageTree,
    scrolls: &Scrolls,
    screen: Screen,
    node: u32,
) -> Result<(Reading, Rect), Fail>
    requires { IsScreen screen }
{
    let all = all_boxes(rt, alloc, page, screen)?;
    let shown = Shown::new(page, &all, scrolls, screen).with_documents(alloc);
    let found = shown.read(Container::Element(NodeId(node)));
    let rect = shown.border_rect(NodeId(node));
    Ok((found, rect))
}

fn renew_in<L: Ledger>(
    blank: Blank,
    boxes: &mut Kept,
    page: &PageTree,
    screen: Screen,
    document: DocumentId,
)
    requires name { blank.name ≡ L.name }
    requires parts { blank.parts ≡ L.parts }
    requires one_part { 0 < blank.parts }
    requires kept { AreKept page.now.tree boxes.old }
    ensures fresh { IsFreshIn page.now.tree (seen_screen screen) boxes.new document.0 }
    ensures above { IsFreshAbove page.now.tree (seen_screen screen) boxes.new document.0 }
{
    let mut steps = Steps::<L>::new(blank);
    refresh_in(boxes, page, screen, document, &mut steps);
}

// The boxes of a document and of those around it, and none of others.
fn boxes_in(
    rt: &impl Abort,
    alloc: Global,
    page: &PageTree,
    screen: Screen,
    document: DocumentId,
) -> Result<Kept, Fail>
    ensures fresh { IfOk result (λ boxes. IsFreshIn page.now.tree (seen_screen screen) boxes document.0) }
    ensures above { IfOk result (λ boxes. IsFreshAbove page.now.tree (seen_screen screen) boxes document.0) }
{
    assert!(rt; !page.holds(NodeId(9)));
    let mut boxes = empty_slots(alloc)?;
    nothing_kept_fits();
    renew_in::<Brand>(Blank::new(1), &mut boxes, page, screen, document);
    Ok(boxes)
}

// What is read of an element by its document alone, and its border rectangle.
fn read_alone(
    rt: &impl Abort,
    alloc: Global,
    page: &PageTree,
    scrolls: &Scrolls,
    screen: Screen,
    node: u32,
) -> Result<(Reading, Rect), Fail>
    requires { IsScreen screen }
{
    let document = page.document_of(NodeId(node));
    let boxes = boxes_in(rt, alloc, page, screen, document)?;
    let shown = ShownDocument::new(page, &boxes, scrolls, screen, document);
    let found = shown.read(Container::Element(NodeId(node)));
    let rect = shown.border_rect(NodeId(node));
    let scrolled = shown.with_offset();
    same(
        rt,
        &scrolled.read(Container::Element(NodeId(node))),
        &found,
        node,
    );
    Ok((found, rect))
}

// What is read of a document by itself alone.
fn view_alone(
    rt: &impl Abort,
    alloc: Global,
    page: &PageTree,
    scrolls: &Scrolls,
    screen: Screen,
    document: DocumentId,
) -> Result<Reading, Fail>
    requires { IsScreen screen }
{
    let boxes = boxes_in(rt, alloc, page, screen, document)?;
    let shown = ShownDocument::new(page, &boxes, scrolls, screen, document);
    Ok(shown.read(Container::Document(document)))
}

// The size of an element's border box, from the boxes of its document and of those around it.
fn size_some(
    rt: &impl Abort,
    alloc: Global,
    page: &PageTree,
    screen: Screen,
    node: u32,
) -> Result<Size, Fail>
    requires { IsScreen screen }
{
    assert!(rt; !page.holds(NodeId(9)));
    let container = Container::Element(NodeId(node));
    let mut some = empty_slots(alloc)?;
    nothing_kept_fits();
    renew_for::<Brand>(Blank::new(1), &mut some, page, screen, container);
    Ok(size_of(page, &some, screen, NodeId(node), BoxKind::Border))
}

// The same from all boxes, where it is found first what documents show.
fn size_viewed(
    rt: &impl Abort,
    alloc: Global,
    page: &PageTree,
    scrolls: &Scrolls,
    screen: Screen,
    node: u32,
) -> Result<Size, Fail>
    requires { IsScreen screen }
{
    let all = all_boxes(rt, alloc, page, screen)?;
    let shown = Shown::new(page, &all, scrolls, screen).with_views();
    Ok(shown.size_of(NodeId(node), BoxKind::Border))
}

// What is read of an element, the same in all ways.
fn read_twice(
    rt: &impl Abort,
    alloc: Global,
    page: &PageTree,
    scrolls: &Scrolls,
    is_narrow: bool,
    node: u32,
) -> Result<Reading, Fail> {
    let screen = screen_of(is_narrow);
    let (found, rect) = read_all(rt, alloc, page, scrolls, screen, node)?;
    same(rt, &rect, &found.rect, node);
    let again = read_looked(rt, alloc, page, scrolls, screen, node)?;
    same(rt, &again, &(found, rect), node);
    let alone = read_alone(rt, alloc, page, scrolls, screen, node)?;
    same(rt, &alone, &(found, rect), node);
    let size = size_some(rt, alloc, page, screen, node)?;
    let viewed = size_viewed(rt, alloc, page, scrolls, screen, node)?;
    same(rt, &viewed, &size, node);
    same(
        rt,
        &(size.width, size.height),
        &(
            rect.right.wrapping_sub(rect.left),
            rect.bottom.wrapping_sub(rect.top),
        ),
        node,
    );
    Ok(found)
}

fn read_viewport(
    rt: &impl Abort,
    alloc: Global,
    page: &PageTree,
    scrolls: &Scrolls,
    is_narrow: bool,
    document: DocumentId,
) -> Result<Reading, Fail> {
    let screen = screen_of(is_narrow);
    let boxes = all_boxes(rt, alloc, page, screen)?;
    let container = Container::Document(document);
    let shown = Shown::new(page, &boxes, scrolls, screen);
    let found = shown.read(container);
    let alone = view_alone(rt, alloc, page, scrolls, screen, document)?;
    same(rt, &alone, &found, document.0);
    Ok(found)
}

// Scrolls downwards to a position, as far as it goes.
fn scroll_over(
    page: &PageTree,
    boxes: &Kept,
    scrolls: &mut Scrolls,
    screen: Screen,
    target: Container,
    down: u16,
) -> Result<Outcome, Fail>
    requires screen { IsScreen screen }
    requires fresh { IsFresh page.now.tree (seen_screen screen) boxes.now }
{
    let range = Shown::new(page, boxes, scrolls, screen).range_of(target);
    let wanted = Point {
        left: 0,
        top: i64::from(down),
    };
    Ok(scrolls.scroll_to(DocumentId(0), target, wanted, range)?)
}

fn scroll(
    rt: &impl Abort,
    alloc: Global,
    page: &PageTree,
    scrolls: &mut Scrolls,
    is_narrow: bool,
    target: Container,
    down: u16,
) -> Result<Outcome, Fail> {
    let screen = screen_of(is_narrow);
    let boxes = all_boxes(rt, alloc, page, screen)?;
    scroll_over(page, &boxes, scrolls, screen, target, down)
}

fn take_look(
    rt: &impl Abort,
    alloc: Global,
    page: &mut PageTree,
    scrolls: &mut Scrolls,
    is_narrow: &mut bool,
    look: Look,
) -> Result<(), Fail> {
    match look {
        Look::Scroll(target, down, wanted) => {
            let outcome = scroll(rt, alloc, page, scrolls, *is_narrow, target, down)?;
            same(rt, &outcome, &wanted, down);
        }
        Look::Narrow => *is_narrow = true,
        Look::Set(node, property, value) => set(rt, page, node, property, value),
        Look::Append(parent, node) => {
            put(rt, page, Container::Element(NodeId(parent)), node);
        }
        Look::Read(node, edges, down) => {
            let found = read_twice(rt, alloc, page, scrolls, *is_narrow, node)?;
            same(rt, &found, &reading(edges, down), node);
        }
        Look::Viewport(number, (width, height), down) => {
            let document = DocumentId(number);
            let found = read_viewport(rt, alloc, page, scrolls, *is_narrow, document)?;
            same(rt, &found, &reading((0, 0, width, height), down), number);
        }
    }
    Ok(())
}

fn take_looks(
    rt: &impl Abort,
    alloc: Global,
    page: &mut PageTree,
    scrolls: &mut Scrolls,
    looks: &[Look],
) -> Result<(), Fail> {
    let mut is_narrow = false;
    for look in looks {
        take_look(rt, alloc, page, scrolls, &mut is_narrow, *look)?;
    }
    Ok(())
}

fn follow(rt: &impl Abort, alloc: Global, looks: &[Look]) -> Result<(), Fail> {
    let mut page = nested_page(rt, alloc)?;
    let mut scrolls = Scrolls::new(alloc);
    take_looks(rt, alloc, &mut page, &mut scrolls, looks)
}

#[test]
fn documents_in_frames_are_read_as_they_are(rt: HostRuntime) -> Result<(), Fail> {
    follow(&rt, rt.alloc(), &LOOKS)
}

#[test]
fn what_is_scrolled_is_read_as_it_is(rt: HostRuntime) -> Result<(), Fail> {
    follow(&rt, rt.alloc(), &SCROLLED)
}

/// How far down the nested viewport is where `FRAMES` are seen, in 1/64 pixel: not as far as it can be.
const DOWN: u16 = 688;

/// The left, top, right and bottom edges of a frame's padding box, and the corner of its content.
type Frame = (u32, (i64, i64, i64, i64), (i64, i64));

const FRAMES: [Frame; 2] = [
    (1, (1152, 512, 33689, 13696), (1344, 704)),
    (3, (800, 4076, 16620, 13676), (800, 4076)),
];

fn see_frame(rt: &impl Abort, shown: &Shown<'_>, frame: Frame) {
    let (number, edges, (left, top)) = frame;
    let node = NodeId(number);
    let padding = shown.padding_rect(node);
    same(rt, &padding, &reading(edges, 0).rect, number);
    let corner = shown.content_origin(node);
    same(rt, &corner, &Point { left, top }, number);
    assert!(rt; !is_scroller(shown.page(), node), "{number}");
}

fn see_each_frame(rt: &impl Abort, shown: &Shown<'_>) {
    for frame in FRAMES {
        see_frame(rt, shown, frame);
    }
}

fn see_frames_over(
    rt: &impl Abort,
    page: &PageTree,
    boxes: &Kept,
    scrolls: &Scrolls,
    screen: Screen,
)
    requires screen { IsScreen screen }
    requires fresh { IsFresh page.now.tree (seen_screen screen) boxes.now }
{
    see_each_frame(rt, &Shown::new(page, boxes, scrolls, screen));
}

fn see_frames(
    rt: &impl Abort,
    alloc: Global,
    page: &PageTree,
    scrolls: &mut Scrolls,
) -> Result<(), Fail> {
    assert!(rt; is_scroller(page, NodeId(5)));
    let outcome = scroll(rt, alloc, page, scrolls, false, OUTER, DOWN)?;
    same(rt, &outcome, &Outcome::Moved, "a scroll");
    let screen = screen_of(false);
    let boxes = all_boxes(rt, alloc, page, screen)?;
    see_frames_over(rt, page, &boxes, scrolls, screen);
    Ok(())
}

#[test]
fn frames_have_their_places(rt: HostRuntime) -> Result<(), Fail> {
    let page = nested_page(&rt, rt.alloc())?;
    let mut scrolls = Scrolls::new(rt.alloc());
    see_frames(&rt, rt.alloc(), &page, &mut scrolls)
}

/// Hundredths of a percent, and the device pixels of a content box of 10.5 by 3 pixels.
const RATIOS: [(i32, (i64, i64)); 5] = [
    (15_000, (16, 5)),
    (20_000, (21, 6)),
    (11_000, (12, 3)),
    (0, (0, 0)),
    (1_000_000, (1050, 300)),
];

fn see_pixels(
    rt: &impl Abort,
    alloc: Global,
    page: &PageTree,
    scrolls: &Scrolls,
    row: (i32, (i64, i64)),
) -> Result<(), Fail> {
    let (ratio, (width, height)) = row;
    assert!(rt; (0..=1_000_000).contains(&ratio));
    let screen = Screen {
        size: SCREEN.size,
        ratio: Percent(ratio),
    };
    let boxes = all_boxes(rt, alloc, page, screen)?;
    let shown = Shown::new(page, &boxes, scrolls, screen);
    let found = shown.size_of(NodeId(0), BoxKind::Device);
    same(rt, &found, &Size { width, height }, ratio);
    let content = shown.size_of(NodeId(0), BoxKind::Content);
    same(rt, &(content.width, content.height), &(672, 192), ratio);
    Ok(())
}

#[test]
fn sizes_are_counted_in_device_pixels(rt: HostRuntime) -> Result<(), Fail> {
    let mut page = PageTree::new(rt.alloc(), Version::Second)?;
    make_elements(&rt, &mut page, 1, &[])?;
    put(&rt, &mut page, Container::Document(DocumentId(0)), 0);
    for (property, value) in [("width", "10.5px"), ("height", "3px"), ("padding", "2px")] {
        set(&rt, &mut page, 0, property, value);
    }
    let scrolls = Scrolls::new(rt.alloc());
    for row in RATIOS {
        see_pixels(&rt, rt.alloc(), &page, &scrolls, row)?;
    }
    Ok(())
}
