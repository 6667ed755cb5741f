//! The sizes of a page's boxes after each of its changes. The numbers are those that an independent program for the same rules
//! gives for a script of these changes, with a `read` of each element after each change.

ghost use Rattle.std.specs.Prelude.{◌≡◌, ◌<◌};
ghost use Rattle.page_tree.specs.Items.{IsKind, IsNatural};
ghost use Rattle.page_boxes.specs.Pages.{IsScreen};

use crate::common::{any_name, declaration};
use crate::same::same;
use block_layout::ItemKind;
use element_tree::{Container, DocumentId, NodeId};
use page_boxes::{Screen, size_of};
use page_layout::LaidTree;
use px_units::{BoxKind, Percent, Px, Size};
use std::marker::Brand;
use std::process::Abort;
use std::sync::ledger::{Blank, Ledger};
use std::test::Fail;
use step_count::Steps;
use style_values::Axis;
use text_io::Version;

/// The image 2 is in the block 1, and the block 5 in the block 4, which is the root element of the document in the frame 3.
const PLACES: [(Container, u32); 6] = [
    (Container::Document(DocumentId(0)), 0),
    (Container::Element(NodeId(0)), 1),
    (Container::Element(NodeId(1)), 2),
    (Container::Element(NodeId(0)), 3),
    (Container::Document(DocumentId(1)), 4),
    (Container::Element(NodeId(4)), 5),
];

const STYLES: [(u32, &str, &str); 9] = [
    (0, "padding", "5px"),
    (1, "margin-top", "3px"),
    (1, "border", "1px"),
    (3, "width", "50%"),
    (3, "height", "100px"),
    (3, "padding", "2px"),
    (4, "height", "50%"),
    (4, "margin-left", "10%"),
    (5, "width", "25%"),
];

const WIDE: Screen = Screen {
    size: Size {
        width: 40960,
        height: 30720,
    },
    ratio: Percent(10_000),
};

const NARROW: Screen = Screen {
    size: Size {
        width: 20480,
        height: 12800,
    },
    ratio: Percent(10_000),
};

/// What is done to a page. A parent comes before its child, and the sibling last.
#[derive(Clone, Copy)]
enum Change {
    Set(u32, &'static str, &'static str),
    /// The height, by so much.
    Grow(u32, i64),
    Load(u32, u16, u16),
    Append(u32, u32),
    Before(u32, u32, u32),
    Remove(u32),
    /// The viewport of `top` becomes the narrow one.
    Narrow,
}

/// What is done, and the widths and heights of the six border boxes then, in 1/64 pixel: 0 by 0 without a box.
const CHANGES: [(Change, [(i64, i64); 6]); 23] = [
    (
        Change::Set(5, "height", "20px"),
        [
            (40960, 9536),
            (40320, 2048),
            (2560, 1920),
            (20416, 6656),
            (18144, 3200),
            (4536, 1280),
        ],
    ),
    (
        Change::Set(1, "padding-top", "2px"),
        [
            (40960, 9664),
            (40320, 2176),
            (2560, 1920),
            (20416, 6656),
            (18144, 3200),
            (4536, 1280),
        ],
    ),
    (
        Change::Grow(5, 640),
        [
            (40960, 9664),
            (40320, 2176),
            (2560, 1920),
            (20416, 6656),
            (18144, 3200),
            (4536, 1920),
        ],
    ),
    (
        Change::Load(2, 5120, 3840),
        [
            (40960, 11584),
            (40320, 4096),
            (5120, 3840),
            (20416, 6656),
            (18144, 3200),
            (4536, 1920),
        ],
    ),
    (
        Change::Append(0, 2),
        [
            (40960, 11584),
            (40320, 256),
            (5120, 3840),
            (20416, 6656),
            (18144, 3200),
            (4536, 1920),
        ],
    ),
    (
        Change::Before(0, 2, 1),
        [
            (40960, 11584),
            (40320, 256),
            (5120, 3840),
            (20416, 6656),
            (18144, 3200),
            (4536, 1920),
        ],
    ),
    (
        Change::Set(3, "width", "25%"),
        [
            (40960, 11584),
            (40320, 256),
            (5120, 3840),
            (10336, 6656),
            (9072, 3200),
            (2268, 1920),
        ],
    ),
    (
        Change::Set(2, "width", "10%"),
        [
            (40960, 11584),
            (40320, 256),
            (4032, 3840),
            (10336, 6656),
            (9072, 3200),
            (2268, 1920),
        ],
    ),
    (
        Change::Narrow,
        [
            (20480, 11584),
            (19840, 256),
            (1984, 3840),
            (5216, 6656),
            (4464, 3200),
            (1116, 1920),
        ],
    ),
    (
        Change::Append(1, 5),
        [
            (20480, 13504),
            (19840, 2176),
            (1984, 3840),
            (5216, 6656),
            (4464, 3200),
            (4928, 1920),
        ],
    ),
    (
        Change::Remove(5),
        [
            (20480, 11584),
            (19840, 256),
            (1984, 3840),
            (5216, 6656),
            (4464, 3200),
            (0, 0),
        ],
    ),
    (
        Change::Append(4, 5),
        [
            (20480, 11584),
            (19840, 256),
            (1984, 3840),
            (5216, 6656),
            (4464, 3200),
            (1116, 1920),
        ],
    ),
    (
        Change::Set(1, "display", "none"),
        [
            (20480, 11136),
            (0, 0),
            (1984, 3840),
            (5216, 6656),
            (4464, 3200),
            (1116, 1920),
        ],
    ),
    (
        Change::Append(1, 2),
        [
            (20480, 7296),
            (0, 0),
            (0, 0),
            (5216, 6656),
            (4464, 3200),
            (1116, 1920),
        ],
    ),
    (
        Change::Set(1, "display", "block"),
        [
            (20480, 11584),
            (19840, 4096),
            (1971, 3840),
            (5216, 6656),
            (4464, 3200),
            (1116, 1920),
        ],
    ),
    (
        Change::Set(4, "height", "auto"),
        [
            (20480, 11584),
            (19840, 4096),
            (1971, 3840),
            (5216, 6656),
            (4464, 1920),
            (1116, 1920),
        ],
    ),
    (
        Change::Set(3, "display", "none"),
        [
            (20480, 4928),
            (19840, 4096),
            (1971, 3840),
            (0, 0),
            (0, 0),
            (0, 0),
        ],
    ),
    (
        Change::Grow(5, -512),
        [
            (20480, 4928),
            (19840, 4096),
            (1971, 3840),
            (0, 0),
            (0, 0),
            (0, 0),
        ],
    ),
    (
        Change::Set(3, "display", "block"),
        [
            (20480, 11584),
            (19840, 4096),
            (1971, 3840),
            (5216, 6656),
            (4464, 1408),
            (1116, 1408),
        ],
    ),
    (
        Change::Remove(1),
        [
            (20480, 7296),
            (0, 0),
            (0, 0),
            (5216, 6656),
            (4464, 1408),
            (1116, 1408),
        ],
    ),
    (
        Change::Append(0, 1),
        [
            (20480, 11584),
            (19840, 4096),
            (1971, 3840),
            (5216, 6656),
            (4464, 1408),
            (1116, 1408),
        ],
    ),
    (
        Change::Remove(3),
        [
            (20480, 4928),
            (19840, 4096),
            (1971, 3840),
            (0, 0),
            (0, 0),
            (0, 0),
        ],
    ),
    (
        Change::Append(0, 3),
        [
            (20480, 11584),
            (19840, 4096),
            (1971, 3840),
            (5216, 6656),
            (0, 0),
            (0, 0),
        ],
    ),
];

fn natural(width: u16, height: u16) -> Size
    ensures { IsNatural result }
{
    Size {
        width: i64::from(width),
        height: i64::from(height),
    }
}

fn kind_of(node: u32) -> ItemKind
    ensures { IsKind result }
{
    if node == 2 {
        ItemKind::Image(natural(2560, 1920))
    } else {
        ItemKind::Block
    }
}

fn set(rt: &impl Abort, laid: &mut LaidTree, node: u32, property: &str, value: &str) {
    assert!(rt; laid.page().holds(NodeId(node)));
    laid.set(NodeId(node), declaration(rt, property, value));
}

fn place(
    rt: &impl Abort,
    laid: &mut LaidTree,
    container: Container,
    node: u32,
    sibling: Option<NodeId>,
) {
    assert!(rt; laid.page().holds(NodeId(node)));
    if let Some(named) = sibling {
        assert!(rt; laid.page().holds(named));
    }
    match container {
        Container::Element(parent) => assert!(rt; laid.page().holds(parent)),
        Container::Document(document) => assert!(rt; document.0 < laid.page().document_count()),
    }
    assert!(rt; laid.place(container, NodeId(node), sibling).is_ok());
}

fn make_one(rt: &impl Abort, laid: &mut LaidTree, number: u32) -> Result<(), Fail> {
    let name = any_name(rt);
    if number == 3 {
        same(
            rt,
            &laid.make_frame(DocumentId(0), name)?,
            &(NodeId(number), DocumentId(1)),
            "a frame that is made",
        );
    } else {
        same(
            rt,
            &laid.make(DocumentId(0), name, kind_of(number))?,
            &NodeId(number),
            "a node that is made",
        );
    }
    Ok(())
}

fn make_six(rt: &impl Abort, laid: &mut LaidTree) -> Result<(), Fail> {
    for number in 0..6 {
        make_one(rt, laid, number)?;
    }
    Ok(())
}

fn place_and_style(rt: &impl Abort, laid: &mut LaidTree) {
    for (container, node) in PLACES {
        place(rt, laid, container, node, None);
    }
    for (node, property, value) in STYLES {
        set(rt, laid, node, property, value);
    }
}

fn apply(rt: &impl Abort, laid: &mut LaidTree, change: Change) {
    match change {
        Change::Set(node, property, value) => set(rt, laid, node, property, value),
        Change::Grow(node, by) => {
            assert!(rt; laid.page().holds(NodeId(node)));
            assert!(rt; laid.grow(NodeId(node), Axis::Height, Px(by)).is_ok());
        }
        Change::Load(node, width, height) => {
            assert!(rt; laid.page().holds(NodeId(node)));
            assert!(rt; laid.load(NodeId(node), natural(width, height)).is_ok());
        }
        Change::Append(parent, node) => {
            place(rt, laid, Container::Element(NodeId(parent)), node, None)
        }
        Change::Before(parent, node, sibling) => {
            let named = Some(NodeId(sibling));
            place(rt, laid, Container::Element(NodeId(parent)), node, named)
        }
        Change::Remove(node) => {
            assert!(rt; laid.page().holds(NodeId(node)));
            laid.remove(NodeId(node))
        }
        Change::Narrow => {}
    }
}

// What a reading of one element rests on, or all where none is named.
fn renew<L: Ledger>(blank: Blank, laid: &mut LaidTree, screen: Screen, read: Option<u32>)
    requires name { blank.name ≡ L.name }
    requires parts { blank.parts ≡ L.parts }
    requires one_part { 0 < blank.parts }
{
    let mut steps = Steps::<L>::new(blank);
    match read {
        Some(node) => {
            laid.refresh_for(screen, Container::Element(NodeId(node)), &mut steps);
        }
        None => laid.refresh(screen, &mut steps),
    }
}

fn lay_out(laid: &mut LaidTree, screen: Screen, read: Option<u32>) {
    renew::<Brand>(Blank::new(1), laid, screen, read);
}

fn check(rt: &impl Abort, laid: &LaidTree, screen: Screen, node: u32, sides: (i64, i64))
    requires { IsScreen screen }
{
    let (width, height) = sides;
    let found = size_of(
        laid.page(),
        laid.boxes(),
        screen,
        NodeId(node),
        BoxKind::Border,
    );
    same(rt, &found, &Size { width, height }, node);
}

// What a reading of one element rests on is computed first, and then all.
fn see_sizes(rt: &impl Abort, laid: &mut LaidTree, screen: Screen, sizes: [(i64, i64); 6])
    requires { IsScreen screen }
{
    lay_out(laid, screen, Some(4));
    check(rt, laid, screen, 4, sizes[4]);
    lay_out(laid, screen, None);
    for node in 0..6u32 {
        check(rt, laid, screen, node, sizes[node as usize]);
    }
}

fn screen_of(is_narrow: bool) -> Screen
    ensures { IsScreen result }
{
    if is_narrow { NARROW } else { WIDE }
}

fn see_changes(rt: &impl Abort, laid: &mut LaidTree) {
    let mut is_narrow = false;
    for (change, sizes) in CHANGES {
        if let Change::Narrow = change {
            is_narrow = true;
        }
        apply(rt, laid, change);
        see_sizes(rt, laid, screen_of(is_narrow), sizes);
    }
}

#[test]
fn boxes_are_exact_after_each_change(rt: HostRuntime) -> Result<(), Fail> {
    let mut laid = LaidTree::new(rt.alloc(), Version::First)?;
    make_six(&rt, &mut laid)?;
    place_and_style(&rt, &mut laid);
    see_changes(&rt, &mut laid);
    Ok(())
}
