//! Places of kept boxes through random edits of a tree with positions, with the sums that the reference program gives; and kept boxes of
//! a tree with many elements and of a deep one.

ghost use Rattle.std.specs.Prelude.{◌≡◌, ◌<◌, length, true, None};
ghost use Rattle.element_tree.specs.Forest.{parent_of};

use crate::elements::{Element, SCREEN, styled};
use crate::same::same;
use block_layout::{Boxes, Inputs, ItemKind, is_block, is_hidden};
use element_tree::{NodeId, Tree, TreeFault};
use kept_layout::Kept;
use px_units::{BoxKind, Point, Size};
use std::marker::Brand;
use std::process::Abort;
use std::sync::ledger::{Blank, Ledger};
use std::test::Fail;
use step_count::Steps;

const ROOT: NodeId = NodeId(0);

const ELEMENTS: u32 = 300;

/// How often places are looked at in a round, to be summed up together. The viewport is narrow the last time.
const STEPS: u32 = 10;

/// Edits from one look to the next, each with a layout after it.
const EDITS: u32 = 10;

const NARROW: Inputs = Inputs {
    width: 20480,
    height: Some(12800),
    flow: true,
};

/// Where the random numbers begin, any number: `ROUNDS` is of the edits that follow from it.
const SEED: u64 = 20;

/// Of each round how many boxes are seen, and the sums of their left and top edges where nothing is scrolled, as `layout.py` of
/// `tools/reference` gives them through the same edits.
const ROUNDS: [(u64, i64, i64); 10] = [
    (2391, 89436, 83601820),
    (1500, 153292, 31458212),
    (1210, 112072, 36122916),
    (579, 56370, 13226368),
    (697, 189769, 12726082),
    (1167, 517957, 23514710),
    (1145, 503638, 17341332),
    (1173, 476955, 17624503),
    (537, 358572, 4063516),
    (640, 488444, 2369202),
];

/// How many declarations there are to choose from.
const CHOICES: u32 = 44;

/// Of so many edits three insert a node, one removes one, and the others set a property.
const KINDS_OF_EDITS: u32 = 16;

/// Each element of which the number leaves the largest rest by this is an image, and each of the others by the next one a frame: two
/// primes, so that the tree, and what holds them, has some of both.
const FROM_IMAGE_TO_IMAGE: u32 = 17;

const FROM_FRAME_TO_FRAME: u32 = 23;

/// The most elements below one another, and the most elements of a page, as `docs/SCRIPT.md` says.
const MOST_DEPTH: u32 = 256;

const MOST_ELEMENTS: u32 = 20_000;

/// What an element may be told. What would leave few elements with a box, or all of them out of flow, is outweighed by its opposite.
const DECLARATIONS: [(&str, &str); 44] = [
    ("width", "50%"),
    ("width", "120px"),
    ("width", "auto"),
    ("height", "30px"),
    ("height", "40%"),
    ("height", "auto"),
    ("height", "auto"),
    ("margin-top", "3px"),
    ("margin-left", "5%"),
    ("margin", "0px"),
    ("padding", "2px"),
    ("padding", "1%"),
    ("border", "1px"),
    ("display", "none"),
    ("display", "block"),
    ("display", "block"),
    ("display", "block"),
    ("overflow", "scroll"),
    ("overflow", "clip"),
    ("overflow", "visible"),
    ("box-sizing", "border-box"),
    ("box-sizing", "content-box"),
    ("max-width", "200px"),
    ("min-height", "10px"),
    ("position", "static"),
    ("position", "static"),
    ("position", "relative"),
    ("position", "relative"),
    ("position", "absolute"),
    ("position", "absolute"),
    ("position", "fixed"),
    ("left", "auto"),
    ("left", "10px"),
    ("left", "-5%"),
    ("right", "auto"),
    ("right", "3px"),
    ("right", "20%"),
    ("top", "auto"),
    ("top", "2px"),
    ("top", "10%"),
    ("bottom", "auto"),
    ("bottom", "4px"),
    ("bottom", "-3px"),
    ("bottom", "-10%"),
];

/// How many boxes were seen, and the sums of their left and top edges.
#[derive(Clone, Copy)]
struct Sums {
    boxes: u64,
    left: i64,
    top: i64,
}

impl Sums {
    const ZERO: Sums = Sums {
        boxes: 0,
        left: 0,
        top: 0,
    };

    fn with(self, place: Point) -> Sums {
        Sums {
            boxes: self.boxes.saturating_add(1),
            left: self.left.saturating_add(place.left),
            top: self.top.saturating_add(place.top),
        }
    }
}

/// Numbers by a linear congruence, with the factor and the summand of MMIX.
#[derive(Drop)]
struct Random {
    state: u64,
}

impl Random {
    fn below(&mut self, limit: u32) -> u32
        requires { 0 < limit }
        ensures { result < limit }
    {
        self.state = self
            .state
            .wrapping_mul(6364136223846793005)
            .wrapping_add(1442695040888963407);
        (self.state >> 33) as u32 % limit
    }
}

// Mostly blocks.
fn kind_of(number: u32) -> ItemKind {
    if number % FROM_IMAGE_TO_IMAGE == FROM_IMAGE_TO_IMAGE - 1 {
        ItemKind::Image(Size {
            width: 640,
            height: 320,
        })
    } else if number % FROM_FRAME_TO_FRAME == FROM_FRAME_TO_FRAME - 1 {
        ItemKind::Frame
    } else {
        ItemKind::Block
    }
}

fn mark_parent(tree: &Tree<Element>, kept: &mut Kept, node: NodeId) {
    if let Some(parent) = tree.parent(node) {
        kept.mark(tree, parent);
    }
}

fn restyle(
    rt: &impl Abort,
    random: &mut Random,
    tree: &mut Tree<Element>,
    kept: &mut Kept,
    node: NodeId,
)
    requires { node.0 < length tree.old.nodes }
{
    let (property, value) = DECLARATIONS[random.below(CHOICES) as usize];
    if node == ROOT && property == "display" {
        return;
    }
    let item = tree.payload_mut(node);
    assert!(rt; item.set(property, value));
    kept.mark(tree, node);
}

// Moves a node last into another, or before it.
fn insert(
    rt: &impl Abort,
    tree: &mut Tree<Element>,
    node: NodeId,
    other: NodeId,
    before: bool,
) -> Result<(), TreeFault>
    requires node { node.0 < length tree.old.nodes }
    requires other { other.0 < length tree.old.nodes }
{
    match tree.parent(other) {
        Some(parent) if before => {
            assert!(rt; tree.holds(parent));
            tree.insert_before(parent, node, other)
        }
        _ => tree.append(other, node),
    }
}

// Moves a node with its marks, unless it would come into itself.
fn place(
    rt: &impl Abort,
    tree: &mut Tree<Element>,
    kept: &mut Kept,
    node: NodeId,
    other: NodeId,
    before: bool,
)
    requires node { node.0 < length tree.old.nodes }
    requires other { other.0 < length tree.old.nodes }
{
    mark_parent(tree, kept, node);
    match insert(rt, tree, node, other, before) {
        Ok(()) => mark_parent(tree, kept, node),
        Err(fault) => assert!(rt; matches!(fault, TreeFault::Hierarchy)),
    }
}

// One change of the tree, with its marks.
fn edit(rt: &impl Abort, random: &mut Random, tree: &mut Tree<Element>, kept: &mut Kept) {
    let node = NodeId(random.below(ELEMENTS));
    let other = NodeId(random.below(ELEMENTS));
    assert!(rt; tree.holds(node) && tree.holds(other));
    match random.below(KINDS_OF_EDITS) {
        0 | 1 | 2 if node != ROOT => place(rt, tree, kept, node, other, random.below(2) == 0),
        3 => {
            mark_parent(tree, kept, node);
            tree.remove(node);
        }
        _ => restyle(rt, random, tree, kept, node),
    }
}

fn lay_out_for<L: Ledger>(blank: Blank, kept: &mut Kept, tree: &Tree<Element>, inputs: Inputs)
    requires name { blank.name ≡ L.name }
    requires parts { blank.parts ≡ L.parts }
    requires one_part { 0 < blank.parts }
    requires root { 0 < length tree.now.nodes }
    requires top { parent_of tree.now.nodes 0 ≡ None }
    requires flow { inputs.flow ≡ true }
{
    let mut steps = Steps::<L>::new(blank);
    kept.refresh(tree, ROOT, inputs, &mut steps);
}

// Computes the boxes that are due.
fn lay_out(rt: &impl Abort, kept: &mut Kept, tree: &Tree<Element>, inputs: Inputs)
    requires { inputs.flow ≡ true }
{
    assert!(rt; tree.holds(ROOT) && tree.parent(ROOT).is_none());
    lay_out_for::<Brand>(Blank::new(1), kept, tree, inputs);
}

// Whether an element stands in the tree of the root element, under blocks that are displayed as it is itself.
fn has_box(rt: &impl Abort, tree: &Tree<Element>, node: NodeId) -> bool {
    let mut inner = node;
    for _ in 0..ELEMENTS {
        assert!(rt; tree.holds(inner));
        if is_hidden(tree, inner) {
            return false;
        }
        let Some(parent) = tree.parent(inner) else {
            break
        };
        assert!(rt; tree.holds(parent));
        if !is_block(tree, parent) {
            return false;
        }
        inner = parent;
    }
    inner == ROOT
}

// Adds the places of all boxes to sums.
fn add_places(rt: &impl Abort, tree: &Tree<Element>, kept: &Kept, so_far: Sums) -> Sums {
    let mut sums = so_far;
    for number in 0..ELEMENTS {
        let node = NodeId(number);
        if has_box(rt, tree, node) {
            sums = sums.with(kept.flat_place_of(tree, node));
        }
    }
    sums
}

// A tree of all elements, each in one of a lower number.
fn plant(rt: &impl Abort, random: &mut Random, tree: &mut Tree<Element>) {
    for number in 0..ELEMENTS {
        let kind = kind_of(number);
        let added = tree.add(Element::new(kind));
        assert!(rt; added.is_ok());
        if number > 0 {
            let parent = NodeId(random.below(number));
            assert!(rt; tree.holds(parent) && tree.holds(NodeId(number)));
            assert!(rt; tree.append(parent, NodeId(number)).is_ok());
        }
    }
}

// Edits the tree, each time with a layout after it.
fn edit_often(
    rt: &impl Abort,
    random: &mut Random,
    tree: &mut Tree<Element>,
    kept: &mut Kept,
    inputs: Inputs,
)
    requires { inputs.flow ≡ true }
{
    for _ in 0..EDITS {
        edit(rt, random, tree, kept);
        lay_out(rt, kept, tree, inputs);
    }
}

fn viewport(step: u32) -> Inputs
    ensures { result.flow ≡ true }
{
    if step < STEPS - 1 { SCREEN } else { NARROW }
}

// The sums of a round: the places of all boxes after each step.
fn sum_round(
    rt: &impl Abort,
    random: &mut Random,
    tree: &mut Tree<Element>,
    kept: &mut Kept,
) -> Sums {
    let mut seen = Sums::ZERO;
    for step in 0..STEPS {
        edit_often(rt, random, tree, kept, viewport(step));
        seen = add_places(rt, tree, kept, seen);
    }
    seen
}

#[test]
fn places_are_those_of_the_reference(rt: HostRuntime) -> Result<(), Fail> {
    let mut random = Random { state: SEED };
    let mut tree = Tree::new(rt.alloc(), ELEMENTS, MOST_DEPTH);
    let mut kept = Kept::new(rt.alloc());
    kept.add(NodeId(ELEMENTS - 1))?;
    plant(&rt, &mut random, &mut tree);
    for wanted in ROUNDS {
        let seen = sum_round(&rt, &mut random, &mut tree, &mut kept);
        same(
            &rt,
            &(seen.boxes, seen.left, seen.top),
            &wanted,
            "how many boxes, and sums of their places",
        );
    }
    Ok(())
}

// Adds an element, as the last child of a parent unless that is itself.
fn add(rt: &impl Abort, tree: &mut Tree<Element>, parent: NodeId, declaration: &str) {
    match tree.add(styled(rt, ItemKind::Block, declaration)) {
        Ok(node) => {
            if node != parent {
                assert!(rt; tree.holds(parent) && tree.holds(node));
                assert!(rt; tree.append(parent, node).is_ok());
            }
        }
        Err(_) => assert!(rt; false, "no node"),
    }
}

fn see_content(rt: &impl Abort, kept: &Kept, node: NodeId, wanted: (i64, i64)) {
    assert!(rt; kept.box_of(node).is_some());
    let content = kept.size_of(node, BoxKind::Content);
    same(rt, &(content.width, content.height), &wanted, "the content");
}

fn see_place(rt: &impl Abort, tree: &Tree<Element>, kept: &Kept, node: NodeId, wanted: (i64, i64)) {
    let place = kept.flat_place_of(tree, node);
    same(rt, &(place.left, place.top), &wanted, "the place");
}

// A root element, and lines of one pixel for all other elements.
fn add_lines(rt: &impl Abort, tree: &mut Tree<Element>) {
    add(rt, tree, ROOT, "padding:1px");
    for _ in 1..MOST_ELEMENTS {
        add(rt, tree, ROOT, "height:1px");
    }
}

#[test]
fn many_elements_are_laid_out(rt: HostRuntime) -> Result<(), Fail> {
    let mut wide = Tree::new(rt.alloc(), MOST_ELEMENTS, MOST_DEPTH);
    let mut kept = Kept::new(rt.alloc());
    let last = NodeId(MOST_ELEMENTS - 1);
    kept.add(last)?;
    add_lines(&rt, &mut wide);
    lay_out(&rt, &mut kept, &wide, SCREEN);
    see_content(&rt, &kept, ROOT, (51072, 1279936)); // 798 by 19,999 pixels
    see_place(&rt, &wide, &kept, last, (64, 1279936)); // one pixel below 19,998 lines
    Ok(())
}

// A chain of elements.
fn add_chain(rt: &impl Abort, tree: &mut Tree<Element>) {
    for number in 0..MOST_DEPTH {
        add(rt, tree, NodeId(number.saturating_sub(1)), "padding:1px");
    }
}

#[test]
fn deep_trees_are_laid_out(rt: HostRuntime) -> Result<(), Fail> {
    let mut deep = Tree::new(rt.alloc(), MOST_DEPTH, MOST_DEPTH);
    let mut kept = Kept::new(rt.alloc());
    let inmost = NodeId(MOST_DEPTH - 1);
    kept.add(inmost)?;
    add_chain(&rt, &mut deep);
    lay_out(&rt, &mut kept, &deep, SCREEN);
    see_content(&rt, &kept, ROOT, (51072, 32640)); // 798 by 510 pixels
    see_content(&rt, &kept, inmost, (18432, 0)); // 800 pixels less 256 paddings on two sides
    see_place(&rt, &deep, &kept, inmost, (16320, 16320)); // below and behind 255 paddings
    Ok(())
}
