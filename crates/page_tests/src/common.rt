//! What more than one module needs: pages, their boxes and their observers.

ghost use Rattle.std.specs.Prelude.{◌≡◌, ◌<◌, ◌≤◌, ℕ, IfOk, length};
ghost use Rattle.style_values.specs.Ranges.{IsAllowed};
ghost use Rattle.kept_layout.specs.Slots.{slot_in, no_slot};
ghost use Rattle.page_boxes.specs.Fresh.{IsFresh};
ghost use Rattle.page_boxes.specs.Kept.{AreKept};
ghost use Rattle.page_boxes.specs.Pages.{seen_screen};

use crate::same::same;
use block_layout::ItemKind;
use element_tree::{Container, DocumentId, NodeId};
use intersection_observer::{Root, Watchers};
use kept_layout::Kept;
use page_boxes::{Screen, nothing_kept_fits, refresh};
use page_documents::DocumentState;
use page_tree::{PageTree, PlaceFault};
use px_units::{Percent, Size};
use std::alloc::Global;
use std::marker::Brand;
use std::process::Abort;
use std::sync::ledger::{Blank, Ledger};
use std::test::Fail;
use step_count::Steps;
use style_values::Declaration;
use text_io::{Name, Version};
use thresholds::{Margins, Thresholds};

/// 800 by 600 pixels, each of which is a device pixel.
pub(crate) const SCREEN: Screen = Screen {
    size: Size {
        width: 51200,
        height: 38400,
    },
    ratio: Percent(10_000),
};

pub(crate) fn any_name(rt: &impl Abort) -> Name {
    Name::read(b"a").expect(rt, "a name")
}

fn make_one(rt: &impl Abort, page: &mut PageTree, number: u32, is_frame: bool) -> Result<(), Fail> {
    let made = if is_frame {
        page.make_frame(DocumentId(0), any_name(rt))?.0
    } else {
        page.make(DocumentId(0), any_name(rt), ItemKind::Block)?
    };
    same(rt, &made, &NodeId(number), "a node that is made");
    Ok(())
}

/// So many elements, all made in `top`: frames of these numbers, and blocks.
pub(crate) fn make_elements(
    rt: &impl Abort,
    page: &mut PageTree,
    count: u32,
    frames: &[u32],
) -> Result<(), Fail> {
    for number in 0..count {
        make_one(rt, page, number, frames.contains(&number))?;
    }
    Ok(())
}

pub(crate) fn declaration(rt: &impl Abort, property: &str, value: &str) -> Declaration
    ensures { IsAllowed result }
{
    Declaration::read(property.as_bytes(), value.as_bytes())
        .ok()
        .expect(rt, "a declaration")
}

pub(crate) fn set(rt: &impl Abort, page: &mut PageTree, node: u32, property: &str, value: &str) {
    assert!(rt; page.holds(NodeId(node)));
    page.set(NodeId(node), declaration(rt, property, value));
}

pub(crate) fn remove(rt: &impl Abort, page: &mut PageTree, node: u32) {
    assert!(rt; page.holds(NodeId(node)));
    page.remove(NodeId(node));
}

/// Puts an element behind the children of a container, or before one.
pub(crate) fn place(
    rt: &impl Abort,
    page: &mut PageTree,
    container: Container,
    node: u32,
    sibling: Option<NodeId>,
) -> Result<(), PlaceFault> {
    assert!(rt; page.holds(NodeId(node)));
    if let Some(named) = sibling {
        assert!(rt; page.holds(named));
    }
    match container {
        Container::Element(parent) => assert!(rt; page.holds(parent)),
        Container::Document(document) => assert!(rt; document.0 < page.document_count()),
    }
    page.place(container, NodeId(node), sibling)
}

pub(crate) fn put(rt: &impl Abort, page: &mut PageTree, container: Container, node: u32) {
    assert!(rt; place(rt, page, container, node, None).is_ok());
}

/// Slots for a page of nine elements at most, with nothing held.
pub(crate) fn empty_slots(alloc: Global) -> Result<Kept, Fail>
    ensures room { IfOk result (λ kept. 9 ≤ length kept) }
    ensures empty { IfOk result (λ kept. (n : ℕ) → slot_in kept n ≡ no_slot) }
{
    let mut boxes = Kept::new(alloc);
    boxes.add(NodeId(8))?;
    Ok(boxes)
}

fn renew<L: Ledger>(blank: Blank, boxes: &mut Kept, page: &PageTree, screen: Screen)
    requires name { blank.name ≡ L.name }
    requires parts { blank.parts ≡ L.parts }
    requires one_part { 0 < blank.parts }
    requires kept { AreKept page.now.tree boxes.old }
    ensures { IsFresh page.now.tree (seen_screen screen) boxes.new }
{
    let mut steps = Steps::<L>::new(blank);
    refresh(boxes, page, screen, &mut steps);
}

/// The boxes of a page of nine elements at most.
pub(crate) fn all_boxes(
    rt: &impl Abort,
    alloc: Global,
    page: &PageTree,
    screen: Screen,
) -> Result<Kept, Fail>
    ensures { IfOk result (λ boxes. IsFresh page.now.tree (seen_screen screen) boxes) }
{
    assert!(rt; !page.holds(NodeId(9)));
    let mut boxes = empty_slots(alloc)?;
    nothing_kept_fits();
    renew::<Brand>(Blank::new(1), &mut boxes, page, screen);
    Ok(boxes)
}

/// Makes an observer of a document, without a handler.
pub(crate) fn watch(
    alloc: Global,
    watchers: &mut Watchers,
    document: DocumentId,
    root: Root,
    margins: &str,
    thresholds: &[i64],
) -> Result<(), Fail>
    ensures { watchers.new.part.given ≡ watchers.old.part.given }
{
    let margins = Margins::parse(margins.as_bytes())?;
    let thresholds = Thresholds::new(alloc, thresholds)?;
    watchers.make(document, None, root, margins, thresholds)?;
    Ok(())
}

/// An element as the last child of another one or before a child, as the root element of a document, or out of where it stands.
#[derive(Clone, Copy)]
pub(crate) enum Edit {
    Append(u32, u32),
    Before(u32, u32, u32),
    Root(u32, u32),
    RootBefore(u32, u32, u32),
    Remove(u32),
}

fn answer(outcome: Result<(), PlaceFault>) -> &'static str {
    match outcome {
        Ok(()) => "Ok",
        Err(PlaceFault::Throw(kind)) => kind.text(),
        Err(PlaceFault::Limit(kind)) => kind.text(),
    }
}

/// Makes an edit, and tells how it ended.
pub(crate) fn apply(rt: &impl Abort, page: &mut PageTree, edit: Edit) -> &'static str {
    let (container, node, sibling) = match edit {
        Edit::Append(parent, node) => (Container::Element(NodeId(parent)), node, None),
        Edit::Before(parent, node, sibling) => {
            (
                Container::Element(NodeId(parent)),
                node,
                Some(NodeId(sibling)),
            )
        }
        Edit::Root(document, node) => (Container::Document(DocumentId(document)), node, None),
        Edit::RootBefore(document, node, sibling) => {
            (
                Container::Document(DocumentId(document)),
                node,
                Some(NodeId(sibling)),
            )
        }
        Edit::Remove(node) => {
            remove(rt, page, node);
            return "Ok";
        }
    };
    answer(place(rt, page, container, node, sibling))
}

/// A block, the frames of documents 1, 2 and 3, numbers 1, 2 and 3, and two blocks more, all made in `top`.
pub(crate) fn framed_page(rt: &impl Abort, alloc: Global) -> Result<PageTree, Fail> {
    let mut page = PageTree::new(alloc, Version::First)?;
    make_elements(rt, &mut page, 6, &[1, 2, 3])?;
    for (node, framed) in [
        (1, Some(DocumentId(1))),
        (2, Some(DocumentId(2))),
        (3, Some(DocumentId(3))),
        (4, None),
        (5, None),
    ] {
        same(
            rt,
            &page.framed(NodeId(node)),
            &framed,
            "the document of a frame",
        );
    }
    Ok(page)
}

fn letter(state: DocumentState) -> char {
    match state {
        DocumentState::Fresh => 'F',
        DocumentState::Active => 'A',
        DocumentState::Dead => 'D',
    }
}

fn digit(node: Option<NodeId>) -> char {
    match node {
        Some(NodeId(number)) => {
            ['0', '1', '2', '3', '4', '5']
                .get(number as usize)
                .copied()
                .unwrap_or('?')
        }
        None => '-',
    }
}

fn push_states(text: &mut String, page: &PageTree) -> Result<(), Fail> {
    for document in 0..4 {
        text.push(letter(page.state(DocumentId(document))))?;
    }
    Ok(())
}

fn push_active(text: &mut String, page: &PageTree) -> Result<(), Fail> {
    for document in page.active_documents()? {
        text.push(digit(Some(NodeId(document.0))))?;
    }
    Ok(())
}

fn push_owners(text: &mut String, page: &PageTree) -> Result<(), Fail> {
    for node in 0..6 {
        text.push(digit(Some(NodeId(page.document_of(NodeId(node)).0))))?;
    }
    Ok(())
}

fn push_roots(text: &mut String, page: &PageTree) -> Result<(), Fail> {
    for document in 0..4 {
        text.push(digit(page.root(DocumentId(document))))?;
    }
    Ok(())
}

// For each document its state by a letter, then the Active ones in order, then each element's document, then each document's
// root element.
fn push_life(text: &mut String, page: &PageTree) -> Result<(), Fail> {
    push_states(text, page)?;
    text.push(' ')?;
    push_active(text, page)?;
    text.push(' ')?;
    push_owners(text, page)?;
    text.push(' ')?;
    push_roots(text, page)
}

/// An edit, how it ends, and the documents then.
pub(crate) type Life = (Edit, &'static str, &'static str);

fn live(rt: &impl Abort, alloc: Global, page: &mut PageTree, life: Life) -> Result<(), Fail> {
    let (edit, answered, wanted) = life;
    same(rt, &apply(rt, page, edit), &answered, wanted);
    let mut now = String::new(alloc);
    push_life(&mut now, page)?;
    assert!(rt;
        now.as_bytes() == wanted.as_bytes(),
        "want {wanted}, not {now}"
    );
    Ok(())
}

/// Makes the edits, and compares the documents after each.
pub(crate) fn live_all(
    rt: &impl Abort,
    alloc: Global,
    page: &mut PageTree,
    lives: &[Life],
) -> Result<(), Fail> {
    for life in lives {
        live(rt, alloc, page, *life)?;
    }
    Ok(())
}
