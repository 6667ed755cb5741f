//! Edits of a page of five elements, by the rules of DOM, lengths that grow, and the life of three documents in frames.

ghost use Rattle.std.specs.Prelude.{◌<◌};

use crate::common::{Edit, Life, any_name, apply, framed_page, live_all, make_elements};
use crate::same::same;
use block_layout::ItemKind;
use element_tree::{Container, DocumentId, NodeId};
use page_documents::DocumentState;
use page_tree::{MakeFault, PageTree};
use px_units::{Length, Px, Size};
use std::alloc::Global;
use std::process::Abort;
use std::test::Fail;
use style_values::{Axis, Declaration};
use text_io::{LimitKind, ThrowKind, Version};

fn push_children(
    text: &mut String,
    alloc: Global,
    page: &PageTree,
    parent: u32,
) -> Result<(), Fail> {
    let mut next = page.tree().first_child(NodeId(parent));
    for _ in 0..5 {
        let Some(child) = next else {
            break;
        };
        text.push_str(format!(in alloc; "{}", child.0)?.as_str())?;
        next = page.tree().next_sibling(child);
    }
    text.push('|')?;
    Ok(())
}

// The children of each element in order, each list ended by a bar, and then the root element.
fn push_shape(text: &mut String, alloc: Global, page: &PageTree) -> Result<(), Fail> {
    for number in 0..5 {
        push_children(text, alloc, page, number)?;
    }
    if let Some(root) = page.root(DocumentId(0)) {
        text.push_str(format!(in alloc; "{}", root.0)?.as_str())?;
    }
    Ok(())
}

// So many blocks on a page of this version.
fn page_of(rt: &impl Abort, alloc: Global, version: Version, count: u32) -> Result<PageTree, Fail> {
    let mut page = PageTree::new(alloc, version)?;
    make_elements(rt, &mut page, count, &[])?;
    Ok(page)
}

// An edit, how it ends, and the lists of children and the root element then.
type Row = (Edit, &'static str, &'static str);

const EDITS: [Row; 18] = [
    (Edit::Append(0, 1), "Ok", "1|||||"),
    (Edit::Append(1, 0), "HierarchyRequestError", "1|||||"),
    (Edit::Before(0, 2, 0), "NotFoundError", "1|||||"),
    (Edit::Root(0, 0), "Ok", "1|||||0"),
    (Edit::Root(0, 2), "HierarchyRequestError", "1|||||0"),
    (Edit::Root(0, 0), "HierarchyRequestError", "1|||||0"),
    (Edit::RootBefore(0, 2, 1), "NotFoundError", "1|||||0"),
    (
        Edit::RootBefore(0, 2, 0),
        "HierarchyRequestError",
        "1|||||0",
    ),
    (Edit::Append(0, 2), "Ok", "12|||||0"),
    (Edit::Before(0, 1, 1), "Ok", "12|||||0"),
    (Edit::Before(0, 2, 1), "Ok", "21|||||0"),
    (Edit::Before(1, 1, 4), "HierarchyRequestError", "21|||||0"),
    (Edit::Append(3, 0), "Ok", "21|||0||"),
    (Edit::Remove(4), "Ok", "21|||0||"),
    (Edit::Root(0, 3), "Ok", "21|||0||3"),
    (Edit::Remove(3), "Ok", "21|||0||"),
    (Edit::Root(0, 1), "Ok", "2|||0||1"),
    (Edit::Append(1, 3), "Ok", "2|3||0||1"),
];

fn see_edit(rt: &impl Abort, alloc: Global, page: &mut PageTree, row: Row) -> Result<(), Fail> {
    let (edit, answered, children) = row;
    same(rt, &apply(rt, page, edit), &answered, children);
    let mut now = String::new(alloc);
    push_shape(&mut now, alloc, page)?;
    assert!(rt; now.as_bytes() == children.as_bytes(), "want {children}");
    Ok(())
}

fn see_edits(rt: &impl Abort, alloc: Global, page: &mut PageTree) -> Result<(), Fail> {
    for row in EDITS {
        see_edit(rt, alloc, page, row)?;
    }
    Ok(())
}

fn see_depth(rt: &impl Abort, page: &PageTree, node: u32, depth: u32, is_attached: bool) {
    assert!(rt; page.holds(NodeId(node)));
    same(rt, &page.depth(NodeId(node)), &depth, node);
    same(rt, &page.is_attached(NodeId(node)), &is_attached, node);
}

#[test]
fn edits_give_the_lists_of_children(rt: HostRuntime) -> Result<(), Fail> {
    let mut page = page_of(&rt, rt.alloc(), Version::First, 5)?;
    see_edits(&rt, rt.alloc(), &mut page)?;
    for (node, depth, is_attached) in [(1, 1, true), (3, 2, true), (2, 4, true), (4, 1, false)] {
        see_depth(&rt, &page, node, depth, is_attached);
    }
    Ok(())
}

/// The limits `depth`, `nodes` and `documents` of `docs/SCRIPT.md`.
const MOST_DEPTH: u32 = 256;

const MOST_NODES: u32 = 20_000;

const MOST_NODES_OF_SECOND: u32 = 40_000;

const MOST_DOCUMENTS: u32 = 64;

fn make_deep(rt: &impl Abort, page: &mut PageTree) {
    for number in 1..MOST_DEPTH {
        same(
            rt,
            &apply(rt, page, Edit::Append(number - 1, number)),
            &"Ok",
            number,
        );
    }
    let inmost = NodeId(MOST_DEPTH - 1);
    assert!(rt; page.holds(inmost));
    same(
        rt,
        &page.depth(inmost),
        &MOST_DEPTH,
        "the depth of the inmost",
    );
}

// One more, below all of them and above all of them.
fn see_no_deeper(rt: &impl Abort, page: &mut PageTree) {
    let edit = Edit::Append(MOST_DEPTH - 1, MOST_DEPTH);
    same(rt, &apply(rt, page, edit), &"depth", "a node too deep");
    same(
        rt,
        &apply(rt, page, Edit::Root(0, 0)),
        &"Ok",
        "a root element",
    );
    same(
        rt,
        &apply(rt, page, Edit::Append(MOST_DEPTH, 0)),
        &"depth",
        "a tree too deep",
    );
    same(
        rt,
        &page.root(DocumentId(0)),
        &Some(NodeId(0)),
        "the root element",
    );
}

#[test]
fn no_element_stands_deeper_than_the_limit(rt: HostRuntime) -> Result<(), Fail> {
    let mut page = page_of(&rt, rt.alloc(), Version::First, MOST_DEPTH + 1)?;
    make_deep(&rt, &mut page);
    see_no_deeper(&rt, &mut page);
    Ok(())
}

const SMALL: Size = Size {
    width: 0,
    height: 0,
};

const LARGE: Size = Size {
    width: 64,
    height: 128,
};

// An image, which is element 0, and a block.
fn make_image(rt: &impl Abort, page: &mut PageTree) -> Result<(), Fail> {
    let name = any_name(rt);
    same(rt, &page.reserve()?, &NodeId(0), "the first number");
    same(
        rt,
        &page.make(DocumentId(0), name, ItemKind::Image(SMALL))?,
        &NodeId(0),
        "an image",
    );
    same(
        rt,
        &page.make(DocumentId(0), name, ItemKind::Block)?,
        &NodeId(1),
        "a block",
    );
    assert!(rt; page.holds(NodeId(0)));
    same(rt, &page.name_of(NodeId(0)), &name, "its name");
    Ok(())
}

fn see_loading(rt: &impl Abort, page: &mut PageTree) {
    assert!(rt; page.holds(NodeId(0)) && page.holds(NodeId(1)));
    assert!(rt; matches!(page.load(NodeId(1), LARGE), Err(ThrowKind::TypeError)));
    assert!(rt; page.holds(NodeId(0)));
    assert!(rt; page.load(NodeId(0), LARGE).is_ok());
    same(
        rt,
        &page.kind(NodeId(0)),
        &ItemKind::Image(LARGE),
        "what the image is",
    );
    same(
        rt,
        &page.kind(NodeId(1)),
        &ItemKind::Block,
        "what the block is",
    );
}

fn see_growth(rt: &impl Abort, page: &mut PageTree, by: i64, width: i64) {
    assert!(rt; page.holds(NodeId(0)));
    assert!(rt; page.grow(NodeId(0), Axis::Width, Px(by)).is_ok());
    same(
        rt,
        &page.style(NodeId(0)).width,
        &Length::Px(Px(width)),
        "the width",
    );
    same(
        rt,
        &page.style(NodeId(0)).height,
        &Length::Auto,
        "the height",
    );
}

fn see_growing(rt: &impl Abort, page: &mut PageTree) {
    assert!(rt; page.holds(NodeId(0)));
    let automatic = page.grow(NodeId(0), Axis::Width, Px(64));
    assert!(rt; matches!(automatic, Err(ThrowKind::TypeError)));
    assert!(rt; page.holds(NodeId(0)));
    page.set(NodeId(0), Declaration::Width(Length::Px(Px(640))));
    // a width is at least 0 and at most 1,000,000 pixels
    for (by, width) in [(-64, 576), (-640, 0), (64000000, 64000000), (64, 64000000)] {
        see_growth(rt, page, by, width);
    }
}

#[test]
fn lengths_grow_and_images_load(rt: HostRuntime) -> Result<(), Fail> {
    let mut page = PageTree::new(rt.alloc(), Version::First)?;
    make_image(&rt, &mut page)?;
    see_loading(&rt, &mut page);
    see_growing(&rt, &mut page);
    Ok(())
}

fn see_full(rt: &impl Abort, page: &mut PageTree) {
    let name = any_name(rt);
    assert!(rt; page.is_full());
    let refused = page.make(DocumentId(0), name, ItemKind::Block);
    assert!(rt; matches!(refused, Err(MakeFault::Limit(LimitKind::Nodes))));
    let refused = page.make_frame(DocumentId(0), name);
    assert!(rt; matches!(refused, Err(MakeFault::Limit(LimitKind::Nodes))));
    assert!(rt; matches!(page.reserve(), Err(MakeFault::Limit(LimitKind::Nodes))));
}

#[test]
fn no_more_elements_are_made_than_the_limit(rt: HostRuntime) -> Result<(), Fail> {
    let mut page = page_of(&rt, rt.alloc(), Version::First, MOST_NODES)?;
    see_full(&rt, &mut page);
    let page = page_of(&rt, rt.alloc(), Version::Second, MOST_NODES)?;
    assert!(rt; !page.is_full());
    let mut page = page_of(&rt, rt.alloc(), Version::Second, MOST_NODES_OF_SECOND)?;
    see_full(&rt, &mut page);
    Ok(())
}

fn see_frame(rt: &impl Abort, page: &mut PageTree, number: u32) -> Result<(), Fail>
    requires { 0 < number }
{
    let document = DocumentId(number);
    assert!(rt; !page.is_full_of_documents());
    same(
        rt,
        &page.make_frame(DocumentId(0), any_name(rt))?,
        &(NodeId(number - 1), document),
        "a frame",
    );
    same(
        rt,
        &page.state(document),
        &DocumentState::Fresh,
        "its document",
    );
    same(
        rt,
        &page.frame_of(document),
        &Some(NodeId(number - 1)),
        "the frame of its document",
    );
    Ok(())
}

fn see_frames(rt: &impl Abort, page: &mut PageTree) -> Result<(), Fail> {
    for number in 1..MOST_DOCUMENTS {
        see_frame(rt, page, number)?;
    }
    Ok(())
}

fn see_full_of_documents(rt: &impl Abort, page: &mut PageTree) -> Result<(), Fail> {
    let name = any_name(rt);
    assert!(rt; page.is_full_of_documents());
    let refused = page.make_frame(DocumentId(0), name);
    assert!(rt; matches!(refused, Err(MakeFault::Limit(LimitKind::Documents))));
    // a frame for each document but `top` comes before
    same(
        rt,
        &page.make(DocumentId(0), name, ItemKind::Block)?,
        &NodeId(MOST_DOCUMENTS - 1),
        "a block",
    );
    same(
        rt,
        &page.document_count(),
        &MOST_DOCUMENTS,
        "how many documents",
    );
    Ok(())
}

#[test]
fn no_more_documents_are_made_than_the_limit(rt: HostRuntime) -> Result<(), Fail> {
    let mut page = PageTree::new(rt.alloc(), Version::First)?;
    see_frames(&rt, &mut page)?;
    see_full_of_documents(&rt, &mut page)
}

const ENDING: [Life; 9] = [
    (Edit::Root(0, 0), "Ok", "AFFF 0 000000 0---"),
    (Edit::Root(1, 2), "Ok", "AFFF 0 001000 02--"),
    (Edit::Root(2, 3), "Ok", "AFFF 0 001200 023-"),
    (Edit::Append(0, 1), "Ok", "AAAA 0123 001200 023-"),
    (Edit::Append(0, 4), "Ok", "AAAA 0123 001200 023-"),
    (Edit::Append(4, 2), "Ok", "AADD 01 000200 0-3-"),
    (Edit::Append(0, 2), "Ok", "AADD 01 000200 0-3-"),
    (Edit::Remove(1), "Ok", "ADDD 0 000200 0-3-"),
    (Edit::Append(0, 1), "Ok", "ADDD 0 000200 0-3-"),
];

fn see_path(rt: &impl Abort, page: &PageTree) {
    assert!(rt; page.document_count() == 4);
    let path = [DocumentId(0), DocumentId(2), DocumentId(3)];
    same(
        rt,
        &page.path(DocumentId(3)).as_slice(),
        &path.as_slice(),
        "a path",
    );
}

#[test]
fn documents_end_with_those_inside(rt: HostRuntime) -> Result<(), Fail> {
    let mut page = framed_page(&rt, rt.alloc())?;
    live_all(&rt, rt.alloc(), &mut page, &ENDING)?;
    see_path(&rt, &page);
    Ok(())
}

const TURNED: [Life; 17] = [
    (Edit::Append(4, 5), "Ok", "AFFF 0 000000 ----"),
    (Edit::Append(5, 2), "Ok", "AFFF 0 000000 ----"),
    (Edit::Root(2, 3), "Ok", "AFFF 0 000200 --3-"),
    (Edit::Root(1, 4), "Ok", "AFFF 0 001211 -43-"),
    (
        Edit::Root(1, 5),
        "HierarchyRequestError",
        "AFFF 0 001211 -43-",
    ),
    (
        Edit::RootBefore(1, 5, 4),
        "HierarchyRequestError",
        "AFFF 0 001211 -43-",
    ),
    (
        Edit::RootBefore(1, 5, 0),
        "NotFoundError",
        "AFFF 0 001211 -43-",
    ),
    (Edit::Root(0, 0), "Ok", "AFFF 0 001211 043-"),
    (Edit::Append(0, 1), "Ok", "AAAA 0123 001211 043-"),
    (Edit::Append(4, 1), "Ok", "ADDD 0 011211 043-"),
    (Edit::Append(0, 5), "Ok", "ADDD 0 010210 043-"),
    (Edit::Root(3, 1), "Ok", "ADDD 0 030210 0431"),
    (Edit::Before(5, 2, 2), "Ok", "ADDD 0 030210 0431"),
    (Edit::Before(5, 1, 2), "Ok", "ADDD 0 000210 043-"),
    (Edit::Remove(4), "Ok", "ADDD 0 000210 0-3-"),
    (Edit::Root(1, 4), "Ok", "ADDD 0 000210 043-"),
    (Edit::Remove(0), "Ok", "ADDD 0 000210 -43-"),
];

#[test]
fn a_frame_may_come_to_stand_in_its_own_document(rt: HostRuntime) -> Result<(), Fail> {
    let mut page = framed_page(&rt, rt.alloc())?;
    live_all(&rt, rt.alloc(), &mut page, &TURNED)?;
    assert!(&rt; page.holds(NodeId(5)));
    same(
        &rt,
        &page.tree_document(NodeId(5)),
        &None,
        "the document of node 5",
    );
    Ok(())
}

const ORDERED: [Life; 10] = [
    (Edit::Root(0, 0), "Ok", "AFFF 0 000000 0---"),
    (Edit::Append(0, 3), "Ok", "AFFA 03 000000 0---"),
    (Edit::Append(0, 1), "Ok", "AAFA 031 000000 0---"),
    (Edit::Root(3, 2), "Ok", "AAAA 0321 003000 0--2"),
    (Edit::Root(2, 4), "Ok", "AAAA 0321 003020 0-42"),
    (Edit::Append(4, 5), "Ok", "AAAA 0321 003022 0-42"),
    (Edit::Before(0, 1, 3), "Ok", "ADAA 032 003022 0-42"),
    (Edit::Append(5, 1), "Ok", "ADAA 032 023022 0-42"),
    (Edit::Append(0, 2), "Ok", "ADDA 03 020022 0-4-"),
    (Edit::Remove(3), "Ok", "ADDD 0 020022 0-4-"),
];

fn see_containers(rt: &impl Abort, page: &PageTree) {
    assert!(rt; page.holds(NodeId(5)));
    same(
        rt,
        &page.tree_document(NodeId(5)),
        &Some(DocumentId(2)),
        "the document of node 5",
    );
    let parent = Container::Element(NodeId(4));
    same(
        rt,
        &page.container_of(NodeId(5)),
        &Some(parent),
        "the container of node 5",
    );
    same(
        rt,
        &page.container_of(NodeId(4)),
        &Some(Container::Document(DocumentId(2))),
        "the container of node 4",
    );
}

#[test]
fn active_documents_come_in_the_order_of_the_frame_tree(rt: HostRuntime) -> Result<(), Fail> {
    let mut page = framed_page(&rt, rt.alloc())?;
    live_all(&rt, rt.alloc(), &mut page, &ORDERED)?;
    see_containers(&rt, &page);
    Ok(())
}
