//! Documents three deep, and moves of the frames between them, with the states that the rules give. The moves are made through
//! `page_tree`, which tells `page_documents` where a frame leaves the tree of a document, and where it enters one.

use crate::common::{Edit, Life, framed_page, live_all};
use crate::same::same;
use element_tree::{DocumentId, NodeId};
use page_documents::Documents;
use page_tree::PageTree;
use std::alloc::Global;
use std::process::Abort;
use std::test::Fail;

/// The frame of 2 becomes the root element of 1, and the frame of 3 that of 2; none of them stands in the tree of `top` yet.
const THREE_DEEP: [Life; 3] = [
    (Edit::Root(0, 0), "Ok", "AFFF 0 000000 0---"),
    (Edit::Root(1, 2), "Ok", "AFFF 0 001000 02--"),
    (Edit::Root(2, 3), "Ok", "AFFF 0 001200 023-"),
];

// A page with its documents three deep, and then moved.
fn moved(rt: &impl Abort, alloc: Global, moves: &[Life]) -> Result<PageTree, Fail> {
    let mut page = framed_page(rt, alloc)?;
    live_all(rt, alloc, &mut page, &THREE_DEEP)?;
    live_all(rt, alloc, &mut page, moves)?;
    Ok(page)
}

/// Documents stay Fresh where their frame leaves one that isn't Active.
const FRESH: [Life; 4] = [
    (Edit::Remove(2), "Ok", "AFFF 0 001200 0-3-"),
    (Edit::Append(0, 2), "Ok", "AFAA 023 000200 0-3-"),
    (Edit::Append(0, 1), "Ok", "AAAA 0231 000200 0-3-"),
    (Edit::Root(1, 3), "Ok", "AAAD 021 000100 03--"),
];

#[test]
fn documents_stay_fresh_where_their_frame_leaves_another_one(rt: HostRuntime) -> Result<(), Fail> {
    moved(&rt, rt.alloc(), &FRESH)?;
    Ok(())
}

const ORDERED: [Life; 3] = [
    (Edit::Append(0, 3), "Ok", "AFFA 03 001000 02--"),
    (Edit::Append(0, 1), "Ok", "AAAA 0312 001000 02--"),
    (Edit::Append(3, 1), "Ok", "ADDA 03 001000 02--"),
];

#[test]
fn active_documents_come_in_the_order_of_the_tree(rt: HostRuntime) -> Result<(), Fail> {
    moved(&rt, rt.alloc(), &ORDERED)?;
    Ok(())
}

/// A block with another one, and in that the frame of 2, becomes the root element of 1.
const ADOPTED: [Life; 4] = [
    (Edit::Append(4, 5), "Ok", "AFFF 0 001200 023-"),
    (Edit::Append(5, 2), "Ok", "AFFF 0 000200 0-3-"),
    (Edit::Root(1, 4), "Ok", "AFFF 0 001211 043-"),
    (Edit::Append(0, 1), "Ok", "AAAA 0123 001211 043-"),
];

const BACK: [Life; 1] = [(Edit::Append(0, 5), "Ok", "AADD 01 000210 043-")];

fn see_path(rt: &impl Abort, page: &PageTree) {
    assert!(rt; page.document_count() == 4);
    let path = [DocumentId(0), DocumentId(1), DocumentId(2), DocumentId(3)];
    same(
        rt,
        &page.path(DocumentId(3)).as_slice(),
        &path.as_slice(),
        "a path",
    );
}

#[test]
fn a_subtree_is_adopted_without_the_documents_in_its_frames(rt: HostRuntime) -> Result<(), Fail> {
    let mut page = moved(&rt, rt.alloc(), &ADOPTED)?;
    see_path(&rt, &page);
    live_all(&rt, rt.alloc(), &mut page, &BACK)
}

fn see_room(rt: &impl Abort, documents: &mut Documents) {
    assert!(rt; !documents.is_full());
    same(
        rt,
        &documents.make(NodeId(7)),
        &DocumentId(1),
        "the second document",
    );
    assert!(rt; !documents.is_full());
    same(
        rt,
        &documents.make(NodeId(8)),
        &DocumentId(2),
        "the third document",
    );
    assert!(rt; documents.is_full());
    same(rt, &documents.count(), &3, "how many there are");
}

#[test]
fn no_more_documents_are_made_than_there_may_be(rt: HostRuntime) -> Result<(), Fail> {
    let mut documents = Documents::new(rt.alloc(), 3)?;
    see_room(&rt, &mut documents);
    Ok(())
}
