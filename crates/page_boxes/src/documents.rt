//! What documents show: whether an element has a box, and the size of a viewport (CSS 2.2, 9.2.4 and 10.1; CSSOM View, 4).

ghost use Rattle.std.specs.Prelude.{◌≡◌, IfSome, option_map};
ghost use Rattle.element_tree.specs.Links.{number};
ghost use Rattle.page_model.specs.World.{Screen as WorldScreen};
ghost use Rattle.page_model.specs.Lookups.{element_at, document_at};
ghost use Rattle.page_model.specs.PageBoxes.{pair_of, view_up, view_of, view_at, framed_size, viewport_of, has_box, box_of};
ghost use Rattle.block_layout.specs.Seen.{as_size};
ghost use Rattle.page_tree.specs.Items.{IsNatural};
ghost use Rattle.page_boxes.specs.Fresh.{IsFreshIn, IsFreshAbove};
ghost use Rattle.page_boxes.specs.Pages.{seen_screen, seen_pair, IsScreen, IsRootAbove};

use crate::climb::is_boxed;
use crate::screens::Screen;
use block_layout::{BoxOf, Boxes};
use element_tree::{DocumentId, NodeId};
use kept_layout::Kept;
use page_tree::PageTree;
use px_units::{BoxKind, Size};

/// The bound on nested frames that are followed: more than there can be.
const LEVELS: u32 = 65536;

const NO_SIZE: Size = Size {
    width: 0,
    height: 0,
};

// Returns the root element that a document shows, following at most `high` frames.
fn root_up(page: &PageTree, document: DocumentId, high: u32) -> Option<NodeId>
    ensures { (screen : WorldScreen) → option_map number result ≡ (view_up high page.now.tree screen document.0).root }
{
    if high == 0 {
        return None;
    }
    if !page.is_active(document) {
        return None;
    }
    let root = page.root(document);
    let Some(frame) = page.frame_of(document) else {
        return root;
    };
    let around = root_up(page, page.document_of(frame), high - 1);
    if is_boxed(page.tree(), around, frame) {
        root
    } else {
        None
    }
}

/// Returns the root element that a document shows, `None` if it isn't Active or its frame has no box. Doesn't allocate.
///
/// It recurses once for each frame around the document.
pub fn shown_root(page: &PageTree, document: DocumentId) -> Option<NodeId>
    ensures { (screen : WorldScreen) → option_map number result ≡ (view_of page.now.tree screen document.0).root }
{
    root_up(page, document, LEVELS)
}

/// Returns the root element that is shown around a document, by the document that its frame is in, `None` for `top`.
/// Doesn't allocate.
pub fn root_above(page: &PageTree, document: DocumentId) -> Option<NodeId>
    ensures { (screen : WorldScreen) → IsRootAbove page.now.tree screen document.0 (option_map number result) }
{
    match page.frame_of(document) {
        Some(frame) => shown_root(page, page.document_of(frame)),
        None => None,
    }
}

/// Returns the root element that a document shows, given the one that is shown around it (`root_above`), `None` if it isn't
/// Active or its frame has no box. Doesn't allocate.
pub fn shown_root_below(
    page: &PageTree,
    around: Option<NodeId>,
    document: DocumentId,
) -> Option<NodeId>
    ensures { (screen : WorldScreen) → IsRootAbove page.now.tree screen document.0 (option_map number around) →
        option_map number result ≡ (view_of page.now.tree screen document.0).root }
{
    if !page.is_active(document) {
        return None;
    }
    let root = page.root(document);
    let Some(frame) = page.frame_of(document) else {
        return root;
    };
    if has_box_below(page, around, frame) {
        root
    } else {
        None
    }
}

/// Whether an element has a box, given the root element that its document shows (`has_box`). Doesn't allocate.
pub fn has_box_below(page: &PageTree, root: Option<NodeId>, node: NodeId) -> bool
    ensures { (screen : WorldScreen) → option_map number root ≡ (view_at page.now.tree screen node.0).root → result ≡ has_box page.now.tree screen node.0 }
{
    if !page.holds(node) {
        return false;
    }
    is_boxed(page.tree(), root, node)
}

/// Whether an element has a box (CSS 2.2, 9.2.4): it is in the tree of an Active document that is `top` or whose frame has a
/// box, neither the element nor an ancestor has `display: none`, and each proper ancestor is a block. Doesn't allocate.
pub fn has_box(page: &PageTree, node: NodeId) -> bool
    ensures { (screen : WorldScreen) → result ≡ has_box page.now.tree screen node.0 }
{
    let root = shown_root(page, page.document_of(node));
    has_box_below(page, root, node)
}

/// Returns the box of an element, given the root element that its document shows, `None` if it has none. Exact if the
/// boxes of its document are up to date (`refresh_in`). Doesn't allocate.
pub fn box_below(page: &PageTree, boxes: &Kept, root: Option<NodeId>, node: NodeId) -> Option<BoxOf>
    ensures { (screen : WorldScreen) → option_map number root ≡ (view_at page.now.tree screen node.0).root →
        IsFreshIn page.now.tree screen boxes.now (element_at page.now.tree node.0).document → result ≡ box_of page.now.tree screen node.0 }
{
    if has_box_below(page, root, node) {
        boxes.box_of(node)
    } else {
        None
    }
}

// Returns the box of an element, `None` if it has none.
pub(crate) fn own_box(page: &PageTree, boxes: &Kept, node: NodeId) -> Option<BoxOf>
    ensures { (screen : WorldScreen) → IsFreshIn page.now.tree screen boxes.now (element_at page.now.tree node.0).document →
        result ≡ box_of page.now.tree screen node.0 }
{
    let root = shown_root(page, page.document_of(node));
    box_below(page, boxes, root, node)
}

// Returns the size of a document's viewport, given the root element that is shown around it, `None` if its frame has no box.
pub(crate) fn framed_size(
    page: &PageTree,
    boxes: &Kept,
    screen: Screen,
    around: Option<NodeId>,
    document: DocumentId,
) -> Option<Size>
    ensures value { IsRootAbove page.now.tree (seen_screen screen) document.0 (option_map number around) →
        IsFreshAbove page.now.tree (seen_screen screen) boxes.now document.0 → option_map seen_pair result
        ≡ framed_size page.now.tree (seen_screen screen) (view_of page.now.tree (seen_screen screen)) (document_at page.now.tree document.0).frame }
    ensures range { IsNatural screen.size → IfSome result IsNatural }
{
    let Some(frame) = page.frame_of(document) else {
        return Some(screen.size);
    };
    match box_below(page, boxes, around, frame) {
        Some(own) => Some(own.size(BoxKind::Content)),
        None => None,
    }
}

/// The root element that a document shows, and the size of the viewport that it is shown in.
#[derive(Clone, Copy, Debug, PartialEq, Eq)]
pub struct ShownRoot {
    /// The root element.
    pub root: NodeId,
    /// The size of the viewport.
    pub size: Size,
}

/// Returns the size of a document's viewport (CSSOM View, 4: `innerWidth`, `innerHeight`): for `top` that of its screen, for
/// any other document that of the content box of its frame, 0 by 0 if that has no box. Exact if the boxes of the
/// document that its frame is in are up to date for this screen (`refresh_in`). Doesn't allocate.
pub fn viewport_of(page: &PageTree, boxes: &Kept, screen: Screen, document: DocumentId) -> Size
    requires { IsScreen screen }
    ensures value { IsFreshAbove page.now.tree (seen_screen screen) boxes.now document.0 →
        result ≡ as_size (pair_of (viewport_of page.now.tree (seen_screen screen) document.0)) }
    ensures range { IsNatural result }
{
    viewport_below(page, boxes, screen, root_above(page, document), document)
}

/// Returns the size of a document's viewport, given the root element that is shown around it (`root_above`): as `viewport_of`,
/// without looking for that root element. Doesn't allocate.
pub fn viewport_below(
    page: &PageTree,
    boxes: &Kept,
    screen: Screen,
    around: Option<NodeId>,
    document: DocumentId,
) -> Size
    requires { IsScreen screen }
    ensures value { IsRootAbove page.now.tree (seen_screen screen) document.0 (option_map number around) →
        IsFreshAbove page.now.tree (seen_screen screen) boxes.now document.0 →
        result ≡ as_size (pair_of (viewport_of page.now.tree (seen_screen screen) document.0)) }
    ensures range { IsNatural result }
{
    match framed_size(page, boxes, screen, around, document) {
        Some(size) => size,
        None => NO_SIZE,
    }
}
