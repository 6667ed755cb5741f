//! The root element that a document shows, and the size and scroll offset of its viewport.

ghost use Rattle.std.specs.Prelude.{◌≡◌, None, option_map};
ghost use Rattle.page_model.specs.PageBoxes.{pair_of, view_of, viewport_of};
ghost use Rattle.element_tree.specs.Links.{number};
ghost use Rattle.block_layout.specs.Seen.{as_size};
ghost use Rattle.page_tree.specs.Items.{IsNatural};
ghost use Rattle.page_boxes.specs.Fresh.{IsFreshAbove};
ghost use Rattle.page_boxes.specs.Pages.{seen_screen, IsScreen, IsRootAbove};

use element_tree::{DocumentId, NodeId};
use kept_layout::Kept;
use page_boxes::{Screen, root_above, shown_root_below, viewport_below};
use page_tree::PageTree;
use px_units::{Point, Size};

// The root element that a document shows, `None` if it isn't shown, the size of its viewport, and the viewport's scroll
// offset in force, `None` if that wasn't computed, which may need measuring the page's boxes.
#[derive(Clone, Copy, Debug, PartialEq, Eq)]
pub(crate) struct DocumentView {
    pub(crate) root: Option<NodeId>,
    pub(crate) size: Size,
    pub(crate) offset: Option<Point>,
}

// Finds the root element and the size by climbing from frame to frame.
pub(crate) fn view_in(
    page: &PageTree,
    boxes: &Kept,
    screen: Screen,
    document: DocumentId,
) -> DocumentView
    requires screen { IsScreen screen }
    requires above { IsFreshAbove page.now.tree (seen_screen screen) boxes.now document.0 }
    ensures root { option_map number result.root ≡ (view_of page.now.tree (seen_screen screen) document.0).root }
    ensures size { result.size ≡ as_size (pair_of (viewport_of page.now.tree (seen_screen screen) document.0)) }
    ensures range { IsNatural result.size }
    ensures offset { result.offset ≡ None }
{
    view_below(page, boxes, screen, root_above(page, document), document)
}

// Finds them by the root element that is shown around the document.
pub(crate) fn view_below(
    page: &PageTree,
    boxes: &Kept,
    screen: Screen,
    around: Option<NodeId>,
    document: DocumentId,
) -> DocumentView
    requires screen { IsScreen screen }
    requires around { IsRootAbove page.now.tree (seen_screen screen) document.0 (option_map number around) }
    requires above { IsFreshAbove page.now.tree (seen_screen screen) boxes.now document.0 }
    ensures root { option_map number result.root ≡ (view_of page.now.tree (seen_screen screen) document.0).root }
    ensures size { result.size ≡ as_size (pair_of (viewport_of page.now.tree (seen_screen screen) document.0)) }
    ensures range { IsNatural result.size }
    ensures offset { result.offset ≡ None }
{
    DocumentView {
        root: shown_root_below(page, around, document),
        size: viewport_below(page, boxes, screen, around, document),
        offset: None,
    }
}
