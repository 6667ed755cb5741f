//! What can be read of an element's box while only the boxes of its document are up to date.

ghost use Rattle.std.specs.Prelude.{◌≡◌};
ghost use Rattle.page_model.specs.Lookups.{element_at};
ghost use Rattle.page_model.specs.PageBoxes.{pair_of, size_of};
ghost use Rattle.block_layout.specs.Seen.{as_size};
ghost use Rattle.page_boxes.specs.Fresh.{IsFreshIn};
ghost use Rattle.page_boxes.specs.Pages.{seen_screen, IsScreen};
ghost use Rattle.page_boxes.specs.Ranges.{IsSpan};

use crate::documents::own_box;
use crate::screens::{Screen, size_on};
use element_tree::NodeId;
use kept_layout::Kept;
use page_tree::PageTree;
use px_units::{BoxKind, Size};

const NO_SIZE: Size = Size {
    width: 0,
    height: 0,
};

/// Returns the size of an element's content box or border box in units of 1/64 CSS pixel (CSS 2.2, 8.1), or of its content
/// box in device pixels of this screen of `top`, rounded to the nearest pixel, halves up; 0 by 0 without a box. Exact if
/// the boxes of its document are up to date (`refresh_in`). Doesn't allocate.
pub fn size_of(page: &PageTree, boxes: &Kept, screen: Screen, node: NodeId, kind: BoxKind) -> Size
    requires { IsScreen screen }
    ensures value { IsFreshIn page.now.tree (seen_screen screen) boxes.now (element_at page.now.tree node.0).document →
        result ≡ as_size (pair_of (size_of page.now.tree (seen_screen screen) node.0 kind)) }
    ensures width { IsSpan result.width }
    ensures height { IsSpan result.height }
{
    match own_box(page, boxes, node) {
        Some(own) => size_on(screen, &own, kind),
        None => NO_SIZE,
    }
}
