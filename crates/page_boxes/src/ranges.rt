//! The scroll ranges of elements and viewports (CSS Overflow 3, 2.2; CSSOM View: scrolling area).

ghost use Rattle.std.specs.Prelude.{◌≡◌, ◌<◌, ◌-◌, pos, cond, true, Some, None, length, is_some, unsigned_abs};
ghost use Rattle.px_units.specs.Lengths.{cap};
ghost use Rattle.layout_model.specs.Clips.{is_scroll_container};
ghost use Rattle.layout_model.specs.Points.{minus, capped};
ghost use Rattle.layout_model.specs.Views.{View, inputs_in_view};
ghost use Rattle.layout_model.specs.Reach.{range_of as range_in, range_of_view};
ghost use Rattle.page_model.specs.World.{Screen as WorldScreen};
ghost use Rattle.page_model.specs.PageBoxes.{view_with, is_scroller};
ghost use Rattle.scrolling.specs.Ranges.{IsLength, IsRange};
ghost use Rattle.block_layout.specs.Seen.{as_size};
ghost use Rattle.block_layout.specs.Trees.{layout_tree};
ghost use Rattle.kept_layout.specs.Measures.{IsSized};
ghost use Rattle.page_tree.specs.Items.{IsNatural};
ghost use Rattle.page_boxes.specs.Fresh.{HoldsAll};
ghost use Rattle.page_boxes.specs.Pages.{seen_pair};

use crate::documents::{ShownRoot, has_box};
use block_layout::{Boxes, Styled, is_scroll_container};
use element_tree::{NodeId, Tree};
use kept_layout::Kept;
use layout_model::capped;
use page_tree::PageTree;
use positioned_layout::reach;
use px_units::Size;

const NO_SIZE: Size = Size {
    width: 0,
    height: 0,
};

/// Whether an element is a scroll container with a box (CSS Overflow 3, 3.1). False for a root element.
pub fn is_scroller(page: &PageTree, node: NodeId) -> bool
    ensures { (screen : WorldScreen) → result ≡ is_scroller page.now.tree screen node.0 }
{
    has_box(page, node) && is_scroll_container(page.tree(), node)
}

// Returns how far a reach extends beyond what is shown.
fn behind(reach: i64, shown: i64) -> i64
    ensures value { result ≡ pos (cap (unsigned_abs reach - unsigned_abs shown)) }
    ensures range { IsLength result }
{
    capped(reach.unsigned_abs().saturating_sub(shown.unsigned_abs())) as i64
}

// Returns the scroll range, from the size of the content and of the part that is shown.
pub(crate) fn range_between(reach: Size, shown: Size) -> Size
    ensures value { result ≡ as_size (capped (minus (seen_pair reach) (seen_pair shown))) }
    ensures range { IsRange result }
{
    Size {
        width: behind(reach.width, shown.width),
        height: behind(reach.height, shown.height),
    }
}

/// Returns the scroll range of a node that has a box (CSS Overflow 3, 2.2; CSSOM View: scrolling area): how far its content
/// overflows its padding box, 0 by 0 if it isn't a scroll container. Exact if the boxes of its document are up to date
/// (`refresh_in`) and no length of the viewport is above the largest one. Doesn't allocate.
///
/// It recurses once per level of the tree below.
pub fn boxed_range<P: Styled>(tree: &Tree<P>, boxes: &Kept, node: NodeId) -> Size
    requires { node.0 < length tree.now.nodes }
    ensures value { let at = layout_tree P.style P.kind tree.now.nodes in (view : View) → IsSized view →
        HoldsAll at view boxes.now → is_some (inputs_in_view at view node.0) ≡ true →
        result ≡ as_size (cond (is_scroll_container (at node.0)) (range_in at view node.0) (0, 0)) }
    ensures range { IsRange result }
{
    if !is_scroll_container(tree, node) {
        return NO_SIZE;
    }
    let Some(own) = boxes.box_of(node) else {
        return NO_SIZE;
    };
    let reach = reach(tree, &boxes.measures(tree), node, Some(node), NO_SIZE);
    range_between(reach, own.padding_size())
}

/// Returns the scroll range of the viewport in which a root element is shown (CSSOM View: scrolling area): how far the
/// content overflows the viewport. Exact if the boxes of the document are up to date (`refresh_in`). Doesn't allocate.
///
/// It recurses once per level of the tree below.
pub fn shown_range<P: Styled>(tree: &Tree<P>, boxes: &Kept, shown: ShownRoot) -> Size
    requires root { shown.root.0 < length tree.now.nodes }
    requires size { IsNatural shown.size }
    ensures value { let at = layout_tree P.style P.kind tree.now.nodes in (at shown.root.0).parent ≡ None → (view : View) →
        view ≡ view_with (Some shown.root.0) (Some (seen_pair shown.size)) → HoldsAll at view boxes.now →
        result ≡ as_size (range_of_view at view) }
    ensures range { IsRange result }
{
    let reach = reach(tree, &boxes.measures(tree), shown.root, None, shown.size);
    range_between(reach, shown.size)
}
