//! The geometry of a page, as chains of containers need it.

ghost use Rattle.std.specs.Prelude.{◌≡◌};
ghost use Rattle.layout_model.specs.Clips.{clips, is_scroll_container};
ghost use Rattle.page_model.specs.Documents.{nodes_of};

use crate::rects::{NO_RECT, border_rect, padding_rect, viewport_rect};
use crate::shown::Shown;
use block_layout::is_clipping;
use clip_chain::{Geometry, Scrolls};
use element_tree::{Container, NodeId};
use page_tree::PageTree;
use px_units::Rect;

// Whether an element's box clips its content, at its padding box (CSS Overflow 3, 3.1 and 3.3).
pub(crate) fn clips(page: &PageTree, node: NodeId) -> bool
    ensures { result ≡ clips (nodes_of (page.now.tree) node.0) }
{
    page.holds(node) && is_clipping(page.tree(), node)
}

// Whether an element's box, if it has one, is a scroll container (CSS Overflow 3, 3.1 and 3.3).
fn is_scroll_container(page: &PageTree, node: NodeId) -> bool
    ensures { result ≡ is_scroll_container (nodes_of (page.now.tree) node.0) }
{
    page.holds(node) && block_layout::is_scroll_container(page.tree(), node)
}

impl Geometry for Shown<'_> {
    ghost use Rattle.clip_chain.specs.Worlds.{scene_of};
    ghost use Rattle.page_geometry.specs.Ranks.{rank_of};

    ghost scene = { scene_of };

    ghost rank = { λ it. rank_of it.tree it.screen };

    fn container(&self, of: Container) -> Option<Container> {
        // Yields that chains are finite.
        self.document_count();
        match of {
            Container::Element(node) => {
                if !self.has_box(node) {
                    return None;
                }
                Some(self.holding(node))
            }
            Container::Document(document) => match self.frame_of(document) {
                Some(frame) => Some(Container::Element(frame)),
                None => None,
            },
        }
    }

    fn clip(&self, of: Container) -> Option<Rect> {
        match of {
            Container::Element(node) => {
                if self.has_box(node) && clips(self.page(), node) {
                    Some(padding_rect(self, node))
                } else {
                    None
                }
            }
            Container::Document(document) => Some(viewport_rect(self, document)),
        }
    }

    fn bounds(&self, of: Container) -> Rect {
        match of {
            Container::Element(node) => {
                if self.has_box(node) {
                    border_rect(self, node)
                } else {
                    NO_RECT
                }
            }
            Container::Document(document) => viewport_rect(self, document),
        }
    }
}

impl Scrolls for Shown<'_> {
    fn scrolls(&self, of: Container) -> bool {
        match of {
            Container::Element(node) => is_scroll_container(self.page(), node),
            Container::Document(_) => false,
        }
    }
}
