//! The sizes of a page, for gathering resize observations.

use crate::shown::Shown;
use depth_gather::Sizes;
use element_tree::NodeId;
use px_units::{BoxKind, Point, Size};

impl Sizes for Shown<'_> {
    ghost use Rattle.page_model.specs.Gathering.{sight_in};

    ghost sight = { λ it. sight_in it.tree it.screen };

    fn size_now(&self, node: NodeId, kind: BoxKind) -> Size {
        self.size_of(node, kind)
    }

    fn corner_now(&self, node: NodeId) -> Point {
        self.corner_of(node)
    }

    fn depth_now(&self, node: NodeId) -> u32 {
        let page = self.page();
        if page.holds(node) {
            return page.depth(node);
        }
        1
    }
}
