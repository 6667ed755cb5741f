//! What a page must provide: sizes, corners and depths.

ghost use Rattle.std.specs.Prelude.{◌≡◌};
ghost use Rattle.depth_gather.specs.Entries.{as_size, as_point, IsLength};

use element_tree::NodeId;
use px_units::{BoxKind, Point, Size};

/// The current sizes, corners and depths of elements. All lengths are from 0 to 2^48, in units of 1/64 CSS pixel, or in
/// device pixels for `BoxKind::Device`.
pub trait Sizes {
    ghost use Rattle.page_model.specs.Gathering.{Sight};

    /// All of them, by element number.
    ghost sight: { Self → Sight };

    /// Returns the size of one of an element's boxes, 0 by 0 without a box.
    fn size_now(&self, node: NodeId, kind: BoxKind) -> Size
        ensures value { result ≡ as_size ((sight self.now).size node.0 kind) }
        ensures width { IsLength result.width }
        ensures height { IsLength result.height };

    /// Returns the top left corner of an element's content box relative to its padding box, zeros without a box.
    fn corner_now(&self, node: NodeId) -> Point
        ensures value { result ≡ as_point ((sight self.now).corner node.0) }
        ensures left { IsLength result.left }
        ensures top { IsLength result.top };

    /// Returns the depth of an element: the number of elements on the path from it to the root of its tree, itself included.
    fn depth_now(&self, node: NodeId) -> u32
        ensures { result ≡ (sight self.now).depth node.0 };
}
