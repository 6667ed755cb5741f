//! Readings of a page, each delegated to the document that it concerns.

ghost use Rattle.std.specs.Prelude.{◌≡◌, List, ◌-ℤ◌};
ghost use Rattle.px_units.specs.Rects.{InReach, RectInReach};
ghost use Rattle.px_units.specs.declared.BoxKind.TheVariants.{Border};
ghost use Rattle.script_model.specs.TraceLines.{ReadLine};
ghost use Rattle.page_model.specs.World.{Name};
ghost use Rattle.page_model.specs.Chains.{padding_box_at, content_corner_at};
ghost use Rattle.page_model.specs.PageBoxes.{pair_of};
ghost use Rattle.page_model.specs.Readings.{point_at, rect_of, reading_of};
ghost use Rattle.page_model.specs.Shown.{has_box, box_of, size_of, corner_of, viewport_of, place_of, scroll_range, scroll_offset};
ghost use Rattle.scrolling.specs.Ranges.{IsRange};
ghost use Rattle.block_layout.specs.Seen.{as_size, as_point};
ghost use Rattle.page_tree.specs.Items.{IsNatural};
ghost use Rattle.container_model.specs.Seen.{seen_container};
ghost use Rattle.page_model.specs.Names.{container_text};
ghost use Rattle.page_boxes.specs.Ranges.{IsOffset, IsSpan, IsPlace, AreEdges};
ghost use Rattle.page_geometry.specs.Ranges.{IsCorner};

use crate::meant::document_of_container;
use crate::readings::Reading;
use crate::shown::Shown;
use element_tree::{Container, DocumentId, NodeId};
use px_units::{BoxKind, Point, Rect, Size};

impl Shown<'_> {
    /// Whether an element has a box (CSS 2.2, 9.2.4).
    pub fn has_box(&self, node: NodeId) -> bool
        ensures { result ≡ has_box self.now node.0 }
    {
        self.in_document_of(node).has_box(node)
    }

    /// Returns the size of a document's viewport (CSSOM View, 4: `innerWidth`, `innerHeight`): for `top` that of its screen,
    /// for any other document that of the content box of its frame, 0 by 0 if that has no box.
    pub fn viewport_of(&self, document: DocumentId) -> Size
        ensures value { result ≡ as_size (pair_of (viewport_of self.now document.0)) }
        ensures range { IsNatural result }
    {
        self.in_document(document).viewport()
    }

    /// Returns the size of an element's content box or border box in units of 1/64 CSS pixel (CSS 2.2, 8.1), or of its
    /// content box in device pixels of the screen of `top`, rounded to the nearest pixel, halves up; 0 by 0 without a box.
    pub fn size_of(&self, node: NodeId, kind: BoxKind) -> Size
        ensures value { result ≡ as_size (pair_of (size_of self.now node.0 kind)) }
        ensures width { IsSpan result.width }
        ensures height { IsSpan result.height }
    {
        self.in_document_of(node).size_of(node, kind)
    }

    /// Returns the top left corner of an element's content box relative to its padding box, which is its left and top
    /// paddings (Resize Observer, 3.2: `contentRect`), zeros without a box.
    pub fn corner_of(&self, node: NodeId) -> Point
        ensures value { result ≡ point_at (corner_of self.now node.0) }
        ensures left { IsSpan result.left }
        ensures top { IsSpan result.top }
    {
        self.in_document_of(node).corner_of(node)
    }

    /// Returns the place of an element's border box in the viewport of its document (CSSOM View, 6: `getBoundingClientRect`),
    /// zeros without a box.
    pub fn place_of(&self, node: NodeId) -> Point
        ensures value { result ≡ place_of self.now node.0 }
        ensures left { IsPlace result.left }
        ensures top { IsPlace result.top }
    {
        self.in_document_of(node).place_of(node)
    }

    /// Returns the border box of an element in the viewport of its document, all zeros without a box.
    pub fn border_rect(&self, node: NodeId) -> Rect
        ensures value { result ≡ rect_of (place_of self.now node.0) (size_of self.now node.0 Border) }
        ensures edges { AreEdges result }
        ensures width { IsSpan (result.right -ℤ result.left) }
        ensures height { IsSpan (result.bottom -ℤ result.top) }
    {
        self.in_document_of(node).border_rect(node)
    }

    /// Returns the padding box of an element in the viewport of its document (CSS 2.2, 8.1), all zeros without a box.
    pub fn padding_rect(&self, node: NodeId) -> Rect
        ensures value { result ≡ padding_box_at (place_of self.now node.0) (box_of self.now node.0) }
        ensures edges { AreEdges result }
        ensures width { IsSpan (result.right -ℤ result.left) }
        ensures height { IsSpan (result.bottom -ℤ result.top) }
    {
        self.in_document_of(node).padding_rect(node)
    }

    /// Returns the top left corner of the content box of an element in the viewport of its document (CSS 2.2, 8.1), which for
    /// a frame is the origin of the viewport of the document in it; zeros without a box.
    pub fn content_origin(&self, node: NodeId) -> Point
        ensures value { result ≡ content_corner_at (place_of self.now node.0) (box_of self.now node.0) }
        ensures left { IsCorner result.left }
        ensures top { IsCorner result.top }
    {
        self.in_document_of(node).content_origin(node)
    }

    /// Returns the scroll range of an element or of a document's viewport (CSS Overflow 3, 2.2; CSSOM View: scrolling area):
    /// how far its content overflows its padding box, or the viewport. It is 0 by 0 for an element that isn't a scroll
    /// container with a box, and for an element or document that doesn't exist.
    ///
    /// It recurses once per level of the tree below.
    pub fn range_of(&self, target: Container) -> Size
        ensures value { result ≡ as_size (pair_of (scroll_range self.now (seen_container target))) }
        ensures range { IsRange result }
    {
        self.in_document(document_of_container(self.page(), target))
            .range_of(target)
    }

    /// Returns the scroll offset in force of an element or of a document's viewport (CSSOM View, 4 to 6: `scrollTop`,
    /// `scrollY`): on each axis the lesser of the stored position and the scroll range.
    pub fn offset_of(&self, target: Container) -> Point
        ensures value { result ≡ as_point (pair_of (scroll_offset self.now (seen_container target))) }
        ensures range { IsOffset result }
    {
        self.in_document(document_of_container(self.page(), target))
            .offset_of(target)
    }

    /// Returns what the command `read` shows: an element's border box in the viewport of its document, all zeros without a
    /// box, or the viewport of the document; and the scroll offset in force.
    pub fn read(&self, container: Container) -> Reading
        ensures value { (names : List Name) → reading_of names self.now.tree self.now.screen self.now.scrolls (seen_container container)
            ≡ ReadLine (container_text names (seen_container container)) result.rect result.scroll }
        ensures edges { RectInReach result.rect }
        ensures width { InReach (result.rect.right -ℤ result.rect.left) }
        ensures height { InReach (result.rect.bottom -ℤ result.rect.top) }
        ensures scroll { IsOffset result.scroll }
    {
        self.in_document(document_of_container(self.page(), container))
            .read(container)
    }
}
