//! Readings of an element's box: sizes, places and rectangles, and what the command `read` shows.

ghost use Rattle.std.specs.Prelude.{◌≡◌, List, ◌+ℤ◌, ◌-ℤ◌};
ghost use Rattle.px_units.specs.Rects.{InReach, RectInReach};
ghost use Rattle.px_units.specs.declared.BoxKind.TheVariants.{Border};
ghost use Rattle.script_model.specs.TraceLines.{ReadLine};
ghost use Rattle.page_model.specs.World.{Name};
ghost use Rattle.page_model.specs.Lookups.{element_at};
ghost use Rattle.page_model.specs.Documents.{document_of_container};
ghost use Rattle.page_model.specs.Chains.{padding_box_at, content_corner_at};
ghost use Rattle.page_model.specs.PageBoxes.{pair_of};
ghost use Rattle.page_model.specs.Readings.{point_at, rect_of, reading_of};
ghost use Rattle.page_model.specs.Shown.{box_of, size_of, corner_of, place_of};
ghost use Rattle.block_layout.specs.Seen.{as_size};
ghost use Rattle.container_model.specs.Seen.{seen_container};
ghost use Rattle.page_model.specs.Names.{container_text};
ghost use Rattle.page_boxes.specs.Ranges.{IsOffset, IsSpan, IsPlace, IsEdge, AreEdges};
ghost use Rattle.page_geometry.specs.Ranges.{IsCorner};

use crate::origins::NOWHERE;
use crate::rects::NO_RECT;
use crate::shown_document::ShownDocument;
use element_tree::{Container, NodeId};
use page_boxes::{place_in, size_on};
use px_units::{BoxKind, Point, Rect, Size};

/// What the command `read` shows of an element or a document.
#[derive(Clone, Copy, Debug, PartialEq, Eq)]
pub struct Reading {
    /// An element's border box in the viewport of its document, or the viewport itself.
    pub rect: Rect,
    /// The scroll offset in force.
    pub scroll: Point,
}

pub(crate) const NO_SIZE: Size = Size {
    width: 0,
    height: 0,
};

// Returns the point at an offset from a place.
fn beside(place: Point, by: Point) -> Point
    requires left { IsPlace place.left }
    requires top { IsPlace place.top }
    requires right { IsSpan by.left }
    requires down { IsSpan by.top }
    ensures left { result.left ≡ place.left +ℤ by.left }
    ensures top { result.top ≡ place.top +ℤ by.top }
    ensures left_corner { IsCorner result.left }
    ensures top_corner { IsCorner result.top }
{
    Point {
        left: place.left + by.left,
        top: place.top + by.top,
    }
}

// Returns the rectangle with this corner and size.
fn rect_at(corner: Point, size: Size) -> Rect
    requires left { IsCorner corner.left }
    requires top { IsCorner corner.top }
    requires right { IsEdge (corner.left +ℤ size.width) }
    requires bottom { IsEdge (corner.top +ℤ size.height) }
    requires width { IsSpan size.width }
    requires height { IsSpan size.height }
    ensures value { result ≡ record {
      left = corner.left;
      top = corner.top;
      right = corner.left +ℤ size.width;
      bottom = corner.top +ℤ size.height;
    } }
    ensures edges { AreEdges result }
    ensures width { IsSpan (result.right -ℤ result.left) }
    ensures height { IsSpan (result.bottom -ℤ result.top) }
{
    Rect {
        left: corner.left,
        top: corner.top,
        right: corner.left + size.width,
        bottom: corner.top + size.height,
    }
}

impl ShownDocument<'_> {
    /// Returns the size of an element's content box or border box in units of 1/64 CSS pixel (CSS 2.2, 8.1), or of its
    /// content box in device pixels of the screen of `top`, rounded to the nearest pixel, halves up; 0 by 0 without a box.
    pub fn size_of(&self, node: NodeId, kind: BoxKind) -> Size
        requires { (element_at self.now.shown.tree node.0).document ≡ self.now.document }
        ensures value { result ≡ as_size (pair_of (size_of self.now.shown node.0 kind)) }
        ensures width { IsSpan result.width }
        ensures height { IsSpan result.height }
    {
        match self.box_of(node) {
            Some(own) => size_on(self.screen(), &own, kind),
            None => NO_SIZE,
        }
    }

    /// Returns the top left corner of an element's content box relative to its padding box, which is its left and top
    /// paddings (Resize Observer, 3.2: `contentRect`), zeros without a box.
    pub fn corner_of(&self, node: NodeId) -> Point
        requires { (element_at self.now.shown.tree node.0).document ≡ self.now.document }
        ensures value { result ≡ point_at (corner_of self.now.shown node.0) }
        ensures left { IsSpan result.left }
        ensures top { IsSpan result.top }
    {
        match self.box_of(node) {
            Some(own) => own.content_corner(),
            None => NOWHERE,
        }
    }

    /// Returns the place of an element's border box in the viewport of its document (CSSOM View, 6: `getBoundingClientRect`),
    /// zeros without a box.
    pub fn place_of(&self, node: NodeId) -> Point
        requires { (element_at self.now.shown.tree node.0).document ≡ self.now.document }
        ensures value { result ≡ place_of self.now.shown node.0 }
        ensures left { IsPlace result.left }
        ensures top { IsPlace result.top }
    {
        if !self.has_box(node) {
            return NOWHERE;
        }
        let view = self.view_offset();
        place_in(
            self.elements(),
            self.boxes(),
            self.scrolls(),
            self.offsets(),
            view,
            node,
        )
    }

    /// Returns the border box of an element in the viewport of its document, all zeros without a box.
    pub fn border_rect(&self, node: NodeId) -> Rect
        requires { (element_at self.now.shown.tree node.0).document ≡ self.now.document }
        ensures value { result ≡ rect_of (place_of self.now.shown node.0) (size_of self.now.shown node.0 Border) }
        ensures edges { AreEdges result }
        ensures width { IsSpan (result.right -ℤ result.left) }
        ensures height { IsSpan (result.bottom -ℤ result.top) }
    {
        rect_at(self.place_of(node), self.size_of(node, BoxKind::Border))
    }

    /// Returns the padding box of an element in the viewport of its document (CSS 2.2, 8.1), all zeros without a box.
    pub fn padding_rect(&self, node: NodeId) -> Rect
        requires { (element_at self.now.shown.tree node.0).document ≡ self.now.document }
        ensures value { result ≡ padding_box_at (place_of self.now.shown node.0) (box_of self.now.shown node.0) }
        ensures edges { AreEdges result }
        ensures width { IsSpan (result.right -ℤ result.left) }
        ensures height { IsSpan (result.bottom -ℤ result.top) }
    {
        let Some(own) = self.box_of(node) else {
            return NO_RECT;
        };
        let place = self.place_of(node);
        rect_at(beside(place, own.padding_corner()), own.padding_size())
    }

    /// Returns the top left corner of the content box of an element in the viewport of its document (CSS 2.2, 8.1), which for
    /// a frame is the origin of the viewport of the document in it; zeros without a box.
    pub fn content_origin(&self, node: NodeId) -> Point
        requires { (element_at self.now.shown.tree node.0).document ≡ self.now.document }
        ensures value { result ≡ content_corner_at (place_of self.now.shown node.0) (box_of self.now.shown node.0) }
        ensures left { IsCorner result.left }
        ensures top { IsCorner result.top }
    {
        let place = self.place_of(node);
        match self.box_of(node) {
            Some(own) => beside(place, own.inner()),
            None => place,
        }
    }

    /// Returns what the command `read` shows: an element's border box in the viewport of its document, all zeros without a
    /// box, or the viewport of the document; and the scroll offset in force.
    pub fn read(&self, container: Container) -> Reading
        requires { document_of_container self.now.shown.tree (seen_container container) ≡ self.now.document }
        ensures value { (names : List Name) → reading_of names self.now.shown.tree self.now.shown.screen self.now.shown.scrolls (seen_container container)
            ≡ ReadLine (container_text names (seen_container container)) result.rect result.scroll }
        ensures edges { RectInReach result.rect }
        ensures width { InReach (result.rect.right -ℤ result.rect.left) }
        ensures height { InReach (result.rect.bottom -ℤ result.rect.top) }
        ensures scroll { IsOffset result.scroll }
    {
        match container {
            Container::Element(node) => Reading {
                rect: self.border_rect(node),
                scroll: self.offset_of(Container::Element(node)),
            },
            Container::Document(document) => Reading {
                rect: rect_at(NOWHERE, self.viewport()),
                scroll: self.offset_of(Container::Document(document)),
            },
        }
    }
}
