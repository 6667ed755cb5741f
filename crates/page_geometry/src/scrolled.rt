//! Scroll ranges and scroll offsets of elements and viewports (CSS Overflow 3, 2.2; CSSOM View, 4 to 6).

ghost use Rattle.std.specs.Prelude.{◌≡◌};
ghost use Rattle.page_model.specs.World.{InElement, InDocument};
ghost use Rattle.page_model.specs.Lookups.{element_at};
ghost use Rattle.page_model.specs.PageBoxes.{pair_of};
ghost use Rattle.page_model.specs.Documents.{document_of_container};
ghost use Rattle.page_model.specs.Shown.{scroll_range, scroll_offset};
ghost use Rattle.container_model.specs.Seen.{seen_container};
ghost use Rattle.scrolling.specs.Ranges.{IsRange};
ghost use Rattle.block_layout.specs.Seen.{as_size, as_point};
ghost use Rattle.page_boxes.specs.Ranges.{IsOffset};

use crate::origins::NOWHERE;
use crate::readings::NO_SIZE;
use crate::shown_document::ShownDocument;
use element_tree::{Container, NodeId};
use page_boxes::{boxed_offset, boxed_range, is_at_start, shown_offset, shown_range};
use px_units::{Point, Size};

impl ShownDocument<'_> {
    fn element_range(&self, node: NodeId) -> Size
        requires { (element_at self.now.shown.tree node.0).document ≡ self.now.document }
        ensures value { result ≡ as_size (pair_of (scroll_range self.now.shown (InElement node.0))) }
        ensures range { IsRange result }
    {
        if self.has_box(node) {
            boxed_range(self.elements(), self.boxes(), node)
        } else {
            NO_SIZE
        }
    }

    // Returns the scroll range of the document's viewport.
    fn view_range(&self) -> Size
        ensures value { result ≡ as_size (pair_of (scroll_range self.now.shown (InDocument self.now.document))) }
        ensures range { IsRange result }
    {
        match self.shown_root() {
            Some(shown) => shown_range(self.elements(), self.boxes(), shown),
            None => NO_SIZE,
        }
    }

    /// Returns the scroll range of an element or of the document's viewport (CSS Overflow 3, 2.2; CSSOM View: scrolling
    /// area): how far its content overflows its padding box, or the viewport. It is 0 by 0 for an element that isn't a scroll
    /// container with a box, and for an element or document that doesn't exist.
    ///
    /// It recurses once per level of the tree below.
    pub fn range_of(&self, target: Container) -> Size
        requires { document_of_container self.now.shown.tree (seen_container target) ≡ self.now.document }
        ensures value { result ≡ as_size (pair_of (scroll_range self.now.shown (seen_container target))) }
        ensures range { IsRange result }
    {
        match target {
            Container::Element(node) => self.element_range(node),
            Container::Document(_) => self.view_range(),
        }
    }

    // Returns the scroll offset in force of an element.
    fn element_offset(&self, node: NodeId) -> Point
        requires { (element_at self.now.shown.tree node.0).document ≡ self.now.document }
        ensures value { result ≡ as_point (pair_of (scroll_offset self.now.shown (InElement node.0))) }
        ensures range { IsOffset result }
    {
        if self.has_box(node) {
            boxed_offset(self.elements(), self.boxes(), self.scrolls(), node)
        } else {
            NOWHERE
        }
    }

    // Computes the scroll offset in force of the document's viewport.
    fn measured_offset(&self) -> Point
        ensures value { result ≡ as_point (pair_of (scroll_offset self.now.shown (InDocument self.now.document))) }
        ensures range { IsOffset result }
    {
        let target = Container::Document(self.document());
        if is_at_start(self.scrolls(), target) {
            return NOWHERE;
        }
        match self.shown_root() {
            Some(shown) => {
                shown_offset(self.elements(), self.boxes(), self.scrolls(), target, shown)
            }
            None => NOWHERE,
        }
    }

    // The scroll offset in force of the document's viewport.
    pub(crate) fn view_offset(&self) -> Point
        ensures value { result ≡ as_point (pair_of (scroll_offset self.now.shown (InDocument self.now.document))) }
        ensures range { IsOffset result }
    {
        match self.found_offset() {
            Some(offset) => offset,
            None => self.measured_offset(),
        }
    }

    /// Returns the scroll offset in force of an element or of the document's viewport (CSSOM View, 4 to 6: `scrollTop`,
    /// `scrollY`): on each axis the lesser of the stored position and the scroll range.
    pub fn offset_of(&self, target: Container) -> Point
        requires { document_of_container self.now.shown.tree (seen_container target) ≡ self.now.document }
        ensures value { result ≡ as_point (pair_of (scroll_offset self.now.shown (seen_container target))) }
        ensures range { IsOffset result }
    {
        match target {
            Container::Element(node) => self.element_offset(node),
            Container::Document(_) => self.view_offset(),
        }
    }
}
