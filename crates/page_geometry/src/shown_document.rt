//! The geometry of one document of a page, borrowed for reading.

ghost use Rattle.std.specs.Prelude.{◌≡◌, ◌<◌, ◌≤◌, Some, None, IfSome, length, option_map};
ghost use Rattle.page_model.specs.Lookups.{element_at};
ghost use Rattle.page_model.specs.Documents.{nodes_of};
ghost use Rattle.page_model.specs.PageBoxes.{pair_of, view_with, view_of};
ghost use Rattle.page_model.specs.Shown.{shown_with, has_box, box_of, viewport_of};
ghost use Rattle.page_documents.specs.Frames.{AreFramed};
ghost use Rattle.element_tree.specs.Links.{number};
ghost use Rattle.block_layout.specs.Seen.{as_size};
ghost use Rattle.block_layout.specs.Trees.{layout_tree};
ghost use Rattle.kept_layout.specs.Measures.{IsSized};
ghost use Rattle.page_tree.specs.Items.{IsNatural, style_in, kind_in};
ghost use Rattle.page_boxes.specs.Fresh.{IsFreshIn, IsFreshAbove};
ghost use Rattle.page_boxes.specs.Pages.{seen_pair, seen_screen, IsScreen};
ghost use Rattle.page_geometry.specs.Documents.{IsViewOffset, AreOffsetsIn};

use crate::view::{DocumentView, view_in};
use block_layout::BoxOf;
use element_tree::{DocumentId, NodeId, Tree};
use kept_layout::Kept;
use number_map::NumberMap;
use page_boxes::{Screen, ShownRoot, box_below, has_box_below};
use page_tree::{Element, PageTree};
use px_units::{Point, Size};
use scrolling::Scrolls;
use std::marker::Model;

/// One document of a page, whose boxes and those of the document that its frame is in are up to date, with the page's scroll
/// positions and the screen of `top`. A contract sees the document's number and what boxes and places are read from. Only
/// elements of that document, and the document itself, can be read. No reading allocates.
#[derive(Drop)]
pub struct ShownDocument<'a> {
    page: &'a PageTree,
    boxes: &'a Kept,
    scrolls: &'a Scrolls,
    screen: Screen,
    document: DocumentId,
    view: DocumentView,
    offsets: Option<&'a NumberMap<Point>>,
}

impl<'a> Model for ShownDocument<'a> {
    ghost use Rattle.std.specs.Prelude.{◌≡◌, option_map, IfSome};
    ghost use Rattle.element_tree.specs.Links.{number};
    ghost use Rattle.page_geometry.specs.Documents.{ShownIn, IsViewOffset, AreOffsetsIn};

    ghost Value = { ShownIn };

    ghost use Rattle.page_model.specs.PageBoxes.{pair_of, view_of, viewport_of};
    ghost use Rattle.page_model.specs.Shown.{shown_with};
    ghost use Rattle.block_layout.specs.Seen.{as_size};
    ghost use Rattle.page_tree.specs.Items.{IsNatural};
    ghost use Rattle.page_boxes.specs.Fresh.{IsFreshIn};
    ghost use Rattle.page_boxes.specs.Pages.{seen_screen, IsScreen};

    ghost view = { λ s. record { shown = shown_with s.page.now.tree (seen_screen s.screen) s.scrolls.now; document = s.document.0 } };

    ghost invariant = { λ s. IsScreen s.screen
        × IsFreshIn s.page.now.tree (seen_screen s.screen) s.boxes.now s.document.0
        × option_map number s.view.root ≡ (view_of s.page.now.tree (seen_screen s.screen) s.document.0).root
        × s.view.size ≡ as_size (pair_of (viewport_of s.page.now.tree (seen_screen s.screen) s.document.0))
        × IsNatural s.view.size
        × IfSome s.view.offset (IsViewOffset (shown_with s.page.now.tree (seen_screen s.screen) s.scrolls.now) s.document.0)
        × IfSome s.offsets (λ map. AreOffsetsIn (shown_with s.page.now.tree (seen_screen s.screen) s.scrolls.now) s.document.0 map.now) };
}

impl<'a> ShownDocument<'a> {
    /// Borrows a document, whose boxes and those of the document that its frame is in must be up to date for this screen of
    /// `top` (`page_boxes::refresh_in`). The boxes of other documents don't matter.
    ///
    /// It climbs once from frame to frame, and no reading does it again. The scroll offset of the viewport is computed by
    /// each reading that depends on it, unless `with_offset` was called.
    pub fn new(
        page: &'a PageTree,
        boxes: &'a Kept,
        scrolls: &'a Scrolls,
        screen: Screen,
        document: DocumentId,
    ) -> ShownDocument<'a>
        requires screen { IsScreen screen }
        requires fresh { IsFreshIn page.now.tree (seen_screen screen) boxes.now document.0 }
        requires above { IsFreshAbove page.now.tree (seen_screen screen) boxes.now document.0 }
        ensures { result ≡ record { shown = shown_with page.now.tree (seen_screen screen) scrolls.now; document = document.0 } }
    {
        let view = view_in(page, boxes, screen, document);
        ShownDocument::with_view(page, boxes, scrolls, screen, document, view, None)
    }

    // The same, with a view computed before, and possibly the scroll offsets of elements.
    pub(crate) fn with_view(
        page: &'a PageTree,
        boxes: &'a Kept,
        scrolls: &'a Scrolls,
        screen: Screen,
        document: DocumentId,
        view: DocumentView,
        offsets: Option<&'a NumberMap<Point>>,
    ) -> ShownDocument<'a>
        requires screen { IsScreen screen }
        requires fresh { IsFreshIn page.now.tree (seen_screen screen) boxes.now document.0 }
        requires root { option_map number view.root ≡ (view_of page.now.tree (seen_screen screen) document.0).root }
        requires size { view.size ≡ as_size (pair_of (viewport_of (shown_with page.now.tree (seen_screen screen) scrolls.now) document.0)) }
        requires range { IsNatural view.size }
        requires offset { IfSome view.offset (IsViewOffset (shown_with page.now.tree (seen_screen screen) scrolls.now) document.0) }
        requires offsets { IfSome offsets (λ map. AreOffsetsIn (shown_with page.now.tree (seen_screen screen) scrolls.now) document.0 map.now) }
        ensures { result ≡ record { shown = shown_with page.now.tree (seen_screen screen) scrolls.now; document = document.0 } }
    {
        ShownDocument {
            page,
            boxes,
            scrolls,
            screen,
            document,
            view,
            offsets,
        }
    }

    /// Precomputes the scroll offset of the viewport, for reading many elements. Changes no result. The viewport is measured
    /// if the stored position isn't 0 and lies beyond what the root element reaches. Doesn't allocate.
    pub fn with_offset(self) -> ShownDocument<'a>
        ensures { result ≡ self.entry }
    {
        let view = DocumentView {
            offset: Some(self.view_offset()),
            ..self.view
        };
        ShownDocument::with_view(
            self.page,
            self.boxes,
            self.scrolls,
            self.screen,
            self.document,
            view,
            self.offsets,
        )
    }

    pub(crate) fn view(&self) -> DocumentView
        ensures root { option_map number result.root ≡ (view_of self.now.shown.tree self.now.shown.screen self.now.document).root }
        ensures size { result.size ≡ as_size (pair_of (viewport_of self.now.shown self.now.document)) }
        ensures range { IsNatural result.size }
        ensures offset { IfSome result.offset (IsViewOffset self.now.shown self.now.document) }
    {
        self.view
    }

    // Returns the elements and documents, and ensures what holds for those of every page.
    fn page(&self) -> &PageTree
        ensures tree { result.now.tree ≡ self.now.shown.tree }
        ensures framed { AreFramed self.now.shown.tree }
    {
        self.page.document_count();
        self.page
    }

    // Returns the elements as layout reads them.
    pub(crate) fn elements(&self) -> &Tree<Element>
        ensures nodes { nodes_of self.now.shown.tree ≡ layout_tree style_in kind_in result.now.nodes }
        ensures count { length result.now.nodes ≡ length self.now.shown.tree.elements }
        ensures depth { result.now.most_depth ≤ 256 }
    {
        self.page.tree()
    }

    // Returns the cached boxes, in a viewport of at most the largest length.
    pub(crate) fn boxes(&self) -> &Kept
        ensures fresh { IsFreshIn self.now.shown.tree self.now.shown.screen result.now self.now.document }
        ensures sized { IsSized (view_of self.now.shown.tree self.now.shown.screen self.now.document) }
    {
        self.boxes
    }

    pub(crate) fn scrolls(&self) -> &Scrolls
        ensures { result.now ≡ self.now.shown.scrolls }
    {
        self.scrolls
    }

    // Returns the scroll offsets in force of elements, `None` if they weren't precomputed.
    pub(crate) fn offsets(&self) -> Option<&NumberMap<Point>>
        ensures { IfSome result (λ map. AreOffsetsIn self.now.shown self.now.document map.now) }
    {
        self.offsets
    }

    // Returns the screen of `top`.
    pub(crate) fn screen(&self) -> Screen
        ensures value { seen_screen result ≡ self.now.shown.screen }
        ensures range { IsScreen result }
    {
        self.screen
    }

    pub(crate) fn document(&self) -> DocumentId
        ensures { result.0 ≡ self.now.document }
    {
        self.document
    }

    /// Returns the size of the document's viewport (CSSOM View, 4: `innerWidth`, `innerHeight`): for `top` that of its
    /// screen, for any other document that of the content box of its frame, 0 by 0 if that has no box.
    pub fn viewport(&self) -> Size
        ensures value { result ≡ as_size (pair_of (viewport_of self.now.shown self.now.document)) }
        ensures range { IsNatural result }
    {
        self.view.size
    }

    // Returns the scroll offset in force of the viewport, `None` if it wasn't precomputed.
    pub(crate) fn found_offset(&self) -> Option<Point>
        ensures { IfSome result (IsViewOffset self.now.shown self.now.document) }
    {
        self.view.offset
    }

    // Returns the root element that the document shows, `None` if it isn't shown.
    fn root(&self) -> Option<NodeId>
        ensures { option_map number result ≡ (view_of self.now.shown.tree self.now.shown.screen self.now.document).root }
    {
        self.view.root
    }

    // Returns the root element that the document shows, and the size of its viewport.
    pub(crate) fn shown_root(&self) -> Option<ShownRoot>
        ensures nothing { result ≡ None → (view_of self.now.shown.tree self.now.shown.screen self.now.document).root ≡ None }
        ensures shown { IfSome result (λ shown. view_of self.now.shown.tree self.now.shown.screen self.now.document ≡ view_with (Some shown.root.0) (Some (seen_pair shown.size))) }
        ensures top { IfSome result (λ shown. (element_at self.now.shown.tree shown.root.0).parent ≡ None) }
        ensures made { IfSome result (λ shown. shown.root.0 < length self.now.shown.tree.elements) }
        ensures size { IfSome result (λ shown. IsNatural shown.size) }
    {
        // Yields that root elements have no parents.
        self.page();
        match self.root() {
            Some(root) => Some(ShownRoot {
                root,
                size: self.viewport(),
            }),
            None => None,
        }
    }

    /// Whether an element of this document has a box (CSS 2.2, 9.2.4).
    pub fn has_box(&self, node: NodeId) -> bool
        requires { (element_at self.now.shown.tree node.0).document ≡ self.now.document }
        ensures { result ≡ has_box self.now.shown node.0 }
    {
        has_box_below(self.page(), self.root(), node)
    }

    pub(crate) fn box_of(&self, node: NodeId) -> Option<BoxOf>
        requires { (element_at self.now.shown.tree node.0).document ≡ self.now.document }
        ensures { result ≡ box_of self.now.shown node.0 }
    {
        box_below(self.page(), self.boxes(), self.root(), node)
    }
}
