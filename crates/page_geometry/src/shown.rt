//! The geometry of a page, borrowed for reading.

ghost use Rattle.std.specs.Prelude.{◌≡◌, ◌<◌, ◌≤◌, true, Some, length, option_map, IfSome};
ghost use Rattle.page_model.specs.Lookups.{element_at, document_at};
ghost use Rattle.page_model.specs.Documents.{nodes_of};
ghost use Rattle.page_model.specs.PageBoxes.{pair_of, view_of};
ghost use Rattle.page_model.specs.Shown.{has_box, viewport_of};
ghost use Rattle.page_model.specs.Chains.{holding};
ghost use Rattle.element_tree.specs.Links.{number};
ghost use Rattle.block_layout.specs.Seen.{as_size};
ghost use Rattle.block_layout.specs.Trees.{layout_tree};
ghost use Rattle.page_tree.specs.Items.{IsNatural, style_in, kind_in};
ghost use Rattle.container_model.specs.Seen.{seen_container};
ghost use Rattle.page_boxes.specs.Fresh.{IsFresh};
ghost use Rattle.page_boxes.specs.Pages.{seen_screen, IsScreen, IsRootAbove};
ghost use Rattle.page_geometry.specs.Documents.{IsViewOffset};
ghost use Rattle.page_geometry.specs.Found.{IsFound, IsBeginning};
ghost use Rattle.page_geometry.specs.Scenes.{IsPageTree};

use crate::documents::{FoundDocument, FoundDocuments};
use crate::origins::origin;
use crate::shown_document::ShownDocument;
use crate::view::{DocumentView, view_below};
use element_tree::{Container, DocumentId, NodeId, Tree};
use kept_layout::Kept;
use number_map::NumberMap;
use page_boxes::{Screen, boxed_offsets, shown_root};
use page_tree::{Element, PageTree};
use positioned_layout::{Holder, holder_of};
use px_units::Point;
use scrolling::Scrolls;
use std::alloc::Global;
use std::marker::Model;

/// A page whose boxes are all up to date, with its scroll positions and the screen of `top`. A contract sees what boxes,
/// places and findings are read from. No reading allocates.
#[derive(Drop)]
pub struct Shown<'a> {
    page: &'a PageTree,
    boxes: &'a Kept,
    scrolls: &'a Scrolls,
    screen: Screen,
    found: FoundDocuments,
    offsets: Option<NumberMap<Point>>,
}

impl<'a> Model for Shown<'a> {
    ghost use Rattle.std.specs.Prelude.{ℕ, IfSome};
    ghost use Rattle.page_model.specs.Shown.{Shown as ModelShown};

    ghost Value = { ModelShown };

    ghost use Rattle.page_model.specs.Shown.{shown_with};
    ghost use Rattle.page_boxes.specs.Fresh.{IsFresh};
    ghost use Rattle.page_boxes.specs.Pages.{seen_screen, IsScreen};
    ghost use Rattle.page_geometry.specs.Documents.{AreOffsetsIn};
    ghost use Rattle.page_geometry.specs.Found.{AreFound};

    ghost view = { λ s. shown_with s.page.now.tree (seen_screen s.screen) s.scrolls.now };

    ghost invariant = { λ s. IsScreen s.screen × IsFresh s.page.now.tree (seen_screen s.screen) s.boxes.now × AreFound (shown_with s.page.now.tree (seen_screen s.screen) s.scrolls.now) s.found
        × IfSome s.offsets (λ map. (document : ℕ) → AreOffsetsIn (shown_with s.page.now.tree (seen_screen s.screen) s.scrolls.now) document map) };
}

impl<'a> Shown<'a> {
    /// Borrows a page with its boxes, which must all be up to date for this screen of `top` (`page_boxes::refresh`).
    pub fn new(
        page: &'a PageTree,
        boxes: &'a Kept,
        scrolls: &'a Scrolls,
        screen: Screen,
    ) -> Shown<'a>
        requires screen { IsScreen screen }
        requires fresh { IsFresh page.now.tree (seen_screen screen) boxes.now }
        ensures { result ≡ record { tree = page.now.tree; screen = seen_screen screen; scrolls = scrolls.now } }
    {
        Shown {
            page,
            boxes,
            scrolls,
            screen,
            found: FoundDocuments::new(),
            offsets: None,
        }
    }

    /// Precomputes the root element and the viewport size of each document, so that reading the sizes of many elements
    /// doesn't climb from frame to frame for each. Changes no result. Doesn't allocate.
    pub fn with_views(self) -> Shown<'a>
        ensures { result ≡ self.entry }
    {
        let mut shown = self;
        let count = shown.document_count();
        for document in 0..count {
            shown.look_at(DocumentId(document));
        }
        shown
    }

    /// Precomputes the scroll offsets of elements, and of each document its root element and the size, the scroll offset and
    /// the origin of its viewport, for reading many elements. Changes no result. This measures each viewport whose stored
    /// position isn't 0 and lies beyond what its root element reaches, and each scroll container whose stored position lies
    /// beyond what its last child reaches, whatever is read later. If an allocation fails, each reading computes the scroll
    /// offsets of elements itself.
    pub fn with_documents(self, alloc: Global) -> Shown<'a>
        ensures { result ≡ self.entry }
    {
        let mut shown = self.with_scrollers(alloc).with_offsets();
        let count = shown.document_count();
        for document in 0..count {
            shown.place(DocumentId(document));
        }
        shown
    }

    // Precomputes the scroll offsets of elements, unless an allocation fails.
    fn with_scrollers(self, alloc: Global) -> Shown<'a>
        ensures { result ≡ self.entry }
    {
        let mut shown = self;
        let offsets = boxed_offsets(alloc, shown.elements(), shown.boxes, shown.scrolls);
        shown.offsets = offsets.ok();
        shown
    }

    // Precomputes the root element of each document, and the size and scroll offset of its viewport.
    fn with_offsets(self) -> Shown<'a>
        ensures { result ≡ self.entry }
    {
        let mut shown = self;
        let count = shown.document_count();
        for document in 0..count {
            shown.measure(DocumentId(document));
        }
        shown
    }

    // Stores what was precomputed of a document.
    fn keep(&mut self, document: DocumentId, found: FoundDocument)
        requires small { document.0 < 64 }
        requires found { IsFound self.old document.0 found }
        ensures { self.new ≡ self.old }
    {
        self.found.put(document, found);
    }

    // Precomputes the root element and the viewport size of a document.
    fn look_at(&mut self, document: DocumentId)
        requires { document.0 < 64 }
        ensures { self.new ≡ self.old }
    {
        let view = self.view_of(document);
        self.keep(document, FoundDocument { view, origin: None });
    }

    // Also precomputes the scroll offset of its viewport.
    fn measure(&mut self, document: DocumentId)
        requires { document.0 < 64 }
        ensures { self.new ≡ self.old }
    {
        let view = self.in_document(document).with_offset().view();
        self.keep(document, FoundDocument { view, origin: None });
    }

    // Precomputes the origin of a document's viewport.
    fn place(&mut self, document: DocumentId)
        requires { document.0 < 64 }
        ensures { self.new ≡ self.old }
    {
        let view = self.view_of(document);
        let origin = Some(origin(self, document));
        self.keep(document, FoundDocument { view, origin });
    }

    // Returns what was precomputed of a document, `None` if nothing was.
    pub(crate) fn found(&self, document: DocumentId) -> Option<FoundDocument>
        ensures { IfSome result (IsFound self.now document.0) }
    {
        if document.0 < 64 {
            self.found.of(document)
        } else {
            None
        }
    }

    // Returns the origin of a document's viewport, `None` if it wasn't precomputed.
    pub(crate) fn found_origin(&self, document: DocumentId) -> Option<Point>
        ensures { IfSome result (IsBeginning self.now document.0) }
    {
        match self.found(document) {
            Some(found) => found.origin,
            None => None,
        }
    }

    /// Returns the elements and documents.
    pub fn page(&self) -> &PageTree
        ensures { result.now.tree ≡ self.now.tree }
    {
        self.page
    }

    // Returns the elements as layout reads them.
    pub(crate) fn elements(&self) -> &Tree<Element>
        ensures nodes { nodes_of self.now.tree ≡ layout_tree style_in kind_in result.now.nodes }
        ensures count { length result.now.nodes ≡ length self.now.tree.elements }
        ensures depth { result.now.most_depth ≤ 256 }
    {
        self.page.tree()
    }

    /// Returns the number of documents. Also ensures what holds for the elements and documents of every page (`page`).
    pub fn document_count(&self) -> u32
        ensures value { result ≡ length self.now.tree.documents }
        ensures page { IsPageTree self.now.tree }
    {
        self.page.holds(NodeId(0));
        self.page.document_count()
    }

    /// Returns the frame that a document is in.
    pub fn frame_of(&self, document: DocumentId) -> Option<NodeId>
        ensures { option_map number result ≡ (document_at self.now.tree document.0).frame }
    {
        self.page.frame_of(document)
    }

    /// Returns the node document of an element.
    pub fn document_of(&self, node: NodeId) -> DocumentId
        ensures { result.0 ≡ (element_at self.now.tree node.0).document }
    {
        self.page.document_of(node)
    }

    // Returns the root element that a document shows, climbing from frame to frame unless it was precomputed.
    fn root_of(&self, document: DocumentId) -> Option<NodeId>
        ensures { option_map number result ≡ (view_of self.now.tree self.now.screen document.0).root }
    {
        match self.found(document) {
            Some(found) => found.view.root,
            None => shown_root(self.page, document),
        }
    }

    // Returns the root element that is shown around a document, by the document that its frame is in.
    fn root_above(&self, document: DocumentId) -> Option<NodeId>
        ensures { IsRootAbove self.now.tree self.now.screen document.0 (option_map number result) }
    {
        match self.frame_of(document) {
            Some(frame) => self.root_of(self.document_of(frame)),
            None => None,
        }
    }

    // Returns the view of a document, by what is shown around it unless it was precomputed.
    fn view_of(&self, document: DocumentId) -> DocumentView
        ensures root { option_map number result.root ≡ (view_of self.now.tree self.now.screen document.0).root }
        ensures size { result.size ≡ as_size (pair_of (viewport_of self.now document.0)) }
        ensures range { IsNatural result.size }
        ensures offset { IfSome result.offset (IsViewOffset self.now document.0) }
    {
        match self.found(document) {
            Some(found) => found.view,
            None => view_below(
                self.page,
                self.boxes,
                self.screen,
                self.root_above(document),
                document,
            ),
        }
    }

    // Returns the geometry of one document.
    pub(crate) fn in_document(&self, document: DocumentId) -> ShownDocument<'_>
        ensures { result ≡ record { shown = self.now; document = document.0 } }
    {
        let view = self.view_of(document);
        ShownDocument::with_view(
            self.page,
            self.boxes,
            self.scrolls,
            self.screen,
            document,
            view,
            self.offsets.as_ref(),
        )
    }

    // Returns the geometry of the node document of an element.
    pub(crate) fn in_document_of(&self, node: NodeId) -> ShownDocument<'_>
        ensures { result ≡ record { shown = self.now; document = (element_at self.now.tree node.0).document } }
    {
        self.in_document(self.document_of(node))
    }

    /// Returns the holder of an element's box: another element, or the viewport of its document if the page or the screen
    /// holds it (CSS 2.2, 10.1: containing block).
    pub fn holding(&self, node: NodeId) -> Container
        requires { has_box self.now node.0 ≡ true }
        ensures { Some (seen_container result) ≡ holding self.now.tree node.0 }
    {
        // Yields that an element with a box is in its document's tree.
        self.document_count();
        match holder_of(self.elements(), node) {
            Holder::Node(element) => Container::Element(element),
            Holder::Page | Holder::Screen => Container::Document(self.document_of(node)),
        }
    }
}
