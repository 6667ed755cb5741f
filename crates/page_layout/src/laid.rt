//! The elements and documents of a page with their cached boxes.

ghost use Rattle.std.specs.Prelude.{◌≡◌, ◌+◌, ◌<◌, ◌++◌, ◌∷◌, ◌||◌, [], ℕ, true, false, length, option_map, unsigned_abs, Some, None, IfOk, IfErr, OnOk, OnErr};
ghost use Rattle.std.specs.Option.{ForSome};
ghost use Rattle.style_values.specs.Ranges.{IsAllowed};
ghost use Rattle.style_values.specs.Seen.{seen_axis, seen_declaration};
ghost use Rattle.element_tree.specs.Links.{number};
ghost use Rattle.page_model.specs.World.{Screen as WorldScreen};
ghost use Rattle.page_model.specs.Outcome.{opening_world};
ghost use Rattle.page_model.specs.Documents.{nodes_of, removed};
ghost use Rattle.page_model.specs.Steps.{Did, Threw};
ghost use Rattle.page_model.specs.Edits.{with_element, with_frame, with_declaration};
ghost use Rattle.page_model.specs.Commands.{placing, growing, loading};
ghost use Rattle.block_layout.specs.Seen.{seen_kind};
ghost use Rattle.page_tree.specs.Items.{IsKind, IsNatural};
ghost use Rattle.page_tree.specs.Faults.{refusal, element_room, frame_room, IsMakeFault, IsFrameFault};
ghost use Rattle.container_model.specs.Seen.{seen_container};
ghost use Rattle.page_tree.specs.Steps.{IsContainerIn};
ghost use Rattle.page_boxes.specs.Around.{rests_on, LeavesOthers};
ghost use Rattle.page_boxes.specs.Fresh.{IsFresh, IsFreshIn, IsFreshAbove, IsFreshFor};
ghost use Rattle.page_boxes.specs.Kept.{AreKept, FillsOnly, LeavesUnboxed, IsExact, is_due, due_count};
ghost use Rattle.page_boxes.specs.Pages.{seen_screen};
ghost use Rattle.page_layout.specs.Marks.{element_of, is_over, MarksOnly, MarksNone};
ghost use Rattle.page_layout.specs.Views.{IsUpToDate};

use crate::marks::{element_of, mark, parent_of};
use block_layout::ItemKind;
use element_tree::{Container, DocumentId, NodeId};
use kept_layout::Kept;
use page_boxes::{Screen, refresh, refresh_for, refresh_in, undue_boxes_are_exact};
use page_tree::{MakeFault, PageTree, PlaceFault};
use px_units::{Px, Size};
use std::alloc::{AllocError, Global};
use std::marker::Model;
use std::sync::ledger::Ledger;
use step_count::Steps;
use style_values::{Axis, Declaration};
use text_io::{LimitKind, Name, ThrowKind, Version};

/// The elements and documents of a page with their cached boxes. A contract sees a page's elements, and the slot of each
/// (`specs/Views.antt`).
///
/// Each call that changes the tree or a style marks what it changed, so that the cache is always sound for the page;
/// `refresh` recomputes what is due, and notes the screen; until the page changes, a refresh for that screen looks at no box.
#[derive(Drop)]
pub struct LaidTree {
    page: PageTree,
    boxes: Kept,
    // The screen for which all boxes are up to date, if that is known.
    current: Option<Screen>,
}

impl Model for LaidTree {
    ghost use Rattle.page_layout.specs.Views.{LaidElements, seen_laid, AreNoted};

    ghost Value = { LaidElements };

    ghost view = { λ l. seen_laid l.page l.boxes };

    ghost invariant = { λ l. AreNoted l.page.tree l.current l.boxes };
}

impl LaidTree {
    /// Creates a page for scripts of this version, without elements and with the Active document `top`. Capacity for all
    /// documents is reserved here.
    ///
    /// # Errors
    ///
    /// If an allocation fails.
    pub fn new(alloc: Global, version: Version) -> Result<LaidTree, AllocError>
        ensures version { IfOk result (λ laid. laid.elements.version ≡ version) }
        ensures tree { IfOk result (λ laid. laid.elements.tree ≡ (opening_world version).tree) }
        ensures names { IfOk result (λ laid. laid.elements.names ≡ []) }
        ensures kept { IfOk result (λ laid. laid.kept ≡ []) }
    {
        let page = PageTree::new(alloc, version)?;
        Ok(LaidTree {
            page,
            boxes: Kept::new(alloc),
            current: None,
        })
    }

    // Tells whether all boxes are known to be up to date for this screen of `top`.
    fn is_up_to_date(&self, screen: Screen) -> bool
        ensures { result ≡ true → IsUpToDate self.now.elements.tree (seen_screen screen) self.now.kept }
    {
        self.current == Some(screen)
    }

    /// Returns the elements and documents.
    pub fn page(&self) -> &PageTree
        ensures value { result.now ≡ record self.now.elements { ready = result.now.ready } }
        ensures tree { result.now.tree ≡ self.now.elements.tree }
        ensures names { result.now.names ≡ self.now.elements.names }
    {
        &self.page
    }

    /// Returns the cached boxes. The stored box of an element that has a box and isn't due is its current box, whatever
    /// screen `top` is shown on; so if none is due, all boxes are up to date.
    pub fn boxes(&self) -> &Kept
        ensures value { result.now ≡ self.now.kept }
        ensures kept { AreKept self.now.elements.tree self.now.kept }
        ensures exact { (screen : WorldScreen) → IsExact self.now.elements.tree screen self.now.kept }
        ensures fresh { (screen : WorldScreen) → ((n : ℕ) → is_due self.now.elements.tree screen self.now.kept n ≡ false) →
            IsFresh self.now.elements.tree screen self.now.kept }
    {
        undue_boxes_are_exact(&self.boxes, &self.page);
        &self.boxes
    }

    /// Reserves capacity for one element and its box, and returns the number that the next `make` or `make_frame` gives it.
    ///
    /// That call won't return `Memory`. `Limit` exactly when the page is full; otherwise `Memory` if an allocation fails.
    /// Nothing but capacity changes.
    pub fn reserve(&mut self) -> Result<NodeId, MakeFault>
        ensures node { IfOk result (λ node. node.0 ≡ length self.old.elements.tree.elements) }
        ensures roomy { OnOk result (element_room self.old.elements ≡ Did tt) }
        ensures ready { OnOk result (self.new.elements.ready ≡ true) }
        ensures kept { self.old.elements.ready ≡ true → self.new.elements.ready ≡ true }
        ensures same { self.new.elements ≡ record self.old.elements { ready = self.new.elements.ready } }
        ensures refused { IfErr result (IsMakeFault self.old.elements) }
        ensures marks { MarksNone self.old.kept self.new.kept }
    {
        self.current = None;
        let node = self.page.reserve()?;
        let Ok(()) = self.boxes.add(node) else {
            return Err(MakeFault::Memory);
        };
        Ok(node)
    }

    /// Creates a detached element with this name, kind and node document, and returns its number. It has no style set.
    ///
    /// `Limit` exactly when the page is full; otherwise `Memory` if an allocation fails, but never after `reserve`. Nothing
    /// but capacity is changed then.
    pub fn make(
        &mut self,
        document: DocumentId,
        name: Name,
        kind: ItemKind,
    ) -> Result<NodeId, MakeFault>
        requires { IsKind kind }
        ensures node { IfOk result (λ node. node.0 ≡ length self.old.elements.tree.elements) }
        ensures roomy { OnOk result (element_room self.old.elements ≡ Did tt) }
        ensures made { OnOk result (self.new.elements ≡ record self.old.elements {
          tree = with_element (seen_kind kind) document.0 None (self.old.elements.tree);
          names = self.old.elements.names ++ name ∷ [];
          ready = self.new.elements.ready;
        }) }
        ensures count { OnOk result (length self.new.elements.tree.elements ≡ length self.old.elements.tree.elements + 1) }
        ensures documents { OnOk result (length self.new.elements.tree.documents ≡ length self.old.elements.tree.documents) }
        ensures kept { OnErr result (self.old.elements.ready ≡ true → self.new.elements.ready ≡ true) }
        ensures same { OnErr result (self.new.elements ≡ record self.old.elements { ready = self.new.elements.ready }) }
        ensures refused { IfErr result (IsMakeFault self.old.elements) }
        ensures marks { MarksNone self.old.kept self.new.kept }
    {
        let _node = self.reserve()?;
        self.current = None;
        self.page.make(document, name, kind)
    }

    /// Creates a detached frame with this name and node document, and the Fresh document in it, which has no root element
    /// (HTML, 4.8.5 and 7.3), and returns both ids. The frame has no style set.
    ///
    /// `Limit(Nodes)` exactly when the page is full, then `Limit(Documents)` exactly when there are 64 documents; otherwise
    /// `Memory` if an allocation fails, but never after `reserve`. Nothing but capacity is changed then.
    pub fn make_frame(
        &mut self,
        document: DocumentId,
        name: Name,
    ) -> Result<(NodeId, DocumentId), MakeFault>
        ensures node { IfOk result (λ made. made.0.0 ≡ length self.old.elements.tree.elements) }
        ensures document { IfOk result (λ made. made.1.0 ≡ length self.old.elements.tree.documents) }
        ensures roomy { OnOk result (frame_room self.old.elements ≡ Did tt) }
        ensures made { OnOk result (self.new.elements ≡ record self.old.elements {
          tree = with_frame document.0 (self.old.elements.tree);
          names = self.old.elements.names ++ name ∷ [];
          ready = self.new.elements.ready;
        }) }
        ensures count { OnOk result (length self.new.elements.tree.elements ≡ length self.old.elements.tree.elements + 1) }
        ensures documents { OnOk result (length self.new.elements.tree.documents ≡ length self.old.elements.tree.documents + 1) }
        ensures kept { OnErr result (self.old.elements.ready ≡ true → self.new.elements.ready ≡ true) }
        ensures same { OnErr result (self.new.elements ≡ record self.old.elements { ready = self.new.elements.ready }) }
        ensures refused { IfErr result (IsFrameFault self.old.elements) }
        ensures marks { MarksNone self.old.kept self.new.kept }
    {
        if self.page.is_full() {
            return Err(MakeFault::Limit(LimitKind::Nodes));
        }
        if self.page.is_full_of_documents() {
            return Err(MakeFault::Limit(LimitKind::Documents));
        }
        let _node = self.reserve()?;
        self.current = None;
        self.page.make_frame(document, name)
    }

    /// Inserts an element, with its subtree, into the children of an element, before a sibling or last, or makes it the root
    /// element of a document (DOM, 4.2.3 pre-insert), like `PageTree::place`, and marks its old and its new parent.
    ///
    /// Fails, with nothing changed, with HierarchyRequestError if it would contain itself, then with NotFoundError if the
    /// sibling isn't a child there, then with HierarchyRequestError if the document already has a root element, then with
    /// `Limit` if an element would be deeper than 256. Doesn't allocate.
    pub fn place(
        &mut self,
        container: Container,
        node: NodeId,
        sibling: Option<NodeId>,
    ) -> Result<(), PlaceFault>
        requires container { IsContainerIn self.old.elements container }
        requires node { node.0 < length self.old.elements.tree.elements }
        requires sibling { ForSome sibling (λ s. s.0 < length self.old.elements.tree.elements) }
        ensures done { OnOk result (placing (seen_container container) node.0 (option_map number sibling) (self.old.elements.tree)
            ≡ Did (self.new.elements.tree)) }
        ensures rest { OnOk result (self.new.elements ≡ record self.old.elements { tree = self.new.elements.tree }) }
        ensures count { length self.new.elements.tree.elements ≡ length self.old.elements.tree.elements }
        ensures documents { length self.new.elements.tree.documents ≡ length self.old.elements.tree.documents }
        ensures refused { IfErr result (λ fault. placing (seen_container container) node.0 (option_map number sibling) (self.old.elements.tree)
            ≡ refusal fault) }
        ensures same { OnErr result (self.new ≡ self.old) }
        ensures marks { OnOk result (MarksOnly
            (λ m. is_over self.new.elements.tree (nodes_of self.old.elements.tree node.0).parent m || is_over self.new.elements.tree (element_of (seen_container container)) m)
            self.old.kept self.new.kept) }
    {
        let from = parent_of(&self.page, node);
        let to = element_of(container);
        self.page.place(container, node, sibling)?;
        self.current = None;
        mark(&mut self.boxes, &self.page, from);
        mark(&mut self.boxes, &self.page, to);
        Ok(())
    }

    /// Removes an element, with its subtree, from its parent, or as root element from its document (DOM, 4.2.3 remove), like
    /// `PageTree::remove`, and marks its old parent. Doesn't allocate.
    pub fn remove(&mut self, node: NodeId)
        requires { node.0 < length self.old.elements.tree.elements }
        ensures done { self.new.elements.tree ≡ removed (self.old.elements.tree) node.0 }
        ensures rest { self.new.elements ≡ record self.old.elements { tree = self.new.elements.tree } }
        ensures count { length self.new.elements.tree.elements ≡ length self.old.elements.tree.elements }
        ensures documents { length self.new.elements.tree.documents ≡ length self.old.elements.tree.documents }
        ensures marks { MarksOnly (is_over self.new.elements.tree (nodes_of self.old.elements.tree node.0).parent) self.old.kept self.new.kept }
    {
        let parent = parent_of(&self.page, node);
        self.page.remove(node);
        self.current = None;
        mark(&mut self.boxes, &self.page, parent);
    }

    /// Sets a property of an element's style (CSSOM, 6.6), and marks the element.
    pub fn set(&mut self, node: NodeId, declaration: Declaration)
        requires node { node.0 < length self.old.elements.tree.elements }
        requires allowed { IsAllowed declaration }
        ensures done { self.new.elements.tree ≡ with_declaration (seen_declaration declaration) node.0 (self.old.elements.tree) }
        ensures rest { self.new.elements ≡ record self.old.elements { tree = self.new.elements.tree } }
        ensures count { length self.new.elements.tree.elements ≡ length self.old.elements.tree.elements }
        ensures documents { length self.new.elements.tree.documents ≡ length self.old.elements.tree.documents }
        ensures marks { MarksOnly (is_over self.new.elements.tree (Some node.0)) self.old.kept self.new.kept }
    {
        self.page.set(node, declaration);
        self.current = None;
        mark(&mut self.boxes, &self.page, Some(node));
    }

    /// Adds a number of units of 1/64 pixel to an element's width or height, clamped to 0 up to 1,000,000 pixels, and marks
    /// the element.
    ///
    /// TypeError exactly when that property isn't in pixels. Nothing is changed then.
    pub fn grow(&mut self, node: NodeId, axis: Axis, by: Px) -> Result<(), ThrowKind>
        requires { node.0 < length self.old.elements.tree.elements }
        ensures done { OnOk result (growing (seen_axis axis) node.0 by.0 (self.old.elements.tree) ≡ Did (self.new.elements.tree)) }
        ensures rest { OnOk result (self.new.elements ≡ record self.old.elements { tree = self.new.elements.tree }) }
        ensures count { length self.new.elements.tree.elements ≡ length self.old.elements.tree.elements }
        ensures documents { length self.new.elements.tree.documents ≡ length self.old.elements.tree.documents }
        ensures refused { IfErr result (λ kind. growing (seen_axis axis) node.0 by.0 (self.old.elements.tree) ≡ Threw kind) }
        ensures same { OnErr result (self.new ≡ self.old) }
        ensures marks { OnOk result (MarksOnly (is_over self.new.elements.tree (Some node.0)) self.old.kept self.new.kept) }
    {
        self.page.grow(node, axis, by)?;
        self.current = None;
        mark(&mut self.boxes, &self.page, Some(node));
        Ok(())
    }

    /// Sets the natural size of an image, in units of 1/64 pixel, and marks the image.
    ///
    /// TypeError exactly when the element isn't an image. Nothing is changed then.
    pub fn load(&mut self, node: NodeId, size: Size) -> Result<(), ThrowKind>
        requires node { node.0 < length self.old.elements.tree.elements }
        requires size { IsNatural size }
        ensures done { OnOk result (loading node.0 (unsigned_abs size.width) (unsigned_abs size.height) (self.old.elements.tree)
            ≡ Did (self.new.elements.tree)) }
        ensures rest { OnOk result (self.new.elements ≡ record self.old.elements { tree = self.new.elements.tree }) }
        ensures count { length self.new.elements.tree.elements ≡ length self.old.elements.tree.elements }
        ensures documents { length self.new.elements.tree.documents ≡ length self.old.elements.tree.documents }
        ensures refused { IfErr result (λ kind. loading node.0 (unsigned_abs size.width) (unsigned_abs size.height) (self.old.elements.tree)
            ≡ Threw kind) }
        ensures same { OnErr result (self.new ≡ self.old) }
        ensures marks { OnOk result (MarksOnly (is_over self.new.elements.tree (Some node.0)) self.old.kept self.new.kept) }
    {
        self.page.load(node, size)?;
        self.current = None;
        mark(&mut self.boxes, &self.page, Some(node));
        Ok(())
    }

    /// Recomputes the boxes that are due, for this screen of `top`: each box of the page is then up to date, and none is due.
    /// It takes one step for each box that was due, sets no mark, drops no box, changes nothing for an element without a box,
    /// and doesn't allocate.
    pub fn refresh<L: Ledger>(&mut self, screen: Screen, steps: &mut Steps<L>)
        ensures fresh { IsFresh self.new.elements.tree (seen_screen screen) self.new.kept }
        ensures done { (n : ℕ) → is_due self.new.elements.tree (seen_screen screen) self.new.kept n ≡ false }
        ensures same { self.new.elements ≡ self.old.elements }
        ensures unboxed { LeavesUnboxed self.old.elements.tree (seen_screen screen) self.old.kept self.new.kept }
        ensures fills { FillsOnly self.old.kept self.new.kept }
        ensures ticks { steps.new + due_count self.old.elements.tree (seen_screen screen) self.new.kept ≡ steps.old + due_count self.old.elements.tree (seen_screen screen) self.old.kept }
    {
        if self.is_up_to_date(screen) {
            return;
        }
        refresh(&mut self.boxes, &self.page, screen, steps);
        self.current = Some(screen);
    }

    /// Recomputes the boxes that are due in a document and its ancestor documents, for this screen of `top`: those of the
    /// document and of the one that its frame is in are then up to date, and boxes of other documents are unchanged. It takes
    /// one step for each box that was due and no longer is, changes nothing for an element without a box, and doesn't
    /// allocate.
    pub fn refresh_in<L: Ledger>(
        &mut self,
        screen: Screen,
        document: DocumentId,
        steps: &mut Steps<L>,
    )
        ensures fresh { IsFreshIn self.new.elements.tree (seen_screen screen) self.new.kept document.0 }
        ensures above { IsFreshAbove self.new.elements.tree (seen_screen screen) self.new.kept document.0 }
        ensures left { LeavesOthers self.old.elements.tree (Some document.0) self.old.kept self.new.kept }
        ensures same { self.new.elements ≡ self.old.elements }
        ensures unboxed { LeavesUnboxed self.old.elements.tree (seen_screen screen) self.old.kept self.new.kept }
        ensures fills { FillsOnly self.old.kept self.new.kept }
        ensures ticks { steps.new + due_count self.old.elements.tree (seen_screen screen) self.new.kept ≡ steps.old + due_count self.old.elements.tree (seen_screen screen) self.old.kept }
    {
        if self.is_up_to_date(screen) {
            return;
        }
        self.current = None;
        refresh_in(&mut self.boxes, &self.page, screen, document, steps);
    }

    /// Recomputes the boxes that are due and that a reading of an element or a document depends on, for this screen of `top`:
    /// those of one document and its ancestor documents are then up to date, and boxes of other documents are unchanged. It
    /// takes one step for each box that was due and no longer is, changes nothing for an element without a box, and doesn't
    /// allocate.
    pub fn refresh_for<L: Ledger>(
        &mut self,
        screen: Screen,
        container: Container,
        steps: &mut Steps<L>,
    )
        ensures fresh { IsFreshFor self.new.elements.tree (seen_screen screen) self.new.kept (seen_container container) }
        ensures left { LeavesOthers self.old.elements.tree (rests_on self.old.elements.tree (seen_container container)) self.old.kept self.new.kept }
        ensures same { self.new.elements ≡ self.old.elements }
        ensures unboxed { LeavesUnboxed self.old.elements.tree (seen_screen screen) self.old.kept self.new.kept }
        ensures fills { FillsOnly self.old.kept self.new.kept }
        ensures ticks { steps.new + due_count self.old.elements.tree (seen_screen screen) self.new.kept ≡ steps.old + due_count self.old.elements.tree (seen_screen screen) self.old.kept }
    {
        if self.is_up_to_date(screen) {
            return;
        }
        self.current = None;
        refresh_for(&mut self.boxes, &self.page, screen, container, steps);
    }
}
