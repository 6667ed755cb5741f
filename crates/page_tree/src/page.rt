//! The elements and documents of the page, and the commands that change them.

ghost use Rattle.std.specs.Prelude.{◌≡◌, ◌+◌, ◌<◌, ◌≤◌, ◌++◌, ◌∷◌, [], not, length, option_map, unsigned_abs, Some, None, Ok, Err, IfOk, IfErr, IfSome, OnOk, OnErr, MatchResult, true};
ghost use Rattle.std.specs.Option.{ForSome};
ghost use Rattle.text_io.specs.Limits.{limit_number};
ghost use Rattle.text_io.specs.declared.kinds.LimitKind.TheVariants as limits;
ghost use Rattle.style_values.specs.Ranges.{IsAllowed, IsUnits};
ghost use Rattle.style_values.specs.Seen.{seen_axis, seen_declaration};
ghost use Rattle.element_tree.specs.Links.{number};
ghost use Rattle.element_tree.specs.Edits.{inserted, with_nodes};
ghost use Rattle.page_model.specs.World.{InElement, InDocument};
ghost use Rattle.page_model.specs.Lookups.{element_at};
ghost use Rattle.page_model.specs.Outcome.{opening_world};
ghost use Rattle.page_model.specs.Documents.{removed};
ghost use Rattle.page_model.specs.Steps.{Did, Threw};
ghost use Rattle.page_model.specs.Edits.{with_element, with_frame, with_declaration, set_dimension, pixels_of, dimension_of, grown as grown_by};
ghost use Rattle.page_model.specs.Commands.{placing, growing, loading};
ghost use Rattle.block_layout.specs.Seen.{seen_kind};
ghost use Rattle.page_tree.specs.Items.{IsKind, IsNatural};
ghost use Rattle.page_tree.specs.Faults.{refusal, element_room, frame_room, has_element_room, has_document_room, IsMakeFault, IsFrameFault};
ghost use Rattle.page_tree.specs.Changes.{ChangesAtNext, ChangesAtParents, ChangesAtParent, ChangesAtElement};
ghost use Rattle.page_tree.specs.Answers.{put_fault, mark_for, refusal_of, unmade_of, is_elsewhere};
ghost use Rattle.container_model.specs.Seen.{seen_container};
ghost use Rattle.page_tree.specs.Steps.{IsContainerIn};

use crate::element::Element;
use crate::faults::{MakeFault, PlaceFault};
use crate::standing::{is_no_root, leave};
use block_layout::{ItemKind, Styled};
use element_tree::{Container, DocumentId, NodeId, Tree, TreeFault};
use page_documents::{Documents, MOST_DOCUMENTS, Owned};
use px_units::{Length, Px, Size};
use std::alloc::{AllocError, Global};
use std::marker::Model;
use style_values::{Axis, Declaration};
use text_io::{LimitKind, Name, ThrowKind, Version};

/// The maximum number of elements on a path to a root.
const MOST_DEPTH: u32 = 256;

/// The greatest length of a style, in units of 1/64 pixel: 1,000,000 pixels.
const MOST_UNITS: i64 = 64_000_000;

/// The elements and documents of a page, within the limits of a version of the script language. A contract sees them as the
/// lists of a world (`specs/Views.antt`). Both are numbered from 0 in creation order, and are never deleted; `top` is
/// document 0.
#[derive(Drop)]
pub struct PageTree {
    version: Version,
    pub(crate) tree: Tree<Element>,
    pub(crate) documents: Documents,
}

impl Model for PageTree {
    ghost use Rattle.page_tree.specs.Views.{PageElements, seen_page, IsPage};

    ghost Value = { PageElements };

    ghost view = { λ p. seen_page p.version p.tree p.documents };

    ghost invariant = { λ p. IsPage p.version p.tree p.documents };
}

impl PageTree {
    /// Creates a page for scripts of this version, without elements and with the Active document `top`. Capacity for all
    /// documents is reserved here.
    ///
    /// # Errors
    ///
    /// If an allocation fails.
    pub fn new(alloc: Global, version: Version) -> Result<PageTree, AllocError>
        ensures version { IfOk result (λ page. page.version ≡ version) }
        ensures tree { IfOk result (λ page. page.tree ≡ (opening_world version).tree) }
        ensures names { IfOk result (λ page. page.names ≡ []) }
    {
        let documents = Documents::new(alloc, MOST_DOCUMENTS as u32)?;
        Ok(PageTree {
            version,
            tree: Tree::new(alloc, most_nodes(version), MOST_DEPTH),
            documents,
        })
    }

    /// Whether the page has its maximum number of elements: 20,000 in the first version, 40,000 in the second.
    pub fn is_full(&self) -> bool
        ensures { result ≡ not (has_element_room self.now) }
    {
        self.tree.holds(NodeId(most_nodes(self.version) - 1))
    }

    /// Whether the page has its maximum number of documents: 64.
    pub fn is_full_of_documents(&self) -> bool
        ensures { result ≡ not (has_document_room self.now) }
    {
        self.documents.is_full()
    }

    /// Reserves capacity for one element, and returns the number that the next `make` or `make_frame` gives it.
    ///
    /// That call won't return `Memory`. `Limit` exactly when the page is full; otherwise `Memory` if an allocation fails.
    /// Nothing but capacity changes.
    pub fn reserve(&mut self) -> Result<NodeId, MakeFault>
        ensures node { IfOk result (λ node. node.0 ≡ length self.old.tree.elements) }
        ensures roomy { OnOk result (element_room self.old ≡ Did tt) }
        ensures ready { OnOk result (self.new.ready ≡ true) }
        ensures kept { self.old.ready ≡ true → self.new.ready ≡ true }
        ensures same { self.new ≡ record self.old { ready = self.new.ready } }
        ensures refused { IfErr result (IsMakeFault self.old) }
    {
        match self.tree.reserve() {
            Ok(node) => Ok(node),
            Err(fault) => Err(unmade(fault)),
        }
    }

    /// Creates a detached element with this name, kind and node document, and returns its number. It has no style set.
    ///
    /// `Limit` exactly when the page is full; otherwise `Memory` if an allocation fails, but never after `reserve`. Nothing
    /// but capacity is changed then.
    pub fn make(
        &mut self,
        document: DocumentId,
        name: Name,
        kind: ItemKind,
    ) -> Result<NodeId, MakeFault>
        requires { IsKind kind }
        ensures node { IfOk result (λ node. node.0 ≡ length self.old.tree.elements) }
        ensures roomy { OnOk result (element_room self.old ≡ Did tt) }
        ensures made { OnOk result (self.new ≡ record self.old {
          tree = with_element (seen_kind kind) document.0 None (self.old.tree);
          names = self.old.names ++ name ∷ [];
          ready = self.new.ready;
        }) }
        ensures count { OnOk result (length self.new.tree.elements ≡ length self.old.tree.elements + 1) }
        ensures documents { OnOk result (length self.new.tree.documents ≡ length self.old.tree.documents) }
        ensures changes { OnOk result (ChangesAtNext self.old.tree self.new.tree) }
        ensures kept { OnErr result (self.old.ready ≡ true → self.new.ready ≡ true) }
        ensures same { OnErr result (self.new ≡ record self.old { ready = self.new.ready }) }
        ensures refused { IfErr result (IsMakeFault self.old) }
    {
        if let Err(fault) = self.reserve() {
            return Err(fault);
        }
        let Ok(node) = self.tree.add(Element::new(name, kind, document, None)) else {
            return Err(MakeFault::Memory);
        };
        Ok(node)
    }

    /// Creates a detached frame with this name and node document, and the Fresh document in it, which has no root element
    /// (HTML, 4.8.5 and 7.3), and returns both ids. The frame has no style set.
    ///
    /// `Limit(Nodes)` exactly when the page is full, then `Limit(Documents)` exactly when there are 64 documents; otherwise
    /// `Memory` if an allocation fails, but never after `reserve`. Nothing but capacity is changed then.
    pub fn make_frame(
        &mut self,
        document: DocumentId,
        name: Name,
    ) -> Result<(NodeId, DocumentId), MakeFault>
        ensures node { IfOk result (λ made. made.0.0 ≡ length self.old.tree.elements) }
        ensures document { IfOk result (λ made. made.1.0 ≡ length self.old.tree.documents) }
        ensures roomy { OnOk result (frame_room self.old ≡ Did tt) }
        ensures made { OnOk result (self.new ≡ record self.old {
          tree = with_frame document.0 (self.old.tree);
          names = self.old.names ++ name ∷ [];
          ready = self.new.ready;
        }) }
        ensures count { OnOk result (length self.new.tree.elements ≡ length self.old.tree.elements + 1) }
        ensures documents { OnOk result (length self.new.tree.documents ≡ length self.old.tree.documents + 1) }
        ensures changes { OnOk result (ChangesAtNext self.old.tree self.new.tree) }
        ensures kept { OnErr result (self.old.ready ≡ true → self.new.ready ≡ true) }
        ensures same { OnErr result (self.new ≡ record self.old { ready = self.new.ready }) }
        ensures refused { IfErr result (IsFrameFault self.old) }
    {
        if self.is_full() {
            return Err(MakeFault::Limit(LimitKind::Nodes));
        }
        if self.is_full_of_documents() {
            return Err(MakeFault::Limit(LimitKind::Documents));
        }
        let framed = DocumentId(self.documents.count());
        let element = Element::new(name, ItemKind::Frame, document, Some(framed));
        let Ok(node) = self.tree.add(element) else {
            return Err(MakeFault::Memory);
        };
        let _framed = self.documents.make(node);
        Ok((node, framed))
    }

    /// Inserts an element, with its subtree, into the children of an element, before a sibling or last, or makes it the root
    /// element of a document (DOM, 4.2.3 pre-insert). It is removed from its old place first. If the given sibling is the
    /// element itself, its next sibling is used instead. It is adopted with its subtree (DOM, 4.5); Active documents in
    /// frames of the subtree end if it was in the tree of an Active document, and Fresh ones become Active if it is inserted
    /// into one.
    ///
    /// Fails, with nothing changed, with HierarchyRequestError if it would contain itself, then with NotFoundError if the
    /// sibling isn't a child there, then with HierarchyRequestError if the document already has a root element, then with
    /// `Limit` if an element would be deeper than 256. Doesn't allocate.
    pub fn place(
        &mut self,
        container: Container,
        node: NodeId,
        sibling: Option<NodeId>,
    ) -> Result<(), PlaceFault>
        requires container { IsContainerIn self.old container }
        requires node { node.0 < length self.old.tree.elements }
        requires sibling { ForSome sibling (λ s. s.0 < length self.old.tree.elements) }
        ensures done { OnOk result (placing (seen_container container) node.0 (option_map number sibling) (self.old.tree)
            ≡ Did (self.new.tree)) }
        ensures rest { OnOk result (self.new ≡ record self.old { tree = self.new.tree }) }
        ensures count { length self.new.tree.elements ≡ length self.old.tree.elements }
        ensures documents { length self.new.tree.documents ≡ length self.old.tree.documents }
        ensures changes { OnOk result (ChangesAtParents (seen_container container) node.0 self.old.tree self.new.tree) }
        ensures refused { IfErr result (λ fault. placing (seen_container container) node.0 (option_map number sibling) (self.old.tree)
            ≡ refusal fault) }
        ensures same { OnErr result (self.new ≡ self.old) }
    {
        match container {
            Container::Element(parent) => self.place_in(parent, node, sibling),
            Container::Document(document) => self.place_on_top(document, node, sibling),
        }
    }

    /// Removes an element, with its subtree, from its parent, or as root element from its document (DOM, 4.2.3 remove). If it
    /// was in the tree of an Active document, the Active documents in frames of the subtree become Dead for good,
    /// recursively. Does nothing if it is detached. Doesn't allocate.
    pub fn remove(&mut self, node: NodeId)
        requires { node.0 < length self.old.tree.elements }
        ensures done { self.new.tree ≡ removed (self.old.tree) node.0 }
        ensures rest { self.new ≡ record self.old { tree = self.new.tree } }
        ensures count { length self.new.tree.elements ≡ length self.old.tree.elements }
        ensures documents { length self.new.tree.documents ≡ length self.old.tree.documents }
        ensures changes { ChangesAtParent node.0 self.old.tree self.new.tree }
    {
        let held = self.tree.holds(node);
        prove!(held);
        leave(&self.tree, &mut self.documents, node);
        self.tree.remove(node);
    }

    /// Sets a property of an element's style (CSSOM, 6.6).
    pub fn set(&mut self, node: NodeId, declaration: Declaration)
        requires node { node.0 < length self.old.tree.elements }
        requires allowed { IsAllowed declaration }
        ensures done { self.new.tree ≡ with_declaration (seen_declaration declaration) node.0 (self.old.tree) }
        ensures rest { self.new ≡ record self.old { tree = self.new.tree } }
        ensures count { length self.new.tree.elements ≡ length self.old.tree.elements }
        ensures documents { length self.new.tree.documents ≡ length self.old.tree.documents }
        ensures changes { ChangesAtElement node.0 self.old.tree self.new.tree }
    {
        self.tree.payload_mut(node).apply(declaration);
    }

    /// Adds a number of units of 1/64 pixel to an element's width or height, clamped to 0 up to 1,000,000 pixels.
    ///
    /// TypeError exactly when that property isn't in pixels. Nothing is changed then.
    pub fn grow(&mut self, node: NodeId, axis: Axis, by: Px) -> Result<(), ThrowKind>
        requires { node.0 < length self.old.tree.elements }
        ensures done { OnOk result (growing (seen_axis axis) node.0 by.0 (self.old.tree) ≡ Did (self.new.tree)) }
        ensures rest { OnOk result (self.new ≡ record self.old { tree = self.new.tree }) }
        ensures count { length self.new.tree.elements ≡ length self.old.tree.elements }
        ensures documents { length self.new.tree.documents ≡ length self.old.tree.documents }
        ensures changes { OnOk result (ChangesAtElement node.0 self.old.tree self.new.tree) }
        ensures refused { IfErr result (λ kind. growing (seen_axis axis) node.0 by.0 (self.old.tree) ≡ Threw kind) }
        ensures same { OnErr result (self.new ≡ self.old) }
    {
        let Some(units) = self.pixels(node, axis) else {
            return Err(ThrowKind::TypeError);
        };
        self.set(node, in_pixels(axis, grown(units, by)));
        Ok(())
    }

    /// Sets the natural size of an image, in units of 1/64 pixel.
    ///
    /// TypeError exactly when the element isn't an image. Nothing is changed then.
    pub fn load(&mut self, node: NodeId, size: Size) -> Result<(), ThrowKind>
        requires node { node.0 < length self.old.tree.elements }
        requires size { IsNatural size }
        ensures done { OnOk result (loading node.0 (unsigned_abs size.width) (unsigned_abs size.height) (self.old.tree)
            ≡ Did (self.new.tree)) }
        ensures rest { OnOk result (self.new ≡ record self.old { tree = self.new.tree }) }
        ensures count { length self.new.tree.elements ≡ length self.old.tree.elements }
        ensures documents { length self.new.tree.documents ≡ length self.old.tree.documents }
        ensures changes { OnOk result (ChangesAtElement node.0 self.old.tree self.new.tree) }
        ensures refused { IfErr result (λ kind. loading node.0 (unsigned_abs size.width) (unsigned_abs size.height) (self.old.tree)
            ≡ Threw kind) }
        ensures same { OnErr result (self.new ≡ self.old) }
    {
        let ItemKind::Image(_) = self.kind(node) else {
            return Err(ThrowKind::TypeError);
        };
        self.tree.payload_mut(node).set_natural_size(size);
        Ok(())
    }

    // Inserts an element into the children of another one.
    fn place_in(
        &mut self,
        parent: NodeId,
        node: NodeId,
        sibling: Option<NodeId>,
    ) -> Result<(), PlaceFault>
        requires parent { parent.0 < length self.old.tree.elements }
        requires node { node.0 < length self.old.tree.elements }
        requires sibling { ForSome sibling (λ s. s.0 < length self.old.tree.elements) }
        ensures done { OnOk result (placing (InElement parent.0) node.0 (option_map number sibling) (self.old.tree)
            ≡ Did (self.new.tree)) }
        ensures rest { OnOk result (self.new ≡ record self.old { tree = self.new.tree }) }
        ensures count { length self.new.tree.elements ≡ length self.old.tree.elements }
        ensures documents { length self.new.tree.documents ≡ length self.old.tree.documents }
        ensures changes { OnOk result (ChangesAtParents (InElement parent.0) node.0 self.old.tree self.new.tree) }
        ensures refused { IfErr result (λ fault. placing (InElement parent.0) node.0 (option_map number sibling) (self.old.tree)
            ≡ refusal fault) }
        ensures same { OnErr result (self.new ≡ self.old) }
    {
        let held = self.tree.holds(node);
        prove!(held);
        if let Err(fault) = check(&self.tree, parent, node, sibling) {
            return Err(refused(fault));
        }
        let document = self.tree.payload(parent).document();
        leave(&self.tree, &mut self.documents, node);
        put(&mut self.tree, parent, node, sibling);
        self.documents.entered(&mut self.tree, node, document);
        Ok(())
    }

    // Makes an element the root element of a document.
    fn place_on_top(
        &mut self,
        document: DocumentId,
        node: NodeId,
        sibling: Option<NodeId>,
    ) -> Result<(), PlaceFault>
        requires document { document.0 < length self.old.tree.documents }
        requires node { node.0 < length self.old.tree.elements }
        ensures done { OnOk result (placing (InDocument document.0) node.0 (option_map number sibling) (self.old.tree)
            ≡ Did (self.new.tree)) }
        ensures rest { OnOk result (self.new ≡ record self.old { tree = self.new.tree }) }
        ensures count { length self.new.tree.elements ≡ length self.old.tree.elements }
        ensures documents { length self.new.tree.documents ≡ length self.old.tree.documents }
        ensures changes { OnOk result (ChangesAtParents (InDocument document.0) node.0 self.old.tree self.new.tree) }
        ensures refused { IfErr result (λ fault. placing (InDocument document.0) node.0 (option_map number sibling) (self.old.tree)
            ≡ refusal fault) }
        ensures same { OnErr result (self.new ≡ self.old) }
    {
        let held = self.tree.holds(node);
        prove!(held);
        if is_no_root(&self.tree, &self.documents, document, sibling) {
            return Err(PlaceFault::Throw(ThrowKind::NotFoundError));
        }
        if self.documents.root_of(document).is_some() {
            return Err(PlaceFault::Throw(ThrowKind::HierarchyRequestError));
        }
        leave(&self.tree, &mut self.documents, node);
        self.tree.remove(node);
        self.documents.set_root(document, Some(node));
        self.documents.entered(&mut self.tree, node, document);
        Ok(())
    }

    // Returns the width or height, if it is in pixels.
    fn pixels(&self, node: NodeId, axis: Axis) -> Option<Px>
        requires { node.0 < length self.now.tree.elements }
        ensures value { option_map (λ px. unsigned_abs px.0) result
            ≡ pixels_of (dimension_of (seen_axis axis) (element_at (self.now.tree) node.0).item.style) }
        ensures range { IfSome result (λ px. IsUnits px.0) }
    {
        let style = self.tree.payload(node).style();
        let length = match axis {
            Axis::Width => style.width,
            Axis::Height => style.height,
        };
        match length {
            Length::Px(units) => Some(units),
            _ => None,
        }
    }
}

// Returns the maximum number of elements of a page for scripts of this version.
#[tactic(auto, using(crate::proofs::Limits::some_nodes, crate::proofs::Limits::few_nodes))]
fn most_nodes(version: Version) -> u32
    ensures value { result ≡ limit_number version limits.Nodes }
    ensures some { 1 ≤ result }
{
    LimitKind::Nodes.number(version) as u32
}

// Checks whether a node can be inserted into the children of another one, before a sibling or last.
fn check(
    tree: &Tree<Element>,
    parent: NodeId,
    node: NodeId,
    sibling: Option<NodeId>,
) -> Result<(), TreeFault>
    requires { tree.now.most_depth ≡ 256 }
    ensures { MatchResult result
        (λ _. put_fault tree.now parent.0 node.0 (option_map number sibling) ≡ None)
        (λ fault. put_fault tree.now parent.0 node.0 (option_map number sibling) ≡ Some fault) }
{
    if tree.is_ancestor(node, parent) {
        return Err(TreeFault::Hierarchy);
    }
    if is_no_child(tree, parent, sibling) {
        return Err(TreeFault::NotAChild);
    }
    if tree.depth(parent) + tree.height(node) > MOST_DEPTH {
        return Err(TreeFault::DepthLimit);
    }
    Ok(())
}

// Whether a sibling is given that isn't a child of the parent.
fn is_no_child(tree: &Tree<Element>, parent: NodeId, sibling: Option<NodeId>) -> bool
    ensures { result ≡ is_elsewhere (tree.now.nodes) parent.0 (option_map number sibling) }
{
    let Some(named) = sibling else {
        return false;
    };
    match tree.parent(named) {
        Some(found) => found.0 != parent.0,
        None => true,
    }
}

// Inserts a node into the children of another one, before a sibling or last.
fn put(tree: &mut Tree<Element>, parent: NodeId, node: NodeId, sibling: Option<NodeId>)
    requires parent { parent.0 < length tree.old.nodes }
    requires node { node.0 < length tree.old.nodes }
    requires sibling { ForSome sibling (λ s. s.0 < length tree.old.nodes) }
    requires fits { put_fault tree.old parent.0 node.0 (option_map number sibling) ≡ None }
    ensures done { tree.new ≡ with_nodes
        (inserted parent.0 node.0 (mark_for node.0 (option_map number sibling) tree.old.nodes)) tree.old }
    ensures count { length tree.new.nodes ≡ length tree.old.nodes }
{
    let done = match sibling {
        None => tree.append(parent, node).is_ok(),
        Some(named) => tree.insert_before(parent, node, named).is_ok(),
    };
    prove!(done);
}

// Maps the error of reserving one more node; there are only two.
fn unmade(fault: TreeFault) -> MakeFault
    ensures { result ≡ unmade_of fault }
{
    match fault {
        TreeFault::NodeLimit => MakeFault::Limit(LimitKind::Nodes),
        TreeFault::Memory | TreeFault::Hierarchy | TreeFault::NotAChild | TreeFault::DepthLimit => {
            MakeFault::Memory
        }
    }
}

// Maps an error of the tree; inserting a node neither allocates nor creates one.
fn refused(fault: TreeFault) -> PlaceFault
    ensures { result ≡ refusal_of fault }
{
    match fault {
        TreeFault::Hierarchy => PlaceFault::Throw(ThrowKind::HierarchyRequestError),
        TreeFault::NotAChild => PlaceFault::Throw(ThrowKind::NotFoundError),
        TreeFault::DepthLimit | TreeFault::NodeLimit | TreeFault::Memory => {
            PlaceFault::Limit(LimitKind::Depth)
        }
    }
}

// Adds to a length in pixels, clamped to 0 up to the greatest one.
fn grown(units: Px, by: Px) -> Px
    requires { IsUnits units.0 }
    ensures value { unsigned_abs result.0 ≡ grown_by (unsigned_abs units.0) by.0 }
    ensures range { IsUnits result.0 }
{
    Px(units.0.saturating_add(by.0).clamp(0, MOST_UNITS))
}

fn in_pixels(axis: Axis, length: Px) -> Declaration
    requires { IsUnits length.0 }
    ensures value { seen_declaration result ≡ set_dimension (seen_axis axis) (unsigned_abs length.0) }
    ensures range { IsAllowed result }
{
    match axis {
        Axis::Width => Declaration::Width(Length::Px(length)),
        Axis::Height => Declaration::Height(Length::Px(length)),
    }
}
