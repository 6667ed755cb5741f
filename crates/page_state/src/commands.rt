//! Commands that change the viewport, the tree and styles.

ghost use Rattle.std.specs.Prelude.{◌≡◌, ◌<◌, ℕ, List, Some, None, length, option_map, unsigned_abs};
ghost use Rattle.std.specs.Option.{ForSome};
ghost use Rattle.style_values.specs.Ranges.{IsAllowed};
ghost use Rattle.style_values.specs.Seen.{seen_axis, seen_declaration};
ghost use Rattle.script_model.specs.Syntax.{Viewport, SetRatio, MakeBlock, MakeImage, MakeFrame, Append, Before, Remove, SetStyle, Grow, Load};
ghost use Rattle.block_layout.specs.declared.ItemKind.{ItemKind as KindOfItem};
ghost use Rattle.block_layout.specs.Seen.{seen_kind};
ghost use Rattle.kept_layout.specs.declared.slots.Slot.{Slot};
ghost use Rattle.page_laws.specs.Making.{KeepsBoxes};
ghost use Rattle.page_model.specs.Commands.{does, making, placing, with_tree};
ghost use Rattle.page_model.specs.Documents.{removed};
ghost use Rattle.page_model.specs.Edits.{with_element, with_frame};
ghost use Rattle.page_model.specs.World.{Tree};
ghost use Rattle.page_model.specs.Operands.{Present, container_meant};
ghost use Rattle.container_model.specs.Seen.{seen_container};
ghost use Rattle.script_syntax.specs.Allowed.{IsSize, IsPercent};
ghost use Rattle.script_syntax.specs.Seen.{operand_of};
ghost use Rattle.element_tree.specs.Links.{number};
ghost use Rattle.page_layout.specs.Marks.{element_of, is_over, MarksOnly, MarksNone};
ghost use Rattle.kept_findings.specs.Held.{IsRoomier};
ghost use Rattle.page_state.specs.Answers.{Keeps};
ghost use Rattle.page_state.specs.Boxes.{LeavesDue, Marks, StaysDue, found, inside, is_moved, meant, parent};
ghost use Rattle.page_state.specs.Faults.{misplaced};
ghost use Rattle.page_state.specs.Labels.{IsIn};
ghost use Rattle.page_names.specs.Things.{present_of, IsSubject};
ghost use Rattle.page_state.specs.Things.{IsMade};

use crate::answers::{Effect, PageFault};
use crate::page::Page;
use block_layout::ItemKind;
use element_tree::{Container, DocumentId, NodeId};
use page_laws::{boxes_do_not_read_the_ratio, what_is_made_has_no_box};
use page_names::Thing;
use page_tree::PlaceFault;
use px_units::{Percent, Px, Size};
use script_syntax::Operand;
use style_values::{Axis, Declaration};
use text_io::{LimitKind, Name};

#[tactic(auto, unfolding(page_model::specs::Commands::does))]
impl Page {
    pub(crate) fn set_viewport(&mut self, size: Size) -> Result<Effect, PageFault>
        requires { IsSize size }
        ensures done { (present : Present) → Keeps self.old self.new result (λ handlers. does handlers self.old.world present (Viewport (unsigned_abs size.width) (unsigned_abs size.height))) }
        ensures boxes { self.new.kept ≡ self.old.kept }
        ensures findings { self.new.found ≡ self.old.found }
    {
        self.settled.clear();
        self.screen.size = size;
        Ok(Effect::Nothing)
    }

    // Layout depends on the size of the screen only, so that no box becomes due.
    pub(crate) fn set_ratio(&mut self, ratio: Percent) -> Result<Effect, PageFault>
        requires { IsPercent ratio.0 }
        ensures done { (present : Present) → Keeps self.old self.new result (λ handlers. does handlers self.old.world present (SetRatio (unsigned_abs ratio.0))) }
        ensures boxes { self.new.kept ≡ self.old.kept }
        ensures due { StaysDue (unsigned_abs ratio.0) self.old.world self.old.kept self.new.kept }
        ensures findings { self.new.found ≡ self.old.found }
    {
        // Yields that layout doesn't depend on the ratio.
        boxes_do_not_read_the_ratio();
        self.settled.clear();
        self.screen.ratio = ratio;
        Ok(Effect::Nothing)
    }

    pub(crate) fn make_block(&mut self, name: Name, document: Name) -> Result<Effect, PageFault>
        ensures done { (present : Present) → Keeps self.old self.new result (λ handlers. does handlers self.old.world present (MakeBlock name document)) }
        ensures boxes { LeavesDue self.old.world self.new.world.tree self.old.kept self.new.kept }
        ensures findings { IsRoomier self.old.found self.new.found }
    {
        self.make(name, document, ItemKind::Block)
    }

    pub(crate) fn make_image(
        &mut self,
        name: Name,
        document: Name,
        size: Size,
    ) -> Result<Effect, PageFault>
        requires { IsSize size }
        ensures done { (present : Present) → Keeps self.old self.new result (λ handlers. does handlers self.old.world present (MakeImage name document (unsigned_abs size.width) (unsigned_abs size.height))) }
        ensures boxes { LeavesDue self.old.world self.new.world.tree self.old.kept self.new.kept }
        ensures findings { IsRoomier self.old.found self.new.found }
    {
        self.make(name, document, ItemKind::Image(size))
    }

    // A new element has no box, so that the same boxes are due as before: a law about every page; the call does nothing.
    fn making_leaves_boxes(&self)
        ensures elements { (kind : KindOfItem) (document : ℕ) → KeepsBoxes self.now.world.tree (with_element (seen_kind kind) document None (self.now.world.tree)) }
        ensures frames { (document : ℕ) → KeepsBoxes self.now.world.tree (with_frame document (self.now.world.tree)) }
        ensures leaves { (after : Tree) (kept : List Slot) → KeepsBoxes self.now.world.tree after → MarksNone self.now.kept kept →
            LeavesDue self.now.world after self.now.kept kept }
        ensures same { LeavesDue self.now.world self.now.world.tree self.now.kept self.now.kept }
    {
        what_is_made_has_no_box();
        self.laid.boxes();
        self.laid.page().document_count();
    }

    // Capacity for the element, its box and its spot is reserved first; then comes its name, which is the last step that can
    // fail.
    fn make(&mut self, name: Name, document: Name, kind: ItemKind) -> Result<Effect, PageFault>
        requires { IsMade kind }
        ensures done { Keeps self.old self.new result (λ handlers. making self.old.world name document (seen_kind kind)) }
        ensures boxes { LeavesDue self.old.world self.new.world.tree self.old.kept self.new.kept }
        ensures findings { IsRoomier self.old.found self.new.found }
    {
        self.making_leaves_boxes();
        self.names.check_free(name)?;
        let document = self.document(document)?;
        self.settled.clear();
        let node = self.laid.reserve()?;
        self.findings.add(Container::Element(node))?;
        self.names.insert(name, Thing::Element(node))?;
        let _node = self.laid.make(document, name, kind)?;
        Ok(Effect::Nothing)
    }

    // Capacity for the frame, its box, its spot and that of its document, and both names is reserved first, so that nothing
    // after it can fail.
    pub(crate) fn make_frame(
        &mut self,
        name: Name,
        document: Name,
        inside: Name,
    ) -> Result<Effect, PageFault>
        ensures done { (present : Present) → Keeps self.old self.new result (λ handlers. does handlers self.old.world present (MakeFrame name document inside)) }
        ensures boxes { LeavesDue self.old.world self.new.world.tree self.old.kept self.new.kept }
        ensures findings { IsRoomier self.old.found self.new.found }
    {
        self.making_leaves_boxes();
        self.names.check_free(name)?;
        let document = self.document(document)?;
        self.names.check_also_free(name, inside)?;
        let page = self.laid.page();
        if page.is_full() {
            return Err(PageFault::Limit(LimitKind::Nodes));
        }
        if page.is_full_of_documents() {
            return Err(PageFault::Limit(LimitKind::Documents));
        }
        self.settled.clear();
        let node = self.laid.reserve()?;
        let framed = DocumentId(self.laid.page().document_count());
        self.findings.add(Container::Element(node))?;
        self.findings.add(Container::Document(framed))?;
        self.names.reserve(2)?;
        self.names.insert(name, Thing::Element(node))?;
        self.names.insert(inside, Thing::Document(framed))?;
        let _made = self.laid.make_frame(document, name)?;
        Ok(Effect::Nothing)
    }

    pub(crate) fn append(
        &mut self,
        parent: Operand,
        node: Operand,
        subject: Option<NodeId>,
    ) -> Result<Effect, PageFault>
        requires { IsSubject (length self.old.world.tree.elements) subject }
        ensures done { Keeps self.old self.new result (λ handlers. does handlers self.old.world (present_of subject) (Append (operand_of parent) (operand_of node))) }
        ensures boxes { Marks (is_moved self.old.world.tree self.new.world.tree (meant self.old.world (present_of subject) (operand_of node)) (inside (found (container_meant self.old.world.names (present_of subject) (operand_of parent))))) result self.old.kept self.new.kept }
        ensures findings { self.new.found ≡ self.old.found }
    {
        let container = self.container(parent, subject)?;
        let node = self.element(node, subject)?;
        self.put(container, node, None)
    }

    pub(crate) fn insert(
        &mut self,
        parent: Operand,
        node: Operand,
        sibling: Operand,
        subject: Option<NodeId>,
    ) -> Result<Effect, PageFault>
        requires { IsSubject (length self.old.world.tree.elements) subject }
        ensures done { Keeps self.old self.new result (λ handlers. does handlers self.old.world (present_of subject) (Before (operand_of parent) (operand_of node) (operand_of sibling))) }
        ensures boxes { Marks (is_moved self.old.world.tree self.new.world.tree (meant self.old.world (present_of subject) (operand_of node)) (inside (found (container_meant self.old.world.names (present_of subject) (operand_of parent))))) result self.old.kept self.new.kept }
        ensures findings { self.new.found ≡ self.old.found }
    {
        let container = self.container(parent, subject)?;
        let node = self.element(node, subject)?;
        let sibling = self.element(sibling, subject)?;
        self.put(container, node, Some(sibling))
    }

    // Inserts an element.
    fn put(
        &mut self,
        container: Container,
        node: NodeId,
        sibling: Option<NodeId>,
    ) -> Result<Effect, PageFault>
        requires container { IsIn self.old.world container }
        requires node { node.0 < length self.old.world.tree.elements }
        requires sibling { ForSome sibling (λ s. s.0 < length self.old.world.tree.elements) }
        ensures done { Keeps self.old self.new result
            (λ handlers. with_tree self.old.world (placing (seen_container container) node.0 (option_map number sibling) (self.old.world.tree))) }
        ensures boxes { Marks (is_moved self.old.world.tree self.new.world.tree (Some node.0) (element_of (seen_container container))) result self.old.kept self.new.kept }
        ensures findings { self.new.found ≡ self.old.found }
    {
        self.settled.clear();
        if let Err(fault) = self.laid.place(container, node, sibling) {
            return Err(refused(fault));
        }
        Ok(Effect::Nothing)
    }

    pub(crate) fn remove(
        &mut self,
        node: Operand,
        subject: Option<NodeId>,
    ) -> Result<Effect, PageFault>
        requires { IsSubject (length self.old.world.tree.elements) subject }
        ensures done { Keeps self.old self.new result (λ handlers. does handlers self.old.world (present_of subject) (Remove (operand_of node))) }
        ensures boxes { Marks (is_over self.new.world.tree (parent self.old.world.tree (meant self.old.world (present_of subject) (operand_of node)))) result self.old.kept self.new.kept }
        ensures findings { self.new.found ≡ self.old.found }
    {
        let node = self.element(node, subject)?;
        self.take_out(node);
        Ok(Effect::Nothing)
    }

    // Removes an element.
    fn take_out(&mut self, node: NodeId)
        requires { node.0 < length self.old.world.tree.elements }
        ensures removed { self.new ≡ record self.old { world = record (self.old.world) { tree = removed (self.old.world.tree) node.0 }; kept = self.new.kept } }
        ensures marks { MarksOnly (is_over self.new.world.tree (parent self.old.world.tree (Some node.0))) self.old.kept self.new.kept }
    {
        self.settled.clear();
        self.laid.remove(node);
    }

    pub(crate) fn set(
        &mut self,
        node: Operand,
        declaration: Declaration,
        subject: Option<NodeId>,
    ) -> Result<Effect, PageFault>
        requires allowed { IsAllowed declaration }
        requires subject { IsSubject (length self.old.world.tree.elements) subject }
        ensures done { Keeps self.old self.new result (λ handlers. does handlers self.old.world (present_of subject) (SetStyle (operand_of node) (seen_declaration declaration))) }
        ensures boxes { Marks (is_over self.new.world.tree (meant self.old.world (present_of subject) (operand_of node))) result self.old.kept self.new.kept }
        ensures findings { self.new.found ≡ self.old.found }
    {
        let node = self.element(node, subject)?;
        self.settled.clear();
        self.laid.set(node, declaration);
        Ok(Effect::Nothing)
    }

    pub(crate) fn grow(
        &mut self,
        node: Operand,
        axis: Axis,
        by: Px,
        subject: Option<NodeId>,
    ) -> Result<Effect, PageFault>
        requires { IsSubject (length self.old.world.tree.elements) subject }
        ensures done { Keeps self.old self.new result (λ handlers. does handlers self.old.world (present_of subject) (Grow (operand_of node) (seen_axis axis) by.0)) }
        ensures boxes { Marks (is_over self.new.world.tree (meant self.old.world (present_of subject) (operand_of node))) result self.old.kept self.new.kept }
        ensures findings { self.new.found ≡ self.old.found }
    {
        let node = self.element(node, subject)?;
        self.settled.clear();
        self.laid.grow(node, axis, by)?;
        Ok(Effect::Nothing)
    }

    pub(crate) fn load(
        &mut self,
        node: Operand,
        size: Size,
        subject: Option<NodeId>,
    ) -> Result<Effect, PageFault>
        requires size { IsSize size }
        requires subject { IsSubject (length self.old.world.tree.elements) subject }
        ensures done { Keeps self.old self.new result (λ handlers. does handlers self.old.world (present_of subject) (Load (operand_of node) (unsigned_abs size.width) (unsigned_abs size.height))) }
        ensures boxes { Marks (is_over self.new.world.tree (meant self.old.world (present_of subject) (operand_of node))) result self.old.kept self.new.kept }
        ensures findings { self.new.found ≡ self.old.found }
    {
        let node = self.element(node, subject)?;
        self.settled.clear();
        self.laid.load(node, size)?;
        Ok(Effect::Nothing)
    }
}

// Maps the error of an insertion.
fn refused(fault: PlaceFault) -> PageFault
    ensures { result ≡ misplaced fault }
{
    match fault {
        PlaceFault::Throw(kind) => PageFault::Throw(kind),
        PlaceFault::Limit(kind) => PageFault::Limit(kind),
    }
}
