//! Commands that scroll (CSSOM View, 4 to 6).

ghost use Rattle.std.specs.Prelude.{◌≡◌, ◌<◌, ◌+ℤ◌, Some, length, option_map};
ghost use Rattle.script_model.specs.Syntax.{ScrollTo, ScrollBy};
ghost use Rattle.page_model.specs.World.{InElement};
ghost use Rattle.page_model.specs.Commands.{does};
ghost use Rattle.page_model.specs.Documents.{is_root_element, document_of_container};
ghost use Rattle.page_model.specs.PageBoxes.{scroll_range, scroll_offset};
ghost use Rattle.page_model.specs.Scrolling.{scrolled_thing, scrolled_to};
ghost use Rattle.page_model.specs.Steps.{becomes};
ghost use Rattle.page_boxes.specs.Pages.{seen_size};
ghost use Rattle.page_boxes.specs.Ranges.{IsOffset as IsInForce};
ghost use Rattle.container_model.specs.Seen.{seen_container};
ghost use Rattle.scrolling.specs.Ranges.{IsRange};
ghost use Rattle.scrolling.specs.Seen.{point_of};
ghost use Rattle.script_syntax.specs.Allowed.{IsOffset};
ghost use Rattle.script_syntax.specs.Seen.{operand_of};
ghost use Rattle.page_state.specs.Answers.{Keeps};
ghost use Rattle.page_state.specs.Boxes.{ComputesIn, document_meant};
ghost use Rattle.page_state.specs.Labels.{IsIn};
ghost use Rattle.page_names.specs.Things.{present_of, IsSubject};

use crate::answers::{Effect, PageFault};
use crate::page::{Page, shown_in};
use element_tree::{Container, NodeId};
use page_boxes::is_scroller;
use page_geometry::document_of_container;
use px_units::{Point, Size};
use script_syntax::Operand;
use std::sync::ledger::Ledger;
use step_count::Steps;

// The scroll offset and the scroll range of a target.
#[derive(Clone, Copy)]
struct Reach {
    offset: Point,
    range: Size,
}

#[tactic(auto, unfolding(page_model::specs::Commands::does), using(crate::proofs::Laid::computes_nothing))]
impl Page {
    pub(crate) fn scroll_to<L: Ledger>(
        &mut self,
        of: Operand,
        to: Point,
        subject: Option<NodeId>,
        steps: &mut Steps<L>,
    ) -> Result<Effect, PageFault>
        requires { IsSubject (length self.old.world.tree.elements) subject }
        ensures done { Keeps self.old self.new result (λ handlers. does handlers self.old.world (present_of subject) (ScrollTo (operand_of of) to.left to.top)) }
        ensures boxes { ComputesIn self.old.world (document_meant self.old.world (present_of subject) (operand_of of)) self.old.kept self.new.kept steps.old steps.new }
        ensures findings { self.new.found ≡ self.old.found }
    {
        let container = self.container(of, subject)?;
        let Some(target) = self.scrolled_thing(container) else {
            return Ok(Effect::Nothing);
        };
        let reach = self.reach(target, steps);
        self.move_to(target, to, reach.range)
    }

    pub(crate) fn scroll_by<L: Ledger>(
        &mut self,
        of: Operand,
        by: Point,
        subject: Option<NodeId>,
        steps: &mut Steps<L>,
    ) -> Result<Effect, PageFault>
        requires by { IsOffset by }
        requires subject { IsSubject (length self.old.world.tree.elements) subject }
        ensures done { Keeps self.old self.new result (λ handlers. does handlers self.old.world (present_of subject) (ScrollBy (operand_of of) by.left by.top)) }
        ensures boxes { ComputesIn self.old.world (document_meant self.old.world (present_of subject) (operand_of of)) self.old.kept self.new.kept steps.old steps.new }
        ensures findings { self.new.found ≡ self.old.found }
    {
        let container = self.container(of, subject)?;
        let Some(target) = self.scrolled_thing(container) else {
            return Ok(Effect::Nothing);
        };
        let reach = self.reach(target, steps);
        self.move_to(target, moved(reach.offset, by), reach.range)
    }

    // Returns what scrolling an element or a document scrolls: for a root element its document's viewport.
    fn scrolled_thing(&self, container: Container) -> Option<Container>
        requires { IsIn self.now.world container }
        ensures { option_map seen_container result ≡ scrolled_thing self.now.world.tree self.now.world.viewports.screen (seen_container container) }
    {
        match container {
            Container::Document(document) => Some(Container::Document(document)),
            Container::Element(node) => self.scrolled_element(node),
        }
    }

    fn scrolled_element(&self, node: NodeId) -> Option<Container>
        ensures { option_map seen_container result ≡ scrolled_thing self.now.world.tree self.now.world.viewports.screen (InElement node.0) }
    {
        if self.is_root_element(node) {
            return Some(Container::Document(self.laid.page().document_of(node)));
        }
        if is_scroller(self.laid.page(), node) {
            Some(Container::Element(node))
        } else {
            None
        }
    }

    // Whether an element is the root element of its node document.
    fn is_root_element(&self, node: NodeId) -> bool
        ensures { result ≡ is_root_element self.now.world.tree node.0 }
    {
        let page = self.laid.page();
        match page.root(page.document_of(node)) {
            Some(root) => root.0 == node.0,
            None => false,
        }
    }

    // Returns the scroll offset in force of a target and its range, from the current boxes.
    fn reach<L: Ledger>(&mut self, target: Container, steps: &mut Steps<L>) -> Reach
        ensures offset { result.offset ≡ point_of (scroll_offset self.old.world.tree self.old.world.viewports.screen self.old.world.scrolls (seen_container target)) }
        ensures range { seen_size result.range ≡ scroll_range self.old.world.tree self.old.world.viewports.screen (seen_container target) }
        ensures in_force { IsInForce result.offset }
        ensures bound { IsRange result.range }
        ensures same { self.new ≡ record self.old { kept = self.new.kept } }
        ensures boxes { ComputesIn self.old.world (Some (document_of_container self.old.world.tree (seen_container target))) self.old.kept self.new.kept steps.old steps.new }
    {
        let document = document_of_container(self.laid.page(), target);
        self.laid.refresh_in(self.screen, document, steps);
        let shown = shown_in(&self.laid, &self.scrolls, self.screen, document);
        Reach {
            offset: shown.offset_of(target),
            range: shown.range_of(target),
        }
    }

    // Scrolls to a position, clamped to the range of the target.
    fn move_to(&mut self, target: Container, to: Point, range: Size) -> Result<Effect, PageFault>
        requires value { seen_size range ≡ scroll_range self.old.world.tree self.old.world.viewports.screen (seen_container target) }
        requires bound { IsRange range }
        ensures done { Keeps self.old self.new result (λ handlers. becomes (scrolled_to to.left to.top (Some (seen_container target)) self.old.world)) }
        ensures boxes { self.new.kept ≡ self.old.kept }
        ensures findings { self.new.found ≡ self.old.found }
    {
        let document = document_of_container(self.laid.page(), target);
        self.settled.clear();
        self.scrolls.scroll_to(document, target, to, range)?;
        Ok(Effect::Nothing)
    }
}

// Moves a point by a distance.
fn moved(from: Point, by: Point) -> Point
    requires from { IsInForce from }
    requires by { IsOffset by }
    ensures left { result.left ≡ from.left +ℤ by.left }
    ensures top { result.top ≡ from.top +ℤ by.top }
{
    Point {
        left: from.left + by.left,
        top: from.top + by.top,
    }
}
