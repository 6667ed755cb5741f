//! The command `read`. The boxes that are due and that a reading depends on are recomputed first, and no others.

ghost use Rattle.std.specs.Prelude.{◌≡◌, Some, length};
ghost use Rattle.script_model.specs.Syntax.{Read};
ghost use Rattle.page_model.specs.Commands.{does};
ghost use Rattle.page_model.specs.Documents.{document_of_container};
ghost use Rattle.page_model.specs.Readings.{reading_of};
ghost use Rattle.trace_text.specs.Seen.{seen_line};
ghost use Rattle.trace_text.specs.Ranges.{HasReach};
ghost use Rattle.script_syntax.specs.Seen.{operand_of};
ghost use Rattle.page_state.specs.Answers.{Keeps};
ghost use Rattle.page_state.specs.Boxes.{ComputesIn, document_meant};
ghost use Rattle.container_model.specs.Seen.{seen_container};
ghost use Rattle.page_model.specs.Names.{container_text};
ghost use Rattle.page_names.specs.Things.{present_of, IsSubject};
ghost use Rattle.page_state.specs.Labels.{IsIn};

use crate::answers::{Effect, PageFault};
use crate::page::{Page, shown_in};
use element_tree::{Container, NodeId};
use page_geometry::document_of_container;
use script_syntax::Operand;
use std::sync::ledger::Ledger;
use step_count::Steps;
use text_io::Name;
use trace_text::TraceLine;

#[tactic(auto, unfolding(page_model::specs::Commands::does), using(crate::proofs::Laid::computes_nothing))]
impl Page {
    pub(crate) fn read<L: Ledger>(
        &mut self,
        target: Operand,
        subject: Option<NodeId>,
        steps: &mut Steps<L>,
    ) -> Result<Effect, PageFault>
        requires { IsSubject (length self.old.world.tree.elements) subject }
        ensures done { Keeps self.old self.new result (λ handlers. does handlers self.old.world (present_of subject) (Read (operand_of target))) }
        ensures boxes { ComputesIn self.old.world (document_meant self.old.world (present_of subject) (operand_of target)) self.old.kept self.new.kept steps.old steps.new }
        ensures findings { self.new.found ≡ self.old.found }
    {
        let container = self.container(target, subject)?;
        Ok(Effect::Line(self.reading(container, steps)))
    }

    // Returns the line of a reading of an element or a document.
    fn reading<L: Ledger>(&mut self, container: Container, steps: &mut Steps<L>) -> TraceLine
        requires { IsIn self.old.world container }
        ensures line { seen_line result
            ≡ reading_of self.old.world.names self.old.world.tree self.old.world.viewports.screen self.old.world.scrolls (seen_container container) }
        ensures same { self.new ≡ record self.old { kept = self.new.kept } }
        ensures boxes { ComputesIn self.old.world (Some (document_of_container self.old.world.tree (seen_container container))) self.old.kept self.new.kept steps.old steps.new }
        ensures reach { HasReach (seen_line result) }
    {
        let target = self.container_name(container);
        let document = document_of_container(self.laid.page(), container);
        self.laid.refresh_in(self.screen, document, steps);
        let shown = shown_in(&self.laid, &self.scrolls, self.screen, document).read(container);
        TraceLine::Read {
            target,
            rect: shown.rect,
            scroll: shown.scroll,
        }
    }

    fn container_name(&self, container: Container) -> Name
        requires { IsIn self.now.world container }
        ensures { result ≡ container_text self.now.world.names (seen_container container) }
    {
        match container {
            Container::Element(node) => self.laid.page().name_of(node),
            Container::Document(document) => self.document_name(document),
        }
    }
}
