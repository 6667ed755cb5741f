//! Commands on the resize observers of a page (Resize Observer, 2).

ghost use Rattle.std.specs.Prelude.{◌≡◌, ◌<◌, false, length};
ghost use Rattle.script_model.specs.Scripts.{handlers_in};
ghost use Rattle.script_model.specs.Syntax.{MakeResizeObserver, ObserveResize, UnobserveResize, DisconnectResize};
ghost use Rattle.page_model.specs.Callbacks.{handler_names};
ghost use Rattle.page_model.specs.Commands.{does};
ghost use Rattle.page_model.specs.Operands.{Present};
ghost use Rattle.script_syntax.specs.Seen.{operand_of};
ghost use Rattle.page_state.specs.Answers.{Keeps, Kept};
ghost use Rattle.page_names.specs.Things.{present_of, IsSubject};

use crate::answers::{Effect, PageFault};
use crate::page::Page;
use element_tree::NodeId;
use page_names::{Thing, handler_given};
use px_units::BoxKind;
use resize_observer::ObserveFault;
use script_syntax::{Operand, Script};
use text_io::{LimitKind, Name};

#[tactic(auto, unfolding(page_model::specs::Commands::does))]
impl Page {
    pub(crate) fn make_observer(
        &mut self,
        script: &Script,
        name: Name,
        document: Name,
        handler: Option<Name>,
    ) -> Result<Effect, PageFault>
        ensures done { (present : Present) → Kept self.old self.new result (does (handler_names (handlers_in script.now.items)) self.old.world present (MakeResizeObserver name document handler)) }
        ensures boxes { self.new.kept ≡ self.old.kept }
        ensures findings { self.new.found ≡ self.old.found }
    {
        self.names.check_free(name)?;
        let document = self.document(document)?;
        let handler = handler_given(script, handler)?;
        if self.observers.is_full() {
            return Err(PageFault::Limit(LimitKind::ResizeObservers));
        }
        self.names.reserve(1)?;
        let observer = match self.observers.make(document, handler) {
            Ok(observer) => observer,
            Err(ObserveFault::Limit) => return Err(PageFault::Limit(LimitKind::ResizeObservers)),
            Err(ObserveFault::Memory) => return Err(PageFault::Memory),
        };
        self.names.insert(name, Thing::ResizeObserver(observer))?;
        Ok(Effect::Nothing)
    }

    pub(crate) fn observe(
        &mut self,
        observer: Name,
        node: Operand,
        observed: BoxKind,
        subject: Option<NodeId>,
    ) -> Result<Effect, PageFault>
        requires counted { self.old.world.resize_observers.given < self.old.world.begun }
        requires flag { self.old.begun ≡ false }
        requires subject { IsSubject (length self.old.world.tree.elements) subject }
        ensures done { Keeps self.old self.new result (λ handlers. does handlers self.old.world (present_of subject) (ObserveResize observer (operand_of node) observed)) }
        ensures boxes { self.new.kept ≡ self.old.kept }
        ensures findings { self.new.found ≡ self.old.found }
    {
        let observer = self.observer(observer)?;
        let node = self.element(node, subject)?;
        match self.observers.observe(observer, node, observed) {
            Ok(()) => {}
            Err(ObserveFault::Limit) => {
                return Err(PageFault::Limit(LimitKind::ResizeObservations));
            }
            Err(ObserveFault::Memory) => return Err(PageFault::Memory),
        }
        Ok(Effect::Nothing)
    }

    pub(crate) fn unobserve(
        &mut self,
        observer: Name,
        node: Operand,
        subject: Option<NodeId>,
    ) -> Result<Effect, PageFault>
        requires { IsSubject (length self.old.world.tree.elements) subject }
        ensures done { Keeps self.old self.new result (λ handlers. does handlers self.old.world (present_of subject) (UnobserveResize observer (operand_of node))) }
        ensures boxes { self.new.kept ≡ self.old.kept }
        ensures findings { self.new.found ≡ self.old.found }
    {
        let observer = self.observer(observer)?;
        let node = self.element(node, subject)?;
        self.observers.unobserve(observer, node);
        Ok(Effect::Nothing)
    }

    pub(crate) fn disconnect(&mut self, observer: Name) -> Result<Effect, PageFault>
        ensures done { (present : Present) → Keeps self.old self.new result (λ handlers. does handlers self.old.world present (DisconnectResize observer)) }
        ensures boxes { self.new.kept ≡ self.old.kept }
        ensures findings { self.new.found ≡ self.old.found }
    {
        let observer = self.observer(observer)?;
        self.observers.disconnect(observer);
        Ok(Effect::Nothing)
    }
}
