//! Commands on the intersection observers of a page (Intersection Observer, 2.2).

ghost use Rattle.std.specs.Prelude.{◌≡◌, ◌<◌, ℕ, false, length, unwrap_or, []};
ghost use Rattle.script_model.specs.Scripts.{handlers_in};
ghost use Rattle.script_model.specs.MarginText.{margins_of};
ghost use Rattle.script_model.specs.Syntax.{MakeIntersectionObserver, ObserveIntersection, UnobserveIntersection, DisconnectIntersection, TakeIntersections};
ghost use Rattle.text_io.specs.declared.kinds.ThrowKind.TheVariants.{SyntaxError};
ghost use Rattle.page_model.specs.Callbacks.{handler_names};
ghost use Rattle.page_model.specs.Commands.{does};
ghost use Rattle.page_model.specs.IntersectionObserving.{without_registration};
ghost use Rattle.page_model.specs.Operands.{Present};
ghost use Rattle.page_model.specs.Steps.{required};
ghost use Rattle.script_syntax.specs.Seen.{operand_of, making_of};
ghost use Rattle.intersection_observer.specs.Places.{IsStanding};
ghost use Rattle.page_names.specs.Answers.{Finds};
ghost use Rattle.page_state.specs.Answers.{Gives, Keeps, Kept};
ghost use Rattle.page_state.specs.Faults.{unwatched};
ghost use Rattle.page_state.specs.Findings.{KeepsFindings};
ghost use Rattle.page_names.specs.Things.{present_of, IsSubject};
ghost use Rattle.page_state.specs.Watchers.{new_thresholds};

use crate::answers::{Effect, PageFault};
use crate::page::Page;
use element_tree::NodeId;
use intersection_observer::{WatchFault, WatcherId};
use page_names::{Thing, handler_given};
use script_syntax::{IoMaking, MarginText, Operand, Script};
use text_io::{LimitKind, Name, ThrowKind};
use thresholds::{Margins, ThresholdFault, Thresholds};

#[tactic(auto, unfolding(page_model::specs::Commands::does))]
impl Page {
    pub(crate) fn make_watcher(
        &mut self,
        script: &Script,
        making: &IoMaking,
        subject: Option<NodeId>,
    ) -> Result<Effect, PageFault>
        requires { IsSubject (length self.old.world.tree.elements) subject }
        ensures done { Kept self.old self.new result (does (handler_names (handlers_in script.now.items)) self.old.world (present_of subject) (MakeIntersectionObserver (making_of making.now))) }
        ensures boxes { self.new.kept ≡ self.old.kept }
        ensures findings { self.new.found ≡ self.old.found }
    {
        self.names.check_free(making.name)?;
        let document = self.document(making.document)?;
        let handler = handler_given(script, making.handler)?;
        let root = self.root(making.root, subject)?;
        let margins = margins_given(making.margin.as_slice())?;
        let scroll_margins = scroll_margins_given(&making.scroll)?;
        let thresholds = self.thresholds_given(making.thresholds.as_slice())?;
        self.names.reserve(1)?;
        self.scroll_margins.reserve(1)?;
        self.settled.clear();
        let Ok(watcher) = self
            .watchers
            .make(document, handler, root, margins, thresholds)
        else {
            return Err(PageFault::Memory);
        };
        self.names
            .insert(making.name, Thing::IntersectionObserver(watcher))?;
        self.scroll_margins.push_reserved(scroll_margins);
        Ok(Effect::Nothing)
    }

    // Builds thresholds from values, if the limit allows one more observer. `Memory` comes last.
    fn thresholds_given(&self, values: &[i64]) -> Result<Thresholds, PageFault>
        ensures { Gives result (new_thresholds self.now.world.version values.now self.now.world.intersection_observers) }
    {
        match Thresholds::new(*self.queries.allocator(), values) {
            Err(ThresholdFault::ThresholdRange | ThresholdFault::MarginSyntax) => {
                Err(PageFault::Throw(ThrowKind::RangeError))
            }
            _ if self.watchers.is_full() => {
                Err(PageFault::Limit(LimitKind::IntersectionObservers))
            }
            Err(ThresholdFault::Memory) => Err(PageFault::Memory),
            Ok(thresholds) => Ok(thresholds),
        }
    }

    pub(crate) fn register(
        &mut self,
        observer: Name,
        node: Operand,
        subject: Option<NodeId>,
    ) -> Result<Effect, PageFault>
        requires counted { self.old.world.intersection_observers.given < self.old.world.begun }
        requires flag { self.old.begun ≡ false }
        requires subject { IsSubject (length self.old.world.tree.elements) subject }
        ensures done { Keeps self.old self.new result (λ handlers. does handlers self.old.world (present_of subject) (ObserveIntersection observer (operand_of node))) }
        ensures boxes { self.new.kept ≡ self.old.kept }
        ensures findings { KeepsFindings self.old.world.intersection_observers self.new.world.intersection_observers self.old.found self.new.found }
    {
        let watcher = self.watcher(observer)?;
        let node = self.element(node, subject)?;
        let registration = match self.watchers.next_registration(watcher, node) {
            Ok(Some(registration)) => registration,
            Ok(None) => return Ok(Effect::Nothing),
            Err(fault) => return Err(refused(fault)),
        };
        let root = self.watchers.root_of(watcher);
        self.settled.clear();
        self.findings.register(registration, root, node)?;
        if let Err(fault) = self.watchers.observe(watcher, node) {
            self.findings.forget(registration);
            return Err(refused(fault));
        }
        Ok(Effect::Nothing)
    }

    pub(crate) fn unregister(
        &mut self,
        observer: Name,
        node: Operand,
        subject: Option<NodeId>,
    ) -> Result<Effect, PageFault>
        requires { IsSubject (length self.old.world.tree.elements) subject }
        ensures done { Keeps self.old self.new result (λ handlers. does handlers self.old.world (present_of subject) (UnobserveIntersection observer (operand_of node))) }
        ensures boxes { self.new.kept ≡ self.old.kept }
        ensures findings { KeepsFindings self.old.world.intersection_observers self.new.world.intersection_observers self.old.found self.new.found }
    {
        let watcher = self.watcher(observer)?;
        let node = self.element(node, subject)?;
        self.forget_target(watcher, node);
        Ok(Effect::Nothing)
    }

    pub(crate) fn unregister_all(&mut self, observer: Name) -> Result<Effect, PageFault>
        ensures done { (present : Present) → Keeps self.old self.new result (λ handlers. does handlers self.old.world present (DisconnectIntersection observer)) }
        ensures boxes { self.new.kept ≡ self.old.kept }
        ensures findings { KeepsFindings self.old.world.intersection_observers self.new.world.intersection_observers self.old.found self.new.found }
    {
        let watcher = self.watcher(observer)?;
        // From last to first, so that none has to be shifted.
        while let Some(target) = self.watchers.last_target(watcher) {
            self.forget_target(watcher, target);
        }
        Ok(Effect::Nothing)
    }

    // Removes the registration of a target, if there is one, with its cached finding.
    fn forget_target(&mut self, watcher: WatcherId, target: NodeId)
        requires { watcher.0 < length self.old.world.intersection_observers.made }
        ensures unobserved { self.new ≡ record self.old {
          world = record (self.old.world) { intersection_observers = without_registration watcher.0 target.0 (self.old.world.intersection_observers) };
          found = self.new.found;
        } }
        ensures findings { KeepsFindings self.old.world.intersection_observers self.new.world.intersection_observers self.old.found self.new.found }
        ensures count { length self.new.world.intersection_observers.made ≡ length self.old.world.intersection_observers.made }
        ensures fewer { (serial : ℕ) → IsStanding serial self.new.world.intersection_observers → IsStanding serial self.old.world.intersection_observers }
    {
        // Yields that serial numbers identify registrations.
        self.watchers.registrations(watcher);
        let Some(taken) = self.watchers.unobserve(watcher, target) else {
            return;
        };
        self.settled.clear();
        self.findings.forget(taken);
    }

    pub(crate) fn take_entries(&mut self, observer: Name) -> Result<Effect, PageFault>
        ensures done { (present : Present) → Keeps self.old self.new result (λ handlers. does handlers self.old.world present (TakeIntersections observer)) }
        ensures boxes { self.new.kept ≡ self.old.kept }
        ensures findings { self.new.found ≡ self.old.found }
    {
        let watcher = self.watcher(observer)?;
        self.settled.clear();
        Ok(Effect::Taken(watcher, self.watchers.take_records(watcher)))
    }
}

// Maps the error of a registration.
fn refused(fault: WatchFault) -> PageFault
    ensures { result ≡ unwatched fault }
{
    match fault {
        WatchFault::Limit => PageFault::Limit(LimitKind::IntersectionObservations),
        WatchFault::Memory => PageFault::Memory,
    }
}

// Parses root margins.
fn margins_given(text: &[u8]) -> Result<Margins, ThrowKind>
    ensures { Finds (λ margins. margins) result (required SyntaxError (margins_of text.now)) }
{
    match Margins::parse(text) {
        Ok(margins) => Ok(margins),
        Err(_) => Err(ThrowKind::SyntaxError),
    }
}

// Parses scroll margins, 0px on each side if there are none.
fn scroll_margins_given(text: &Option<MarginText>) -> Result<Margins, ThrowKind>
    ensures { Finds (λ margins. margins) result (required SyntaxError (margins_of (unwrap_or text.now []))) }
{
    match text {
        Some(text) => margins_given(text.as_slice()),
        None => margins_given(b""),
    }
}
