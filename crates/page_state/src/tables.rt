//! Commands on the event tables of a page (DOM, 2.7; HTML, timers, animation frames and tasks).

ghost use Rattle.std.specs.Prelude.{◌≡◌, ◌<◌, false, length};
ghost use Rattle.script_model.specs.Scripts.{handlers_in};
ghost use Rattle.script_model.specs.Syntax.{Listen, Unlisten, RequestFrame, CancelFrame, SetTimer, ClearTimer, Post};
ghost use Rattle.page_model.specs.Callbacks.{handler_names};
ghost use Rattle.page_model.specs.Commands.{does};
ghost use Rattle.page_model.specs.Operands.{Present};
ghost use Rattle.script_syntax.specs.Allowed.{IsTime};
ghost use Rattle.script_syntax.specs.Seen.{aim_of};
ghost use Rattle.page_state.specs.Answers.{Keeps, Kept};
ghost use Rattle.page_state.specs.Faults.{untabled};
ghost use Rattle.page_names.specs.Things.{present_of, IsSubject};

use crate::answers::{Effect, PageFault};
use crate::page::Page;
use element_tree::NodeId;
use event_tables::{TableFault, Task};
use page_names::handler_named;
use script_syntax::{Aim, Script};
use text_io::{EventKind, LimitKind, Name, ThrowKind};

#[tactic(auto, unfolding(page_model::specs::Commands::does))]
impl Page {
    pub(crate) fn listen(
        &mut self,
        script: &Script,
        aim: Aim,
        event: EventKind,
        handler: Name,
        subject: Option<NodeId>,
    ) -> Result<Effect, PageFault>
        requires counted { self.old.world.listeners.given < self.old.world.begun }
        requires flag { self.old.begun ≡ false }
        requires subject { IsSubject (length self.old.world.tree.elements) subject }
        ensures done { Kept self.old self.new result (does (handler_names (handlers_in script.now.items)) self.old.world (present_of subject) (Listen (aim_of aim) event handler)) }
        ensures boxes { self.new.kept ≡ self.old.kept }
        ensures findings { self.new.found ≡ self.old.found }
    {
        let target = self.event_target(aim, subject)?;
        let handler = handler_named(script, handler)?;
        match self.listeners.add(target, event, handler) {
            Ok(_) => Ok(Effect::Nothing),
            Err(fault) => Err(refused(fault, LimitKind::Listeners)),
        }
    }

    pub(crate) fn unlisten(
        &mut self,
        script: &Script,
        aim: Aim,
        event: EventKind,
        handler: Name,
        subject: Option<NodeId>,
    ) -> Result<Effect, PageFault>
        requires { IsSubject (length self.old.world.tree.elements) subject }
        ensures done { Kept self.old self.new result (does (handler_names (handlers_in script.now.items)) self.old.world (present_of subject) (Unlisten (aim_of aim) event handler)) }
        ensures boxes { self.new.kept ≡ self.old.kept }
        ensures findings { self.new.found ≡ self.old.found }
    {
        let target = self.event_target(aim, subject)?;
        let handler = handler_named(script, handler)?;
        self.listeners.remove(target, event, handler);
        Ok(Effect::Nothing)
    }

    pub(crate) fn request_frame(
        &mut self,
        script: &Script,
        document: Name,
        key: Name,
        handler: Name,
    ) -> Result<Effect, PageFault>
        requires counted { self.old.world.frame_callbacks.given < self.old.world.begun }
        requires flag { self.old.begun ≡ false }
        ensures done { (present : Present) → Kept self.old self.new result (does (handler_names (handlers_in script.now.items)) self.old.world present (RequestFrame document key handler)) }
        ensures boxes { self.new.kept ≡ self.old.kept }
        ensures findings { self.new.found ≡ self.old.found }
    {
        let document = self.document(document)?;
        let handler = handler_named(script, handler)?;
        match self.frame_callbacks.request(document, key, handler) {
            Ok(()) => Ok(Effect::Nothing),
            Err(fault) => Err(refused(fault, LimitKind::FrameCallbacks)),
        }
    }

    pub(crate) fn cancel_frame(&mut self, document: Name, key: Name) -> Result<Effect, PageFault>
        ensures done { (present : Present) → Keeps self.old self.new result (λ handlers. does handlers self.old.world present (CancelFrame document key)) }
        ensures boxes { self.new.kept ≡ self.old.kept }
        ensures findings { self.new.found ≡ self.old.found }
    {
        let document = self.document(document)?;
        self.frame_callbacks.cancel(document, key);
        Ok(Effect::Nothing)
    }

    // A delay and the clock are at most 1,000,000,000,000 each.
    pub(crate) fn set_timer(
        &mut self,
        script: &Script,
        document: Name,
        key: Name,
        delay: u64,
        handler: Name,
    ) -> Result<Effect, PageFault>
        requires counted { self.old.world.timers.given < self.old.world.begun }
        requires flag { self.old.begun ≡ false }
        requires delay { IsTime delay }
        ensures done { (present : Present) → Kept self.old self.new result (does (handler_names (handlers_in script.now.items)) self.old.world present (SetTimer document key delay handler)) }
        ensures boxes { self.new.kept ≡ self.old.kept }
        ensures findings { self.new.found ≡ self.old.found }
    {
        let document = self.document(document)?;
        let handler = handler_named(script, handler)?;
        match self.timers.add(document, key, self.clock + delay, handler) {
            Ok(()) => Ok(Effect::Nothing),
            Err(fault) => Err(refused(fault, LimitKind::Timers)),
        }
    }

    pub(crate) fn clear_timer(&mut self, document: Name, key: Name) -> Result<Effect, PageFault>
        ensures done { (present : Present) → Keeps self.old self.new result (λ handlers. does handlers self.old.world present (ClearTimer document key)) }
        ensures boxes { self.new.kept ≡ self.old.kept }
        ensures findings { self.new.found ≡ self.old.found }
    {
        let document = self.document(document)?;
        self.timers.clear(document, key);
        Ok(Effect::Nothing)
    }

    pub(crate) fn post(
        &mut self,
        script: &Script,
        document: Name,
        handler: Name,
    ) -> Result<Effect, PageFault>
        ensures done { (present : Present) → Kept self.old self.new result (does (handler_names (handlers_in script.now.items)) self.old.world present (Post document handler)) }
        ensures boxes { self.new.kept ≡ self.old.kept }
        ensures findings { self.new.found ≡ self.old.found }
    {
        let document = self.document(document)?;
        let handler = handler_named(script, handler)?;
        match self.tasks.push(Task::Posted(document, handler)) {
            Ok(()) => Ok(Effect::Nothing),
            Err(fault) => Err(refused(fault, LimitKind::Tasks)),
        }
    }
}

// Maps the error of a table: a key in use throws.
fn refused(fault: TableFault, limit: LimitKind) -> PageFault
    ensures { result ≡ untabled limit fault }
{
    match fault {
        TableFault::Taken => PageFault::Throw(ThrowKind::TypeError),
        TableFault::Limit => PageFault::Limit(limit),
        TableFault::Memory => PageFault::Memory,
    }
}
