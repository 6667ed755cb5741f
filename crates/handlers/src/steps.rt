//! Applying a command that was begun, and writing the line of an error.

ghost use Rattle.std.specs.Prelude.{◌≡◌, true, length};
ghost use Rattle.script_syntax.specs.Allowed.{ActionAllowed};
ghost use Rattle.script_syntax.specs.Seen.{action_of};
ghost use Rattle.page_model.specs.Callbacks.{answered, handler_names, said_by};
ghost use Rattle.page_model.specs.Commands.{does};
ghost use Rattle.trace_runs.specs.Flows.{flow_of};
ghost use Rattle.trace_runs.specs.Writes.{Told};
ghost use Rattle.page_state.specs.Answers.{IsHanded, lines_of};
ghost use Rattle.page_names.specs.Things.{IsSubject};
ghost use Rattle.handlers.specs.Answers.{Refused};
ghost use Rattle.handlers.specs.Entries.{subject_of};
ghost use Rattle.handlers.specs.Runs.{handlers_of, world_of, Carries, IsHeld, StaysReady};

use crate::entries::{Subject, write_taken};
use crate::run::Run;
use page_laws::commands_read_the_target_alone;
use page_state::{Effect, Page, PageFault};
use script_syntax::Action;
use std::alloc::Global;
use std::sync::ledger::Ledger;
use text_io::{Sink, Version};
use trace_runs::{Flow, RunFault, write_one, write_throw};

// Handles the error of the command on a line: an exception is written and propagated, and the line of a limit is left to the
// top-level call. The version is that of the page.
pub(crate) fn refuse<K: Sink>(
    alloc: Global,
    line: u32,
    fault: PageFault,
    version: Version,
    sink: &mut K,
) -> Result<Flow, RunFault>
    ensures { Refused version fault line result (K.taken sink.old) (K.taken sink.new) (K.faults sink.old) (K.faults sink.new) }
{
    match fault {
        PageFault::Throw(kind) => write_throw(alloc, line, kind, sink),
        PageFault::Limit(kind) => {
            let number = kind.number(version);
            Err(RunFault::Limit { kind, line, number })
        }
        PageFault::Memory => Err(RunFault::Memory),
    }
}

// Writes the lines of a command's effect.
fn tell<K: Sink>(alloc: Global, page: &Page, effect: &Effect, sink: &mut K) -> Result<(), RunFault>
    requires { IsHanded page.now.world effect.now }
    ensures { Told result (K.taken sink.old) (K.taken sink.new) (K.faults sink.old) (K.faults sink.new) (lines_of page.now.world effect.now) }
{
    match effect {
        Effect::Nothing => Ok(()),
        Effect::Line(line) => write_one(alloc, line, sink),
        Effect::Taken(observer, entries) => write_taken(alloc, page, *observer, entries, sink),
    }
}

// Applies a command on a line that was begun, and writes its lines.
pub(crate) fn apply<K: Sink, L: Ledger>(
    run: &mut Run<K, L>,
    line: u32,
    action: &Action,
    subject: Subject,
) -> Result<Flow, RunFault>
    requires begun { run.old.page.now.begun ≡ true }
    requires allowed { ActionAllowed action.now }
    requires subject { IsSubject (length (world_of run.old).tree.elements) subject.target }
    ensures says { Carries flow_of K.taken K.faults run.old run.new result
        (answered line (world_of run.old) said_by (does (handler_names (handlers_of run.old)) (world_of run.old) (subject_of subject) (action_of action.now))) }
    ensures ready { StaysReady run.old run.new }
    ensures held { IsHeld run.old run.new }
{
    commands_read_the_target_alone();
    match run
        .page
        .apply(run.script, action, subject.target, run.steps)
    {
        Ok(effect) => match tell(run.alloc, run.page, &effect, run.sink) {
            Ok(()) => Ok(Flow::Next),
            Err(fault) => Err(fault),
        },
        Err(fault) => refuse(run.alloc, line, fault, run.page.version(), run.sink),
    }
}
