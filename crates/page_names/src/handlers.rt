//! Handlers by their names.

ghost use Rattle.page_model.specs.Operands.{handler_named, handler_given};
ghost use Rattle.page_model.specs.Callbacks.{handler_names};
ghost use Rattle.script_model.specs.Scripts.{handlers_in};
ghost use Rattle.event_tables.specs.declared.events.HandlerId.{HandlerId};
ghost use Rattle.page_names.specs.Answers.{Finds};

use event_tables::HandlerId;
use script_syntax::Script;
use text_io::{Name, ThrowKind};

/// Returns the handler with this name: a `ReferenceError` if there is none.
pub fn handler_named(script: &Script, name: Name) -> Result<HandlerId, ThrowKind>
    ensures { Finds (λ (handler : HandlerId). handler.0) result (handler_named (handler_names (handlers_in script.now.items)) name) }
{
    match script.handler_named(name) {
        Some(number) => Ok(HandlerId(number)),
        None => Err(ThrowKind::ReferenceError),
    }
}

/// Returns an observer's handler, if one is named; the same exception.
pub fn handler_given(script: &Script, name: Option<Name>) -> Result<Option<u32>, ThrowKind>
    ensures { Finds (λ handler. handler) result (handler_given (handler_names (handlers_in script.now.items)) name) }
{
    let Some(name) = name else {
        return Ok(None);
    };
    match handler_named(script, name) {
        Ok(handler) => Ok(Some(handler.0)),
        Err(kind) => Err(kind),
    }
}
