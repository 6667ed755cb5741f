//! Open blocks and handlers.

ghost use Rattle.std.specs.Prelude.{◌≡◌};
ghost use Rattle.script_model.specs.Reading as model;
ghost use Rattle.script_syntax.specs.Frames.{opening_of};

use crate::commands::Command;
use crate::operands::Condition;
use text_io::Name;

/// What a line opened, for an `end` to close.
#[derive(Clone, Copy)]
pub enum Opening {
    Each,
    When(Condition),
    Handler(Name),
}

impl Opening {
    /// Whether this is a block, not a handler.
    pub fn is_block(&self) -> bool
        ensures { result ≡ model.is_block (opening_of self.now) }
    {
        match self {
            Opening::Each => true,
            Opening::When(_) => true,
            Opening::Handler(_) => false,
        }
    }
}

/// An open block or handler, with the line that opened it and the commands so far.
#[derive(Drop)]
pub struct Frame {
    pub line: u32,
    pub opening: Opening,
    pub commands: Vec<Command>,
}
