//! Parse errors.

ghost use Rattle.std.specs.Prelude.{◌≡◌};

use std::alloc::{AllocError, AllocFailed};
use text_io::LimitKind;
use thiserror::Error;

/// Why a text isn't a script: its first fault or limit in the order of its lines. Within a line, a fault of its bytes comes
/// before one of its words, and that before the limits on blocks and handlers.
#[derive(Debug, Drop, Error)]
pub enum ParseFault {
    /// A line doesn't conform to the grammar. The column is that of the first byte that isn't allowed, or of the first word that
    /// doesn't fit, or of the first surplus word, or the one after the line's last word where a word is missing. If the
    /// text ends with something open or without its first line, it is column 1 of the line after the last one.
    #[error("line {line}, column {column}: syntax error")]
    Syntax { line: u32, column: u32 },
    /// This line meets a limit: one of `Script`, `Line`, `Handlers` and `Nesting`.
    #[error("line {line}: the limit of {} is met", .kind.text())]
    ScriptLimit { kind: LimitKind, line: u32 },
    #[error("out of memory")]
    Memory,
}

impl From<AllocError> for ParseFault {
    ghost use Rattle.script_syntax.specs.declared.faults.ParseFault.TheVariants.{Memory};

    ghost from_gives = { λ _ fault. fault ≡ Memory };

    fn from(_: AllocError) -> Self {
        ParseFault::Memory
    }
}

impl<T: Drop> From<AllocFailed<T>> for ParseFault {
    ghost use Rattle.script_syntax.specs.declared.faults.ParseFault.TheVariants.{Memory};

    ghost from_gives = { λ _ fault. fault ≡ Memory };

    fn from(_: AllocFailed<T>) -> Self {
        ParseFault::Memory
    }
}

/// Why a line couldn't be parsed: the column of the first word that doesn't fit, or the one after the last word where a word
/// is missing; or running out of memory.
#[derive(Debug, Drop)]
pub(crate) enum LineFault {
    At { column: u32 },
    Memory,
}

impl From<AllocError> for LineFault {
    ghost use Rattle.script_syntax.specs.declared.faults.LineFault.TheVariants.{Memory};

    ghost from_gives = { λ _ fault. fault ≡ Memory };

    fn from(_: AllocError) -> Self {
        LineFault::Memory
    }
}

impl<T: Drop> From<AllocFailed<T>> for LineFault {
    ghost use Rattle.script_syntax.specs.declared.faults.LineFault.TheVariants.{Memory};

    ghost from_gives = { λ _ fault. fault ≡ Memory };

    fn from(_: AllocFailed<T>) -> Self {
        LineFault::Memory
    }
}
