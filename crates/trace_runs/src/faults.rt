//! Why a run ends early, and how it continues after a step.

use text_io::LimitKind;
use thiserror::Error;

/// Why a run ended early.
#[derive(Clone, Copy, Debug, PartialEq, Eq, Error)]
pub enum RunFault {
    /// The command that begins on this line met a limit. The trace line that says so hasn't been written yet.
    #[error("line {line}: the limit of {} is met", .kind.text())]
    Limit {
        /// Which limit it is.
        kind: LimitKind,
        /// The command's line, from 1.
        line: u32,
        /// The value of the limit in the script's version.
        number: u64,
    },
    /// Out of memory.
    #[error("out of memory")]
    Memory,
    /// A write failed.
    #[error("a write failed")]
    WriteFault,
}

/// How a run continues after a step.
#[derive(Clone, Copy, Debug, PartialEq, Eq)]
pub enum Flow {
    /// The next step follows.
    Next,
    /// An exception was thrown, and its line was written (Web IDL, invoking callback functions).
    Thrown,
}
