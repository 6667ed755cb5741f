//! Why the text of a script couldn't be read.

use thiserror::Error;

/// Why the text of a script couldn't be read from a source.
#[derive(Clone, Copy, Debug, PartialEq, Eq, Error)]
pub enum SourceFault {
    /// A read failed.
    #[error("a read failed")]
    ReadFault,
    /// Out of memory.
    #[error("out of memory")]
    Memory,
}
