//! Errors of splitting a stream.

use thiserror::Error;

/// Why a source isn't a stream.
#[derive(Clone, Copy, Debug, PartialEq, Eq, Error)]
pub enum StreamFault {
    /// The first line isn't a page line, or there is none.
    #[error("the first line is not a page line")]
    NoPage,
    /// There are too many pages.
    #[error("line {line}: too many pages")]
    TooManyPages {
        /// The line, from 1, that first names a page beyond the limit.
        line: u32,
    },
    /// Out of memory.
    #[error("out of memory")]
    Memory,
}
