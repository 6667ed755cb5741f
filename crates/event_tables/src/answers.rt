//! The errors of the tables.

use thiserror::Error;

/// Why a call failed. A call that fails changes nothing.
#[derive(Clone, Copy, Debug, PartialEq, Eq, Error)]
pub enum TableFault {
    /// The key is already in use in the document.
    #[error("the key is already in use in the document")]
    Taken,
    /// The maximum number is already present.
    #[error("the maximum number is already present")]
    Limit,
    /// Out of memory.
    #[error("out of memory")]
    Memory,
}
