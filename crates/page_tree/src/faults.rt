//! The errors of a page's tree.

use text_io::{LimitKind, ThrowKind};
use thiserror::Error;

/// Why a node wasn't inserted. Nothing is changed then.
#[derive(Debug, Drop, Error)]
pub enum PlaceFault {
    /// DOM's pre-insertion validity rejects it; the exception is thrown.
    #[error("{} is thrown", .0.text())]
    Throw(ThrowKind),
    /// It would be too deep in the tree.
    #[error("the limit of {} is met", .0.text())]
    Limit(LimitKind),
}

/// Why no element, or no frame with its document, was created. Nothing is changed then, except that capacity may have been
/// reserved.
#[derive(Debug, Drop, Error)]
pub enum MakeFault {
    /// The page has its maximum number of elements or documents.
    #[error("the limit of {} is met", .0.text())]
    Limit(LimitKind),
    /// Out of memory.
    #[error("out of memory")]
    Memory,
}
