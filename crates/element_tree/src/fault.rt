//! Errors of the tree's calls.

use thiserror::Error;

/// Why a call fails. A call that fails changes no node.
#[derive(Debug, Drop, Error)]
pub enum TreeFault {
    /// The node is an inclusive ancestor of the parent that it was to be inserted into.
    #[error("the node is an inclusive ancestor of the parent")]
    Hierarchy,
    /// The named sibling isn't a child of the parent.
    #[error("the sibling is not a child of the parent")]
    NotAChild,
    /// The maximum number of nodes has already been added.
    #[error("the maximum number of nodes has been added")]
    NodeLimit,
    /// Below the parent, the node's subtree would exceed the maximum depth.
    #[error("the subtree would exceed the maximum depth")]
    DepthLimit,
    /// Out of memory.
    #[error("out of memory")]
    Memory,
}
