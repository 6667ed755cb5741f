//! The id of an observer, and its root.

use element_tree::{DocumentId, NodeId};

/// The id of an intersection observer: its number, from 0 in creation order.
#[derive(Clone, Copy, PartialEq, Eq, Debug)]
pub struct WatcherId(pub u32);

/// The root of an observer (Intersection Observer, 2.2: `root`).
#[derive(Clone, Copy, PartialEq, Eq, Debug)]
pub enum Root {
    /// The viewport of the top document.
    Implicit,
    /// The viewport of a document.
    Document(DocumentId),
    Node(NodeId),
}
