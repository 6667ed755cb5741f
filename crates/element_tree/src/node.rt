//! Node ids, and what the tree stores per node.

/// Identifies a node by its number in its tree, from 0 in creation order. A number is never reused.
#[derive(Clone, Copy, PartialEq, Eq, Debug)]
pub struct NodeId(pub u32);

// A node's links: `first` and `last` are its children, `next` and `previous` its siblings.
#[derive(Clone, Copy)]
pub(crate) struct Links {
    pub(crate) parent: Option<NodeId>,
    pub(crate) first: Option<NodeId>,
    pub(crate) last: Option<NodeId>,
    pub(crate) next: Option<NodeId>,
    pub(crate) previous: Option<NodeId>,
}

#[derive(Drop)]
pub(crate) struct Entry<P> {
    pub(crate) payload: P,
    pub(crate) links: Links,
}
