//! An ordered tree with the DOM's insertion rules.
#![tactic(auto)]

mod container;
mod document;
mod fault;
mod links;
mod node;
mod tree;

pub use container::Container;
pub use document::DocumentId;
pub use fault::TreeFault;
pub use node::NodeId;
pub use tree::Tree;
