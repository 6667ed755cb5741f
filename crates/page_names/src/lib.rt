//! The names of a page's objects, looked up in both directions, and handlers by their names. A name refers to the same object
//! forever.
#![tactic(auto)]

mod handlers;
mod names;
mod thing;

pub use handlers::{handler_given, handler_named};
pub use names::Names;
pub use thing::Thing;
