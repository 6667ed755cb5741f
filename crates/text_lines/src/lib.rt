//! A text taken apart line by line, and bytes collected in memory.
#![tactic(auto)]

mod gather;
mod lines;

pub use gather::GatherSink;
pub use lines::split_line;
