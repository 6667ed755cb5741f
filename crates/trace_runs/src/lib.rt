//! What a run of the definitions writes to a sink that may fail: lines, exceptions and limits, and the laws by which
//! consecutive steps make up one run.
#![tactic(auto)]

mod faults;
mod write;

pub use faults::{Flow, RunFault};
pub use write::{write_one, write_text, write_throw};
