//! The lines of a trace as values: a sink that reads each line as it is written, and keeps it.
#![tactic(auto)]

mod laws;
mod reading;
mod sink;

pub use laws::what_is_said_is_kept;
pub use sink::LineSink;
