//! Summaries of traces: a trace is collected in memory, its lines are read back, and the lines of each kind are counted.
#![tactic(auto)]

mod laws;
mod summary;

pub use laws::{a_text_has_one_trace, rows_are_the_summary};
pub use summary::Summary;
