//! Performs a job on one script, on a page of its own if it needs one, and writes the result.
#![tactic(auto)]

mod drop_sink;
mod report;
mod script;
mod sights;
mod summary;

pub use report::Report;
pub use script::{perform, perform_on_text};
