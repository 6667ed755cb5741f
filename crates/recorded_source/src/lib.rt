//! Reading of sources that have a script followed by its recorded trace, in pieces.
#![tactic(auto)]

mod recorded;

pub use recorded::{RecordedText, read_recorded};
