//! Reading of the text of a script in pieces.
#![tactic(auto)]

mod faults;
mod input;

pub use faults::SourceFault;
pub use input::{ScriptText, read_script};
