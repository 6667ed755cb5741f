//! The printed text of a script, which reads as the same script: the definitions are in `specs/`, their laws and worked
//! examples here.
#![tactic(auto)]

pub mod laws;
pub mod rows;
