//! The languages of scripts and traces: the definitions are in `specs/`, their laws and worked examples here.
#![tactic(auto)]

pub mod laws;
pub mod rows;
pub mod texts;
