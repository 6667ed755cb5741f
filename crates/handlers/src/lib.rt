//! Callbacks of a page: commands with their blocks, and handlers with their entries (WebIDL, invoking callbacks). Trace lines
//! are written as they are produced.
#![tactic(auto)]

mod commands;
mod entries;
mod handler;
mod run;
mod steps;

pub use commands::run_command;
pub use entries::Entries;
pub use handler::run_handler;
pub use run::Run;
