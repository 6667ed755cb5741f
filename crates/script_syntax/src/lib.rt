//! Scripts as values, parsed from the lines and words of a text.
#![tactic(auto)]

mod actions;
mod builder;
mod commands;
mod faults;
mod forms;
mod frames;
mod heads;
mod index;
mod lists;
mod operands;
mod parser;
mod script;
mod statements;
mod tables;
mod texts;
mod words;

pub use commands::{Action, Body, Command, CommandList, Handler, Item, What};
pub use faults::ParseFault;
pub use operands::{Aim, Condition, IoMaking, Operand, Test};
pub use parser::parse;
pub use script::Script;
pub use texts::{MarginText, NumberList};
