//! The state of a page, and its commands: its names, the tree of its elements and its documents, its scroll positions,
//! observers of both kinds, query lists and event tables, and its boxes. A contract sees a page as the world of the definitions. Lengths are in units of 1/64 CSS pixel.
#![tactic(auto)]

mod answers;
mod by_document;
mod callbacks;
mod commands;
mod conditions;
mod dropping;
mod first;
mod intersections;
mod labels;
mod listing;
mod lookups;
mod page;
mod queries;
mod readings;
mod resize;
mod rounds;
mod scrolls;
mod settled;
mod tables;
mod ticks;

pub use answers::{Effect, PageFault};
pub use labels::Label;
pub use page::Page;
pub use queries::Change;
