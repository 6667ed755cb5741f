//! The elements and documents of a page with their boxes, which are cached from one reading to the next and recomputed when
//! due.
#![tactic(auto)]

mod laid;
mod marks;

pub use laid::LaidTree;
