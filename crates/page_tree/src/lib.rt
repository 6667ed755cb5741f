//! The elements and documents of a page: their trees, styles and kinds, and the commands that change them. Every contract is
//! in terms of the definitions' elements and documents.
#![tactic(auto)]

mod element;
mod faults;
mod page;
mod readings;
mod standing;

pub use element::Element;
pub use faults::{MakeFault, PlaceFault};
pub use page::PageTree;
