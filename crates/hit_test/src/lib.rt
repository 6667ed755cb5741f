//! Hit testing: the elements hit by a point of the top document's viewport, topmost first (CSSOM View, 5:
//! `elementsFromPoint`), and the order in which elements are painted (CSS 2.2, appendix E).
//!
//! Points and rectangles are in units of 1/64 CSS pixel and in the coordinates of the top document's viewport.
#![tactic(auto)]

mod among;
mod pages;
mod painting;
mod points;

pub use pages::hits;
pub use painting::paint_order;
pub use points::shows_at;
