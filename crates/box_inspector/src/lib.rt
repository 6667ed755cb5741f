//! Lists the boxes of a page, with the place and the visible part of each, and formats them as text (CSSOM View, 6:
//! `getBoundingClientRect`; Intersection Observer, 3.2.7).
//!
//! Rectangles are in units of 1/64 CSS pixel and in the viewport of the element's document.
#![tactic(auto)]

mod boxed;
mod lines;
mod pages;
mod seen;
mod text;

pub use boxed::elements;
pub use lines::BoxLine;
pub use pages::inspect;
pub use text::write_box;
