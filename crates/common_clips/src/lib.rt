//! The visible parts of many elements within one root (Intersection Observer, 3.2.7): what the clips between an element and the root
//! leave is computed once, however many elements it holds.
//!
//! Containers, clips and boxes are queried from the caller (`clip_chain::Geometry`). Rectangles are in units of 1/64 CSS pixel and in
//! the coordinates of the top document's viewport.
#![tactic(auto)]

mod common;

pub use common::{CommonClips, visible_rect};
