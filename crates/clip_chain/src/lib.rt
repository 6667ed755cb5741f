//! The geometry between a target and a root: the chain of containers from an element outwards, whether it reaches the root,
//! the root rectangle, and what the clips along the chain leave of the target (Intersection Observer, 2.2 and 3.2.7).
//!
//! Containers, clips and boxes are queried from the caller when needed, so nothing is cached here, and nothing allocates.
//! Rectangles are in units of 1/64 CSS pixel and in the coordinates of the top document's viewport.
#![tactic(auto)]

mod chains;
mod geometry;
mod laws;
mod through;

pub use chains::{container_below, reaches, root_rect, visible_rect};
pub use geometry::{Geometry, Scrolls};
pub use laws::{
    a_chain_goes_from_container_to_container, a_chain_is_the_only_one,
    chains_are_those_of_any_world, chains_with_scroll_margins_are_those_of_any_world,
};
pub use through::Through;
