//! A cache of the findings of intersection observers (Intersection Observer, 3.2.10): the finding of each registration is
//! kept until an input of it changes; it answers which registrations are stale, and recomputes one.
//!
//! Containers, clips and boxes, and the relations of targets to roots, are queried from the caller (`Scene`). Rectangles are
//! in units of 1/64 CSS pixel and in the coordinates of the top document's viewport.
#![tactic(auto)]

mod basis;
mod finding;
mod index;
mod laws;
mod scene;

pub use basis::{Basis, Sight};
pub use finding::spot_of_root;
pub use index::{Index, Kept};
pub use laws::{findings_are_those_of_any_world, what_is_not_stale_is_found_as_it_was};
pub use scene::{Scene, Standing};
