//! What is cached for the registrations of intersection observers from update to update (Intersection Observer, 3.2.7 and
//! 3.2.10): the last known state of each spot, the clips between targets and roots, and the finding of each registration with
//! its inputs.
//!
//! Containers, clips and boxes, and the relations of targets to roots, are queried from the caller
//! (`candidate_index::Scene`). Rectangles are in units of 1/64 CSS pixel and in the coordinates of the top document's
//! viewport.
#![tactic(auto)]

mod findings;
mod laws;
mod looking;
mod looks;
mod seen_scene;
mod settling;

pub use findings::KeptFindings;
pub use laws::{
    clips_that_are_asked_for_take_steps_once, registrations_stay_registered, room_stays,
    settling_the_stale_ones_settles_all,
};
pub use looks::Looks;
pub use settling::Tells;
