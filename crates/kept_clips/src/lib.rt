//! A cache of the clips between targets and roots, kept from update to update (Intersection Observer, 3.2.7).
//!
//! The intersection of the clips strictly between a root and a target is computed once for each pair and reused until a spot
//! on the pair's chain is touched: the caller touches each spot whose container or clip changed. Containers and clips are
//! queried from the caller (`clip_chain::Geometry`). Rectangles are in units of 1/64 CSS pixel and in the coordinates of the
//! top document's viewport.
#![tactic(auto)]

mod between;
mod clip;
mod clips;
mod laws;
mod pair;
mod sightings;
mod touches;

pub use clip::Clip;
pub use clips::Clips;
pub use laws::{a_spot_is_seen_by_itself, clips_hang_on_their_chains_alone};
pub use pair::{Computed, Pair};
pub use sightings::{Sighting, Sightings};
