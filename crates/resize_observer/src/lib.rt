//! The resize observers of a page with their lists of observations (Resize Observer, 2 and 3).
#![tactic(auto)]

mod documents;
mod observation;
mod observer;
mod observers;

pub use observation::{Observation, ObserverId};
pub use observers::{ObserveFault, Observers};
