//! Runs the items of a script on a page: a single one, all, or those up to a tick.
#![tactic(auto)]

mod items;
pub mod lent;
mod stops;

pub use items::{play, play_items, run_item};
pub use stops::play_to_tick;
