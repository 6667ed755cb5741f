//! Laws on the depth of a page: of trees of elements, and of nested frames.
#![tactic(auto)]

mod frames;
mod levels;
mod runs;

pub use frames::{containers_are_never_cut_off, frames_are_never_cut_off};
pub use levels::{insertions_stay_low, levels_are_never_cut_off};
pub use runs::{paths_of_runs_are_whole, trees_are_kept};
