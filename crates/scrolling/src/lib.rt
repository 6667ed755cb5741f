//! Scrolling: stored positions, the offset in force, scrolling to a position, and the lists of targets whose scroll events
//! are pending (CSSOM View, 4 to 6 and 13). All lengths are in units of 1/64 CSS pixel.
#![tactic(auto)]

mod laws;
mod outcome;
mod pending;
mod positions;
mod scrolls;

pub use laws::a_scroll_comes_to_its_position;
pub use outcome::Outcome;
pub use scrolls::Scrolls;
