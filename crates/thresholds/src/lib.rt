//! Root margins, thresholds and intersection ratios of intersection observers (Intersection Observer, 2.2 and 3.2).
#![tactic(auto)]

mod laws;
mod margins;
mod parts;
mod ratios;
mod thresholds;

pub use laws::{crossed_root_meets_nothing, thresholds_are_the_values_in_order};
pub use margins::Margins;
pub use ratios::{NOTHING, Ratio, ratio_of};
use thiserror::Error;
pub use thresholds::Thresholds;

/// Why margins or thresholds couldn't be created.
#[derive(Clone, Copy, Debug, PartialEq, Eq, Error)]
pub enum ThresholdFault {
    /// The text isn't a margin in the syntax of `rootMargin`.
    #[error("not a valid margin")]
    MarginSyntax,
    /// A threshold is below 0 or above 1.
    #[error("a threshold is below 0 or above 1")]
    ThresholdRange,
    /// Out of memory.
    #[error("out of memory")]
    Memory,
}
