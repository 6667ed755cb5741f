//! The result of a scroll.

/// What a scroll did.
#[derive(Clone, Copy, PartialEq, Eq, Debug)]
pub enum Outcome {
    /// The offset in force changed.
    Moved,
    /// The offset in force is unchanged.
    Same,
}
