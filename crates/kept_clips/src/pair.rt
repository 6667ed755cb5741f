//! The cached state of a pair of spots.

use crate::Clip;
use element_tree::Container;

/// A root, a spot below it, and the clip between the two once it was computed.
#[derive(Clone, Copy, Debug, PartialEq, Eq)]
pub struct Pair {
    pub root: Container,
    pub of: Container,
    pub computed: Option<Computed>,
}

/// A clip, and the touch count when it was computed.
#[derive(Clone, Copy, Debug, PartialEq, Eq)]
pub struct Computed {
    pub clip: Clip,
    pub touches: u64,
}
