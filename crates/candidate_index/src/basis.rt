//! The inputs of a finding.

ghost use Rattle.std.specs.Prelude.{◌≡◌};
ghost use Rattle.candidate_index.specs.Bases.{is_same_rect, is_same_clip, is_same_sight, is_same_basis};

use kept_clips::Clip;
use px_units::Rect;

/// How the target relates to the root, and, if the chain leads to the root, the target's box and the intersection of the
/// clips strictly between.
#[derive(Clone, Copy, Debug, PartialEq, Eq)]
pub enum Sight {
    Apart,
    NoBox,
    Chained { bounds: Rect, clip: Clip },
}

/// All inputs of a finding except the thresholds, which never change.
#[derive(Clone, Copy, Debug, PartialEq, Eq)]
pub struct Basis {
    /// The root rectangle with the root margins applied.
    pub limits: Rect,
    pub sight: Sight,
}

fn is_same_rect(one: Rect, other: Rect) -> bool
    ensures { result ≡ is_same_rect one other }
{
    one.left == other.left
        && one.top == other.top
        && one.right == other.right
        && one.bottom == other.bottom
}

fn is_same_clip(one: Clip, other: Clip) -> bool
    ensures { result ≡ is_same_clip one other }
{
    match (one, other) {
        (Clip::Whole, Clip::Whole) | (Clip::Nothing, Clip::Nothing) => true,
        (Clip::Cut(part), Clip::Cut(other_part)) => is_same_rect(part, other_part),
        _ => false,
    }
}

fn is_same_sight(one: Sight, other: Sight) -> bool
    ensures { result ≡ is_same_sight one other }
{
    match (one, other) {
        (Sight::Apart, Sight::Apart) | (Sight::NoBox, Sight::NoBox) => true,
        (
            Sight::Chained { bounds, clip },
            Sight::Chained {
                bounds: other_bounds,
                clip: other_clip,
            },
        ) => is_same_rect(bounds, other_bounds) && is_same_clip(clip, other_clip),
        _ => false,
    }
}

impl Basis {
    // Whether another basis gives the same finding.
    pub(crate) fn is_same(&self, other: &Basis) -> bool
        ensures { result ≡ is_same_basis self.now other.now }
    {
        is_same_rect(self.limits, other.limits) && is_same_sight(self.sight, other.sight)
    }
}
