//! The intersection of several clips.

ghost use Rattle.std.specs.Prelude.{◌≡◌};
ghost use Rattle.kept_clips.specs.Clips.{clipped, clipped_if};

use px_units::{Rect, meet};

/// The intersection of clips, edges included.
#[derive(Clone, Copy, Debug, PartialEq, Eq)]
pub enum Clip {
    /// There are no clips: all points.
    Whole,
    /// The points that all of them have in common.
    Cut(Rect),
    /// No point is common to all of them.
    Nothing,
}

// Intersects a rectangle with a further one.
fn cut(common: Rect, by: Rect) -> Clip
    ensures { result ≡ clipped (Clip.Cut common) by }
{
    match meet(common, by) {
        Some(part) => Clip::Cut(part),
        None => Clip::Nothing,
    }
}

impl Clip {
    // Intersects with a further clip, if there is one.
    pub(crate) fn clipped(self, by: Option<Rect>) -> Clip
        ensures { result ≡ clipped_if self by }
    {
        match (self, by) {
            (Clip::Whole, Some(first)) => cut(first, first),
            (Clip::Cut(common), Some(next)) => cut(common, next),
            (Clip::Nothing, Some(_)) | (_, None) => self,
        }
    }
}
