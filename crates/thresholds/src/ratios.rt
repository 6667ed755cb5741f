ghost use Rattle.std.specs.Prelude.{◌≡◌, ◌≤◌, ◌^◌, ◌≤ℤ◌, ◌-ℤ◌, pos, IfSome, unwrap_or, option_map};
ghost use Rattle.px_units.specs.Rects.{area};
ghost use Rattle.page_model.specs.Findings.{all_or_nothing, ratio_of};
ghost use Rattle.thresholds.specs.Areas.{LiesIn};

use px_units::{Rect, area};

/// An intersection ratio: the area of the visible part of a target, and the area of the whole, both in square units of 1/64
/// CSS pixel (Intersection Observer, 2.2.2: `intersectionRatio`). The part is at most the whole, and the whole lies between 1
/// and 2^80.
#[derive(Clone, Copy, Debug, PartialEq, Eq)]
pub struct Ratio {
    pub part: u128,
    pub whole: u128,
    pub ghost within: { part ≤ whole },
    pub ghost some: { 1 ≤ whole },
    pub ghost bound: { whole ≤ 2 ^ 80 },
}

/// The ratio of a target without area that isn't visible, and of one without a box.
pub const NOTHING: Ratio = Ratio { part: 0, whole: 1 };

const ALL: Ratio = Ratio { part: 1, whole: 1 };

/// Returns the visible area, 0 if nothing is visible.
fn area_seen(cut: Option<Rect>) -> u128
    ensures { result ≡ unwrap_or (option_map area cut) 0 }
{
    match cut {
        Some(part) => area(part),
        None => 0,
    }
}

fn all_or_nothing(is_seen: bool) -> Ratio
    ensures { record { part = result.part; whole = result.whole } ≡ all_or_nothing is_seen }
{
    if is_seen { ALL } else { NOTHING }
}

/// Returns the intersection ratio of a target (Intersection Observer, 3.2.10: the ratio of the area of the intersection to
/// that of the target): `bounds` is its box, `cut` the visible part of it, in units of 1/64 CSS pixel. The ratio of a box
/// without area is 1 if there is a visible part, otherwise 0.
///
/// No side of the box is longer than 2^40, and `cut` lies within it.
pub fn ratio_of(bounds: Rect, cut: Option<Rect>) -> Ratio
    requires width { (bounds.right -ℤ bounds.left) ≤ℤ pos (2 ^ 40) }
    requires height { (bounds.bottom -ℤ bounds.top) ≤ℤ pos (2 ^ 40) }
    requires inside { IfSome cut (LiesIn bounds) }
    ensures { record { part = result.part; whole = result.whole } ≡ ratio_of bounds cut }
{
    let whole = area(bounds);
    if whole == 0 {
        return all_or_nothing(cut.is_some());
    }
    Ratio {
        part: area_seen(cut),
        whole,
    }
}
