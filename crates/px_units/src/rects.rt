ghost use Rattle.std.specs.Prelude.{◌≡◌};
ghost use Rattle.px_units.specs.Rects.{has_points, overlap, meeting, shifted, area, InReach, RectInReach};

use crate::Rect;

/// Returns the greater left and top and the lesser right and bottom edges.
fn overlap(a: Rect, b: Rect) -> Rect
    ensures { result ≡ overlap a b }
{
    Rect {
        left: a.left.max(b.left),
        top: a.top.max(b.top),
        right: a.right.min(b.right),
        bottom: a.bottom.min(b.bottom),
    }
}

/// Whether the rectangle has a point, edges included: it is inverted on neither axis.
fn has_points(a: Rect) -> bool
    ensures { result ≡ has_points a }
{
    a.left <= a.right && a.top <= a.bottom
}

/// Returns the intersection of two rectangles, edges included, so that rectangles that merely touch have one. Returns
/// `None` exactly where they share no point.
pub fn meet(a: Rect, b: Rect) -> Option<Rect>
    ensures { result ≡ meeting a b }
{
    let common = overlap(a, b);
    if has_points(common) {
        Some(common)
    } else {
        None
    }
}

/// Returns the rectangle translated right by `left` and down by `top`. Edges and distances must be within ±2^50 units.
pub fn shift(a: Rect, left: i64, top: i64) -> Rect
    requires rect { RectInReach a }
    requires left { InReach left }
    requires top { InReach top }
    ensures { result ≡ shifted a left top }
{
    Rect {
        left: a.left + left,
        top: a.top + top,
        right: a.right + left,
        bottom: a.bottom + top,
    }
}

/// Returns the area in square units, 0 if the rectangle is inverted on either axis.
pub fn area(a: Rect) -> u128
    ensures { result ≡ area a }
{
    if !has_points(a) {
        return 0;
    }
    u128::from(a.right.abs_diff(a.left)) * u128::from(a.bottom.abs_diff(a.top))
}
