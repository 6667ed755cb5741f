//! The insets of positioned boxes along an axis (CSS 2.2, 9.4.3, 10.3.7 and 10.6.4; CSS Positioned Layout 3, 3.1 and 3.3).

ghost use Rattle.std.specs.Prelude.{◌≡◌, ℤ, pos, ◌+ℤ◌, ◌≤ℤ◌, option_map, unwrap_or, unsigned_abs, IfSome};
ghost use Rattle.px_units.specs.Lengths.{inset_against, clamped, seen_length, seen_inset};
ghost use Rattle.layout_model.specs.Boxes.{used_side};
ghost use Rattle.layout_model.specs.FlatPlaces.{shift_by, placed_along};
ghost use Rattle.style_values.specs.Ranges.{IsInset, IsSize};
ghost use Rattle.style_values.specs.Seen.{seen_position};
ghost use Rattle.positioned_layout.specs.Along.{placed_from, is_held, moved_from, moved_by};
ghost use Rattle.positioned_layout.specs.Seen.{seen_side, IsSpan, IsReach, IsSide};

use px_units::Length;
use style_values::Position;

const LARGEST: i64 = 2_147_483_647;

// Clamps a number to the largest length on either side of 0.
fn clamped(units: i64) -> i64
    ensures value { result ≡ clamped units }
    ensures range { IsReach result }
{
    units.max(-LARGEST).min(LARGEST)
}

// Resolves an inset against the size of the containing block, which may be indefinite.
pub(crate) fn against(inset: Length, basis: Option<i64>) -> Option<i64>
    requires inset { IsInset inset }
    requires basis { IfSome basis IsSpan }
    ensures value { result ≡ inset_against (seen_inset inset) (option_map unsigned_abs basis) }
    ensures range { IfSome result IsReach }
{
    match inset {
        Length::Auto => None,
        Length::Px(px) => Some(px.0),
        Length::Percent(percent) => {
            // 2^40 times 1,000,000 is below 2^60, and division truncates toward zero.
            let part = basis? * i64::from(percent.0) / 10_000;
            Some(clamped(part))
        }
    }
}

// Resolves a margin against the width of the containing block (CSS 2.2, 8.3), which may exceed the largest length here.
pub(crate) fn used_margin(margin: Length, width: i64) -> i64
    requires margin { IsSize margin }
    requires width { IsSpan width }
    ensures value { result ≡ pos (used_side (unsigned_abs width) (seen_length margin)) }
    ensures range { (pos 0 ≤ℤ result) × (result ≤ℤ pos 2147483647) }
{
    match margin {
        Length::Auto => 0,
        Length::Px(px) => clamped(px.0),
        Length::Percent(percent) => clamped(width * i64::from(percent.0) / 10_000),
    }
}

/// The axis of a coordinate.
#[derive(Clone, Copy)]
pub(crate) enum Axis {
    Across,
    Down,
}

// A box along an axis: the size of its containing block, the insets and margins of its near and far sides, and the size of its
// border box.
#[derive(Clone, Copy)]
pub(crate) struct Side {
    pub(crate) containing: i64,
    pub(crate) near: Option<i64>,
    pub(crate) far: Option<i64>,
    pub(crate) near_margin: i64,
    pub(crate) far_margin: i64,
    pub(crate) border: i64,
}

// The offset of a border box along an axis: from the padding box of its holder, or from its static position.
#[derive(Clone, Copy)]
pub(crate) enum Moved {
    FromHolder(i64),
    FromFlow(i64),
}

impl Moved {
    // Whether the box is offset from its holder.
    pub(crate) fn is_held(self) -> bool
        ensures { result ≡ is_held self }
    {
        match self {
            Moved::FromHolder(_) => true,
            Moved::FromFlow(_) => false,
        }
    }

    // Returns the offset.
    pub(crate) fn by(self) -> i64
        ensures { result ≡ moved_by self }
    {
        match self {
            Moved::FromHolder(by) | Moved::FromFlow(by) => by,
        }
    }
}

impl Side {
    // Returns how far a relative box is moved.
    fn shift(self) -> i64
        requires { IsSide self }
        ensures value { result ≡ shift_by self.near self.far }
        ensures range { IsReach result }
    {
        match (self.near, self.far) {
            (Some(near), _) => near,
            (None, Some(far)) => -far,
            (None, None) => 0,
        }
    }

    // Returns the offset of the border box of a box out of flow from the padding box of its holder, `None` if both insets are
    // `auto`.
    fn inset(self) -> Option<i64>
        requires { IsSide self }
        ensures value { (corner in_flow : ℤ) →
            placed_along (seen_side self) corner in_flow ≡ unwrap_or (option_map (λ by. corner +ℤ by) result) in_flow }
        ensures range { IfSome result IsReach }
    {
        match (self.near, self.far) {
            (Some(near), _) => Some(clamped(near + self.near_margin)),
            (None, Some(far)) => Some(clamped(
                self.containing - far - self.far_margin - self.border,
            )),
            (None, None) => None,
        }
    }

    // Returns how far the border box of a box with this `position` is moved, and from where.
    pub(crate) fn moved(self, position: Position) -> Moved
        requires { IsSide self }
        ensures value { (corner in_flow : ℤ) →
            placed_from (seen_position position) (seen_side self) corner in_flow ≡ moved_from result corner in_flow }
        ensures range { IsReach (moved_by result) }
    {
        match position {
            Position::Static => Moved::FromFlow(0),
            Position::Relative => Moved::FromFlow(self.shift()),
            Position::Absolute | Position::Fixed => match self.inset() {
                Some(inset) => Moved::FromHolder(inset),
                None => Moved::FromFlow(0),
            },
        }
    }
}
