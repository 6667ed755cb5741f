//! Used lengths along one axis, in units of 1/64 pixel (CSS 2.2, 10.2 to 10.7). Of lengths in styles and inputs the absolute
//! values count, so none is out of range.

ghost use Rattle.std.specs.Prelude.{◌≡◌, ◌≤◌, ◌*◌, ◌/◌, IfSome, option_map, option_and_then};
ghost use Rattle.px_units.specs.Lengths.{seen_length, seen_inset, cap, clamped, signed_part, inset_against};
ghost use Rattle.layout_model.specs.Boxes.{used_side, against, inner, at_most, at_least, used_along};
ghost use Rattle.style_values.specs.Seen.{seen_box_sizing};

use layout_model::{LARGEST, capped};
use px_units::Length;
use style_values::BoxSizing;

// Resolves a percentage of a basis, truncated to units.
fn part(hundredths: u32, basis: u64) -> u64
    ensures { result ≡ cap ((basis * hundredths) / 10000) }
{
    let part = u128::from(basis) * u128::from(hundredths) / 10_000;
    part.min(u128::from(LARGEST)) as u64
}

// Resolves a length against a basis that may be indefinite; then a percentage gives `None`, like `auto`.
pub(crate) fn against(length: Length, basis: Option<u64>) -> Option<u64>
    ensures value { result ≡ against (seen_length length) basis }
    ensures bound { IfSome result (λ units. units ≤ 2147483647) }
{
    match length {
        Length::Auto => None,
        Length::Px(px) => Some(capped(px.0.unsigned_abs())),
        Length::Percent(percent) => match basis {
            Some(whole) => Some(part(percent.0.unsigned_abs(), whole)),
            None => None,
        },
    }
}

// Resolves an inset against a basis that may be indefinite; then a percentage gives `None`, like `auto` (CSS Positioned
// Layout 3, 3.1).
pub(crate) fn inset(length: Length, basis: Option<u64>) -> Option<i64>
    ensures { result ≡ inset_against (seen_inset length) basis }
{
    match length {
        Length::Auto => None,
        Length::Px(px) => Some(px.0),
        Length::Percent(percent) => match basis {
            Some(whole) => Some(signed_part(percent.0, whole)),
            None => None,
        },
    }
}

// Resolves a percentage of a basis, truncated toward zero to units and clamped to the largest length on either side.
fn signed_part(hundredths: i32, basis: u64) -> i64
    ensures { result ≡ clamped (signed_part hundredths basis) }
{
    let largest = i128::from(LARGEST);
    let part = i128::from(basis) * i128::from(hundredths) / 10_000;
    part.max(-largest).min(largest) as i64
}

// Resolves a margin or padding: vertical ones are relative to the containing width, too (8.3, 8.4).
pub(crate) fn used_side(width: u64, length: Length) -> u64
    ensures value { result ≡ used_side width (seen_length length) }
    ensures bound { result ≤ 2147483647 }
{
    against(length, Some(width)).unwrap_or(0)
}

// Returns the content size for a specified size.
fn inner(sizing: BoxSizing, edges: u64, size: u64) -> u64
    ensures { result ≡ inner (seen_box_sizing sizing) edges size }
{
    match sizing {
        BoxSizing::Content => size,
        BoxSizing::Border => size.saturating_sub(edges),
    }
}

fn at_most(most: Option<u64>, size: u64) -> u64
    ensures { result ≡ at_most most size }
{
    match most {
        Some(most) => size.min(most),
        None => size,
    }
}

fn at_least(least: Option<u64>, size: u64) -> u64
    ensures { result ≡ at_least least size }
{
    match least {
        Some(least) => size.max(least),
        None => size,
    }
}

// What the size along an axis depends on: `edges` are the borders and paddings of both sides.
#[derive(Clone, Copy)]
pub(crate) struct Axis {
    pub(crate) sizing: BoxSizing,
    pub(crate) edges: u64,
    pub(crate) basis: Option<u64>,
    pub(crate) size: Length,
    pub(crate) least: Length,
    pub(crate) most: Option<Length>,
}

impl Axis {
    fn given(self, length: Length) -> Option<u64>
        ensures { result ≡ option_map (inner (seen_box_sizing self.sizing) self.edges) (against (seen_length length) self.basis) }
    {
        match against(length, self.basis) {
            Some(size) => Some(inner(self.sizing, self.edges, size)),
            None => None,
        }
    }

    fn most(self) -> Option<u64>
        ensures { result ≡ option_map (inner (seen_box_sizing self.sizing) self.edges) (option_and_then (λ value. against value self.basis) (option_map seen_length self.most)) }
    {
        match self.most {
            Some(length) => self.given(length),
            None => None,
        }
    }

    // Returns the used size; `automatic` is the value of `auto`.
    pub(crate) fn used(self, automatic: u64) -> u64
        ensures value { result ≡ used_along (seen_box_sizing self.sizing) self.edges self.basis (seen_length self.size) (seen_length self.least) (option_map seen_length self.most) automatic }
        ensures bound { result ≤ 2147483647 }
    {
        let size = self.given(self.size).unwrap_or(automatic);
        capped(at_least(self.given(self.least), at_most(self.most(), size)))
    }
}
