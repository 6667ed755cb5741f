//! Parsing lengths from their exact texts in CSS pixels.

ghost use Rattle.std.specs.Prelude.{◌≡◌, ◌-◌, ◌<◌, ◌≤◌, ◌^◌, IfSome};
ghost use Rattle.px_units.specs.Rects.{InReach};
ghost use Rattle.trace_text.specs.Reading.{are_decimals, sixty_fourths, decimals_of, rest_of, magnitude_of, pixels_of};

use crate::decimals::number_of;
use word_model::split_digits;

/// The largest absolute value of a length, 2^50 units, and below it the same in whole pixels.
const MOST: u64 = 1 << 50;

const MOST_PIXELS: u128 = 1 << 44;

/// Whether these are the decimals of `rest` 64ths, by long division.
#[tactic(auto, using(crate::proofs::Divisions::next_digit, crate::proofs::Divisions::another_digit, crate::proofs::Divisions::no_digit, crate::proofs::Divisions::digits_end))]
fn are_decimals(digits: &[u8], rest: u64) -> bool
    requires { rest < 64 }
    ensures { result ≡ are_decimals digits.now rest }
{
    let mut left = rest;
    for digit in digits {
        if left == 0 || *digit != b'0' + (left * 10 / 64) as u8 {
            return false;
        }
        left = left * 10 % 64;
    }
    left == 0
}

/// Returns the only number of 64ths whose decimals can begin with these. Since 64ths are more than a hundredth apart, two
/// decimals determine it.
#[tactic(auto, unfolding(crate::specs::Reading::sixty_fourths))]
fn sixty_fourths(digits: &[u8]) -> u64
    ensures { result ≡ sixty_fourths digits.now }
{
    match digits {
        [first, second, ..] => (digit(*first) * 640 + digit(*second) * 64 + 99) / 100,
        [first] => (digit(*first) * 640 + 99) / 100,
        [] => 0,
    }
}

fn digit(byte: u8) -> u64
    ensures value { result ≡ byte - 48 }
    ensures bound { result < 256 }
{
    u64::from(byte.saturating_sub(b'0'))
}

/// Returns the number of 64ths with exactly these decimals after the point.
#[tactic(auto, unfolding(crate::specs::Reading::decimals_of))]
fn decimals_of(digits: &[u8]) -> Option<u64>
    ensures value { result ≡ decimals_of digits.now }
    ensures bound { IfSome result (λ rest. rest < 64) }
{
    let rest = sixty_fourths(digits);
    if rest == 0 || rest >= 64 {
        return None;
    }
    if are_decimals(digits, rest) {
        Some(rest)
    } else {
        None
    }
}

/// Parses what follows the whole pixels, and returns the number of 64ths.
#[tactic(auto, unfolding(crate::specs::Reading::rest_of))]
fn rest_of(text: &[u8]) -> Option<u64>
    ensures value { result ≡ rest_of text.now }
    ensures bound { IfSome result (λ rest. rest < 64) }
{
    match text {
        [b'.', digits @ ..] => decimals_of(digits),
        [_, ..] => None,
        [] => Some(0),
    }
}

/// Parses an unsigned length into units.
#[tactic(auto, using(word_model::proofs::Values::above, word_model::proofs::Values::not_above), unfolding(crate::specs::Reading::magnitude_of))]
fn magnitude_of(text: &[u8]) -> Option<u64>
    ensures value { result ≡ magnitude_of text.now }
    ensures bound { IfSome result (λ units. units ≤ 2 ^ 50) }
{
    let (digits, behind) = split_digits(text);
    let whole = number_of(digits, MOST_PIXELS)?;
    let rest = rest_of(behind)?;
    let units = whole as u64 * 64 + rest;
    if units > MOST { None } else { Some(units) }
}

/// Parses the exact text of a length into units of 1/64 CSS pixel, from -2^50 to 2^50.
#[tactic(auto, unfolding(crate::specs::Reading::pixels_of, crate::specs::Reading::negative))]
pub fn pixels_of(field: &[u8]) -> Option<i64>
    ensures value { result ≡ pixels_of field.now }
    ensures reach { IfSome result (λ units. InReach units) }
{
    match field {
        [b'-', behind @ ..] => {
            let units = magnitude_of(behind)?;
            if units == 0 {
                None
            } else {
                Some(-(units as i64))
            }
        }
        [_, ..] => Some(magnitude_of(field)? as i64),
        [] => None,
    }
}
