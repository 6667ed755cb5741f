//! Parsing decimal numbers in their canonical form.

ghost use Rattle.std.specs.Prelude.{◌≡◌, ◌-◌, ◌^◌, ◌<◌, ◌≤◌, IfSome, MatchOption};
ghost use Rattle.word_model.specs.Numbers.{digits_value};
ghost use Rattle.trace_text.specs.Reading.{number_of, ratio_of, whole_of};

use word_model::{is_whole, split_digits};

/// The largest absolute value of a signed whole number.
const MOST: u128 = 1 << 50;

/// Returns the value of these decimal digits, or `None` if it exceeds 128 bits.
fn value_of(digits: &[u8]) -> Option<u128>
    ensures { MatchOption result (2 ^ 128 - 1 < digits_value digits.now) (λ value. value ≡ digits_value digits.now) }
{
    let mut value: u128 = 0;
    for digit in digits {
        let digit = u128::from(digit.saturating_sub(b'0'));
        if value > (u128::MAX - digit) / 10 {
            return None;
        }
        value = value * 10 + digit;
    }
    Some(value)
}

/// Parses a number of at most `most`, without leading zeros.
#[tactic(auto, using(word_model::proofs::Values::above, word_model::proofs::Values::not_above), unfolding(crate::specs::Reading::number_of))]
pub fn number_of(field: &[u8], most: u128) -> Option<u128>
    ensures value { result ≡ number_of most field.now }
    ensures bound { IfSome result (λ number. number ≤ most) }
{
    if !is_whole(field) {
        return None;
    }
    let value = value_of(field)?;
    if value > most { None } else { Some(value) }
}

/// Parses two numbers with a `/` between them.
#[tactic(auto, unfolding(crate::specs::Reading::ratio_of, crate::specs::Reading::over))]
pub fn ratio_of(field: &[u8]) -> Option<(u128, u128)>
    ensures { result ≡ ratio_of field.now }
{
    let (digits, behind) = split_digits(field);
    let part = number_of(digits, u128::MAX)?;
    match behind {
        [b'/', digits @ ..] => Some((part, number_of(digits, u128::MAX)?)),
        _ => None,
    }
}

/// Parses a whole number from -2^50 to 2^50, without leading zeros; `-0` isn't one.
#[tactic(auto, unfolding(crate::specs::Reading::whole_of, crate::specs::Reading::negative))]
pub fn whole_of(field: &[u8]) -> Option<i64>
    ensures { result ≡ whole_of field.now }
{
    match field {
        [b'-', digits @ ..] => {
            let number = number_of(digits, MOST)?;
            if number == 0 {
                None
            } else {
                Some(-(number as i64))
            }
        }
        [_, ..] => Some(number_of(field, MOST)? as i64),
        [] => None,
    }
}
