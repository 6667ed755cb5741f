ghost use Rattle.std.specs.Prelude.{◌≡◌, ◌+◌, ◌-◌, ◌*◌, ◌/◌, ◌^◌, ◌<◌, ◌≤◌, ◌≤ℤ◌, pos, negsuc, neg_ℤ, length, IfSome, IsTrue, if◌then◌else◌};
ghost use Rattle.std.specs.List.{list_all};
ghost use Rattle.word_model.specs.Names.{is_digit};
ghost use Rattle.word_model.specs.Numbers.{at_most, digits_value, leading_digits, fraction_digits, scaled, has_form, form_of, is_decimal_with, with_sign, is_whole, whole_of, length_of, percent_of, signed_of, signed_percent_of, number_of};

use crate::names::is_digit;
use crate::parts::{begins_with, split, split_sign};

/// Returns the value of these decimal digits, or `None` if it is above the bound.
fn bounded_value(digits: &[u8], bound: u64) -> Option<u64>
    requires { bound < 2 ^ 59 }
    ensures { result ≡ at_most bound (digits_value digits.now) }
{
    let mut value: u64 = 0;
    for digit in digits {
        value = value * 10 + digit.saturating_sub(b'0') as u64;
        if value > bound {
            return None;
        }
    }
    Some(value)
}

/// Returns the value of at most nine decimal digits.
#[tactic(auto, using(crate::proofs::Values::nine_digits, crate::proofs::Values::not_above))]
fn short_value(digits: &[u8]) -> u64
    requires digits { IsTrue (list_all is_digit digits.now) }
    requires short { length digits.now ≤ 9 }
    ensures value { result ≡ digits_value digits.now }
    ensures bound { result ≤ 999999999 }
{
    bounded_value(digits, 999_999_999).unwrap_or(0)
}

/// Whether the text is an unsigned number with 1 to `most` digits before the point and at most `places` after it, followed by this unit.
#[tactic(auto, using(crate::proofs::Forms::has_form_is))]
fn has_form(text: &[u8], most: usize, places: u32, unit: &[u8]) -> bool
    ensures { result ≡ has_form most places unit.now text.now }
{
    let parts = split(text);
    let whole = parts.whole.len();
    if whole == 0 || whole > most || parts.fraction.len() > places as usize {
        return false;
    }
    parts.unit == unit
}

/// Returns the value of the text as a fixed-point number with `places` decimal places.
#[tactic(auto, using(crate::proofs::Forms::scaled_is))]
fn scaled(text: &[u8], places: u32) -> u64
    requires places { places ≤ 4 }
    requires whole { length (leading_digits text.now) ≤ 9 }
    requires fraction { length (fraction_digits text.now) ≤ places }
    ensures value { result ≡ scaled places text.now }
    ensures bound { result < 2 ^ 53 }
{
    let parts = split(text);
    let fraction = short_value(parts.fraction) * 10u64.pow(places - parts.fraction.len() as u32);
    short_value(parts.whole) * 10u64.pow(places) + fraction
}

/// Returns the value of a text of this form as a fixed-point number with `places` decimal places, or `None` for any other text.
#[tactic(auto, using(crate::proofs::Forms::has_form_is))]
fn formed(text: &[u8], most: usize, places: u32, unit: &[u8]) -> Option<u64>
    requires most { most ≤ 9 }
    requires places { places ≤ 4 }
    ensures value { result ≡ (if has_form most places unit.now text.now then Some (scaled places text.now) else None) }
    ensures bound { IfSome result (λ number. number < 2 ^ 53) }
{
    if has_form(text, most, places, unit) {
        Some(scaled(text, places))
    } else {
        None
    }
}

/// Like `formed`, but also returns `None` if the value as written is above the bound.
#[tactic(auto, using(crate::proofs::Forms::form_of_is, crate::proofs::Values::above, crate::proofs::Values::not_above))]
fn bounded(text: &[u8], bound: u64, most: usize, places: u32, unit: &[u8]) -> Option<u64>
    requires most { most ≤ 9 }
    requires places { places ≤ 4 }
    ensures value { result ≡ form_of bound most places unit.now text.now }
    ensures bound { IfSome result (λ number. number ≤ bound) }
{
    let number = formed(text, most, places, unit)?;
    if number > bound { None } else { Some(number) }
}

/// Whether the text is an optional `-`, one or more digits, optionally a point and one or more digits, and then this unit.
#[tactic(auto, using(crate::proofs::Forms::is_decimal_with_is))]
pub fn is_decimal_with(unit: &[u8], text: &[u8]) -> bool
    ensures { result ≡ is_decimal_with unit.now text.now }
{
    let (_, number) = split_sign(text);
    let parts = split(number);
    !parts.whole.is_empty() && parts.unit == unit
}

/// Parses an unsigned length into units of 1/64 pixel, truncated: 1 to 7 digits, optionally a point and 1 or 2 digits,
/// then `px`; at most 1,000,000 pixels. Returns `None` for any other word.
#[tactic(auto, using(crate::proofs::Forms::length_of_is))]
pub fn length(word: &[u8]) -> Option<u64>
    ensures value { result ≡ length_of word.now }
    ensures bound { IfSome result (λ units. units ≤ 64000000) }
{
    let hundredths = bounded(word, 100_000_000, 7, 2, b"px")?;
    Some(hundredths * 64 / 100)
}

/// Parses an unsigned percentage into hundredths of a percent: 1 to 7 digits, optionally a point and 1 or 2 digits, then
/// `%`; at most 10,000 percent. Returns `None` for any other word.
#[tactic(auto, using(crate::proofs::Forms::percent_of_is))]
pub fn percent(word: &[u8]) -> Option<u64>
    ensures value { result ≡ percent_of word.now }
    ensures bound { IfSome result (λ hundredths. hundredths ≤ 1000000) }
{
    bounded(word, 1_000_000, 7, 2, b"%")
}

/// Returns the number, negated if `negative`.
#[tactic(auto, unfolding(crate::specs::Numbers::with_sign))]
fn with_sign(negative: bool, number: u64) -> i64
    requires { number < 2 ^ 53 }
    ensures value { result ≡ with_sign negative number }
    ensures low { neg_ℤ (pos number) ≤ℤ result }
    ensures high { result ≤ℤ pos number }
{
    if negative {
        -(number as i64)
    } else {
        number as i64
    }
}

/// Parses a length with an optional leading `-` into units of 1/64 pixel, truncated toward zero. Returns `None` for any other word.
#[tactic(auto, using(crate::proofs::Forms::signed_of_is))]
pub fn signed_length(word: &[u8]) -> Option<i64>
    ensures value { result ≡ signed_of word.now }
    ensures bound { IfSome result (λ units. (negsuc 63999999 ≤ℤ units) × (units ≤ℤ pos 64000000)) }
{
    let (negative, number) = split_sign(word);
    Some(with_sign(negative, length(number)?))
}

/// Parses a percentage with an optional leading `-` into hundredths of a percent. Returns `None` for any other word.
#[tactic(auto, using(crate::proofs::Forms::signed_percent_of_is))]
pub fn signed_percent(word: &[u8]) -> Option<i64>
    ensures value { result ≡ signed_percent_of word.now }
    ensures bound { IfSome result (λ hundredths. (negsuc 999999 ≤ℤ hundredths) × (hundredths ≤ℤ pos 1000000)) }
{
    let (negative, number) = split_sign(word);
    Some(with_sign(negative, percent(number)?))
}

/// Parses a number into ten-thousandths: an optional `-`, 1 to 9 digits, optionally a point and 1 to 4 digits. Returns
/// `None` for any other word.
#[tactic(auto, using(crate::proofs::Forms::number_of_is, crate::proofs::Forms::ten_thousandths_of_is))]
pub fn number(word: &[u8]) -> Option<i64>
    ensures { result ≡ number_of word.now }
{
    let (negative, number) = split_sign(word);
    Some(with_sign(negative, formed(number, 9, 4, b"")?))
}

/// Whether the word is `0`, or digits without a leading zero.
#[tactic(auto, using(crate::proofs::Forms::is_whole_is))]
pub fn is_whole(word: &[u8]) -> bool
    ensures { result ≡ is_whole word.now }
{
    if word.is_empty() || (begins_with(word, b'0') && word.len() > 1) {
        return false;
    }
    are_digits(word)
}

fn are_digits(word: &[u8]) -> bool
    ensures { result ≡ list_all is_digit word.now }
{
    word.iter().all(|byte| is_digit(*byte))
}

/// Parses a whole number: `0`, or digits without a leading zero; at most 1,000,000,000,000. Returns `None` for any other word.
#[tactic(auto, using(crate::proofs::Forms::whole_of_is))]
pub fn whole(word: &[u8]) -> Option<u64>
    ensures { result ≡ whole_of word.now }
{
    if is_whole(word) {
        bounded_value(word, 1_000_000_000_000)
    } else {
        None
    }
}
