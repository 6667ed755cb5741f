//! Parsers for lengths. A digit that would make the number exceed its bound isn't accepted.

ghost use Rattle.std.specs.Prelude.{◌≡◌, ◌≤◌, if◌then◌else◌, Some, None, IfSome, IfOk};
ghost use Rattle.script_model.specs.Media.{with_digit, is_digit_under, digit_at, digits_at, whole_at, hundredths_at, fraction_at, length_at};
ghost use Rattle.media_queries.specs.Seen.{read_of};

use crate::bytes::{Stopped, byte_at, word_at};
use word_model::{begins_with, is_digit};

/// Returns the number with this digit appended, or `None` if the byte isn't a digit or the number would exceed `most`.
fn with_digit(most: u64, value: u64, byte: u8) -> Option<u64>
    requires largest { most ≤ 100000000 }
    requires value { value ≤ most }
    ensures value { result ≡ (if is_digit_under most value byte then Some (with_digit value byte) else None) }
    ensures bound { IfSome result (λ number. number ≤ most) }
{
    if !is_digit(byte) {
        return None;
    }
    let number = value * 10 + u64::from(byte - b'0');
    if number > most {
        return None;
    }
    Some(number)
}

/// Parses one more digit of a number.
#[tactic(auto, unfolding(script_model::specs::Media::digit_at))]
fn digit_at(most: u64, value: u64, text: &[u8]) -> Result<(u64, &[u8]), Stopped>
    requires largest { most ≤ 100000000 }
    requires value { value ≤ most }
    ensures value { read_of (λ number. number) result ≡ digit_at most value text.now }
    ensures bound { IfOk result (λ read. read.0 ≤ most) }
{
    match text {
        [byte, rest @ ..] => match with_digit(most, value, *byte) {
            Some(number) => Ok((number, rest)),
            None => Err(Stopped { left: text.len() }),
        },
        [] => Err(Stopped { left: 0 }),
    }
}

/// Parses up to `places` more digits of a number, and returns it with the rest of the text.
#[tactic(auto, using(crate::proofs::Digits::digits_on, crate::proofs::Digits::digits_stop, crate::proofs::Digits::digits_end))]
fn digits_at(places: usize, most: u64, first: u64, text: &[u8]) -> (u64, &[u8])
    requires largest { most ≤ 100000000 }
    requires value { first ≤ most }
    ensures value { (result.0, result.1.now) ≡ digits_at places most first text.now }
    ensures bound { result.0 ≤ most }
{
    let mut value = first;
    let mut rest = text;
    for place in 0..places {
        match digit_at(most, value, rest) {
            Ok((number, behind)) => {
                value = number;
                rest = behind;
            }
            Err(_) => return (value, rest),
        }
    }
    (value, rest)
}

/// Parses 1 to 7 digits, at most 1,000,000.
#[tactic(auto, unfolding(script_model::specs::Media::whole_at))]
fn whole_at(text: &[u8]) -> Result<(u64, &[u8]), Stopped>
    ensures value { read_of (λ number. number) result ≡ whole_at text.now }
    ensures bound { IfOk result (λ read. read.0 ≤ 1000000) }
{
    let (first, rest) = digit_at(1_000_000, 0, text)?;
    Ok(digits_at(6, 1_000_000, first, rest))
}

/// Parses an optional second decimal digit after tenths, and returns the hundredths.
#[tactic(auto, unfolding(script_model::specs::Media::hundredths_at))]
fn hundredths_at(tenths: u64, text: &[u8]) -> (u64, &[u8])
    requires { tenths ≤ 10000000 }
    ensures value { (result.0, result.1.now) ≡ hundredths_at tenths text.now }
    ensures bound { result.0 ≤ 100000000 }
{
    match text {
        [byte, rest @ ..] => match with_digit(100_000_000, tenths, *byte) {
            Some(number) => (number, rest),
            None => (tenths * 10, text),
        },
        [] => (tenths * 10, text),
    }
}

/// Parses an optional point with 1 or 2 digits after the whole part, and returns the hundredths.
#[tactic(auto, unfolding(script_model::specs::Media::fraction_at))]
fn fraction_at(whole: u64, text: &[u8]) -> Result<(u64, &[u8]), Stopped>
    requires { whole ≤ 1000000 }
    ensures value { read_of (λ number. number) result ≡ fraction_at whole text.now }
    ensures bound { IfOk result (λ read. read.0 ≤ 100000000) }
{
    if !begins_with(text, b'.') {
        return Ok((whole * 100, text));
    }
    let rest = byte_at(b'.', text)?;
    let (tenths, behind) = digit_at(10_000_000, whole, rest)?;
    Ok(hundredths_at(tenths, behind))
}

/// Parses a length into units of 1/64 CSS pixel, truncated.
#[tactic(auto, unfolding(script_model::specs::Media::length_at))]
pub fn length_at(text: &[u8]) -> Result<(u64, &[u8]), Stopped>
    ensures { read_of (λ number. number) result ≡ length_at text.now }
{
    let (whole, rest) = whole_at(text)?;
    let (hundredths, unit) = fraction_at(whole, rest)?;
    let behind = word_at(b"px", unit)?;
    Ok((hundredths * 64 / 100, behind))
}
