ghost use Rattle.std.specs.Prelude.{◌≡◌, ◌≤◌, length, drop, IfSome, IsTrue, is_some};
ghost use Rattle.std.specs.List.{prefix_len, list_all};
ghost use Rattle.word_model.specs.Names.{is_digit};
ghost use Rattle.word_model.specs.Numbers.{begins_with, unsigned, leading_digits, behind_digits, point_digits, behind_point, fraction_digits, unit_of};

use crate::names::is_digit;

/// An unsigned number, split into its parts as written.
#[derive(Clone, Copy)]
pub struct Parts<'a> {
    /// The digits before the point.
    pub whole: &'a [u8],
    /// The digits after the point; empty if there is no point.
    pub fraction: &'a [u8],
    /// Everything after the number.
    pub unit: &'a [u8],
}

/// Returns the number of leading digits of the text.
fn digit_count(text: &[u8]) -> usize
    ensures count { result ≡ prefix_len is_digit text.now }
    ensures bound { result ≤ length text.now }
{
    text.iter().take_while(|byte| is_digit(**byte)).count()
}

/// Splits the text into its leading digits and the rest.
#[tactic(auto, using(crate::proofs::Values::leading_all), unfolding(crate::specs::Numbers::behind_digits))]
pub fn split_digits(text: &[u8]) -> (&[u8], &[u8])
    ensures digits { result.0.now ≡ leading_digits text.now }
    ensures all { IsTrue (list_all is_digit result.0.now) }
    ensures behind { result.1.now ≡ behind_digits text.now }
{
    text.split_at(digit_count(text))
}

/// Whether the text begins with this byte.
#[tactic(auto, unfolding(crate::specs::Numbers::begins_with))]
pub fn begins_with(text: &[u8], byte: u8) -> bool
    ensures { result ≡ begins_with byte text.now }
{
    match text {
        [first, ..] => *first == byte,
        [] => false,
    }
}

/// Strips this byte from the start of the text; returns `None` if the text doesn't begin with it.
#[tactic(auto, unfolding(crate::specs::Numbers::begins_with))]
fn strip(text: &[u8], byte: u8) -> Option<&[u8]>
    ensures begins { is_some result ≡ begins_with byte text.now }
    ensures rest { IfSome result (λ rest. rest.now ≡ drop 1 text.now) }
{
    match text {
        [first, rest @ ..] => { if *first == byte { Some(rest) } else { None } }
        [] => None,
    }
}

/// Splits a leading point with at least one digit off the text: returns those digits and the rest. Without one, the digits are
/// empty and the rest is the whole text.
#[tactic(auto, using(crate::proofs::Digits::point_digits_are, crate::proofs::Digits::behind_point_is))]
fn split_point(text: &[u8]) -> (&[u8], &[u8])
    ensures digits { result.0.now ≡ point_digits text.now }
    ensures all { IsTrue (list_all is_digit result.0.now) }
    ensures behind { result.1.now ≡ behind_point text.now }
{
    match strip(text, b'.') {
        Some(rest) => {
            let (digits, behind) = split_digits(rest);
            if digits.is_empty() {
                (digits, text)
            } else {
                (digits, behind)
            }
        }
        None => (&[], text),
    }
}

/// Splits an unsigned number into its parts.
pub fn split(text: &[u8]) -> Parts<'_>
    ensures whole { result.whole.now ≡ leading_digits text.now }
    ensures fraction { result.fraction.now ≡ fraction_digits text.now }
    ensures unit { result.unit.now ≡ unit_of text.now }
    ensures whole_all { IsTrue (list_all is_digit result.whole.now) }
    ensures fraction_all { IsTrue (list_all is_digit result.fraction.now) }
{
    let (whole, behind) = split_digits(text);
    let (fraction, unit) = split_point(behind);
    Parts {
        whole,
        fraction,
        unit,
    }
}

/// Strips an optional leading `-`: returns whether it was there, and the rest.
#[tactic(auto, using(crate::proofs::Digits::unsigned_is))]
pub fn split_sign(text: &[u8]) -> (bool, &[u8])
    ensures negative { result.0 ≡ begins_with 45 text.now }
    ensures rest { result.1.now ≡ unsigned text.now }
{
    match strip(text, b'-') {
        Some(rest) => (true, rest),
        None => (false, text),
    }
}
