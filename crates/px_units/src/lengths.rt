ghost use Rattle.std.specs.Prelude.{◌≡◌, ◌≤ℤ◌, pos, unsigned_abs, option_map, codes, IfOk, IfErr, OnErr};
ghost use Rattle.word_model.specs.Numbers.{signed_of, signed_percent_of};
ghost use Rattle.px_units.specs.Lengths.{resolved, seen_length, IsNotNegative};
ghost use Rattle.px_units.specs.Reading.{fault_of};

use crate::{Length, Percent, Px};
use thiserror::Error;

/// Why a text isn't a length or percentage.
#[derive(Clone, Copy, Debug, PartialEq, Eq, Error)]
pub enum LengthFault {
    /// The text isn't a decimal number with the unit.
    #[error("not a decimal number with the unit")]
    NotALength,
    /// It is one, but with too many digits or above the bound.
    #[error("too many digits, or above the bound")]
    OutOfRange,
}

/// The largest resolved length, in units of 1/64 pixel.
const CAP: u64 = 2_147_483_647;

/// Resolves a length against a basis, both in units of 1/64 pixel (CSS 2.2, 10.2): a percentage is truncated to units, and
/// the result is at most 2,147,483,647 units. Returns `None` exactly for `auto`.
pub fn resolve(length: Length, basis: i64) -> Option<i64>
    requires not_negative { IsNotNegative length }
    requires low { pos 0 ≤ℤ basis }
    requires high { basis ≤ℤ pos 2147483647 }
    ensures { result ≡ option_map pos (resolved (seen_length length) (unsigned_abs basis)) }
{
    match length {
        Length::Auto => None,
        Length::Px(px) => Some(px.0.unsigned_abs().min(CAP) as i64),
        Length::Percent(percent) => {
            let part = basis.unsigned_abs() * u64::from(percent.0.unsigned_abs()) / 10_000;
            Some(part.min(CAP) as i64)
        }
    }
}

/// Returns the fault of a text that isn't a length or percentage.
fn fault(unit: &[u8], text: &[u8]) -> LengthFault
    ensures { result ≡ fault_of unit.now text.now }
{
    if word_model::is_decimal_with(unit, text) {
        LengthFault::OutOfRange
    } else {
        LengthFault::NotALength
    }
}

/// Parses a length in pixels, truncated toward zero to units of 1/64 pixel: an optional `-`, 1 to 7 digits, optionally a
/// point and 1 or 2 digits, then `px`; at most 1,000,000 pixels.
///
/// # Errors
/// `OutOfRange` exactly where the text doesn't have this form but is a decimal number with the unit `px`; `NotALength` for
/// any other text.
pub fn read_px(text: &[u8]) -> Result<Px, LengthFault>
    ensures ok { IfOk result (λ px. signed_of text.now ≡ Some px.0) }
    ensures none { OnErr result (signed_of text.now ≡ None) }
    ensures err { IfErr result (λ fault. fault ≡ fault_of (codes "px") text.now) }
{
    match word_model::signed_length(text) {
        Some(units) => Ok(Px(units)),
        None => Err(fault(b"px", text)),
    }
}

/// Parses a percentage in hundredths of a percent: an optional `-`, 1 to 7 digits, optionally a point and 1 or 2 digits,
/// then `%`; at most 10,000 percent.
///
/// # Errors
/// `OutOfRange` exactly where the text doesn't have this form but is a decimal number with the unit `%`; `NotALength` for
/// any other text.
pub fn read_percent(text: &[u8]) -> Result<Percent, LengthFault>
    ensures ok { IfOk result (λ percent. signed_percent_of text.now ≡ Some percent.0) }
    ensures none { OnErr result (signed_percent_of text.now ≡ None) }
    ensures err { IfErr result (λ fault. fault ≡ fault_of (codes "%") text.now) }
{
    match word_model::signed_percent(text) {
        Some(hundredths) => Ok(Percent(hundredths as i32)),
        None => Err(fault(b"%", text)),
    }
}
