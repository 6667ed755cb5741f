//! Printing of lengths, percentages and numbers, each as its shortest text.

ghost use Rattle.std.specs.Prelude.{◌≡◌, ◌++◌, [], OnOk};
ghost use Rattle.script_print.specs.Minus.{minus_text};
ghost use Rattle.script_text.specs.NumberText.{all_places, places_text, percent_text, signed_text, signed_percent_text, number_text};

use media_queries::push_length;
use std::alloc::AllocError;
use word_model::push_decimal;

/// Appends the minus sign of a negative number.
fn push_minus(into: &mut Vec<u8>, number: i64) -> Result<(), AllocError>
    ensures { OnOk result (into.new.items ≡ into.old.items ++ minus_text number) }
{
    if number < 0 {
        into.push(b'-')?;
    }
    Ok(())
}

/// Appends a length, which may be negative, in units of 1/64 CSS pixel.
#[tactic(auto, using(crate::proofs::Digits::signed_pushed))]
pub fn push_signed(into: &mut Vec<u8>, units: i64) -> Result<(), AllocError>
    ensures { OnOk result (into.new.items ≡ into.old.items ++ signed_text units) }
{
    push_minus(into, units)?;
    push_length(into, units.unsigned_abs())
}

/// Appends a fixed-point number with `places` decimal places, all of which are printed.
#[tactic(auto, using(crate::proofs::Digits::point_pushed, crate::proofs::Digits::place_pushed))]
fn push_all_places(into: &mut Vec<u8>, places: u8, number: u64) -> Result<(), AllocError>
    ensures { OnOk result (into.new.items ≡ into.old.items ++ all_places places number []) }
{
    if places == 0 {
        push_decimal(into, u128::from(number))?;
        into.push(b'.')?;
        return Ok(());
    }
    push_all_places(into, places - 1, number / 10)?;
    into.push(b'0' + (number % 10) as u8)?;
    Ok(())
}

/// Like `push_all_places`, but without trailing zeros, and without the point if no decimals are left.
#[tactic(auto, using(crate::proofs::Digits::no_places, crate::proofs::Digits::place_cut, crate::proofs::Digits::places_kept))]
fn push_places(into: &mut Vec<u8>, places: u8, number: u64) -> Result<(), AllocError>
    ensures { OnOk result (into.new.items ≡ into.old.items ++ places_text places number) }
{
    if places == 0 {
        return push_decimal(into, u128::from(number));
    }
    if number % 10 == 0 {
        return push_places(into, places - 1, number / 10);
    }
    push_all_places(into, places, number)
}

/// Appends a percentage given in hundredths of a percent.
#[tactic(auto, using(crate::proofs::Digits::percent_pushed))]
pub fn push_percent(into: &mut Vec<u8>, hundredths: u64) -> Result<(), AllocError>
    ensures { OnOk result (into.new.items ≡ into.old.items ++ percent_text hundredths) }
{
    push_places(into, 2, hundredths)?;
    into.push(b'%')?;
    Ok(())
}

/// Appends a percentage, which may be negative, given in hundredths of a percent.
#[tactic(auto, using(crate::proofs::Digits::signed_percent_pushed))]
pub fn push_signed_percent(into: &mut Vec<u8>, hundredths: i64) -> Result<(), AllocError>
    ensures { OnOk result (into.new.items ≡ into.old.items ++ signed_percent_text hundredths) }
{
    push_minus(into, hundredths)?;
    push_percent(into, hundredths.unsigned_abs())
}

/// Appends a number given in ten-thousandths.
#[tactic(auto, using(crate::proofs::Digits::number_pushed))]
pub fn push_number(into: &mut Vec<u8>, number: i64) -> Result<(), AllocError>
    ensures { OnOk result (into.new.items ≡ into.old.items ++ number_text number) }
{
    push_minus(into, number)?;
    push_places(into, 4, number.unsigned_abs())
}
