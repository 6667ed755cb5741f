ghost use Rattle.std.specs.Prelude.{◌≡◌, ◌++◌, ◌<◌, ◌≤◌, length, take, IfOk, OnOk, OnErr};
ghost use Rattle.px_units.specs.Texts.{pixel_text, rest_text, sign_text};

use crate::Px;
use std::alloc::{AllocError, Global};
use word_model::push_decimal;

/// Writes a point and the decimals of `rest` 64ths of a pixel at the start of the buffer, and returns the index after them.
fn write_rest(buffer: &mut [u8; 7], rest: u64) -> usize
    requires some { 0 < rest }
    requires small { rest < 64 }
    ensures text { take result buffer.new ≡ rest_text rest }
    ensures bound { result ≤ 7 }
{
    buffer[0] = b'.';
    let mut left = rest;
    for place in 1..7 {
        if left == 0 {
            return place;
        }
        buffer[place] = b'0' + (left * 10 / 64) as u8;
        left = left * 10 % 64;
    }
    7
}

/// Appends a point and the decimals of `rest` 64ths of a pixel, or nothing if `rest` is 0. If an allocation fails, nothing
/// is appended.
#[tactic(auto, using(crate::proofs::Decimals::no_rest))]
fn push_rest(out: &mut Vec<u8>, rest: u64) -> Result<(), AllocError>
    requires { rest < 64 }
    ensures ok { OnOk result (out.new.items ≡ out.old.items ++ rest_text rest) }
    ensures err { OnErr result (out.new.items ≡ out.old.items) }
{
    if rest == 0 {
        return Ok(());
    }
    let mut buffer = [b'.'; 7];
    let end = write_rest(&mut buffer, rest);
    out.extend_from_slice(&buffer[..end])
}

/// Appends the minus sign of a negative length. If an allocation fails, nothing is appended.
#[tactic(auto, unfolding(crate::specs::Texts::sign_text))]
fn push_sign(out: &mut Vec<u8>, value: Px) -> Result<(), AllocError>
    ensures ok { OnOk result (out.new.items ≡ out.old.items ++ sign_text value.0) }
    ensures err { OnErr result (out.new.items ≡ out.old.items) }
{
    if value.0 < 0 {
        out.push(b'-')?;
    }
    Ok(())
}

/// Appends a length as exact text in CSS pixels. If an allocation fails, the previous contents are kept, but something may
/// have been appended to them.
#[tactic(auto, using(crate::proofs::Appends::begins, crate::proofs::Appends::begins_again, crate::proofs::Appends::printed))]
fn push_parts(out: &mut Vec<u8>, value: Px) -> Result<(), AllocError>
    ensures ok { OnOk result (out.new.items ≡ out.old.items ++ pixel_text value.0) }
    ensures err { OnErr result (take (length out.old.items) out.new.items ≡ out.old.items) }
{
    let units = value.0.unsigned_abs();
    push_sign(out, value)?;
    push_decimal(out, u128::from(units / 64))?;
    push_rest(out, units % 64)
}

/// Appends a length as exact text in CSS pixels: a minus sign if it is negative, the whole pixels, and, if there is a
/// fraction, a point and up to six decimals without trailing zeros. If an allocation fails, nothing is appended.
pub fn push_px(out: &mut Vec<u8>, value: Px) -> Result<(), AllocError>
    ensures ok { OnOk result (out.new.items ≡ out.old.items ++ pixel_text value.0) }
    ensures err { OnErr result (out.new.items ≡ out.old.items) }
{
    let before = out.len();
    let pushed = push_parts(out, value);
    if pushed.is_err() {
        out.truncate(before);
    }
    pushed
}

/// Returns a length as exact text in CSS pixels: one unit is `0.015625`.
pub fn print_px(alloc: Global, value: Px) -> Result<Vec<u8>, AllocError>
    ensures { IfOk result (λ text. text.items ≡ pixel_text value.0) }
{
    let mut text = Vec::new(alloc);
    push_px(&mut text, value)?;
    Ok(text)
}
