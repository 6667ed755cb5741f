ghost use Rattle.std.specs.Prelude.{◌≡◌, ◌++◌, ◌≤◌, drop, OnOk, OnErr};
ghost use Rattle.word_model.specs.Numbers.{decimal};

use std::alloc::AllocError;

/// Writes a number in decimal at the end of the buffer, and returns the index of its first digit.
fn write_decimal(buffer: &mut [u8; 39], value: u128) -> usize
    ensures text { drop result buffer.new ≡ decimal value }
    ensures bound { result ≤ 39 }
{
    let mut rest = value;
    for place in (0..39usize).rev() {
        buffer[place] = b'0' + (rest % 10) as u8;
        if rest < 10 {
            return place;
        }
        rest /= 10;
    }
    0
}

/// Appends a number in decimal, without a leading zero. If an allocation fails, nothing is appended.
pub fn push_decimal(out: &mut Vec<u8>, value: u128) -> Result<(), AllocError>
    ensures ok { OnOk result (out.new.items ≡ out.old.items ++ decimal value) }
    ensures err { OnErr result (out.new.items ≡ out.old.items) }
{
    let mut buffer = [b'0'; 39];
    let start = write_decimal(&mut buffer, value);
    out.extend_from_slice(&buffer[start..])
}
