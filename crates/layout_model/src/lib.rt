//! The definitions of block layout, of box positions and of scrolling, and their laws.
#![tactic(auto)]

mod laws;

ghost use Rattle.std.specs.Prelude.{◌≡◌};
ghost use Rattle.px_units.specs.Lengths.{cap};

/// The largest length, in units of 1/64 pixel; this project's own bound.
pub const LARGEST: u64 = 2147483647;

/// Returns a length in units of 1/64 pixel, clamped to the largest one.
pub fn capped(units: u64) -> u64
    ensures value { result ≡ cap units }
{
    units.min(LARGEST)
}
