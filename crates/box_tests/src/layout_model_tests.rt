//! Lengths at the bound.

use crate::same::same;
use layout_model::capped;

/// The largest length in 1/64 pixel, as `docs/DECISIONS.md` says.
const LARGEST: u64 = 2_147_483_647;

#[test]
fn lengths_are_cut_to_the_largest(rt: HostRuntime) {
    let rows = [
        (0, 0),
        (64, 64),
        (LARGEST, LARGEST),
        (LARGEST + 1, LARGEST),
        (u64::MAX, LARGEST),
    ];
    for (units, wanted) in rows {
        same(&rt, &capped(units), &wanted, "a length that is cut");
    }
}
