//! The comparisons of all tests, proved once, so that a call of one costs a test little.

use std::fmt::{Debug, Display};
use std::process::Abort;

/// Ends the test unless both are equal; says then what was looked at, and both values.
pub(crate) fn same<T: PartialEq + Debug>(
    rt: &impl Abort,
    found: &T,
    want: &T,
    told: impl Display + Copy,
) {
    assert_eq!(rt; *found, *want, "{told}");
}

/// The same of bytes.
pub(crate) fn same_bytes(rt: &impl Abort, found: &[u8], want: &[u8], told: impl Display + Copy) {
    assert_eq!(rt; found, want, "{told}");
}
