//! The comparisons of all tests, proved once, so that a call of one costs a test little.

use std::fmt::Debug;
use std::process::Abort;

/// Ends the test unless both are equal; says then what was looked at, and both values.
pub fn same<T: PartialEq + Debug>(rt: &impl Abort, found: &T, want: &T, told: &str) {
    assert_eq!(rt; *found, *want, "{told}");
}

/// The same of bytes.
pub fn same_bytes(rt: &impl Abort, found: &[u8], want: &[u8], told: &str) {
    assert_eq!(rt; found, want, "{told}");
}
