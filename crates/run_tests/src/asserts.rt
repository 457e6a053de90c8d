//! Assertions as functions. The proof of a test then has one call for each assertion.

use std::fmt::Debug;
use std::process::Abort;

/// Asserts that the value for a command line is the expected one.
pub(crate) fn assert_same<T: Debug + PartialEq>(
    rt: &impl Abort,
    line: &str,
    found: &T,
    wanted: &T,
) {
    assert_eq!(rt; found, wanted, "at {line}");
}

/// Asserts that the octets for a command line are the expected ones.
pub(crate) fn assert_octets(rt: &impl Abort, line: &str, found: &[u8], wanted: &[u8]) {
    assert_eq!(rt; found, wanted, "at {line}");
}
