//! Assertions as functions. The proof of a test then has one call for each assertion.

use std::fmt::Debug;
use std::io::{self, ErrorKind};
use std::process::Abort;

/// Asserts that the actual value is the expected one.
pub(crate) fn assert_same<T: Debug + PartialEq>(rt: &impl Abort, found: &T, wanted: &T) {
    assert_eq!(rt; found, wanted);
}

/// Asserts that the actual value of a row of a table is the expected one.
pub(crate) fn assert_row<T: Debug + PartialEq>(rt: &impl Abort, row: &str, found: &T, wanted: &T) {
    assert_eq!(rt; found, wanted, "{row}");
}

/// Asserts that the actual octets are the expected ones.
pub(crate) fn assert_octets(rt: &impl Abort, found: &[u8], wanted: &[u8]) {
    assert_eq!(rt; found, wanted);
}

/// Returns an answer with the kind of its error.
pub(crate) fn told<T>(answer: io::Result<T>) -> Result<T, ErrorKind> {
    match answer {
        Ok(value) => Ok(value),
        Err(e) => Err(e.kind()),
    }
}
