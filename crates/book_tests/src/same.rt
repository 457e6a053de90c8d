//! Assertions as functions. The proof of a test that calls them is much faster than that of a test with the
//! assertions written out.

use std::alloc::{AllocError, Global};
use std::fmt::{Debug, Display};
use std::process::Abort;

/// Asserts that two values are equal.
pub(crate) fn assert_same<T: PartialEq + Debug + Drop>(rt: &impl Abort, found: T, wanted: T) {
    assert_eq!(rt; found, wanted);
}

/// Asserts that two values are equal. A failure names the row of a table.
pub(crate) fn assert_row<A: Debug + Drop, T: PartialEq + Debug + Drop>(
    rt: &impl Abort,
    row: A,
    found: T,
    wanted: T,
) {
    assert_eq!(rt; found, wanted, "at {row:?}");
}

/// Asserts the printed text of a value.
pub(crate) fn assert_printed<T: Display + Drop>(
    rt: &impl Abort,
    alloc: Global,
    value: T,
    wanted: &str,
) -> Result<(), AllocError> {
    let printed = format!(in alloc; "{value}")?;
    assert_same(rt, printed.as_str(), wanted);
    Ok(())
}
