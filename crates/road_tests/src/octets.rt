//! Octets in tests.

use crate::same::assert_same;
use octet_text::{Hasher, Sha};
use std::alloc::Global;
use std::process::Abort;
use std::test::Fail;

/// Asserts that octets equal these hex digits.
pub(crate) fn assert_hex(
    rt: &impl Abort,
    alloc: Global,
    octets: &[u8],
    wanted: &str,
) -> Result<(), Fail> {
    let text = hex::encode(alloc, octets)?;
    assert_same(rt, text.as_str(), wanted);
    Ok(())
}

fn digest(octets: &[u8]) -> [u8; 32] {
    let mut hasher = Sha::start();
    hasher.add(octets);
    hasher.end()
}

/// Asserts that octets have this digest.
pub(crate) fn assert_digest(
    rt: &impl Abort,
    alloc: Global,
    octets: &[u8],
    wanted: &str,
) -> Result<(), Fail> {
    let digest = digest(octets);
    assert_hex(rt, alloc, &digest, wanted)
}
