//! Octets in tests.

use std::alloc::Global;
use std::test::Fail;

/// Returns the octets of hex text.
pub(crate) fn octets_of(alloc: Global, text: &str) -> Result<Vec<u8>, Fail> {
    Ok(hex::decode(alloc, text)?)
}

/// Returns the octets with a range replaced by others.
pub(crate) fn spliced(
    alloc: Global,
    octets: &[u8],
    from: usize,
    to: usize,
    others: &[u8],
) -> Result<Vec<u8>, Fail> {
    let front = octets.get(..from).unwrap_or(&[]);
    let back = octets.get(to..).unwrap_or(&[]);
    let mut out = front.to_vec(alloc)?;
    out.extend_from_slice(others)?;
    out.extend_from_slice(back)?;
    Ok(out)
}
