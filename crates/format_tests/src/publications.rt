//! Publications under DIJ, as octets.

use octet_text::{NoMemory, put_octets, put_u32};
use std::alloc::Global;

/// Returns the octets before the nodes: the header of this version over this number of nodes in four octets, the
/// signature, and the settings.
pub(crate) fn octets_before_nodes(
    alloc: Global,
    version: u8,
    nodes: [u8; 4],
    signature: &[u8; 1292],
) -> Result<Vec<u8>, NoMemory> {
    let mut text = Vec::new(alloc);
    let parts: [&[u8]; 9] = [
        b"RPP1RPF1",
        &[1, 0, 2, 0],
        &[0, 0, 0, 0, 0, 0, 0, version],
        &nodes,
        &[17; 32],
        &[0; 52],
        &[0x05, 0x0c],
        signature,
        &[0; 32],
    ];
    for part in parts {
        put_octets(&mut text, part)?;
    }
    Ok(text)
}

/// Appends numbers, each in four octets.
pub(crate) fn put_numbers(text: &mut Vec<u8>, numbers: &[u32]) -> Result<(), NoMemory> {
    for number in numbers {
        put_u32(text, *number)?;
    }
    Ok(())
}
