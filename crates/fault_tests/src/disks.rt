//! Disks in memory that stop, and the images that a crash leaves of them.

use crate::owner::{Command, played};
use command_files::{Conclusion, Fault};
use mem_io::{MemDisk, Pick};
use road_io::Disk;
use std::alloc::Global;
use std::process::Abort;
use std::test::Fail;

/// A number of calls to the disk that no command exceeds.
pub(crate) const MANY: u64 = 100;

/// Makes a disk that holds these octets, has room for two keys, and fails from a number of calls on.
pub(crate) fn disk_of(alloc: Global, octets: &[u8], calls: u64) -> Result<MemDisk, Fail> {
    let stop = Some(calls.saturating_add(2));
    let mut disk = MemDisk::new(alloc, 8320, 100_000, Vec::new(alloc), stop)?;
    disk.write_at(0, octets)?;
    disk.sync()?;
    Ok(disk)
}

/// Returns the content of a disk.
pub(crate) fn image_of(alloc: Global, disk: &mut MemDisk) -> Result<Vec<u8>, Fail> {
    let len = disk.len()?;
    let mut octets = Vec::from_elem(alloc, 0u8, len as usize)?;
    disk.read_at(0, &mut octets)?;
    Ok(octets)
}

/// Runs a command over a disk that holds these octets and stops after this many calls. Returns whether the command
/// succeeded, and the image that a crash leaves. If it did not succeed, asserts that the disk failed and that
/// nothing was written.
pub(crate) fn stopped(
    rt: &impl Abort,
    alloc: Global,
    octets: &[u8],
    command: Command,
    calls: u64,
    pick: Pick,
) -> Result<(bool, Vec<u8>), Fail> {
    let mut disk = disk_of(alloc, octets, calls)?;
    let (end, written) = played(alloc, &mut disk, command)?;
    let is_done = end == Ok(Conclusion::Done);
    if !is_done {
        assert_eq!(rt; end, Err(Fault::Disk), "{command:?} after {calls} calls");
        assert_eq!(rt; written.len(), 0);
    }
    let mut left = disk.crash(pick);
    Ok((is_done, image_of(alloc, &mut left)?))
}
