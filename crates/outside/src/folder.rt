//! The working folder.

use std::fs::{self, File};
use std::io;
use std::rt::Files;

/// Syncs the working folder, so that the names of its files survive a crash. Fails also if it cannot be listed.
pub fn sync_folder<R: Files<File = File>>(rt: &R) -> io::Result<()> {
    fs::open(rt, ".")?.sync_all()
}
