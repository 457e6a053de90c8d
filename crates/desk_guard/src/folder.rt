//! The working folder, which holds the desk's file.

use outside::NotedNames;
use std::rt::Files;

/// The mode bits that grant others permission to write.
const OTHERS_WRITE: u64 = 0o022;

/// Tests whether others may write to the working folder, and so replace the desk.
pub fn unsafe_folder<R: Files>(rt: &R) -> bool {
    match NotedNames::new(rt).look(".") {
        Ok(folder) => folder.mode & OTHERS_WRITE != 0,
        Err(_) => false,
    }
}
