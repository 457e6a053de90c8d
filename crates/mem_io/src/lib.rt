//! Files, streams and a disk in memory.
//!
//! They state their contents, so that contracts can mention these, and follow a plan of failures, call by call.
//! Tests use them in place of the real objects.
#![tactic(auto)]

mod disk;
mod library;
mod sink;
mod source;

pub use disk::{MemDisk, Pick};
pub use library::MemLibrary;
pub use sink::MemSink;
pub use source::MemSource;
