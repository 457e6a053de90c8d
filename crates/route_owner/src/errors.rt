//! Why a publication failed.

use key_desk::DeskError;
use octet_text::NoMemory;
use route_server::BuildError;
use thiserror::Error;

/// Why a publication failed. Out of memory is always `Memory` and never part of another error.
#[derive(Clone, Copy, Debug, PartialEq, Eq, Error)]
pub enum PublishError {
    /// The parts and the settings have no book, for this reason.
    #[error("{0}")]
    Build(BuildError),
    /// The desk did not sign, for this reason. After a disk error, a slot may be used up although its signature was
    /// never made.
    #[error("{0}")]
    Desk(DeskError),
    /// Out of memory. Nothing was signed.
    #[error("Out of memory.")]
    Memory(NoMemory),
}
