//! Why a desk cannot tell whether texts are signed.

use key_desk::DeskError;
use octet_text::NoMemory;
use thiserror::Error;

/// Why a desk cannot tell whether texts are signed.
#[derive(Clone, Copy, Debug, PartialEq, Eq, Error)]
pub enum LookError {
    /// The desk could not tell what it has signed, for this reason.
    #[error("{0}")]
    Desk(DeskError),
    /// Out of memory.
    #[error("Out of memory.")]
    Memory(NoMemory),
}
