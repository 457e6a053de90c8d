//! The result of reducing a forgery, and the reasons why a signature cannot be reduced.

use lms_tree::SealError;
use octet_text::{Digest32, NoMemory, Octets};
use thiserror::Error;

/// The result of reducing a verified signature of a text that its slot has not signed.
#[derive(Debug, Drop)]
pub enum Reduced {
    /// Two different texts with the same SHA-256 digest. The left one is the key's own, and the right one comes
    /// from the signature.
    Collision {
        left: Octets,
        right: Octets,
    },
    /// A value of a chain of the slot's one-time key that the slot has not released.
    Chain {
        /// The number of the one-time key.
        slot: u32,
        /// The number of the chain, 0 to 33.
        at: u16,
        /// The number of steps of the chain before the value, 0 to 255.
        step: u8,
        /// The value, computed from the signature.
        value: Digest32,
    },
}

/// Why a signature on a text cannot be reduced.
#[derive(Clone, Copy, Debug, PartialEq, Eq, Error)]
pub enum ReduceError {
    /// The signature is invalid, for this reason.
    #[error("{0}")]
    NotVerified(SealError),
    /// The slot with this number has signed the same text.
    #[error("Slot {0} has signed this text.")]
    Signed(u32),
    /// Out of memory.
    #[error("There is no memory for the two texts.")]
    Memory(NoMemory),
}
