//! LMS signatures: the trees of RFC 8554 over SHA-256, of heights 5 and 10, with the one-time
//! signatures of `lms_ots` at their leaves.
//!
//! A key signs as many texts as its tree has leaves, one with each one-time key. It does not count them: the caller
//! of `Key::sign_into` must never use a one-time key for two texts.
//!
//! ```rust
//! let key = Key::build(alloc, 5, &[0; 16], &[0; 32])?;
//! let mut signature = [0; 1292];
//! // This key has 32 one-time keys. The last one signs here, and must never sign another text.
//! key.sign_into(31, b"abc", &mut signature);
//! let public = key.public();
//! verify(&public, b"abc", &signature)?;
//! ```
#![tactic(auto)]

pub use chain_files::{read_links, write_links};
pub use keys::{Key, KeyError};
pub use kinds::sig_len;
pub use links::{Link, follow, is_link, link_text, verify_along};
pub use seals::{SealError, verify};

mod chain_files;
mod hashes;
mod keys;
mod kinds;
mod links;
mod seals;
