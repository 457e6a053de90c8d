//! One-time signatures: LM-OTS of RFC 8554 with the parameters LMOTS_SHA256_N32_W8, over SHA-256.
//!
//! A one-time key is identified by the 16 octets `I` of its tree and its number `q` in this tree. It is derived
//! from the 32 octets `SEED` as in Appendix A. It may sign only one text: two signatures under one key reveal
//! enough to forge a third. A signature has 1,124 octets. No function fails or takes memory.
#![tactic(auto)]

pub use keys::{chain, prefixed, public_hash, secret};
pub use signatures::{candidate, digits, randomiser, sign_ots};

mod keys;
mod signatures;
