//! A signed text that its owner never signed.

use octet_text::Octets;

/// A text, and a signature of it that verifies under a key.
#[derive(Debug, Drop)]
pub struct Forgery {
    pub key: [u8; 56],
    pub text: Octets,
    pub signature: Octets,
}
