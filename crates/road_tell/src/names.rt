//! Short names of public keys, for people.

use octet_text::{Hasher, Sha};
use std::fmt::{self, Display, Formatter};

/// The short name of a public key: the first 8 hex digits of the SHA-256 of its 56 octets. It distinguishes keys
/// but proves nothing: anyone can find another key with the same name by trying.
#[derive(Clone, Copy, Debug, PartialEq, Eq)]
pub struct ShortName(u32);

impl ShortName {
    /// Returns the short name of a public key.
    pub fn of(public: &[u8; 56]) -> ShortName {
        let mut hasher = Sha::start();
        hasher.add(public);
        let [a, b, c, d, ..] = hasher.end();
        ShortName(u32::from_be_bytes([a, b, c, d]))
    }

    /// Returns the short name of a public key. The text must begin with the key's 112 hex digits.
    pub fn of_digits(text: &[u8]) -> Option<ShortName> {
        let digits = text.get(..112)?;
        let mut public = [0; 56];
        match hex::decode_to_slice(digits, &mut public) {
            Ok(()) => Some(ShortName::of(&public)),
            Err(_) => None,
        }
    }
}

impl Display for ShortName {
    fn fmt<W: fmt::Write>(&self, f: &mut Formatter<W>) -> fmt::Result {
        let ShortName(number) = self;
        write!(f, "{number:08x}")
    }
}
