//! The secret's file.

use outside::{NotedNames, REGULAR};
use std::fmt::{self, Display, Formatter};
use std::rt::Files;

/// The mode bits that grant others any permission.
const OTHERS: u64 = 0o077;

/// The least number of different octets in a secret that counts as random. Fewer than 16 different octets occur in
/// 48 random octets with a probability of 2^-60.
const FEW: u32 = 16;

/// Why the text of a secret's file is not secret.
#[derive(Clone, Copy, Debug, PartialEq, Eq)]
pub enum SecretDoubt {
    /// It has fewer than 16 different octets.
    FewOctets,
    /// Others may read or write the file.
    OpenToOthers,
}

impl Display for SecretDoubt {
    fn fmt<W: fmt::Write>(&self, f: &mut Formatter<W>) -> fmt::Result {
        f.write_str(match self {
            SecretDoubt::FewOctets =>
                "It has fewer than 16 different octets and is no secret: anybody can sign in your name.",
            SecretDoubt::OpenToOthers =>
                "Others may read or write it. Destroy it now that the key is made.",
        })
    }
}

/// Returns why the text of a secret's file with this name is not secret. `text` has its first octets.
pub fn secret_doubts<R: Files>(rt: &R, name: &str, text: &[u8]) -> [Option<SecretDoubt>; 2] {
    [
        if_so(has_few_octets(text), SecretDoubt::FewOctets),
        if_so(is_open_to_others(rt, name), SecretDoubt::OpenToOthers),
    ]
}

/// Returns a doubt if it is so.
fn if_so(is_so: bool, doubt: SecretDoubt) -> Option<SecretDoubt> {
    if is_so { Some(doubt) } else { None }
}

/// Tests whether the file with this name is a regular file that others may read.
fn is_open_to_others<R: Files>(rt: &R, name: &str) -> bool {
    match NotedNames::new(rt).look(name) {
        Ok(file) => file.kind == REGULAR && file.mode & OTHERS != 0,
        Err(_) => false,
    }
}

/// Tests whether the 48 octets in a text's first 96 hex digits include fewer than 16 different ones.
fn has_few_octets(text: &[u8]) -> bool {
    let Some(digits) = text.get(..96) else {
        return false;
    };
    let mut secret = [0u8; 48];
    if hex::decode_to_slice(digits, &mut secret).is_err() {
        return false;
    }
    let mut different = 0u32;
    for octet in 0..=255u8 {
        if secret.contains(&octet) {
            different = different.saturating_add(1);
        }
    }
    different < FEW
}
