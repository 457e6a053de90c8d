//! One-time keys: secrets, chains and public keys.
ghost use Rattle.std.specs.Prelude.{◌≡◌, ℕ, ◌-◌, ◌<◌, ◌≤◌, [], ◌∷◌, ◌++◌, length, take, drop};
ghost use Rattle.sha2.specs.Sha256.{sha256};
ghost use Rattle.octet_text.specs.Sha.{HoldsText};
ghost use Rattle.lms_ots.specs.Chains.{prefix, secret_of, chain_of, public_of};

use octet_text::{Digest32, Hasher, Sha, array_at, write_array};
use sha2::{Digest, Sha256};

// The number that marks the hash of a public key (D_PBLC, § 4.3).
pub(crate) const D_PBLC: u16 = 0x8080;

// The number with which a secret value is hashed. No step of a chain has this number (Appendix A).
pub(crate) const SECRET: u8 = 0xff;

/// Returns a hasher that has taken the prefix of each hashed text: the identifier of a tree, a number in the tree,
/// and an index.
pub fn prefixed(i: &[u8; 16], q: u32, at: u16) -> Sha
    ensures { HoldsText result (prefix i.now q at) }
{
    let mut hasher = Sha::start();
    hasher.add(i);
    hasher.add(&q.to_be_bytes());
    hasher.add(&at.to_be_bytes());
    hasher
}

// Returns the 55 octets that a step of a chain hashes. The field for the step's number is not set.
fn step_text(i: &[u8; 16], q: u32, at: u16, value: &[u8; 32]) -> [u8; 55]
    ensures prefix { take 22 result ≡ prefix i.now q at }
    ensures value { drop 23 result ≡ value.now }
{
    let mut text = [0; 55];
    write_array(&mut text, 0, i);
    write_array(&mut text, 16, &q.to_be_bytes());
    write_array(&mut text, 20, &at.to_be_bytes());
    write_array(&mut text, 23, value);
    text
}

// Performs a step: puts the step's number into the text, hashes the text, and replaces the value by the digest.
fn step(text: &mut [u8; 55], number: u8)
    ensures prefix { take 22 text.new ≡ take 22 text.old }
    ensures value { drop 23 text.new ≡ sha256 (take 22 text.old ++ number ∷ drop 23 text.old) }
{
    text[22] = number;
    let digest = Sha256::digest(&*text);
    write_array(text, 23, &digest);
}

/// Returns the secret value `x_q[at]` of a one-time key (Appendix A).
pub fn secret(i: &[u8; 16], q: u32, at: u16, seed: &[u8; 32]) -> Digest32
    requires { at < 34 }
    ensures { result ≡ secret_of i.now q seed.now at }
{
    let mut text = step_text(i, q, at, seed);
    step(&mut text, SECRET);
    array_at(&text, 23)
}

/// Returns the value that the steps `from` to `to - 1` of chain `at` compute from `x` (§ 4.3).
pub fn chain(i: &[u8; 16], q: u32, at: u16, from: u8, to: u8, x: &Digest32) -> Digest32
    requires place { at < 34 }
    requires order { from ≤ to }
    ensures { result ≡ chain_of i.now q at from (to - from) x.now }
{
    let mut text = step_text(i, q, at, x);
    for number in from..to {
        step(&mut text, number);
    }
    array_at(&text, 23)
}

/// Returns the hash `K` of a one-time public key (§ 4.3).
pub fn public_hash(i: &[u8; 16], q: u32, seed: &[u8; 32]) -> Digest32
    ensures { result ≡ public_of i.now q seed.now }
{
    let mut hasher = prefixed(i, q, D_PBLC);
    for at in 0..34 {
        hasher.add(&chain(i, q, at, 0, 255, &secret(i, q, at, seed)));
    }
    hasher.end()
}
