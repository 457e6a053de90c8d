//! One-time signatures, and the candidate key computed from a signature.
ghost use Rattle.std.specs.Prelude.{◌≡◌, ℕ, ◌+◌, ◌-◌, ◌*◌, List, length};
ghost use Rattle.lms_ots.specs.Chains.{public_of, randomiser_of, digits_of, signature_of, candidate_of, checksum};

use crate::keys::{D_PBLC, SECRET, chain, prefixed, secret};
use octet_text::{Digest32, Hasher, array_at, write_array};

// The number that marks the hash of a signed text (D_MESG, § 4.5).
const D_MESG: u16 = 0x8181;

// The number that marks the hash from which the randomiser of a one-time key is derived.
const RANDOMISER: u16 = 0xfffd;

// The type LMOTS_SHA256_N32_W8 (§ 4.1).
const LMOTS_SHA256_N32_W8: u32 = 4;

/// Returns the randomiser `C` with which a one-time key signs, derived from the seed.
#[tactic(auto, unfolding(crate::specs::Chains::randomiser_of))]
pub fn randomiser(i: &[u8; 16], q: u32, seed: &[u8; 32]) -> Digest32
    ensures { result ≡ randomiser_of i.now q seed.now }
{
    let mut hasher = prefixed(i, q, RANDOMISER);
    hasher.add(&[SECRET]);
    hasher.add(seed);
    hasher.end()
}

// Returns the checksum of a digest (§ 4.4).
fn checksum_of(digest: &Digest32) -> u16
    ensures { result ≡ checksum digest.now }
{
    let mut sum: u16 = 0;
    for octet in digest {
        sum += 255 - *octet as u16;
    }
    sum
}

/// Returns the 34 digits of a text: the octets of its hash `Q` under the randomiser `c`, and of their checksum (§
/// 4.4 and § 4.5).
pub fn digits(i: &[u8; 16], q: u32, c: &Digest32, text: &[u8]) -> [u8; 34]
    ensures { result ≡ digits_of i.now q c.now text.now }
{
    let mut hasher = prefixed(i, q, D_MESG);
    hasher.add(c);
    hasher.add(text);
    let hash = hasher.end();
    let mut digits = [0; 34];
    write_array(&mut digits, 0, &hash);
    write_array(&mut digits, 32, &checksum_of(&hash).to_be_bytes());
    digits
}

/// Writes the one-time signature of a text, 1,124 octets (§ 4.5). The randomiser is also derived from the seed.
pub fn sign_ots(i: &[u8; 16], q: u32, seed: &[u8; 32], text: &[u8], out: &mut [u8])
    requires { length out.old ≡ 1124 }
    ensures signature { out.new ≡ signature_of i.now q seed.now text.now }
    ensures verified { candidate_of i.now q out.new text.now ≡ public_of i.now q seed.now }
{
    let c = randomiser(i, q, seed);
    let digits = digits(i, q, &c, text);
    write_array(out, 0, &LMOTS_SHA256_N32_W8.to_be_bytes());
    write_array(out, 4, &c);
    for at in 0..34u16 {
        let value = chain(i, q, at, 0, digits[at as usize], &secret(i, q, at, seed));
        write_array(out, 36 + 32 * at as usize, &value);
    }
}

/// Returns the hash `Kc` of the candidate public key, computed from a one-time signature of a text (§ 4.6,
/// algorithm 4b). It equals the key's own hash if the key made this signature of this text.
pub fn candidate(i: &[u8; 16], q: u32, ots: &[u8], text: &[u8]) -> Digest32
    requires { length ots.now ≡ 1124 }
    ensures { result ≡ candidate_of i.now q ots.now text.now }
{
    let digits = digits(i, q, &array_at(ots, 4), text);
    let mut hasher = prefixed(i, q, D_PBLC);
    for at in 0..34u16 {
        let value = array_at(ots, 36 + 32 * at as usize);
        hasher.add(&chain(i, q, at, digits[at as usize], 255, &value));
    }
    hasher.end()
}
