//! The texts whose hashes lead from a signature to the root of a tree.
ghost use Rattle.std.specs.Prelude.{◌≡◌, length, IfOk};
ghost use Rattle.lms_ots.specs.Chains.{prefix, ended_value, public_value};
ghost use Rattle.lms_reduce.specs.Texts.{inner_text, leaf_text, message_text, parent_text, step_text, values_text};

use lms_ots::{chain, secret};
use octet_text::{Digest32, Hasher, NoMemory, Octets, array_at, put_octets, write_array};
use std::alloc::Global;

// The numbers that mark the hash of a public key, of a signed text, of a leaf and of an inner node (§ 4.3, § 4.5, §
// 5.3).
const D_PBLC: u16 = 0x8080;

const D_MESG: u16 = 0x8181;

const D_LEAF: u16 = 0x8282;

const D_INTR: u16 = 0x8383;

// Returns the digest of a text.
pub(crate) fn digest_of<H: Hasher>(text: &[u8]) -> Digest32
    ensures { result ≡ H.hash text.now }
{
    let mut hasher = H::start();
    hasher.add(text);
    hasher.end()
}

// Returns the prefix of each hashed text.
fn prefix(i: &[u8; 16], q: u32, at: u16) -> [u8; 22]
    ensures { result ≡ prefix i.now q at }
{
    let mut text = [0; 22];
    write_array(&mut text, 0, i);
    write_array(&mut text, 16, &q.to_be_bytes());
    write_array(&mut text, 20, &at.to_be_bytes());
    text
}

// Returns the text that a step of a chain hashes.
#[tactic(auto, unfolding(crate::specs::Texts::step_text))]
pub(crate) fn step_text(i: &[u8; 16], q: u32, at: u16, number: u8, value: &Digest32) -> [u8; 55]
    ensures { result ≡ step_text i.now q at number value.now }
{
    let mut text = [0; 55];
    write_array(&mut text, 0, &prefix(i, q, at));
    write_array(&mut text, 22, &[number]);
    write_array(&mut text, 23, value);
    text
}

// Returns the text that is hashed for a leaf.
#[tactic(auto, unfolding(crate::specs::Texts::leaf_text))]
pub(crate) fn leaf_text(i: &[u8; 16], r: u32, key: &Digest32) -> [u8; 54]
    ensures { result ≡ leaf_text i.now r key.now }
{
    let mut text = [0; 54];
    write_array(&mut text, 0, &prefix(i, r, D_LEAF));
    write_array(&mut text, 22, key);
    text
}

// Returns the text that is hashed for an inner node.
#[tactic(auto, unfolding(crate::specs::Texts::inner_text))]
fn inner_text(i: &[u8; 16], r: u32, left: &Digest32, right: &Digest32) -> [u8; 86]
    ensures { result ≡ inner_text i.now r left.now right.now }
{
    let mut text = [0; 86];
    write_array(&mut text, 0, &prefix(i, r, D_INTR));
    write_array(&mut text, 22, left);
    write_array(&mut text, 54, right);
    text
}

// Returns the text that is hashed for the parent of node r, from the value at r and at its sibling.
#[tactic(auto, unfolding(crate::specs::Texts::parent_text))]
pub(crate) fn parent_text(i: &[u8; 16], r: u32, value: &Digest32, other: &Digest32) -> [u8; 86]
    ensures { result ≡ parent_text i.now r value.now other.now }
{
    if r % 2 == 0 {
        inner_text(i, r / 2, value, other)
    } else {
        inner_text(i, r / 2, other, value)
    }
}

// Returns the text that is hashed from the ends of a key's own chains.
pub(crate) fn own_ends(i: &[u8; 16], q: u32, seed: &[u8; 32]) -> [u8; 1110]
    ensures { result ≡ values_text i.now q (public_value i.now q seed.now) }
{
    let mut text = [0; 1110];
    write_array(&mut text, 0, &prefix(i, q, D_PBLC));
    for at in 0..34u16 {
        let value = chain(i, q, at, 0, 255, &secret(i, q, at, seed));
        write_array(&mut text, 22 + 32 * at as usize, &value);
    }
    text
}

// Returns the text that is hashed from the ends of the chains, computed from the values of a one-time signature.
pub(crate) fn shown_ends(i: &[u8; 16], q: u32, digits: &[u8; 34], ots: &[u8]) -> [u8; 1110]
    requires { length ots.now ≡ 1124 }
    ensures { result ≡ values_text i.now q (ended_value i.now q digits.now ots.now) }
{
    let mut text = [0; 1110];
    write_array(&mut text, 0, &prefix(i, q, D_PBLC));
    for at in 0..34u16 {
        let shown = array_at(ots, 36 + 32 * at as usize);
        let value = chain(i, q, at, digits[at as usize], 255, &shown);
        write_array(&mut text, 22 + 32 * at as usize, &value);
    }
    text
}

// Returns the text that is hashed for a signed text.
#[tactic(auto, unfolding(crate::specs::Texts::message_text))]
pub(crate) fn message_text(
    alloc: Global,
    i: &[u8; 16],
    q: u32,
    c: &Digest32,
    text: &[u8],
) -> Result<Octets, NoMemory>
    ensures { IfOk result (λ r. r ≡ message_text i.now q c.now text.now) }
{
    let mut hashed = Vec::new(alloc);
    put_octets(&mut hashed, &prefix(i, q, D_MESG))?;
    put_octets(&mut hashed, c)?;
    put_octets(&mut hashed, text)?;
    Ok(Octets::from_vec(hashed))
}
