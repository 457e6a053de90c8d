//! Reducing a forgery to the hash.
ghost use Rattle.std.specs.Prelude.{◌≡◌, ◌≢◌, ◌↔◌, ℕ, ◌+◌, ◌*◌, ◌<◌, ◌≤◌, length, take, drop, slice_index, IfOk, IfSome, IfNone, Some, Ok, Err};
ghost use Rattle.std.specs.Bool.{OnTrue, OnFalse};
ghost use Rattle.std.specs.Option.{option_copied};
ghost use Rattle.lms_tree.specs.Signatures.{number_at, public_key, verified};
ghost use Rattle.lms_tree.specs.declared.seals.SealError.{SealError};
ghost use Rattle.lms_reduce.specs.Comparing.{HasNoLesser, IsFirstLesser};
ghost use Rattle.lms_reduce.specs.Reduction.{IsOfSigned, Reduces};
ghost use Rattle.lms_reduce.specs.declared.reduced.ReduceError.TheVariants.{NotVerified, Signed};
ghost use Rattle.lms_reduce.specs.declared.reduced.Reduced.TheVariants.{Chain};

use crate::comparing::{Clash, compare, compare_messages};
use crate::ways::is_same;
use crate::{ReduceError, Reduced};
use lms_ots::{digits, randomiser};
use lms_tree::{Key, verify};
use octet_text::{NoMemory, array_at};
use std::alloc::Global;

// Tests whether a slot has signed a text.
fn is_signed(spent: Option<&[u8]>, text: &[u8]) -> bool
    ensures signed { OnTrue result (option_copied spent.entry ≡ Some text.now) }
    ensures other { OnFalse result (option_copied spent.entry ≢ Some text.now) }
{
    match spent {
        Some(signed) => is_same(signed, text),
        None => false,
    }
}

// Returns the first index at which one list of digits has a lesser digit than another list.
fn first_lesser(digits: &[u8; 34], others: &[u8; 34]) -> Option<u16>
    ensures found { IfSome result (IsFirstLesser digits.now others.now) }
    ensures none { IfNone result (HasNoLesser digits.now others.now) }
{
    for at in 0..34u16 {
        if digits[at as usize] < others[at as usize] {
            return Some(at);
        }
    }
    None
}

// Returns the value of the chain at an index that a signature shows.
fn chain_at(q: u32, at: u16, digits: &[u8; 34], sig: &[u8]) -> Reduced
    requires place { at < 34 }
    requires size { 1132 ≤ length sig.now }
    ensures { result
        ≡ Chain q at (slice_index digits.now at) (take 32 (drop (40 + 32 * at) sig.now)) }
{
    Reduced::Chain {
        slot: q,
        at,
        step: digits[at as usize],
        value: array_at(sig, 40 + 32 * at as usize),
    }
}

// Reduces a valid signature of a text that its slot has not signed.
fn reduce_good(
    alloc: Global,
    key: &Key,
    q: u32,
    spent: Option<&[u8]>,
    text: &[u8],
    sig: &[u8],
) -> Result<Reduced, NoMemory>
    requires good { verified (public_key key.now) text.now sig.now ≡ Ok tt }
    requires slot { q ≡ number_at sig.now 0 }
    requires other { option_copied spent ≢ Some text.now }
    ensures { IfOk result (Reduces key.now (option_copied spent.entry) text.now sig.now) }
{
    if let Some(Clash { left, right }) = compare(alloc, key, q, text, sig)? {
        return Ok(Reduced::Collision { left, right });
    }
    let i = key.i();
    let c = array_at(sig, 8);
    let shown = digits(&i, q, &c, text);
    let Some(own) = spent else {
        return Ok(chain_at(q, 0, &shown, sig));
    };
    let own_c = randomiser(&i, q, &key.seed());
    match first_lesser(&shown, &digits(&i, q, &own_c, own)) {
        Some(at) => Ok(chain_at(q, at, &shown, sig)),
        None => {
            let Clash { left, right } = compare_messages(alloc, &i, q, &own_c, own, &c, text)?;
            Ok(Reduced::Collision { left, right })
        }
    }
}

/// Reduces a signature of a text. Needs the key itself, and the text that the signature's slot has signed, if it
/// has signed one.
///
/// Compares the texts that the check of the signature hashes with those that the key hashes: from the root of the
/// tree down to the leaf, then the ends of the chains, then each chain down to the digit of the text. If two
/// different texts have the same digest, they are the result. Otherwise each value of the signature is the key's
/// own, and the result is the value of the first chain that the slot has not released. Such a chain exists because
/// of the checksum, unless the two signed texts collide.
///
/// The left text of a collision is the key's own and may reveal a value that was not released. So only the owner
/// should show it.
pub fn reduce(
    alloc: Global,
    key: &Key,
    spent: Option<&[u8]>,
    text: &[u8],
    sig: &[u8],
) -> Result<Reduced, ReduceError>
    ensures not_verified { (why : SealError) → (result ≡ Err (NotVerified why))
        ↔ (verified (public_key key.now) text.now sig.now ≡ Err why) }
    ensures signed { (q : ℕ) → (result ≡ Err (Signed q))
        ↔ IsOfSigned key.now (option_copied spent.entry) text.now sig.now q }
    ensures reduced { IfOk result (Reduces key.now (option_copied spent.entry) text.now sig.now) }
{
    if let Err(why) = verify(&key.public(), text, sig) {
        return Err(ReduceError::NotVerified(why));
    }
    let q = u32::from_be_bytes(array_at(sig, 0));
    if is_signed(spent, text) {
        return Err(ReduceError::Signed(q));
    }
    match reduce_good(alloc, key, q, spent, text, sig) {
        Ok(reduced) => Ok(reduced),
        Err(none) => Err(ReduceError::Memory(none)),
    }
}
