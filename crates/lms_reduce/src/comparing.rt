//! Compares the texts that the check of a signature hashes with those that the key itself hashes: from the root of
//! the tree down to the leaf, then the ends of the chains, then each chain down to the digit.
ghost use Rattle.std.specs.Prelude.{◌≡◌, ◌≢◌, ℕ, ◌*◌, ◌^◌, ◌<◌, length, take, drop, IfOk, IfSome, IfNone, IsSomeAnd, Ok};
ghost use Rattle.sha2.specs.Sha256.{sha256};
ghost use Rattle.lms_ots.specs.Chains.{candidate_of, ended_value, key_of, public_of, text_hash};
ghost use Rattle.lms_tree.specs.Signatures.{height_of, number_at, path_node, public_key, sibling, verified};
ghost use Rattle.octet_text.specs.Collisions.{AreCollision};
ghost use Rattle.lms_reduce.specs.Comparing.{EndsOwn, ShowsOwn};
ghost use Rattle.lms_reduce.specs.Meetings.{MeetAtEnds, MeetInChain, MeetOnWay};
ghost use Rattle.lms_reduce.specs.Released.{claimed_digits};
ghost use Rattle.lms_reduce.specs.Texts.{message_text};

use crate::texts::{digest_of, leaf_text, message_text, own_ends, shown_ends};
use crate::ways::{highest_meeting, is_same, meeting};
use lms_ots::{candidate, chain, digits, public_hash, secret};
use lms_tree::Key;
use octet_text::{Digest32, NoMemory, Octets, Sha, array_at, octet_law, put_octets, write_array};
use std::alloc::Global;

// Two different texts with the same digest.
#[derive(Drop)]
pub(crate) struct Clash {
    pub left: Octets,
    pub right: Octets,
}

// Copies a text.
fn copied(alloc: Global, text: &[u8]) -> Result<Octets, NoMemory>
    ensures { IfOk result (λ r. r ≡ text.now) }
{
    let mut octets = Vec::new(alloc);
    put_octets(&mut octets, text)?;
    Ok(Octets::from_vec(octets))
}

// Copies two texts that collide, and returns the copies.
fn keep(alloc: Global, left: &[u8], right: &[u8]) -> Result<Option<Clash>, NoMemory>
    requires differ { left.now ≢ right.now }
    requires one_digest { sha256 left.now ≡ sha256 right.now }
    ensures collide { IfOk result (λ r. IsSomeAnd r (λ c. AreCollision sha256 c.left c.right)) }
    ensures kept { IfOk result (λ r.
        IsSomeAnd r (λ c. (c.left ≡ left.now) × (c.right ≡ right.now))) }
{
    let own = copied(alloc, left)?;
    let shown = copied(alloc, right)?;
    Ok(Some(Clash {
        left: own,
        right: shown,
    }))
}

// Returns the sibling of a node.
fn beside(r: u32) -> u32
    requires { r < 2 ^ 31 }
    ensures { result ≡ sibling r }
{
    if r % 2 == 0 { r + 1 } else { r - 1 }
}

// Returns the digests beside the key's own path from a leaf to the root.
fn own_path(key: &Key, q: u32) -> [u8; 320]
    requires { q < 2 ^ height_of key.now.kind }
    ensures { (level : ℕ) → level < height_of key.now.kind
        → take 32 (drop (32 * level) result)
        ≡ path_node key.now.i key.now.seed (height_of key.now.kind) q level }
{
    let leaf = key.slots() + q;
    let mut path = [0; 320];
    for level in 0..key.height() {
        write_array(
            &mut path,
            32 * level as usize,
            &key.node(beside(leaf >> level)),
        );
    }
    path
}

// Finds where the path from a leaf to the root differs from the key's own path, from the root down to the leaf.
pub(crate) fn compare_ways(
    alloc: Global,
    key: &Key,
    q: u32,
    text: &[u8],
    sig: &[u8],
) -> Result<Option<Clash>, NoMemory>
    requires good { verified (public_key key.now) text.now sig.now ≡ Ok tt }
    requires slot { q ≡ number_at sig.now 0 }
    ensures found { IfOk result (λ r. IfSome r (λ c. AreCollision sha256 c.left c.right)) }
    ensures meet { IfOk result (λ r. IfSome r (λ c.
        MeetOnWay key.now q text.now sig.now c.left c.right)) }
    ensures none { IfOk result (λ r. IfNone r
        (candidate_of key.now.i q (take 1124 (drop 4 sig.now)) text.now
        ≡ public_of key.now.i q key.now.seed)) }
{
    let i = key.i();
    let leaf = key.slots() + q;
    let own = leaf_text(&i, leaf, &public_hash(&i, q, &key.seed()));
    let shown = leaf_text(&i, leaf, &candidate(&i, q, &sig[4..1128], text));
    let to = 32 * key.height() as usize;
    let own_path = own_path(key, q);
    if let Some(two) = highest_meeting::<Sha>(
        &i,
        leaf,
        &digest_of::<Sha>(&own),
        &digest_of::<Sha>(&shown),
        &own_path[..to],
        &sig[1132..],
    ) {
        return keep(alloc, &two.left, &two.right);
    }
    if !is_same(&own, &shown) {
        return keep(alloc, &own, &shown);
    }
    Ok(None)
}

// Finds where the ends of the chains differ from the key's own ends.
pub(crate) fn compare_ends(
    alloc: Global,
    i: &[u8; 16],
    q: u32,
    seed: &[u8; 32],
    digits: &[u8; 34],
    ots: &[u8],
) -> Result<Option<Clash>, NoMemory>
    requires size { length ots.now ≡ 1124 }
    requires same { key_of i.now q (ended_value i.now q digits.now ots.now)
        ≡ public_of i.now q seed.now }
    ensures found { IfOk result (λ r. IfSome r (λ c. AreCollision sha256 c.left c.right)) }
    ensures meet { IfOk result (λ r. IfSome r (λ c.
        MeetAtEnds i.now q seed.now digits.now ots.now c.left c.right)) }
    ensures none { IfOk result (λ r. IfNone r (EndsOwn i.now q seed.now digits.now ots.now)) }
{
    let own = own_ends(i, q, seed);
    let shown = shown_ends(i, q, digits, ots);
    if is_same(&own, &shown) {
        return Ok(None);
    }
    keep(alloc, &own, &shown)
}

// Finds where a chain differs from the key's own chain.
pub(crate) fn compare_chains(
    alloc: Global,
    i: &[u8; 16],
    q: u32,
    seed: &[u8; 32],
    digits: &[u8; 34],
    ots: &[u8],
) -> Result<Option<Clash>, NoMemory>
    requires size { length ots.now ≡ 1124 }
    requires ends { EndsOwn i.now q seed.now digits.now ots.now }
    ensures found { IfOk result (λ r. IfSome r (λ c. AreCollision sha256 c.left c.right)) }
    ensures meet { IfOk result (λ r. IfSome r (λ c.
        MeetInChain i.now q seed.now digits.now ots.now c.left c.right)) }
    ensures none { IfOk result (λ r. IfNone r (ShowsOwn i.now q seed.now digits.now ots.now)) }
{
    for at in 0..34u16 {
        let digit = digits[at as usize];
        let own = chain(i, q, at, 0, digit, &secret(i, q, at, seed));
        let shown = array_at(ots, 36 + 32 * at as usize);
        if let Some(two) = meeting::<Sha>(i, q, at, digit, &own, &shown) {
            return keep(alloc, &two.left, &two.right);
        }
    }
    Ok(None)
}

// Returns the hashed texts of two different signed texts with the same hash.
pub(crate) fn compare_messages(
    alloc: Global,
    i: &[u8; 16],
    q: u32,
    own_c: &Digest32,
    own: &[u8],
    c: &Digest32,
    text: &[u8],
) -> Result<Clash, NoMemory>
    requires differ { own.now ≢ text.now }
    requires one_hash { text_hash i.now q own_c.now own.now ≡ text_hash i.now q c.now text.now }
    ensures collide { IfOk result (λ clash. AreCollision sha256 clash.left clash.right) }
    ensures own { IfOk result (λ clash. clash.left ≡ message_text i.now q own_c.now own.now) }
    ensures shown { IfOk result (λ clash. clash.right ≡ message_text i.now q c.now text.now) }
{
    let left = message_text(alloc, i, q, own_c, own)?;
    let right = message_text(alloc, i, q, c, text)?;
    octet_law(left.as_slice());
    octet_law(right.as_slice());
    Ok(Clash { left, right })
}

// Finds where the check of a valid signature hashes a text that differs from the key's own.
pub(crate) fn compare(
    alloc: Global,
    key: &Key,
    q: u32,
    text: &[u8],
    sig: &[u8],
) -> Result<Option<Clash>, NoMemory>
    requires good { verified (public_key key.now) text.now sig.now ≡ Ok tt }
    requires slot { q ≡ number_at sig.now 0 }
    ensures found { IfOk result (λ r. IfSome r (λ c. AreCollision sha256 c.left c.right)) }
    ensures meet { IfOk result (λ r. IfSome r (λ c.
        MeetOnWay key.now q text.now sig.now c.left c.right)) }
    ensures none { IfOk result (λ r. IfNone r
        (ShowsOwn key.now.i q key.now.seed (claimed_digits key.now text.now sig.now)
        (take 1124 (drop 4 sig.now)))) }
{
    if let Some(clash) = compare_ways(alloc, key, q, text, sig)? {
        return Ok(Some(clash));
    }
    let i = key.i();
    let seed = key.seed();
    let ots = &sig[4..1128];
    let digits = digits(&i, q, &array_at(ots, 4), text);
    if let Some(clash) = compare_ends(alloc, &i, q, &seed, &digits, ots)? {
        return Ok(Some(clash));
    }
    compare_chains(alloc, &i, q, &seed, &digits, ots)
}
