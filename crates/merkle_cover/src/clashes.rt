//! Finding two texts with the same digest, if a root is recomputed from texts other than the tree's own.
ghost use Rattle.std.specs.Prelude.{◌≡◌, ◌≢◌, ℕ, ◌+◌, ◌*◌, ◌^◌, ◌<◌, ◌≤◌, ◌↔◌, ◌&&◌, Bool, List, [], ◌∷◌, ◌++◌, length, drop, slice_index, slice_index_or, IfOk, IfErr, IfSome, IsNone, Ok};
ghost use Rattle.std.specs.Bool.{OnTrue, OnFalse};
ghost use Rattle.merkle_cover.specs.Clashes.{CanCompare, CanRead, IsClash, SameBelow, AreHashed, hashed_text, folded_text};
ghost use Rattle.merkle_cover.specs.Covers.{IsRising, cover_of, chosen_texts, fold_of};
ghost use Rattle.merkle_cover.specs.Trees.{digest, tree_of};
ghost use Rattle.merkle_cover.specs.Folding.{CanFold, IsFolded};

use crate::covers::digest_of;
use crate::cuts::CutTexts;
use crate::folds::{Brought, Folded, digest_at, fold_place, is_next_below, leaf_digest, top_of};
use crate::texts::Texts;
use crate::trees::Tree;
use octet_text::{Digest32, Digests, Hasher, NoMemory, Octets, put_octets, put_u8};
use std::alloc::Global;

// A position at which the tree and the recomputed root hash different texts to the same digest.
#[derive(Clone, Copy)]
struct ClashPlace {
    level: u32,
    place: u64,
    span: u64,
    item: usize,
    taken: usize,
}

fn same_digests(left: &Digest32, right: &Digest32) -> bool
    ensures same { OnTrue result (left.now ≡ right.now) }
    ensures apart { OnFalse result (left.now ≢ right.now) }
{
    left == right
}

fn same_octets(left: &[u8], right: &[u8]) -> bool
    ensures same { OnTrue result (left.now ≡ right.now) }
    ensures apart { OnFalse result (left.now ≢ right.now) }
{
    left == right
}

fn same_covers(left: &[Digest32], right: &[Digest32]) -> bool
    ensures { OnTrue result (left.now ≡ right.now) }
{
    left == right
}

fn both(left: bool, right: bool) -> bool
    ensures { result ≡ (left && right) }
{
    left && right
}

// Tests whether each text is the leaf at its position.
fn are_chosen(leaves: &Texts, places: &[u32], texts: &CutTexts<'_>) -> bool
    requires places { IsRising (length leaves.now) places.now }
    requires texts { length texts.now ≡ length places.now }
    ensures { OnTrue result (texts.now ≡ chosen_texts leaves.now places.now) }
{
    for index in 0..texts.count() {
        let leaf = leaves.text(places[index as usize]);
        if !same_octets(texts.text(index), leaf) {
            return false;
        }
    }
    true
}

// Tests whether the texts and the cover equal the tree's own, octet by octet. Hashes nothing.
fn are_own<H: Hasher>(
    alloc: Global,
    tree: &Tree<H>,
    leaves: &Texts,
    places: &[u32],
    texts: &CutTexts<'_>,
    cover: &[Digest32],
) -> Result<bool, NoMemory>
    requires built { tree.now ≡ tree_of H.hash leaves.now tree.now.fan }
    requires places { IsRising (length leaves.now) places.now }
    requires texts { length texts.now ≡ length places.now }
    ensures { IfOk result (λ own. OnTrue own
        ((texts.now ≡ chosen_texts leaves.now places.now) ×
        (cover.now ≡ cover_of H.hash leaves.now tree.now.fan places.now))) }
{
    if !are_chosen(leaves, places, texts) {
        return Ok(false);
    }
    let whole = tree.cover(alloc, places)?;
    Ok(same_covers(whole.as_slice(), cover))
}

// Recomputes the digest of a position from the given texts and cover. Compares it with the tree, and returns the
// position at which the two clash, if they do.
fn compare_place<H: Hasher>(
    given: &Brought<'_>,
    levels: &[Digests],
    leaves: &Texts,
    level: u32,
    place: u64,
    span: u64,
    item: usize,
    taken: usize,
) -> Result<Folded, ClashPlace>
    requires count { given.now.leaves ≡ length leaves.now }
    requires compare { CanCompare H.hash leaves.now given.now.fan given.now.places.now
        given.now.texts.now given.now.cover.now levels.now
        (cover_of H.hash leaves.now given.now.fan given.now.places.now) level place span item
        taken }
    ensures folded { IfOk result (λ r.
        IsFolded H.hash (length leaves.now) given.now.fan given.now.places.now given.now.texts.now
        given.now.cover.now level place span taken r.digest r.item r.taken) }
    ensures same { IfOk result (λ r. r.digest ≡ digest H.hash leaves.now given.now.fan level place
        → SameBelow H.hash leaves.now given.now.fan given.now.places.now given.now.texts.now
        given.now.cover.now level place taken item r.item) }
    ensures size { IfOk result (λ r. length r.digest ≡ 32) }
    ensures clash { IfErr result (λ s.
        IsClash H.hash leaves.now given.now.fan given.now.places.now given.now.texts.now
        given.now.cover.now levels.now
        (cover_of H.hash leaves.now given.now.fan given.now.places.now) s.level s.place s.span
        s.item s.taken) }
{
    let spot = ClashPlace {
        level,
        place,
        span,
        item,
        taken,
    };
    if !is_next_below(given.places, item, (place + 1) * span) {
        return Ok(Folded {
            digest: digest_at(given.cover, taken),
            item,
            taken: taken + 1,
        });
    }
    let of_tree = digest_of(levels, level as usize, place as usize);
    if level == 0 {
        let text = given.texts.text(item as u32);
        let all = Folded {
            digest: leaf_digest::<H>(text),
            item: item + 1,
            taken,
        };
        if same_octets(text, leaves.text(place as u32)) {
            return Ok(all);
        }
        if same_digests(&all.digest, &of_tree) {
            return Err(spot);
        }
        return Ok(all);
    }
    let below = span / given.fan;
    let first = place * given.fan;
    let end = (first + given.fan).min(given.leaves.div_ceil(below));
    let mut hasher = H::start();
    hasher.add(&[1]);
    let mut item = item;
    let mut taken = taken;
    let mut equal = true;
    for child in first..end {
        let part = compare_place::<H>(given, levels, leaves, level - 1, child, below, item, taken)?;
        let of_child = digest_of(levels, level as usize - 1, child as usize);
        equal = both(equal, same_digests(&part.digest, &of_child));
        hasher.add(&part.digest);
        item = part.item;
        taken = part.taken;
    }
    let digest = hasher.end();
    let all = Folded {
        digest,
        item,
        taken,
    };
    if equal {
        return Ok(all);
    }
    if same_digests(&digest, &of_tree) {
        return Err(spot);
    }
    Ok(all)
}

// Returns the text that the tree hashes at a position.
fn tree_text<H: Hasher>(
    alloc: Global,
    levels: &[Digests],
    leaves: &Texts,
    fan: u64,
    level: u32,
    place: u64,
    span: u64,
) -> Result<Vec<u8>, NoMemory>
    requires { CanRead H.hash leaves.now fan levels.now level place span }
    ensures { IfOk result (λ text. text.items ≡ hashed_text H.hash leaves.now fan level place) }
{
    let mut text = Vec::new(alloc);
    if level == 0 {
        put_u8(&mut text, 0)?;
        put_octets(&mut text, leaves.text(place as u32))?;
        return Ok(text);
    }
    put_u8(&mut text, 1)?;
    let first = place * fan;
    let end = (first + fan).min(u64::from(leaves.count()).div_ceil(span / fan));
    for child in first..end {
        let digest = digest_of(levels, level as usize - 1, child as usize);
        put_octets(&mut text, &digest)?;
    }
    Ok(text)
}

// Returns the text that the recomputed root hashes at a position above or at a chosen leaf.
fn given_text<H: Hasher>(
    alloc: Global,
    given: &Brought<'_>,
    level: u32,
    place: u64,
    span: u64,
    item: usize,
    taken: usize,
) -> Result<Vec<u8>, NoMemory>
    requires fold { CanFold given.now.leaves given.now.fan given.now.places.now given.now.texts.now
        level place span item taken }
    requires next { (item < length given.now.places.now) ×
        (slice_index given.now.places.now item < (place + 1) * span) }
    ensures { IfOk result (λ text.
        text.items ≡ folded_text H.hash given.now.leaves given.now.fan given.now.places.now
        given.now.texts.now level place (drop taken given.now.cover.now)) }
{
    let mut text = Vec::new(alloc);
    if level == 0 {
        put_u8(&mut text, 0)?;
        put_octets(&mut text, given.texts.text(item as u32))?;
        return Ok(text);
    }
    put_u8(&mut text, 1)?;
    let below = span / given.fan;
    let first = place * given.fan;
    let end = (first + given.fan).min(given.leaves.div_ceil(below));
    let mut item = item;
    let mut taken = taken;
    for child in first..end {
        let part = fold_place::<H>(given, level - 1, child, below, item, taken);
        put_octets(&mut text, &part.digest)?;
        item = part.item;
        taken = part.taken;
    }
    Ok(text)
}

/// Two different texts with the same digest.
#[derive(Debug, Drop)]
pub struct TwoTexts {
    /// The text that the tree hashes.
    pub left: Octets,
    /// The text that the recomputation of the root hashes.
    pub right: Octets,
}

/// Returns two different texts with the same digest. It finds them by comparing a tree with texts and a cover from
/// which the same root is recomputed. Returns `None` exactly if each given text is the leaf at its position and the
/// cover is the tree's own.
///
/// Compares octets first. Hashes only if some octets differ. It then takes as much time as recomputing the root.
pub fn clash<H: Hasher>(
    alloc: Global,
    tree: &Tree<H>,
    leaves: &Texts,
    places: &[u32],
    texts: &CutTexts<'_>,
    cover: &[Digest32],
) -> Result<Option<TwoTexts>, NoMemory>
    requires built { tree.now ≡ tree_of H.hash leaves.now tree.now.fan }
    requires places { 1 ≤ length places.now }
    requires texts { length texts.now ≡ length places.now }
    requires folds { fold_of H.hash
        (length leaves.now) tree.now.fan places.now texts.now cover.now ≡ Ok tree.now.root }
    ensures own { IfOk result (λ r. IsNone r
        ↔ ((texts.now ≡ chosen_texts leaves.now places.now) ×
        (cover.now ≡ cover_of H.hash leaves.now tree.now.fan places.now))) }
    ensures differ { IfOk result (λ r. IfSome r (λ two. two.left ≢ two.right)) }
    ensures one_digest { IfOk result (λ r. IfSome r (λ two. H.hash two.left ≡ H.hash two.right)) }
    ensures sides { IfOk result (λ r. IfSome r (λ two.
        AreHashed H.hash leaves.now tree.now.fan places.now texts.now cover.now two.left
        two.right)) }
{
    if are_own::<H>(alloc, tree, leaves, places, texts, cover)? {
        return Ok(None);
    }
    let levels = tree.levels();
    let given = Brought {
        leaves: u64::from(leaves.count()),
        fan: u64::from(tree.fan()),
        places,
        texts,
        cover,
    };
    let (level, span) = top_of(given.leaves, given.fan);
    match compare_place::<H>(&given, levels, leaves, level, 0, span, 0, 0) {
        Ok(_) => Ok(None),
        Err(spot) => {
            let left = tree_text::<H>(
                alloc, levels, leaves, given.fan, spot.level, spot.place, spot.span,
            )?;
            let right = given_text::<H>(
                alloc, &given, spot.level, spot.place, spot.span, spot.item, spot.taken,
            )?;
            Ok(Some(TwoTexts {
                left: Octets::from_vec(left),
                right: Octets::from_vec(right),
            }))
        }
    }
}
