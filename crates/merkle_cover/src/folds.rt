//! Recomputing a root from some leaves and the cover of the others.
ghost use Rattle.std.specs.Prelude.{◌≡◌, ℕ, ◌+◌, ◌*◌, ◌^◌, ◌<◌, ◌≤◌, ◌↔◌, List, [], ◌∷◌, length, IsTrue, slice_index, slice_index_or, replicate, MatchResult, Option, Ok, Err};
ghost use Rattle.std.specs.Bool.{OnTrue, OnFalse};
ghost use Rattle.merkle_cover.specs.Covers.{IsRising, first_fault, fold_of};
ghost use Rattle.merkle_cover.specs.Folding.{CanFold, IsFolded, SplitsAt};
ghost use Rattle.merkle_cover.specs.Shape.{top};

use crate::cuts::CutTexts;
use octet_text::{Digest32, Hasher};
use thiserror::Error;

/// Why no root can be recomputed from the given positions and cover.
#[derive(Clone, Copy, Debug, PartialEq, Eq, Error)]
pub enum FoldError {
    /// The position at this index is not below the number of leaves, or does not exceed the one before it.
    #[error("The place at index {0} is no leaf, or does not exceed the one before.")]
    Place(u32),
    /// The cover has fewer digests than the positions need.
    #[error("The cover has too few digests.")]
    CoverShort,
    /// The cover has more digests than the positions need.
    #[error("The cover has too many digests.")]
    CoverLong,
}

/// Returns the digest of a leaf: the hash of the octet 00 and the leaf's text.
pub fn leaf_digest<H: Hasher>(text: &[u8]) -> Digest32
    ensures { result ≡ H.hash (0 ∷ text.now) }
{
    let mut hasher = H::start();
    hasher.add(&[0]);
    hasher.add(text);
    hasher.end()
}

/// Returns the first index at which a position is not below the number of leaves or does not exceed the one before
/// it.
pub fn fault_of(leaves: u32, places: &[u32]) -> Option<u32>
    ensures { result ≡ first_fault leaves places.now }
{
    let mut least = 0;
    let mut index = 0;
    for place in places {
        if *place < least || *place >= leaves {
            return Some(index);
        }
        least = *place + 1;
        index += 1;
    }
    None
}

/// Tests whether positions strictly ascend and are below the number of leaves.
pub fn are_rising(leaves: u32, places: &[u32]) -> bool
    ensures { IsTrue result ↔ IsRising leaves places.now }
{
    fault_of(leaves, places).is_none()
}

/// Returns the top level of a tree with this many leaves, and the number of leaves that fit below its position.
pub fn top_of(leaves: u64, fan: u64) -> (u32, u64)
    requires fan { 2 ≤ fan }
    requires fan_max { fan ≤ 32 }
    requires leaves { 1 ≤ leaves }
    requires leaves_max { leaves < 2 ^ 32 }
    ensures level { result.0 ≡ top leaves fan }
    ensures span { result.1 ≡ fan ^ result.0 }
    ensures few { result.1 < 2 ^ 37 }
{
    let mut level = 0;
    let mut span = 1;
    while span < leaves {
        span *= fan;
        level += 1;
    }
    (level, span)
}

// The input for recomputing a root: the texts at some positions of the leaves, and a cover.
#[derive(Drop)]
pub(crate) struct Brought<'a> {
    pub(crate) leaves: u64,
    pub(crate) fan: u64,
    pub(crate) places: &'a [u32],
    pub(crate) texts: &'a CutTexts<'a>,
    pub(crate) cover: &'a [Digest32],
}

// The digest of a position, the index of the next given text, and the number of digests taken from the cover.
#[derive(Drop)]
pub(crate) struct Folded {
    pub(crate) digest: Digest32,
    pub(crate) item: usize,
    pub(crate) taken: usize,
}

/// Tests whether the index exists in a list of positions and its position is below `end`.
pub fn is_next_below(places: &[u32], item: usize, end: u64) -> bool
    ensures next { OnTrue result ((item < length places.now) ×
        (slice_index places.now item < end)) }
    ensures past { OnFalse result (item < length places.now → end ≤ slice_index places.now item) }
{
    item < places.len() && u64::from(places[item]) < end
}

// Returns the digest at an index, or zeros if the index is past the end.
pub(crate) fn digest_at(digests: &[Digest32], index: usize) -> Digest32
    ensures value { result ≡ slice_index_or digests.now index (replicate 32 0) }
    ensures size { length result ≡ 32 }
{
    if index < digests.len() {
        digests[index]
    } else {
        [0; 32]
    }
}

// Recomputes the digest of a position from the given texts and cover.
pub(crate) fn fold_place<H: Hasher>(
    given: &Brought<'_>,
    level: u32,
    place: u64,
    span: u64,
    item: usize,
    taken: usize,
) -> Folded
    requires { CanFold given.now.leaves given.now.fan given.now.places.now given.now.texts.now level
        place span item taken }
    ensures { IsFolded H.hash given.now.leaves given.now.fan given.now.places.now
        given.now.texts.now given.now.cover.now level place span taken result.digest result.item
        result.taken }
{
    if !is_next_below(given.places, item, (place + 1) * span) {
        return Folded {
            digest: digest_at(given.cover, taken),
            item,
            taken: taken + 1,
        };
    }
    if level == 0 {
        return Folded {
            digest: leaf_digest::<H>(given.texts.text(item as u32)),
            item: item + 1,
            taken,
        };
    }
    let below = span / given.fan;
    let first = place * given.fan;
    let end = (first + given.fan).min(given.leaves.div_ceil(below));
    let mut hasher = H::start();
    hasher.add(&[1]);
    let mut item = item;
    let mut taken = taken;
    for child in first..end {
        let part = fold_place::<H>(given, level - 1, child, below, item, taken);
        hasher.add(&part.digest);
        item = part.item;
        taken = part.taken;
    }
    Folded {
        digest: hasher.end(),
        item,
        taken,
    }
}

/// Recomputes the root of a tree with this many leaves from the texts at some positions and the cover of the other
/// leaves.
pub fn fold<H: Hasher>(
    leaves: u32,
    fan: u8,
    places: &[u32],
    texts: &CutTexts<'_>,
    cover: &[Digest32],
) -> Result<Digest32, FoldError>
    requires leaves { 1 ≤ leaves }
    requires fan { 2 ≤ fan }
    requires fan_max { fan ≤ 32 }
    requires places { 1 ≤ length places.now }
    requires texts { length texts.now ≡ length places.now }
    ensures { result ≡ fold_of H.hash leaves fan places.now texts.now cover.now }
{
    if let Some(index) = fault_of(leaves, places) {
        return Err(FoldError::Place(index));
    }
    let given = Brought {
        leaves: u64::from(leaves),
        fan: u64::from(fan),
        places,
        texts,
        cover,
    };
    let (level, span) = top_of(given.leaves, given.fan);
    let all = fold_place::<H>(&given, level, 0, span, 0, 0);
    if cover.len() < all.taken {
        Err(FoldError::CoverShort)
    } else if all.taken < cover.len() {
        Err(FoldError::CoverLong)
    } else {
        Ok(all.digest)
    }
}
