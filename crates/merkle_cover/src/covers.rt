//! The cover of some leaves: the digests that are needed besides these leaves to recompute the root.
ghost use Rattle.std.specs.Prelude.{◌≡◌, ℕ, ◌+◌, ◌*◌, ◌^◌, ◌<◌, ◌≤◌, List, [], ◌∷◌, ◌++◌, length, slice_index, slice_index_or, IfOk, OnOk};
ghost use Rattle.merkle_cover.specs.Covers.{cover_below};
ghost use Rattle.merkle_cover.specs.Folding.{CanWalk, SplitsAt, HasLevels, digest_in};

use crate::folds::is_next_below;
use octet_text::{Digest32, Digests, NoMemory, push};

// The levels of a tree, and chosen leaves.
#[derive(Drop)]
pub(crate) struct CoverWalk<'a> {
    pub(crate) levels: &'a [Digests],
    pub(crate) leaves: u64,
    pub(crate) fan: u64,
    pub(crate) places: &'a [u32],
}

// Returns the digest of a position.
pub(crate) fn digest_of(levels: &[Digests], level: usize, place: usize) -> Digest32
    requires level { level < length levels.now }
    requires place { place < length (slice_index_or levels.now level []) }
    ensures { result ≡ digest_in levels.now level place }
{
    let digests: &Digests = &levels[level];
    digests.as_slice()[place]
}

// Appends the cover below a position, and returns the index of the next chosen leaf.
pub(crate) fn cover_place(
    walk: &CoverWalk<'_>,
    level: u32,
    place: u64,
    span: u64,
    item: usize,
    out: &mut Vec<Digest32>,
) -> Result<usize, NoMemory>
    requires walk { CanWalk walk.now.leaves walk.now.fan walk.now.places.now level place span item }
    requires levels { HasLevels walk.now.leaves walk.now.fan walk.now.levels.now level }
    ensures next { IfOk result (λ next. SplitsAt walk.now.places.now ((place + 1) * span) next) }
    ensures out { OnOk result (out.new.items ≡ out.old.items
        ++ cover_below (digest_in walk.now.levels.now) walk.now.leaves walk.now.fan
        walk.now.places.now level place) }
{
    if !is_next_below(walk.places, item, (place + 1) * span) {
        let digest = digest_of(walk.levels, level as usize, place as usize);
        push(out, digest)?;
        return Ok(item);
    }
    if level == 0 {
        return Ok(item + 1);
    }
    let below = span / walk.fan;
    let first = place * walk.fan;
    let end = (first + walk.fan).min(walk.leaves.div_ceil(below));
    let mut item = item;
    for child in first..end {
        item = cover_place(walk, level - 1, child, below, item, out)?;
    }
    Ok(item)
}
