//! The positions of a cover's digests in their tree.
ghost use Rattle.std.specs.Prelude.{◌≡◌, ℕ, ◌+◌, ◌*◌, ◌^◌, ◌<◌, ◌≤◌, List, [], ◌++◌, length, IfOk, OnOk};
ghost use Rattle.merkle_cover.specs.Spots.{spots_below, spots_of};
ghost use Rattle.merkle_cover.specs.Folding.{CanWalk, SplitsAt};
ghost use Rattle.merkle_cover.specs.Covers.{IsRising};

use crate::folds::{is_next_below, top_of};
use octet_text::{NoMemory, push};
use std::alloc::Global;

// A position of a level.
#[derive(Clone, Copy, PartialEq, Eq)]
pub(crate) struct Spot {
    pub(crate) level: u32,
    pub(crate) place: u64,
}

// Chosen leaves of a tree with this many leaves and this fan-out.
#[derive(Drop)]
struct Chosen<'a> {
    leaves: u64,
    fan: u64,
    places: &'a [u32],
}

// Appends the positions of the cover's digests below a position, and returns the index of the next chosen leaf.
fn spots_at(
    chosen: &Chosen<'_>,
    level: u32,
    place: u64,
    span: u64,
    item: usize,
    out: &mut Vec<Spot>,
) -> Result<usize, NoMemory>
    requires { CanWalk chosen.now.leaves chosen.now.fan chosen.now.places.now level place span
        item }
    ensures next { IfOk result (λ next. SplitsAt chosen.now.places.now ((place + 1) * span) next) }
    ensures out { OnOk result (out.new.items ≡ out.old.items
        ++ spots_below chosen.now.leaves chosen.now.fan chosen.now.places.now level place) }
{
    if !is_next_below(chosen.places, item, (place + 1) * span) {
        push(out, Spot { level, place })?;
        return Ok(item);
    }
    if level == 0 {
        return Ok(item + 1);
    }
    let below = span / chosen.fan;
    let first = place * chosen.fan;
    let end = (first + chosen.fan).min(chosen.leaves.div_ceil(below));
    let mut item = item;
    for child in first..end {
        item = spots_at(chosen, level - 1, child, below, item, out)?;
    }
    Ok(item)
}

// Returns the positions of the digests of a cover, from left to right.
pub(crate) fn cover_spots(
    alloc: Global,
    leaves: u32,
    fan: u8,
    places: &[u32],
) -> Result<Vec<Spot>, NoMemory>
    requires fan { 2 ≤ fan }
    requires fan_max { fan ≤ 32 }
    requires leaves { 1 ≤ leaves }
    requires places { IsRising leaves places.now }
    ensures { IfOk result (λ spots. spots.items ≡ spots_of leaves fan places.now) }
{
    let mut out = Vec::new(alloc);
    if places.is_empty() {
        return Ok(out);
    }
    let chosen = Chosen {
        leaves: u64::from(leaves),
        fan: u64::from(fan),
        places,
    };
    let (level, span) = top_of(chosen.leaves, chosen.fan);
    spots_at(&chosen, level, 0, span, 0, &mut out)?;
    Ok(out)
}
