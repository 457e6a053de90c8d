//! Hints about the index of an id in a list.

ghost use Rattle.std.specs.Prelude.{◌≡◌, ◌<◌, ◌≤◌, IfSome, IsTrue, length};
ghost use Rattle.road_map.specs.Places.{StandsAt};

use octet_text::{NoMemory, fill_up, push};
use std::alloc::Global;

/// The greatest number of ids for which a bucket is searched by halves. A bucket with more ids is split again.
const FEW: usize = 4;

/// Buckets of equal width over the ids of a list, and narrower buckets within each bucket that holds many ids. They
/// are only hints: every result is compared with the list.
#[derive(Drop)]
pub struct Spans {
    // The exponent of the width of a bucket, which is a power of 2, and the index at which the ids of each bucket
    // begin.
    shift: u32,
    starts: Vec<u32>,
    // How each bucket with many ids is split, by ascending bucket, and the index at which the ids of each narrower
    // bucket begin.
    parts: Vec<Part>,
    inner: Vec<u32>,
}

/// How a bucket is split: the index of its first narrower bucket in the list of all narrower buckets, and their
/// width, as a power of 2.
#[derive(Clone, Copy, Debug)]
pub struct Part {
    span: u32,
    at: u32,
    shift: u32,
}

impl Spans {
    /// Makes an empty list of buckets.
    pub fn none(alloc: Global) -> Spans {
        Spans {
            shift: 0,
            starts: Vec::new(alloc),
            parts: Vec::new(alloc),
            inner: Vec::new(alloc),
        }
    }

    /// Makes buckets of ids, which should ascend. Ids without gaps need no buckets.
    pub fn of(alloc: Global, ids: &[u32]) -> Result<Spans, NoMemory> {
        if !have_gaps(ids) {
            return Ok(Spans::none(alloc));
        }
        let shift = width_of(ids);
        let mut starts = Vec::new(alloc);
        add_starts(&mut starts, ids, 0, shift)?;
        let mut inner = Vec::new(alloc);
        let parts = parts_of(alloc, ids, starts.as_slice(), shift, &mut inner)?;
        Ok(Spans {
            shift,
            starts,
            parts,
            inner,
        })
    }

    /// Returns the index of an id among the ids that these buckets hold, or `None` if the hints miss it.
    pub fn place(&self, ids: &[u32], id: u32) -> Option<usize>
        ensures { IfSome result (StandsAt (λ id. id) ids.now id) }
    {
        let whole = Part {
            span: 0,
            at: 0,
            shift: self.shift,
        };
        let (span, start, end) = narrowed(ids, self.starts.as_slice(), whole, 0, ids.len(), id)?;
        if end - start <= FEW {
            return place_between(ids, start, end, id);
        }
        let part = part_of(self.parts.as_slice(), span)?;
        let (_span, start, end) = narrowed(ids, self.inner.as_slice(), part, start, end, id)?;
        place_between(ids, start, end, id)
    }
}

/// Tests whether any number between the first and the last of ascending ids is missing.
fn have_gaps(ids: &[u32]) -> bool {
    if ids.is_empty() {
        return false;
    }
    ids[ids.len() - 1].wrapping_sub(ids[0]) as usize >= ids.len()
}

/// Returns the least width, as a power of 2, for which the number of buckets from the first id to the last is at
/// most about twice the number of ids. Ids with few gaps get a bucket each.
fn width_of(ids: &[u32]) -> u32
    ensures { result < 32 }
{
    if ids.is_empty() {
        return 0;
    }
    let reach = ids[ids.len() - 1].wrapping_sub(ids[0]);
    for shift in 0..31u32 {
        if ((reach >> shift) as usize) < ids.len() {
            return shift;
        }
    }
    31
}

/// Appends the index at which the ids of each bucket begin, and the index at which the ids of the last bucket end.
/// The first of the ids is at index `first`.
fn add_starts(starts: &mut Vec<u32>, ids: &[u32], first: usize, shift: u32) -> Result<(), NoMemory>
    requires { shift < 32 }
{
    let before = starts.len();
    for place in 0..ids.len() {
        let span = (ids[place].wrapping_sub(ids[0]) >> shift) as usize;
        let span = before.wrapping_add(span);
        if span >= starts.len() {
            fill_up(
                starts,
                span.wrapping_add(1),
                low_half(first.wrapping_add(place)),
            )?;
        }
    }
    push(starts, low_half(first.wrapping_add(ids.len())))?;
    Ok(())
}

/// Returns the low 32 bits of an index.
fn low_half(place: usize) -> u32 {
    (place & 0xFFFF_FFFF) as u32
}

/// Returns how a bucket is split, if it is split.
fn part_of(parts: &[Part], span: usize) -> Option<Part> {
    let place = parts.partition_point(|part| (part.span as usize) < span);
    parts.get(place).copied()
}

/// Tests whether the ids from index `start` up to `end` are too many for one bucket.
fn are_many(ids: &[u32], start: usize, end: usize) -> bool
    ensures order { IsTrue result → start ≤ end }
    ensures within { IsTrue result → end ≤ length ids.now }
{
    start <= end && end <= ids.len() && end - start > FEW
}

/// Splits the buckets of this width that hold many ids, and adds their narrower buckets to `inner`. A bucket of
/// width 1 holds one id.
fn parts_of(
    alloc: Global,
    ids: &[u32],
    starts: &[u32],
    shift: u32,
    inner: &mut Vec<u32>,
) -> Result<Vec<Part>, NoMemory> {
    let mut parts = Vec::new(alloc);
    if shift == 0 {
        return Ok(parts);
    }
    for span in 1..starts.len() {
        let (start, end) = (starts[span - 1] as usize, starts[span] as usize);
        if are_many(ids, start, end) {
            push(&mut parts, parted(ids, span - 1, start, end, inner)?)?;
        }
    }
    Ok(parts)
}

/// Splits the bucket that holds the ids from index `start` up to `end`.
fn parted(
    ids: &[u32],
    span: usize,
    start: usize,
    end: usize,
    inner: &mut Vec<u32>,
) -> Result<Part, NoMemory>
    requires order { start ≤ end }
    requires within { end ≤ length ids.now }
{
    let at = low_half(inner.len());
    let among = &ids[start..end];
    let shift = width_of(among);
    add_starts(inner, among, start, shift)?;
    Ok(Part {
        span: low_half(span),
        at,
        shift,
    })
}

/// Returns the narrower bucket of an id within a split bucket: the index at which its ids begin and the index at
/// which they end. Returns `None` if that bucket does not exist.
fn narrowed(
    ids: &[u32],
    starts: &[u32],
    part: Part,
    start: usize,
    end: usize,
    id: u32,
) -> Option<(usize, usize, usize)>
    ensures order { IfSome result (λ found. found.1 ≤ found.2) }
    ensures within { IfSome result (λ found. found.2 ≤ length ids.now) }
{
    if start >= end || end > ids.len() || id < ids[start] {
        return None;
    }
    let span = ((id - ids[start]) >> (part.shift % 32)) as usize;
    let at = part.at as usize + span;
    if at + 1 >= starts.len() {
        return None;
    }
    let start = starts[at] as usize;
    let end = starts[at + 1] as usize;
    if start > end || end > ids.len() {
        return None;
    }
    Some((span, start, end))
}

/// Returns the index of an id among the ids from index `start` up to `end`, if the id is among them.
fn place_between(ids: &[u32], start: usize, end: usize, id: u32) -> Option<usize>
    requires order { start ≤ end }
    requires within { end ≤ length ids.now }
    ensures { IfSome result (StandsAt (λ id. id) ids.now id) }
{
    let among = &ids[start..end];
    let Ok(place) = among.binary_search(&id) else {
        return None;
    };
    let place = start + place;
    if place < ids.len() && ids[place] == id {
        return Some(place);
    }
    None
}
