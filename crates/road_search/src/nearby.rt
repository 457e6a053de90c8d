//! Ids whose labels are short enough.

ghost use Rattle.std.specs.Prelude.{◌≡◌, ◌≤◌, ◌+◌, ◌*◌, min, IfOk, OnOk, length, take};
ghost use Rattle.std.specs.List.{filter};
ghost use Rattle.std.specs.Option.{option_map};
ghost use Rattle.road_map.specs.Places.{AreRising};
ghost use Rattle.road_search.specs.Listing.{is_near_at};
ghost use Rattle.road_search.specs.Nearness.{is_within};
ghost use Rattle.road_search.specs.Pages.{paged};

use crate::marks::Mark;
use crate::paged::{PAGE, Paged};
use octet_text::{NoMemory, push};
use std::alloc::Global;

/// Tests whether a mark exists and its label is at most this long.
pub(crate) fn is_near(mark: Option<Mark>, most: u64) -> bool
    ensures { result ≡ is_within most (option_map (λ l. l.length) (option_map (λ m. m.label) mark)) }
{
    match mark {
        None => false,
        Some(mark) => mark.label.length <= most,
    }
}

/// Appends the ids at indices from `start` up to `end` whose labels are at most this long.
fn add_near(
    near: &mut Vec<u32>,
    ids: &[u32],
    marks: &Paged,
    start: usize,
    end: usize,
    most: u64,
) -> Result<(), NoMemory>
    requires rise { AreRising ids.now }
    requires order { start ≤ end }
    requires within { end ≤ length ids.now }
    requires before { near.old.items ≡
        filter (is_near_at ids.now (paged marks.now.pages) most) (take start ids.now) }
    ensures { OnOk result (near.new.items ≡
        filter (is_near_at ids.now (paged marks.now.pages) most) (take end ids.now)) }
{
    for place in start..end {
        if is_near(marks.at(place), most) {
            push(near, ids[place])?;
        }
    }
    Ok(())
}

/// Returns the index at which a page of a list ends: at the end of the page or of the list.
fn page_end(index: usize, count: usize) -> usize
    requires { index * 64 ≤ count }
    ensures order { index * 64 ≤ result }
    ensures within { result ≤ count }
    ensures all { result ≡ min (index * 64 + 64) count }
{
    let start = index * PAGE;
    if count - start < PAGE {
        count
    } else {
        start + PAGE
    }
}

/// Returns the ids whose labels are at most this long, in the same order. Reads only pages that have memory.
pub(crate) fn near_ids(
    alloc: Global,
    ids: &[u32],
    marks: &Paged,
    most: u64,
) -> Result<Vec<u32>, NoMemory>
    requires { AreRising ids.now }
    ensures { IfOk result (λ near. near.items ≡
        filter (is_near_at ids.now (paged marks.now.pages) most) ids.now) }
{
    let mut near = Vec::new(alloc);
    for index in 0..ids.len() / PAGE + 1 {
        if marks.has_room(index) {
            let end = page_end(index, ids.len());
            add_near(&mut near, ids, marks, index * PAGE, end, most)?;
        }
    }
    Ok(near)
}
