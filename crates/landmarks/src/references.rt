//! References: nodes whose codes replace those of others.

ghost use Rattle.std.specs.Prelude.{◌≡◌, [], IfOk, OnOk, reverse};
ghost use Rattle.book_model.specs.Landmarks.{gap_at, gap_of, extra_of, kept_after, extras_of};
ghost use Rattle.landmarks.specs.Tables.{codes_in};
ghost use Rattle.landmarks.specs.Near.{near_gap, near_in};

use crate::table::{CodeTable, NO_CODE};
use octet_text::{NoMemory, copied, push, room_for};
use road_leaf::{Codes, Extra};
use std::alloc::Global;

/// The number of candidates for a reference: the last 64 nodes that stored their own codes.
const CANDIDATES: usize = 64;

/// Returns the difference of two codes, or `None` if exactly one of them is the code for no walk.
fn gap_at(a: u16, b: u16) -> Option<u16>
    ensures { result ≡ gap_at a b }
{
    match (a == NO_CODE, b == NO_CODE) {
        (true, true) => Some(0),
        (false, false) => Some(a.abs_diff(b)),
        _ => None,
    }
}

/// Returns the greatest difference of two lists of codes. Returns `None` if at some landmark only one list lacks a
/// walk, or if a difference is above the threshold. Stops at the first such landmark.
fn near_gap(xs: &[u16], ys: &[u16], threshold: u16) -> Option<u16>
    ensures { result ≡ near_gap threshold (gap_of xs.now ys.now) }
{
    let mut widest = 0;
    for i in 0..xs.len().min(ys.len()) {
        let gap = gap_at(xs[i], ys[i])?;
        if gap > threshold {
            return None;
        }
        widest = gap.max(widest);
    }
    Some(widest)
}

/// Returns the last of the recent nodes whose codes are near to the given ones, with the greatest difference, if
/// there is such a node.
fn find_near(table: &CodeTable, recent: &[u32], codes: &[u16], threshold: u16) -> Option<(u32, u16)>
    ensures { result ≡ near_in (codes_in table.now) threshold codes.now (reverse recent.now) }
{
    for i in 0..recent.len() {
        let id = recent[recent.len() - 1 - i];
        if let Some(gap) = near_gap(codes, table.codes_of(id), threshold) {
            return Some((id, gap));
        }
    }
    None
}

/// Returns how a node's leaf stores its codes. It refers to the latest of the last 64 nodes that stored their own
/// codes and are near enough. If there is none, it stores its own codes.
fn extra_for(
    alloc: Global,
    table: &CodeTable,
    kept: &[u32],
    id: u32,
    threshold: u16,
) -> Result<Extra, NoMemory>
    ensures { IfOk result (λ extra.
        extra ≡ extra_of (codes_in table.now) threshold (reverse kept.now) id) }
{
    let codes = table.codes_of(id);
    let recent = &kept[kept.len().saturating_sub(CANDIDATES)..];
    match find_near(table, recent, codes, threshold) {
        Some((reference, error)) => Ok(Extra::Near { reference, error }),
        None => Ok(Extra::Own(Codes::from_vec(copied(alloc, codes)?))),
    }
}

/// Adds a node to the candidates if it stores its own codes.
fn keep(kept: &mut Vec<u32>, extra: &Extra, id: u32) -> Result<(), NoMemory>
    ensures { OnOk result (reverse kept.new.items ≡ kept_after extra.now id
        (reverse kept.old.items)) }
{
    if let Extra::Own(_) = extra {
        push(kept, id)?;
    }
    Ok(())
}

/// Returns how the leaves of nodes store their codes, in the order of the leaves.
///
/// The candidates for a node are the last 64 nodes before it that stored their own codes. The node refers to the
/// latest candidate whose codes lack a walk at exactly the same landmarks and differ by at most the threshold at
/// every other landmark. The greatest difference is its error. Without such a candidate, the node stores its own
/// codes. Takes at most 64 comparisons per node. Each comparison ends at the first landmark that decides it.
pub fn compress(
    alloc: Global,
    table: &CodeTable,
    order: &[u32],
    threshold: u16,
) -> Result<Vec<Extra>, NoMemory>
    ensures { IfOk result (λ extras.
        extras.items ≡ extras_of (codes_in table.now) threshold [] order.now) }
{
    let mut extras = room_for(alloc, order)?;
    let mut kept = Vec::new(alloc);
    for id in order {
        let extra = extra_for(alloc, table, &kept, *id, threshold)?;
        keep(&mut kept, &extra, *id)?;
        push(&mut extras, extra)?;
    }
    Ok(extras)
}
