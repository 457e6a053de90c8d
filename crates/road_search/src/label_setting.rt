//! A label-setting search.

ghost use Rattle.std.specs.Prelude.{◌≡◌, ◌⊎◌, nat_eq, ℕ, ◌+◌, ◌^◌, ◌<◌, ◌≤◌, ◌∷◌, [], None, Some, OnOk, IfOk, IfSome, IsSome, if◌then◌else◌, is_some};
ghost use Rattle.std.specs.Option.{option_map};
ghost use Rattle.std.specs.BinaryHeap.{heap_items};
ghost use Rattle.road_map.specs.Least.{lesser, IsLeast};
ghost use Rattle.road_search.specs.Passing.{IsLeastPassing};
ghost use Rattle.road_search.specs.Marking.{label_in};
ghost use Rattle.road_search.specs.Listing.{listed};
ghost use Rattle.road_search.specs.Nearness.{below};
ghost use Rattle.road_search.specs.Queue.{IsFront};
ghost use Rattle.road_search.specs.Labelling.{IsBegun, IsOffered, passable, length_at, length_in, route_at, route_in, IsWay};

use crate::front::{Queue, offer, settle_least};
use crate::ground::Ground;
use crate::label::Label;
use crate::labels::Labels;
use crate::listed::Listed;
use crate::marks::Marks;
use octet_text::NoMemory;
use road_map::Arc;
use std::alloc::Global;
use std::collections::BinaryHeap;

/// Offers one arc out of a labelled id.
fn offer_arc<T: Marks>(
    marks: &mut T,
    queue: &mut Queue,
    id: u32,
    label: Label,
    arc: Arc,
    limit: u64,
) -> Result<(), T::Refused>
    requires front { IsFront (T.mark marks.old) (heap_items queue.old) }
    requires below { label.length < limit }
    requires room { label.hops + 1 < 2 ^ 64 }
    ensures front { OnOk result (IsFront (T.mark marks.new) (heap_items queue.new)) }
    ensures offered { OnOk result (IsOffered (arc ∷ []) limit id label (T.mark marks.old)
        (T.mark marks.new)) }
{
    if u64::from(arc.length) < limit - label.length {
        let length = label.length + u64::from(arc.length);
        let hops = label.hops + 1;
        offer(
            marks,
            queue,
            arc.to,
            Label {
                length,
                before: id,
                hops,
            },
        )?;
    }
    Ok(())
}

/// Offers the arcs out of a labelled id.
fn offer_arcs<T: Marks>(
    marks: &mut T,
    queue: &mut Queue,
    id: u32,
    label: Label,
    arcs: &[Arc],
    limit: u64,
) -> Result<(), T::Refused>
    requires front { IsFront (T.mark marks.old) (heap_items queue.old) }
    requires below { label.length < limit }
    requires room { label.hops + 1 < 2 ^ 64 }
    ensures front { OnOk result (IsFront (T.mark marks.new) (heap_items queue.new)) }
    ensures offered { OnOk result (IsOffered arcs.now limit id label (T.mark marks.old)
        (T.mark marks.new)) }
{
    for arc in arcs {
        offer_arc(marks, queue, id, label, *arc, limit)?;
    }
    Ok(())
}

/// Offers all arcs out of a labelled id, and returns whether the id has an entry.
fn leave<G: Ground, T: Marks>(
    ground: &G,
    marks: &mut T,
    queue: &mut Queue,
    id: u32,
    label: Label,
    limit: u64,
) -> Result<bool, T::Refused>
    requires front { IsFront (T.mark marks.old) (heap_items queue.old) }
    requires below { label.length < limit }
    requires room { label.hops + 1 < 2 ^ 64 }
    ensures front { OnOk result (IsFront (T.mark marks.new) (heap_items queue.new)) }
    ensures offered { OnOk result (IsOffered
        (passable (G.ways ground.now) id label.length) limit id label (T.mark marks.old)
        (T.mark marks.new)) }
    ensures fits { id < 2 ^ 32 }
    ensures entry { IfOk result (λ has. has ≡ is_some ((G.ways ground.now).arcs id)) }
{
    match ground.arcs(id) {
        None => Ok(false),
        Some(arcs) => {
            if ground.lets(id, label.length) {
                offer_arcs(marks, queue, id, label, arcs, limit)?;
            }
            Ok(true)
        }
    }
}

/// Returns the lesser of the least id without an entry so far and this id, if this id has no entry.
fn least_lacking(lacking: Option<u32>, id: u32, has: bool) -> Option<u32>
    ensures { result ≡ (if has then lacking else lesser lacking (Some id)) }
{
    if has {
        return lacking;
    }
    match lacking {
        None => Some(id),
        Some(other) => Some(other.min(id)),
    }
}

/// Labels the start, unless the limit is 0.
fn begin<T: Marks>(
    marks: &mut T,
    queue: &mut Queue,
    from: u32,
    limit: u64,
) -> Result<(), T::Refused>
    requires front { IsFront (T.mark marks.old) (heap_items queue.old) }
    requires none { (v : ℕ) → T.mark marks.old v ≡ None }
    ensures front { OnOk result (IsFront (T.mark marks.new) (heap_items queue.new)) }
    ensures begun { OnOk result (IsBegun from limit (T.mark marks.new)) }
{
    if limit > 0 {
        offer(
            marks,
            queue,
            from,
            Label {
                length: 0,
                before: from,
                hops: 0,
            },
        )?;
    }
    Ok(())
}

/// Searches and keeps the labels in `marks`: for each id, the least length below the limit of a passing walk to it,
/// and such a walk. Returns the least id that has a length but no entry.
///
/// A passing walk takes each hop along an arc of an id that has an entry and lets the length so far pass. Its last
/// id needs neither an entry nor to let the length pass.
pub fn search_in<G: Ground, T: Marks>(
    alloc: Global,
    ground: &G,
    marks: &mut T,
    from: u32,
    limit: u64,
) -> Result<Option<u32>, T::Refused>
    requires { (v : ℕ) → T.mark marks.old v ≡ None }
    ensures lengths { OnOk result ((v : ℕ) →
        IsLeastPassing (G.ways ground.now) from limit v (length_in (T.mark marks.new) v)) }
    ensures routes { OnOk result ((v : ℕ) →
        IfSome (route_in (T.mark marks.new) v)
        (IsWay (G.ways ground.now) from limit v (length_in (T.mark marks.new) v))) }
    ensures missing { IfOk result (λ missing.
        IsLeast (λ v. IsSome (length_in (T.mark marks.new) v) × ((G.ways ground.now).arcs v ≡ None))
        missing) }
{
    let mut queue = BinaryHeap::new(alloc);
    let mut lacking = None;
    begin(marks, &mut queue, from, limit)?;
    while let Some((id, label)) = settle_least(marks, &mut queue)? {
        let has = leave(ground, marks, &mut queue, id, label, limit)?;
        lacking = least_lacking(lacking, id, has);
    }
    Ok(lacking)
}

/// Returns the bound of a search after an id was settled. If the id is the end, the bound is just above its length.
fn lowered(bound: u64, id: u32, to: u32, length: u64) -> u64
    requires { length < bound }
    ensures { result ≡ (if nat_eq id to then length + 1 else bound) }
{
    if id == to { length + 1 } else { bound }
}

/// Searches only as far as one end requires: settles that end and each id that is as near, and returns a bound. The
/// labels below the bound are those of a search with that bound as its limit. A label that is not below it has no
/// meaning.
pub(crate) fn search_to<G: Ground, T: Marks>(
    alloc: Global,
    ground: &G,
    marks: &mut T,
    from: u32,
    to: u32,
    limit: u64,
) -> Result<u64, T::Refused>
    requires { (v : ℕ) → T.mark marks.old v ≡ None }
    ensures lengths { IfOk result (λ bound. (v : ℕ) →
        IsLeastPassing (G.ways ground.now) from bound v
        (below bound (length_in (T.mark marks.new) v))) }
    ensures route { IfOk result (λ bound.
        IfSome (route_in (T.mark marks.new) to)
        (IsWay (G.ways ground.now) from bound to (length_in (T.mark marks.new) to))) }
    ensures end { IfOk result (λ bound.
        below bound (length_in (T.mark marks.new) to) ≡ length_in (T.mark marks.new) to) }
    ensures least { IfOk result (λ bound. bound ≤ limit) }
    ensures whole { IfOk result (λ bound. (bound ≡ limit) ⊎
        IsSome (length_in (T.mark marks.new) to)) }
{
    let mut queue = BinaryHeap::new(alloc);
    let mut bound = limit;
    begin(marks, &mut queue, from, limit)?;
    while let Some((id, label)) = settle_least(marks, &mut queue)? {
        if label.length >= bound {
            return Ok(bound);
        }
        bound = lowered(bound, id, to, label.length);
        let _has = leave(ground, marks, &mut queue, id, label, limit)?;
    }
    Ok(bound)
}

/// Searches and keeps the labels in this store, which must be empty.
fn search_listed<G: Ground>(
    alloc: Global,
    ground: &G,
    mut marks: Listed,
    from: u32,
    limit: u64,
) -> Result<Labels, NoMemory>
    requires { (v : ℕ) → listed marks v ≡ None }
    ensures lengths { IfOk result (λ found. (v : ℕ) →
        IsLeastPassing (G.ways ground.now) from limit v (length_at found v)) }
    ensures routes { IfOk result (λ found. (v : ℕ) →
        IfSome (route_at found v) (IsWay (G.ways ground.now) from limit v (length_at found v))) }
    ensures missing { IfOk result (λ found.
        IsLeast (λ v. IsSome (length_at found v) × ((G.ways ground.now).arcs v ≡ None))
        found.missing) }
{
    let lacking = search_in(alloc, ground, &mut marks, from, limit)?;
    Ok(Labels::new(marks, lacking))
}

/// Returns, for each id, the least length below the limit of a passing walk to it, and such a walk.
///
/// The cost and the memory depend on the ids that it labels.
pub fn search<G: Ground>(
    alloc: Global,
    ground: &G,
    from: u32,
    limit: u64,
) -> Result<Labels, NoMemory>
    ensures lengths { IfOk result (λ found. (v : ℕ) →
        IsLeastPassing (G.ways ground.now) from limit v (length_at found v)) }
    ensures routes { IfOk result (λ found. (v : ℕ) →
        IfSome (route_at found v) (IsWay (G.ways ground.now) from limit v (length_at found v))) }
    ensures missing { IfOk result (λ found.
        IsLeast (λ v. IsSome (length_at found v) × ((G.ways ground.now).arcs v ≡ None))
        found.missing) }
{
    let ids = ground.ids(alloc)?;
    let marks = Listed::new(alloc, ids);
    search_listed(alloc, ground, marks, from, limit)
}
