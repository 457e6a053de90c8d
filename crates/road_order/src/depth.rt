//! Depth-first order.
ghost use Rattle.std.specs.Prelude.{◌≡◌, ◌<◌, ◌≤◌, ◌+◌, ℕ, [], ◌∷◌, ◌++◌, true, false, Some, IfOk, OnOk, IfSome, IfNone, length, drop, slice_get, slice_index};
ghost use Rattle.std.specs.List.{fold};
ghost use Rattle.book_model.specs.Orders.{depth, dive, neighbours};
ghost use Rattle.road_order.specs.Positions.{id_at, out_of};
ghost use Rattle.road_order.specs.Tours.{IsTour, left_of};

use crate::neighbour::{degree, neighbour_at};
use octet_text::{NoMemory, filled, push, room_for};
use road_map::{Ids, Map};
use std::alloc::Global;

/// The visited nodes, by position, and their ids in the order of the visits.
#[derive(Drop)]
struct Tour {
    seen: Vec<bool>,
    found: Vec<u32>,
}

/// A visited node, and the index of the neighbour to look at next.
#[derive(Clone, Copy)]
struct Branch {
    position: u32,
    next: usize,
}

/// Returns the ids in depth-first order. A walk starts from each unvisited node, the least id first, and goes to
/// neighbours by ascending id.
pub fn depth_ids(alloc: Global, map: &Map) -> Result<Ids, NoMemory>
    ensures { IfOk result (λ ids. ids ≡ depth map.now.parts) }
{
    let _parts = map.parts();
    let mut tour = new_tour(alloc, map)?;
    for position in 0..map.count() {
        visit_all(alloc, map, &mut tour, position)?;
    }
    let Tour { seen: _, found } = tour;
    Ok(Ids::from_vec(found))
}

/// Starts a tour without visits.
fn new_tour(alloc: Global, map: &Map) -> Result<Tour, NoMemory>
    ensures found { IfOk result (λ tour. tour.found.items ≡ []) }
    ensures tour { IfOk result (λ tour. IsTour map.now tour.seen.items tour.found.items) }
{
    let count = map.count() as usize;
    let seen = filled(alloc, false, count)?;
    let found = room_for(alloc, seen.as_slice())?;
    Ok(Tour { seen, found })
}

/// Visits a node and all nodes that it reaches through unvisited nodes, unless the node was visited before.
fn visit_all(alloc: Global, map: &Map, tour: &mut Tour, start: u32) -> Result<(), NoMemory>
    requires start { start < length map.now.order }
    requires tour { IsTour map.now tour.old.seen.items tour.old.found.items }
    ensures found { OnOk result (tour.new.found.items ≡ dive (neighbours map.now.parts.roads)
        (length map.now.order) tour.old.found.items (id_at map.now start)) }
    ensures tour { OnOk result (IsTour map.now tour.new.seen.items tour.new.found.items) }
{
    let _parts = map.parts();
    if tour.seen[start as usize] {
        return Ok(());
    }
    enter(map, tour, start)?;
    let mut branches = Vec::new(alloc);
    push(
        &mut branches,
        Branch {
            position: start,
            next: 0,
        },
    )?;
    while let Some(branch) = branches.pop() {
        if let Some(next) = next_unseen(map, tour, branch) {
            push(
                &mut branches,
                Branch {
                    position: branch.position,
                    next: next.0 + 1,
                },
            )?;
            enter(map, tour, next.1)?;
            push(
                &mut branches,
                Branch {
                    position: next.1,
                    next: 0,
                },
            )?;
        }
    }
    Ok(())
}

/// Visits a node.
fn enter(map: &Map, tour: &mut Tour, position: u32) -> Result<(), NoMemory>
    requires position { position < length map.now.order }
    requires tour { IsTour map.now tour.old.seen.items tour.old.found.items }
    requires unseen { slice_get tour.old.seen.items position ≡ Some false }
    ensures found { OnOk result (tour.new.found.items ≡ tour.old.found.items ++ id_at map.now
        position ∷ []) }
    ensures tour { OnOk result (IsTour map.now tour.new.seen.items tour.new.found.items) }
{
    let _parts = map.parts();
    push(&mut tour.found, map.node(position).id)?;
    tour.seen[position as usize] = true;
    Ok(())
}

/// Returns the index and the position of a branch's next unvisited neighbour, if it has one.
fn next_unseen(map: &Map, tour: &Tour, branch: Branch) -> Option<(usize, u32)>
    requires position { branch.position < length map.now.order }
    requires tour { IsTour map.now tour.now.seen.items tour.now.found.items }
    ensures none { IfNone result ((deep : ℕ) →
        fold (dive (neighbours map.now.parts.roads) deep) tour.now.found.items
        (left_of map.now branch) ≡ tour.now.found.items) }
    ensures index { IfSome result (λ next. next.0 < length (out_of map.now branch.position)) }
    ensures position { IfSome result (λ next. next.1 < length map.now.order) }
    ensures id { IfSome result (λ next.
        id_at map.now next.1 ≡ slice_index (out_of map.now branch.position) next.0) }
    ensures unseen { IfSome result (λ next. slice_get tour.now.seen.items next.1 ≡ Some false) }
    ensures skips { IfSome result (λ next. (deep : ℕ) →
        fold (dive (neighbours map.now.parts.roads) deep) tour.now.found.items
        (left_of map.now branch) ≡ fold
        (dive (neighbours map.now.parts.roads) deep) tour.now.found.items
        (drop next.0 (out_of map.now branch.position))) }
{
    for index in branch.next..degree(map, branch.position) {
        let position = neighbour_at(map, branch.position, index);
        if !tour.seen[position as usize] {
            return Some((index, position));
        }
    }
    None
}
