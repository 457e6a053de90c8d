//! The ids of node items in ascending order, and the index of each item.

ghost use Rattle.std.specs.Prelude.{◌≡◌, ◌<◌, ◌≤◌, ◌^◌, None, IfOk, length, map, set};
ghost use Rattle.std.specs.List.Sorted.{IsNonDecreasing};
ghost use Rattle.road_map.specs.Least.{IsLeast};
ghost use Rattle.road_map.specs.Places.{AreRising};
ghost use Rattle.proof_judge.specs.ItemWalks.{StandsTwice};
ghost use Rattle.proof_judge.specs.ById.{AsMany, IsTaken, AreIndices};

use octet_text::{NoMemory, filled, push};
use road_leaf::NodeLeaves;
use road_map::RisingIds;
use std::alloc::Global;

/// Returns the ids of the items, in the same order.
fn ids_of(alloc: Global, nodes: &NodeLeaves) -> Result<Vec<u32>, NoMemory>
    ensures { IfOk result (λ ids. ids.items ≡ map (λ n. n.id) nodes.now) }
{
    let mut ids = nodes.room_for_ids(alloc)?;
    for index in 0..nodes.len() {
        push(&mut ids, nodes.at(index).id)?;
    }
    Ok(ids)
}

/// Returns the ids of the items in ascending order. Repeated ids are kept.
pub fn sorted_ids(alloc: Global, nodes: &NodeLeaves) -> Result<Vec<u32>, NoMemory>
    ensures sorted { IfOk result (λ ids. IsNonDecreasing ids.items) }
    ensures count { IfOk result (λ ids. length ids.items ≡ length nodes.now) }
    ensures as_many { IfOk result (λ ids. AsMany nodes.now ids.items) }
{
    let mut ids = ids_of(alloc, nodes)?;
    ids.sort_unstable();
    Ok(ids)
}

/// Returns the least id that occurs more than once among sorted ids.
pub fn repeated_id(ids: &[u32]) -> Option<u32>
    requires { IsNonDecreasing ids.now }
    ensures { IsLeast (IsTaken ids.now) result }
{
    for index in 1..ids.len() {
        if ids[index - 1] == ids[index] {
            return Some(ids[index]);
        }
    }
    None
}

fn id_fits(id: u32)
    ensures { id < 2 ^ 32 }
{
    let _id = id;
}

/// Gives the fact that distinct ids are at most as many as the 32-bit numbers.
pub fn are_few(ids: &[u32])
    requires { AreRising ids.now }
    ensures { length ids.now ≤ 2 ^ 32 }
{
    if ids.is_empty() {
        return;
    }
    id_fits(ids[ids.len() - 1]);
}

fn note(indices: &mut Vec<u32>, place: usize, index: u32)
    requires { place < length indices.old.items }
    ensures { indices.new.items ≡ set indices.old.items place index }
{
    indices[place] = index;
}

/// Returns the index of the item of each id.
pub fn indices_of(alloc: Global, nodes: &NodeLeaves, ids: &RisingIds) -> Result<Vec<u32>, NoMemory>
    requires rise { AreRising ids.now }
    requires count { length ids.now ≡ length nodes.now }
    requires as_many { AsMany nodes.now ids.now }
    requires distinct { IsLeast (StandsTwice nodes.now) None }
    requires few { length nodes.now ≤ 2 ^ 32 }
    ensures { IfOk result (λ indices. AreIndices nodes.now ids.now indices.items) }
{
    let mut indices = filled(alloc, 0, nodes.len())?;
    for index in 0..nodes.len() {
        let id = nodes.at(index).id;
        let place = ids.place(id).unwrap();
        note(&mut indices, place, index as u32);
    }
    Ok(indices)
}
