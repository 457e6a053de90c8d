//! The leaves of the five nodes.

ghost use Rattle.std.specs.Prelude.{ℕ, Contains, IsTrue};
ghost use Rattle.road_map.specs.Walks.{Knows};

use octet_text::{NoMemory, copied, push};
use road_leaf::{Extra, NodeLeaf};
use road_map::{Arc, Arcs, Map};
use road_search::knows;
use std::alloc::Global;

// Returns the arcs out of one of the nodes 1 to 4.
fn arcs_of(id: u32) -> [Arc; 2] {
    match id {
        1 => [Arc { to: 2, length: 4 }, Arc { to: 4, length: 3 }],
        2 => [Arc { to: 1, length: 4 }, Arc { to: 3, length: 5 }],
        3 => [Arc { to: 2, length: 5 }, Arc { to: 4, length: 7 }],
        _ => [Arc { to: 1, length: 3 }, Arc { to: 3, length: 7 }],
    }
}

/// Returns the leaf of one of the nodes 1 to 4, with these extra contents.
pub fn leaf_with(alloc: Global, id: u32, extra: Extra) -> Result<NodeLeaf, NoMemory> {
    let arcs = arcs_of(id);
    Ok(NodeLeaf {
        id,
        x: 0,
        y: 0,
        arcs: Arcs::from_vec(copied(alloc, &arcs)?),
        extra,
    })
}

/// Returns the plain leaves of some of the nodes 1 to 4.
pub fn leaves_of(alloc: Global, ids: &[u32]) -> Result<Vec<NodeLeaf>, NoMemory> {
    let mut leaves = Vec::new(alloc);
    for id in ids {
        push(&mut leaves, leaf_with(alloc, *id, Extra::Plain)?)?;
    }
    Ok(leaves)
}

/// Tests whether all ids belong to nodes.
pub fn are_known(map: &Map, ids: &[u32]) -> bool
    ensures { IsTrue result → (id : ℕ) → Contains ids.now id → Knows map.now.parts id }
{
    for id in ids {
        if !knows(map, *id) {
            return false;
        }
    }
    true
}
