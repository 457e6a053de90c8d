//! The nodes of an accepted reply, each with the coordinates that its leaf in the reply gives.
ghost use Rattle.std.specs.Prelude.{◌≡◌, IfOk, IsSome};
ghost use Rattle.octet_text.specs.Want.{no_memory};
ghost use Rattle.proof_judge.specs.ItemWalks.{item_at};
ghost use Rattle.route_check_c.specs.Placing.{AreApart, route_node as placed, reached_node as reached};

use octet_text::NoMemory;
use proof_judge::{NodesById, Refusal};
use proof_octets::Mark;
use road_leaf::NodeLeaves;
use std::alloc::Global;

/// A node of a route.
#[repr(C)]
#[derive(Clone, Copy, Debug, PartialEq, Eq)]
pub struct RouteNode {
    pub id: u32,
    /// Its coordinates, in the unit of the map.
    pub x: i32,
    pub y: i32,
}

/// A node within a radius.
#[repr(C)]
#[derive(Clone, Copy, Debug, PartialEq, Eq)]
pub struct ReachedNode {
    pub id: u32,
    /// Its coordinates, in the unit of the map.
    pub x: i32,
    pub y: i32,
    /// Its distance from the start, in the unit of the roads' lengths.
    pub distance: u64,
}

/// Returns leaves by their ids. No two of them may belong to the same node.
pub(crate) fn by_ids<'a>(alloc: Global, leaves: &'a NodeLeaves) -> Result<NodesById<'a>, NoMemory>
    requires { AreApart leaves.now }
    ensures { IfOk result (λ by_id. by_id ≡ leaves.now) }
{
    match NodesById::new(alloc, leaves) {
        Ok(by_id) => Ok(by_id),
        Err(why) => Err(want_of(why)),
    }
}

/// Returns out of memory, which is the only reason why leaves of different nodes are refused.
fn want_of(why: Refusal) -> NoMemory
    requires { why ≡ Refusal.Memory no_memory }
{
    match why {
        Refusal::Memory(none) => none,
        _ => unreachable!(),
    }
}

/// Returns the node with an id, which must have a leaf.
pub(crate) fn route_node(by_id: &NodesById<'_>, id: u32) -> RouteNode
    requires { IsSome (item_at by_id.now id) }
    ensures { result ≡ placed (item_at by_id.now id) }
{
    match by_id.find(id) {
        Some(leaf) => RouteNode {
            id: leaf.id,
            x: leaf.x,
            y: leaf.y,
        },
        None => unreachable!(),
    }
}

/// Returns the node of a mark. The mark's id must have a leaf.
pub(crate) fn reached_node(by_id: &NodesById<'_>, mark: Mark) -> ReachedNode
    requires { IsSome (item_at by_id.now mark.id) }
    ensures { result ≡ reached (item_at by_id.now mark.id) mark }
{
    let RouteNode { id, x, y } = route_node(by_id, mark.id);
    ReachedNode {
        id,
        x,
        y,
        distance: mark.distance,
    }
}
