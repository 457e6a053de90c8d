//! Filling a caller's buffer.
ghost use Rattle.std.specs.Prelude.{◌≡◌};
ghost use Rattle.route_check_c.specs.Placing.{HaveLeaves, HaveLeavesOf, route_nodes, reached_nodes};
ghost use Rattle.route_check_c.specs.Telling.{filled};

use crate::nodes::{reached_node, route_node};
use crate::{ReachedNode, RouteNode};
use proof_judge::NodesById;
use proof_octets::Mark;

/// Copies as many of the items as fit into the buffer.
pub(crate) fn fill<T: Copy>(room: &mut [T], items: &[T])
    ensures { room.new ≡ filled items.now room.old }
{
    let count = room.len().min(items.len());
    room[..count].copy_from_slice(&items[..count]);
}

/// Copies as many nodes of a route as fit into the buffer.
pub(crate) fn fill_route(room: &mut [RouteNode], by_id: &NodesById<'_>, ids: &[u32])
    requires { HaveLeaves by_id.now ids.now }
    ensures { room.new ≡ filled (route_nodes by_id.now ids.now) room.old }
{
    let count = room.len().min(ids.len());
    for place in 0..count {
        room[place] = route_node(by_id, ids[place]);
    }
}

/// Copies as many nodes as fit into the buffer, each with its distance.
pub(crate) fn fill_reached(room: &mut [ReachedNode], by_id: &NodesById<'_>, marks: &[Mark])
    requires { HaveLeavesOf by_id.now marks.now }
    ensures { room.new ≡ filled (reached_nodes by_id.now marks.now) room.old }
{
    let count = room.len().min(marks.len());
    for place in 0..count {
        room[place] = reached_node(by_id, marks[place]);
    }
}
