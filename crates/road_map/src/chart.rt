//! A map's nodes by ascending id, their ids, and their arcs.

ghost use Rattle.std.specs.Prelude.{◌≡◌, ◌≤◌, ℕ, IfOk, OnOk, IfErr, length};
ghost use Rattle.std.specs.List.Sorted.{IsNonDecreasingBy};
ghost use Rattle.road_map.specs.Maps.{IsSized, Fault};
ghost use Rattle.road_map.specs.Nets.{IsNet};
ghost use Rattle.road_map.specs.Places.{AreRising};
ghost use Rattle.road_map.specs.Rows.{AreArcs, IsBuilt};
ghost use Rattle.road_map.specs.Steps.{AreSteps, StepFault};
ghost use Rattle.road_map.specs.Walks.{ids};

use crate::chains::chains_of;
use crate::error::MapError;
use crate::net::{Net, net_of};
use crate::order::nodes_by_id;
use crate::parts::{Node, Parts, Road};
use crate::placing::placed_roads;
use crate::rising_ids::RisingIds;
use octet_text::{NoMemory, collected, shared};
use std::alloc::Global;
use std::rc::Rc;

/// The parts of a map besides its nodes and roads.
#[derive(Drop)]
pub struct Chart {
    pub order: Vec<Node>,
    pub ids: Rc<RisingIds>,
    pub arcs: Net,
    pub net: Net,
}

/// Returns the ids of the nodes, in the same order.
fn ids_of(alloc: Global, order: &[Node]) -> Result<Vec<u32>, NoMemory>
    ensures { IfOk result (λ found. found.items ≡ ids order.now) }
{
    collected(alloc, order.iter().map(|node| node.id))
}

/// Returns the ids of nodes in ascending order, as a list with fast look-up.
fn rising_ids_of(alloc: Global, order: &[Node]) -> Result<RisingIds, NoMemory>
    requires { AreRising (ids order.now) }
    ensures { IfOk result (λ found. found ≡ ids order.now) }
{
    let found = ids_of(alloc, order)?;
    RisingIds::new(alloc, found)
}

/// Returns the arcs that roads make, by position. Fails if a road is faulty or a node has too many arcs.
fn steps_of(
    alloc: Global,
    order: &[Node],
    found: &RisingIds,
    roads: &[Road],
) -> Result<Net, MapError>
    requires ids { found.now ≡ ids order.now }
    requires nodes { length order.now ≤ 65536 }
    requires few { length roads.now ≤ 262144 }
    ensures steps { IfOk result (AreSteps order.now roads.now) }
    ensures fault { IfErr result (StepFault order.now roads.now) }
{
    let placed = placed_roads(alloc, found, roads)?;
    let chains = chains_of(alloc, placed.as_slice(), order.len())?;
    net_of(alloc, placed.as_slice(), &chains, order)
}

/// Returns the chart of a map.
pub fn chart_of(alloc: Global, parts: &Parts) -> Result<Chart, MapError>
    requires { IsSized parts.now }
    ensures chart { IfOk result (λ made.
        IsBuilt parts.now made.order.items made.ids.value made.arcs made.net) }
    ensures fault { IfErr result (Fault parts.now) }
{
    let order = nodes_by_id(alloc, parts.nodes.as_slice())?;
    let ids = rising_ids_of(alloc, order.as_slice())?;
    let net = steps_of(alloc, order.as_slice(), &ids, parts.roads.as_slice())?;
    let arcs = net.named(alloc, order.as_slice())?;
    let held = shared(alloc, ids)?;
    Ok(Chart {
        order,
        ids: held,
        arcs,
        net,
    })
}
