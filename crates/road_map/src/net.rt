//! Arcs by position.

ghost use Rattle.std.specs.Prelude.{◌≡◌, ◌-◌, ◌<◌, ◌≤◌, ℕ, IfOk, OnOk, IfErr, length, slice_get, take, drop, map};
ghost use Rattle.std.specs.Option.{option_copied};
ghost use Rattle.road_map.specs.declared.arc.Arc.{Arc};
ghost use Rattle.road_map.specs.Chains.{AreChained};
ghost use Rattle.road_map.specs.Parted.{parted, AreEnds, start_at};
ghost use Rattle.road_map.specs.Rows.{AreRows, ThinBelow, FirstCrowded, id_at, named_arc};

use crate::arc::Arc;
use crate::chains::{Chains, MOST, gather};
use crate::error::MapError;
use crate::parts::{Node, Road};
use octet_text::{NoMemory, copied, extend, push, room_for, with_room};
use std::alloc::Global;
use std::marker::Model;

/// The arcs out of each node of a map. Both the node and the end of an arc are given by position. The arcs of all
/// nodes follow one another in one list.
#[derive(Drop)]
pub struct Net {
    arcs: Vec<Arc>,
    // The index in the list at which the arcs of each node end.
    ends: Vec<u32>,
}

impl Model for Net {
    ghost use Rattle.std.specs.Prelude.{List, length};
    ghost use Rattle.road_map.specs.declared.arc.Arc.{Arc};
    ghost use Rattle.road_map.specs.Parted.{parted, AreEnds};

    ghost Value = { List (List Arc) };

    ghost view = { λ n. parted 0 n.ends.items n.arcs.items };

    ghost invariant = { λ n. AreEnds 0 n.ends.items (length n.arcs.items) };
}

impl Net {
    /// Returns the arcs at a position, if it exists.
    pub fn get(&self, position: u32) -> Option<&[Arc]>
        ensures { option_copied result ≡ slice_get self.now position }
    {
        part_at(&self.arcs, &self.ends, position as usize)
    }

    /// Returns the same arcs with the id of each end in place of its position.
    pub(crate) fn named(&self, alloc: Global, order: &[Node]) -> Result<Net, NoMemory>
        ensures { IfOk result (λ named. named ≡ map (map (named_arc order.now)) self.now) }
    {
        let arcs = all_named(alloc, order, self.arcs.as_slice())?;
        let ends = copied(alloc, self.ends.as_slice())?;
        Ok(Net { arcs, ends })
    }
}

/// Converts arcs to positions into arcs to the ids of the nodes there.
fn all_named(alloc: Global, order: &[Node], arcs: &[Arc]) -> Result<Vec<Arc>, NoMemory>
    ensures { IfOk result (λ named. named.items ≡ map (named_arc order.now) arcs.now) }
{
    let mut named = room_for(alloc, arcs)?;
    for arc in arcs {
        push(
            &mut named,
            Arc {
                to: id_at(order, arc.to),
                length: arc.length,
            },
        )?;
    }
    Ok(named)
}

/// Returns the id of the node at a position, or the position itself if no node is there.
fn id_at(order: &[Node], position: u32) -> u32
    ensures { result ≡ id_at order.now position }
{
    match order.get(position as usize) {
        Some(node) => node.id,
        None => position,
    }
}

/// Returns the part that ends at the end with an index and begins at the previous end, if it exists.
fn part_at<'a>(arcs: &'a [Arc], ends: &[u32], index: usize) -> Option<&'a [Arc]>
    requires { AreEnds 0 ends.now (length arcs.now) }
    ensures { option_copied result ≡ slice_get (parted 0 ends.now arcs.now) index }
{
    if index >= ends.len() {
        return None;
    }
    let start = start_at(ends, index);
    Some(between(arcs, start, ends[index] as usize))
}

/// Returns the arcs from index `start` up to but not including index `end`.
fn between(arcs: &[Arc], start: usize, end: usize) -> &[Arc]
    requires order { start ≤ end }
    requires within { end ≤ length arcs.now }
    ensures { result.now ≡ take (end - start) (drop start arcs.now) }
{
    &arcs[start..end]
}

/// Returns the index at which the part with an index begins, given the ends of all parts.
fn start_at(ends: &[u32], index: usize) -> usize
    requires { index < length ends.now }
    ensures { result ≡ start_at 0 ends.now index }
{
    if index == 0 {
        return 0;
    }
    ends[index - 1] as usize
}

/// Returns the arcs that roads make between ordered nodes, up to the first node with too many arcs.
pub(crate) fn net_of(
    alloc: Global,
    roads: &[Road],
    chains: &Chains,
    order: &[Node],
) -> Result<Net, MapError>
    requires nodes { length order.now ≤ 65536 }
    requires few { length roads.now ≤ 262144 }
    requires count { length chains.now.first.items ≡ length order.now }
    requires chained { AreChained roads.now 0 chains.now.first.items chains.now.next.items }
    ensures rows { IfOk result (AreRows roads.now (length order.now)) }
    ensures thin { OnOk result (ThinBelow roads.now (length order.now)) }
    ensures fault { IfErr result (FirstCrowded roads.now order.now) }
{
    let mut arcs = with_room(alloc, 2 * roads.len(), roads)?;
    let mut ends = room_for(alloc, order)?;
    let mut row = Vec::new(alloc);
    for (position, node) in order.iter().enumerate() {
        gather(&mut row, roads, chains, position as u32)?;
        if row.len() > MOST {
            return Err(MapError::Crowded(node.id));
        }
        extend(&mut arcs, row.as_slice())?;
        push(&mut ends, arcs.len() as u32)?;
    }
    Ok(Net { arcs, ends })
}
