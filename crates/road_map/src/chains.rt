//! Chains: all roads that end at the same position, each with the index of the next one.

ghost use Rattle.std.specs.Prelude.{◌≡◌, ◌+◌, ◌<◌, ◌≤◌, IfOk, OnOk, length, if◌then◌else◌, ◌==◌};
ghost use Rattle.road_map.specs.ArcsOut.{Rise};
ghost use Rattle.road_map.specs.Chains.{EndsAt, EndBelow, AreChained};
ghost use Rattle.road_map.specs.Rows.{capped_put, capped_road, row_at};

use crate::arc::{Arc, put};
use crate::parts::Road;
use octet_text::{NoMemory, filled};
use std::alloc::Global;

/// The greatest number of neighbours of a node.
pub const MOST: usize = 255;

/// For each end of a road, the index of the next road that ends at the same position, or the number of all roads if
/// none follows.
#[derive(Clone, Copy, Debug)]
pub struct Next {
    pub a: u32,
    pub b: u32,
}

/// For each position, the index of the first road that ends there, or the number of all roads if no road does. For
/// each road, the next ones.
#[derive(Drop)]
pub struct Chains {
    pub first: Vec<u32>,
    pub next: Vec<Next>,
}

/// Builds the chains of roads whose ends are positions below `count`.
pub fn chains_of(alloc: Global, roads: &[Road], count: usize) -> Result<Chains, NoMemory>
    requires few { length roads.now ≤ 262144 }
    requires ends { EndBelow count roads.now }
    ensures count { IfOk result (λ chains. length chains.first.items ≡ count) }
    ensures chained { IfOk result (λ chains.
        AreChained roads.now 0 chains.first.items chains.next.items) }
{
    let none = roads.len() as u32;
    let mut first = filled(alloc, none, count)?;
    let mut next = filled(alloc, Next { a: none, b: none }, roads.len())?;
    for index in (0..roads.len()).rev() {
        chain(&mut first, &mut next, roads, index);
    }
    Ok(Chains { first, next })
}

/// Puts the road at an index at the front of both chains to which it belongs.
fn chain(first: &mut Vec<u32>, next: &mut Vec<Next>, roads: &[Road], index: usize)
    requires few { length roads.now ≤ 262144 }
    requires within { index < length roads.now }
    requires ends { EndBelow (length first.old.items) roads.now }
    requires chained { AreChained roads.now (index + 1) first.old.items next.old.items }
    ensures count { length first.new.items ≡ length first.old.items }
    ensures chained { AreChained roads.now index first.new.items next.new.items }
{
    let road = roads[index];
    let a = first[road.a as usize];
    let b = first[road.b as usize];
    next[index] = Next { a, b };
    first[road.a as usize] = index as u32;
    first[road.b as usize] = index as u32;
}

/// Replaces a row by the arcs out of a position. Stops at the first arc that exceeds the limit.
pub fn gather(
    row: &mut Vec<Arc>,
    roads: &[Road],
    chains: &Chains,
    position: u32,
) -> Result<(), NoMemory>
    requires within { position < length chains.now.first.items }
    requires chained { AreChained roads.now 0 chains.now.first.items chains.now.next.items }
    ensures { OnOk result (row.new.items ≡ row_at roads.now position) }
{
    row.clear();
    let mut index = chains.first[position as usize] as usize;
    while index < roads.len() {
        let next = add_arc(row, roads[index], chains.next[index], position)?;
        index = next as usize;
    }
    Ok(())
}

/// Adds the arc of a road that ends at a position, unless the row already exceeds the limit. Returns the index of
/// the next road.
fn add_arc(row: &mut Vec<Arc>, road: Road, next: Next, position: u32) -> Result<u32, NoMemory>
    requires rise { Rise row.old.items }
    requires ends { EndsAt road position }
    ensures row { OnOk result (row.new.items ≡ capped_road position row.old.items road) }
    ensures next { IfOk result (λ index.
        index ≡ (if road.a == position then next.a else next.b)) }
{
    if road.a == position {
        put_below(row, road.b, road.length)?;
        return Ok(next.a);
    }
    put_below(row, road.a, road.length)?;
    Ok(next.b)
}

/// Inserts an arc into arcs in ascending order of id, unless these already exceed the limit.
fn put_below(row: &mut Vec<Arc>, to: u32, length: u32) -> Result<(), NoMemory>
    requires { Rise row.old.items }
    ensures { OnOk result (row.new.items ≡ capped_put to length row.old.items) }
{
    if row.len() <= MOST {
        put(row, to, length)?;
    }
    Ok(())
}
