//! The chain of chosen positions. It has an arc from one position to another if a walk joins them without passing a
//! third.

ghost use Rattle.std.specs.Prelude.{◌≡◌, ◌<◌, ◌≤◌, ◌+◌, ℕ, true, IfOk, IfSome, Some, length, slice_get};
ghost use Rattle.std.specs.Option.{option_copied};
ghost use Rattle.road_search.specs.Labelling.{length_in};
ghost use Rattle.road_search.specs.Passing.{IsLeastPassing};
ghost use Rattle.pair_dist.specs.Chains.{AreWalls, IsLink, IsLinkBelow, IsChain, walled_ways, too_long};

use crate::rows::Rows;
use crate::walled::Walled;
use octet_text::{NoMemory, copied, filled, push};
use road_map::{Arc, Arcs};
use road_search::{Ground, Marks, Numbered, search_in};
use std::alloc::Global;
use std::marker::Model;

/// For each position, given by its number, the arcs to the numbers of other positions.
#[derive(Drop)]
pub struct Chain {
    pub(crate) rows: Vec<Arcs>,
}

impl Model for Chain {
    ghost use Rattle.std.specs.Prelude.{List};
    ghost use Rattle.road_map.specs.declared.arc.Arc.{Arc};

    ghost Value = { List (List Arc) };

    ghost view = { λ c. c.rows.items };
}

impl Chain {
    /// Returns the arcs at a number, if the number exists.
    fn get(&self, number: u32) -> Option<&[Arc]>
        ensures { option_copied result ≡ slice_get self.now number }
    {
        match self.rows.get(number as usize) {
            None => None,
            Some(arcs) => Some(arcs.as_slice()),
        }
    }
}

impl Rows for Chain {
    ghost rows = { λ c. c };

    fn at(&self, number: u32) -> Option<&[Arc]> {
        self.get(number)
    }
}

impl Ground for Chain {
    ghost use Rattle.road_search.specs.Nets.{net_ways};

    ghost ways = { λ c. net_ways c };

    fn arcs(&self, id: u32) -> Option<&[Arc]> {
        self.get(id)
    }

    fn lets(&self, _id: u32, _length: u64) -> bool {
        true
    }

    ghost lets_shorter = { λ c id short long le h. h };
}

/// Returns walls for `count` positions, with a wall at each of some positions.
pub fn walls_at(alloc: Global, count: u32, places: &[u32]) -> Result<Vec<bool>, NoMemory>
    requires { (i p : ℕ) → slice_get places.now i ≡ Some p → p < count }
    ensures { IfOk result (λ walls. AreWalls places.now walls.items) }
{
    let mut walls = filled(alloc, false, count as usize)?;
    for place in places {
        walls[*place as usize] = true;
    }
    Ok(walls)
}

/// Returns the length that a search has found, if it has found one.
pub fn length_of<T: Marks>(marks: &T, position: u32) -> Option<u64>
    ensures { result ≡ length_in (T.mark marks.now) position }
{
    match marks.get(position) {
        None => None,
        Some(mark) => Some(mark.label.length),
    }
}

/// Adds the arc to one more position, if a walk leads there without passing another chosen one. Returns false if
/// the arc is too long.
fn add_link<T: Marks, R: Rows>(
    row: &mut Vec<Arc>,
    walled: &Walled<'_, R>,
    marks: &T,
    places: &[u32],
    own: usize,
    number: usize,
) -> Result<bool, NoMemory>
    requires few { length places.now ≤ 65536 }
    requires within { number < length places.now }
    requires least { (v : ℕ) → IsLeastPassing
        (walled_ways (R.rows walled.now.rows.now) walled.now.walls.now walled.now.start) walled.now.start
        too_long v (length_in (T.mark marks.now) v) }
    requires below { IsLinkBelow (R.rows walled.now.rows.now) walled.now.walls.now places.now own
        walled.now.start number row.old.items }
    ensures { IfOk result (λ fits. fits ≡ true → IsLinkBelow (R.rows walled.now.rows.now)
        walled.now.walls.now places.now own walled.now.start (number + 1) row.new.items) }
{
    if number == own {
        return Ok(true);
    }
    let Some(length) = length_of(marks, places[number]) else {
        return Ok(true);
    };
    if length > u64::from(u32::MAX) {
        return Ok(false);
    }
    push(
        row,
        Arc {
            to: number as u32,
            length: length as u32,
        },
    )?;
    Ok(true)
}

/// Returns the arcs from one of the positions to others, from the result of a search. Returns `None` if one of them
/// is too long.
fn link<T: Marks, R: Rows>(
    alloc: Global,
    walled: &Walled<'_, R>,
    marks: &T,
    places: &[u32],
    own: usize,
) -> Result<Option<Arcs>, NoMemory>
    requires few { length places.now ≤ 65536 }
    requires least { (v : ℕ) → IsLeastPassing
        (walled_ways (R.rows walled.now.rows.now) walled.now.walls.now walled.now.start) walled.now.start
        too_long v (length_in (T.mark marks.now) v) }
    ensures { IfOk result (λ found. IfSome found (IsLink (R.rows walled.now.rows.now) walled.now.walls.now
        places.now own walled.now.start)) }
{
    let mut row = Vec::new(alloc);
    for number in 0..places.len() {
        if !add_link(&mut row, walled, marks, places, own, number)? {
            return Ok(None);
        }
    }
    Ok(Some(Arcs::from_vec(copied(alloc, row.as_slice())?)))
}

/// Returns the chain of some positions. Runs a search from each position that stops at every other one. Returns
/// `None` if an arc is too long or there are more than `most` arcs.
pub fn chain_of<R: Rows>(
    alloc: Global,
    rows: &R,
    walls: &[bool],
    places: &[u32],
    most: usize,
) -> Result<Option<Chain>, NoMemory>
    requires few { length places.now ≤ 65536 }
    ensures { IfOk result (λ found. IfSome found (IsChain (R.rows rows.now) walls.now places.now)) }
{
    let mut chain = Vec::new(alloc);
    let mut marks = Numbered::new(alloc);
    let mut room = most;
    for (own, start) in places.iter().enumerate() {
        let walled = Walled {
            rows,
            walls,
            start: *start,
        };
        marks.clear();
        search_in(alloc, &walled, &mut marks, *start, u64::MAX)?;
        let Some(row) = link(alloc, &walled, &marks, places, own)? else {
            return Ok(None);
        };
        let count = row.as_slice().len();
        if count > room {
            return Ok(None);
        }
        room -= count;
        push(&mut chain, row)?;
    }
    Ok(Some(Chain { rows: chain }))
}
