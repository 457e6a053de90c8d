//! A whole road map as the ground of a search.

ghost use Rattle.std.specs.Prelude.{◌≡◌, ◌≤◌, ◌↔◌, ℕ, None, Some, IfOk, IfSome};
ghost use Rattle.std.specs.Option.{option_copied};
ghost use Rattle.road_map.specs.Walks.{Knows, distance};
ghost use Rattle.road_search.specs.Labelling.{length_at, route_at};
ghost use Rattle.road_search.specs.Listing.{listed};
ghost use Rattle.road_search.specs.OverMap.{map_ways, IsShortestWay, MeasuresTo};

use crate::ground::Ground;
use crate::label_setting::search_to;
use crate::labels::Labels;
use crate::listed::Listed;
use crate::naming::by_ids;
use crate::paged::Paged;
use crate::places::placed_ids;
use octet_text::NoMemory;
use road_map::{Arc, Map, RisingIds, map_laws};
use std::alloc::Global;
use std::rc::Rc;

/// A map on which every length passes.
#[derive(Clone, Copy)]
pub struct WholeMap<'a> {
    pub map: &'a Map,
}

impl Ground for WholeMap<'_> {
    ghost ways = { λ w. map_ways w.map.now.parts };

    fn arcs(&self, id: u32) -> Option<&[Arc]> {
        let map = self.map;
        arcs_at(map, id)
    }

    fn lets(&self, _id: u32, _length: u64) -> bool {
        true
    }

    fn ids(&self, alloc: Global) -> Result<Rc<RisingIds>, NoMemory> {
        placed_ids(alloc, self.map)
    }

    ghost lets_shorter = { λ w id short long le h. h };
}

/// Returns the arcs out of an id, if it is known.
fn arcs_at(map: &Map, id: u32) -> Option<&[Arc]>
    ensures { option_copied result ≡ (map_ways map.now.parts).arcs id }
{
    let _parts = map.parts();
    match map.position(id) {
        None => None,
        Some(position) => Some(map.arcs(position)),
    }
}

/// Returns empty labels.
fn no_labels(alloc: Global) -> Result<Labels, NoMemory>
    ensures labels { IfOk result (λ found. (id : ℕ) → listed found.labels id ≡ None) }
    ensures missing { IfOk result (λ found. found.missing ≡ None) }
{
    let marks = Listed::none(alloc)?;
    Ok(Labels::new(marks, None))
}

/// Returns the distances from a node to one end and to all nodes as near. Searches by position and converts the
/// result to ids.
fn distances_by_position(alloc: Global, map: &Map, from: u32, to: u32) -> Result<Labels, NoMemory>
    requires { Knows map.now.parts from }
    ensures { IfOk result (MeasuresTo map.now.parts from to) }
{
    map_laws();
    let _parts = map.parts();
    let start = map.place(from);
    let Some(end) = map.position(to) else {
        let none = no_labels(alloc)?;
        return Ok(none);
    };
    let mut marks = Paged::new(alloc);
    let net = map.net();
    let _bound = search_to(alloc, net, &mut marks, start, end, u64::MAX)?;
    let found = by_ids(alloc, map, &marks)?;
    Ok(Labels::new(found, None))
}

/// Returns the distances from a node to one end and to all nodes as near, and a shortest route to that end.
///
/// The cost depends on the nodes as near as the end or, if no walk leads to the end, on all nodes that walks reach.
/// A length that exceeds that of the end has no meaning.
pub fn distances_to(alloc: Global, map: &Map, from: u32, to: u32) -> Result<Labels, NoMemory>
    requires { Knows map.now.parts from }
    ensures end { IfOk result (λ found. length_at found to ≡ distance map.now.parts from to) }
    ensures route { IfOk result (λ found.
        IfSome (route_at found to) (IsShortestWay map.now.parts from to (length_at found to))) }
    ensures near { IfOk result (λ found. (v d most : ℕ) → length_at found to ≡ Some most →
        d ≤ most → (length_at found v ≡ Some d) ↔ (distance map.now.parts from v ≡ Some d)) }
    ensures missing { IfOk result (λ found. found.missing ≡ None) }
{
    distances_by_position(alloc, map, from, to)
}
