//! The table, row by row.

ghost use Rattle.std.specs.Prelude.{◌≡◌, ◌≤◌, ◌<◌, ◌↔◌, ℕ, Some, ◌++◌, Err, IfOk, IfSome, OnOk, Contains, drop, length, map, slice_get};
ghost use Rattle.road_map.specs.Walks.{Knows, distance};
ghost use Rattle.road_search.specs.Labelling.{length_in};
ghost use Rattle.book_model.specs.Pairs.{pair_leaf, pairs_of, said};
ghost use Rattle.pair_dist.specs.Placing.{ArePlaces};
ghost use Rattle.pair_dist.specs.Chains.{Begins, Keeps, Measured, Finds};
ghost use Rattle.pair_dist.specs.declared.error.PairError.TheVariants as pair_error;

use crate::chain::{Chain, chain_of, length_of, walls_at};
use crate::error::PairError;
use crate::finer::finer_places;
use crate::rows::Rows;
use crate::thin::thinned;
use book_model::PairLeaves;
use octet_text::{NoMemory, push};
use road_leaf::PairLeaf;
use road_map::{Map, Net, map_laws};
use road_search::{Ground, Marks, Numbered, search_in};
use std::alloc::Global;

/// Returns the distance as a leaf states it: the greatest number if no walk leads to the station.
fn said_length<T: Marks>(marks: &T, station: u32) -> u64
    ensures { result ≡ said (length_in (T.mark marks.now) station) }
{
    length_of(marks, station).unwrap_or(u64::MAX)
}

/// Returns the positions of some nodes.
fn positions(alloc: Global, map: &Map, chosen: &[u32]) -> Result<Vec<u32>, NoMemory>
    requires { (id : ℕ) → Contains chosen.now id → Knows map.now.parts id }
    ensures { IfOk result (λ places. ArePlaces map.now.order chosen.now places.items) }
{
    let _parts = map.parts();
    let mut places = Vec::new(alloc);
    for id in chosen {
        push(&mut places, map.place(*id))?;
    }
    Ok(places)
}

/// Returns the numbers below a count.
fn numbers(alloc: Global, count: u32) -> Result<Vec<u32>, NoMemory>
    ensures long { IfOk result (λ v. length v.items ≡ count) }
    ensures each { IfOk result (λ v. (i n : ℕ) → slice_get v.items i ≡ Some n → n ≡ i) }
{
    let mut found = Vec::new(alloc);
    for number in 0..count {
        push(&mut found, number)?;
    }
    Ok(found)
}

/// Adds the leaves of one id with each of the other ids from an offset on, after a search from its station.
fn add_row<T: Marks>(
    leaves: &mut Vec<PairLeaf>,
    chart: &Map,
    marks: &T,
    a: u32,
    chosen: &[u32],
    stations: &[u32],
    first: usize,
) -> Result<(), NoMemory>
    requires long { length stations.now ≡ length chosen.now }
    requires finds { Finds (distance chart.now.parts a) (length_in (T.mark marks.now)) chosen.now
        stations.now }
    ensures { OnOk result (leaves.new.items ≡ leaves.old.items ++ map
        (pair_leaf (distance chart.now.parts) a) (drop first chosen.now)) }
{
    for place in first..chosen.len() {
        let distance = said_length(marks, stations[place]);
        push(
            leaves,
            PairLeaf {
                a,
                b: chosen[place],
                distance,
            },
        )?;
    }
    Ok(())
}

/// Returns the leaves of all pairs. Runs a search from the station of each id, over a ground that preserves their
/// distances.
fn leaves_over<G: Ground>(
    alloc: Global,
    ground: &G,
    map: &Map,
    chosen: &[u32],
    stations: &[u32],
) -> Result<Vec<PairLeaf>, NoMemory>
    requires { Measured (distance map.now.parts) (G.ways ground.now) chosen.now stations.now }
    ensures { IfOk result (λ leaves. leaves.items ≡ pairs_of (distance map.now.parts) chosen.now) }
{
    let mut marks = Numbered::new(alloc);
    let mut leaves = Vec::new(alloc);
    for (i, a) in chosen.iter().enumerate() {
        marks.clear();
        search_in(alloc, ground, &mut marks, stations[i], u64::MAX)?;
        add_row(&mut leaves, map, &marks, *a, chosen, stations, i + 1)?;
    }
    Ok(leaves)
}

/// Returns a chain of some positions, among `count` rows, that preserves their distances. Returns `None` if an arc
/// is too long or there are more than `most` arcs.
fn chain_over<R: Rows>(
    alloc: Global,
    rows: &R,
    count: u32,
    places: &[u32],
    most: usize,
) -> Result<Option<Chain>, NoMemory>
    requires within { (i p : ℕ) → slice_get places.now i ≡ Some p → p < count }
    requires few { length places.now ≤ 65536 }
    ensures { IfOk result (λ found. IfSome found (Keeps (R.rows rows.now) places.now)) }
{
    let walls = walls_at(alloc, count, places)?;
    match chain_of(alloc, rows, walls.as_slice(), places, most)? {
        None => Ok(None),
        Some(chain) => Ok(Some(thinned(alloc, chain)?)),
    }
}

/// Returns a chain of some positions over the chain of finer positions, of which they are the first. Uses the net
/// instead if the finer chain would have more arcs than the positions have pairs.
fn chain_by_steps(
    alloc: Global,
    net: &Net,
    count: u32,
    finer: &[u32],
    places: &[u32],
) -> Result<Option<Chain>, NoMemory>
    requires within { (i p : ℕ) → slice_get finer.now i ≡ Some p → p < count }
    requires few { length finer.now ≤ 65536 }
    requires front { Begins places.now finer.now }
    requires pairs { length places.now ≤ 2048 }
    ensures { IfOk result (λ found. IfSome found (Keeps net.now places.now)) }
{
    let most = places.len() * places.len();
    match chain_over(alloc, net, count, finer, most)? {
        None => chain_over(alloc, net, count, places, most),
        Some(fine) => {
            let own = numbers(alloc, places.len() as u32)?;
            chain_over(alloc, &fine, finer.len() as u32, own.as_slice(), most)
        }
    }
}

/// Returns a chain of some positions that preserves their distances. Returns `None` if an arc is too long or there
/// are no other positions.
fn chain_at(alloc: Global, map: &Map, net: &Net, places: &[u32]) -> Result<Option<Chain>, NoMemory>
    requires within { (i p : ℕ) → slice_get places.now i ≡ Some p → p < length map.now.order }
    requires few { length places.now ≤ 2048 }
    ensures { IfOk result (λ found. IfSome found (Keeps net.now places.now)) }
{
    let count = map.count();
    if places.len() == count as usize {
        return Ok(None);
    }
    match finer_places(alloc, map, net, places)? {
        None => chain_over(alloc, net, count, places, places.len() * places.len()),
        Some(finer) => chain_by_steps(alloc, net, count, finer.as_slice(), places),
    }
}

/// Returns the leaves of all pairs of some nodes at these positions, over their chain or, if they have none, over
/// the whole map.
fn leaves_at(
    alloc: Global,
    map: &Map,
    chosen: &[u32],
    places: &[u32],
) -> Result<Vec<PairLeaf>, NoMemory>
    requires places { ArePlaces map.now.order chosen.now places.now }
    requires few { length places.now ≤ 2048 }
    ensures { IfOk result (λ leaves. leaves.items ≡ pairs_of (distance map.now.parts) chosen.now) }
{
    map_laws();
    let _parts = map.parts();
    let net = map.net();
    match chain_at(alloc, map, net, places)? {
        None => leaves_over(alloc, net, map, chosen, places),
        Some(chain) => {
            let stations = numbers(alloc, places.len() as u32)?;
            leaves_over(alloc, &chain, map, chosen, stations.as_slice())
        }
    }
}

/// Returns the leaves of all pairs of some nodes: each id with each later id, and their distance.
///
/// Runs one search for each id that stops at every other id, and one over the lengths that these searches have
/// found. If a large map has many of the ids, the first searches use lengths found by searches between more
/// positions. Fails with `TooMany` exactly if more than 2,048 nodes are chosen, before any search.
pub fn pair_leaves(alloc: Global, map: &Map, chosen: &[u32]) -> Result<PairLeaves, PairError>
    requires { (id : ℕ) → Contains chosen.now id → Knows map.now.parts id }
    ensures leaves { IfOk result (λ leaves. leaves ≡ pairs_of (distance map.now.parts) chosen.now) }
    ensures many { (result ≡ Err pair_error.TooMany) ↔ (2048 < length chosen.now) }
{
    if chosen.len() > 2048 {
        return Err(PairError::TooMany);
    }
    let places = positions(alloc, map, chosen)?;
    let leaves = leaves_at(alloc, map, chosen, places.as_slice())?;
    Ok(PairLeaves::from_vec(leaves))
}
