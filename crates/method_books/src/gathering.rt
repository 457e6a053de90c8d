//! Gathering for a query: the nodes that inner walks reach, and the pairs of borders.

ghost use Rattle.std.specs.Prelude.{◌≡◌, ◌≢◌, ◌⊎◌, ◌<◌, ◌^◌, ℕ, min, max, IsTrue, IfOk, OnOk, Contains, length};
ghost use Rattle.std.specs.List.{filter_map};
ghost use Rattle.road_search.specs.Labelling.{length_at};
ghost use Rattle.road_search.specs.Nearness.{is_within};
ghost use Rattle.pair_dist.specs.Rising.{PairsRise};
ghost use Rattle.proof_method.specs.Gathering.{Lists};
ghost use Rattle.method_books.specs.HypBooks.{with_length, StandsAt, IsPairAt, Adds, AddsAll, HasPairs, IsInRow, IsWantedPlace};

use crate::pair_places::{place_from, place_in_rows};
use book_model::Places;
use octet_text::{NoMemory, copied, extend, push};
use proof_method::rising;
use road_leaf::PairLeaf;
use road_map::Ids;
use road_search::Labels;
use std::alloc::Global;

/// Returns the ids on a route, and those to which one of two searches gives a length of at most `most`, by
/// ascending id.
pub fn wanted_nodes(
    alloc: Global,
    route: &Ids,
    near: &Labels,
    far: &Labels,
    most: u64,
) -> Result<Ids, NoMemory>
    ensures { IfOk result (Lists (λ id. Contains route.now id ⊎
        IsTrue (is_within most (length_at near.now id)) ⊎
        IsTrue (is_within most (length_at far.now id)))) }
{
    let mut ids = copied(alloc, route.as_slice())?;
    let close = near.near(alloc, most)?;
    extend(&mut ids, close.as_slice())?;
    let distant = far.near(alloc, most)?;
    extend(&mut ids, distant.as_slice())?;
    Ok(rising(ids))
}

/// Returns the borders that inner walks reach, by ascending id, each with its least length.
pub fn reached(alloc: Global, borders: &[u32], labels: &Labels) -> Result<Vec<(u32, u64)>, NoMemory>
    ensures { IfOk result (λ v. v.items ≡ filter_map
        (with_length (length_at labels.now)) borders.now) }
{
    let mut list = Vec::new(alloc);
    for id in borders {
        if let Some(length) = labels.get(*id) {
            push(&mut list, (*id, length))?;
        }
    }
    Ok(list)
}

/// Returns how many of some ascending ids are below an id.
fn index_in(ids: &[u32], id: u32) -> usize {
    ids.partition_point(|other| *other < id)
}

/// Returns the index of the leaf of two borders.
fn place_between(pairs: &[PairLeaf], borders: &[u32], a: u32, b: u32) -> u32
    requires rise { PairsRise pairs.now }
    requires few { length pairs.now < 2 ^ 32 }
    requires there { HasPairs pairs.now borders.now }
    requires a { Contains borders.now a }
    requires b { Contains borders.now b }
    requires apart { a ≢ b }
    ensures { StandsAt pairs.now (min a b) (max a b) result }
{
    let guess = place_in_rows(borders.len(), index_in(borders, a), index_in(borders, b));
    let place = place_from(pairs, guess, a.min(b), a.max(b)).unwrap();
    place as u32
}

/// Adds the index of the pair of two borders, if their lengths sum to less than the limit.
fn add_pair(
    places: &mut Vec<u32>,
    pairs: &[PairLeaf],
    borders: &[u32],
    most: u64,
    near: (u32, u64),
    far: (u32, u64),
) -> Result<(), NoMemory>
    requires rise { PairsRise pairs.now }
    requires few { length pairs.now < 2 ^ 32 }
    requires there { HasPairs pairs.now borders.now }
    requires near { Contains borders.now near.0 }
    requires far { Contains borders.now far.0 }
    ensures { OnOk result (Adds (IsPairAt pairs.now most near far) places.old.items
        places.new.items) }
{
    if near.0 != far.0 && near.1 < most && far.1 < most - near.1 {
        push(places, place_between(pairs, borders, near.0, far.0))?;
    }
    Ok(())
}

/// Adds the indices of the pairs of a border near the start with those near the end.
fn add_row(
    places: &mut Vec<u32>,
    pairs: &[PairLeaf],
    borders: &[u32],
    most: u64,
    near: (u32, u64),
    far: &[(u32, u64)],
) -> Result<(), NoMemory>
    requires rise { PairsRise pairs.now }
    requires few { length pairs.now < 2 ^ 32 }
    requires there { HasPairs pairs.now borders.now }
    requires near { Contains borders.now near.0 }
    requires far { (c : ℕ × ℕ) → Contains far.now c → Contains borders.now c.0 }
    ensures { OnOk result (AddsAll (IsPairAt pairs.now most near) far.now
        places.old.items places.new.items) }
{
    for border in far {
        add_pair(places, pairs, borders, most, near, *border)?;
    }
    Ok(())
}

/// Adds the indices of the pairs of the borders near the start with those near the end.
fn add_rows(
    places: &mut Vec<u32>,
    pairs: &[PairLeaf],
    borders: &[u32],
    most: u64,
    near: &[(u32, u64)],
    far: &[(u32, u64)],
) -> Result<(), NoMemory>
    requires rise { PairsRise pairs.now }
    requires few { length pairs.now < 2 ^ 32 }
    requires there { HasPairs pairs.now borders.now }
    requires near { (b : ℕ × ℕ) → Contains near.now b → Contains borders.now b.0 }
    requires far { (c : ℕ × ℕ) → Contains far.now c → Contains borders.now c.0 }
    ensures { OnOk result (AddsAll
        (IsInRow pairs.now most far.now) near.now places.old.items places.new.items) }
{
    for border in near {
        add_row(places, pairs, borders, most, *border, far)?;
    }
    Ok(())
}

/// Returns the indices, ascending, of the pairs of a border near the start and a border near the end whose lengths
/// sum to less than the limit.
pub fn wanted_pairs(
    alloc: Global,
    pairs: &[PairLeaf],
    borders: &[u32],
    near: &Labels,
    far: &Labels,
    most: u64,
) -> Result<Places, NoMemory>
    requires rise { PairsRise pairs.now }
    requires few { length pairs.now < 2 ^ 32 }
    requires there { HasPairs pairs.now borders.now }
    ensures { IfOk result (Lists (IsWantedPlace pairs.now borders.now (length_at near.now)
        (length_at far.now) most)) }
{
    let near = reached(alloc, borders, near)?;
    let far = reached(alloc, borders, far)?;
    let mut places = Vec::new(alloc);
    add_rows(
        &mut places,
        pairs,
        borders,
        most,
        near.as_slice(),
        far.as_slice(),
    )?;
    let places = rising(places);
    Ok(Places::from_vec(places.into_vec()))
}
