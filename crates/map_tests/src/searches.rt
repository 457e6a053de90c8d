//! Searches compared with a plain slow program, and the routes of small maps.

use crate::same::{assert_row, assert_same};
use octet_text::NoMemory;
use road_map::{Arc, Arcs, Map, MapError, Parts};
use road_search::{Ground, Labels, Path, distances_to, knows, search, shortest};
use std::alloc::{AllocError, Global};
use std::process::Abort;
use std::test::Fail;
use test_maps::{NODES, ROADS, apart, map_of, parts_of};

/// The ground of a search whose ids are indices in a list. At one id, walks of at least a given length are barred.
#[derive(Drop)]
struct Barred<'a> {
    rows: &'a [Arcs],
    id: u32,
    bar: u64,
}

impl Ground for Barred<'_> {
    ghost use Rattle.std.specs.Prelude.{slice_get};
    ghost use Rattle.road_search.specs.Barring.{lets_below, lets_below_shorter};

    ghost ways = { λ g. record {
      arcs = λ id. slice_get g.rows.now id;
      lets = lets_below g.id g.bar;
    } };

    fn arcs(&self, id: u32) -> Option<&[Arc]> {
        match self.rows.get(id as usize) {
            None => None,
            Some(arcs) => Some(arcs.as_slice()),
        }
    }

    fn lets(&self, id: u32, length: u64) -> bool {
        id != self.id || length < self.bar
    }

    ghost lets_shorter = { λ g. lets_below_shorter g.id g.bar };
}

/// Stores a length for an id if it is less than the stored one.
fn lower(best: &mut [Option<u64>], id: u32, length: u64) {
    if let Some(old) = best.get_mut(id as usize) {
        let falls = match *old {
            None => true,
            Some(old) => length < old,
        };
        if falls {
            *old = Some(length);
        }
    }
}

/// Relaxes each arc out of an id once.
fn relax(ground: &Barred, best: &mut [Option<u64>], id: u32, limit: u64) {
    let Some(Some(length)) = best.get(id as usize).copied() else {
        return;
    };
    if !ground.lets(id, length) {
        return;
    }
    let Some(arcs) = ground.arcs(id) else {
        return;
    };
    for arc in arcs {
        let sum = length.saturating_add(u64::from(arc.length));
        if sum < limit {
            lower(best, arc.to, sum);
        }
    }
}

/// The number of ids in a case.
const IDS: u32 = 7;

/// Returns lengths in which only the start has one, 0, if the limit allows it.
fn started(alloc: Global, from: u32, limit: u64) -> Result<Vec<Option<u64>>, AllocError> {
    let mut best = Vec::new(alloc);
    for id in 0..IDS {
        best.push(if id == from && limit > 0 {
            Some(0)
        } else {
            None
        })?;
    }
    Ok(best)
}

/// Relaxes every arc once.
fn relax_all(ground: &Barred, best: &mut [Option<u64>], limit: u64) {
    for id in 0..IDS {
        relax(ground, best, id, limit);
    }
}

/// Returns the least lengths by relaxing every arc as often as there are ids.
fn relaxed(
    alloc: Global,
    ground: &Barred,
    from: u32,
    limit: u64,
) -> Result<Vec<Option<u64>>, AllocError> {
    let mut best = started(alloc, from, limit)?;
    for _round in 0..IDS {
        relax_all(ground, best.as_mut_slice(), limit);
    }
    Ok(best)
}

/// Returns the least length to an id.
fn length_in(best: &[Option<u64>], id: u32) -> Option<u64> {
    match best.get(id as usize) {
        None => None,
        Some(length) => *length,
    }
}

/// Returns the least id, from `entries` on, that has a length.
fn missing_in(best: &[Option<u64>], entries: u32) -> Option<u32> {
    for id in entries..IDS {
        if length_in(best, id).is_some() {
            return Some(id);
        }
    }
    None
}

/// Returns the arcs out of the first ids, from triples of a start, an end and a length.
fn rows_of(alloc: Global, count: u32, arcs: &[(u32, u32, u32)]) -> Result<Vec<Arcs>, AllocError> {
    let mut rows = Vec::new(alloc);
    for id in 0..count {
        let mut row = Vec::new(alloc);
        for (from, to, length) in arcs {
            if *from == id {
                row.push(Arc {
                    to: *to,
                    length: *length,
                })?;
            }
        }
        rows.push(Arcs::from_vec(row))?;
    }
    Ok(rows)
}

/// Arcs, each with its start, its end and its length.
type Triples = &'static [(u32, u32, u32)];

/// A case: arcs, the number of ids with an entry, the id that bars and the barred length, the start, and the limit.
type Case = (Triples, u32, u32, u64, u32, u64);

const SQUARE: Triples = &[
    (0, 1, 4),
    (1, 0, 4),
    (1, 2, 5),
    (2, 1, 5),
    (0, 3, 3),
    (3, 0, 3),
    (3, 2, 7),
    (2, 3, 7),
];

const PARALLEL: Triples = &[
    (0, 1, 9),
    (0, 1, 2),
    (1, 2, 8),
    (1, 2, 1),
    (2, 0, 0),
    (0, 2, 3),
    (0, 2, 4),
];

const ZERO: Triples = &[
    (0, 1, 0),
    (1, 2, 0),
    (2, 3, 0),
    (3, 0, 0),
    (0, 3, 0),
    (3, 4, 1),
];

const DETOUR: Triples = &[
    (0, 1, 1),
    (1, 2, 1),
    (2, 3, 1),
    (3, 4, 1),
    (0, 4, 9),
    (4, 5, 2),
    (2, 6, 100),
];

const LOOPS: Triples = &[
    (0, 0, 0),
    (0, 1, 3),
    (1, 1, 1),
    (1, 0, 3),
    (1, 5, 4_294_967_295),
];

static CASES: [Case; 14] = [
    (SQUARE, 4, 6, 0, 0, u64::MAX),
    (SQUARE, 4, 6, 0, 2, 8),
    (SQUARE, 4, 6, 0, 2, 7),
    (SQUARE, 4, 1, 4, 0, u64::MAX),
    (SQUARE, 4, 1, 5, 0, u64::MAX),
    (SQUARE, 2, 6, 0, 0, u64::MAX),
    (PARALLEL, 3, 6, 0, 0, u64::MAX),
    (PARALLEL, 3, 1, 2, 0, 4),
    (ZERO, 5, 6, 0, 0, 1),
    (ZERO, 4, 2, 0, 0, u64::MAX),
    (ZERO, 3, 6, 0, 5, 0),
    (DETOUR, 4, 2, 2, 0, u64::MAX),
    (DETOUR, 4, 2, 3, 0, 103),
    (LOOPS, 2, 6, 0, 0, u64::MAX),
];

/// Asserts that labels have these lengths, and that each length has a route.
fn assert_labels(
    rt: &impl Abort,
    alloc: Global,
    labels: &Labels,
    best: &[Option<u64>],
) -> Result<(), NoMemory> {
    for id in 0..IDS {
        let length = length_in(best, id);
        assert_row(rt, id, labels.get(id), length);
        let route = labels.route(alloc, id)?;
        assert_row(rt, id, route.is_some(), length.is_some());
    }
    assert_same(rt, labels.get(IDS), None);
    Ok(())
}

fn assert_relaxed(rt: &impl Abort, alloc: Global, case: &Case) -> Result<(), Fail> {
    let (arcs, entries, id, bar, from, limit) = *case;
    let rows = rows_of(alloc, entries, arcs)?;
    let ground = Barred {
        rows: rows.as_slice(),
        id,
        bar,
    };
    let labels = search(alloc, &ground, from, limit)?;
    let best = relaxed(alloc, &ground, from, limit)?;
    assert_labels(rt, alloc, &labels, best.as_slice())?;
    let missing = missing_in(best.as_slice(), entries);
    assert_row(rt, *case, labels.missing(), missing);
    Ok(())
}

#[test]
fn searches_agree_with_relaxing(rt: HostRuntime) -> Result<(), Fail> {
    for case in &CASES {
        assert_relaxed(&rt, rt.alloc(), case)?;
    }
    Ok(())
}

/// Returns the ids of a path, if there is one.
fn ids_of(path: &Option<Path>) -> &[u32] {
    match path {
        None => &[],
        Some(path) => path.ids.as_slice(),
    }
}

/// Returns the length of a path, if there is one.
fn length_of(path: &Option<Path>) -> Option<u64> {
    match path {
        None => None,
        Some(path) => Some(path.length),
    }
}

/// The number of nodes of a map, its roads, its two ends, and the length and the ids of the only shortest route.
type Worked = (u32, Triples, u32, u32, Option<u64>, &'static [u32]);

static ROUTES: [Worked; 10] = [
    (5, &ROADS, 1, 3, Some(9), &[1, 2, 3]),
    (5, &ROADS, 3, 1, Some(9), &[3, 2, 1]),
    (5, &ROADS, 1, 1, Some(0), &[1]),
    (5, &ROADS, 1, 5, None, &[]),
    (5, &ROADS, 1, 9, None, &[]),
    (5, &ROADS, 9, 8, None, &[]),
    (
        5,
        &[(1, 2, 4), (2, 3, 5), (1, 4, 3), (4, 3, 7), (2, 1, 2)],
        1,
        3,
        Some(7),
        &[1, 2, 3],
    ),
    (3, &[(1, 2, 0), (2, 3, 0)], 1, 3, Some(0), &[1, 2, 3]),
    (
        5,
        &[(1, 2, 10), (2, 3, 10), (3, 4, 10), (4, 5, 10)],
        3,
        5,
        Some(20),
        &[3, 4, 5],
    ),
    (
        4,
        &[(1, 2, 1), (1, 3, 469), (2, 4, 989), (3, 4, 118)],
        1,
        4,
        Some(587),
        &[1, 3, 4],
    ),
];

/// Makes the map of this many nodes, all with the same coordinates.
fn map_to(alloc: Global, count: u32, roads: &[(u32, u32, u32)]) -> Result<Map, MapError> {
    let nodes = apart(alloc, count)?;
    map_of(alloc, &nodes, roads)
}

fn path_of(alloc: Global, row: &Worked) -> Result<Option<Path>, Fail> {
    let map = map_to(alloc, row.0, row.1)?;
    Ok(shortest(alloc, &map, row.2, row.3)?)
}

// Returns a path from 1 to 3, and the distance of 4. This is the example of the crate `road_search`.
fn path_and_distance(
    rt: &impl Abort,
    alloc: Global,
    parts: Parts,
) -> Result<(Option<Path>, Option<u64>), Fail> {
    let map = Map::build(alloc, parts)?;
    // `None` exactly if no walk joins the two ends.
    let path = shortest(alloc, &map, 1, 3)?;
    assert!(rt; knows(&map, 1));
    // The distances from 1 to all nodes that are at most as far as node 3.
    let distances = distances_to(alloc, &map, 1, 3)?;
    let to_4 = distances.get(4);
    Ok((path, to_4))
}

#[test]
fn a_path_and_a_distance_of_five_nodes(rt: HostRuntime) -> Result<(), Fail> {
    let parts = parts_of(rt.alloc(), &NODES, &ROADS)?;
    let (path, to_4) = path_and_distance(&rt, rt.alloc(), parts)?;
    assert_row(&rt, 3, length_of(&path), Some(9));
    assert_row(&rt, 3, ids_of(&path), [1, 2, 3].as_slice());
    assert_row(&rt, 4, to_4, Some(3));
    Ok(())
}

fn assert_shortest(rt: &impl Abort, alloc: Global, row: &Worked) -> Result<(), Fail> {
    let path = path_of(alloc, row)?;
    assert_row(rt, *row, length_of(&path), row.4);
    assert_row(rt, *row, ids_of(&path), row.5);
    Ok(())
}

#[test]
fn shortest_routes_are_those_of_the_maps(rt: HostRuntime) -> Result<(), Fail> {
    for row in &ROUTES {
        assert_shortest(&rt, rt.alloc(), row)?;
    }
    Ok(())
}

const SIX: [(u32, u32, u32); 4] = [(1, 2, 4), (2, 3, 0), (2, 4, 5), (1, 6, 0)];

/// Two ends, the distance between them, a length, and the ids that are at most this far from the first end, in
/// ascending order.
type Near = (u32, u32, Option<u64>, u64, &'static [u32]);

static NEAR_ENDS: [Near; 4] = [
    (1, 2, Some(4), 4, &[1, 2, 3, 6]),
    (1, 1, Some(0), 0, &[1, 6]),
    (1, 4, Some(9), 9, &[1, 2, 3, 4, 6]),
    (1, 5, None, 9, &[1, 2, 3, 4, 6]),
];

fn assert_near(rt: &impl Abort, alloc: Global, map: &Map, row: &Near) -> Result<(), Fail> {
    let (from, to, length, most, ids) = *row;
    assert!(rt; knows(map, from));
    let labels = distances_to(alloc, map, from, to)?;
    assert_row(rt, *row, labels.get(to), length);
    let mut near = labels.near(alloc, most)?;
    near.sort_unstable();
    assert_row(rt, *row, near.as_slice(), ids);
    Ok(())
}

#[test]
fn all_that_is_as_near_as_the_end_is_found(rt: HostRuntime) -> Result<(), Fail> {
    let map = map_to(rt.alloc(), 6, &SIX)?;
    for row in &NEAR_ENDS {
        assert_near(&rt, rt.alloc(), &map, row)?;
    }
    Ok(())
}

/// The number of nodes of a line. A search labels at most 1,024 nodes by id, so this is more.
const LINE: u32 = 1500;

/// Makes the map of a line and one more node without roads. A road of length 1 joins each node of the line to the
/// next.
fn line_and_one(alloc: Global) -> Result<Map, Fail> {
    let mut roads = Vec::new(alloc);
    for id in 1..LINE {
        roads.push((id, id + 1, 1))?;
    }
    Ok(map_to(alloc, LINE + 1, roads.as_slice())?)
}

// A search that labels more than 1,024 nodes works with positions.
#[test]
fn a_route_over_many_nodes_is_found_by_position(rt: HostRuntime) -> Result<(), Fail> {
    let map = line_and_one(rt.alloc())?;
    let path = shortest(rt.alloc(), &map, 1, LINE)?;
    assert_row(&rt, LINE, length_of(&path), Some(1499));
    let line: Vec<u32> = (1..LINE + 1).collect(rt.alloc())?;
    assert_row(&rt, LINE, ids_of(&path), line.as_slice());
    let apart = shortest(rt.alloc(), &map, 1, LINE + 1)?;
    assert_row(&rt, LINE + 1, length_of(&apart), None);
    let unknown = shortest(rt.alloc(), &map, 1, LINE + 2)?;
    assert_row(&rt, LINE + 2, length_of(&unknown), None);
    Ok(())
}
