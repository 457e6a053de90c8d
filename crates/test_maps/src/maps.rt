//! Maps that are made from rows.

use octet_text::{NoMemory, push};
use road_map::{Map, MapError, Node, Nodes, Parts, Road, Roads};
use std::alloc::Global;

/// The five nodes: id, x and y.
pub const NODES: [(u32, i32, i32); 5] = [
    (1, 0, 0),
    (2, 10, 0),
    (3, 20, 0),
    (4, 10, 10),
    (5, 50, 50),
];

/// Their roads: the two ends and the length of each.
pub const ROADS: [(u32, u32, u32); 4] = [(1, 2, 4), (2, 3, 5), (1, 4, 3), (4, 3, 7)];

/// Their road file.
pub const FIVE_NODES: &str = "roads 1
node 1 0 0
node 2 10 0
node 3 20 0
node 4 10 10
node 5 50 50
road 1 2 4
road 2 3 5
road 1 4 3
road 4 3 7
";

/// Returns the parts that rows list: the id, x and y of each node, and the two ends and the length of each road.
pub fn parts_of(
    alloc: Global,
    nodes: &[(u32, i32, i32)],
    roads: &[(u32, u32, u32)],
) -> Result<Parts, NoMemory> {
    Ok(Parts {
        nodes: nodes_of(alloc, nodes)?,
        roads: roads_of(alloc, roads)?,
    })
}

fn nodes_of(alloc: Global, rows: &[(u32, i32, i32)]) -> Result<Nodes, NoMemory> {
    let mut nodes = Vec::new(alloc);
    for (id, x, y) in rows {
        let (id, x, y) = (*id, *x, *y);
        push(&mut nodes, Node { id, x, y })?;
    }
    Ok(Nodes::from_vec(nodes))
}

fn roads_of(alloc: Global, rows: &[(u32, u32, u32)]) -> Result<Roads, NoMemory> {
    let mut roads = Vec::new(alloc);
    for (a, b, length) in rows {
        let (a, b, length) = (*a, *b, *length);
        push(&mut roads, Road { a, b, length })?;
    }
    Ok(Roads::from_vec(roads))
}

/// Returns the map that rows list.
pub fn map_of(
    alloc: Global,
    nodes: &[(u32, i32, i32)],
    roads: &[(u32, u32, u32)],
) -> Result<Map, MapError> {
    Map::build(alloc, parts_of(alloc, nodes, roads)?)
}

/// Returns the rows of this many nodes, all with the same coordinates, with ids from 1 on.
pub fn apart(alloc: Global, count: u32) -> Result<Vec<(u32, i32, i32)>, NoMemory> {
    let mut rows = Vec::new(alloc);
    for index in 0..count {
        push(&mut rows, (index.saturating_add(1), 0, 0))?;
    }
    Ok(rows)
}
