//! Two files that are read, and others with faults.

use crate::same::{assert_row, assert_same};
use dimacs_reader::{DimacsError, read_dimacs};
use road_map::{Node, Road};
use std::alloc::Global;
use std::test::Fail;

const GRAPH: &[u8] = b"c x\np sp 3 5\na 1 2 4\na 2 1 4\na 2 3 5\na 3 2 5\na 3 3 1\n";

const PLACES: &[u8] = b"p aux sp co 3\nv 1 0 0\nv 2 10 0\nv 3 20 -5\n";

static NODES: [Node; 3] = [
    Node { id: 1, x: 0, y: 0 },
    Node { id: 2, x: 10, y: 0 },
    Node {
        id: 3,
        x: 20,
        y: -5,
    },
];

static ROADS: [Road; 2] = [
    Road {
        a: 1,
        b: 2,
        length: 4,
    },
    Road {
        a: 2,
        b: 3,
        length: 5,
    },
];

#[test]
fn pairs_of_arcs_are_roads(rt: HostRuntime) -> Result<(), Fail> {
    let parts = read_dimacs(rt.alloc(), GRAPH, PLACES)?;
    assert_same(&rt, parts.nodes.as_slice(), NODES.as_slice());
    assert_same(&rt, parts.roads.as_slice(), ROADS.as_slice());
    Ok(())
}

/// Returns the fault of two short texts.
fn fault_of(alloc: Global, graph: &[u8], places: &[u8]) -> Option<DimacsError> {
    if graph.len() > 10_000 || places.len() > 10_000 {
        return None;
    }
    read_dimacs(alloc, graph, places).err()
}

static FAULTS: [(&[u8], &[u8], DimacsError); 16] = [
    (b"# x\np sp 1 0\n", b"", DimacsError::NoProblem(1)),
    (b"p sp 1\n", b"", DimacsError::NoProblem(1)),
    (b"p sp 65537 x\na 1\n", b"", DimacsError::BadNumber(1, 1)),
    (b"p sp 2 524289\n", b"", DimacsError::TooMany(1)),
    (b"p sp 2 524288\n", b"", DimacsError::Count(1)),
    (b"p sp 65537 1\n", b"", DimacsError::TooMany(1)),
    (b"p sp 65536 1\n", b"", DimacsError::Count(1)),
    (
        b"p sp 3 5\na 1 2 4\na 2 1 4\na 2 3 5\nc\na 4 2 5\na 3\n",
        b"",
        DimacsError::Range(1, 6),
    ),
    (
        b"p sp 3 5\na 2 3\na 4 2 5\n",
        b"",
        DimacsError::BadLine(1, 2),
    ),
    (b"p sp 3 6\na 1 2 4\na 2 1 4\n", b"", DimacsError::Count(1)),
    (GRAPH, b"p aux sp co 3 4\n", DimacsError::NoProblem(2)),
    (
        GRAPH,
        b"p aux sp co 2\nv 1 0 0\nv 2 1 -\n",
        DimacsError::BadNumber(2, 3),
    ),
    (
        GRAPH,
        b"p aux sp co 2\nv 1 0 0\nv 2 1 1\n",
        DimacsError::Count(2),
    ),
    (
        GRAPH,
        b"p aux sp co 3\nv 1 0 0\nv 2 10 0\nv 2 1 1\n",
        DimacsError::Repeated(2),
    ),
    (
        b"p sp 3 5\na 1 2 4\na 2 1 4\na 2 3 5\na 3 2 6\na 3 3 1\n",
        PLACES,
        DimacsError::Unpaired(2),
    ),
    // An arc is paired only once.
    (
        b"p sp 2 5\na 2 1 7\na 1 2 7\na 2 2 0\na 1 2 7\na 2 1 6\n",
        b"p aux sp co 2\nv 2 0 0\nv 1 0 0\n",
        DimacsError::Unpaired(3),
    ),
];

#[test]
fn the_first_fault_is_named(rt: HostRuntime) {
    for (graph, places, fault) in &FAULTS {
        assert_row(
            &rt,
            *graph,
            fault_of(rt.alloc(), *graph, *places),
            Some(*fault),
        );
    }
}
