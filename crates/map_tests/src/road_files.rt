//! Road files that are read, refused and printed, and the grid of a seed.

use crate::same::{assert_printed, assert_row, assert_same};
use road_map::{Node, Road};
use road_reader::{Draw, GridError, RoadError, grid_roads, print_roads, read_roads};
use std::alloc::{AllocError, Global};
use std::process::Abort;
use std::test::Fail;
use test_maps::{NODES, ROADS, parts_of};

/// A map of five nodes and four roads, without its last line.
const FRONT: &[u8] = b"roads 1
node 1 0 0
node 2 10 0
node 3 20 0
node 4 10 10
node 5 50 50
road 1 2 4
road 2 3 5
road 1 4 3
";

const LAST: &[u8] = b"road 4 3 7\n";

/// The same map with other line ends, a comment, more blanks, and no line end on its last line.
const SPELLED_OTHERWISE: &[u8] = b"# five nodes\r
\troads  1\r
\r
node  1\t0 -0\r
node 0002 10 0\r
node 3 020 0 \r
  # of a square
node 4 10 10\r
node 5 50 50\r
road 1 2 4\r
road 2 3\t\t5\r
road 1 4 3\r
road 4 3 000000000000000000000000000007";

fn joined(alloc: Global, front: &[u8], last: &[u8]) -> Result<Vec<u8>, AllocError> {
    let mut text = Vec::from_slice(alloc, front)?;
    text.extend_from_slice(last)?;
    Ok(text)
}

/// Reads a short text and prints its parts.
fn printed(alloc: Global, text: &[u8]) -> Result<Vec<u8>, Fail> {
    if text.len() > 1000 {
        return Err(Fail::from("a long text"));
    }
    let parts = read_roads(alloc, text)?;
    Ok(print_roads(alloc, &parts)?)
}

fn assert_again(rt: &impl Abort, alloc: Global, text: &[u8], wanted: &[u8]) -> Result<(), Fail> {
    let again = printed(alloc, text)?;
    assert_same(rt, again.as_slice(), wanted);
    Ok(())
}

#[test]
fn a_map_is_read_and_printed_again(rt: HostRuntime) -> Result<(), Fail> {
    let text = joined(rt.alloc(), FRONT, LAST)?;
    assert_again(&rt, rt.alloc(), text.as_slice(), text.as_slice())?;
    assert_again(&rt, rt.alloc(), SPELLED_OTHERWISE, text.as_slice())
}

/// Asserts the contents of a short text: the id, x and y of each node, and the two ends and the length of each
/// road.
fn assert_listed(
    rt: &impl Abort,
    alloc: Global,
    text: &[u8],
    nodes: &[Node],
    roads: &[Road],
) -> Result<(), RoadError> {
    assert!(rt; text.len() <= 1000);
    let parts = read_roads(alloc, text)?;
    assert_same(rt, parts.nodes.as_slice(), nodes);
    assert_same(rt, parts.roads.as_slice(), roads);
    Ok(())
}

#[test]
fn a_text_lists_nodes_and_roads(rt: HostRuntime) -> Result<(), Fail> {
    let text = joined(rt.alloc(), FRONT, LAST)?;
    let five = parts_of(rt.alloc(), &NODES, &ROADS)?;
    let (nodes, roads) = (five.nodes.as_slice(), five.roads.as_slice());
    assert_listed(&rt, rt.alloc(), text.as_slice(), nodes, roads)?;
    assert_listed(&rt, rt.alloc(), b"roads 1", &[], &[])?;
    Ok(())
}

/// A text with the least and the greatest numbers of the ranges.
const ENDS: &[u8] =
    b"roads 1\nnode 4294967295 -2147483648 2147483647\nroad 0 4294967295 4294967295\n";

const LAST_NODE: Node = Node {
    id: 4294967295,
    x: -2147483648,
    y: 2147483647,
};

const LONGEST_ROAD: Road = Road {
    a: 0,
    b: 4294967295,
    length: 4294967295,
};

#[test]
fn the_ends_of_the_ranges_are_read_and_printed(rt: HostRuntime) -> Result<(), Fail> {
    assert_listed(&rt, rt.alloc(), ENDS, &[LAST_NODE], &[LONGEST_ROAD])?;
    assert_again(&rt, rt.alloc(), ENDS, ENDS)
}

/// Returns the fault of a short text.
fn fault_of(alloc: Global, text: &[u8]) -> Option<RoadError> {
    if text.len() > 10_000_000 {
        return None;
    }
    read_roads(alloc, text).err()
}

static FAULTS: [(&[u8], RoadError); 15] = [
    (b"road 4", RoadError::BadLine(10)),
    (b"road 4 3 4294967296", RoadError::BadNumber(10)),
    (b"road 4294967296 3 7", RoadError::BadNumber(10)),
    (b"road 4 3 -7", RoadError::BadNumber(10)),
    (b"road 4 3 +7", RoadError::BadNumber(10)),
    (b"road 4 3 7 # long", RoadError::BadLine(10)),
    (b"Road 4 3 7", RoadError::BadLine(10)),
    (b"node 4294967296 0 0", RoadError::BadNumber(10)),
    (b"node 6 2147483648 0", RoadError::BadNumber(10)),
    (b"node 6 0 -2147483649", RoadError::BadNumber(10)),
    (b"node 6 - 0", RoadError::BadNumber(10)),
    (b"node 6 --1 0", RoadError::BadNumber(10)),
    (b"node 6 0\r 0", RoadError::BadNumber(10)),
    (b"node 6 0 0\r\r\n", RoadError::BadNumber(10)),
    (b"# skipped\n\nnode x 0\nnode y 0 0", RoadError::BadLine(12)),
];

#[test]
fn the_first_faulty_line_is_named(rt: HostRuntime) -> Result<(), AllocError> {
    for (last, fault) in &FAULTS {
        let text = joined(rt.alloc(), FRONT, *last)?;
        assert_row(
            &rt,
            *last,
            fault_of(rt.alloc(), text.as_slice()),
            Some(*fault),
        );
    }
    Ok(())
}

static UNTITLED: [&[u8]; 6] = [
    b"",
    b"\n# roads 1\n \n",
    b"roads",
    b"roads 01",
    b"roads 1 x",
    b"node 1 0 0\nroads 1",
];

#[test]
fn a_file_begins_with_its_title(rt: HostRuntime) {
    for text in &UNTITLED {
        assert_row(
            &rt,
            *text,
            fault_of(rt.alloc(), *text),
            Some(RoadError::NoTitle),
        );
    }
}

/// Returns the fault of a text with this many equal lines.
fn fault_of_lines(alloc: Global, line: &[u8], count: u32) -> Result<Option<RoadError>, AllocError> {
    let mut text = Vec::from_slice(alloc, b"roads 1\n")?;
    for _ in 0..count {
        text.extend_from_slice(line)?;
    }
    Ok(fault_of(alloc, text.as_slice()))
}

#[test]
fn no_more_than_the_most_are_read(rt: HostRuntime) -> Result<(), AllocError> {
    let nodes = fault_of_lines(rt.alloc(), b"node 1 0 0\n", 65_537)?;
    assert_same(&rt, nodes, Some(RoadError::TooMany(65_538)));
    let roads = fault_of_lines(rt.alloc(), b"road 1 2 3\n", 262_145)?;
    assert_same(&rt, roads, Some(RoadError::TooMany(262_146)));
    Ok(())
}

#[test]
fn faults_are_whole_sentences(rt: HostRuntime) -> Result<(), AllocError> {
    let wanted = "Line 10 of the road file is neither `node ID X Y` nor `road A B LENGTH`.";
    assert_printed(&rt, rt.alloc(), RoadError::BadLine(10), wanted)
}

#[test]
fn draws_are_those_of_the_standard_generator(rt: HostRuntime) {
    let mut draw = Draw::new(1);
    for number in [16838, 5758, 10113, 17515, 31051, 5627, 23010, 7419] {
        assert_same(&rt, draw.next(), number);
    }
}

const TWO_BY_TWO: &[u8] = b"roads 1
node 1 0 0
node 2 1 0
node 3 0 1
node 4 1 1
road 1 2 1
road 1 3 469
road 2 4 989
road 3 4 118
";

#[test]
fn a_grid_of_two_by_two_is_printed(rt: HostRuntime) -> Result<(), Fail> {
    let parts = grid_roads(rt.alloc(), 2, 0)?;
    let text = print_roads(rt.alloc(), &parts)?;
    assert_same(&rt, text.as_slice(), TWO_BY_TWO);
    Ok(())
}

#[test]
fn grids_are_2_to_256_wide(rt: HostRuntime) -> Result<(), Fail> {
    let parts = grid_roads(rt.alloc(), 256, 7)?;
    assert_same(&rt, parts.nodes.as_slice().len(), 65_536);
    assert_same(&rt, parts.roads.as_slice().len(), 130_560);
    for width in [1, 257] {
        let parts = grid_roads(rt.alloc(), width, 0);
        assert_row(&rt, width, parts.err(), Some(GridError::Width));
    }
    Ok(())
}
