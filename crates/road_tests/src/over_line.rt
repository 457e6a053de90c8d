//! A book with landmarks over the nodes 1 to 5 on a line, which are 10 apart.

use crate::holding::{header_of, read_answer, reply_over};
use crate::octets::assert_hex;
use crate::same::assert_same;
use book_model::Settings;
use octet_text::Sha;
use std::test::Fail;
use test_maps::DIJ;

const NODES: [(u32, i32, i32); 5] = [(1, 0, 0), (2, 10, 0), (3, 20, 0), (4, 30, 0), (5, 40, 0)];

const ROADS: [(u32, u32, u32); 4] = [(1, 2, 10), (2, 3, 10), (3, 4, 10), (4, 5, 10)];

const LANDMARKS: Settings = Settings {
    method: 3,
    p1: 2,
    p2: 3,
    p3: 1,
    ..DIJ
};

// The root of the book, computed by another program.
#[test]
fn the_header_of_a_book_of_landmarks(rt: HostRuntime) -> Result<(), Fail> {
    let header = header_of::<Sha>(rt.alloc(), &NODES, &ROADS, &LANDMARKS)?;
    assert_same(&rt, (header.numbers.first, header.numbers.second), (6, 2));
    assert_hex(
        &rt,
        rt.alloc(),
        &header.node_root,
        "af9b364be165d51fcbf2c8c91e5c4d287ee7468d916808d4993797a03e9608dd",
    )
}

// The codes of node 1 replace those of node 2, and the codes of node 4 those of node 5.
#[test]
fn the_answer_over_landmarks_brings_references(rt: HostRuntime) -> Result<(), Fail> {
    let octets = reply_over(rt.alloc(), &NODES, &ROADS, &LANDMARKS, (3, 5))?;
    let answer = read_answer(rt.alloc(), &octets)?;
    assert_same(&rt, answer.items.route.as_slice(), [3, 4, 5].as_slice());
    assert_same(
        &rt,
        answer.node_places.as_slice(),
        [0, 1, 2, 3, 4].as_slice(),
    );
    Ok(())
}
