//! Facts that no clause states: octets computed by an independent program with Python's hashlib, and calls that
//! succeed with enough memory.

use crate::holding::{
    CELLS, CODES, FULL, first_reply, header_of, installed, read_answer, read_apart, refusal_of,
    refusal_with, reply_over,
};
use crate::octets::{assert_digest, assert_hex};
use crate::same::{assert_row, assert_same};
use book_model::{Numbers, PlanError, Query, Settings};
use octet_text::{Hasher, Sha, Toy};
use proof_octets::{Answer, Header, NearQuery};
use road_map::MapError;
use route_server::{BuildError, Held, InstallError, answer_near};
use std::alloc::Global;
use std::process::Abort;
use std::test::Fail;
use test_maps::{DIJ, NODES, ROADS, apart};

// The header of the five nodes under DIJ, without the node root.
const ROOTLESS: Header = Header {
    method: 1,
    order: 0,
    fan: 2,
    version: 3,
    nodes: 5,
    node_root: [0; 32],
    pairs: 0,
    pair_root: [0; 32],
    numbers: Numbers {
        first: 0,
        second: 0,
    },
};

#[test]
fn the_header_of_five_nodes(rt: HostRuntime) -> Result<(), Fail> {
    let mut header = header_of::<Sha>(rt.alloc(), &NODES, &ROADS, &DIJ)?;
    assert_hex(
        &rt,
        rt.alloc(),
        &header.node_root,
        "1adff7e4b827b0aea5b991da79e10f3f31e279841406199d0999aa32db8e63ed",
    )?;
    header.node_root = [0; 32];
    assert_same(&rt, header, ROOTLESS);
    Ok(())
}

fn root_by<H: Hasher>(alloc: Global, fan: u8) -> Result<[u8; 32], BuildError> {
    let settings = Settings { fan, ..DIJ };
    let header = header_of::<H>(alloc, &NODES, &ROADS, &settings)?;
    Ok(header.node_root)
}

#[test]
fn the_roots_of_five_nodes_by_other_trees(rt: HostRuntime) -> Result<(), Fail> {
    let by_threes = "1b21a70b688d258be01d9724690b02892a60177cc122a3c0608a5d0be62b75f1";
    assert_hex(&rt, rt.alloc(), &root_by::<Sha>(rt.alloc(), 3)?, by_threes)?;
    let at_once = "a2a01da34375a7830c962b18423cb397d738def3c5a8cee619c7e1a6405d6704";
    assert_hex(&rt, rt.alloc(), &root_by::<Sha>(rt.alloc(), 32)?, at_once)?;
    assert_same(&rt, root_by::<Toy>(rt.alloc(), 2)?[31], 115);
    Ok(())
}

// Settings, and the reply for a route from 1 to 3: the indices of its nodes and of its pairs, and the digest of its
// octets, as another program encodes them.
type Replied = (Settings, &'static [u32], &'static [u32], &'static str);

static REPLIES: [Replied; 5] = [
    (
        DIJ,
        &[0, 1, 2, 3],
        &[],
        "a8f93da4ffdd7c54544431ff179f9b43804887108fa864037890d1535cda8d32",
    ),
    (
        FULL,
        &[0, 1, 2],
        &[1],
        "82f9ad7423954d0931fb10e527de80c7d9b27bd874bd2f2e969ba8d585215cf6",
    ),
    // Along Hilbert's curve, the nodes are in the order 1 4 2 3 5.
    (
        Settings { order: 3, ..FULL },
        &[0, 2, 3],
        &[1],
        "a66bf086f6287da48ed6504ddef5fbfc6cda4f439b240ee92b5aeecd77e26e6c",
    ),
    (
        CODES,
        &[0, 1, 2, 3],
        &[],
        "05498d48aa0bb34169e0ee9d849e983f44bb9ac24a0ca49e52734cdd43cdee93",
    ),
    (
        CELLS,
        &[0, 1, 2, 3],
        &[0, 2],
        "6938469baf8304a14acc59c79cac4e526df3e05072dd042a28105d20e03bc9e7",
    ),
];

// Asserts that the answer has the route from 1 to 3 and these indices of nodes and pairs.
fn assert_items(rt: &impl Abort, answer: &Answer, nodes: &[u32], pairs: &[u32]) {
    assert_same(rt, answer.items.route.as_slice(), [1, 2, 3].as_slice());
    assert_same(rt, answer.node_places.as_slice(), nodes);
    assert_same(rt, answer.pair_places.as_slice(), pairs);
}

fn assert_reply(rt: &impl Abort, alloc: Global, row: &Replied) -> Result<(), Fail> {
    let (settings, nodes, pairs, wanted) = row;
    let octets = first_reply(alloc, settings, 1, 3)?;
    assert_digest(rt, alloc, &octets, *wanted)?;
    let answer = read_answer(alloc, &octets)?;
    assert_items(rt, &answer, *nodes, *pairs);
    Ok(())
}

// Returns the reply to a query for the nodes within 4 of node 1.
fn near_reply(alloc: Global, held: &Held<Sha>) -> Result<Vec<u8>, Fail> {
    if held.signature().len() > 1452 {
        return Err(Fail::from("a long signature"));
    }
    Ok(answer_near(alloc, held, NearQuery { from: 1, radius: 4 })?)
}

// Returns the reply to a query for a route. This is the example of the crate `route_server`.
fn route_reply(rt: &impl Abort, alloc: Global, held: &Held<Sha>) -> Result<Vec<u8>, Fail> {
    // The value that `Held::<Sha>::install` makes from a publication answers queries for routes; `answer_near`
    // answers queries for the nodes within a radius.
    assert!(rt; held.signature().len() <= 1452);
    let query = Query { from: 1, to: 3 };
    let route = held.answer(alloc, query)?;
    Ok(route)
}

fn assert_replies(rt: &impl Abort, alloc: Global, held: &Held<Sha>) -> Result<(), Fail> {
    let route = route_reply(rt, alloc, held)?;
    let of_route = "a8f93da4ffdd7c54544431ff179f9b43804887108fa864037890d1535cda8d32";
    assert_digest(rt, alloc, &route, of_route)?;
    let near = near_reply(alloc, held)?;
    let of_near = "5fe608c961e9982f280d6bbd806d54ba9dd435ea70c511f5bcdf2fd03e2e4fad";
    assert_digest(rt, alloc, &near, of_near)
}

#[test]
fn a_publication_answers_for_routes_and_radii(rt: HostRuntime) -> Result<(), Fail> {
    let held = installed(rt.alloc(), &DIJ)?;
    assert_replies(&rt, rt.alloc(), &held)
}

#[test]
fn books_of_each_method_answer(rt: HostRuntime) -> Result<(), Fail> {
    for row in &REPLIES {
        assert_reply(&rt, rt.alloc(), row)?;
    }
    Ok(())
}

#[test]
fn an_octet_tells_that_an_end_is_unknown(rt: HostRuntime) -> Result<(), Fail> {
    let octets = first_reply(rt.alloc(), &DIJ, 1, 9)?;
    assert_same(&rt, octets.as_slice(), [1].as_slice());
    Ok(())
}

// Settings, and two ends that no walk joins: the indices of the nodes and of the pairs in the reply, and the number
// of digests in the cover of the nodes.
type Apart = (Settings, u32, u32, &'static [u32], &'static [u32], usize);

static APARTS: [Apart; 5] = [
    (DIJ, 1, 5, &[0, 1, 2, 3, 4], &[], 0),
    (DIJ, 5, 1, &[0, 4], &[], 2),
    (FULL, 1, 5, &[0, 4], &[3], 2),
    (CODES, 1, 5, &[0, 4], &[], 2),
    (CELLS, 1, 5, &[0, 1, 3, 4], &[], 1),
];

fn assert_apart(rt: &impl Abort, alloc: Global, row: &Apart) -> Result<(), Fail> {
    let (settings, from, to, nodes, pairs, digests) = row;
    let octets = first_reply(alloc, settings, *from, *to)?;
    let answer = read_apart(alloc, &octets)?;
    assert_same(rt, answer.items.route.as_slice().len(), 0);
    assert_same(rt, answer.node_places.as_slice(), *nodes);
    assert_same(rt, answer.pair_places.as_slice(), *pairs);
    assert_same(rt, answer.node_cover.as_slice().len(), *digests);
    Ok(())
}

#[test]
fn books_of_each_method_show_that_no_walk_joins_two_nodes(rt: HostRuntime) -> Result<(), Fail> {
    for row in &APARTS {
        assert_apart(&rt, rt.alloc(), row)?;
    }
    Ok(())
}

// The five nodes, and a sixth beside the fifth. The road between these two makes both of them border nodes.
const SIX: [(u32, i32, i32); 6] = [
    (1, 0, 0),
    (2, 10, 0),
    (3, 20, 0),
    (4, 10, 10),
    (5, 50, 50),
    (6, 20, 50),
];

const SIX_ROADS: [(u32, u32, u32); 5] = [(1, 2, 4), (2, 3, 5), (1, 4, 3), (4, 3, 7), (5, 6, 1)];

#[test]
fn pairs_of_borders_of_two_sides_are_brought(rt: HostRuntime) -> Result<(), Fail> {
    let octets = reply_over(rt.alloc(), &SIX, &SIX_ROADS, &CELLS, (1, 5))?;
    let answer = read_apart(rt.alloc(), &octets)?;
    // The border nodes are 2 to 6, so these are the pair of 2 and 5 and the pair of 4 and 5.
    assert_same(&rt, answer.pair_places.as_slice(), [2, 7].as_slice());
    assert_same(&rt, answer.node_places.as_slice(), [0, 1, 3, 4].as_slice());
    Ok(())
}

// Returns settings with this method, order and fan-out, and with a second parameter of 1.
fn wrong_settings(method: u8, order: u8, fan: u8) -> Settings {
    Settings {
        method,
        order,
        fan,
        p2: 1,
        ..DIJ
    }
}

fn assert_refused(rt: &impl Abort, alloc: Global, settings: &Settings, index: u8) {
    let error = refusal_of(alloc, &NODES, &ROADS, settings);
    let wanted = BuildError::Plan(PlanError::Settings(index));
    assert_row(rt, *settings, error, Some(wanted));
}

// A method, an order, a fan-out, and the setting that is refused if the second parameter is 1.
static WRONG: [(u8, u8, u8, u8); 6] = [
    (0, 6, 1, 0),
    (5, 6, 1, 0),
    (1, 6, 1, 1),
    (1, 0, 1, 2),
    (1, 0, 33, 2),
    (1, 0, 32, 4),
];

#[test]
fn settings_are_tested_in_turn(rt: HostRuntime) {
    for (method, order, fan, index) in &WRONG {
        let settings = wrong_settings(*method, *order, *fan);
        assert_refused(&rt, rt.alloc(), &settings, *index);
    }
}

static WRONG_PARAMETERS: [(Settings, u8); 7] = [
    (Settings { p1: 1, ..FULL }, 3),
    (Settings { p1: 6, ..CODES }, 3),
    (Settings { p2: 17, ..CODES }, 4),
    (
        Settings {
            p3: 65_535,
            ..CODES
        },
        5,
    ),
    (Settings { p1: 0, ..CELLS }, 3),
    (Settings { p2: 1_025, ..CELLS }, 4),
    (Settings { p3: 1, ..CELLS }, 5),
];

#[test]
fn parameters_are_tested_by_their_method(rt: HostRuntime) {
    for (settings, index) in &WRONG_PARAMETERS {
        assert_refused(&rt, rt.alloc(), settings, *index);
    }
}

#[test]
fn too_many_nodes_for_all_pairs_are_refused(rt: HostRuntime) -> Result<(), Fail> {
    let nodes = apart(rt.alloc(), 1_025)?;
    let error = refusal_of(rt.alloc(), &nodes, &[], &FULL);
    let wanted = BuildError::Plan(PlanError::TooManyNodes(1_025));
    assert_same(&rt, error, Some(wanted));
    Ok(())
}

const WITH_A_LOOP: [(u32, u32, u32); 5] = [(1, 2, 4), (2, 3, 5), (1, 4, 3), (4, 3, 7), (3, 3, 1)];

#[test]
fn a_map_fault_comes_before_a_setting(rt: HostRuntime) {
    let settings = wrong_settings(9, 6, 1);
    let error = refusal_of(rt.alloc(), &NODES, &WITH_A_LOOP, &settings);
    assert_same(&rt, error, Some(BuildError::Map(MapError::SelfRoad(4))));
}

#[test]
fn another_header_is_not_installed(rt: HostRuntime) -> Result<(), Fail> {
    let mut header = header_of::<Sha>(rt.alloc(), &NODES, &ROADS, &DIJ)?;
    header.version = 4;
    let error = refusal_with(rt.alloc(), &DIJ, header);
    assert_same(&rt, error, Some(InstallError::HeaderWrong));
    Ok(())
}

fn assert_lent(rt: &impl Abort, held: &Held<Sha>) -> Result<(), Fail> {
    assert_same(rt, held.place(4), Some(3));
    assert_same(rt, held.map().count(), 5);
    assert_same(rt, *held.settings(), DIJ);
    assert_same(rt, held.leaves(2).is_none(), true);
    assert_same(rt, held.tree(2).is_none(), true);
    let tree = held.tree(1).ok_or("the tree of the node leaves")?;
    assert_same(rt, tree.root(), held.header().node_root);
    Ok(())
}

#[test]
fn what_is_held_is_lent(rt: HostRuntime) -> Result<(), Fail> {
    let held = installed(rt.alloc(), &DIJ)?;
    assert_lent(&rt, &held)
}

// Returns the text of the leaf at an index, of nodes (1) or of pairs (2), if it exists.
fn text_at(held: &Held<Sha>, which: u8, place: u32) -> Option<&[u8]> {
    match held.leaves(which) {
        Some(leaves) if place < leaves.count() => Some(leaves.text(place)),
        _ => None,
    }
}

fn count_of(held: &Held<Sha>, which: u8) -> Option<u32> {
    match held.leaves(which) {
        None => None,
        Some(leaves) => Some(leaves.count()),
    }
}

// Node 1 at (0, 0), with roads of length 4 to node 2 and 3 to node 4.
const FIRST: [u8; 31] = [
    0x4e, 0, 0, 0, 1, 0, 0, 0, 0, 0, 0, 0, 0, 0, 2, 0, 0, 0, 2, 0, 0, 0, 4, 0, 0, 0, 4, 0, 0, 0, 3,
];

fn assert_first(rt: &impl Abort, held: &Held<Sha>) {
    assert_same(rt, count_of(held, 1), Some(5));
    assert_same(rt, text_at(held, 1, 0), Some(FIRST.as_slice()));
}

#[test]
fn the_leaf_of_the_first_node(rt: HostRuntime) -> Result<(), Fail> {
    let held = installed(rt.alloc(), &DIJ)?;
    assert_first(&rt, &held);
    Ok(())
}

// The distance between 1 and 3 is 9, and no walk joins 1 and 5.
const NEAR: [u8; 17] = [0x50, 0, 0, 0, 1, 0, 0, 0, 3, 0, 0, 0, 0, 0, 0, 0, 9];

const APART: [u8; 17] = [
    0x50, 0, 0, 0, 1, 0, 0, 0, 5, 255, 255, 255, 255, 255, 255, 255, 255,
];

fn assert_pairs(rt: &impl Abort, held: &Held<Sha>) {
    assert_same(rt, count_of(held, 2), Some(10));
    assert_same(rt, text_at(held, 2, 1), Some(NEAR.as_slice()));
    assert_same(rt, text_at(held, 2, 3), Some(APART.as_slice()));
}

#[test]
fn the_pairs_of_a_book_of_full(rt: HostRuntime) -> Result<(), Fail> {
    let held = installed(rt.alloc(), &FULL)?;
    assert_pairs(&rt, &held);
    Ok(())
}
