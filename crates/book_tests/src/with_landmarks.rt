//! Books, gathered ids and verdicts worked out by hand, for two small maps.

use crate::books::{Gathered, assert_gathered, book_of, settings_of};
use crate::judging::items_of;
use crate::same::{assert_row, assert_same};
use book_model::{Numbers, PlanError, Query};
use method_books::LdmBook;
use method_judges::Ldm;
use octet_text::{NoMemory, push};
use proof_judge::{Judge, Refusal};
use proof_method::MethodBook;
use road_leaf::{Extra, NodeLeaf};
use road_search::knows;
use std::alloc::Global;
use std::process::Abort;
use std::test::Fail;
use test_maps::{NODES, ROADS};

// Nodes on a line, 10 apart.
const LINE: [(u32, u32, u32); 4] = [(1, 2, 10), (2, 3, 10), (3, 4, 10), (4, 5, 10)];

// Makes a book over these roads with one landmark and codes of this many bits.
fn coded(alloc: Global, roads: &[(u32, u32, u32)], bits: u64) -> Result<LdmBook, Fail> {
    Ok(book_of(alloc, &NODES, roads, &settings_of(3, 1, bits, 0))??)
}

// Returns the two numbers for a step and one landmark.
fn numbers_of(step: u64) -> Numbers {
    Numbers {
        first: step,
        second: 1,
    }
}

fn leaves_of(alloc: Global, book: &LdmBook, ids: &[u32]) -> Result<Vec<NodeLeaf>, NoMemory> {
    let mut leaves = Vec::new(alloc);
    for id in ids {
        if knows(book.map(), *id) {
            push(&mut leaves, book.node_leaf(alloc, *id)?)?;
        }
    }
    Ok(leaves)
}

fn judged(
    alloc: Global,
    book: &LdmBook,
    ids: &[u32],
    route: &[u32],
    query: Query,
) -> Result<Result<u64, Refusal>, Fail> {
    let leaves = leaves_of(alloc, book, ids)?;
    let items = items_of(alloc, route, leaves, &[])?;
    Ok(Ldm::judge(alloc, book.numbers(), &items, query))
}

// What a leaf states about one landmark: its own code, or the node to which it refers and the error.
type Saying = (Option<u16>, Option<(u32, u16)>);

fn said(leaf: &NodeLeaf) -> Saying {
    match &leaf.extra {
        Extra::Own(codes) => (codes.as_slice().first().copied(), None),
        Extra::Near { reference, error } => (None, Some((*reference, *error))),
        _ => (None, None),
    }
}

static BY_WAYS: [Saying; 5] = [
    (Some(0), None),
    (Some(1), None),
    (Some(2), None),
    (None, Some((1, 0))),
    (Some(65535), None),
];

static BY_LINE: [Saying; 5] = [
    (Some(0), None),
    (Some(10), None),
    (Some(20), None),
    (Some(30), None),
    (Some(40), None),
];

fn assert_said(
    rt: &impl Abort,
    alloc: Global,
    book: &LdmBook,
    wanted: &[Saying],
) -> Result<(), NoMemory> {
    let leaves = leaves_of(alloc, book, &[1, 2, 3, 4, 5])?;
    assert_same(rt, leaves.len(), 5);
    for (leaf, says) in leaves.iter().zip(wanted) {
        assert_row(rt, leaf.id, said(leaf), *says);
    }
    Ok(())
}

#[test]
fn a_book_has_codes_and_references(rt: HostRuntime) -> Result<(), Fail> {
    let book = coded(rt.alloc(), &ROADS, 2)?;
    assert_same(&rt, book.numbers(), numbers_of(4));
    assert_same(&rt, book.pairs().len(), 0);
    assert_said(&rt, rt.alloc(), &book, &BY_WAYS)?;
    Ok(())
}

#[test]
fn a_book_has_codes_of_16_bits(rt: HostRuntime) -> Result<(), Fail> {
    let book = coded(rt.alloc(), &LINE, 16)?;
    assert_same(&rt, book.numbers(), numbers_of(1));
    assert_said(&rt, rt.alloc(), &book, &BY_LINE)?;
    Ok(())
}

static OVER_WAYS: [Gathered; 3] = [
    (4, 3, &[4, 3], &[1, 3, 4], &[]),
    (4, 4, &[4], &[1, 4], &[]),
    (5, 5, &[5], &[5], &[]),
];

#[test]
fn live_nodes_their_neighbours_and_references_are_gathered(rt: HostRuntime) -> Result<(), Fail> {
    let book = coded(rt.alloc(), &ROADS, 2)?;
    for row in &OVER_WAYS {
        assert_gathered(&rt, rt.alloc(), &book, row)?;
    }
    Ok(())
}

static OVER_LINE: Gathered = (3, 5, &[3, 4, 5], &[2, 3, 4, 5], &[]);

#[test]
fn all_that_is_gathered_is_asked_for(rt: HostRuntime) -> Result<(), Fail> {
    let book = coded(rt.alloc(), &LINE, 16)?;
    assert_gathered(&rt, rt.alloc(), &book, &OVER_LINE)?;
    let query = Query { from: 3, to: 5 };
    let whole = judged(rt.alloc(), &book, &[2, 3, 4, 5], &[3, 4, 5], query)?;
    assert_same(&rt, whole, Ok(20));
    let cut = judged(rt.alloc(), &book, &[3, 4, 5], &[3, 4, 5], query)?;
    assert_same(&rt, cut, Err(Refusal::MissingTuple(2)));
    Ok(())
}

static OF_LENGTH_0: Gathered = (2, 3, &[2, 3], &[1, 2, 3], &[]);

#[test]
fn roads_of_length_0_have_one_code(rt: HostRuntime) -> Result<(), Fail> {
    let book = coded(rt.alloc(), &[(1, 2, 0), (2, 3, 0)], 2)?;
    assert_same(&rt, book.numbers().first, 1);
    assert_gathered(&rt, rt.alloc(), &book, &OF_LENGTH_0)?;
    let query = Query { from: 2, to: 3 };
    let verdict = judged(rt.alloc(), &book, &[1, 2, 3], &[2, 3], query)?;
    assert_same(&rt, verdict, Ok(0));
    Ok(())
}

static PARAMETERS: [(u64, u64, u64, Option<PlanError>); 7] = [
    (0, 2, 0, Some(PlanError::Settings(3))),
    (6, 2, 0, Some(PlanError::Settings(3))),
    (65, 17, 0, Some(PlanError::Settings(3))),
    (1, 0, 0, Some(PlanError::Settings(4))),
    (1, 17, 65535, Some(PlanError::Settings(4))),
    (5, 16, 65535, Some(PlanError::Settings(5))),
    (5, 16, 65534, None),
];

#[test]
fn parameters_have_ranges(rt: HostRuntime) -> Result<(), Fail> {
    for (p1, p2, p3, error) in &PARAMETERS {
        let settings = settings_of(3, *p1, *p2, *p3);
        let book: Result<LdmBook, PlanError> = book_of(rt.alloc(), &NODES, &ROADS, &settings)?;
        assert_row(&rt, settings, book.err(), *error);
    }
    Ok(())
}
