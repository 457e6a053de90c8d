//! Facts that no clause states: a publication worked out by hand, cut into pieces of seven octets.

use crate::asserts::{assert_octets, assert_same};
use crate::publications::{octets_before_nodes, put_numbers};
use octet_text::NoMemory;
use proof_octets::Publication;
use publication_out::pieces_of;
use std::alloc::Global;
use std::process::Abort;
use std::test::Fail;

// Returns the publication of five nodes and four roads under DIJ, with a signature of 1,292 octets.
fn publication_text(alloc: Global) -> Result<Vec<u8>, NoMemory> {
    let mut signature = [0; 1292];
    for place in 0..1292 {
        signature[place] = (place % 251) as u8;
    }
    let mut text = octets_before_nodes(alloc, 3, [0, 0, 0, 5], &signature)?;
    put_numbers(&mut text, &NUMBERS)?;
    Ok(text)
}

// The number of nodes, each node with its coordinates, and the number of roads, each road with its length.
const NUMBERS: [u32; 29] = [
    5,
    1,
    0,
    0,
    2,
    10,
    0,
    3,
    20,
    0,
    4,
    10,
    0xffff_fff6,
    5,
    50,
    50,
    4,
    1,
    2,
    4,
    2,
    3,
    5,
    1,
    4,
    3,
    4,
    3,
    7,
];

// Returns the octets that a publication gives in 300 calls of seven octets, and the number of calls that gave any.
fn joined(rt: &impl Abort, alloc: Global, text: &[u8]) -> Result<(Vec<u8>, u32), Fail> {
    assert!(rt; text.len() == 1550);
    let publication = Publication::read(alloc, text)?;
    let mut pieces = pieces_of(&publication);
    let mut joined = Vec::new(alloc);
    let mut piece = [0; 7];
    let mut calls = 0;
    for call in 0..300u32 {
        let count = pieces.next(&mut piece);
        assert!(rt; count <= 7);
        if count > 0 {
            calls = call + 1;
        }
        joined.extend_from_slice(&piece[..count])?;
    }
    Ok((joined, calls))
}

#[test]
fn a_publication_is_given_in_pieces_of_seven(rt: HostRuntime) -> Result<(), Fail> {
    let text = publication_text(rt.alloc())?;
    let (joined, calls) = joined(&rt, rt.alloc(), &text)?;
    assert_same(&rt, &calls, &222);
    assert_octets(&rt, &joined, &text);
    Ok(())
}
