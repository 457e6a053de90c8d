//! Facts that no clause states: octets worked out by hand, and calls that succeed.
ghost use Rattle.proof_octets.specs.Replies.{reply};

use crate::asserts::{assert_octets, assert_same};
use book_model::{Items, Numbers, Settings};
use octet_text::{Malformed, ReadError};
use proof_octets::{Answer, Header, Publication, Reply};
use road_leaf::{ExtraView, NodeView, PairLeaf};
use road_map::{Node, Parts, Road};
use std::alloc::Global;
use std::process::Abort;
use std::test::Fail;

// HYP in Hilbert order with fan-out 4: five nodes and three pairs, in a grid of 2 columns and 2 rows.
const HEADER: [u8; 104] = [
    0x52, 0x50, 0x46, 0x31, 0x04, 0x03, 0x04, 0, 0, 0, 0, 0, 0, 0, 0, 0x07, 0, 0, 0, 0x05, 0x11,
    0x11, 0x11, 0x11, 0x11, 0x11, 0x11, 0x11, 0x11, 0x11, 0x11, 0x11, 0x11, 0x11, 0x11, 0x11, 0x11,
    0x11, 0x11, 0x11, 0x11, 0x11, 0x11, 0x11, 0x11, 0x11, 0x11, 0x11, 0x11, 0x11, 0x11, 0x11, 0, 0,
    0, 0x03, 0x22, 0x22, 0x22, 0x22, 0x22, 0x22, 0x22, 0x22, 0x22, 0x22, 0x22, 0x22, 0x22, 0x22,
    0x22, 0x22, 0x22, 0x22, 0x22, 0x22, 0x22, 0x22, 0x22, 0x22, 0x22, 0x22, 0x22, 0x22, 0x22, 0x22,
    0x22, 0x22, 0, 0, 0, 0, 0, 0, 0, 0x02, 0, 0, 0, 0, 0, 0, 0, 0x02,
];

// The route 1 3: nodes 1 and 3 at indices 0 and 4, their pair at index 1, and one digest of the node cover.
pub(crate) const REPLY: [u8; 251] = [
    0, 0x52, 0x50, 0x46, 0x31, 0x04, 0x03, 0x04, 0, 0, 0, 0, 0, 0, 0, 0, 0x07, 0, 0, 0, 0x05, 0x11,
    0x11, 0x11, 0x11, 0x11, 0x11, 0x11, 0x11, 0x11, 0x11, 0x11, 0x11, 0x11, 0x11, 0x11, 0x11, 0x11,
    0x11, 0x11, 0x11, 0x11, 0x11, 0x11, 0x11, 0x11, 0x11, 0x11, 0x11, 0x11, 0x11, 0x11, 0x11, 0, 0,
    0, 0x03, 0x22, 0x22, 0x22, 0x22, 0x22, 0x22, 0x22, 0x22, 0x22, 0x22, 0x22, 0x22, 0x22, 0x22,
    0x22, 0x22, 0x22, 0x22, 0x22, 0x22, 0x22, 0x22, 0x22, 0x22, 0x22, 0x22, 0x22, 0x22, 0x22, 0x22,
    0x22, 0x22, 0, 0, 0, 0, 0, 0, 0, 0x02, 0, 0, 0, 0, 0, 0, 0, 0x02, 0, 0x03, 0x09, 0x08, 0x07, 0,
    0, 0, 0x02, 0, 0, 0, 0x01, 0, 0, 0, 0x03, 0, 0, 0, 0x02, 0, 0, 0, 0, 0, 0x1c, 0x4e, 0, 0, 0,
    0x01, 0xff, 0xff, 0xff, 0xff, 0, 0, 0, 0x02, 0, 0x01, 0, 0, 0, 0x03, 0, 0, 0, 0x05, 0, 0, 0,
    0x03, 0x01, 0, 0, 0, 0x04, 0, 0x14, 0x4e, 0, 0, 0, 0x03, 0, 0, 0, 0x04, 0, 0, 0, 0x05, 0, 0, 0,
    0, 0, 0, 0, 0, 0, 0, 0x01, 0, 0, 0, 0x01, 0x50, 0, 0, 0, 0x01, 0, 0, 0, 0x03, 0, 0, 0, 0, 0, 0,
    0, 0x09, 0, 0, 0, 0x01, 0x33, 0x33, 0x33, 0x33, 0x33, 0x33, 0x33, 0x33, 0x33, 0x33, 0x33, 0x33,
    0x33, 0x33, 0x33, 0x33, 0x33, 0x33, 0x33, 0x33, 0x33, 0x33, 0x33, 0x33, 0x33, 0x33, 0x33, 0x33,
    0x33, 0x33, 0x33, 0x33, 0, 0, 0, 0,
];

// Two nodes and a road.
const PUBLICATION: [u8; 189] = [
    0x52, 0x50, 0x50, 0x31, 0x52, 0x50, 0x46, 0x31, 0x04, 0x03, 0x04, 0, 0, 0, 0, 0, 0, 0, 0, 0x07,
    0, 0, 0, 0x05, 0x11, 0x11, 0x11, 0x11, 0x11, 0x11, 0x11, 0x11, 0x11, 0x11, 0x11, 0x11, 0x11,
    0x11, 0x11, 0x11, 0x11, 0x11, 0x11, 0x11, 0x11, 0x11, 0x11, 0x11, 0x11, 0x11, 0x11, 0x11, 0x11,
    0x11, 0x11, 0x11, 0, 0, 0, 0x03, 0x22, 0x22, 0x22, 0x22, 0x22, 0x22, 0x22, 0x22, 0x22, 0x22,
    0x22, 0x22, 0x22, 0x22, 0x22, 0x22, 0x22, 0x22, 0x22, 0x22, 0x22, 0x22, 0x22, 0x22, 0x22, 0x22,
    0x22, 0x22, 0x22, 0x22, 0x22, 0x22, 0, 0, 0, 0, 0, 0, 0, 0x02, 0, 0, 0, 0, 0, 0, 0, 0x02, 0,
    0x03, 0x09, 0x08, 0x07, 0, 0, 0, 0, 0, 0, 0, 0x05, 0, 0, 0, 0, 0, 0, 0, 0x02, 0, 0, 0, 0, 0, 0,
    0, 0x02, 0, 0, 0, 0, 0, 0, 0, 0, 0, 0, 0, 0x02, 0, 0, 0, 0x01, 0xff, 0xff, 0xff, 0xff, 0, 0, 0,
    0x02, 0, 0, 0, 0x03, 0, 0, 0, 0x04, 0, 0, 0, 0x05, 0, 0, 0, 0x01, 0, 0, 0, 0x01, 0, 0, 0, 0x03,
    0, 0, 0, 0x05,
];

const WRITTEN: Header = Header {
    method: 4,
    order: 3,
    fan: 4,
    version: 7,
    nodes: 5,
    node_root: [0x11; 32],
    pairs: 3,
    pair_root: [0x22; 32],
    numbers: Numbers {
        first: 2,
        second: 2,
    },
};

// Returns the octets with the octet at an offset replaced.
pub(crate) fn changed(
    alloc: Global,
    octets: &[u8],
    place: usize,
    octet: u8,
) -> Result<Vec<u8>, Fail> {
    let mut other = octets.to_vec(alloc)?;
    if place < other.len() {
        other[place] = octet;
    }
    Ok(other)
}

// Returns the offset of the first field of a reply that cannot be read.
fn bad_place(alloc: Global, octets: &[u8]) -> Option<u32> {
    if octets.len() > 1000 {
        return None;
    }
    match Reply::read(alloc, octets) {
        Err(ReadError::Malformed(Malformed { at })) => Some(at),
        _ => None,
    }
}

#[test]
fn a_header_has_one_octet_for_each_place(rt: HostRuntime) {
    assert_octets(&rt, &WRITTEN.write(), &HEADER);
    assert_same(&rt, &Header::read(&HEADER), &Ok(WRITTEN));
    let cut = Header::read(&HEADER[..103]);
    assert_same(&rt, &cut, &Err(Malformed { at: 96 }));
    let other = Header::read(&REPLY);
    assert_same(&rt, &other, &Err(Malformed { at: 0 }));
    let longer = Header::read(&REPLY[1..]);
    assert_same(&rt, &longer, &Err(Malformed { at: 104 }));
}

// Asserts that the header with one octet replaced cannot be read from an offset on.
fn assert_unread(
    rt: &impl Abort,
    alloc: Global,
    place: usize,
    octet: u8,
    at: u32,
) -> Result<(), Fail> {
    let header = changed(alloc, &HEADER, place, octet)?;
    let read = match header.len() {
        104 => Header::read(&header),
        _ => Ok(WRITTEN),
    };
    assert_same(rt, &read, &Err(Malformed { at }));
    Ok(())
}

#[test]
fn a_field_out_of_its_range_is_named_by_its_place(rt: HostRuntime) -> Result<(), Fail> {
    let changes = [
        (0, 0x51, 0),
        (3, 0x32, 0),
        (4, 0, 4),
        (4, 5, 4),
        (5, 6, 5),
        (6, 1, 6),
        (6, 33, 6),
        (7, 1, 7),
        (19, 0, 16),
        (17, 1, 16),
        (53, 0x20, 52),
        (55, 0, 56),
        (4, 1, 52),
        (95, 0, 88),
        (94, 5, 88),
        (103, 0, 96),
    ];
    for (place, octet, at) in changes {
        assert_unread(&rt, rt.alloc(), place, octet, at)?;
    }
    Ok(())
}

#[test]
fn cut_replies_are_named_by_their_place(rt: HostRuntime) {
    let alloc = rt.alloc();
    assert_same(&rt, &bad_place(alloc, &[]), &Some(0));
    assert_same(&rt, &bad_place(alloc, &[3]), &Some(1));
    assert_same(&rt, &bad_place(alloc, &[4]), &Some(0));
    assert_same(&rt, &bad_place(alloc, &[1, 0]), &Some(1));
    assert_same(&rt, &bad_place(alloc, &[1]), &None);
    assert_same(&rt, &bad_place(alloc, &[0]), &Some(1));
    assert_same(&rt, &bad_place(alloc, &REPLY[..250]), &Some(247));
    assert_same(&rt, &bad_place(alloc, &REPLY[..200]), &Some(194));
    assert_same(&rt, &bad_place(alloc, &REPLY[..140]), &Some(132));
}

// Asserts that the reply with one octet replaced cannot be read from an offset on.
fn assert_bad(
    rt: &impl Abort,
    alloc: Global,
    place: usize,
    octet: u8,
    at: u32,
) -> Result<(), Fail> {
    let reply = changed(alloc, &REPLY, place, octet)?;
    assert_same(rt, &bad_place(alloc, &reply), &Some(at));
    Ok(())
}

#[test]
fn malformed_replies_are_named_by_their_place(rt: HostRuntime) -> Result<(), Fail> {
    let alloc = rt.alloc();
    let changes = [
        (106, 2, 109),
        (113, 0, 110),
        (122, 0xff, 186),
        (131, 29, 132),
        (159, 2, 132),
        (163, 0, 160),
        (198, 4, 194),
        (250, 1, 251),
    ];
    for (place, octet, at) in changes {
        assert_bad(&rt, alloc, place, octet, at)?;
    }
    let mut longer = REPLY.to_vec(alloc)?;
    longer.push(0)?;
    assert_same(&rt, &bad_place(alloc, &longer), &Some(251));
    Ok(())
}

// Compares the leaf of node 1, a border node of cell 3.
fn assert_first(rt: &impl Abort, leaf: &NodeView<'_>) {
    assert_same(rt, &(leaf.id, leaf.x, leaf.y), &(1, -1, 2));
    match leaf.extra {
        ExtraView::Cell { cell, border } => assert_same(rt, &(cell, border), &(3, true)),
        _ => assert!(rt; false),
    }
}

// Compares the items: the route 1 3, the leaves of its ends, and their pair.
fn assert_items(rt: &impl Abort, items: &Items) {
    assert_same(rt, &items.route.as_slice(), &[1, 3].as_slice());
    let pair = PairLeaf {
        a: 1,
        b: 3,
        distance: 9,
    };
    assert_same(rt, &items.pairs.as_slice(), &[pair].as_slice());
    assert_same(rt, &items.nodes.len(), &2);
    match (items.nodes.get(0), items.nodes.get(1)) {
        (Some(first), Some(second)) => {
            assert_first(rt, &first);
            assert_same(rt, &second.id, &3);
        }
        _ => assert!(rt; false),
    }
}

// Compares the parts of an answer besides its items.
fn assert_answer(rt: &impl Abort, answer: &Answer) {
    assert_same(rt, &answer.header, &WRITTEN);
    assert_octets(rt, answer.signature.as_slice(), &[9, 8, 7]);
    assert_same(rt, &answer.node_places.as_slice(), &[0, 4].as_slice());
    assert_same(rt, &answer.pair_places.as_slice(), &[1].as_slice());
    assert_same(rt, &answer.node_cover.as_slice(), &[[0x33; 32]].as_slice());
    assert_same(rt, &answer.pair_cover.as_slice().len(), &0);
}

// Writes a reply again, and returns its octets and the number of nodes on its route. This is the example of the
// crate `proof_octets`.
fn written_again(rt: &impl Abort, alloc: Global, octets: &[u8]) -> Result<(Vec<u8>, usize), Fail> {
    assert!(rt; octets.len() < 1_000_000);
    let reply = Reply::read(alloc, octets)?;
    // A reply has one encoding, so writing it gives back the octets that were read.
    let written = reply.write(alloc)?;
    let nodes = match &reply {
        Reply::Answer(answer) => answer.items.route.as_slice().len(),
        _ => 0,
    };
    Ok((written, nodes))
}

#[test]
fn a_route_is_read_and_written_again(rt: HostRuntime) -> Result<(), Fail> {
    let (octets, nodes) = written_again(&rt, rt.alloc(), &REPLY)?;
    assert_octets(&rt, &octets, &REPLY);
    assert_same(&rt, &nodes, &2);
    Ok(())
}

// Compares an answer that has its route, or the same answer without a route.
fn assert_whole(rt: &impl Abort, reply: &Reply, routed: bool) {
    match (reply, routed) {
        (Reply::Answer(answer), true) => {
            assert_answer(rt, answer);
            assert_items(rt, &answer.items);
        }
        (Reply::Apart(answer), false) => {
            assert_answer(rt, answer);
            assert_same(rt, &answer.items.route.as_slice().len(), &0);
            assert_same(rt, &answer.items.nodes.len(), &2);
        }
        _ => assert!(rt; false),
    }
}

// Writes a reply again, and compares the octets with those from which it was read.
fn assert_written(rt: &impl Abort, alloc: Global, found: &Reply, octets: &[u8]) -> Result<(), Fail>
    requires { reply.Fits found.now }
{
    let written = found.write(alloc)?;
    assert_octets(rt, &written, octets);
    Ok(())
}

// Asserts that the octets encode this answer, and that the answer is written as these octets.
fn assert_rewritten(
    rt: &impl Abort,
    alloc: Global,
    octets: &[u8],
    routed: bool,
) -> Result<(), Fail> {
    if octets.len() > 10_000 {
        return Err(Fail::from("many octets"));
    }
    let reply = Reply::read(alloc, octets)?;
    assert_whole(rt, &reply, routed);
    assert_written(rt, alloc, &reply, octets)
}

#[test]
fn an_answer_is_read_and_written_again(rt: HostRuntime) -> Result<(), Fail> {
    assert_rewritten(&rt, rt.alloc(), &REPLY, true)
}

// Returns the same answer without its route, which takes 12 octets. This is the reply which states that no walk
// joins the ends.
pub(crate) fn without_route(alloc: Global) -> Result<Vec<u8>, Fail> {
    let mut octets = vec![in alloc; 3]?;
    octets.extend_from_slice(&REPLY[1..110])?;
    octets.extend_from_slice(&REPLY[122..])?;
    Ok(octets)
}

#[test]
fn an_answer_without_a_route_is_read_and_written_again(rt: HostRuntime) -> Result<(), Fail> {
    let octets = without_route(rt.alloc())?;
    assert_rewritten(&rt, rt.alloc(), &octets, false)
}

// Compares the last node and the road of a publication.
fn assert_parts(rt: &impl Abort, parts: &Parts) {
    let node = Node { id: 3, x: 4, y: 5 };
    assert_same(rt, &parts.nodes.as_slice().last(), &Some(&node));
    let road = Road {
        a: 1,
        b: 3,
        length: 5,
    };
    assert_same(rt, &parts.roads.as_slice(), &[road].as_slice());
}

// Returns the publication that the octets encode, and the octets of the publication when it is written again.
fn rewritten_publication(alloc: Global) -> Result<(Publication, Vec<u8>), Fail> {
    let publication = Publication::read(alloc, &PUBLICATION)?;
    let octets = publication.write(alloc)?;
    Ok((publication, octets))
}

#[test]
fn a_publication_is_read_and_written_again(rt: HostRuntime) -> Result<(), Fail> {
    let settings = Settings {
        method: 4,
        version: 7,
        order: 3,
        seed: 5,
        fan: 4,
        p1: 2,
        p2: 2,
        p3: 0,
    };
    let (publication, octets) = rewritten_publication(rt.alloc())?;
    assert_octets(&rt, &octets, &PUBLICATION);
    assert_same(&rt, &publication.header, &WRITTEN);
    assert_same(&rt, &publication.settings, &settings);
    assert_parts(&rt, &publication.parts);
    let cut = Publication::read(rt.alloc(), &PUBLICATION[..106]);
    assert_same(&rt, &cut.is_err(), &true);
    Ok(())
}
