//! Facts that no clause states: signed replies of another program, the reference (`checks/sources.py`), are
//! accepted, and altered ones are refused.
ghost use Rattle.std.specs.Prelude.{◌≤◌, length};

use crate::same::assert_same;
use crate::signed_near::{
    FRONT, NOTHING, NOTHING_COVERED, PUBLIC, TWO_WITH_ONE_ID, WITH_5, WITHIN_0, WITHIN_4,
    WITHIN_ANY, WITHOUT_4,
};
use lms_tree::SealError;
use octet_text::{Sha, Toy};
use proof_octets::{Mark, NearQuery};
use route_client::{CoverFault, NearError, Within, check_near, check_near_owned};
use std::alloc::{AllocError, Global};

const WITHIN_FOUR: NearQuery = NearQuery { from: 1, radius: 4 };

const NEAREST: [Mark; 3] = [
    Mark { id: 1, distance: 0 },
    Mark { id: 2, distance: 4 },
    Mark { id: 4, distance: 3 },
];

// Returns the prefix of a reply, followed by the rest.
fn behind_front(alloc: Global, rest: &[u8]) -> Result<Vec<u8>, AllocError> {
    let mut octets = Vec::from_slice(alloc, &FRONT)?;
    octets.extend_from_slice(rest)?;
    Ok(octets)
}

// Returns why octets are refused, if they are.
fn refusal(alloc: Global, octets: &[u8], query: NearQuery, least: u64) -> Option<NearError> {
    if octets.len() > 10_000 {
        return None;
    }
    check_near::<Sha>(alloc, &PUBLIC, &[], octets, query, least).err()
}

// Returns the result that a client takes from octets, which are borrowed or passed by value.
fn taken(
    alloc: Global,
    octets: Vec<u8>,
    query: NearQuery,
    are_lent: bool,
) -> Result<Within, NearError>
    requires { length octets.items ≤ 10000 }
{
    if are_lent {
        check_near::<Sha>(alloc, &PUBLIC, &[], &octets, query, 3)
    } else {
        check_near_owned::<Sha>(alloc, &PUBLIC, &[], octets, query, 3)
    }
}

// Tests whether a reply is accepted with these nodes.
fn is_accepted(
    alloc: Global,
    rest: &[u8],
    radius: u64,
    nodes: &[Mark],
    are_lent: bool,
) -> Result<bool, AllocError> {
    let octets = behind_front(alloc, rest)?;
    if octets.len() > 10_000 {
        return Ok(false);
    }
    match taken(alloc, octets, NearQuery { from: 1, radius }, are_lent) {
        Ok(within) => Ok(within.version == 3 && within.nodes.as_slice() == nodes),
        Err(_) => Ok(false),
    }
}

// In one of the replies, node 5 has an item with its right cover, but is not listed.
#[test]
fn the_nodes_within_a_radius(rt: HostRuntime) -> Result<(), AllocError> {
    let alloc = rt.alloc();
    let all = [
        NEAREST[0],
        NEAREST[1],
        Mark { id: 3, distance: 9 },
        NEAREST[2],
    ];
    for are_lent in [true, false] {
        assert!(rt; is_accepted(alloc, &WITHIN_4, 4, &NEAREST, are_lent)?);
        assert!(rt; is_accepted(alloc, &WITH_5, 4, &NEAREST, are_lent)?);
        assert!(rt; is_accepted(alloc, &WITHIN_0, 0, &NEAREST[..1], are_lent)?);
        assert!(rt; is_accepted(alloc, &WITHIN_ANY, u64::MAX, &all, are_lent)?);
    }
    Ok(())
}

#[test]
fn the_first_failing_test_is_named(rt: HostRuntime) -> Result<(), AllocError> {
    let alloc = rt.alloc();
    let rows = [
        (WITHOUT_4.as_slice(), NearError::MissingTuple(4)),
        (NOTHING.as_slice(), NearError::MissingTuple(1)),
        (
            NOTHING_COVERED.as_slice(),
            NearError::BadCover(CoverFault::Long),
        ),
        (
            TWO_WITH_ONE_ID.as_slice(),
            NearError::BadCover(CoverFault::Differs),
        ),
    ];
    for (rest, error) in rows {
        let octets = behind_front(alloc, rest)?;
        assert_same(&rt, refusal(alloc, &octets, WITHIN_FOUR, 0), Some(error));
    }
    Ok(())
}

#[test]
fn other_keys_versions_and_octets_are_refused(rt: HostRuntime) -> Result<(), AllocError> {
    let alloc = rt.alloc();
    let mut octets = behind_front(alloc, &WITHIN_4)?;
    let stale = refusal(alloc, &octets, WITHIN_FOUR, 4);
    assert_same(&rt, stale, Some(NearError::Stale(3)));
    if octets.len() < 10_000 {
        let other_hash = check_near::<Toy>(alloc, &PUBLIC, &[], &octets, WITHIN_FOUR, 0).err();
        assert_same(
            &rt,
            other_hash,
            Some(NearError::BadCover(CoverFault::Differs)),
        );
        let other_key = check_near::<Sha>(alloc, &PUBLIC[..55], &[], &octets, WITHIN_FOUR, 0).err();
        assert_same(
            &rt,
            other_key,
            Some(NearError::BadSignature(SealError::BadKey)),
        );
    }
    octets.push(0)?;
    let longer = refusal(alloc, &octets, WITHIN_FOUR, 0);
    assert_same(&rt, longer, Some(NearError::Malformed(1585)));
    Ok(())
}
