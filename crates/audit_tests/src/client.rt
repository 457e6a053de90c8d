//! Facts that no clause states: signed answers of another program, the reference (`checks/sources.py`), are
//! accepted, and altered ones are refused.
use crate::asserts::{assert_octets, assert_same};
use crate::octets::{octets_of, spliced};
use crate::signed_answers::{
    APART, APART_BACK, APART_WITHOUT_4, BORDER_APART, BORDER_REPLY, FOURTH_DIGEST, FULL_APART,
    FULL_APART_JOINED, FULL_DETOUR, FULL_REPLY, FULL_WITHOUT_PAIR, LDM_REPLY, LDM_WITHOUT_2,
    ONE_PAIR_COVER, PUBLIC, REPLY, SIX_APART, SIX_APART_WITHOUT_PAIR, ZERO_DIJ_REPLY,
    ZERO_FULL_REPLY, ZERO_HYP_REPLY, ZERO_LDM_REPLY,
};
use book_model::Query;
use lms_tree::SealError;
use octet_text::{Hasher, Sha, Toy};
use proof_judge::Refusal;
use route_client::{Accepted, CheckError, Checked, CoverFault, check, check_owned};
use std::alloc::Global;
use std::process::Abort;
use std::test::Fail;

const ASKED: Query = Query { from: 1, to: 3 };

const LONG: Query = Query { from: 3, to: 5 };

// The result of a client's check.
type Answered = Result<Checked, CheckError>;

// Checks octets under a prefix of the public key; its length is given.
fn checked<H: Hasher>(
    alloc: Global,
    key: usize,
    octets: &[u8],
    query: Query,
    least: u64,
) -> Result<Answered, Fail> {
    let public = PUBLIC.get(..key).unwrap_or(&[]);
    if octets.len() > 10_000 {
        return Err(Fail::from("many octets"));
    }
    Ok(check::<H>(alloc, public, &[], octets, query, least))
}

// Returns the version and the length that a client takes from a reply. This is the example of the crate
// `route_client`.
fn version_and_length(
    rt: &impl Abort,
    alloc: Global,
    public: &[u8],
    reply: &[u8],
) -> Result<(u64, Option<u64>), Fail> {
    // The reply may come from anywhere. The client trusts only the owner's public key.
    assert!(rt; reply.len() < 1_000_000);
    let query = Query { from: 1, to: 3 };
    let (version, length) = match check::<Sha>(alloc, public, &[], reply, query, 3)? {
        // In the map of this version, which is at least 3, no walk from 1 to 3 is shorter than the route.
        Checked::Route(it) => (it.version, Some(it.length)),
        Checked::Apart { version, .. } => (version, None),
    };
    Ok((version, length))
}

#[test]
fn a_signed_answer_has_a_version_and_a_length(rt: HostRuntime) -> Result<(), Fail> {
    let reply = octets_of(rt.alloc(), REPLY)?;
    let found = version_and_length(&rt, rt.alloc(), &PUBLIC, &reply)?;
    assert_same(&rt, &found, &(3, Some(9)));
    Ok(())
}

// Returns the accepted route.
fn route_in(checked: Checked) -> Result<Accepted, Fail> {
    match checked {
        Checked::Route(accepted) => Ok(accepted),
        Checked::Apart { .. } => Err(Fail::from("no route")),
    }
}

// Asserts that octets are refused as an answer to a query, for this reason.
fn assert_no_answer(
    rt: &impl Abort,
    alloc: Global,
    octets: &[u8],
    query: Query,
    least: u64,
    why: CheckError,
) -> Result<(), Fail> {
    let refused = checked::<Sha>(alloc, 56, octets, query, least)?.err();
    assert_same(rt, &refused, &Some(why));
    Ok(())
}

// Asserts the same, whatever the version.
fn assert_refused(
    rt: &impl Abort,
    alloc: Global,
    octets: &[u8],
    why: CheckError,
) -> Result<(), Fail> {
    assert_no_answer(rt, alloc, octets, ASKED, 0, why)
}

// Asserts that a reply in which the octets of a range are replaced is refused for this reason.
fn assert_found(
    rt: &impl Abort,
    alloc: Global,
    reply: &[u8],
    from: usize,
    to: usize,
    others: &[u8],
    why: CheckError,
) -> Result<(), Fail> {
    let octets = spliced(alloc, reply, from, to, others)?;
    assert_refused(rt, alloc, &octets, why)
}

// Asserts that the reply in hex is accepted as an answer to a query, with this length and this route.
fn assert_accepted(
    rt: &impl Abort,
    alloc: Global,
    text: &str,
    query: Query,
    length: u64,
    route: &[u32],
) -> Result<(), Fail> {
    let reply = octets_of(alloc, text)?;
    let accepted = route_in(checked::<Sha>(alloc, 56, &reply, query, 1)??)?;
    assert_same(rt, &accepted.length, &length);
    assert_same(rt, &accepted.route.as_slice(), &route);
    Ok(())
}

#[test]
fn a_signed_answer_is_accepted(rt: HostRuntime) -> Result<(), Fail> {
    let alloc = rt.alloc();
    assert_accepted(&rt, alloc, REPLY, ASKED, 9, &[1, 2, 3])?;
    let reply = octets_of(alloc, REPLY)?;
    let accepted = route_in(checked::<Sha>(alloc, 56, &reply, ASKED, 3)??)?;
    assert_same(&rt, &accepted.version, &3);
    let header = reply.get(1..105).unwrap_or(&[]);
    assert_octets(&rt, &accepted.header.write(), header);
    Ok(())
}

// Checks octets that are passed by value.
fn checked_owned(
    alloc: Global,
    octets: Vec<u8>,
    query: Query,
    least: u64,
) -> Result<Answered, Fail> {
    if octets.len() > 10_000 {
        return Err(Fail::from("many octets"));
    }
    Ok(check_owned::<Sha>(alloc, &PUBLIC, &[], octets, query, least))
}

#[test]
fn octets_that_are_handed_over_are_checked(rt: HostRuntime) -> Result<(), Fail> {
    let alloc = rt.alloc();
    let accepted = route_in(checked_owned(alloc, octets_of(alloc, REPLY)?, ASKED, 3)??)?;
    let route: &[u32] = &[1, 2, 3];
    assert_same(&rt, &accepted.length, &9);
    assert_same(&rt, &accepted.route.as_slice(), &route);
    let stale = checked_owned(alloc, octets_of(alloc, REPLY)?, ASKED, 4)?.err();
    assert_same(&rt, &stale, &Some(CheckError::Stale(3)));
    Ok(())
}

#[test]
fn the_first_failing_test_is_named(rt: HostRuntime) -> Result<(), Fail> {
    let alloc = rt.alloc();
    let reply = octets_of(alloc, REPLY)?;
    assert_no_answer(&rt, alloc, &reply, ASKED, 4, CheckError::Stale(3))?;
    assert_refused(&rt, alloc, &[], CheckError::Malformed(0))?;
    assert_refused(&rt, alloc, &[2], CheckError::NotAnswer(2))?;
    assert_refused(&rt, alloc, &[1, 0], CheckError::Malformed(1))?;
    let cut = reply.get(..1610).unwrap_or(&[]);
    assert_refused(&rt, alloc, cut, CheckError::Malformed(1607))?;
    let other_end = Query { from: 1, to: 2 };
    let broken = CheckError::Judged(Refusal::BadRoute(3));
    assert_no_answer(&rt, alloc, &reply, other_end, 0, broken)
}

#[test]
fn another_key_and_another_hash_are_named(rt: HostRuntime) -> Result<(), Fail> {
    let reply = octets_of(rt.alloc(), REPLY)?;
    let other_key = checked::<Sha>(rt.alloc(), 55, &reply, ASKED, 0)?.err();
    let bad_key = CheckError::BadSignature(SealError::BadKey);
    assert_same(&rt, &other_key, &Some(bad_key));
    let other_hash = checked::<Toy>(rt.alloc(), 56, &reply, ASKED, 0)?.err();
    let differs = CheckError::BadCover(1, CoverFault::Differs);
    assert_same(&rt, &other_hash, &Some(differs));
    Ok(())
}

#[test]
fn a_changed_octet_is_found(rt: HostRuntime) -> Result<(), Fail> {
    let alloc = rt.alloc();
    let reply = octets_of(alloc, REPLY)?;
    let no_match = CheckError::BadSignature(SealError::NoMatch);
    let bad_form = CheckError::BadSignature(SealError::BadForm);
    let differs = CheckError::BadCover(1, CoverFault::Differs);
    let no_place = CheckError::BadCover(1, CoverFault::Place);
    let shorter = CheckError::Judged(Refusal::Shorter(9));
    // One bit of the node root, which begins with 1a.
    assert_found(&rt, alloc, &reply, 21, 22, &[0x1b], no_match)?;
    assert_found(&rt, alloc, &reply, 108, 109, &[1], bad_form)?;
    assert_found(&rt, alloc, &reply, 1474, 1475, &[1], differs)?;
    assert_found(&rt, alloc, &reply, 1533, 1534, &[5], no_place)?;
    assert_found(&rt, alloc, &reply, 1410, 1411, &[4], shorter)
}

// Asserts that the reply with a route of these two ids has its first fault at this index.
fn assert_broken(
    rt: &impl Abort,
    alloc: Global,
    reply: &[u8],
    (first, last): (u8, u8),
    index: u32,
) -> Result<(), Fail> {
    let route = [0, 0, 0, 2, 0, 0, 0, first, 0, 0, 0, last];
    let why = CheckError::Judged(Refusal::BadRoute(index));
    assert_found(rt, alloc, reply, 1399, 1415, &route, why)
}

#[test]
fn a_broken_route_is_found(rt: HostRuntime) -> Result<(), Fail> {
    let alloc = rt.alloc();
    let reply = octets_of(alloc, REPLY)?;
    assert_broken(&rt, alloc, &reply, (2, 3), 0)?;
    assert_broken(&rt, alloc, &reply, (1, 3), 1)?;
    assert_broken(&rt, alloc, &reply, (1, 2), 2)
}

// Returns a count, followed by the digests.
fn counted(alloc: Global, count: u8, digests: &[u8]) -> Result<Vec<u8>, Fail> {
    spliced(alloc, &[0, 0, 0, count], 4, 4, digests)
}

#[test]
fn left_out_and_added_digests_are_found(rt: HostRuntime) -> Result<(), Fail> {
    let alloc = rt.alloc();
    let reply = octets_of(alloc, REPLY)?;
    let one = counted(alloc, 1, reply.get(1575..1607).unwrap_or(&[]))?;
    let two = counted(alloc, 2, reply.get(1575..1607).unwrap_or(&[]))?;
    let short = CheckError::BadCover(1, CoverFault::Short);
    let long = CheckError::BadCover(1, CoverFault::Long);
    let long_pairs = CheckError::BadCover(2, CoverFault::Long);
    assert_found(
        &rt,
        alloc,
        &reply,
        1611,
        1611,
        &[0],
        CheckError::Malformed(1611),
    )?;
    assert_found(&rt, alloc, &reply, 1571, 1607, &[0; 4], short)?;
    assert_found(&rt, alloc, &reply, 1571, 1575, &two, long)?;
    assert_found(&rt, alloc, &reply, 1607, 1611, &one, long_pairs)
}

#[test]
fn a_left_out_leaf_is_found(rt: HostRuntime) -> Result<(), Fail> {
    let alloc = rt.alloc();
    let reply = octets_of(alloc, REPLY)?;
    let fourth = octets_of(alloc, FOURTH_DIGEST)?;
    let two = counted(alloc, 2, &fourth)?;
    let covered = spliced(alloc, &reply, 1571, 1575, &two)?;
    let fewer = spliced(alloc, &covered, 1530, 1567, &[])?;
    let missing = CheckError::Judged(Refusal::MissingTuple(4));
    assert_found(&rt, alloc, &fewer, 1415, 1419, &[0, 0, 0, 3], missing)
}

#[test]
fn a_signed_answer_with_pairs_is_judged(rt: HostRuntime) -> Result<(), Fail> {
    let alloc = rt.alloc();
    assert_accepted(&rt, alloc, BORDER_REPLY, ASKED, 9, &[1, 2, 3])?;
    let reply = octets_of(alloc, BORDER_REPLY)?;
    let shorter = CheckError::Judged(Refusal::Shorter(9));
    let differs = CheckError::BadCover(2, CoverFault::Differs);
    assert_found(&rt, alloc, &reply, 1407, 1411, &[0, 0, 0, 4], shorter)?;
    assert_found(&rt, alloc, &reply, 1611, 1612, &[4], differs)
}

#[test]
fn a_left_out_pair_is_found(rt: HostRuntime) -> Result<(), Fail> {
    let alloc = rt.alloc();
    let reply = octets_of(alloc, BORDER_REPLY)?;
    let cover = octets_of(alloc, ONE_PAIR_COVER)?;
    let covered = spliced(alloc, &reply, 1669, 1705, &cover)?;
    let fewer = spliced(alloc, &covered, 1612, 1633, &[])?;
    let missing = CheckError::Judged(Refusal::MissingPair(3, 4));
    assert_found(&rt, alloc, &fewer, 1587, 1591, &[0, 0, 0, 1], missing)
}

#[test]
fn signed_answers_of_each_method_are_accepted(rt: HostRuntime) -> Result<(), Fail> {
    let rows = [
        (FULL_REPLY, ASKED, 9, [1, 2, 3]),
        (LDM_REPLY, LONG, 20, [3, 4, 5]),
        (ZERO_DIJ_REPLY, ASKED, 0, [1, 2, 3]),
        (ZERO_FULL_REPLY, ASKED, 0, [1, 2, 3]),
        (ZERO_LDM_REPLY, ASKED, 0, [1, 2, 3]),
        (ZERO_HYP_REPLY, ASKED, 0, [1, 2, 3]),
    ];
    for (text, query, length, route) in rows {
        assert_accepted(&rt, rt.alloc(), text, query, length, &route)?;
    }
    Ok(())
}

// Asserts the judgement of a reply in hex, in which the octets from the end of the signature up to an offset are
// replaced.
fn assert_judged(
    rt: &impl Abort,
    alloc: Global,
    (text, to, others): (&str, usize, &str),
    query: Query,
    refusal: Refusal,
) -> Result<(), Fail> {
    let reply = octets_of(alloc, text)?;
    let others = octets_of(alloc, others)?;
    let octets = spliced(alloc, &reply, 1399, to, &others)?;
    assert_no_answer(rt, alloc, &octets, query, 0, CheckError::Judged(refusal))
}

#[test]
fn refusals_of_full_and_ldm_are_named(rt: HostRuntime) -> Result<(), Fail> {
    let alloc = rt.alloc();
    let disagrees = Refusal::Disagrees(9);
    assert_judged(
        &rt,
        alloc,
        (FULL_REPLY, 1755, FULL_DETOUR),
        ASKED,
        disagrees,
    )?;
    let no_pair = Refusal::MissingPair(1, 3);
    assert_judged(
        &rt,
        alloc,
        (FULL_REPLY, 1755, FULL_WITHOUT_PAIR),
        ASKED,
        no_pair,
    )?;
    let no_tuple = Refusal::MissingTuple(2);
    assert_judged(&rt, alloc, (LDM_REPLY, 1615, LDM_WITHOUT_2), LONG, no_tuple)
}

#[test]
fn a_route_to_its_own_start_is_shorter(rt: HostRuntime) -> Result<(), Fail> {
    let alloc = rt.alloc();
    let full = octets_of(alloc, FULL_REPLY)?;
    let to_itself = spliced(alloc, &full, 1411, 1415, &[0, 0, 0, 1])?;
    let back = Query { from: 1, to: 1 };
    let shorter = CheckError::Judged(Refusal::Shorter(0));
    assert_no_answer(&rt, alloc, &to_itself, back, 0, shorter)
}

#[test]
fn refusals_are_whole_sentences(rt: HostRuntime) -> Result<(), Fail> {
    let error = CheckError::BadCover(2, CoverFault::Short);
    let text = format!(in rt.alloc(); "{error}")?;
    let wanted = "The items of tree 2 are not those of its root: the cover has too few digests.";
    assert_octets(&rt, text.as_bytes(), wanted.as_bytes());
    Ok(())
}

// Returns the answer without a route that these octets make after another reply's signature.
fn apart_reply(alloc: Global, signed: &str, rest: &str) -> Result<Vec<u8>, Fail> {
    let reply = octets_of(alloc, signed)?;
    let rest = octets_of(alloc, rest)?;
    let whole = spliced(alloc, &reply, 1399, reply.len(), &rest)?;
    spliced(alloc, &whole, 0, 1, &[3])
}

// The verdict on an answer without a route, reduced to its version.
type Said = Result<Option<u64>, CheckError>;

// Returns the verdict on such a reply to a query, or none if the reply has a route.
fn apart_version(alloc: Global, octets: &[u8], query: Query) -> Result<Said, Fail> {
    match checked::<Sha>(alloc, 56, octets, query, 3)? {
        Ok(Checked::Route(_)) => Ok(Ok(None)),
        Ok(Checked::Apart { version, .. }) => Ok(Ok(Some(version))),
        Err(why) => Ok(Err(why)),
    }
}

// Asserts the verdict on such a reply to a query.
fn assert_apart(
    rt: &impl Abort,
    alloc: Global,
    (signed, rest): (&str, &str),
    (from, to): (u32, u32),
    wanted: Said,
) -> Result<(), Fail> {
    let octets = apart_reply(alloc, signed, rest)?;
    let said = apart_version(alloc, &octets, Query { from, to })?;
    assert_same(rt, &said, &wanted);
    Ok(())
}

fn refused(refusal: Refusal) -> Said {
    Err(CheckError::Judged(refusal))
}

#[test]
fn signed_answers_without_a_route_are_judged(rt: HostRuntime) -> Result<(), Fail> {
    let alloc = rt.alloc();
    for (signed, rest, ends, wanted) in [
        (REPLY, APART, (1, 5), Ok(Some(3))),
        (REPLY, APART, (1, 3), refused(Refusal::Shorter(9))),
        (REPLY, APART, (1, 1), refused(Refusal::Shorter(0))),
        (REPLY, APART_BACK, (5, 1), Ok(Some(3))),
        (REPLY, APART_BACK, (1, 5), refused(Refusal::MissingTuple(2))),
        (
            REPLY,
            APART_WITHOUT_4,
            (1, 5),
            refused(Refusal::MissingTuple(4)),
        ),
        (FULL_REPLY, FULL_APART, (1, 5), Ok(Some(3))),
        (
            FULL_REPLY,
            FULL_APART_JOINED,
            (1, 3),
            refused(Refusal::Disagrees(9)),
        ),
        (
            FULL_REPLY,
            FULL_APART_JOINED,
            (1, 5),
            refused(Refusal::MissingTuple(5)),
        ),
        (BORDER_REPLY, BORDER_APART, (1, 5), Ok(Some(3))),
        (
            BORDER_REPLY,
            BORDER_APART,
            (1, 4),
            refused(Refusal::Shorter(3)),
        ),
    ] {
        assert_apart(&rt, alloc, (signed, rest), ends, wanted)?;
    }
    Ok(())
}

#[test]
fn a_left_out_pair_of_borders_of_two_sides_is_found(rt: HostRuntime) -> Result<(), Fail> {
    let alloc = rt.alloc();
    let whole = octets_of(alloc, SIX_APART)?;
    let ends = Query { from: 1, to: 5 };
    assert_same(&rt, &apart_version(alloc, &whole, ends)?, &Ok(Some(3)));
    let missing = refused(Refusal::MissingPair(4, 5));
    let lacking = (SIX_APART, SIX_APART_WITHOUT_PAIR);
    assert_apart(&rt, alloc, lacking, (1, 5), missing)
}
