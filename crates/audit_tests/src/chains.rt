//! Facts that no clause states: an answer that an owner's second key signed is refused under the first key alone,
//! and accepted with the chain that leads to the second key; an answer that the first key signed is accepted in
//! both cases.
use crate::asserts::{assert_octets, assert_same};
use crate::octets::octets_of;
use crate::owners::signed_past;
use crate::signed_answers::{PUBLIC, REPLY};
use book_model::Query;
use lms_tree::{Link, SealError, link_text};
use octet_text::{Octets, Sha};
use route_client::{CheckError, check};
use std::alloc::Global;
use std::process::Abort;
use std::test::Fail;

const ASKED: Query = Query { from: 1, to: 3 };

/// Returns the public key whose secret repeats one octet, and the link from it to another key.
pub(crate) fn link_to(alloc: Global, secret: u8, next: [u8; 56]) -> Result<([u8; 56], Link), Fail> {
    let (key, signature) = signed_past(alloc, secret, &link_text(&next))?;
    let link = Link {
        key: next,
        signature: Octets::from_vec(signature),
    };
    Ok((key, link))
}

// Returns why octets are refused under a key and a chain, if they are refused.
fn refusal(
    alloc: Global,
    public: &[u8],
    chain: &[Link],
    octets: &[u8],
) -> Result<Option<CheckError>, Fail> {
    if octets.len() > 10_000 || chain.len() > 7 {
        return Err(Fail::from("many octets or links"));
    }
    Ok(check::<Sha>(alloc, public, chain, octets, ASKED, 3).err())
}

// Asserts that octets are refused under a key and a chain for this reason, or that they are accepted.
fn assert_ends(
    rt: &impl Abort,
    alloc: Global,
    public: &[u8; 56],
    chain: &[Link],
    octets: &[u8],
    why: Option<CheckError>,
) -> Result<(), Fail> {
    assert_same(rt, &refusal(alloc, public, chain, octets)?, &why);
    Ok(())
}

#[test]
fn a_later_key_is_accepted_along_its_chain(rt: HostRuntime) -> Result<(), Fail> {
    let alloc = rt.alloc();
    let reply = octets_of(alloc, REPLY)?;
    let (first, link) = link_to(alloc, 1, PUBLIC)?;
    let no_match = Some(CheckError::BadSignature(SealError::NoMatch));
    assert_ends(&rt, alloc, &first, &[], &reply, no_match)?;
    assert_ends(&rt, alloc, &first, &[link], &reply, None)
}

#[test]
fn the_first_key_is_accepted_both_ways(rt: HostRuntime) -> Result<(), Fail> {
    let alloc = rt.alloc();
    let reply = octets_of(alloc, REPLY)?;
    let (public, link) = link_to(alloc, 0, [7; 56])?;
    assert_octets(&rt, &public, &PUBLIC);
    assert_ends(&rt, alloc, &public, &[], &reply, None)?;
    assert_ends(&rt, alloc, &public, &[link], &reply, None)
}

// Returns a key that leads to the public key, and a chain from this key to the public key and back.
fn there_and_back(alloc: Global) -> Result<([u8; 56], [Link; 2]), Fail> {
    let (first, there) = link_to(alloc, 1, PUBLIC)?;
    let (_, back) = link_to(alloc, 0, first)?;
    Ok((first, [there, back]))
}

#[test]
fn the_first_bad_link_is_named(rt: HostRuntime) -> Result<(), Fail> {
    let alloc = rt.alloc();
    let reply = octets_of(alloc, REPLY)?;
    let (first, mut chain) = there_and_back(alloc)?;
    chain[1].key[8] ^= 1;
    let second = Some(CheckError::BadChain(1, SealError::NoMatch));
    assert_ends(&rt, alloc, &first, &chain, &reply, second)?;
    chain[0].key[8] ^= 1;
    let both = Some(CheckError::BadChain(0, SealError::NoMatch));
    assert_ends(&rt, alloc, &first, &chain, &reply, both)
}
