//! Facts that no clause states: a reply over a map of five nodes is right, belongs to another publication, is
//! refused, is forged, or shows two leaves with the same digest.
ghost use Rattle.std.specs.Prelude.{◌≤◌, length};
ghost use Rattle.key_desk.specs.Desk.{Fits};

use crate::asserts::{assert_octets, assert_same};
use crate::octets::spliced;
use crate::owners::{
    SECOND, SECOND_MOVED, header_of, installed, owner, publication, sealed, signed_past,
};
use book_model::Query;
use key_desk::Desk;
use lms_tree::Link;
use octet_text::Toy;
use proof_judge::Refusal;
use road_io::Disk;
use route_audit::{AuditError, Finding, audit};
use route_client::CheckError;
use route_server::Held;
use std::alloc::Global;
use std::process::Abort;
use std::test::Fail;

const ASKED: Query = Query { from: 1, to: 3 };

/// The result of an audit.
type Found = Result<Finding, AuditError<CheckError>>;

/// Returns the octets of the reply over the held book.
fn answer(alloc: Global, held: &Held<Toy>) -> Result<Vec<u8>, Fail> {
    if held.signature().len() > 1452 {
        return Err(Fail::from("a long signature"));
    }
    Ok(held.answer(alloc, ASKED)?)
}

/// Returns the octets of the reply over the publication of a version with this signature.
pub(crate) fn reply(alloc: Global, version: u64, signature: Vec<u8>) -> Result<Vec<u8>, Fail> {
    let held = installed(alloc, version, signature)?;
    answer(alloc, &held)
}

/// Returns the same reply, signed by the desk.
pub(crate) fn signed_reply<D: Disk>(
    alloc: Global,
    desk: &mut Desk,
    disk: &mut D,
    version: u64,
) -> Result<Vec<u8>, Fail>
    requires { Fits D.Disk desk.old disk.old }
    ensures { Fits D.Disk desk.new disk.new }
{
    let signature = sealed(alloc, desk, disk, version)?;
    reply(alloc, version, signature)
}

/// Octets to be audited under a key and along a chain, against the publication of a version.
#[derive(Clone, Copy)]
pub(crate) struct Case<'a> {
    pub key: [u8; 56],
    pub chain: &'a [Link],
    pub octets: &'a [u8],
    pub version: u64,
}

/// Makes the case of octets under a key without links, against the publication of version 3.
fn alone(key: [u8; 56], octets: &[u8]) -> Case<'_> {
    Case {
        key,
        chain: &[],
        octets,
        version: 3,
    }
}

/// Audits a case.
fn audited<D: Disk>(
    alloc: Global,
    desk: &mut Desk,
    disk: &mut D,
    case: Case<'_>,
) -> Result<Found, Fail>
    requires { Fits D.Disk desk.old disk.old }
    ensures { Fits D.Disk desk.new disk.new }
{
    let Case {
        key,
        chain,
        octets,
        version,
    } = case;
    if octets.len() > 10_000 || chain.len() > 7 {
        return Err(Fail::from("many octets or links"));
    }
    let publication = publication(alloc, version, Vec::new(alloc))?;
    Ok(audit::<Toy, D>(alloc, &key, chain, octets, ASKED, publication, desk, disk))
}

/// Asserts that the reply of a case is right.
pub(crate) fn assert_right<D: Disk>(
    rt: &impl Abort,
    alloc: Global,
    desk: &mut Desk,
    disk: &mut D,
    case: Case<'_>,
) -> Result<(), Fail>
    requires { Fits D.Disk desk.old disk.old }
    ensures { Fits D.Disk desk.new disk.new }
{
    let found = audited(alloc, desk, disk, case)?;
    assert!(rt; matches!(&found, Ok(Finding::Right)));
    Ok(())
}

/// Asserts that the reply of a case is refused for this reason.
pub(crate) fn assert_refused<D: Disk>(
    rt: &impl Abort,
    alloc: Global,
    desk: &mut Desk,
    disk: &mut D,
    case: Case<'_>,
    why: AuditError<CheckError>,
) -> Result<(), Fail>
    requires { Fits D.Disk desk.old disk.old }
    ensures { Fits D.Disk desk.new disk.new }
{
    let found = audited(alloc, desk, disk, case)?;
    assert_same(rt, &found.err(), &Some(why));
    Ok(())
}

/// Asserts that a finding is a forgery with this key, this text and this signature.
fn assert_forgery(rt: &impl Abort, found: &Found, key: &[u8; 56], text: &[u8], signature: &[u8]) {
    match found {
        Ok(
            Finding::Forged {
                key: own,
                text: shown,
                signature: seal,
            },
        ) => {
            assert_octets(rt, own, key);
            assert_octets(rt, shown.as_slice(), text);
            assert_octets(rt, seal.as_slice(), signature);
        }
        _ => assert!(rt; false),
    }
}

/// Asserts that the reply of a case is forged, with the case's key and this text and signature.
pub(crate) fn assert_forged<D: Disk>(
    rt: &impl Abort,
    alloc: Global,
    desk: &mut Desk,
    disk: &mut D,
    case: Case<'_>,
    text: &[u8],
    signature: &[u8],
) -> Result<(), Fail>
    requires { Fits D.Disk desk.old disk.old }
    ensures { Fits D.Disk desk.new disk.new }
{
    let found = audited(alloc, desk, disk, case)?;
    assert_forgery(rt, &found, &case.key, text, signature);
    Ok(())
}

#[test]
fn a_reply_is_right_or_of_another_publication(rt: HostRuntime) -> Result<(), Fail> {
    let alloc = rt.alloc();
    let (mut desk, mut disk) = owner(alloc)?;
    let octets = signed_reply(alloc, &mut desk, &mut disk, 3)?;
    let right = alone(desk.public(), &octets);
    assert_right(&rt, alloc, &mut desk, &mut disk, right)?;
    let later = Case {
        version: 4,
        ..right
    };
    let why = AuditError::OtherPublication;
    assert_refused(&rt, alloc, &mut desk, &mut disk, later, why)?;
    let other_key = alone([0; 56], &octets);
    assert_refused(
        &rt,
        alloc,
        &mut desk,
        &mut disk,
        other_key,
        AuditError::OtherKey,
    )
}

/// Returns the reply without the leaf of node 4; the digest of this leaf is in the cover instead.
fn without_four(alloc: Global, octets: &[u8]) -> Result<Vec<u8>, Fail> {
    let mut cover = [0; 36];
    cover[3] = 2;
    cover[35] = 118;
    let covered = spliced(alloc, octets, 1571, 1575, &cover)?;
    let fewer = spliced(alloc, &covered, 1530, 1567, &[])?;
    spliced(alloc, &fewer, 1415, 1419, &[0, 0, 0, 3])
}

#[test]
fn a_reply_without_a_leaf_is_refused(rt: HostRuntime) -> Result<(), Fail> {
    let alloc = rt.alloc();
    let (mut desk, mut disk) = owner(alloc)?;
    let octets = signed_reply(alloc, &mut desk, &mut disk, 3)?;
    let fewer = without_four(alloc, &octets)?;
    let case = alone(desk.public(), &fewer);
    let why = AuditError::Refused(CheckError::Judged(Refusal::MissingTuple(4)));
    assert_refused(&rt, alloc, &mut desk, &mut disk, case, why)
}

/// Asserts that a finding consists of the two texts of node 2.
fn assert_second(rt: &impl Abort, found: &Found) {
    match found {
        Ok(Finding::Collision { left, right }) => {
            assert_octets(rt, left.as_slice(), &SECOND);
            assert_octets(rt, right.as_slice(), &SECOND_MOVED);
        }
        _ => assert!(rt; false),
    }
}

#[test]
fn a_moved_node_with_the_same_digest_is_a_collision(rt: HostRuntime) -> Result<(), Fail> {
    let alloc = rt.alloc();
    let (mut desk, mut disk) = owner(alloc)?;
    let octets = signed_reply(alloc, &mut desk, &mut disk, 3)?;
    let moved = spliced(alloc, &octets, 1470, 1475, &[0, 0, 0, 0, 10])?;
    let case = alone(desk.public(), &moved);
    let found = audited(alloc, &mut desk, &mut disk, case)?;
    assert_second(&rt, &found);
    Ok(())
}

#[test]
fn a_header_that_the_desk_never_signed_is_forged(rt: HostRuntime) -> Result<(), Fail> {
    let alloc = rt.alloc();
    let (mut desk, mut disk) = owner(alloc)?;
    let text = header_of(alloc, 9)?.write();
    let (key, signature) = signed_past(alloc, 0, &text)?;
    let octets = reply(alloc, 9, signature.to_vec(alloc)?)?;
    let case = alone(key, &octets);
    assert_forged(&rt, alloc, &mut desk, &mut disk, case, &text, &signature)
}
