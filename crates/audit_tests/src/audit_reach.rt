//! Facts that no clause states: a reply to a range query over a map of five nodes is right, belongs to another
//! publication, is refused, or shows two leaves with the same digest.
ghost use Rattle.std.specs.Prelude.{◌≤◌, length};
ghost use Rattle.key_desk.specs.Desk.{Fits};

use crate::asserts::{assert_octets, assert_same};
use crate::octets::spliced;
use crate::owners::{SECOND, SECOND_MOVED, installed, owner, publication, sealed};
use key_desk::Desk;
use near_proof::{AuditError, Finding, NearError, NearQuery, answer_near, audit_near};
use octet_text::Toy;
use road_io::Disk;
use route_server::Held;
use std::alloc::Global;
use std::process::Abort;
use std::test::Fail;

const ASKED: NearQuery = NearQuery { from: 1, radius: 4 };

/// The result of an audit.
type Found = Result<Finding, AuditError<NearError>>;

/// Returns the octets of the reply over the held book.
fn answer(alloc: Global, held: &Held<Toy>) -> Result<Vec<u8>, Fail> {
    if held.signature().len() > 1452 {
        return Err(Fail::from("a long signature"));
    }
    Ok(answer_near(alloc, held, ASKED)?)
}

/// Returns the octets of the reply over the publication of version 3 with this signature.
fn reply(alloc: Global, signature: Vec<u8>) -> Result<Vec<u8>, Fail> {
    let held = installed(alloc, 3, signature)?;
    answer(alloc, &held)
}

/// Returns the same reply, signed by the desk.
fn signed_reply<D: Disk>(alloc: Global, desk: &mut Desk, disk: &mut D) -> Result<Vec<u8>, Fail>
    requires { Fits D.Disk desk.old disk.old }
    ensures { Fits D.Disk desk.new disk.new }
{
    let signature = sealed(alloc, desk, disk, 3)?;
    reply(alloc, signature)
}

/// Audits octets under the desk's key, against the publication of a version.
fn audited<D: Disk>(
    alloc: Global,
    desk: &mut Desk,
    disk: &mut D,
    octets: &[u8],
    query: NearQuery,
    version: u64,
) -> Result<Found, Fail>
    requires { Fits D.Disk desk.old disk.old }
    ensures { Fits D.Disk desk.new disk.new }
{
    if octets.len() > 10_000 {
        return Err(Fail::from("many octets"));
    }
    let public = desk.public();
    let publication = publication(alloc, version, Vec::new(alloc))?;
    Ok(audit_near::<Toy, D>(alloc, &public, &[], octets, query, publication, desk, disk))
}

/// Asserts that octets are refused for this reason.
fn assert_refused<D: Disk>(
    rt: &impl Abort,
    alloc: Global,
    desk: &mut Desk,
    disk: &mut D,
    octets: &[u8],
    query: NearQuery,
    version: u64,
    why: AuditError<NearError>,
) -> Result<(), Fail>
    requires { Fits D.Disk desk.old disk.old }
    ensures { Fits D.Disk desk.new disk.new }
{
    let found = audited(alloc, desk, disk, octets, query, version)?;
    assert_same(rt, &found.err(), &Some(why));
    Ok(())
}

#[test]
fn a_reply_is_right_or_refused_or_of_another_publication(rt: HostRuntime) -> Result<(), Fail> {
    let alloc = rt.alloc();
    let (mut desk, mut disk) = owner(alloc)?;
    let octets = signed_reply(alloc, &mut desk, &mut disk)?;
    let right = audited(alloc, &mut desk, &mut disk, &octets, ASKED, 3)?;
    assert!(rt; matches!(&right, Ok(Finding::Right)));
    let other = AuditError::OtherPublication;
    assert_refused(&rt, alloc, &mut desk, &mut disk, &octets, ASKED, 4, other)?;
    let farther = NearQuery { from: 1, radius: 9 };
    let missing = AuditError::Refused(NearError::MissingTuple(3));
    assert_refused(
        &rt, alloc, &mut desk, &mut disk, &octets, farther, 3, missing,
    )
}

/// Asserts that a finding consists of the two texts of node 2.
fn assert_second(rt: &impl Abort, found: &Found) {
    match found {
        Ok(Finding::Collision { left, right }) => {
            assert_octets(rt, left.as_slice(), &SECOND);
            assert_octets(rt, right.as_slice(), &SECOND_MOVED);
        }
        _ => assert!(rt; false),
    }
}

#[test]
fn a_moved_node_with_the_same_digest_is_a_collision(rt: HostRuntime) -> Result<(), Fail> {
    let alloc = rt.alloc();
    let (mut desk, mut disk) = owner(alloc)?;
    let octets = signed_reply(alloc, &mut desk, &mut disk)?;
    let moved = spliced(alloc, &octets, 1457, 1462, &[0, 0, 0, 0, 10])?;
    let found = audited(alloc, &mut desk, &mut disk, &moved, ASKED, 3)?;
    assert_second(&rt, &found);
    Ok(())
}
