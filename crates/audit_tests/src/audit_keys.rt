//! Facts that no clause states: replies under each key of an owner are audited along the key's chain; a link that
//! was signed without the desk is forged; on an older disk, whose last one-time key signed a header, that header is
//! signed.
ghost use Rattle.std.specs.Prelude.{IfOk};
ghost use Rattle.key_desk.specs.Desk.{Fits};

use crate::audit::{Case, assert_forged, assert_refused, assert_right, reply, signed_reply};
use crate::chains::link_to;
use crate::owners::{header_of, owner, signed_past};
use key_desk::{Desk, SucceedError};
use lms_tree::{SealError, link_text};
use mem_io::MemDisk;
use road_io::Disk;
use route_audit::AuditError;
use route_client::CheckError;
use std::alloc::Global;
use std::process::Abort;
use std::test::Fail;

/// Returns the first public key of an owner, and a reply that it signed.
fn first_reply(alloc: Global, disk: &mut MemDisk) -> Result<([u8; 56], Vec<u8>), Fail> {
    let mut desk = Desk::create(alloc, disk, 5, &[0; 48])?;
    let reply = signed_reply(alloc, &mut desk, disk, 3)?;
    Ok((desk.public(), reply))
}

/// Opens the desk over the next key of an owner.
fn next_desk(alloc: Global, disk: &mut MemDisk) -> Result<Desk, SucceedError>
    ensures { IfOk result (λ desk. Fits ⟦<MemDisk as Disk>⟧ desk disk.new) }
{
    Desk::succeed(alloc, disk, 5, &[1; 48])
}

#[test]
fn a_reply_of_each_key_is_right(rt: HostRuntime) -> Result<(), Fail> {
    let alloc = rt.alloc();
    let mut disk = MemDisk::new(alloc, 8320, 100_000, Vec::new(alloc), None)?;
    let (key, old) = first_reply(alloc, &mut disk)?;
    let mut desk = next_desk(alloc, &mut disk)?;
    let new = signed_reply(alloc, &mut desk, &mut disk, 3)?;
    let chain = desk.links(alloc)?;
    let first = Case {
        key,
        chain: &[],
        octets: &old,
        version: 3,
    };
    assert_right(&rt, alloc, &mut desk, &mut disk, first)?;
    let along = Case {
        key,
        chain: &chain,
        octets: &new,
        version: 3,
    };
    assert_right(&rt, alloc, &mut desk, &mut disk, along)
}

#[test]
fn a_later_key_is_refused_without_its_chain(rt: HostRuntime) -> Result<(), Fail> {
    let alloc = rt.alloc();
    let mut disk = MemDisk::new(alloc, 8320, 100_000, Vec::new(alloc), None)?;
    let (key, _) = first_reply(alloc, &mut disk)?;
    let mut desk = next_desk(alloc, &mut disk)?;
    let new = signed_reply(alloc, &mut desk, &mut disk, 3)?;
    let without = Case {
        key,
        chain: &[],
        octets: &new,
        version: 3,
    };
    let no_match = AuditError::Refused(CheckError::BadSignature(SealError::NoMatch));
    assert_refused(&rt, alloc, &mut desk, &mut disk, without, no_match)
}

#[test]
fn a_link_past_the_desk_is_forged(rt: HostRuntime) -> Result<(), Fail> {
    let alloc = rt.alloc();
    let (mut desk, mut disk) = owner(alloc)?;
    let header = header_of(alloc, 3)?.write();
    let (stranger, signature) = signed_past(alloc, 7, &header)?;
    let octets = reply(alloc, 3, signature)?;
    let (key, link) = link_to(alloc, 0, stranger)?;
    let chain = [link];
    let case = Case {
        key,
        chain: &chain,
        octets: &octets,
        version: 3,
    };
    let seal = chain[0].signature.as_slice();
    assert_forged(
        &rt,
        alloc,
        &mut desk,
        &mut disk,
        case,
        &link_text(&stranger),
        seal,
    )
}

/// Returns 32 slots with open gates, each with a header whose version has the slot's number as its last octet.
fn slots(alloc: Global, mut header: [u8; 104]) -> Result<Vec<u8>, Fail> {
    let mut octets = Vec::new(alloc);
    for slot in 0..32u8 {
        header[15] = slot;
        octets.extend_from_slice(&[1, 104])?;
        octets.extend_from_slice(&header)?;
        octets.extend_from_slice(&[0; 22])?;
    }
    Ok(octets)
}

/// Returns an older disk, whose key of zero octets has signed a header in each of its slots.
fn disk_of_before(rt: &impl Abort, alloc: Global, header: [u8; 104]) -> Result<MemDisk, Fail> {
    let (_, mut disk) = owner(alloc)?;
    let len = disk.len()?;
    assert!(rt; 64 <= len);
    disk.write_at(64, &slots(alloc, header)?)?;
    disk.sync()?;
    Ok(disk)
}

#[test]
fn a_header_in_the_last_slot_of_before_is_signed(rt: HostRuntime) -> Result<(), Fail> {
    let alloc = rt.alloc();
    let header = header_of(alloc, 31)?.write();
    let mut disk = disk_of_before(&rt, alloc, header)?;
    let mut desk = Desk::reopen(alloc, &mut disk)?;
    let (key, signature) = signed_past(alloc, 0, &header)?;
    let octets = reply(alloc, 31, signature)?;
    let case = Case {
        key,
        chain: &[],
        octets: &octets,
        version: 31,
    };
    assert_right(&rt, alloc, &mut desk, &mut disk, case)
}

#[test]
fn no_key_follows_where_the_last_slot_of_before_is_spent(rt: HostRuntime) -> Result<(), Fail> {
    let alloc = rt.alloc();
    let header = header_of(alloc, 31)?.write();
    let mut disk = disk_of_before(&rt, alloc, header)?;
    let next = Desk::succeed(alloc, &mut disk, 5, &[1; 48]);
    assert!(rt; matches!(&next, Err(SucceedError::NoSuccession)));
    Ok(())
}
