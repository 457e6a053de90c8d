ghost use Rattle.std.specs.Prelude.{◌≡◌, ◌≢◌, length, slice_set, IfOk};
ghost use Rattle.key_desk.specs.Desk.{Fits, KeepsKnown, KnowsSpent, KnowsTexted, count_at, slot_here, spent_slot, spent_text, texted_slot, texted_text};
ghost use Rattle.desk_areas.specs.declared.area.Count.TheVariants.{Free, Out, Written};
ghost use Rattle.lms_tree.specs.Signatures.{height_of, seal_len};

use crate::asserts::{assert_octets, assert_same};
use key_desk::{Desk, DeskError, Spent, StartError, SucceedError, Texted, Ticket};
use lms_tree::{link_text, verify};
use mem_io::{MemDisk, Pick};
use road_io::Disk;
use std::alloc::Global;
use std::process::Abort;
use std::test::Fail;

// Makes a desk over a new key of zero octets, and the desk's disk. If `stop` is given, the disk's calls from this
// number on fail.
fn owner(alloc: Global, stop: Option<u64>) -> Result<(Desk, MemDisk), Fail>
    ensures fits { IfOk result (λ both. Fits ⟦<MemDisk as Disk>⟧ both.0 both.1) }
    ensures kind { IfOk result (λ both. both.0.key.kind ≡ 5) }
{
    let mut disk = MemDisk::new(alloc, 8320, 65_536, Vec::new(alloc), stop)?;
    let desk = Desk::create(alloc, &mut disk, 5, &[0; 48])?;
    Ok((desk, disk))
}

// Returns the disk of a signing that stops after three of its four calls to the disk and releases nothing.
fn stopped(rt: &impl Abort, alloc: Global) -> Result<MemDisk, Fail> {
    // Making the key takes ten calls to the disk.
    let (mut desk, mut disk) = owner(alloc, Some(13))?;
    let mut out = [0; 1292];
    let first = desk.sign(&mut disk, b"stopped", &mut out);
    assert_same(rt, &first, &Err(DeskError::DiskFault));
    let second = desk.sign(&mut disk, b"later", &mut out);
    assert_same(rt, &second, &Err(DeskError::Closed));
    assert_octets(rt, &out, &[0; 1292]);
    Ok(disk)
}

// After a crash of such a disk, returns the slot that signs the next text, and whether the stopped text is signed.
fn next_after(alloc: Global, disk: MemDisk, pick: Pick) -> Result<(u32, bool), Fail> {
    let mut disk = disk.crash(pick);
    let mut desk = Desk::reopen(alloc, &mut disk)?;
    let is_signed = desk.signed(&mut disk, b"stopped")?;
    let mut out = Vec::from_elem(alloc, 0u8, desk.sig_len() as usize)?;
    let slot = desk.sign(&mut disk, b"later", &mut out)?;
    Ok((slot, is_signed))
}

// After a signing that stopped and a crash, returns the slot that signs the next text, and whether the stopped text
// is signed.
fn next_after_a_stop(rt: &impl Abort, alloc: Global, pick: Pick) -> Result<(u32, bool), Fail> {
    let disk = stopped(rt, alloc)?;
    next_after(alloc, disk, pick)
}

// Returns the slot that signs a text, and whether the text is signed after a crash. This is the example of the
// crate `key_desk`.
fn signed_before_a_crash(alloc: Global) -> Result<(u32, bool), Fail> {
    // Any `Disk` can be used, for example one over a file. This disk is in memory.
    let mut disk = MemDisk::new(alloc, 4160, 65_536, Vec::new(alloc), None)?;
    let mut desk = Desk::create(alloc, &mut disk, 5, &[0; 48])?;
    let mut signature = [0; 1292];
    let slot = desk.sign(&mut disk, b"version 1", &mut signature)?;
    verify(&desk.public(), b"version 1", &signature)?;
    // The text is still signed after a crash, and its one-time key signs no other text.
    let mut disk = disk.crash(Pick::Old);
    let mut desk = Desk::reopen(alloc, &mut disk)?;
    let is_signed = desk.signed(&mut disk, b"version 1")?;
    Ok((slot, is_signed))
}

#[test]
fn a_signed_text_stands_after_a_crash(rt: HostRuntime) -> Result<(), Fail> {
    let found = signed_before_a_crash(rt.alloc())?;
    assert_same(&rt, &found, &(0, true));
    Ok(())
}

#[test]
fn a_stopped_signing_uses_its_slot_or_none(rt: HostRuntime) -> Result<(), Fail> {
    let old = next_after_a_stop(&rt, rt.alloc(), Pick::Old)?;
    assert_same(&rt, &old, &(0, false));
    let new = next_after_a_stop(&rt, rt.alloc(), Pick::New)?;
    assert_same(&rt, &new, &(1, true));
    let filled = next_after_a_stop(&rt, rt.alloc(), Pick::Fill(0x7f))?;
    assert_same(&rt, &filled, &(1, true));
    Ok(())
}

// Signs as many texts as given, and returns the last slot.
fn sign_often<D: Disk>(
    desk: &mut Desk,
    disk: &mut D,
    out: &mut [u8],
    times: u32,
) -> Result<u32, DeskError>
    requires fits { Fits D.Disk desk.old disk.old }
    requires room { length out.old ≡ seal_len (height_of desk.old.key.kind) }
    ensures fits { Fits D.Disk desk.new disk.new }
    ensures same { desk.new.key ≡ desk.old.key }
{
    let mut last = 0;
    for _ in 0..times {
        last = desk.sign(disk, b"text", out)?;
    }
    Ok(last)
}

#[test]
fn a_key_of_height_5_signs_31_texts(rt: HostRuntime) -> Result<(), Fail> {
    let (mut desk, mut disk) = owner(rt.alloc(), None)?;
    let mut out = [0; 1292];
    let last = sign_often(&mut desk, &mut disk, &mut out, 31)?;
    assert_same(&rt, &last, &30);
    assert_same(&rt, &verify(&desk.public(), b"text", &out), &Ok(()));
    let next = sign_often(&mut desk, &mut disk, &mut out, 1);
    assert_same(&rt, &next, &Err(DeskError::KeysUsedUp));
    Ok(())
}

#[test]
fn a_ticket_that_was_given_back_is_given_again(rt: HostRuntime) -> Result<(), Fail> {
    let (mut desk, _) = owner(rt.alloc(), None)?;
    for _ in 0..2 {
        let ticket = desk.ticket()?;
        let slot = ticket.slot();
        ticket.give_back(&mut desk);
        assert_same(&rt, &slot, &0);
    }
    Ok(())
}

// Takes a ticket.
fn take<D: Disk>(rt: &impl Abort, desk: &mut Desk, disk: &D) -> Ticket
    requires fits { Fits D.Disk desk.old disk.now }
    ensures fits { Fits D.Disk desk.new disk.now }
    ensures out { (count_at desk.old result ≡ Free) ×
        (desk.new ≡ record desk.old { counts = slice_set desk.old.counts result Out }) }
{
    let _disk = disk;
    match desk.ticket() {
        Ok(ticket) => ticket,
        Err(_) => panic!(rt; "no slot is free"),
    }
}

// Takes two tickets.
fn take_two<D: Disk>(rt: &impl Abort, desk: &mut Desk, disk: &D) -> (Ticket, Ticket)
    requires fits { Fits D.Disk desk.old disk.now }
    ensures fits { Fits D.Disk desk.new disk.now }
    ensures first { count_at desk.new result.0 ≡ Out }
    ensures second { count_at desk.new result.1 ≡ Out }
    ensures differ { result.0 ≢ result.1 }
    ensures same { desk.new.key ≡ desk.old.key }
{
    let first = take(rt, desk, disk);
    let second = take(rt, desk, disk);
    (first, second)
}

// Writes a text into the slot of a ticket.
fn put<D: Disk>(
    rt: &impl Abort,
    ticket: Ticket,
    desk: &mut Desk,
    disk: &mut D,
    text: &[u8; 3],
) -> Texted
    requires fits { Fits D.Disk desk.old disk.old }
    requires out { count_at desk.old ticket ≡ Out }
    ensures fits { Fits D.Disk desk.new disk.new }
    ensures slot { texted_slot result ≡ slot_here desk.old ticket }
    ensures knows { KnowsTexted D.Disk desk.new disk.new (texted_slot result) (texted_text result) }
    ensures counts { desk.new ≡ record desk.old {
      counts = slice_set desk.old.counts ticket Written;
    } }
    ensures others { KeepsKnown D.Disk
        (slot_here desk.old ticket) desk.old disk.old desk.new disk.new }
{
    match ticket.write(desk, disk, text) {
        Ok(texted) => texted,
        Err(_) => panic!(rt; "the disk fails"),
    }
}

// Writes the texts of two tickets that are held at the same time.
fn put_two<D: Disk>(
    rt: &impl Abort,
    first: Ticket,
    second: Ticket,
    desk: &mut Desk,
    disk: &mut D,
) -> (Texted, Texted)
    requires fits { Fits D.Disk desk.old disk.old }
    requires first { count_at desk.old first ≡ Out }
    requires second { count_at desk.old second ≡ Out }
    requires differ { first ≢ second }
    ensures fits { Fits D.Disk desk.new disk.new }
    ensures first { KnowsTexted D.Disk desk.new disk.new (texted_slot result.0)
        (texted_text result.0) }
    ensures second { KnowsTexted D.Disk desk.new disk.new (texted_slot result.1)
        (texted_text result.1) }
    ensures differ { texted_slot result.0 ≢ texted_slot result.1 }
    ensures same { desk.new.key ≡ desk.old.key }
{
    let one = put(rt, first, desk, disk, b"one");
    let two = put(rt, second, desk, disk, b"two");
    (one, two)
}

// Spends the slot of a text.
fn spend<D: Disk>(rt: &impl Abort, texted: Texted, desk: &mut Desk, disk: &mut D) -> Spent
    requires fits { Fits D.Disk desk.old disk.old }
    requires knows { KnowsTexted D.Disk desk.old disk.old (texted_slot texted)
        (texted_text texted) }
    ensures fits { Fits D.Disk desk.new disk.new }
    ensures slot { spent_slot result ≡ texted_slot texted }
    ensures knows { KnowsSpent D.Disk desk.new disk.new (spent_slot result) (spent_text result) }
    ensures others { KeepsKnown D.Disk (texted_slot texted) desk.old disk.old desk.new disk.new }
    ensures same { desk.new.key ≡ desk.old.key }
{
    match texted.spend(desk, disk) {
        Ok(spent) => spent,
        Err(_) => panic!(rt; "the disk fails"),
    }
}

// Spends the slots of two texts, and seals the second one first.
fn seal_two<D: Disk>(
    rt: &impl Abort,
    first: Texted,
    second: Texted,
    desk: &mut Desk,
    disk: &mut D,
    out: &mut [u8],
)
    requires fits { Fits D.Disk desk.old disk.old }
    requires first { KnowsTexted D.Disk desk.old disk.old (texted_slot first) (texted_text first) }
    requires second { KnowsTexted D.Disk desk.old disk.old (texted_slot second)
        (texted_text second) }
    requires differ { texted_slot first ≢ texted_slot second }
    requires room { length out.old ≡ seal_len (height_of desk.old.key.kind) }
{
    let first = spend(rt, first, desk, disk);
    let second = spend(rt, second, desk, disk);
    assert_same(rt, &second.seal(desk, disk, out), &1);
    assert_same(rt, &first.seal(desk, disk, out), &0);
}

// After a crash, tests for each of two texts whether it is signed on a disk.
fn are_signed(alloc: Global, disk: MemDisk) -> Result<(bool, bool), Fail> {
    let mut disk = disk.crash(Pick::Old);
    let mut desk = Desk::reopen(alloc, &mut disk)?;
    let one = desk.signed(&mut disk, b"one")?;
    let two = desk.signed(&mut disk, b"two")?;
    Ok((one, two))
}

#[test]
fn two_tickets_stand_side_by_side(rt: HostRuntime) -> Result<(), Fail> {
    let (mut desk, mut disk) = owner(rt.alloc(), None)?;
    let (first, second) = take_two(&rt, &mut desk, &disk);
    assert_same(&rt, &first.slot(), &0);
    assert_same(&rt, &second.slot(), &1);
    let (first, second) = put_two(&rt, first, second, &mut desk, &mut disk);
    seal_two(&rt, first, second, &mut desk, &mut disk, &mut [0; 1292]);
    assert_same(&rt, &are_signed(rt.alloc(), disk)?, &(true, true));
    Ok(())
}

#[test]
fn a_key_of_an_unknown_kind_is_not_opened(rt: HostRuntime) -> Result<(), Fail> {
    let alloc = rt.alloc();
    let mut disk = MemDisk::new(alloc, 4160, 65_536, Vec::new(alloc), None)?;
    let mut block = [0; 64];
    block[0] = 1;
    block[4] = 9;
    disk.write_at(0, &block)?;
    let opened = Desk::reopen(alloc, &mut disk);
    assert!(rt; matches!(&opened, Err(StartError::BadBlock)));
    Ok(())
}

// Returns the disk of an owner whose first key has signed 31 texts, and the public key of the next key, before a
// crash.
fn followed(alloc: Global) -> Result<(MemDisk, [u8; 56]), Fail> {
    let (mut desk, mut disk) = owner(alloc, None)?;
    sign_often(&mut desk, &mut disk, &mut [0; 1292], 31)?;
    let next = Desk::succeed(alloc, &mut disk, 5, &[1; 48])?;
    Ok((disk, next.public()))
}

#[test]
fn the_last_slot_signs_the_next_key(rt: HostRuntime) -> Result<(), Fail> {
    let alloc = rt.alloc();
    let (disk, public) = followed(alloc)?;
    let mut disk = disk.crash(Pick::Old);
    assert_same(&rt, &disk.len(), &Ok(8320));
    let mut desk = Desk::reopen(alloc, &mut disk)?;
    assert_octets(&rt, &desk.public(), &public);
    let is_signed = desk.signed(&mut disk, &link_text(&public));
    assert_same(&rt, &is_signed, &Ok(true));
    Ok(())
}

#[test]
fn a_secret_makes_one_key(rt: HostRuntime) -> Result<(), Fail> {
    let alloc = rt.alloc();
    let (_, mut disk) = owner(alloc, None)?;
    let next = Desk::succeed(alloc, &mut disk, 5, &[0; 48]);
    assert!(rt; matches!(&next, Err(SucceedError::SameSecret)));
    Ok(())
}
