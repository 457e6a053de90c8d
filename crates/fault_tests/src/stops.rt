//! The disk stops at each call of `key`, `publish` and `succeed`, in turn, and a crash leaves each of four images.

use crate::disks::{MANY, disk_of, image_of, stopped};
use crate::owner::{Command, done, played};
use command_files::{Conclusion, Fault};
use mem_io::Pick;
use std::alloc::Global;
use std::process::Abort;
use std::test::Fail;

/// The lines of `desk` for the two public keys of kind h5 that an independent implementation makes, from the zeros
/// and from the octets with the value 1. No slot is spent.
const FIRST: &[u8] =
    b"000000050000000400000000000000000000000000000000829887511085dc8b9946d97b20163fe2ab4385e734979f535139cabe33cd694f 31 31\n";

const NEXT: &[u8] =
    b"000000050000000401010101010101010101010101010101599d16861dc9aacdc40b4275991c60ebdf9decfb219eb795df51d5c9a347762a 31 31\n";

/// The command that publishes.
const PUBLISH: Command = Command::Publish(3);

/// Returns the image of a disk after a command, which must succeed over this image.
fn image_after(
    rt: &impl Abort,
    alloc: Global,
    image: &[u8],
    command: Command,
) -> Result<Vec<u8>, Fail> {
    let mut disk = disk_of(alloc, image, MANY)?;
    done(rt, alloc, &mut disk, command)?;
    image_of(alloc, &mut disk)
}

/// Returns the offset of the gate that a command opens last: the gate of the key, of its second slot, or of its
/// last slot.
fn gate_of(command: Command) -> usize {
    match command {
        Command::Key => 0,
        Command::Publish(_) => 64 + 128,
        _ => 64 + 128 * 31,
    }
}

/// Tests whether that gate is open.
fn is_open(image: &[u8], command: Command) -> bool {
    image.len() >= 64 && matches!(image.get(gate_of(command)), Some(1..))
}

/// Publishes over an image. The area that begins at this offset must have a free slot.
fn publishes(rt: &impl Abort, alloc: Global, image: &[u8], area: u16) -> Result<(), Fail> {
    let mut disk = disk_of(alloc, image, MANY)?;
    let publication = done(rt, alloc, &mut disk, PUBLISH)?;
    let slot = publication.get(113).copied().unwrap_or(255);
    let gate = usize::from(area) + 64 + 128 * usize::from(slot);
    assert_eq!(rt; image.get(gate).copied(), Some(0), "slot {slot}");
    Ok(())
}

/// Returns the output of `desk` over an image, which is empty if the image holds no key.
fn desk_line(rt: &impl Abort, alloc: Global, image: &[u8]) -> Result<Vec<u8>, Fail> {
    let mut disk = disk_of(alloc, image, MANY)?;
    let (end, line) = played(alloc, &mut disk, Command::Desk)?;
    let wanted = if line.is_empty() {
        Err(Fault::NoKey)
    } else {
        Ok(Conclusion::Done)
    };
    assert_eq!(rt; end, wanted);
    Ok(line)
}

/// Asserts that an image holds this key without a spent slot, or no key.
fn has_key(rt: &impl Abort, alloc: Global, image: &[u8], key: &[u8]) -> Result<(), Fail> {
    let line = desk_line(rt, alloc, image)?;
    assert_eq!(rt; line.as_slice(), key);
    Ok(())
}

/// Asserts that a stopped `key` left the whole key or no key, as the key's gate tells, and that the next command
/// succeeds.
fn look_at_key(rt: &impl Abort, alloc: Global, image: &[u8]) -> Result<(), Fail> {
    if is_open(image, Command::Key) {
        has_key(rt, alloc, image, FIRST)?;
        return publishes(rt, alloc, image, 0);
    }
    has_key(rt, alloc, image, b"")?;
    let made = image_after(rt, alloc, image, Command::Key)?;
    has_key(rt, alloc, &made, FIRST)
}

/// Asserts that a stopped `succeed` left the next key or the previous one, as the gate of the last slot tells, and
/// that the next command succeeds.
fn look_at_next(rt: &impl Abort, alloc: Global, image: &[u8]) -> Result<(), Fail> {
    if is_open(image, Command::Succeed) {
        has_key(rt, alloc, image, NEXT)?;
        return publishes(rt, alloc, image, 4160);
    }
    has_key(rt, alloc, image, FIRST)?;
    publishes(rt, alloc, image, 0)?;
    let made = image_after(rt, alloc, image, Command::Succeed)?;
    has_key(rt, alloc, &made, NEXT)
}

/// Checks the image that a stopped command left.
fn look(rt: &impl Abort, alloc: Global, command: Command, image: &[u8]) -> Result<(), Fail> {
    match command {
        Command::Key => look_at_key(rt, alloc, image),
        Command::Succeed => look_at_next(rt, alloc, image),
        _ => publishes(rt, alloc, image, 0),
    }
}

/// Checks an image, unless it was checked before.
fn look_once(
    rt: &impl Abort,
    alloc: Global,
    command: Command,
    image: Vec<u8>,
    seen: &mut Vec<Vec<u8>>,
) -> Result<(), Fail> {
    if seen.contains(&image) {
        return Ok(());
    }
    look(rt, alloc, command, &image)?;
    seen.push(image)?;
    Ok(())
}

/// Asserts that after this many calls a crash of this kind leaves the gate open, or leaves it closed.
fn leaves(
    rt: &impl Abort,
    alloc: Global,
    entry: &[u8],
    command: Command,
    calls: u64,
    pick: Pick,
    gate: bool,
    seen: &mut Vec<Vec<u8>>,
) -> Result<(), Fail> {
    let (_, image) = stopped(rt, alloc, entry, command, calls, pick)?;
    assert_eq!(rt;
        is_open(&image, command),
        gate,
        "{pick:?} after {calls} calls"
    );
    look_once(rt, alloc, command, image, seen)
}

/// Stops a command after this many calls. Returns whether the command ended, and whether its gate had been written.
/// If it had, asserts that a crash leaves the gate open, unless the write is lost or turned to zeros.
fn stop(
    rt: &impl Abort,
    alloc: Global,
    entry: &[u8],
    command: Command,
    calls: u64,
    seen: &mut Vec<Vec<u8>>,
) -> Result<(bool, bool), Fail> {
    let (is_done, image) = stopped(rt, alloc, entry, command, calls, Pick::New)?;
    let gate = is_open(&image, command);
    if image.as_slice() != entry {
        look_once(rt, alloc, command, image, seen)?;
        leaves(rt, alloc, entry, command, calls, Pick::Old, is_done, seen)?;
        leaves(
            rt,
            alloc,
            entry,
            command,
            calls,
            Pick::Fill(0),
            is_done,
            seen,
        )?;
        leaves(
            rt,
            alloc,
            entry,
            command,
            calls,
            Pick::Fill(0x7f),
            gate,
            seen,
        )?;
    }
    Ok((is_done, gate))
}

/// Checks an image, and stops a command over it after no call, after one call, and so on, until the command ends.
/// Returns after how many calls its gate had been written, and after how many it ended.
fn stops(
    rt: &impl Abort,
    alloc: Global,
    entry: &[u8],
    command: Command,
) -> Result<(u64, u64), Fail> {
    let mut seen: Vec<Vec<u8>> = Vec::new(alloc);
    look_once(rt, alloc, command, entry.to_vec(alloc)?, &mut seen)?;
    let mut first = MANY;
    for calls in 0..MANY {
        let (is_done, gate) = stop(rt, alloc, entry, command, calls, &mut seen)?;
        if gate {
            first = first.min(calls);
        }
        if is_done {
            return Ok((first, calls));
        }
    }
    Err(Fail::from("no run ends without a stop"))
}

#[test]
fn a_stopped_key_is_whole_or_not_there(rt: HostRuntime) -> Result<(), Fail> {
    let alloc = rt.alloc();
    let (gate, calls) = stops(&rt, alloc, &[], Command::Key)?;
    assert_eq!(rt; (gate, calls), (9, 10));
    Ok(())
}

#[test]
fn a_stopped_publish_uses_its_slot_or_none(rt: HostRuntime) -> Result<(), Fail> {
    let alloc = rt.alloc();
    let key = image_after(&rt, alloc, &[], Command::Key)?;
    let entry = image_after(&rt, alloc, &key, PUBLISH)?;
    let (gate, calls) = stops(&rt, alloc, &entry, PUBLISH)?;
    assert_eq!(rt; gate.saturating_add(1), calls);
    Ok(())
}

#[test]
fn a_stopped_next_key_is_whole_or_not_there(rt: HostRuntime) -> Result<(), Fail> {
    let alloc = rt.alloc();
    let entry = image_after(&rt, alloc, &[], Command::Key)?;
    let (gate, calls) = stops(&rt, alloc, &entry, Command::Succeed)?;
    assert_eq!(rt; gate.saturating_add(1), calls);
    Ok(())
}
