//! The command `reduce`, for headers that were signed without the desk, and for a header that the desk signed.

use crate::asserts::{assert_octets, assert_same};
use crate::owner::published;
use audit_commands::reduce;
use command_files::{Conclusion, Fault};
use lms_ots::{digits, randomiser};
use lms_tree::Key;
use mem_io::{MemDisk, MemLibrary, MemSink};
use octet_text::array_at;
use std::alloc::Global;
use std::process::Abort;
use std::test::Fail;

/// The owner's files and disk, and the octets of the publication that the desk signed.
#[derive(Drop)]
struct World {
    library: MemLibrary,
    disk: MemDisk,
    publication: Vec<u8>,
}

/// Makes an owner whose first slot has signed version 3.
fn owner(alloc: Global) -> Result<World, Fail> {
    let owner = published(alloc, 3)?;
    let mut library = MemLibrary::new(alloc, Vec::new(alloc));
    put_hex(alloc, &mut library, "key", &owner.key)?;
    Ok(World {
        library,
        disk: owner.disk,
        publication: owner.text,
    })
}

/// Stores the hex file of octets under this name.
fn put_hex(alloc: Global, library: &mut MemLibrary, name: &str, octets: &[u8]) -> Result<(), Fail> {
    let digits = hex::encode(alloc, octets)?;
    library.put(name, digits.as_bytes())?;
    Ok(())
}

/// Runs the command over the world's files with a sink, and returns how the command ends.
fn reduced(alloc: Global, world: &mut World, sink: &mut MemSink) -> Result<Conclusion, Fault> {
    reduce(
        alloc,
        &mut world.library,
        sink,
        &mut world.disk,
        "key",
        "text",
        "signature",
    )
}

/// Asserts the line of a reduced signature of a text, and how the command ends.
fn assert_told(
    rt: &impl Abort,
    alloc: Global,
    world: &mut World,
    (text, signature): (&[u8], &[u8]),
    line: &[u8],
    end: Result<Conclusion, Fault>,
) -> Result<(), Fail> {
    put_hex(alloc, &mut world.library, "text", text)?;
    put_hex(alloc, &mut world.library, "signature", signature)?;
    let mut sink = MemSink::new(alloc, 4096, 4096, Vec::new(alloc))?;
    assert_same(rt, &reduced(alloc, world, &mut sink), &end);
    assert_octets(rt, sink.taken(), line);
    Ok(())
}

/// Signs a text with a slot of the owner's key, without the desk.
fn signed_past(alloc: Global, slot: u32, text: &[u8]) -> Result<[u8; 1292], Fail> {
    let key = Key::build(alloc, 5, &[0; 16], &[0; 32])?;
    let mut signature = [0; 1292];
    if slot < 32 {
        key.sign_into(slot, text, &mut signature);
    }
    Ok(signature)
}

/// Returns the line of the value that a signature of a text shows in one of its chains.
fn chain_line(
    alloc: Global,
    slot: u32,
    at: usize,
    text: &[u8],
    signature: &[u8; 1292],
) -> Result<String, Fail> {
    if at >= 34 {
        return Err(Fail::from("a signature has 34 chains"));
    }
    let step = digits(&[0; 16], slot, &array_at(signature, 8), text)[at];
    let value = hex::encode(alloc, &signature[40 + 32 * at..72 + 32 * at])?;
    Ok(format!(in alloc; "chain {slot} {at} {step} {value}\n")?)
}

/// Asserts that a text, signed by a slot without the desk, reduces to this chain of the signature.
fn assert_shows(
    rt: &impl Abort,
    alloc: Global,
    world: &mut World,
    text: &[u8],
    slot: u32,
    at: usize,
) -> Result<(), Fail> {
    let signature = signed_past(alloc, slot, text)?;
    let line = chain_line(alloc, slot, at, text, &signature)?;
    let evidence = Ok(Conclusion::Evidence);
    assert_told(
        rt,
        alloc,
        world,
        (text, &signature),
        line.as_bytes(),
        evidence,
    )
}

/// Returns the first index at which a digit of a text is less than that of another text, which the first slot has
/// signed.
fn first_below(text: &[u8], own: &[u8]) -> usize {
    let c = randomiser(&[0; 16], 0, &[0; 32]);
    let shown = digits(&[0; 16], 0, &c, text);
    let signed = digits(&[0; 16], 0, &c, own);
    shown
        .iter()
        .zip(signed.iter())
        .position(|(a, b)| *a < *b)
        .unwrap_or(0)
}

/// Returns the header of a publication.
fn header_in(publication: &[u8]) -> &[u8] {
    publication.get(4..108).unwrap_or(&[])
}

#[test]
fn a_forged_header_shows_a_value_that_was_not_released(rt: HostRuntime) -> Result<(), Fail> {
    let alloc = rt.alloc();
    let mut world = owner(alloc)?;
    let other = published(alloc, 9)?;
    let forged = header_in(&other.text);
    let below = first_below(forged, header_in(&world.publication));
    assert_shows(&rt, alloc, &mut world, forged, 31, 0)?;
    assert_shows(&rt, alloc, &mut world, forged, 0, below)
}

#[test]
fn what_the_desk_has_signed_is_told(rt: HostRuntime) -> Result<(), Fail> {
    let alloc = rt.alloc();
    let mut world = owner(alloc)?;
    let octets = world.publication.to_vec(alloc)?;
    let header = header_in(&octets);
    let signature = octets.get(110..1402).unwrap_or(&[]);
    let done = Ok(Conclusion::Done);
    assert_told(
        &rt,
        alloc,
        &mut world,
        (header, signature),
        b"signed 0\n",
        done,
    )
}

#[test]
fn a_changed_signature_is_refused(rt: HostRuntime) -> Result<(), Fail> {
    let alloc = rt.alloc();
    let mut world = owner(alloc)?;
    let mut octets = world.publication.to_vec(alloc)?;
    if let Some(octet) = octets.get_mut(1401) {
        *octet ^= 1;
    }
    let header = header_in(&octets);
    let signature = octets.get(110..1402).unwrap_or(&[]);
    let line = b"refused BadSignature NoMatch\n";
    let refused = Ok(Conclusion::Refused);
    assert_told(&rt, alloc, &mut world, (header, signature), line, refused)
}

#[test]
fn bad_files_are_refused(rt: HostRuntime) -> Result<(), Fail> {
    let alloc = rt.alloc();
    let mut world = owner(alloc)?;
    let line = b"refused BadSignature BadForm\n";
    let refused = Ok(Conclusion::Refused);
    assert_told(&rt, alloc, &mut world, (b"", b"abc"), line, refused)?;
    put_hex(alloc, &mut world.library, "key", &[0; 56])?;
    let other = Err(Fault::OtherKey);
    assert_told(&rt, alloc, &mut world, (b"", b""), b"", other)?;
    world.library.put("key", b"0")?;
    let bad = Err(Fault::BadHex);
    assert_told(&rt, alloc, &mut world, (b"", b""), b"", bad)
}
