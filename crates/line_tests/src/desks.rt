//! Desks that are inspected before they sign.

use crate::same::{assert_printed, assert_row, assert_same};
use desk_guard::{SecretDoubt, Signing, secret_doubts};
use desk_sight::{Sight, Signed, Strange, sight_of};
use mem_io::MemSink;
use road_io::{Failed, Sink};
use signed_out::SignedSink;
use std::alloc::{AllocError, Global};
use std::process::Abort;
use std::test::Fail;

/// The number of octets in the area of an `h5` key.
const AREA: usize = 4160;

/// Returns a header of 104 octets under DIJ, of a version and this many nodes, with a root other than zeros.
fn header(alloc: Global, version: u8, nodes: u8) -> Result<Vec<u8>, AllocError> {
    let mut text = Vec::new(alloc);
    text.extend_from_slice(b"RPF1\x01\x00\x02\x00")?;
    text.extend_from_slice(&[0, 0, 0, 0, 0, 0, 0, version, 0, 0, 0, nodes])?;
    text.extend_from_slice(&[7; 32])?;
    text.extend_from_slice(&[0; 52])?;
    Ok(text)
}

/// Writes octets at an offset of an image.
fn put(image: &mut Vec<u8>, place: usize, octets: &[u8]) {
    let mut at = place;
    for octet in octets {
        if let Some(spot) = image.get_mut(at) {
            *spot = *octet;
        }
        at = at.saturating_add(1);
    }
}

/// Returns a desk of an `h5` key. Its first five one-time keys have signed versions 1 to 5 of a map of nine nodes.
fn five_spent(alloc: Global) -> Result<Vec<u8>, AllocError> {
    let mut image = vec![in alloc; 0u8; AREA]?;
    put(&mut image, 0, &[1, 0, 0, 0, 5]);
    for slot in 0..5u8 {
        let place = 64 + 128 * slot as usize;
        put(&mut image, place, &[1, 104]);
        put(&mut image, place + 2, &header(alloc, slot + 1, 9)?);
    }
    Ok(image)
}

/// The sight of the desk with five spent slots.
const FIVE: Sight = Sight {
    key: 1,
    size: 31,
    spent: 5,
    last: Some(Signed {
        version: 5,
        nodes: 9,
    }),
    greatest: Some(5),
    waiting: None,
    link: None,
    is_followed: false,
};

#[test]
fn a_desk_is_seen(rt: HostRuntime) -> Result<(), Fail> {
    let image = five_spent(rt.alloc())?;
    assert_same(&rt, sight_of(&image), Ok(Some(FIVE)));
    assert_same(&rt, FIVE.left(), 26);
    assert_same(&rt, sight_of(b""), Ok(None));
    assert_same(&rt, sight_of(&[0; 64]), Ok(None));
    Ok(())
}

/// Tests, from the sight, whether no one-time key that has signed can sign again: the desk is refused or has no
/// key; or its first free one-time key comes after the five; or the fifth is spent first.
fn is_kept(seen: Result<Option<Sight>, Strange>) -> bool {
    match seen {
        Err(_) | Ok(None) => true,
        Ok(Some(sight)) => sight.spent >= 5 || (sight.spent == 4 && sight.waiting.is_some()),
    }
}

/// Flips each bit of the octet at an offset, one at a time.
fn assert_kept(rt: &impl Abort, image: &mut Vec<u8>, place: usize) {
    let before = image.get(place).copied().unwrap_or(0);
    for bit in 0..8u32 {
        put(image, place, &[before ^ (1 << bit)]);
        assert_row(rt, (place, bit), is_kept(sight_of(image)), true);
    }
    put(image, place, &[before]);
}

/// Flips each bit from one offset up to another, one at a time.
fn assert_kept_between(
    rt: &impl Abort,
    alloc: Global,
    from: usize,
    to: usize,
) -> Result<(), AllocError> {
    let mut image = five_spent(alloc)?;
    for place in from..to {
        assert_kept(rt, &mut image, place);
    }
    Ok(())
}

#[test]
fn no_turned_bit_of_a_used_key_frees_it(rt: HostRuntime) -> Result<(), AllocError> {
    assert_kept_between(&rt, rt.alloc(), 0, 704)
}

#[test]
fn no_turned_bit_of_the_first_free_keys_frees_another(rt: HostRuntime) -> Result<(), AllocError> {
    assert_kept_between(&rt, rt.alloc(), 704, 1856)
}

#[test]
fn no_turned_bit_of_a_free_key_frees_another(rt: HostRuntime) -> Result<(), AllocError> {
    assert_kept_between(&rt, rt.alloc(), 1856, 3008)
}

#[test]
fn no_turned_bit_of_the_last_keys_frees_another(rt: HostRuntime) -> Result<(), AllocError> {
    assert_kept_between(&rt, rt.alloc(), 3008, AREA)
}

/// Compares the sight of the desk with these octets put at an offset.
fn assert_seen(
    rt: &impl Abort,
    alloc: Global,
    place: usize,
    octets: &[u8],
    wanted: Result<Option<Sight>, Strange>,
) -> Result<(), Fail> {
    let mut image = five_spent(alloc)?;
    put(&mut image, place, octets);
    assert_row(rt, place, sight_of(&image), wanted);
    Ok(())
}

#[test]
fn what_no_run_leaves_is_named(rt: HostRuntime) -> Result<(), Fail> {
    let gap = Strange::Gap { key: 1, slot: 2 };
    for (place, octets, strange) in [
        (320, b"\x00".as_slice(), gap),
        (
            832,
            b"\x00\x01".as_slice(),
            Strange::Text { key: 1, slot: 6 },
        ),
        (63, b"\x01".as_slice(), Strange::Block { key: 1 }),
        (170, b"\x01".as_slice(), Strange::Tail { key: 1, slot: 0 }),
    ] {
        assert_seen(&rt, rt.alloc(), place, octets, Err(strange))?;
    }
    let text = format!(in rt.alloc(); "{gap}")?;
    let front = "One-time key 2 of key 1 counts as free, and a later one is used. No run";
    assert_row(&rt, text.as_str(), text.starts_with(front), true);
    Ok(())
}

#[test]
fn a_text_in_the_first_free_key_is_told(rt: HostRuntime) -> Result<(), Fail> {
    let waiting = Some(Signed {
        version: 8,
        nodes: 9,
    });
    let mut octets = Vec::new(rt.alloc());
    octets.extend_from_slice(&[0, 104])?;
    octets.extend_from_slice(&header(rt.alloc(), 8, 9)?)?;
    assert_seen(
        &rt,
        rt.alloc(),
        704,
        &octets,
        Ok(Some(Sight { waiting, ..FIVE })),
    )?;
    // A text that a crash cut short does not count as a text; a crash may leave any octets in place of a text.
    octets.truncate(20);
    assert_seen(&rt, rt.alloc(), 704, &octets, Ok(Some(FIVE)))?;
    assert_seen(&rt, rt.alloc(), 705, &[255; 105], Ok(Some(FIVE)))
}

/// Returns the first octets of a publication that the sixth one-time key has signed.
fn publication(alloc: Global, version: u8) -> Result<Vec<u8>, AllocError> {
    let mut text = Vec::new(alloc);
    text.extend_from_slice(b"RPP1")?;
    text.extend_from_slice(&header(alloc, version, 12)?)?;
    text.extend_from_slice(&[5, 12, 0, 0, 0, 5])?;
    Ok(text)
}

/// Compares the message about a publication of a version.
fn assert_signing(
    rt: &impl Abort,
    alloc: Global,
    sight: Sight,
    version: u8,
    wanted: &str,
) -> Result<(), Fail> {
    let text = publication(alloc, version)?;
    match Signing::of(sight, &text) {
        None => Err(Fail::from("the signing is not seen")),
        Some(signing) => Ok(assert_printed(rt, alloc, signing, wanted)?),
    }
}

#[test]
fn a_signing_is_told(rt: HostRuntime) -> Result<(), Fail> {
    let alloc = rt.alloc();
    assert_signing(
        &rt,
        alloc,
        FIVE,
        6,
        "One-time key 5 has signed, and 25 are left. Before: 9 nodes, version 5; now: 12 nodes, version 6.",
    )?;
    assert_signing(
        &rt,
        alloc,
        FIVE,
        5,
        "One-time key 5 has signed, and 25 are left. Before: 9 nodes, version 5; now: 12 nodes, version 5. The desk has already signed version 5, and one-time key 5 has now signed version 5. A client with a higher minimum refuses it.",
    )?;
    let first = Sight {
        last: None,
        greatest: None,
        ..FIVE
    };
    assert_signing(
        &rt,
        alloc,
        first,
        1,
        "One-time key 5 has signed, and 25 are left. Now: 12 nodes, version 1.",
    )?;
    let two_left = Sight {
        spent: 29,
        last: Some(Signed {
            version: 5,
            nodes: 1,
        }),
        ..FIVE
    };
    assert_signing(
        &rt,
        alloc,
        two_left,
        6,
        "One-time key 5 has signed, and 1 is left. Before: 1 node, version 5; now: 12 nodes, version 6.",
    )?;
    assert_same(&rt, Signing::of(FIVE, b"RPP1"), None);
    Ok(())
}

#[test]
fn a_secret_of_few_octets_is_known(rt: HostRuntime) {
    let zeros = [b'0'; 96];
    let few = [Some(SecretDoubt::FewOctets), None];
    assert_same(&rt, secret_doubts(&rt, "no file", &zeros), few);
    let digits =
        b"000102030405060708090a0b0c0d0e0f000102030405060708090a0b0c0d0e0f000102030405060708090a0b0c0d0e0f\n";
    assert_same(&rt, secret_doubts(&rt, "no file", digits), [None; 2]);
    assert_same(&rt, secret_doubts(&rt, "no file", b"00"), [None; 2]);
}

#[test]
fn a_sink_that_awaits_a_key_takes_nothing_that_is_not_signed(rt: HostRuntime) -> Result<(), Fail> {
    let alloc = rt.alloc();
    let room = MemSink::new(alloc, 64, 64, Vec::new(alloc))?;
    let mut sink = SignedSink::new(room, Some([5; 56]));
    assert_same(&rt, sink.write(b"RPP1"), Err(Failed));
    assert_same(&rt, sink.write(&[7; 160]), Err(Failed));
    assert_same(&rt, sink.has_refused(), true);
    assert_same(&rt, sink.inner().taken(), b"");
    let room = MemSink::new(alloc, 64, 64, Vec::new(alloc))?;
    let mut sink = SignedSink::new(room, None);
    assert_same(&rt, sink.write(b"RPP1"), Ok(4));
    assert_same(&rt, sink.has_refused(), false);
    assert_same(&rt, sink.inner().taken(), b"RPP1");
    Ok(())
}
