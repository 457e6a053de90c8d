//! Facts that no clause states: published digests, octets written out, growth that succeeds, and texts of refusals.
ghost use Rattle.std.specs.Prelude.{ℕ, ◌≡◌};
ghost use Rattle.std.specs.Int.{w16, to_be_bytes};
ghost use Rattle.octet_text.specs.Format.{u16, any};

use crate::same::{assert_printed, assert_same};
use octet_text::{
    Cursor, Digest32, Digests, Hasher, Malformed, NoMemory, Octets, PutRow, ReadError, Row, Sha,
    Short, Toy, collected, copied, digest_of_pieces, extend, fill_up, filled, hex_of, insert,
    insert_at, insert_key, octets_of_hex, print, push, push_heap, push_str, put_i32, put_octets,
    put_rows, put_u8, put_u16, put_u32, put_u64, read_rows, room_for, share, shared, sort_by_key,
    text_of, with_room,
};
use std::alloc::Global;
use std::collections::{BTreeMap, BTreeSet, BinaryHeap};
use std::test::Fail;

const OF_NOTHING: Digest32 = [
    0xe3, 0xb0, 0xc4, 0x42, 0x98, 0xfc, 0x1c, 0x14, 0x9a, 0xfb, 0xf4, 0xc8, 0x99, 0x6f, 0xb9, 0x24,
    0x27, 0xae, 0x41, 0xe4, 0x64, 0x9b, 0x93, 0x4c, 0xa4, 0x95, 0x99, 0x1b, 0x78, 0x52, 0xb8, 0x55,
];

const OF_ABC: Digest32 = [
    0xba, 0x78, 0x16, 0xbf, 0x8f, 0x01, 0xcf, 0xea, 0x41, 0x41, 0x40, 0xde, 0x5d, 0xae, 0x22, 0x23,
    0xb0, 0x03, 0x61, 0xa3, 0x96, 0x17, 0x7a, 0x9c, 0xb4, 0x10, 0xff, 0x61, 0xf2, 0x00, 0x15, 0xad,
];

// Returns the digest of a text added in two pieces.
fn digest_of_two<H: Hasher>(first: &[u8], second: &[u8]) -> Digest32 {
    let mut hasher = H::start();
    hasher.add(first);
    hasher.add(second);
    hasher.end()
}

// Returns the digest of a text added octet by octet.
fn digest_by_octets<H: Hasher>(text: &[u8]) -> Digest32 {
    let mut hasher = H::start();
    for octet in text {
        hasher.add(&[*octet]);
    }
    hasher.end()
}

fn toy_digest(last: u8) -> Digest32 {
    let mut digest = [0; 32];
    digest[31] = last;
    digest
}

#[test]
fn hashes_give_the_published_digests(rt: HostRuntime) {
    assert_same(&rt, digest_by_octets::<Sha>(b""), OF_NOTHING);
    assert_same(&rt, digest_by_octets::<Sha>(b"abc"), OF_ABC);
    assert_same(&rt, digest_of_two::<Sha>(b"a", b"bc"), OF_ABC);
}

#[test]
fn a_toy_hash_adds_the_octets(rt: HostRuntime) {
    let two = digest_of_two::<Toy>(&[200], &[50, 50]);
    assert_same(&rt, two, toy_digest(44));
    assert_same(&rt, digest_by_octets::<Toy>(&[255, 255]), toy_digest(254));
    let pieces = digest_of_pieces::<Toy>(1, &[[1; 32], [2; 32]]);
    assert_same(&rt, pieces, toy_digest(97));
}

const OCTETS: [u8; 21] = [
    0x4e, 7, 1, 2, 0, 0, 1, 0, 0xff, 0xff, 0xff, 0xfe, 0, 0, 0, 0, 0, 0, 2, 0, 9,
];

#[test]
fn takes_read_on_from_place_to_place(rt: HostRuntime) {
    let mut cursor = Cursor::new(&OCTETS);
    assert_same(&rt, cursor.name(b"O"), Err(Malformed { at: 0 }));
    assert_same(&rt, cursor.name(b"N"), Ok(()));
    assert_same(&rt, cursor.take_u8(), Ok(7));
    assert_same(&rt, cursor.u16_in(1, 257), Err(Malformed { at: 2 }));
    assert_same(&rt, cursor.take_u16(), Ok(258));
    assert_same(&rt, cursor.u32_in(256, 256), Ok(256));
    assert_same(&rt, cursor.take_i32(), Ok(-2));
    assert_same(&rt, cursor.take_u64(), Ok(512));
    assert_same(&rt, cursor.at(), 20);
}

#[test]
fn takes_are_short_at_the_end_of_the_octets(rt: HostRuntime) {
    let mut cursor = Cursor::new(&OCTETS);
    assert_same(&rt, cursor.take_octets(20), Ok(&OCTETS[..20]));
    assert_same(&rt, cursor.take_u16(), Err(Short { at: 20 }));
    assert_same(&rt, cursor.take_digest(), Err(Short { at: 20 }));
    assert_same(&rt, cursor.take_octets(1), Ok(&OCTETS[20..]));
    assert_same(&rt, cursor.left(), 0);
    assert_same(&rt, cursor.take_u8(), Err(Short { at: 21 }));
}

// A format of numbers in two octets.
#[derive(Drop)]
struct Numbers;

impl Row for Numbers {
    type Item = u16;

    ghost format = { λ _ _. u16 any };

    ghost follows = { λ _. 0 };

    fn read(&self, _alloc: Global, cursor: &mut Cursor<'_>, _least: u64) -> Result<u16, ReadError> {
        let value = cursor.take_u16()?;
        Ok(value)
    }

    fn after(_item: &u16) -> u64 {
        0
    }
}

impl PutRow for Numbers {
    type Item = u16;

    ghost spell = { to_be_bytes w16 };

    fn put(out: &mut Vec<u8>, item: &u16) -> Result<(), NoMemory> {
        put_u16(out, *item)
    }
}

static PUT: [u8; 22] = [
    0x4e, 1, 2, 3, 4, 5, 6, 7, 8, 9, 10, 11, 12, 13, 14, 0xff, 0xff, 0xff, 0xfe, b'e', b'n', b'd',
];

#[test]
fn puts_append_big_endian(rt: HostRuntime) {
    let mut out = Vec::new(rt.alloc());
    assert_same(&rt, put_u8(&mut out, 0x4e), Ok(()));
    assert_same(&rt, put_u16(&mut out, 0x0102), Ok(()));
    assert_same(&rt, put_u32(&mut out, 0x0304_0506), Ok(()));
    assert_same(&rt, put_u64(&mut out, 0x0708_090a_0b0c_0d0e), Ok(()));
    assert_same(&rt, put_i32(&mut out, -2), Ok(()));
    assert_same(&rt, put_octets(&mut out, b"end"), Ok(()));
    assert_same(&rt, out.as_slice(), PUT.as_slice());
}

// The encoding of 1 and 258.
const TWO: [u8; 4] = [0, 1, 1, 2];

#[test]
fn rows_are_written(rt: HostRuntime) {
    let mut out = Vec::new(rt.alloc());
    assert_same(&rt, put_rows::<Numbers>(&mut out, &[1, 258]), Ok(()));
    assert_same(&rt, out.as_slice(), TWO.as_slice());
    let octets = Octets::from_vec(out);
    assert_same(&rt, octets.as_slice(), TWO.as_slice());
    let digests = Digests::from_vec(Vec::new(rt.alloc()));
    assert_same(&rt, digests.as_slice().len(), 0);
}

#[test]
fn rows_are_read(rt: HostRuntime) -> Result<(), ReadError> {
    let mut cursor = Cursor::new(&TWO);
    let rows = read_rows(rt.alloc(), &Numbers, 2, &mut cursor)?;
    assert_same(&rt, rows.as_slice(), [1, 258].as_slice());
    let none = read_rows(rt.alloc(), &Numbers, 1, &mut cursor);
    let error = ReadError::Malformed(Malformed { at: 4 });
    assert_same(&rt, none.err(), Some(error));
    Ok(())
}

#[test]
fn lists_grow(rt: HostRuntime) -> Result<(), Fail> {
    let mut list = copied(rt.alloc(), &[1u8, 4])?;
    insert_at(&mut list, 1, 3)?;
    push(&mut list, 5)?;
    extend(&mut list, &[6, 7])?;
    fill_up(&mut list, 8, 9)?;
    assert_same(&rt, list.as_slice(), [1u8, 3, 4, 5, 6, 7, 9, 9].as_slice());
    sort_by_key(&mut list, |item| *item % 4)?;
    assert_same(&rt, list.as_slice(), [4u8, 1, 5, 9, 9, 6, 3, 7].as_slice());
    Ok(())
}

#[test]
fn lists_are_made(rt: HostRuntime) -> Result<(), Fail> {
    let for_five: Vec<u16> = room_for(rt.alloc(), &[0u8; 5])?;
    assert_same(&rt, (for_five.len(), for_five.capacity() >= 5), (0, true));
    let for_three: Vec<u16> = with_room(rt.alloc(), 3, &[0u8; 0])?;
    assert_same(&rt, (for_three.len(), for_three.capacity() >= 3), (0, true));
    let sevens = filled(rt.alloc(), 7u8, 3)?;
    assert_same(&rt, sevens.as_slice(), [7u8, 7, 7].as_slice());
    let line: Vec<u32> = collected(rt.alloc(), 1..4u32)?;
    assert_same(&rt, line.as_slice(), [1u32, 2, 3].as_slice());
    Ok(())
}

#[test]
fn maps_sets_heaps_and_holders_grow(rt: HostRuntime) -> Result<(), Fail> {
    let mut map = BTreeMap::new(rt.alloc());
    assert_same(&rt, insert(&mut map, 2u8, 5u8)?, None);
    assert_same(&rt, insert(&mut map, 2, 6)?, Some(5));
    assert_same(&rt, map.get(&2).copied(), Some(6));
    let mut set = BTreeSet::new(rt.alloc());
    assert_same(&rt, insert_key(&mut set, 3u8)?, true);
    assert_same(&rt, insert_key(&mut set, 3)?, false);
    let mut heap = BinaryHeap::new(rt.alloc());
    push_heap(&mut heap, 3u8)?;
    push_heap(&mut heap, 9)?;
    push_heap(&mut heap, 4)?;
    assert_same(&rt, heap.pop(), Some(9));
    let first = shared(rt.alloc(), 7u8)?;
    let second = share(&first)?;
    assert_same(&rt, (*first, *second), (7, 7));
    Ok(())
}

#[test]
fn texts_grow(rt: HostRuntime) -> Result<(), Fail> {
    let mut text = text_of(rt.alloc(), "5 nodes")?;
    push_str(&mut text, ", ")?;
    print(&mut text, format_args!("{} roads", 12u8))?;
    assert_same(&rt, text.as_str(), "5 nodes, 12 roads");
    let mut numbers = text_of(rt.alloc(), "")?;
    print(
        &mut numbers,
        format_args!("{} {} {} {} {}", 65_535u16, u32::MAX, u64::MAX, 7usize, -5),
    )?;
    let wanted = "65535 4294967295 18446744073709551615 7 -5";
    assert_same(&rt, numbers.as_str(), wanted);
    print(&mut text, format_args!(", {}", numbers))?;
    assert_same(&rt, text.len(), 19 + wanted.len());
    let digits = hex_of(rt.alloc(), &[0, 0xaf])?;
    assert_same(&rt, digits.as_str(), "00af");
    let octets = octets_of_hex(rt.alloc(), b"00Af")??;
    assert_same(&rt, octets.as_slice(), [0u8, 0xaf].as_slice());
    match octets_of_hex(rt.alloc(), b"0g")? {
        Ok(_) => Err(Fail::from("a letter that is no digit")),
        Err(why) => {
            let wanted = "Invalid character 'g' at position 1";
            Ok(assert_printed(&rt, rt.alloc(), why, wanted)?)
        }
    }
}

#[test]
fn refusals_are_whole_sentences(rt: HostRuntime) -> Result<(), Fail> {
    let short = Short { at: 3 };
    let wanted = "Too few octets are left at offset 3.";
    assert_printed(&rt, rt.alloc(), short, wanted)?;
    let read = ReadError::Malformed(Malformed { at: 4 });
    let wanted = "The field at offset 4 cannot be read.";
    assert_printed(&rt, rt.alloc(), read, wanted)?;
    Ok(())
}
