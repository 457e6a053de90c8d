//! Facts that no clause states: published digests, calls that succeed, and texts of refusals.

use crate::asserts::{assert_octets, assert_same};
use merkle_cover::{Risen, Rising, RisingError};
use octet_text::{Digest32, Hasher, Sha, Toy};
use std::alloc::Global;
use std::process::Abort;
use std::test::Fail;

// The roots of five leaves with fan-out 2 and 3, and the digest in the cover if only the last leaf is not chosen.
const ROOT_BY_TWO: Digest32 = [
    0xe5, 0xf7, 0xde, 0xf0, 0x31, 0x06, 0xc0, 0xda, 0x43, 0x71, 0x21, 0xc9, 0xf9, 0x67, 0x93, 0x96,
    0xd7, 0x74, 0x65, 0x95, 0xcd, 0x2a, 0x3c, 0x28, 0xfd, 0x80, 0x83, 0xdd, 0xd7, 0xde, 0x68, 0x06,
];

const COVER_BY_TWO: Digest32 = [
    0x26, 0xf7, 0xe5, 0x97, 0x80, 0xdb, 0x68, 0xb8, 0x5b, 0x17, 0xfa, 0x80, 0xa6, 0x98, 0x3e, 0x8d,
    0xfa, 0x53, 0x9e, 0x73, 0xb3, 0x88, 0xa3, 0xc5, 0xd5, 0xd2, 0xeb, 0x06, 0xfa, 0x67, 0x3d, 0x00,
];

const ROOT_BY_THREE: Digest32 = [
    0x3c, 0x49, 0x79, 0xca, 0xa9, 0x1f, 0xe5, 0xd8, 0xa2, 0xfb, 0x5b, 0xa1, 0x9b, 0x63, 0x1d, 0x87,
    0x0d, 0x0f, 0xda, 0x53, 0x8a, 0x09, 0xe0, 0xb1, 0xa8, 0xa7, 0x27, 0xae, 0x44, 0x8c, 0x0b, 0x05,
];

const COVER_BY_THREE: Digest32 = [
    0x5a, 0xeb, 0x19, 0x6e, 0x83, 0x59, 0x82, 0x31, 0xb4, 0x5c, 0x61, 0xf3, 0xe0, 0xc5, 0xa0, 0xfd,
    0xa4, 0x9b, 0x0d, 0x4f, 0x86, 0xa6, 0xdb, 0x5f, 0x89, 0x3a, 0xac, 0xcc, 0xf5, 0x14, 0xfa, 0x99,
];

fn toy_digest(last: u8) -> Digest32 {
    let mut digest = [0; 32];
    digest[31] = last;
    digest
}

// Takes the five leaves one at a time. After each of them, this many digests wait.
fn raised<H: Hasher>(
    rt: &impl Abort,
    alloc: Global,
    fan: u8,
    places: &[u32],
    held: &[u32],
) -> Result<Risen, RisingError> {
    let texts: [&[u8]; 5] = [b"a", b"bc", b"", b"def", b"g"];
    let mut rising = Rising::<H>::new(alloc, 5, fan, places)?;
    for (text, count) in texts.iter().zip(held) {
        assert!(rt; rising.pushed() < rising.leaves());
        rising.push(text);
        assert_same(rt, &rising.held(), count);
    }
    assert!(rt; rising.pushed() == rising.leaves());
    Ok(rising.end())
}

// Compares the root and the only digest in the cover of the first four leaves.
fn assert_risen<H: Hasher>(
    rt: &impl Abort,
    alloc: Global,
    fan: u8,
    held: &[u32],
    root: &Digest32,
    digest: &Digest32,
) -> Result<(), Fail> {
    let risen = raised::<H>(rt, alloc, fan, &[0, 1, 2, 3], held)?;
    assert_same(rt, &risen.root, root);
    assert_same(rt, &risen.cover.as_slice().first().copied(), &Some(*digest));
    assert_same(rt, &risen.cover.as_slice().len(), &1);
    Ok(())
}

#[test]
fn five_leaves_rise_to_the_root_of_their_tree(rt: HostRuntime) -> Result<(), Fail> {
    let alloc = rt.alloc();
    let (by_two, by_three) = ([1, 1, 2, 1, 0], [1, 2, 1, 2, 0]);
    assert_risen::<Sha>(&rt, alloc, 2, &by_two, &ROOT_BY_TWO, &COVER_BY_TWO)?;
    assert_risen::<Sha>(&rt, alloc, 3, &by_three, &ROOT_BY_THREE, &COVER_BY_THREE)?;
    let by_sums = raised::<Toy>(&rt, alloc, 2, &[], &by_two)?;
    assert_same(&rt, &by_sums.root, &toy_digest(194));
    assert_same(&rt, &by_sums.cover.as_slice().len(), &0);
    Ok(())
}

// Returns why a tree is refused if index 2 is chosen twice.
fn refusal(alloc: Global, leaves: u32, fan: u8) -> Option<RisingError> {
    Rising::<Sha>::new(alloc, leaves, fan, &[2, 2]).err()
}

#[test]
fn what_has_no_tree_does_not_rise(rt: HostRuntime) {
    let alloc = rt.alloc();
    assert_same(&rt, &refusal(alloc, 5, 2), &Some(RisingError::Place(1)));
    assert_same(&rt, &refusal(alloc, 0, 2), &Some(RisingError::Empty));
    assert_same(
        &rt,
        &refusal(alloc, 2_097_153, 2),
        &Some(RisingError::TooMany),
    );
    assert_same(&rt, &refusal(alloc, 0, 33), &Some(RisingError::Fan));
}

#[test]
fn refusals_are_whole_sentences(rt: HostRuntime) -> Result<(), Fail> {
    let place = RisingError::Place(3);
    let said = format!(in rt.alloc(); "{place}")?;
    let wanted = "The place at index 3 is no leaf, or does not exceed the one before.";
    assert_octets(&rt, said.as_bytes(), wanted.as_bytes());
    Ok(())
}
