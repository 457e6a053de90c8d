//! Facts that no clause states: the values of an independent program, a collision of the hash for tests, and texts
//! of refusals.
use crate::asserts::{assert_octets, assert_same};
use lms_reduce::{ReduceError, Reduced, highest_meeting, meeting, reduce};
use lms_tree::{Key, KeyError, SealError};
use octet_text::{Digest32, Hasher, Toy};
use std::alloc::Global;
use std::fmt::Write;
use std::process::Abort;
use std::test::Fail;

// Makes the key of height 5 whose I and SEED are the octets 0 to 47.
fn key_of_rising_octets(alloc: Global) -> Result<Key, KeyError> {
    let mut i = [0; 16];
    for place in 0..16u8 {
        i[place as usize] = place;
    }
    let mut seed = [0; 32];
    for place in 0..32u8 {
        seed[place as usize] = 16 + place;
    }
    Key::build(alloc, 5, &i, &seed)
}

// Makes a signature with the key. Bypasses the desk, which counts the slots.
fn signature(rt: &impl Abort, key: &Key, slot: u32, text: &[u8]) -> [u8; 1292] {
    assert!(rt; key.kind() == 5 && slot < 32);
    let mut sig = [0; 1292];
    key.sign_into(slot, text, &mut sig);
    sig
}

// Returns the octets in hex.
fn hex(alloc: Global, octets: &[u8]) -> Result<String, Fail> {
    let mut text = String::new(alloc);
    for octet in octets {
        write!(text, "{octet:02x}")?;
    }
    Ok(text)
}

// The reference computes these values (`checks/sources.py`) in four cases: a slot that holds nothing; a slot that
// holds another text; a slot where three digits are not less; and an empty text, whose signature shows a secret
// value.
#[test]
fn forgeries_show_what_an_independent_program_says(rt: HostRuntime) -> Result<(), Fail> {
    let alloc = rt.alloc();
    let key = key_of_rising_octets(alloc)?;
    let rows: [(u32, &[u8], Option<&[u8]>, u16, u8, &str); 4] = [
        (
            31,
            b"version 9",
            None,
            0,
            35,
            "7cdd0986b65d39c3ed23059cd4fe2311702e02a6d062f9321925d740411dcdfd",
        ),
        (
            0,
            b"version 9",
            Some(b"version 8"),
            1,
            23,
            "03507a08e7fdf75869f16ae1e886f2fbb6703149d457d6f2925e1581f009d697",
        ),
        (
            7,
            b"version 13",
            Some(b"version 3"),
            4,
            169,
            "c604d43031786759c70acb59b2eff63e596eef2e47d50659167d35aa32643708",
        ),
        (
            7,
            b"",
            Some(b"version 3"),
            1,
            0,
            "17f49646c06a5a4dbac85f593105c92231ff8771f13f60731e5cacb23562b986",
        ),
    ];
    for (number, text, spent, place, steps, shown) in rows {
        let sig = signature(&rt, &key, number, text);
        match reduce(alloc, &key, spent, text, &sig) {
            Ok(
                Reduced::Chain {
                    slot,
                    at,
                    step,
                    value,
                },
            ) => {
                assert_same(&rt, &(slot, at, step), &(number, place, steps));
                assert_same(&rt, &hex(alloc, &value)?.as_str(), &shown);
            }
            _ => assert!(rt; false, "slot {number}"),
        }
    }
    Ok(())
}

#[test]
fn signed_texts_and_bad_signatures_are_refused(rt: HostRuntime) -> Result<(), Fail> {
    let alloc = rt.alloc();
    let key = key_of_rising_octets(alloc)?;
    let text = b"version 8";
    let sig = signature(&rt, &key, 3, text);
    let mut turned = sig;
    turned[1291] = turned[1291] ^ 1;
    let rows: [(&[u8], &[u8], ReduceError, &str); 3] = [
        (
            text,
            &sig,
            ReduceError::Signed(3),
            "Slot 3 has signed this text.",
        ),
        (
            text,
            &turned,
            ReduceError::NotVerified(SealError::NoMatch),
            "The signature is not one of this key on this text.",
        ),
        (
            text,
            &sig[..1291],
            ReduceError::NotVerified(SealError::BadForm),
            "The octets are no signature under this type of key.",
        ),
    ];
    for (text, sig, why, words) in rows {
        let refused = reduce(alloc, &key, Some(b"version 8"), text, sig).err();
        assert_same(&rt, &refused, &Some(why));
        assert_same(&rt, &format!(in alloc; "{why}")?.as_str(), &words);
    }
    Ok(())
}

// Returns the digest of a text under the hash for tests.
fn digest_of(text: &[u8]) -> Digest32 {
    let mut hasher = Toy::start();
    hasher.add(text);
    hasher.end()
}

// Returns a digest that begins with these two octets.
fn digest(first: u8, second: u8) -> Digest32 {
    let mut digest = [0; 32];
    digest[0] = first;
    digest[1] = second;
    digest
}

#[test]
fn values_with_one_sum_meet_in_the_next_step(rt: HostRuntime) -> Result<(), Fail> {
    let (left, right) = (digest(1, 2), digest(2, 1));
    match meeting::<Toy>(&[0; 16], 4, 33, 200, &left, &right) {
        Some(two) => {
            assert_octets(&rt, &two.left[21..24], &[33, 200, 1]);
            assert_octets(&rt, &two.right[21..24], &[33, 200, 2]);
            assert_octets(&rt, &digest_of(&two.left), &digest_of(&two.right));
        }
        None => assert!(rt; false),
    }
    assert!(rt; meeting::<Toy>(&[0; 16], 4, 33, 200, &left, &left).is_none());
    assert!(rt; meeting::<Toy>(&[0; 16], 4, 33, 200, &left, &digest(2, 2)).is_none());
    Ok(())
}

// Two paths from leaf 5 of a tree of height 2. They differ at the leaf and at the root's children, and meet above
// each of these levels.
#[test]
fn the_meeting_nearest_to_the_root_is_found(rt: HostRuntime) -> Result<(), Fail> {
    let (left, right) = (digest(1, 2), digest(2, 1));
    let mut left_path = [0; 64];
    let mut right_path = [0; 64];
    left_path[32] = 7;
    right_path[33] = 7;
    match highest_meeting::<Toy>(&[0; 16], 5, &left, &right, &left_path, &right_path) {
        Some(two) => {
            assert_octets(&rt, &[two.left[19], two.left[54], two.left[55]], &[1, 7, 0]);
            assert_octets(
                &rt,
                &[two.right[19], two.right[54], two.right[55]],
                &[1, 0, 7],
            );
            assert_octets(&rt, &digest_of(&two.left), &digest_of(&two.right));
        }
        None => assert!(rt; false),
    }
    right_path[32] = 7;
    right_path[33] = 0;
    match highest_meeting::<Toy>(&[0; 16], 5, &left, &right, &left_path, &right_path) {
        Some(two) => {
            assert_octets(&rt, &[two.left[19], two.left[54], two.left[55]], &[2, 1, 2]);
        }
        None => assert!(rt; false),
    }
    Ok(())
}
