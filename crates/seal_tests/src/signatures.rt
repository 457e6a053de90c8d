ghost use Rattle.std.specs.Prelude.{◌≡◌, length};
ghost use Rattle.lms_tree.specs.Signatures.{height_of, seal_len};

use crate::asserts::{assert_octets, assert_same};
use lms_tree::{Key, KeyError, SealError, sig_len, verify};
use sha2::{Digest, Sha256};
use std::alloc::Global;
use std::fmt::Write;
use std::process::Abort;
use std::test::Fail;

// Returns the octets in hex.
fn hex(alloc: Global, octets: &[u8]) -> Result<String, Fail> {
    let mut text = String::new(alloc);
    for octet in octets {
        write!(text, "{octet:02x}")?;
    }
    Ok(text)
}

const PUBLIC_OF_32: &str =
    "000000050000000400000000000000000000000000000000829887511085dc8b9946d97b20163fe2ab4385e734979f535139cabe33cd694f";

const PUBLIC_OF_1024: &str =
    "000000060000000400000000000000000000000000000000acb9a5ee322c4643f3e820917a1b3ab7fbd308efd4e3a71e0755ed36f2c3e96b";

const BY_32: [(u32, &str, &str); 8] = [
    (
        0,
        "",
        "6aebf42ce20168479074dc28a4a703a3abb23cd4c38b5539b46f0251e24b995d",
    ),
    (
        0,
        "abc",
        "ef62269057d21d9b4201c84664cf6de95e12e770fd639763353174ee0d298c7a",
    ),
    (
        1,
        "",
        "1f2ddb71c9d758a3d153983431e06c55bf0d3289a2de56674e5393839147d35b",
    ),
    (
        1,
        "abc",
        "bd4546c22d46e60b67b39e972df9bbc1f753461f2bacb48cbb0cea2431c70e21",
    ),
    (
        17,
        "",
        "6f60aafffd1c89af6ec8db3283199fc542cc22daf361d95f618c6396f9aa0812",
    ),
    (
        17,
        "abc",
        "045a8799426946bd87674563555ab37aa1f259a4f83e9030ff316058f5a7617a",
    ),
    (
        31,
        "",
        "79db7f3aa4c1fa970a2d0c7377aa78ff716815d6c139eb5541099beea00d4f48",
    ),
    (
        31,
        "abc",
        "fd79a4a5e44d6d08aee08ba87c5bee3c7340cdeeaa19dac74f568aac04cb8f01",
    ),
];

const BY_1024: [(u32, &str, &str); 3] = [
    (
        0,
        "abc",
        "8f49595fde1b0c4fd36ebe0fb36c6d7cd56d4eb7412452b0b065d308314558ef",
    ),
    (
        512,
        "",
        "be1d2bebe0aaedc96912e2396a80a244516690bc095193391c247125002dbfbd",
    ),
    (
        1023,
        "abc",
        "1d89c1e3e644c0ff497bc02e6533cab80265ab1db0e489ca21351d03ed1229de",
    ),
];

// A slot, a text, and the SHA-256 digest of the signature.
type Row = (u32, &'static str, &'static str);

// Asserts that the signature of a row has this digest and verifies.
fn is_signed_as(
    rt: &impl Abort,
    alloc: Global,
    key: &Key,
    out: &mut [u8],
    row: Row,
) -> Result<(), Fail>
    requires { length out.old ≡ seal_len (height_of key.now.kind) }
    ensures { length out.new ≡ length out.old }
{
    let (slot, text, digest) = row;
    assert!(rt; slot < key.slots());
    key.sign_into(slot, text.as_bytes(), out);
    assert_same(rt, &verify(&key.public(), text.as_bytes(), out), &Ok(()));
    let found = hex(alloc, &Sha256::digest(out))?;
    assert_octets(rt, found.as_bytes(), digest.as_bytes());
    Ok(())
}

// Asserts the public key in hex.
fn has_public(rt: &impl Abort, alloc: Global, key: &Key, public: &str) -> Result<(), Fail> {
    let found = hex(alloc, &key.public())?;
    assert_octets(rt, found.as_bytes(), public.as_bytes());
    Ok(())
}

// The public keys, and the SHA-256 digests of whole signatures, that Bouncy Castle makes from the same I and SEED,
// as `checks/lms/run` prints them.
#[test]
fn keys_and_signatures_of_height_5_are_bouncy_castles(rt: HostRuntime) -> Result<(), Fail> {
    let key = Key::build(rt.alloc(), 5, &[0; 16], &[0; 32])?;
    has_public(&rt, rt.alloc(), &key, PUBLIC_OF_32)?;
    let mut out = [0; 1292];
    for row in BY_32 {
        is_signed_as(&rt, rt.alloc(), &key, &mut out, row)?;
    }
    Ok(())
}

// The same for height 10.
#[test]
fn keys_and_signatures_of_height_10_are_bouncy_castles(rt: HostRuntime) -> Result<(), Fail> {
    let key = Key::build(rt.alloc(), 6, &[0; 16], &[0; 32])?;
    has_public(&rt, rt.alloc(), &key, PUBLIC_OF_1024)?;
    let mut out = [0; 1452];
    for row in BY_1024 {
        is_signed_as(&rt, rt.alloc(), &key, &mut out, row)?;
    }
    Ok(())
}

// RFC 8554, Appendix F, test case 2: the key of the second level, of height 5 with w = 8.
#[test]
fn the_standards_key_is_made(rt: HostRuntime) -> Result<(), Fail> {
    let i = *b"\x21\x5f\x83\xb7\xcc\xb9\xac\xbc\xd0\x8d\xb9\x7b\x0d\x04\xdc\x2b";
    let seed =
        *b"\xa1\xc4\x69\x6e\x26\x08\x03\x5a\x88\x61\x00\xd0\x5c\xd9\x99\x45\xeb\x33\x70\x73\x18\x84\xa8\x23\x5e\x2f\xb3\xd4\xd7\x1f\x25\x47";
    let public =
        "0000000500000004215f83b7ccb9acbcd08db97b0d04dc2ba1cd035833e0e90059603f26e07ad2aad152338e7a5e5984bcd5f7bb4eba40b7";
    let key = Key::build(rt.alloc(), 5, &i, &seed)?;
    has_public(&rt, rt.alloc(), &key, public)
}

// Returns the signature of "abc" by the last slot of a key of zero octets, and its public key.
fn sealed(alloc: Global) -> Result<([u8; 56], [u8; 1292]), Fail> {
    let key = Key::build(alloc, 5, &[0; 16], &[0; 32])?;
    let mut signature = [0; 1292];
    // This key has 32 one-time keys. The last one signs here, and must never sign another text.
    key.sign_into(31, b"abc", &mut signature);
    let public = key.public();
    verify(&public, b"abc", &signature)?;
    Ok((public, signature))
}

// Compares the verdict on "abc" and such a signature under a key.
fn says(rt: &impl Abort, public: &[u8], sig: &[u8], verdict: Result<(), SealError>) {
    assert_same(rt, &verify(public, b"abc", sig), &verdict);
}

#[test]
fn each_fault_has_its_answer(rt: HostRuntime) -> Result<(), Fail> {
    let (public, mut sig) = sealed(rt.alloc())?;
    says(&rt, &public, &sig, Ok(()));
    let other_text = verify(&public, b"abd", &sig);
    assert_same(&rt, &other_text, &Err(SealError::NoMatch));
    says(&rt, &public, &[0; 1291], Err(SealError::BadForm));
    says(&rt, &[0; 55], &sig, Err(SealError::BadKey));
    // No leaf has the number 32.
    sig[3] = 0x20;
    says(&rt, &public, &sig, Err(SealError::BadForm));
    Ok(())
}

#[test]
fn keys_are_of_two_kinds(rt: HostRuntime) -> Result<(), Fail> {
    let key = Key::build(rt.alloc(), 5, &[0; 16], &[0; 32])?;
    assert_same(&rt, &(key.kind(), key.slots()), &(5, 32));
    assert_same(&rt, &sig_len(5), &Some(1292));
    assert_same(&rt, &sig_len(7), &None);
    let unknown = Key::build(rt.alloc(), 7, &[0; 16], &[0; 32]);
    assert!(rt; matches!(&unknown, Err(KeyError::Kind)));
    Ok(())
}
