// The tests before the items are walked. Replies for routes use the same tests of the header and of the cover.
ghost use Rattle.std.specs.Prelude.{◌≡◌, ◌<◌, ◌≤◌, ◌^◌, length, Err, IfOk};
ghost use Rattle.octet_text.specs.Want.{no_memory};
ghost use Rattle.octet_text.specs.Format.{whole};
ghost use Rattle.route_client.specs.Verdicts.{Meets as MeetsTest};
ghost use Rattle.proof_octets.specs.NearReplies.{near_reply, IsGoodNear, IsNamed};
ghost use Rattle.route_client.specs.declared.near_errors.NearError.{NearError};
ghost use Rattle.route_client.specs.NearVerdicts.{Meets, IsEarly, near_error, items_covered, header_and_cover, after_tests, spelled, near_passed};

use crate::covers::test_cover;
use crate::earlier_tests::test_header;
use crate::near_cutting::reply_cuts;
use crate::{CheckError, NearError};
use lms_tree::Link;
use merkle_cover::CutTexts;
use octet_text::{Hasher, ReadError};
use proof_octets::NearReply;
use std::alloc::Global;

// Reads the reply that octets encode.
fn read_reply(alloc: Global, octets: &[u8]) -> Result<NearReply, NearError>
    requires { length octets.now < 2 ^ 32 }
    ensures is { Meets result (spelled (whole near_reply octets.now)) }
    ensures good { IfOk result IsGoodNear }
    ensures spelled { IfOk result (λ a. octets.now ≡ near_reply.spell a) }
    ensures named { result ≡ Err (NearError.Memory no_memory) → IsNamed octets.now }
{
    match NearReply::read(alloc, octets) {
        Ok(reply) => Ok(reply),
        Err(ReadError::Malformed(malformed)) => Err(NearError::Malformed(malformed.at)),
        Err(ReadError::Memory(none)) => Err(NearError::Memory(none)),
    }
}

// Tests that the items, as they are in the octets, recompute the node root.
fn test_items<H: Hasher>(alloc: Global, octets: &[u8], reply: &NearReply) -> Result<(), CheckError>
    requires good { IsGoodNear reply.now }
    requires spelled { octets.now ≡ near_reply.spell reply.now }
    requires short { length octets.now < 2 ^ 32 }
    ensures { MeetsTest result (items_covered H.hash reply.now) }
{
    let cuts = reply_cuts(alloc, octets, reply)?;
    let texts = CutTexts::new(octets, cuts.as_slice());
    let header = &reply.header;
    test_cover::<H>(
        1,
        header.nodes,
        header.fan,
        reply.places.as_slice(),
        &texts,
        reply.cover.as_slice(),
        &header.node_root,
    )
}

// Tests the header's version and signature, and then the cover.
#[tactic(auto, unfolding(crate::specs::NearVerdicts::header_and_cover))]
fn test_reply<H: Hasher>(
    alloc: Global,
    public: &[u8],
    chain: &[Link],
    octets: &[u8],
    reply: &NearReply,
    least: u64,
) -> Result<(), CheckError>
    requires good { IsGoodNear reply.now }
    requires spelled { octets.now ≡ near_reply.spell reply.now }
    requires short { length octets.now < 2 ^ 32 }
    requires few { length chain.now ≤ 7 }
    ensures { MeetsTest result (header_and_cover H.hash public.now chain.now least reply.now) }
{
    let signature = reply.signature.as_slice();
    test_header(public, chain, &reply.header, signature, least)?;
    test_items::<H>(alloc, octets, reply)
}

// Converts a failed test into the refusal of a reply. These tests have no other errors.
fn near_error(error: CheckError) -> NearError
    requires { IsEarly error }
    ensures { result ≡ near_error error }
{
    match error {
        CheckError::Stale(version) => NearError::Stale(version),
        CheckError::BadChain(link, why) => NearError::BadChain(link, why),
        CheckError::BadSignature(why) => NearError::BadSignature(why),
        CheckError::BadCover(_, why) => NearError::BadCover(why),
        CheckError::Memory(none) => NearError::Memory(none),
        _ => unreachable!(),
    }
}

// Returns the reply if it passes these tests.
fn test<H: Hasher>(
    alloc: Global,
    public: &[u8],
    chain: &[Link],
    octets: &[u8],
    reply: NearReply,
    least: u64,
) -> Result<NearReply, NearError>
    requires good { IsGoodNear reply }
    requires spelled { octets.now ≡ near_reply.spell reply }
    requires short { length octets.now < 2 ^ 32 }
    requires few { length chain.now ≤ 7 }
    ensures is { Meets result
        (after_tests reply (header_and_cover H.hash public.now chain.now least reply)) }
    ensures good { IfOk result IsGoodNear }
{
    match test_reply::<H>(alloc, public, chain, octets, &reply, least) {
        Ok(()) => Ok(reply),
        Err(error) => Err(near_error(error)),
    }
}

// Returns the reply if it passes every test before its items are walked. Fails with the first test that it fails.
pub(crate) fn pass<H: Hasher>(
    alloc: Global,
    public: &[u8],
    chain: &[Link],
    octets: &[u8],
    least: u64,
) -> Result<NearReply, NearError>
    requires short { length octets.now < 2 ^ 32 }
    requires few { length chain.now ≤ 7 }
    ensures is { Meets result (near_passed H.hash public.now chain.now octets.now least) }
    ensures good { IfOk result IsGoodNear }
    ensures named { result ≡ Err (NearError.Memory no_memory) → IsNamed octets.now }
{
    match read_reply(alloc, octets) {
        Ok(reply) => test::<H>(alloc, public, chain, octets, reply, least),
        Err(error) => Err(error),
    }
}
