//! Replies for the nodes within a radius.
ghost use Rattle.std.specs.Prelude.{◌≡◌, ◌<◌, ◌≤◌, ◌^◌, length, IfOk, IfErr, Ok, Err};
ghost use Rattle.route_client.specs.declared.within.Within.{Within as Taken};
ghost use Rattle.route_client.specs.NearVerdicts.{IsNearVerdict};
ghost use Rattle.route_audit.specs.Radii.{radii as radii_kind};
ghost use Rattle.route_audit.specs.Steps.{IsRefused};

use crate::near_comparing::compare;
use crate::{AuditError, Finding, Replies};
use lms_tree::Link;
use octet_text::{Hasher, NoMemory, ReadError};
use proof_method::method_laws;
use proof_octets::{Header, NearQuery, NearReply};
use road_map::map_laws;
use route_client::{NearError, Within, check_near, near_verdict_laws};
use route_server::Held;
use std::alloc::Global;

/// Replies for the nodes within a radius.
pub struct Radii;

// Tests whether the client accepts octets as a reply to a query, under a key and a chain.
fn test_reply<H: Hasher>(
    alloc: Global,
    public: &[u8],
    chain: &[Link],
    octets: &[u8],
    query: NearQuery,
) -> Result<(), AuditError<NearError>>
    requires short { length octets.now < 2 ^ 32 }
    requires few { length chain.now ≤ 7 }
    ensures accepted { IfOk result (λ _. (x : Taken) ×
        IsNearVerdict H.hash public.now chain.now octets.now query 0 (Ok x)) }
    ensures refused { IfErr result
        (IsRefused radii_kind H.hash public.now chain.now octets.now query) }
{
    match check_near::<H>(alloc, public, chain, octets, query, 0) {
        Ok(_) => Ok(()),
        Err(NearError::Memory(none)) => Err(AuditError::Memory(none)),
        Err(refusal) => Err(AuditError::Refused(refusal)),
    }
}

impl Replies for Radii {
    ghost use Rattle.route_audit.specs.Radii.{radii};

    type Query = NearQuery;

    type Answer = NearReply;

    type Taken = Within;

    type Refusal = NearError;

    ghost kind = { radii };

    fn accepted<H: Hasher>(
        alloc: Global,
        public: &[u8],
        chain: &[Link],
        octets: &[u8],
        query: NearQuery,
    ) -> Result<NearReply, AuditError<NearError>> {
        near_verdict_laws();
        test_reply::<H>(alloc, public, chain, octets, query)?;
        match NearReply::read(alloc, octets) {
            Ok(reply) => Ok(reply),
            Err(ReadError::Memory(none)) => Err(AuditError::Memory(none)),
            Err(_) => unreachable!(),
        }
    }

    fn header(reply: &NearReply) -> &Header {
        &reply.header
    }

    fn signature(reply: &NearReply) -> &[u8] {
        reply.signature.as_slice()
    }

    fn compare<H: Hasher>(
        alloc: Global,
        held: &Held<H>,
        _public: &[u8],
        _chain: &[Link],
        octets: &[u8],
        _query: NearQuery,
        reply: &NearReply,
    ) -> Result<Finding, NoMemory> {
        method_laws();
        map_laws();
        compare::<H>(alloc, held, octets, reply)
    }

    fn laws() {
        near_verdict_laws();
    }
}
