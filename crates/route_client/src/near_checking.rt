//! Checking a reply for the nodes within a radius.
ghost use Rattle.std.specs.Prelude.{◌≡◌, ◌<◌, ◌≤◌, ◌^◌, length, IfOk, Ok, Err};
ghost use Rattle.octet_text.specs.Want.{no_memory};
ghost use Rattle.octet_text.specs.Format.{whole};
ghost use Rattle.proof_octets.specs.NearReplies.{near_reply, IsGoodNear, IsNamed};
ghost use Rattle.route_client.specs.declared.near_errors.NearError.{NearError};
ghost use Rattle.route_client.specs.NearVerdicts.{UnlessMemory, IsNearVerdict, WalkedAfter, ChecksNear, taken};

use crate::passing::pass;
use crate::walking::{marks_within, measured, walk};
use crate::{CheckedReply, NearError, Within};
use lms_tree::Link;
use octet_text::Hasher;
use proof_octets::{Header, NearQuery, NearReply};
use std::alloc::Global;

// Returns the verdict on a reply that passes every test before its items are walked.
fn accept(alloc: Global, reply: NearReply, query: NearQuery) -> Result<CheckedReply, NearError>
    requires { IsGoodNear reply }
    ensures verdict { UnlessMemory (WalkedAfter (Ok reply) query) (taken result) }
    ensures same { IfOk result (λ checked. checked.reply ≡ reply) }
{
    match walk(alloc, &reply.nodes, query) {
        Ok(nodes) => Ok(CheckedReply { reply, nodes }),
        Err(error) => Err(error),
    }
}

// Returns the header of a reply and drops the rest.
fn header_of(reply: NearReply) -> Header
    ensures { result ≡ reply.header }
{
    reply.header
}

// Returns the same verdict with only the part that a client keeps. Frees the items before it lists the nodes.
fn take(alloc: Global, reply: NearReply, query: NearQuery) -> Result<Within, NearError>
    ensures { UnlessMemory (WalkedAfter (Ok reply) query) result }
{
    match measured(alloc, &reply.nodes, query) {
        Ok(labels) => {
            let header = header_of(reply);
            let nodes = marks_within(alloc, &labels, query.radius)?;
            Ok(Within {
                nodes,
                version: header.version,
                header,
            })
        }
        Err(error) => Err(error),
    }
}

/// Checks a reply to a query for the nodes within a radius under the owner's public key, and returns the whole
/// reply.
///
/// `least` is the minimum version that the client accepts. `chain` leads from the public key to the owner's later
/// keys, over at most seven links.
///
/// The error is the first of these tests, in this order, that fails: the octets encode a reply; its version is at
/// least `least`; each link is signed under the previous key; the header is signed under one of the keys; the items
/// stand under the node root; no two items have the same id; each walk over the items that is no longer than the
/// radius ends at an item.
///
/// An item that no such walk reaches is allowed, but not listed. No memory is reserved for a count that the
/// remaining octets cannot hold. Octets that do not begin with the name of such a reply are refused for this
/// reason, however little memory is available.
pub fn check_near_reply<H: Hasher>(
    alloc: Global,
    public: &[u8],
    chain: &[Link],
    reply: &[u8],
    query: NearQuery,
    least: u64,
) -> Result<CheckedReply, NearError>
    requires short { length reply.now < 2 ^ 32 }
    requires few { length chain.now ≤ 7 }
    ensures verdict { UnlessMemory
        (IsNearVerdict H.hash public.now chain.now reply.now query least) (taken result) }
    ensures spelled { IfOk result (λ checked. whole near_reply reply.now ≡ Ok checked.reply) }
    ensures named { result ≡ Err (NearError.Memory no_memory) → IsNamed reply.now }
{
    match pass::<H>(alloc, public, chain, reply, least) {
        Ok(reply) => accept(alloc, reply, query),
        Err(error) => Err(error),
    }
}

/// Checks a reply as `check_near_reply` does. Returns only the part of an accepted reply that a client keeps.
pub fn check_near<H: Hasher>(
    alloc: Global,
    public: &[u8],
    chain: &[Link],
    reply: &[u8],
    query: NearQuery,
    least: u64,
) -> Result<Within, NearError>
    requires short { length reply.now < 2 ^ 32 }
    requires few { length chain.now ≤ 7 }
    ensures { ChecksNear H.hash public.now chain.now reply.now query least result }
{
    match pass::<H>(alloc, public, chain, reply, least) {
        Ok(reply) => take(alloc, reply, query),
        Err(error) => Err(error),
    }
}

/// Checks a reply as `check_near` does, but frees its octets before its items are walked. So the octets and the
/// memory of the walks are never held at the same time.
pub fn check_near_owned<H: Hasher>(
    alloc: Global,
    public: &[u8],
    chain: &[Link],
    reply: Vec<u8>,
    query: NearQuery,
    least: u64,
) -> Result<Within, NearError>
    requires short { length reply.items < 2 ^ 32 }
    requires few { length chain.now ≤ 7 }
    ensures { ChecksNear H.hash public.now chain.now reply.items query least result }
{
    let passed = pass::<H>(alloc, public, chain, &reply, least);
    drop(reply);
    match passed {
        Ok(reply) => take(alloc, reply, query),
        Err(error) => Err(error),
    }
}
