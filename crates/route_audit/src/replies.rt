//! The trait of kinds of replies.
ghost use Rattle.std.specs.Prelude.{◌≡◌, ◌<◌, ◌≤◌, ◌^◌, length, IfOk, IfErr};
ghost use Rattle.sha2.specs.Sha256.{sha256};
ghost use Rattle.route_server.specs.Keeping.{HasSpellings, IsKept, header_in, publication_in};
ghost use Rattle.route_audit.specs.Kinds.{AreReplies, ReplyKind};
ghost use Rattle.route_audit.specs.Steps.{Compared, IsAnswerTo, IsRefused};

use crate::{AuditError, Finding};
use lms_tree::Link;
use octet_text::{Hasher, NoMemory};
use proof_octets::Header;
use route_server::Held;
use std::alloc::Global;

/// A kind of replies: how a client accepts a reply of this kind, and how its contents are compared with a
/// publication's book.
pub trait Replies {
    /// The type of the queries.
    type Query: Copy;

    /// The type of the values that octets encode.
    type Answer: Drop;

    /// The type of the result that a client takes from an answer.
    type Taken: Drop;

    /// The type of the reasons for which a client refuses a reply.
    type Refusal: Copy;

    // The kind.
    ghost kind: { ReplyKind Self.Query Self.Answer Self.Taken Self.Refusal };

    /// Returns the answer that octets encode, if the client accepts them as a reply to a query under a key and a
    /// chain, whatever its version.
    fn accepted<H: Hasher>(
        alloc: Global,
        public: &[u8],
        chain: &[Link],
        octets: &[u8],
        query: Self::Query,
    ) -> Result<Self::Answer, AuditError<Self::Refusal>>
        requires short { length octets.now < 2 ^ 32 }
        requires few { length chain.now ≤ 7 }
        ensures accepted { IfOk result
            (IsAnswerTo kind H.hash public.now chain.now octets.now query) }
        ensures good { IfOk result kind.IsGood }
        ensures refused { IfErr result
            (IsRefused kind H.hash public.now chain.now octets.now query) };

    /// Returns the header of an answer.
    fn header(answer: &Self::Answer) -> &Header
        ensures { result.now ≡ kind.header answer.now };

    /// Returns the signature of an answer.
    fn signature(answer: &Self::Answer) -> &[u8]
        ensures { result.now ≡ kind.signature answer.now };

    /// Returns what an answer is evidence of, given the book with its header.
    fn compare<H: Hasher>(
        alloc: Global,
        held: &Held<H>,
        public: &[u8],
        chain: &[Link],
        octets: &[u8],
        query: Self::Query,
        answer: &Self::Answer,
    ) -> Result<Finding, NoMemory>
        requires short { length octets.now < 2 ^ 32 }
        requires accepted { IsAnswerTo kind H.hash public.now chain.now octets.now query answer.now }
        requires good { kind.IsGood answer.now }
        requires kept { IsKept held.now }
        requires spelled { HasSpellings held.now }
        requires same { kind.header answer.now ≡ header_in H.hash held.now }
        ensures { IfOk result
            (Compared kind H.hash sha256 (publication_in H.hash held.now) query answer.now) };

    /// Laws of replies of this kind.
    fn laws()
        ensures { AreReplies kind };
}
