//! Replies for routes.
ghost use Rattle.std.specs.Prelude.{◌≡◌};

use crate::comparing::compare;
use crate::{AuditError, Finding, Replies};
use book_model::Query;
use lms_tree::Link;
use octet_text::{Hasher, NoMemory};
use proof_method::method_laws;
use proof_octets::{Answer, Header};
use route_client::{CheckError, Checked, check_answer, verdict_laws};
use route_server::Held;
use std::alloc::Global;

/// Replies for routes between two nodes.
pub struct Routes;

impl Replies for Routes {
    ghost use Rattle.route_audit.specs.Routes.{routes};

    type Query = Query;

    type Answer = Answer;

    type Taken = Checked;

    type Refusal = CheckError;

    ghost kind = { routes };

    fn accepted<H: Hasher>(
        alloc: Global,
        public: &[u8],
        chain: &[Link],
        octets: &[u8],
        query: Query,
    ) -> Result<Answer, AuditError<CheckError>> {
        verdict_laws();
        match check_answer::<H>(alloc, public, chain, octets, query, 0) {
            Ok(checked) => Ok(checked.answer),
            Err(CheckError::Memory(none)) => Err(AuditError::Memory(none)),
            Err(refusal) => Err(AuditError::Refused(refusal)),
        }
    }

    fn header(answer: &Answer) -> &Header {
        &answer.header
    }

    fn signature(answer: &Answer) -> &[u8] {
        answer.signature.as_slice()
    }

    fn compare<H: Hasher>(
        alloc: Global,
        held: &Held<H>,
        _public: &[u8],
        _chain: &[Link],
        octets: &[u8],
        _query: Query,
        answer: &Answer,
    ) -> Result<Finding, NoMemory> {
        method_laws();
        compare::<H>(alloc, held, octets, answer)
    }

    fn laws() {
        verdict_laws();
    }
}
