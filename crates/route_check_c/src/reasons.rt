//! Refusals as numbers.
ghost use Rattle.std.specs.Prelude.{◌≡◌, ◌≢◌};
ghost use Rattle.route_check_c.specs.Codes.{cover_number, judged_reason, reach_reason, told as told_of, route_reason, seal_number};

use lms_tree::SealError;
use octet_text::NoMemory;
use proof_judge::Refusal;
use route_client::{CheckError, CoverFault, NearError};

/// The failed test, and the two numbers that it reports. Unused fields are 0.
#[derive(Clone, Copy, Debug, PartialEq, Eq)]
pub struct Reason {
    pub code: u32,
    pub first: u64,
    pub second: u64,
}

/// Makes the reason from a test's number and the numbers that it reports. Only `short_of_memory` reports out of
/// memory.
pub(crate) fn told(code: u32, first: u64, second: u64) -> Reason
    requires { code ≢ 16 }
    ensures { result ≡ told_of code first second }
{
    Reason {
        code,
        first,
        second,
    }
}

/// Makes the reason of out of memory.
pub(crate) fn short_of_memory(_none: NoMemory) -> Reason
    ensures { result ≡ told_of 16 0 0 }
{
    Reason {
        code: 16,
        first: 0,
        second: 0,
    }
}

fn number_of_seal(why: SealError) -> u64
    ensures { result ≡ seal_number why }
{
    match why {
        SealError::BadKey => 1,
        SealError::BadForm => 2,
        SealError::NoMatch => 3,
    }
}

fn number_of_cover(why: CoverFault) -> u64
    ensures { result ≡ cover_number why }
{
    match why {
        CoverFault::Place => 1,
        CoverFault::Short => 2,
        CoverFault::Long => 3,
        CoverFault::Differs => 4,
    }
}

fn reason_of_judged(why: Refusal) -> Reason
    ensures { result ≡ judged_reason why }
{
    match why {
        Refusal::RepeatedNode(id) => told(9, u64::from(id), 0),
        Refusal::BadRoute(hop) => told(10, u64::from(hop), 0),
        Refusal::MissingTuple(id) => told(11, u64::from(id), 0),
        Refusal::MissingPair(a, b) => told(12, u64::from(a), u64::from(b)),
        Refusal::Shorter(length) => told(13, length, 0),
        Refusal::Disagrees(distance) => told(14, distance, 0),
        Refusal::Memory(none) => short_of_memory(none),
    }
}

/// Returns the reason why a reply for a route is refused.
pub(crate) fn reason_of_route(why: CheckError) -> Reason
    ensures { result ≡ route_reason why }
{
    match why {
        CheckError::NotAnswer(kind) => told(3, u64::from(kind), 0),
        CheckError::Malformed(at) => told(4, u64::from(at), 0),
        CheckError::Stale(version) => told(5, version, 0),
        CheckError::BadChain(link, why) => told(6, u64::from(link), number_of_seal(why)),
        CheckError::BadSignature(why) => told(7, number_of_seal(why), 0),
        CheckError::BadCover(tree, why) => told(8, u64::from(tree), number_of_cover(why)),
        CheckError::Judged(why) => reason_of_judged(why),
        CheckError::Memory(none) => short_of_memory(none),
    }
}

/// Returns the reason why a reply to a range query is refused.
pub(crate) fn reason_of_reach(why: NearError) -> Reason
    ensures { result ≡ reach_reason why }
{
    match why {
        NearError::Malformed(at) => told(4, u64::from(at), 0),
        NearError::Stale(version) => told(5, version, 0),
        NearError::BadChain(link, why) => told(6, u64::from(link), number_of_seal(why)),
        NearError::BadSignature(why) => told(7, number_of_seal(why), 0),
        NearError::BadCover(why) => told(8, 1, number_of_cover(why)),
        NearError::RepeatedNode(id) => told(9, u64::from(id), 0),
        NearError::MissingTuple(id) => told(11, u64::from(id), 0),
        NearError::Memory(none) => short_of_memory(none),
    }
}
