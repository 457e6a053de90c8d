//! The verdict of a check, as numbers.
ghost use Rattle.std.specs.Prelude.{◌≡◌, length, IfOk, IfErr};
ghost use Rattle.route_check_c.specs.Codes.{told as told_of, accepted_numbers, apart_numbers, listed_numbers, refused_numbers};
ghost use Rattle.route_check_c.specs.Telling.{filled};

use crate::filling::fill;
use crate::reasons::{Reason, short_of_memory};
use octet_text::NoMemory;

/// The verdict of a check. Unused fields are 0.
#[repr(C)]
#[derive(Clone, Copy, Debug, PartialEq, Eq)]
pub struct Verdict {
    /// 1 if the reply is accepted, with a route or with nodes; 2 if the accepted result is that no walk joins the
    /// two ends; 19 if the accepted result is that no listed node lies within the radius; else the number of the
    /// first test that fails. Never 0.
    pub code: u32,
    /// The number of accepted nodes: those of the route, or those within the radius. With a list, only listed nodes
    /// count. The number may exceed the room in the caller's buffer.
    pub count: u64,
    /// The length of the accepted route.
    pub length: u64,
    /// The version of the publication to which the accepted reply belongs.
    pub version: u64,
    /// The first number that the failed test reports.
    pub first: u64,
    /// The second number that the failed test reports.
    pub second: u64,
    /// The number of octets in the line of a refusal. It may exceed the room in the caller's buffer.
    pub line: u64,
}

/// Makes the verdict of an accepted reply.
pub(crate) fn accepted(count: u64, length: u64, version: u64) -> Verdict
    ensures { result ≡ accepted_numbers count length version }
{
    Verdict {
        code: 1,
        count,
        length,
        version,
        first: 0,
        second: 0,
        line: 0,
    }
}

/// Makes the verdict of an accepted reply which shows that no walk joins the two ends.
pub(crate) fn accepted_apart(version: u64) -> Verdict
    ensures { result ≡ apart_numbers version }
{
    Verdict {
        code: 2,
        count: 0,
        length: 0,
        version,
        first: 0,
        second: 0,
        line: 0,
    }
}

/// Makes the verdict of an accepted reply to a range query, with the number of its listed nodes.
pub(crate) fn accepted_listed(count: u64, version: u64) -> Verdict
    ensures { result ≡ listed_numbers count version }
{
    Verdict {
        code: if count == 0 { 19 } else { 1 },
        count,
        length: 0,
        version,
        first: 0,
        second: 0,
        line: 0,
    }
}

/// Makes the verdict of a refused reply, with the length of its line.
pub(crate) fn refused(why: Reason, line: u64) -> Verdict
    ensures { result ≡ refused_numbers why line }
{
    Verdict {
        code: why.code,
        count: 0,
        length: 0,
        version: 0,
        first: why.first,
        second: why.second,
        line,
    }
}

/// Makes the verdict for a reply that was not checked because memory ran out.
pub(crate) fn short(none: NoMemory) -> Verdict
    ensures { result ≡ refused_numbers (told_of 16 0 0) 0 }
{
    refused(short_of_memory(none), 0)
}

/// Returns the numbers of a refusal, and copies its line into the line's buffer. If memory runs out for the line,
/// reports this instead and leaves the buffer unchanged.
pub(crate) fn tell_refused(why: Reason, text: Result<Vec<u8>, NoMemory>, line: &mut [u8]) -> Verdict
    ensures reasoned { IfOk text (λ text. (result ≡ refused_numbers why (length text.items)) ×
        (line.new ≡ filled text.items line.old)) }
    ensures short { IfErr text (λ _. (result ≡ refused_numbers (told_of 16 0 0) 0) ×
        (line.new ≡ line.old)) }
{
    match text {
        Ok(text) => {
            fill(line, &text);
            refused(why, text.len() as u64)
        }
        Err(none) => short(none),
    }
}
