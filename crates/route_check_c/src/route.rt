//! The check of a reply for a route.
ghost use Rattle.std.specs.Prelude.{◌≡◌, ◌≢◌, IfOk, IfSome};
ghost use Rattle.octet_text.specs.Want.{no_memory};
ghost use Rattle.sha2.specs.Sha256.{sha256};
ghost use Rattle.route_client.specs.Verdicts.{IsVerdict};
ghost use Rattle.route_check_c.specs.Placing.{AreApart, HaveLeaves};
ghost use Rattle.route_client.specs.declared.errors.CheckError.{CheckError};
ghost use Rattle.road_line.specs.VerdictLine.{refused_line};
ghost use Rattle.route_check_c.specs.Codes.{told as told_of, refused_numbers};
ghost use Rattle.route_check_c.specs.Telling.{AreTooLong, TellsChecked, TellsFound, TellsRoute, Unwanted};

use crate::chains::links_of;
use crate::filling::fill_route;
use crate::nodes::by_ids;
use crate::reasons::{Reason, reason_of_route, short_of_memory, told};
use crate::repeats::is_simple;
use crate::verdict::{accepted, accepted_apart, refused, short, tell_refused};
use crate::{RouteNode, Verdict};
use book_model::Query;
use octet_text::{NoMemory, Sha};
use proof_octets::Answer;
use road_line::line_of_refused;
use route_client::{CheckError, CheckedAnswer, check_answer};
use std::alloc::Global;

/// Fails if a route visits a node twice and `simple` is not 0, or if memory runs out.
fn unwanted(alloc: Global, ids: &[u32], simple: u32) -> Result<(), Reason>
    ensures { Unwanted simple ids.now result }
{
    if simple == 0 {
        return Ok(());
    }
    match is_simple(alloc, ids) {
        Ok(true) => Ok(()),
        Ok(false) => Err(told(15, 0, 0)),
        Err(none) => Err(short_of_memory(none)),
    }
}

/// Returns the numbers of a route, and copies its nodes into their buffer.
fn tell_route(
    alloc: Global,
    answer: &Answer,
    length: u64,
    simple: u32,
    nodes: &mut [RouteNode],
) -> Verdict
    requires leaves { HaveLeaves answer.now.items.nodes answer.now.items.route }
    requires apart { AreApart answer.now.items.nodes }
    ensures { TellsFound simple answer.now length nodes.old nodes.new result }
{
    let ids = answer.items.route.as_slice();
    if let Err(why) = unwanted(alloc, ids, simple) {
        return refused(why, 0);
    }
    match by_ids(alloc, &answer.items.nodes) {
        Ok(by_id) => {
            fill_route(nodes, &by_id, ids);
            accepted(ids.len() as u64, length, answer.header.version)
        }
        Err(none) => short(none),
    }
}

/// Returns the numbers of an accepted reply, and copies the nodes of its route into their buffer.
fn tell(alloc: Global, checked: &CheckedAnswer, simple: u32, nodes: &mut [RouteNode]) -> Verdict
    requires leaves { IfSome checked.now.length
        (λ _. HaveLeaves checked.now.answer.items.nodes checked.now.answer.items.route) }
    requires apart { IfSome checked.now.length (λ _. AreApart checked.now.answer.items.nodes) }
    ensures { TellsChecked simple checked.now nodes.old nodes.new result }
{
    match checked.length {
        Some(length) => tell_route(alloc, &checked.answer, length, simple, nodes),
        None => accepted_apart(checked.answer.header.version),
    }
}

/// Returns the line of a refusal. Running out of memory has no line.
fn line_of(alloc: Global, error: CheckError) -> Result<Vec<u8>, NoMemory>
    ensures { IfOk result (λ text. (error ≢ CheckError.Memory no_memory) × (text.items ≡ refused_line error)) }
{
    match error {
        CheckError::Memory(none) => Err(none),
        _ => line_of_refused(alloc, error),
    }
}

/// Checks a reply to the query for a shortest route under the owner's public key, and returns the verdict's code.
///
/// `chain` has the octets of a chain file that leads from the key to the owner's later keys. It is empty if there
/// are no links. `least` is the minimum version accepted. If `simple` is not 0, a route that visits a node twice is
/// refused.
///
/// Copies the nodes of an accepted route into `nodes`, as many as fit. Each node has the coordinates that its leaf
/// in the reply gives. Writes the line of a refused reply into `line`. The other buffer is unchanged. Both buffers
/// are unchanged if the accepted result is that no walk joins the two ends.
#[unsafe(no_mangle)]
pub extern "C" fn gog_proved_route(
    alloc: Global,
    public: &[u8],
    chain: &[u8],
    reply: &[u8],
    from: u32,
    to: u32,
    least: u64,
    simple: u32,
    nodes: &mut [RouteNode],
    line: &mut [u8],
    verdict: &mut Verdict,
) -> u32
    ensures code { result ≡ verdict.new.code }
    ensures told { TellsRoute
        (λ links. IsVerdict sha256 public.now links reply.now (record { from = from; to = to }) least)
        chain.now reply.now simple nodes.old nodes.new line.old line.new verdict.new }
    ensures too_long { AreTooLong chain.now reply.now →
        verdict.new ≡ refused_numbers (told_of 17 0 0) 0 }
{
    let links = match links_of(alloc, chain, reply) {
        Ok(links) => links,
        Err(why) => {
            *verdict = refused(why, 0);
            return why.code;
        }
    };
    let query = Query { from, to };
    match check_answer::<Sha>(alloc, public, links.as_slice(), reply, query, least) {
        Ok(checked) => *verdict = tell(alloc, &checked, simple, nodes),
        Err(error) => {
            *verdict = tell_refused(reason_of_route(error), line_of(alloc, error), line);
        }
    }
    verdict.code
}
