//! The check of a reply to a range query.
ghost use Rattle.std.specs.Prelude.{◌≡◌, ◌≢◌, IfOk};
ghost use Rattle.octet_text.specs.Want.{no_memory};
ghost use Rattle.sha2.specs.Sha256.{sha256};
ghost use Rattle.route_client.specs.NearVerdicts.{IsNearVerdict};
ghost use Rattle.route_check_c.specs.Placing.{AreApart, HaveLeavesOf};
ghost use Rattle.route_client.specs.declared.near_errors.NearError.{NearError};
ghost use Rattle.road_line.specs.WithinLine.{refused_near_line};
ghost use Rattle.route_check_c.specs.Codes.{told as told_of, refused_numbers};
ghost use Rattle.route_check_c.specs.Telling.{AreTooLong, TellsReach, TellsReached};

use crate::chains::links_of;
use crate::filling::fill_reached;
use crate::nodes::by_ids;
use crate::reasons::reason_of_reach;
use crate::verdict::{accepted, refused, short, tell_refused};
use crate::{ReachedNode, Verdict};
use octet_text::{NoMemory, Sha};
use proof_octets::NearQuery;
use road_line::line_of_refused_near;
use route_client::{CheckedReply, NearError, check_near_reply};
use std::alloc::Global;

/// Returns the numbers of an accepted reply, and copies its nodes into their buffer.
fn tell(alloc: Global, checked: &CheckedReply, nodes: &mut [ReachedNode]) -> Verdict
    requires leaves { HaveLeavesOf checked.now.reply.nodes checked.now.nodes }
    requires apart { AreApart checked.now.reply.nodes }
    ensures { TellsReached checked.now nodes.old nodes.new result }
{
    match by_ids(alloc, &checked.reply.nodes) {
        Ok(by_id) => {
            let marks = checked.nodes.as_slice();
            fill_reached(nodes, &by_id, marks);
            accepted(marks.len() as u64, 0, checked.reply.header.version)
        }
        Err(none) => short(none),
    }
}

/// Returns the line of a refusal. Running out of memory has no line.
pub(crate) fn line_of(alloc: Global, error: NearError) -> Result<Vec<u8>, NoMemory>
    ensures { IfOk result (λ text. (error ≢ NearError.Memory no_memory) × (text.items ≡ refused_near_line error)) }
{
    match error {
        NearError::Memory(none) => Err(none),
        _ => line_of_refused_near(alloc, error),
    }
}

/// Checks a reply to the query for the nodes within a radius under the owner's public key, and returns the
/// verdict's code. The parameters `chain` and `least` are as in `gog_proved_route`.
///
/// Copies the accepted nodes into `nodes` by ascending id, as many as fit. Each node has the coordinates that its
/// leaf in the reply gives. Writes the line of a refused reply into `line`. The other buffer is unchanged.
#[unsafe(no_mangle)]
pub extern "C" fn gog_proved_reach(
    alloc: Global,
    public: &[u8],
    chain: &[u8],
    reply: &[u8],
    from: u32,
    radius: u64,
    least: u64,
    nodes: &mut [ReachedNode],
    line: &mut [u8],
    verdict: &mut Verdict,
) -> u32
    ensures code { result ≡ verdict.new.code }
    ensures told { TellsReach
        (λ links. IsNearVerdict sha256 public.now links reply.now
        (record { from = from; radius = radius }) least)
        chain.now reply.now nodes.old nodes.new line.old line.new verdict.new }
    ensures too_long { AreTooLong chain.now reply.now →
        verdict.new ≡ refused_numbers (told_of 17 0 0) 0 }
{
    let links = match links_of(alloc, chain, reply) {
        Ok(links) => links,
        Err(why) => {
            *verdict = refused(why, 0);
            return why.code;
        }
    };
    let query = NearQuery { from, radius };
    match check_near_reply::<Sha>(alloc, public, links.as_slice(), reply, query, least) {
        Ok(checked) => *verdict = tell(alloc, &checked, nodes),
        Err(error) => {
            *verdict = tell_refused(reason_of_reach(error), line_of(alloc, error), line);
        }
    }
    verdict.code
}
