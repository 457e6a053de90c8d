//! The check of a reply to a range query that returns the nearest listed nodes.
ghost use Rattle.std.specs.Prelude.{◌≡◌, Contains, IfOk, length};
ghost use Rattle.std.specs.List.Sorted.{IsStrictlySortedBy};
ghost use Rattle.std.specs.Ordering.{nat_cmp};
ghost use Rattle.sha2.specs.Sha256.{sha256};
ghost use Rattle.proof_octets.specs.Radius.{marked_ids};
ghost use Rattle.route_client.specs.NearVerdicts.{IsNearVerdict};
ghost use Rattle.route_client.specs.Nearest.{PicksNearest};
ghost use Rattle.route_check_c.specs.Codes.{told as told_of, refused_numbers};
ghost use Rattle.route_check_c.specs.Listing.{TellsListed, TellsNearest};
ghost use Rattle.route_check_c.specs.Placing.{AreApart, HaveLeavesOf};
ghost use Rattle.route_check_c.specs.Telling.{AreTooLong};

use crate::chains::links_of;
use crate::filling::fill_reached;
use crate::nodes::by_ids;
use crate::reach::line_of;
use crate::reasons::reason_of_reach;
use crate::verdict::{accepted_listed, refused, short, tell_refused};
use crate::{ReachedNode, Verdict};
use octet_text::{NoMemory, Sha};
use proof_octets::NearQuery;
use route_client::{CheckedReply, Picked, check_near_reply, nearest};
use std::alloc::Global;

/// Copies the nearest listed nodes among the accepted ones into the buffer, as many as fit. Returns the number of
/// listed nodes.
fn pick(
    alloc: Global,
    checked: &CheckedReply,
    ids: &[u32],
    room: &[ReachedNode],
) -> Result<Picked, NoMemory>
    requires leaves { HaveLeavesOf checked.now.reply.nodes checked.now.nodes }
    requires rising { IsStrictlySortedBy nat_cmp (marked_ids checked.now.nodes) }
    ensures picked { IfOk result
        (PicksNearest (λ m. Contains checked.now.nodes m) ids.now (length room.now)) }
    ensures leaves { IfOk result (λ picked. HaveLeavesOf checked.now.reply.nodes picked.nodes) }
{
    nearest(alloc, checked.nodes.as_slice(), ids, room.len())
}

/// Returns the numbers of an accepted reply, and copies the nearest listed nodes into their buffer.
fn tell(alloc: Global, checked: &CheckedReply, ids: &[u32], nodes: &mut [ReachedNode]) -> Verdict
    requires leaves { HaveLeavesOf checked.now.reply.nodes checked.now.nodes }
    requires apart { AreApart checked.now.reply.nodes }
    requires rising { IsStrictlySortedBy nat_cmp (marked_ids checked.now.nodes) }
    ensures { TellsListed ids.now checked.now nodes.old nodes.new result }
{
    let by_id = match by_ids(alloc, &checked.reply.nodes) {
        Ok(by_id) => by_id,
        Err(none) => return short(none),
    };
    match pick(alloc, checked, ids, nodes) {
        Ok(picked) => {
            fill_reached(nodes, &by_id, picked.nodes.as_slice());
            accepted_listed(picked.count as u64, checked.reply.header.version)
        }
        Err(none) => short(none),
    }
}

/// Checks a reply to the query for the nodes within a radius under the owner's public key, as `gog_proved_reach`
/// does, and returns the verdict's code.
///
/// Counts the accepted nodes with listed ids. Copies the nearest of them into `nodes`, as many as fit, by ascending
/// distance and then by ascending id. Each node has the coordinates that its leaf in the reply gives. The ids may
/// be in any order, and an id that is listed twice counts once. A listed id that is not counted is farther than the
/// radius, is not joined to the start, or is not a node.
///
/// Writes the line of a refused reply into `line`. The other buffer is unchanged.
#[unsafe(no_mangle)]
pub extern "C" fn gog_proved_nearest(
    alloc: Global,
    public: &[u8],
    chain: &[u8],
    reply: &[u8],
    from: u32,
    radius: u64,
    least: u64,
    ids: &[u32],
    nodes: &mut [ReachedNode],
    line: &mut [u8],
    verdict: &mut Verdict,
) -> u32
    ensures code { result ≡ verdict.new.code }
    ensures told { TellsNearest
        (λ links. IsNearVerdict sha256 public.now links reply.now
        (record { from = from; radius = radius }) least)
        ids.now chain.now reply.now nodes.old nodes.new line.old line.new verdict.new }
    ensures too_long { AreTooLong chain.now reply.now →
        verdict.new ≡ refused_numbers (told_of 17 0 0) 0 }
{
    let links = match links_of(alloc, chain, reply) {
        Ok(links) => links,
        Err(why) => {
            *verdict = refused(why, 0);
            return why.code;
        }
    };
    let query = NearQuery { from, radius };
    match check_near_reply::<Sha>(alloc, public, links.as_slice(), reply, query, least) {
        Ok(checked) => *verdict = tell(alloc, &checked, ids, nodes),
        Err(error) => {
            *verdict = tell_refused(reason_of_reach(error), line_of(alloc, error), line);
        }
    }
    verdict.code
}
