// Comparing a reply for a radius with a publication's book.
ghost use Rattle.std.specs.Prelude.{◌≡◌, ◌<◌, ◌^◌, length, IfOk, Ok};
ghost use Rattle.route_server.specs.Keeping.{header_in};
ghost use Rattle.proof_octets.specs.NearReplies.{near_reply, IsGoodNear};
ghost use Rattle.route_client.specs.NearVerdicts.{items_covered};
ghost use Rattle.route_audit.specs.NearComparing.{part_of, Compares};

use crate::Finding;
use crate::comparing::clash_under;
use merkle_cover::CutTexts;
use octet_text::{Hasher, NoMemory};
use proof_octets::NearReply;
use route_client::reply_cuts;
use route_server::Held;
use std::alloc::Global;

/// Returns what an accepted reply is evidence of, given the book with its header.
pub(crate) fn compare<H: Hasher>(
    alloc: Global,
    held: &Held<H>,
    octets: &[u8],
    reply: &NearReply,
) -> Result<Finding, NoMemory>
    requires good { IsGoodNear reply.now }
    requires spelled { octets.now ≡ near_reply.spell reply.now }
    requires short { length octets.now < 2 ^ 32 }
    requires same { reply.now.header ≡ header_in H.hash held.now }
    requires covered { items_covered H.hash reply.now ≡ Ok tt }
    ensures { IfOk result (Compares H.hash (part_of held.now reply.now)) }
{
    let cuts = reply_cuts(alloc, octets, reply)?;
    let texts = CutTexts::new(octets, cuts.as_slice());
    let clash = clash_under::<H>(
        alloc,
        held,
        1,
        reply.places.as_slice(),
        &texts,
        reply.cover.as_slice(),
    )?;
    match clash {
        Some(two) => Ok(Finding::collision(two)),
        None => Ok(Finding::Right),
    }
}
