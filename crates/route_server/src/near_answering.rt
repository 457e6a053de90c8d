//! Answering queries for the nodes within a radius.
ghost use Rattle.std.specs.Prelude.{◌≡◌, ◌<◌, ◌≤◌, ◌-◌, ◌^◌, IfOk, IfErr, length};
ghost use Rattle.sha2.specs.Sha256.{sha256};
ghost use Rattle.route_server.specs.NearHonesty.{IsNearHonest, WhyNot, IsToldOver};
ghost use Rattle.road_map.specs.Walks.{Knows};
ghost use Rattle.route_server.specs.Keeping.{publication_in};

use crate::reaching::ids_within;
use crate::{Held, NearRefusal, header_laws};
use octet_text::{Hasher, NoMemory, Octets, copied};
use proof_octets::{Header, NearQuery, PlacedNear, near_range_laws};
use road_search::knows;
use std::alloc::Global;

fn signature_of(alloc: Global, octets: &[u8]) -> Result<Octets, NoMemory>
    ensures { IfOk result (λ signature. signature ≡ octets.now) }
{
    let octets = copied(alloc, octets)?;
    Ok(Octets::from_vec(octets))
}

// Gives the fact that the version of a header fits its width.
fn version_fits(header: &Header)
    ensures { header.now.version < 2 ^ 64 }
{
    let _version = header.version;
}

// Makes the reply for the nodes within the radius of a known node.
fn reply_from<H: Hasher>(
    alloc: Global,
    held: &Held<H>,
    query: NearQuery,
) -> Result<PlacedNear, NoMemory>
    requires known { Knows held.now.map.parts query.from }
    requires signature { length held.now.signature ≤ 1452 }
    ensures { IfOk result (IsToldOver H.hash held.now query) }
{
    let map = held.map();
    let ids = ids_within(alloc, map, query)?;
    let brought = held.bring(alloc, &ids)?;
    let signature = signature_of(alloc, held.signature())?;
    let header = held.header();
    version_fits(&header);
    header_laws::<H>();
    near_range_laws();
    Ok(PlacedNear {
        header,
        signature,
        places: brought.places,
        cover: brought.cover,
    })
}

/// Returns the octets of the honest reply to a query for the nodes within a radius. The reply has the leaves of
/// exactly the nodes whose distance is at most the radius, the publication's header and signature, and the cover of
/// all other leaves.
///
/// The reply has fewer than 2^32 - 16 octets, so its length fits in the 32 bits of a frame's length.
///
/// Fails with `UnknownNode` exactly if no node has the id in the query. This does not depend on the available
/// memory.
pub fn answer_near<H: Hasher>(
    alloc: Global,
    held: &Held<H>,
    query: NearQuery,
) -> Result<Vec<u8>, NearRefusal>
    requires { length held.now.signature ≤ 1452 }
    ensures honest { IfOk result (λ octets.
        IsNearHonest H.hash sha256 (publication_in H.hash held.now) query octets.items) }
    ensures short { IfOk result (λ octets. length octets.items < 2 ^ 32 - 16) }
    ensures refused { IfErr result (WhyNot held.now.map.parts query) }
    ensures unknown { ¬ Knows held.now.map.parts query.from
        → result ≡ Err (NearRefusal.UnknownNode query.from) }
{
    let map = held.map();
    if !knows(map, query.from) {
        return Err(NearRefusal::UnknownNode(query.from));
    }
    let reply = reply_from(alloc, held, query)?;
    let octets = reply.write(alloc, held.node_texts())?;
    Ok(octets)
}
