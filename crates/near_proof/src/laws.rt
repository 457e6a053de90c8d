//! The verdicts of a client on honest replies for a radius.
ghost use Rattle.near_proof.specs.NearLaws.{NearRepliesAreAccepted};

use proof_method::method_laws;
use road_map::map_laws;
use route_server::server_laws;

/// The honest reply to a range query from a known node, over a signed publication, is accepted. The accepted nodes
/// are exactly those within the radius, each with its distance.
///
/// The publication's header is the one that its own parts and settings give, and is signed under a key. The client
/// accepts the publication's version. It accepts the reply under that key without links. It also accepts the reply
/// under each key from which a chain leads to that key, with this chain.
pub fn near_laws()
    ensures { NearRepliesAreAccepted }
{
    map_laws();
    method_laws();
    server_laws();
}
