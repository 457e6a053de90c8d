//! The verdicts of a client on honest replies.
ghost use Rattle.near_proof.specs.DeskKeys.{LinksLead};
ghost use Rattle.near_proof.specs.Honest.{AnswersAreAccepted, UnknownNodesAreTold};

use proof_method::method_laws;
use road_map::map_laws;
use route_server::server_laws;

/// If the ends are known, every honest reply over a signed publication is accepted and true of the map. If an end
/// is unknown, the reply states this and is refused for this reason.
///
/// The publication's header is the one that its own parts and settings give, and is signed under a key. The client
/// accepts the publication's version. It accepts the reply under that key without links. It also accepts the reply
/// under each key from which a chain leads to that key, with this chain. The accepted result is a shortest route
/// or, if no walk joins the ends, this fact.
pub fn honest_laws()
    ensures accepted { AnswersAreAccepted }
    ensures unknown { UnknownNodesAreTold }
{
    map_laws();
    method_laws();
    server_laws();
}

/// The links of a desk lead from its first key to each of its keys, if each is signed under the previous key, as
/// the links that `Desk::links` returns are. So, by the laws of honest replies, each publication that the desk
/// signed is accepted under its first key with these links.
pub fn desk_laws()
    ensures { LinksLead }
{}
