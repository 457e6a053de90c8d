//! The findings of an audit about honest replies.
ghost use Rattle.near_proof.specs.Right.{HonestReachesAreRight, HonestRepliesAreRight};

use crate::honest_laws;
use crate::laws::near_laws;
use proof_method::method_laws;
use road_map::map_laws;
use route_server::server_laws;

/// Every honest reply over a signed publication is accepted and right: everything that it carries comes from the
/// publication's own trees, and the result that the client takes from it is true of the map. So an audit finds no
/// collision in it.
///
/// The publication's header is the one that its own parts and settings give, and is signed under a key. The law
/// covers routes, proofs that no route exists, and the nodes within a radius.
pub fn right_laws()
    ensures routes { HonestRepliesAreRight }
    ensures radii { HonestReachesAreRight }
{
    map_laws();
    method_laws();
    server_laws();
    honest_laws();
    near_laws();
}
