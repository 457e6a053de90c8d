//! The verdicts of a client on the answers of a service.
ghost use Rattle.near_proof.specs.Served.{ServedAnswersAreAccepted, ServedUnknownNodesAreTold};

use crate::answer_laws::honest_laws;

/// A client accepts every answer of a service to a question in an open session, in any step of a run, as
/// `honest_laws` states for honest replies. If an end is unknown, the reply states this.
///
/// The publication's header is the one that its own parts and settings give, and is signed under a key.
pub fn served_laws()
    ensures accepted { ServedAnswersAreAccepted }
    ensures unknown { ServedUnknownNodesAreTold }
{
    honest_laws();
}
