//! The guarantee for the nearest nodes that a client picks from an accepted range reply.
ghost use Rattle.std.specs.Prelude.{ℕ, List, Option, Result};
ghost use Rattle.road_io.specs.Contents.{Folder};
ghost use Rattle.proof_octets.specs.declared.query.NearQuery.{NearQuery};
ghost use Rattle.route_audit.specs.Radii.{radii};
ghost use Rattle.command_files.specs.declared.fault.Fault.{Fault};
ghost use Rattle.command_files.specs.declared.ended.Conclusion.{Conclusion};
ghost use Rattle.audit_commands.specs.Headline.{AuditsAccepted};
ghost use Rattle.audit_commands.specs.Nearest.{AuditsNearest};

use road_io::Disk;
use route_client::nearest_laws;

/// Take any octets that a client accepts, and the ids that `nearest` picks from them. In the first case, the picked
/// ids are nodes of a map that the owner signed, each at exactly its distance, nearest first; ties are broken by
/// the lower id. A listed id that is not picked is farther than the radius, or no walk joins it, or it is not a
/// node, or as many ids as requested are picked before it.
///
/// In every other case, the audit writes two texts with the same SHA-256 digest, or a text that the owner never
/// signed with a signature that verifies; or the reply belongs to another publication than the one given to the
/// audit; or memory ran out; or an outside object failed. This follows from the guarantees of `audit_reach` over
/// any disk.
pub fn nearest_headline<D: Disk>()
    ensures { (content : Option (List ℕ)) (disk : D) (key publication reply : List ℕ) (q : NearQuery)
        (chain : Option (List ℕ)) (files : Option Folder) (old new : Option (List ℕ))
        (outcome : Result Conclusion Fault)
        → AuditsAccepted radii D.Disk content disk key publication reply q chain files old new outcome
        → AuditsNearest D.Disk content disk key publication reply q chain files old new outcome }
{
    nearest_laws();
}
