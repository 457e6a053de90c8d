//! Auditing a reply for a radius.
ghost use Rattle.std.specs.Prelude.{◌<◌, ◌≤◌, ◌^◌, length};
ghost use Rattle.sha2.specs.Sha256.{sha256};
ghost use Rattle.key_desk.specs.Desk.{Fits};
ghost use Rattle.route_audit.specs.Findings.{Audits};
ghost use Rattle.route_audit.specs.Radii.{radii};

use crate::radii::Radii;
use crate::{AuditError, Finding, audit_reply};
use key_desk::Desk;
use lms_tree::Link;
use octet_text::Hasher;
use proof_octets::{NearQuery, Publication};
use road_io::Disk;
use route_client::NearError;
use std::alloc::Global;

/// Audits a reply for the nodes within a radius, as `audit_reply` does. `Right` then means exactly the nodes within
/// the radius in the publication's map, each with its distance. A collision is in the node tree.
pub fn audit_near<H: Hasher, D: Disk>(
    alloc: Global,
    public: &[u8],
    chain: &[Link],
    reply: &[u8],
    query: NearQuery,
    publication: Publication,
    desk: &mut Desk,
    disk: &mut D,
) -> Result<Finding, AuditError<NearError>>
    requires fits { Fits D.Disk desk.old disk.old }
    requires short { length reply.now < 2 ^ 32 }
    requires few { length chain.now ≤ 7 }
    ensures { Audits radii H.hash sha256 D.Disk desk.old disk.old desk.new disk.new
        (record {
          public = public.now;
          chain = chain.now;
          reply = reply.now;
          query = query;
          publication = publication;
        }) result }
{
    audit_reply::<Radii, H, D>(alloc, public, chain, reply, query, publication, desk, disk)
}
