//! Auditing a reply.
ghost use Rattle.std.specs.Prelude.{◌≡◌, ◌≢◌, ◌<◌, ◌≤◌, ◌^◌, false, length, Err};
ghost use Rattle.sha2.specs.Sha256.{sha256};
ghost use Rattle.key_desk.specs.Desk.{Fits};
ghost use Rattle.key_desk.specs.declared.desk.DeskError.TheVariants as desk_errors;
ghost use Rattle.desk_look.specs.Left.{IsLeft};
ghost use Rattle.desk_look.specs.Looks.{IsKeyFrom, look_at};
ghost use Rattle.route_server.specs.Keeping.{HasSpellings, IsKept};
ghost use Rattle.route_audit.specs.Findings.{Audits};
ghost use Rattle.route_audit.specs.Routes.{routes};
ghost use Rattle.route_audit.specs.Steps.{FindsIn, IsAnswerTo};

use crate::routes::Routes;
use crate::steps::install;
use crate::{AuditError, Finding, Replies};
use book_model::Query;
use desk_look::{LookError, look, own_key};
use key_desk::Desk;
use lms_tree::Link;
use octet_text::Hasher;
use proof_octets::Publication;
use road_io::Disk;
use route_client::CheckError;
use route_server::{Held, is_same_header, server_laws};
use std::alloc::Global;

// Returns what an accepted answer is evidence of, given the desk and the book of a publication.
fn find_in<R: Replies, H: Hasher, D: Disk>(
    alloc: Global,
    held: &Held<H>,
    public: &[u8; 56],
    chain: &[Link],
    octets: &[u8],
    query: R::Query,
    answer: &R::Answer,
    desk: &mut Desk,
    disk: &mut D,
) -> Result<Finding, AuditError<R::Refusal>>
    requires fits { Fits D.Disk desk.old disk.old }
    requires own { IsKeyFrom desk.old 0 public.now }
    requires short { length octets.now < 2 ^ 32 }
    requires accepted { IsAnswerTo R.kind H.hash public.now chain.now octets.now query answer.now }
    requires good { R.kind.IsGood answer.now }
    requires kept { IsKept held.now }
    requires spelled { HasSpellings held.now }
    ensures finds { FindsIn R.kind H.hash sha256 (look_at D.Disk desk.old disk.old disk.new)
        public.now chain.now held.now query answer.now result }
    ensures left { IsLeft D.Disk desk.old disk.old desk.new disk.new }
    ensures kept { result ≢ Err (AuditError.Desk desk_errors.DiskFault) →
        D.faults disk.new ≡ D.faults disk.old }
    ensures closes { result ≡ Err (AuditError.Desk desk_errors.DiskFault) →
        desk.new.is_open ≡ false }
    ensures closed { desk.old.is_open ≡ false →
        result ≡ Err (AuditError.Desk desk_errors.Closed) }
{
    R::laws();
    let header = R::header(answer);
    match look(
        alloc,
        desk,
        disk,
        public,
        chain,
        &header.write(),
        R::signature(answer),
    ) {
        Ok(None) => {}
        Ok(Some(forgery)) => return Ok(Finding::forged(forgery)),
        Err(LookError::Desk(failure)) => return Err(AuditError::Desk(failure)),
        Err(LookError::Memory(none)) => return Err(AuditError::Memory(none)),
    }
    if !is_same_header(header, &held.header()) {
        return Err(AuditError::OtherPublication);
    }
    match R::compare::<H>(alloc, held, public, chain, octets, query, answer) {
        Ok(finding) => Ok(finding),
        Err(none) => Err(AuditError::Memory(none)),
    }
}

/// Returns what a reply is evidence of, given the owner's desk and a publication. A client accepted the reply under
/// a public key and a chain of links.
///
/// The result is the first of these that applies: `OtherKey` if the public key does not belong to the desk (this
/// does not depend on the available memory); `Refused` if the client does not accept the reply, whatever its
/// version; `Install` if the publication's header is not that of its parts and settings; `Desk` if the desk is
/// closed or its disk fails; `Forged` for the first link whose text is in no spent slot; `Forged` for the accepted
/// header if it is in no spent slot; `OtherPublication` if that header is not the publication's; `Collision` if the
/// reply carries anything that is not from the publication's trees; else `Right`.
pub fn audit_reply<R: Replies, H: Hasher, D: Disk>(
    alloc: Global,
    public: &[u8],
    chain: &[Link],
    reply: &[u8],
    query: R::Query,
    publication: Publication,
    desk: &mut Desk,
    disk: &mut D,
) -> Result<Finding, AuditError<R::Refusal>>
    requires fits { Fits D.Disk desk.old disk.old }
    requires short { length reply.now < 2 ^ 32 }
    requires few { length chain.now ≤ 7 }
    ensures { Audits R.kind H.hash sha256 D.Disk desk.old disk.old desk.new disk.new
        (record {
          public = public.now;
          chain = chain.now;
          reply = reply.now;
          query = query;
          publication = publication;
        }) result }
{
    R::laws();
    server_laws();
    let Some(key) = own_key(desk, public) else {
        return Err(AuditError::OtherKey);
    };
    let answer = R::accepted::<H>(alloc, public, chain, reply, query)?;
    let held = install::<H, R::Refusal>(alloc, publication)?;
    find_in::<R, H, D>(alloc, &held, &key, chain, reply, query, &answer, desk, disk)
}

/// Audits a reply for a route, as `audit_reply` does. `Right` then means a shortest route in the publication's map,
/// or that no walk of this map joins the two ends. Collisions are searched in the node tree first.
pub fn audit<H: Hasher, D: Disk>(
    alloc: Global,
    public: &[u8],
    chain: &[Link],
    reply: &[u8],
    query: Query,
    publication: Publication,
    desk: &mut Desk,
    disk: &mut D,
) -> Result<Finding, AuditError<CheckError>>
    requires fits { Fits D.Disk desk.old disk.old }
    requires short { length reply.now < 2 ^ 32 }
    requires few { length chain.now ≤ 7 }
    ensures { Audits routes H.hash sha256 D.Disk desk.old disk.old desk.new disk.new
        (record {
          public = public.now;
          chain = chain.now;
          reply = reply.now;
          query = query;
          publication = publication;
        }) result }
{
    audit_reply::<Routes, H, D>(alloc, public, chain, reply, query, publication, desk, disk)
}
