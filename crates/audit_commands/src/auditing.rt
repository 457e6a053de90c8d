//! The command `audit`, and the code that it shares with every kind of replies.

ghost use Rattle.std.specs.Prelude.{◌≡◌, ◌<◌, ◌≤◌, ◌^◌, List, [], length, Err, IfOk, IfErr, ◌≢◌, ◌∷◌, ◌++◌};
ghost use Rattle.std.specs.Option.{option_map};
ghost use Rattle.road_io.specs.Causes.{Rose};
ghost use Rattle.road_io.specs.Disk.{Stays};
ghost use Rattle.road_io.specs.Moments.{AtEachMoment, still_told};
ghost use Rattle.road_line.specs.VerdictLine.{refused_line};
ghost use Rattle.command_files.specs.Endings.{Promises, TellsNone, MayEnd, WhyNot};
ghost use Rattle.command_files.specs.Asking.{AsksFront, if_named};
ghost use Rattle.command_files.specs.Spared.{SparesLibrary, SparesBut};
ghost use Rattle.route_audit.specs.Routes.{routes};
ghost use Rattle.audit_commands.specs.Auditing.{EndsAudit, ends_audit};
ghost use Rattle.audit_commands.specs.Headline.{ClashIn, AuditsFiles, IsBrought, RestsOn, WritesFindings};

use crate::telling::{RouteTelling, Telling, tell};
use book_model::Query;
use command_desks::open_desk;
use command_files::{
    Conclusion, Fault, Told, load_chain, load_file, load_hex, load_publication, write_told,
};
use lms_tree::Link;
use octet_text::Sha;
use proof_octets::Publication;
use road_io::{Disk, Library, Sink};
use route_audit::{Replies, audit_reply};
use route_server::server_laws;
use std::alloc::Global;

/// Writes what a reply for a route is evidence of, using the owner's disk and a publication, under a public key
/// and, if given, the chain of links in a file.
pub fn audit<L: Library, K: Sink, D: Disk>(
    alloc: Global,
    library: &mut L,
    sink: &mut K,
    disk: &mut D,
    key: &str,
    publication: &str,
    reply: &str,
    query: Query,
    chain: Option<&str>,
) -> Result<Conclusion, Fault>
    ensures { AuditsFiles routes refused_line D.Disk disk.old disk.new
        key.now publication.now reply.now query (option_map (λ name. name.now) chain.entry)
        (L.files library.new) (L.asked library.old) (L.asked library.new)
        (L.faults library.old) (L.faults library.new)
        (K.taken sink.old) (K.taken sink.new) (K.faults sink.old) (K.faults sink.new) result }
{
    audit_files::<RouteTelling, L, K, D>(
        alloc,
        library,
        sink,
        disk,
        key,
        publication,
        reply,
        query,
        chain,
    )
}

/// Does the same for a reply of any kind.
pub(crate) fn audit_files<T: Telling, L: Library, K: Sink, D: Disk>(
    alloc: Global,
    library: &mut L,
    sink: &mut K,
    disk: &mut D,
    key: &str,
    publication: &str,
    reply: &str,
    query: <T::Kind as Replies>::Query,
    chain: Option<&str>,
) -> Result<Conclusion, Fault>
    ensures { AuditsFiles T.Kind.kind T.refused D.Disk disk.old disk.new
        key.now publication.now reply.now query (option_map (λ name. name.now) chain.entry)
        (L.files library.new) (L.asked library.old) (L.asked library.new)
        (L.faults library.old) (L.faults library.new)
        (K.taken sink.old) (K.taken sink.new) (K.faults sink.old) (K.faults sink.new) result }
{
    <T::Kind as Replies>::laws();
    server_laws();
    write_findings::<T, L, K, D>(
        alloc,
        library,
        sink,
        disk,
        key,
        publication,
        reply,
        query,
        chain,
    )
}

// Does the same, but without the conclusions about accepted replies.
fn write_findings<T: Telling, L: Library, K: Sink, D: Disk>(
    alloc: Global,
    library: &mut L,
    sink: &mut K,
    disk: &mut D,
    key: &str,
    publication: &str,
    reply: &str,
    query: <T::Kind as Replies>::Query,
    chain: Option<&str>,
) -> Result<Conclusion, Fault>
    ensures promised { Promises
        (ends_audit T.Kind.kind T.refused (still_told D.Disk disk.old disk.new)
        key.now publication.now reply.now query (option_map (λ name. name.now) chain.entry)) TellsNone
        (Rose (D.faults disk.old) (D.faults disk.new))
        (L.files library.new) (L.faults library.old) (L.faults library.new)
        (K.taken sink.old) (K.taken sink.new) (K.faults sink.old) (K.faults sink.new) result }
    ensures library { SparesLibrary result (L.faults library.old) (L.faults library.new) }
    ensures asked { AsksFront (key.now ∷ publication.now ∷ reply.now ∷
        if_named (option_map (λ name. name.now) chain.entry))
        (L.asked library.old) (L.asked library.new) }
    ensures sink { SparesBut Fault.Sink result (K.faults sink.old) (K.faults sink.new) }
    ensures finds { WritesFindings D.Disk disk.new (IsBrought T.Kind.kind)
        (ClashIn T.Kind.kind) key.now publication.now reply.now
        (option_map (λ name. name.now) chain.entry) (L.files library.new)
        (K.taken sink.old) (K.taken sink.new) result }
    ensures unfaulted { result ≢ Err Fault.Disk → D.faults disk.new ≡ D.faults disk.old }
    ensures stays { AtEachMoment D.Disk disk.old disk.new Stays }
{
    let key: [u8; 56] = load_hex(alloc, library, key)?;
    let publication = load_publication(alloc, library, publication)?;
    let reply = load_file(alloc, library, reply)?;
    let links = load_chain(alloc, library, chain)?;
    let told = find::<T, D>(
        alloc,
        disk,
        &key,
        links.as_slice(),
        publication,
        &reply,
        query,
    )?;
    write_told(sink, &told)
}

// Returns what a reply is evidence of, using the keys on the disk.
fn find<T: Telling, D: Disk>(
    alloc: Global,
    disk: &mut D,
    key: &[u8; 56],
    links: &[Link],
    publication: Publication,
    reply: &[u8],
    query: <T::Kind as Replies>::Query,
) -> Result<Told, Fault>
    requires short { length reply.now < 2 ^ 32 }
    requires few { length links.now ≤ 7 }
    ensures told { IfOk result (λ told.
        EndsAudit T.Kind.kind T.refused (still_told D.Disk disk.old disk.new)
        key.now links.now publication reply.now query
        told.end told.text.items) }
    ensures verdict { IfOk result (λ told. MayEnd TellsNone told.end) }
    ensures rests { IfOk result (λ told.
        RestsOn D.Disk disk.new (IsBrought T.Kind.kind reply.now)
        (ClashIn T.Kind.kind publication reply.now) key.now links.now told.end
        told.text.items) }
    ensures others { IfErr result (λ fault.
        RestsOn D.Disk disk.new (IsBrought T.Kind.kind reply.now)
        (ClashIn T.Kind.kind publication reply.now) key.now links.now (Err fault) []) }
    ensures refused { IfErr result (WhyNot (Rose (D.faults disk.old) (D.faults disk.new))
        (EndsAudit T.Kind.kind T.refused
        (still_told D.Disk disk.old disk.new) key.now links.now publication reply.now query)) }
    ensures unfaulted { result ≢ Err Fault.Disk → D.faults disk.new ≡ D.faults disk.old }
    ensures stays { AtEachMoment D.Disk disk.old disk.new Stays }
{
    <T::Kind as Replies>::laws();
    let mut desk = open_desk(alloc, disk)?;
    let answer = audit_reply::<T::Kind, Sha, D>(
        alloc,
        key,
        links,
        reply,
        query,
        publication,
        &mut desk,
        disk,
    );
    tell::<T>(alloc, answer)
}
