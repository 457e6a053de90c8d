//! The command `prove`.

ghost use Rattle.std.specs.Prelude.{◌≡◌, ◌≤◌, length, IfOk, IfErr, OnOk, ◌∷◌, [], ◌++◌};
ghost use Rattle.octet_text.specs.Want.{no_memory};
ghost use Rattle.road_map.specs.Walks.{Knows};
ghost use Rattle.sha2.specs.Sha256.{sha256};
ghost use Rattle.route_server.specs.Honesty.{IsHonest};
ghost use Rattle.route_server.specs.Keeping.{publication_in};
ghost use Rattle.command_files.specs.Endings.{Promises, NoDisk, NoEnd, WhyNot};
ghost use Rattle.command_files.specs.declared.fault.Fault.TheVariants.{Memory};
ghost use Rattle.command_files.specs.Spared.{SparesLibrary, SparesBut};
ghost use Rattle.command_books.specs.Installing.{EndsInstalling, IsInstallable};
ghost use Rattle.server_commands.specs.Proving.{EndsReply, TellsEnds, ends_prove};

use book_model::Query;
use command_books::install;
use command_files::{Conclusion, Fault, Told, load_publication, write_told};
use octet_text::Sha;
use proof_octets::{Publication, range_laws};
use road_io::{Library, Sink};
use road_search::knows;
use route_server::Held;
use std::alloc::Global;

/// Writes the reply to a query over a publication.
pub fn prove<L: Library, K: Sink>(
    alloc: Global,
    library: &mut L,
    sink: &mut K,
    publication: &str,
    query: Query,
) -> Result<Conclusion, Fault>
    ensures promised { Promises (ends_prove publication.now query) TellsEnds NoDisk
        (L.files library.new) (L.faults library.old) (L.faults library.new)
        (K.taken sink.old) (K.taken sink.new) (K.faults sink.old) (K.faults sink.new) result }
    ensures library { SparesLibrary result (L.faults library.old) (L.faults library.new) }
    ensures asked { L.asked library.new ≡ L.asked library.old ++ publication.now ∷ [] }
    ensures sink { SparesBut Fault.Sink result (K.faults sink.old) (K.faults sink.new) }
{
    range_laws();
    let publication = load_publication(alloc, library, publication)?;
    let told = told_of(alloc, publication, query)?;
    write_told(sink, &told)
}

/// Installs a publication and returns the reply to a query over it.
fn told_of(alloc: Global, publication: Publication, query: Query) -> Result<Told, Fault>
    requires { length publication.signature ≤ 1452 }
    ensures installable { OnOk result (IsInstallable publication) }
    ensures told { IfOk result (λ told. EndsReply query publication told.end told.text.items) }
    ensures refused { IfErr result (WhyNot NoDisk (EndsInstalling publication NoEnd)) }
{
    let held = install(alloc, publication)?;
    reply(alloc, &held, query)
}

/// Returns the reply to a query.
fn reply(alloc: Global, held: &Held<Sha>, query: Query) -> Result<Told, Fault>
    requires { length held.now.signature ≤ 1452 }
    ensures told { IfOk result (λ told.
        EndsReply query (publication_in sha256 held.now) told.end told.text.items) }
    ensures memory { IfErr result (λ fault. fault ≡ Memory no_memory) }
{
    match held.answer(alloc, query) {
        Ok(text) => {
            let end = end_of(held, query, &text);
            Ok(Told { text, end })
        }
        Err(none) => Err(Fault::Memory(none)),
    }
}

/// Returns how a run ends after an honest reply.
fn end_of(held: &Held<Sha>, query: Query, octets: &[u8]) -> Result<Conclusion, Fault>
    requires { IsHonest sha256 sha256 (publication_in sha256 held.now) query octets.now }
    ensures { EndsReply query (publication_in sha256 held.now) result octets.now }
{
    match octets.first() {
        Some(1) => Err(Fault::UnknownNode(first_unknown(held, query))),
        _ => Ok(Conclusion::Done),
    }
}

/// Returns the first of the two ends that is not a node. One of them must not be a node.
fn first_unknown(held: &Held<Sha>, query: Query) -> u32
    ensures known { Knows held.now.map.parts query.from → result ≡ query.to }
    ensures unknown { ¬ Knows held.now.map.parts query.from → result ≡ query.from }
{
    if knows(held.map(), query.from) {
        query.to
    } else {
        query.from
    }
}
