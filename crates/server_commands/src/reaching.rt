//! The command `reach`.

ghost use Rattle.std.specs.Prelude.{◌≡◌, ◌≤◌, length, IfOk, IfErr, Ok, ◌∷◌, [], ◌++◌};
ghost use Rattle.command_files.specs.Endings.{Promises, TellsNone, NoDisk, WhyNot};
ghost use Rattle.command_files.specs.declared.ended.Conclusion.TheVariants.{Done};
ghost use Rattle.command_files.specs.Spared.{SparesLibrary, SparesBut};
ghost use Rattle.sha2.specs.Sha256.{sha256};
ghost use Rattle.route_server.specs.Keeping.{publication_in};
ghost use Rattle.server_commands.specs.NearReaching.{EndsNear, EndsReach, ends_reach};

use command_books::install;
use command_files::{Conclusion, Fault, load_publication, write_text};
use octet_text::Sha;
use proof_octets::{NearQuery, Publication, range_laws};
use road_io::{Library, Sink};
use route_server::{Held, NearRefusal, answer_near};
use std::alloc::Global;

/// Writes the reply to a range query over a publication.
pub fn reach<L: Library, K: Sink>(
    alloc: Global,
    library: &mut L,
    sink: &mut K,
    publication: &str,
    query: NearQuery,
) -> Result<Conclusion, Fault>
    ensures promised { Promises (ends_reach publication.now query) TellsNone NoDisk
        (L.files library.new) (L.faults library.old) (L.faults library.new)
        (K.taken sink.old) (K.taken sink.new) (K.faults sink.old) (K.faults sink.new) result }
    ensures library { SparesLibrary result (L.faults library.old) (L.faults library.new) }
    ensures asked { L.asked library.new ≡ L.asked library.old ++ publication.now ∷ [] }
    ensures sink { SparesBut Fault.Sink result (K.faults sink.old) (K.faults sink.new) }
{
    range_laws();
    let publication = load_publication(alloc, library, publication)?;
    let text = reply_over(alloc, publication, query)?;
    write_text(sink, &text)
}

/// Installs a publication and returns the reply over it.
fn reply_over(alloc: Global, publication: Publication, query: NearQuery) -> Result<Vec<u8>, Fault>
    requires { length publication.signature ≤ 1452 }
    ensures replied { IfOk result (λ text. EndsReach query publication (Ok Done) text.items) }
    ensures refused { IfErr result (WhyNot NoDisk (EndsReach query publication)) }
{
    match install(alloc, publication) {
        Ok(held) => reply_of(alloc, &held, query),
        Err(fault) => Err(fault),
    }
}

/// Returns the reply over a held book.
fn reply_of(alloc: Global, held: &Held<Sha>, query: NearQuery) -> Result<Vec<u8>, Fault>
    requires { length held.now.signature ≤ 1452 }
    ensures replied { IfOk result (λ text.
        EndsNear query (publication_in sha256 held.now) (Ok Done) text.items) }
    ensures refused { IfErr result
        (WhyNot NoDisk (EndsNear query (publication_in sha256 held.now))) }
{
    match answer_near::<Sha>(alloc, held, query) {
        Ok(text) => Ok(text),
        Err(NearRefusal::UnknownNode(id)) => Err(Fault::UnknownNode(id)),
        Err(NearRefusal::Memory(none)) => Err(Fault::Memory(none)),
    }
}
