//! The common work of the checking commands, for every kind of replies.

ghost use Rattle.std.specs.Prelude.{ℕ, List, [], ◌∷◌, ◌++◌, IfOk, length, ◌<◌, ◌≤◌, ◌^◌};
ghost use Rattle.std.specs.Option.{option_map};
ghost use Rattle.lms_tree.specs.declared.links.Link.{Link};
ghost use Rattle.command_files.specs.Endings.{Ending, Promises, TellsNone, NoDisk, MayEnd};
ghost use Rattle.command_files.specs.Asking.{AsksFront, if_named};
ghost use Rattle.command_files.specs.Spared.{SparesLibrary, SparesBut};
ghost use Rattle.client_commands.specs.CheckFiles.{over_files};

use command_files::{Conclusion, Fault, Told, load_chain, load_file, load_hex, write_told};
use lms_tree::Link;
use octet_text::NoMemory;
use road_io::{Library, Sink};
use std::alloc::Global;

/// A kind of replies: its queries, and a client's verdict on a reply.
pub(crate) trait Judging {
    /// The type of the queries.
    type Query: Copy;

    // How a check ends, for a public key, a chain from it and the octets of a reply.
    ghost ends: { List ℕ → List Link → List ℕ → Self.Query → ℕ → Ending };

    /// Returns the client's verdict on a reply. Frees the octets of the reply before it is judged.
    fn verdict_on(
        alloc: Global,
        key: &[u8],
        chain: &[Link],
        reply: Vec<u8>,
        query: Self::Query,
        least: u64,
    ) -> Result<Told, NoMemory>
        requires short { length reply.items < 2 ^ 32 }
        requires few { length chain.now ≤ 7 }
        ensures verdict { IfOk result (λ told. MayEnd TellsNone told.end) }
        ensures told { IfOk result (λ told.
            ends key.now chain.now reply.items query least told.end told.text.items) };
}

/// Writes a client's verdict on the reply in a file, under the public key in a file and, if given, along the chain
/// in a file.
pub(crate) fn check_file<J: Judging, L: Library, K: Sink>(
    alloc: Global,
    library: &mut L,
    sink: &mut K,
    key: &str,
    reply: &str,
    query: J::Query,
    least: u64,
    chain: Option<&str>,
) -> Result<Conclusion, Fault>
    ensures promised { Promises (over_files (λ k links octets. J.ends k links octets query least)
        key.now reply.now (option_map (λ name. name.now) chain.entry)) TellsNone NoDisk
        (L.files library.new) (L.faults library.old) (L.faults library.new)
        (K.taken sink.old) (K.taken sink.new) (K.faults sink.old) (K.faults sink.new) result }
    ensures library { SparesLibrary result (L.faults library.old) (L.faults library.new) }
    ensures asked { AsksFront (key.now ∷ reply.now ∷
        if_named (option_map (λ name. name.now) chain.entry))
        (L.asked library.old) (L.asked library.new) }
    ensures sink { SparesBut Fault.Sink result (K.faults sink.old) (K.faults sink.new) }
{
    let key: [u8; 56] = load_hex(alloc, library, key)?;
    let reply = load_file(alloc, library, reply)?;
    let chain = load_chain(alloc, library, chain)?;
    match J::verdict_on(alloc, &key, chain.as_slice(), reply, query, least) {
        Ok(told) => write_told(sink, &told),
        Err(none) => Err(Fault::Memory(none)),
    }
}
