//! The command `check`.

ghost use Rattle.std.specs.Prelude.{IfOk, length, ◌<◌, ◌≤◌, ◌^◌};
ghost use Rattle.std.specs.Option.{option_map};
ghost use Rattle.client_commands.specs.CheckFiles.{ChecksFiles};
ghost use Rattle.client_commands.specs.Checking.{EndsCheck};

use crate::replies::{Judging, check_file};
use book_model::Query;
use command_files::{Conclusion, Fault, Told};
use lms_tree::Link;
use octet_text::{NoMemory, Sha};
use road_io::{Library, Sink};
use road_line::{line_of_accepted, line_of_refused};
use route_client::{CheckError, check_owned};
use std::alloc::Global;

/// Writes a client's verdict on a reply to a query, under a public key and, if given, along the chain in a file.
pub fn check<L: Library, K: Sink>(
    alloc: Global,
    library: &mut L,
    sink: &mut K,
    key: &str,
    reply: &str,
    query: Query,
    least: u64,
    chain: Option<&str>,
) -> Result<Conclusion, Fault>
    ensures { ChecksFiles (λ k links octets. EndsCheck k links octets query least)
        key.now reply.now (option_map (λ name. name.now) chain.entry)
        (L.files library.new) (L.asked library.old) (L.asked library.new)
        (L.faults library.old) (L.faults library.new)
        (K.taken sink.old) (K.taken sink.new) (K.faults sink.old) (K.faults sink.new) result }
{
    check_file::<RouteJudging, L, K>(alloc, library, sink, key, reply, query, least, chain)
}

// The verdict on a route.
struct RouteJudging;

impl Judging for RouteJudging {
    ghost use Rattle.client_commands.specs.Checking.{EndsCheck};

    type Query = Query;

    ghost ends = { EndsCheck };

    fn verdict_on(
        alloc: Global,
        key: &[u8],
        chain: &[Link],
        reply: Vec<u8>,
        query: Query,
        least: u64,
    ) -> Result<Told, NoMemory> {
        match check_owned::<Sha>(alloc, key, chain, reply, query, least) {
            Ok(checked) => Ok(Told {
                text: line_of_accepted(alloc, &checked)?,
                end: Ok(Conclusion::Done),
            }),
            Err(CheckError::Memory(none)) => Err(none),
            Err(refusal) => Ok(Told {
                text: line_of_refused(alloc, refusal)?,
                end: Ok(Conclusion::Refused),
            }),
        }
    }
}
