//! The command `check-reach`.

ghost use Rattle.std.specs.Prelude.{IfOk, length, ◌<◌, ◌≤◌, ◌^◌};
ghost use Rattle.std.specs.Option.{option_map};
ghost use Rattle.client_commands.specs.CheckFiles.{ChecksFiles};
ghost use Rattle.client_commands.specs.NearChecking.{EndsCheckReach};

use crate::replies::{Judging, check_file};
use command_files::{Conclusion, Fault, Told};
use lms_tree::Link;
use octet_text::{NoMemory, Sha};
use proof_octets::NearQuery;
use road_io::{Library, Sink};
use road_line::{line_of_refused_near, line_of_within};
use route_client::{NearError, check_near_owned};
use std::alloc::Global;

/// Writes a client's verdict on a reply to a range query, under a public key and, if given, along the chain in a
/// file.
pub fn check_reach<L: Library, K: Sink>(
    alloc: Global,
    library: &mut L,
    sink: &mut K,
    key: &str,
    reply: &str,
    query: NearQuery,
    least: u64,
    chain: Option<&str>,
) -> Result<Conclusion, Fault>
    ensures { ChecksFiles (λ k links octets. EndsCheckReach k links octets query least)
        key.now reply.now (option_map (λ name. name.now) chain.entry)
        (L.files library.new) (L.asked library.old) (L.asked library.new)
        (L.faults library.old) (L.faults library.new)
        (K.taken sink.old) (K.taken sink.new) (K.faults sink.old) (K.faults sink.new) result }
{
    check_file::<RadiusJudging, L, K>(alloc, library, sink, key, reply, query, least, chain)
}

// The verdict on the nodes within a radius.
struct RadiusJudging;

impl Judging for RadiusJudging {
    ghost use Rattle.client_commands.specs.NearChecking.{EndsCheckReach};

    type Query = NearQuery;

    ghost ends = { EndsCheckReach };

    fn verdict_on(
        alloc: Global,
        key: &[u8],
        chain: &[Link],
        reply: Vec<u8>,
        query: NearQuery,
        least: u64,
    ) -> Result<Told, NoMemory> {
        match check_near_owned::<Sha>(alloc, key, chain, reply, query, least) {
            Ok(within) => Ok(Told {
                text: line_of_within(alloc, within.nodes.as_slice())?,
                end: Ok(Conclusion::Done),
            }),
            Err(NearError::Memory(none)) => Err(none),
            Err(refusal) => Ok(Told {
                text: line_of_refused_near(alloc, refusal)?,
                end: Ok(Conclusion::Refused),
            }),
        }
    }
}
