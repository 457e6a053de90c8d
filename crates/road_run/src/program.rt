//! The whole program.

ghost use Rattle.mirror_out.specs.Gone.{HasRoom};
ghost use Rattle.road_command.specs.Requests.{request_of};
ghost use Rattle.command_files.specs.Outcomes.{outcome_of};
ghost use Rattle.road_run.specs.Gone.{OnGone};
ghost use Rattle.road_run.specs.Runs.{RunsOver, WorksOver};

use crate::laws::no_key_signs_twice;
use audit_commands::{audit, audit_reach, reduce};
use client_commands::{check, check_reach};
use command_files::{Conclusion, Ended, Fault};
use map_commands::{dimacs, root, route};
use mirror_out::Mirror;
use near_proof::{honest_laws, near_laws, right_laws};
use owner_commands::{desk, key, links, publish, succeed};
use road_command::{Command, Words, command_of};
use road_io::{Disk, Library, Sink, Source};
use road_map::map_laws;
use route_client::{near_verdict_laws, verdict_laws};
use route_server::server_laws;
use route_survey::survey;
use server_commands::{prove, reach, serve, serve_signed};
use std::alloc::Global;

/// Runs the program, and returns how it ended.
pub fn run<L: Library, S: Source, K: Sink, D: Disk, M: Mirror>(
    alloc: Global,
    words: &Words,
    library: &mut L,
    source: &mut S,
    sink: &mut K,
    disk: &mut D,
    mirrors: &mut Vec<M>,
) -> Ended
    ensures runs { RunsOver L.Library S.Source K.Sink D.Disk M.Mirror (request_of words.now)
        library.old library.new source.old source.new sink.old sink.new disk.old disk.new
        mirrors.old.items mirrors.new.items result.status (outcome_of result) }
{
    let mut gone = Vec::new(alloc);
    run_keeping(
        alloc, words, library, source, sink, disk, mirrors, &mut gone,
    )
}

/// Runs the program as `run` does, and appends the mirrors that fail to `gone`, if it has room for all of them.
pub fn run_keeping<L: Library, S: Source, K: Sink, D: Disk, M: Mirror>(
    alloc: Global,
    words: &Words,
    library: &mut L,
    source: &mut S,
    sink: &mut K,
    disk: &mut D,
    mirrors: &mut Vec<M>,
    gone: &mut Vec<M>,
) -> Ended
    ensures runs { RunsOver L.Library S.Source K.Sink D.Disk M.Mirror (request_of words.now)
        library.old library.new source.old source.new sink.old sink.new disk.old disk.new
        mirrors.old.items mirrors.new.items result.status (outcome_of result) }
    ensures gone { HasRoom gone.old mirrors.old → OnGone M.octets M.named M.handed M.puts M.room
        M.faults D.Disk disk.old disk.new (request_of words.now) (K.taken sink.old)
        (K.taken sink.new) mirrors.old.items mirrors.new.items gone.old.items gone.new.items
        (outcome_of result) }
{
    no_key_signs_twice::<D, M>();
    map_laws();
    server_laws();
    verdict_laws();
    honest_laws();
    near_verdict_laws();
    near_laws();
    right_laws();
    Ended::of(work(alloc, words, library, source, sink, disk, mirrors, gone))
}

/// Does what the arguments ask for.
fn work<L: Library, S: Source, K: Sink, D: Disk, M: Mirror>(
    alloc: Global,
    words: &Words,
    library: &mut L,
    source: &mut S,
    sink: &mut K,
    disk: &mut D,
    mirrors: &mut Vec<M>,
    gone: &mut Vec<M>,
) -> Result<Conclusion, Fault>
    ensures works { WorksOver L.Library S.Source K.Sink D.Disk M.Mirror (request_of words.now)
        library.old library.new source.old source.new sink.old sink.new disk.old disk.new
        mirrors.old.items mirrors.new.items result }
    ensures gone { HasRoom gone.old mirrors.old → OnGone M.octets M.named M.handed M.puts M.room
        M.faults D.Disk disk.old disk.new (request_of words.now) (K.taken sink.old)
        (K.taken sink.new) mirrors.old.items mirrors.new.items gone.old.items gone.new.items result }
{
    match command_of(words) {
        None => Err(Fault::Words),
        Some(Command::Route { roads, from, to }) => route(alloc, library, sink, roads, from, to),
        Some(Command::Root { roads, fan }) => root(alloc, library, sink, roads, fan),
        Some(Command::Dimacs { graph, places }) => dimacs(alloc, library, sink, graph, places),
        Some(Command::Key { secret, kind }) => key(alloc, library, sink, disk, secret, kind),
        Some(Command::Succeed { secret, kind }) => {
            succeed(alloc, library, sink, disk, secret, kind)
        }
        Some(Command::Links) => links(alloc, sink, disk),
        Some(Command::Desk) => desk(alloc, sink, disk),
        Some(Command::Publish { roads, settings }) => {
            publish(alloc, library, sink, disk, mirrors, gone, roads, &settings)
        }
        Some(Command::Prove { publication, query }) => {
            prove(alloc, library, sink, publication, query)
        }
        Some(Command::Serve { publication }) => serve(alloc, library, source, sink, publication),
        Some(
            Command::ServeSigned {
                publication: file,
                key,
                chain,
            },
        ) => serve_signed(alloc, library, source, sink, file, key, chain),
        Some(
            Command::Check {
                key,
                reply,
                query,
                least,
                chain,
            },
        ) => check(alloc, library, sink, key, reply, query, least, chain),
        Some(
            Command::Audit {
                key,
                publication: file,
                reply,
                query,
                chain,
            },
        ) => audit(alloc, library, sink, disk, key, file, reply, query, chain),
        Some(Command::Survey(asked)) => survey(alloc, sink, asked),
        Some(Command::Reach { publication, query }) => {
            reach(alloc, library, sink, publication, query)
        }
        Some(
            Command::CheckReach {
                key,
                reply,
                query,
                least,
                chain,
            },
        ) => check_reach(alloc, library, sink, key, reply, query, least, chain),
        Some(
            Command::AuditReach {
                key,
                publication: file,
                reply,
                query,
                chain,
            },
        ) => audit_reach(alloc, library, sink, disk, key, file, reply, query, chain),
        Some(
            Command::Reduce {
                key,
                text,
                signature,
            },
        ) => reduce(alloc, library, sink, disk, key, text, signature),
    }
}
