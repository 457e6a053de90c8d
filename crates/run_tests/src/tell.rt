//! A table of messages on runs over objects in memory.

use crate::asserts::assert_octets;
use crate::parties::{ZEROS, words_of};
use book_model::PlanError;
use command_files::{Ended, Fault};
use mem_io::{MemDisk, MemLibrary, MemSink, MemSource};
use mirror_out::MemMirror;
use road_command::Words;
use road_io::{KeptLibrary, KeptSink};
use road_run::run;
use road_tell::{Content, Facts, message_on, subject_of};
use std::alloc::Global;
use std::io::{self, ErrorKind};
use std::process::Abort;
use std::test::Fail;
use test_maps::FIVE_NODES;

/// Makes the files that the command lines name.
fn files(alloc: Global) -> Result<MemLibrary, Fail> {
    let mut library = MemLibrary::new(alloc, Vec::new(alloc));
    library.put("map.roads", FIVE_NODES.as_bytes())?;
    let mut self_road = FIVE_NODES.to_string(alloc)?;
    self_road.push_str("road 3 3 1\n")?;
    library.put("self.roads", self_road.as_bytes())?;
    library.put("zeros", ZEROS.as_bytes())?;
    library.put("zip", b"\x1f\x8b\x08")?;
    Ok(library)
}

/// Returns the facts of a run that loaded this file last. If no content was kept, the file did not exist.
fn facts_of<'a>(name: &'a str, file: Content<'a>, line: &'a [u8]) -> Facts<'a> {
    Facts {
        name,
        file,
        file_error: Some(io::Error::from(ErrorKind::NotFound)),
        source_error: None,
        sink_error: None,
        desk_error: None,
        line,
        key: None,
        left: None,
    }
}

/// Returns the message about a run with these words, over those files and a desk without a key.
fn told_of_run(alloc: Global, words: &Words, name: &str) -> Result<String, Fail> {
    let mut library = KeptLibrary::new(alloc, files(alloc)?, 1000);
    let mut sink = KeptSink::new(MemSink::new(alloc, 1000, 1000, Vec::new(alloc))?);
    let mut disk = MemDisk::new(alloc, 4160, 10_000, Vec::new(alloc), None)?;
    let mut source = MemSource::new(Vec::new(alloc), 1, Vec::new(alloc));
    let mut mirrors: Vec<MemMirror> = Vec::new(alloc);
    let ended = run(
        alloc,
        words,
        &mut library,
        &mut source,
        &mut sink,
        &mut disk,
        &mut mirrors,
    );
    let file = match library.kept(subject_of(words, ended, name)) {
        Some(kept) => Content::of(words, ended, name, kept.front(), kept.length()),
        None => Content::Unknown,
    };
    told(alloc, words, ended, facts_of(name, file, sink.front()))
}

/// Returns the message about an end.
fn told(alloc: Global, words: &Words, ended: Ended, facts: Facts<'_>) -> Result<String, Fail> {
    match message_on(words, ended, facts) {
        Some(message) => Ok(format!(in alloc; "{message}")?),
        None => Ok(String::new(alloc)),
    }
}

/// Runs a command line over the files, and compares the message.
fn says(rt: &impl Abort, alloc: Global, line: &str, name: &str, wanted: &str) -> Result<(), Fail> {
    let words = words_of(rt, alloc, line)?;
    let text = told_of_run(alloc, &words, name)?;
    assert_octets(rt, line, text.as_bytes(), wanted.as_bytes());
    Ok(())
}

#[test]
fn each_end_is_told(rt: HostRuntime) -> Result<(), Fail> {
    for (line, name, wanted) in [
        ("route map.roads 1 3", "map.roads", ""),
        (
            "route map.roads 1 9",
            "map.roads",
            "road_proof: map.roads: It has no node 9.",
        ),
        (
            "route map.roads 1 5",
            "map.roads",
            "road_proof: map.roads: No route joins the two nodes.",
        ),
        (
            "route none 1 5",
            "none",
            "road_proof: none: It cannot be read: entity not found.",
        ),
        (
            "route self.roads 1 5",
            "self.roads",
            "road_proof: self.roads: Line 11 has a road from the node 3 to itself.",
        ),
        (
            "route zip 1 5",
            "zip",
            "road_proof: zip: The road file does not begin with the line `roads 1`. It looks like a gzip file, which must be unpacked first.",
        ),
        (
            "dimacs zip map.roads",
            "map.roads",
            "road_proof: zip: The file does not begin with `p sp NODES ARCS` in a graph, or `p aux sp co NODES` in coordinates. It looks like a gzip file, which must be unpacked first.",
        ),
        (
            "prove map.roads 1 3",
            "map.roads",
            "road_proof: map.roads: It is not a publication: the field at offset 0 cannot be read. It looks like a road file.",
        ),
        (
            "key map.roads h5",
            "map.roads",
            "road_proof: map.roads: The octet at offset 0 is not a hex digit. The file must have 96 hex digits and at most one line end. It looks like a road file.",
        ),
        (
            "desk",
            "file",
            "road_proof: owner.desk: It holds no key, or does not exist. `road_proof key` makes one.",
        ),
        (
            "survey 33 7 full 1",
            "file",
            "road_proof: grid: The map has 1089 nodes, which are too many for a table of all pairs.",
        ),
        (
            "check zeros map.roads 1 3 0",
            "zeros",
            "road_proof: zeros: It has 96 hex digits, not 112.",
        ),
    ] {
        says(&rt, rt.alloc(), line, name, wanted)?;
    }
    Ok(())
}

#[test]
fn of_a_secrets_file_no_octet_is_told(rt: HostRuntime) -> Result<(), Fail> {
    for line in ["key map.roads h5", "succeed map.roads h5"] {
        let words = words_of(&rt, rt.alloc(), line)?;
        for fault in [Fault::BadHex, Fault::Malformed(0), Fault::TooLong] {
            let ended = Ended {
                status: 3,
                fault: Some(fault),
            };
            let text = FIVE_NODES.as_bytes();
            let file = Content::of(&words, ended, "map.roads", text, text.len());
            assert_octets(&rt, line, file.octets(), b"");
        }
    }
    Ok(())
}

/// Compares the message after this line accepted the reply `r`, which has these octets.
fn says_of_accepted(
    rt: &impl Abort,
    alloc: Global,
    line: &str,
    reply: &[u8],
    wanted: &str,
) -> Result<(), Fail> {
    let words = words_of(rt, alloc, line)?;
    let ended = Ended {
        status: 0,
        fault: None,
    };
    let text = told(
        alloc,
        &words,
        ended,
        facts_of(
            "r",
            Content::Octets {
                front: reply,
                length: reply.len(),
            },
            b"accepted none\n",
        ),
    )?;
    assert_octets(rt, line, text.as_bytes(), wanted.as_bytes());
    Ok(())
}

#[test]
fn an_accepted_reply_without_a_route_is_told(rt: HostRuntime) -> Result<(), Fail> {
    let none =
        "road_proof: r: No road leads from 1 to 5, and version 7 of the owner's map shows it.";
    for (line, reply, wanted) in [
        (
            "check k r 1 5 3",
            b"\x03RPF1\x01\x00\x02\x00\x00\x00\x00\x00\x00\x00\x00\x07",
            none,
        ),
        (
            "audit k p r 1 5 c",
            b"\x03RPF1\x01\x00\x02\x00\x00\x00\x00\x00\x00\x00\x00\x07",
            none,
        ),
        (
            "check k r 1 5 3",
            b"\x00RPF1\x01\x00\x02\x00\x00\x00\x00\x00\x00\x00\x00\x07",
            "",
        ),
    ] {
        says_of_accepted(&rt, rt.alloc(), line, reply, wanted)?;
    }
    Ok(())
}

/// Compares the message about a run that wrote this line and ended in this way, if each object has this error.
fn assert_told(
    rt: &impl Abort,
    alloc: Global,
    line: &str,
    ended: Ended,
    error: ErrorKind,
    said: &[u8],
    wanted: &str,
) -> Result<(), Fail> {
    let words = words_of(rt, alloc, line)?;
    let file = Content::of(&words, ended, "r", b"RPP1", 4);
    let facts = Facts {
        name: "r",
        file,
        file_error: None,
        source_error: Some(io::Error::from(error)),
        sink_error: Some(io::Error::from(error)),
        desk_error: Some(io::Error::from(error)),
        line: said,
        key: None,
        left: Some(1),
    };
    let text = told(alloc, &words, ended, facts)?;
    assert_octets(rt, line, text.as_bytes(), wanted.as_bytes());
    Ok(())
}

#[test]
fn ends_over_real_files_are_told(rt: HostRuntime) -> Result<(), Fail> {
    let publish = "publish m dij 1 id 0 2 1 0 0";
    let audit = "audit k p r 1 3";
    let check = "check k r 1 3 4";
    let settings = Fault::Plan(PlanError::Settings(3));
    for (line, status, fault, error, said, wanted) in [
        (
            publish,
            0,
            None,
            ErrorKind::Other,
            b"".as_slice(),
            "road_proof: owner.desk: 1 one-time key is left. `road_proof succeed` makes the next key.",
        ),
        (
            publish,
            7,
            Some(Fault::Disk),
            ErrorKind::WouldBlock,
            b"".as_slice(),
            "road_proof: owner.desk: Another process is using it.",
        ),
        (
            publish,
            6,
            Some(Fault::Sink),
            ErrorKind::BrokenPipe,
            b"".as_slice(),
            "road_proof: standard output: It was not written whole: broken pipe. One one-time key was used for it.",
        ),
        (
            "serve r k c",
            1,
            None,
            ErrorKind::Other,
            b"".as_slice(),
            "road_proof: r: It is not served: it or a link of the chain is not signed. The output says which.",
        ),
        (
            "serve r",
            5,
            Some(Fault::Source),
            ErrorKind::BrokenPipe,
            b"".as_slice(),
            "road_proof: standard input: It cannot be read: broken pipe.",
        ),
        (
            "serve r",
            3,
            Some(Fault::TruncatedFrame),
            ErrorKind::Other,
            b"".as_slice(),
            "road_proof: standard input: It ends within a frame.",
        ),
        (
            "serve r",
            3,
            Some(Fault::HeaderWrong),
            ErrorKind::Other,
            b"".as_slice(),
            "road_proof: r: Its header does not match its map and settings.",
        ),
        (
            publish,
            3,
            Some(settings),
            ErrorKind::Other,
            b"".as_slice(),
            "road_proof: P1: It is out of range. Under dij and full it is 0.",
        ),
        (
            audit,
            10,
            None,
            ErrorKind::Other,
            b"".as_slice(),
            "road_proof: r: The answer is not to be used: the reply rests on a text that the owner never signed, or on two texts with the same digest. Keep the output with the three files.",
        ),
        (
            audit,
            14,
            Some(Fault::OtherPublication),
            ErrorKind::Other,
            b"".as_slice(),
            "road_proof: r: The answer is not to be used yet. The reply is from another publication of the owner: audit it with that one.",
        ),
        (
            check,
            1,
            None,
            ErrorKind::Other,
            b"refused Malformed 0\n".as_slice(),
            "road_proof: r: The answer is not to be used: the file is not a reply. The field at offset 0 cannot be read. It looks like a publication.",
        ),
        (
            "check-reach k r 1 4 3",
            1,
            None,
            ErrorKind::Other,
            b"refused Malformed 0\n".as_slice(),
            "road_proof: r: The nodes are not to be used: the file is not a reply to a range query. The field at offset 0 cannot be read. It looks like a publication.",
        ),
        (
            "audit-reach k p r 1 4",
            14,
            Some(Fault::OtherPublication),
            ErrorKind::Other,
            b"".as_slice(),
            "road_proof: r: The nodes are not to be used yet. The reply is from another publication of the owner: audit it with that one.",
        ),
        (
            "reduce k t r",
            1,
            None,
            ErrorKind::Other,
            b"".as_slice(),
            "road_proof: r: It is not a signature by this key on the text. The output gives the reason.",
        ),
        (
            "reduce k t r",
            10,
            None,
            ErrorKind::Other,
            b"".as_slice(),
            "road_proof: r: It rests on two texts with the same digest, or on a value that the desk never released. Keep the output with the three files.",
        ),
        (
            "reduce k t r",
            3,
            Some(Fault::BadHex),
            ErrorKind::Other,
            b"".as_slice(),
            "road_proof: r: The octet at offset 0 is not a hex digit. The file must have an even number of hex digits and at most one line end. It looks like a publication.",
        ),
        (
            "reach r 9 4",
            11,
            Some(Fault::UnknownNode(9)),
            ErrorKind::Other,
            b"".as_slice(),
            "road_proof: r: It has no node 9.",
        ),
    ] {
        let ended = Ended { status, fault };
        assert_told(&rt, rt.alloc(), line, ended, error, said, wanted)?;
    }
    Ok(())
}
