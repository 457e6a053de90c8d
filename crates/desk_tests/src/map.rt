//! The commands over maps, over objects in memory.

use crate::asserts::{assert_octets, assert_same};
use command_files::{Conclusion, Fault};
use dimacs_reader::DimacsError;
use map_commands::{dimacs, root, route};
use mem_io::{MemLibrary, MemSink};
use road_map::MapError;
use road_reader::RoadError;
use std::alloc::Global;
use std::process::Abort;
use std::test::Fail;
use test_maps::FIVE_NODES;

/// How a command ends.
type End = Result<Conclusion, Fault>;

/// Makes a sink with enough room.
fn new_sink(alloc: Global) -> Result<MemSink, Fail> {
    Ok(MemSink::new(alloc, 1000, 1000, Vec::new(alloc))?)
}

/// Asserts the output of `route` for a file and two ids, and how the command ends.
fn assert_routed(
    rt: &impl Abort,
    alloc: Global,
    library: &mut MemLibrary,
    name: &str,
    ids: [u32; 2],
    written: &str,
    end: End,
) -> Result<(), Fail> {
    let mut sink = new_sink(alloc)?;
    let ended = route(alloc, library, &mut sink, name, ids[0], ids[1]);
    assert_same(rt, &ended, &end);
    assert_octets(rt, sink.taken(), written.as_bytes());
    Ok(())
}

#[test]
fn routes_over_five_nodes(rt: HostRuntime) -> Result<(), Fail> {
    let alloc = rt.alloc();
    let mut library = MemLibrary::new(alloc, Vec::new(alloc));
    library.put("five", FIVE_NODES.as_bytes())?;
    for (name, ids, written, end) in [
        ("five", [1, 3], "9: 1 2 3\n", Ok(Conclusion::Done)),
        ("five", [1, 1], "0: 1\n", Ok(Conclusion::Done)),
        ("five", [1, 5], "", Err(Fault::NoRoute)),
        ("five", [1, 9], "", Err(Fault::UnknownNode(9))),
        ("five", [9, 8], "", Err(Fault::UnknownNode(9))),
        ("none", [1, 3], "", Err(Fault::Missing)),
    ] {
        assert_routed(&rt, alloc, &mut library, name, ids, written, end)?;
    }
    Ok(())
}

/// Makes a library with one file, which has the five nodes and one more line.
fn with_line(alloc: Global, line: &str) -> Result<MemLibrary, Fail> {
    let mut text = FIVE_NODES.to_string(alloc)?;
    text.push_str(line)?;
    let mut library = MemLibrary::new(alloc, Vec::new(alloc));
    library.put("map.roads", text.as_bytes())?;
    Ok(library)
}

#[test]
fn the_shorter_of_parallel_roads_is_taken(rt: HostRuntime) -> Result<(), Fail> {
    let mut library = with_line(rt.alloc(), "road 2 1 2\n")?;
    let done = Ok(Conclusion::Done);
    let text = "7: 1 2 3\n";
    assert_routed(
        &rt,
        rt.alloc(),
        &mut library,
        "map.roads",
        [1, 3],
        text,
        done,
    )
}

#[test]
fn faulty_files_are_refused_by_their_first_fault(rt: HostRuntime) -> Result<(), Fail> {
    let alloc = rt.alloc();
    for (line, fault) in [
        ("road 3 3 1\n", Fault::Map(MapError::SelfRoad(4))),
        ("road 1 9 2\n", Fault::Map(MapError::UnknownEnd(4))),
        ("node 1 0 0\n", Fault::Map(MapError::RepeatedNode(1))),
        ("road 4\n", Fault::Road(RoadError::BadLine(11))),
        (
            "road 4 3 4294967296\n",
            Fault::Road(RoadError::BadNumber(11)),
        ),
    ] {
        let mut library = with_line(alloc, line)?;
        assert_routed(
            &rt,
            alloc,
            &mut library,
            "map.roads",
            [1, 3],
            "",
            Err(fault),
        )?;
    }
    Ok(())
}

#[test]
fn a_file_without_nodes_is_refused(rt: HostRuntime) -> Result<(), Fail> {
    let alloc = rt.alloc();
    let mut library = MemLibrary::new(alloc, Vec::new(alloc));
    library.put("blank", b"\n")?;
    library.put("empty", b"roads 1\n")?;
    let no_title = Err(Fault::Road(RoadError::NoTitle));
    assert_routed(&rt, alloc, &mut library, "blank", [1, 3], "", no_title)?;
    let empty = Err(Fault::Map(MapError::Empty));
    assert_routed(&rt, alloc, &mut library, "empty", [1, 3], "", empty)
}

#[test]
fn failing_objects_end_a_command(rt: HostRuntime) -> Result<(), Fail> {
    let alloc = rt.alloc();
    let mut library = MemLibrary::new(alloc, vec![in alloc; 0]?);
    library.put("map.roads", FIVE_NODES.as_bytes())?;
    let mut sink = MemSink::new(alloc, 1000, 4, vec![in alloc; 1]?)?;
    let first = route(alloc, &mut library, &mut sink, "map.roads", 1, 3);
    assert_same(&rt, &first, &Err(Fault::Library));
    let second = route(alloc, &mut library, &mut sink, "map.roads", 1, 3);
    assert_same(&rt, &second, &Err(Fault::Sink));
    assert_octets(&rt, sink.taken(), b"9: 1");
    Ok(())
}

/// Asserts the output of `dimacs` for two files, and how the command ends.
fn assert_converted(
    rt: &impl Abort,
    alloc: Global,
    library: &mut MemLibrary,
    names: [&str; 2],
    written: &str,
    end: End,
) -> Result<(), Fail> {
    let mut sink = new_sink(alloc)?;
    let ended = dimacs(alloc, library, &mut sink, names[0], names[1]);
    assert_same(rt, &ended, &end);
    assert_octets(rt, sink.taken(), written.as_bytes());
    Ok(())
}

#[test]
fn pairs_of_arcs_are_printed_as_roads(rt: HostRuntime) -> Result<(), Fail> {
    let alloc = rt.alloc();
    let graph = b"c x\np sp 3 5\na 1 2 4\na 2 1 4\na 2 3 5\na 3 2 5\na 3 3 1\n";
    let roads = "roads 1\nnode 1 0 0\nnode 2 10 0\nnode 3 20 -5\nroad 1 2 4\nroad 2 3 5\n";
    let mut library = MemLibrary::new(alloc, Vec::new(alloc));
    library.put("graph", graph)?;
    library.put("places", b"p aux sp co 3\nv 1 0 0\nv 2 10 0\nv 3 20 -5\n")?;
    library.put("unpaired", b"p sp 3 2\na 3 1 0\na 1 3 1\n")?;
    let unpaired = Err(Fault::Dimacs(DimacsError::Unpaired(0)));
    for (names, written, end) in [
        (["graph", "places"], roads, Ok(Conclusion::Done)),
        (["unpaired", "places"], "", unpaired),
        (["places", "none"], "", Err(Fault::Missing)),
    ] {
        assert_converted(&rt, alloc, &mut library, names, written, end)?;
    }
    Ok(())
}

#[test]
fn the_root_of_one_node_is_the_digest_of_its_leaf(rt: HostRuntime) -> Result<(), Fail> {
    let alloc = rt.alloc();
    let written = b"1 0bfc2e4d0e3dae6077c5b8426941c6b43c58ab486b1a83d6e6151142b0f24bf2\n";
    let mut library = MemLibrary::new(alloc, Vec::new(alloc));
    library.put("map.roads", b"roads 1\nnode 7 -1 2\n")?;
    let mut sink = new_sink(alloc)?;
    let ended = root(alloc, &mut library, &mut sink, "map.roads", 2);
    assert_same(&rt, &ended, &Ok(Conclusion::Done));
    assert_octets(&rt, sink.taken(), written);
    Ok(())
}
