//! A sink that takes one octet at a time. It fails at each call of `route`, in turn.

use command_files::{Conclusion, Fault};
use map_commands::route;
use mem_io::{MemLibrary, MemSink};
use std::alloc::Global;
use std::process::Abort;
use std::test::Fail;
use test_maps::FIVE_NODES;

/// The line of the route from 1 to 3.
const LINE: &[u8] = b"9: 1 2 3\n";

/// Asserts that a run whose sink fails at this call reports this, and has written the octets before the call.
fn is_cut(
    rt: &impl Abort,
    alloc: Global,
    library: &mut MemLibrary,
    call: usize,
    wanted: Result<Conclusion, Fault>,
) -> Result<(), Fail> {
    let mut sink = MemSink::new(alloc, 100, 1, vec![in alloc; call as u64]?)?;
    let end = route(alloc, library, &mut sink, "map.roads", 1, 3);
    assert_eq!(rt; end, wanted, "at {call}");
    assert_eq!(rt; Some(sink.taken()), LINE.get(..call), "at {call}");
    Ok(())
}

#[test]
fn a_line_is_cut_where_the_sink_fails(rt: HostRuntime) -> Result<(), Fail> {
    let alloc = rt.alloc();
    let mut library = MemLibrary::new(alloc, Vec::new(alloc));
    library.put("map.roads", FIVE_NODES.as_bytes())?;
    for call in 0..LINE.len() {
        is_cut(&rt, alloc, &mut library, call, Err(Fault::Sink))?;
    }
    is_cut(&rt, alloc, &mut library, LINE.len(), Ok(Conclusion::Done))
}
