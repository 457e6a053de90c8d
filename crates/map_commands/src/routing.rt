//! The command `route`.

ghost use Rattle.std.specs.Prelude.{◌∷◌, [], ◌≡◌, ◌++◌};
ghost use Rattle.command_files.specs.Endings.{Promises, TellsNone, NoDisk};
ghost use Rattle.command_files.specs.Spared.{SparesLibrary, SparesBut};
ghost use Rattle.map_commands.specs.RouteLine.{GivesLine, ends_route};

use command_files::{Conclusion, Fault, load_map, write_text};
use road_io::{Library, Sink};
use road_line::line_of_route;
use road_map::Map;
use road_search::{knows, shortest};
use std::alloc::Global;

/// Writes the line of a shortest route between two nodes of the map in a file.
pub fn route<L: Library, K: Sink>(
    alloc: Global,
    library: &mut L,
    sink: &mut K,
    roads: &str,
    from: u32,
    to: u32,
) -> Result<Conclusion, Fault>
    ensures promised { Promises (ends_route roads.now from to) TellsNone NoDisk
        (L.files library.new) (L.faults library.old) (L.faults library.new)
        (K.taken sink.old) (K.taken sink.new) (K.faults sink.old) (K.faults sink.new) result }
    ensures library { SparesLibrary result (L.faults library.old) (L.faults library.new) }
    ensures asked { L.asked library.new ≡ L.asked library.old ++ roads.now ∷ [] }
    ensures sink { SparesBut Fault.Sink result (K.faults sink.old) (K.faults sink.new) }
{
    let map = load_map(alloc, library, roads)?;
    let line = shortest_line(alloc, &map, from, to)?;
    write_text(sink, &line)
}

/// Returns the line of a shortest route between two nodes of a map.
fn shortest_line(alloc: Global, map: &Map, from: u32, to: u32) -> Result<Vec<u8>, Fault>
    ensures { GivesLine map.now.parts from to result }
{
    if !knows(map, from) {
        return Err(Fault::UnknownNode(from));
    }
    if !knows(map, to) {
        return Err(Fault::UnknownNode(to));
    }
    match shortest(alloc, map, from, to) {
        Ok(Some(path)) => match line_of_route(alloc, path.length, path.ids.as_slice()) {
            Ok(line) => Ok(line),
            Err(none) => Err(Fault::Memory(none)),
        },
        Ok(None) => Err(Fault::NoRoute),
        Err(none) => Err(Fault::Memory(none)),
    }
}
