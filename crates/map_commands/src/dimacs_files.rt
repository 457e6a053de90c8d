//! The command `dimacs`.

ghost use Rattle.std.specs.Prelude.{◌∷◌, []};
ghost use Rattle.command_files.specs.Reading.{Loads};
ghost use Rattle.command_files.specs.Endings.{Promises, TellsNone, NoDisk};
ghost use Rattle.command_files.specs.Asking.{AsksFront};
ghost use Rattle.command_files.specs.Spared.{SparesLibrary, SparesBut};
ghost use Rattle.map_commands.specs.DimacsFiles.{dimacs_at, ends_dimacs};

use command_files::{Conclusion, Fault, load_file, write_text};
use dimacs_reader::{DimacsError, read_dimacs};
use road_io::{Library, Sink};
use road_map::Parts;
use road_reader::print_roads;
use std::alloc::Global;

/// Writes the road file of a graph and its coordinates.
pub fn dimacs<L: Library, K: Sink>(
    alloc: Global,
    library: &mut L,
    sink: &mut K,
    graph: &str,
    places: &str,
) -> Result<Conclusion, Fault>
    ensures promised { Promises (ends_dimacs graph.now places.now) TellsNone NoDisk
        (L.files library.new) (L.faults library.old) (L.faults library.new)
        (K.taken sink.old) (K.taken sink.new) (K.faults sink.old) (K.faults sink.new) result }
    ensures library { SparesLibrary result (L.faults library.old) (L.faults library.new) }
    ensures asked { AsksFront (graph.now ∷ places.now ∷ [])
        (L.asked library.old) (L.asked library.new) }
    ensures sink { SparesBut Fault.Sink result (K.faults sink.old) (K.faults sink.new) }
{
    let parts = load_dimacs(alloc, library, graph, places)?;
    let text = match print_roads(alloc, &parts) {
        Ok(text) => text,
        Err(none) => return Err(Fault::Memory(none)),
    };
    write_text(sink, &text)
}

/// Loads the parts of a graph and its coordinates. Loads both files before it reads either of them.
fn load_dimacs<L: Library>(
    alloc: Global,
    library: &mut L,
    graph: &str,
    places: &str,
) -> Result<Parts, Fault>
    ensures loads { Loads (λ parts. parts) (λ folder. dimacs_at folder graph.now places.now)
        (L.files library.new) (L.faults library.old) (L.faults library.new) result }
    ensures asked { AsksFront (graph.now ∷ places.now ∷ [])
        (L.asked library.old) (L.asked library.new) }
{
    let graph = load_file(alloc, library, graph)?;
    let places = load_file(alloc, library, places)?;
    match read_dimacs(alloc, &graph, &places) {
        Ok(parts) => Ok(parts),
        Err(DimacsError::Memory(none)) => Err(Fault::Memory(none)),
        Err(fault) => Err(Fault::Dimacs(fault)),
    }
}
