//! Reading a graph and its coordinates.

ghost use Rattle.std.specs.Prelude.{◌≡◌, ◌^◌, ◌<◌, ◌⊎◌, Ok, Err, IfOk, IfErr, length};
ghost use Rattle.octet_text.specs.Want.{no_memory};
ghost use Rattle.dimacs_reader.specs.Dimacs.{dimacs_of};

use crate::error::DimacsError;
use crate::graph::read_graph;
use crate::pairing::{check_pairs, roads};
use crate::places::{nodes_by_id, read_places};
use road_map::{Parts, Roads};
use std::alloc::Global;

/// Reads the parts of a graph and its coordinates, each a file of fewer than 2^32 octets. The parts are the nodes
/// by ascending id, and a road for each pair of arcs, in the order of those arcs that lead to a greater id.
///
/// Faults are found in this order: for the graph, in the order of `DimacsError` up to `Count`; for the coordinates,
/// the same; then `Repeated`; then `Unpaired`. In each file the first faulty line decides.
pub fn read_dimacs(alloc: Global, graph: &[u8], places: &[u8]) -> Result<Parts, DimacsError>
    requires graph { length graph.now < 2 ^ 32 }
    requires places { length places.now < 2 ^ 32 }
    ensures parts { IfOk result (λ parts. dimacs_of graph.now places.now ≡ Ok parts) }
    ensures fault { IfErr result (λ fault. (fault ≡ DimacsError.Memory no_memory) ⊎
        (dimacs_of graph.now places.now ≡ Err fault)) }
{
    let graph = read_graph(alloc, graph)?;
    let places = read_places(alloc, graph.nodes, places)?;
    let nodes = nodes_by_id(places, graph.nodes)?;
    check_pairs(alloc, graph.arcs.as_slice())?;
    let roads = roads(alloc, graph.arcs.as_slice())?;
    Ok(Parts {
        nodes,
        roads: Roads::from_vec(roads),
    })
}
