//! Laws of all graphs and coordinates.

ghost use Rattle.std.specs.Prelude.{◌≡◌, ℕ, List, Ok};
ghost use Rattle.road_map.specs.declared.parts.Parts.{Parts};
ghost use Rattle.road_reader.specs.RoadText.{roads_of, printed_roads};
ghost use Rattle.dimacs_reader.specs.declared.graph.Graph.{Graph};
ghost use Rattle.dimacs_reader.specs.Dimacs.{graph_of, dimacs_of};
ghost use Rattle.dimacs_reader.specs.ArcWalks.{Agrees};

/// The parts from the two files have the graph's nodes. The distance between two ids over the parts is the length
/// of a shortest directed walk over the graph's arcs, or none if no such walk exists. Reading the printed road file
/// of the parts gives the same parts.
pub fn dimacs_laws()
    ensures listed { (text places : List ℕ) (parts : Parts) → dimacs_of text places ≡ Ok parts →
        roads_of (printed_roads parts) ≡ Ok parts }
    ensures agrees { (text places : List ℕ) (graph : Graph) (parts : Parts) →
        graph_of text ≡ Ok graph → dimacs_of text places ≡ Ok parts → Agrees graph parts }
{}
