//! Reads road files of the DIMACS shortest path challenge as the parts of a map.
//!
//! A graph file lists arcs, each in one direction. A coordinate file lists the coordinates of the graph's nodes.
//! Both are lists of lines, and a line is a list of words, as in a road file. Lines without words and lines whose
//! first word begins with `c` are skipped. The first other line is the problem line: `p sp NODES ARCS` in a graph,
//! `p aux sp co NODES` in coordinates. Each later line is an arc `a FROM TO LENGTH`, or a place `v ID X Y`.
//!
//! A road is a pair of arcs of the same length, one in each direction. Arcs from a node to itself are not roads.
#![tactic(auto)]

mod arc;
mod error;
mod graph;
mod laws;
mod lines;
mod pairing;
mod places;
mod problem;
mod reader;

pub use error::DimacsError;
pub use laws::dimacs_laws;
pub use reader::read_dimacs;
