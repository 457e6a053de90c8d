//! The parts of a query, and the items of an answer.

use octet_text::List;
use road_leaf::{NodeLeaves, PairLeaf};
use road_map::Ids;

/// The two ends of a query, by id.
#[derive(Clone, Copy, Debug, PartialEq, Eq)]
pub struct Query {
    pub from: u32,
    pub to: u32,
}

/// Indices in a list of leaves, from 0.
pub type Places = List<u32>;

/// A list of the leaves of pairs.
pub type PairLeaves = List<PairLeaf>;

/// The items of an answer: the ids of a route, and leaves of nodes and of pairs.
#[derive(Debug, Drop)]
pub struct Items {
    pub route: Ids,
    pub nodes: NodeLeaves,
    pub pairs: PairLeaves,
}
