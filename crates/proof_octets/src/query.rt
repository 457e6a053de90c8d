//! Queries for a radius.

/// A query for the nodes within a radius of a node.
#[derive(Clone, Copy, Debug, PartialEq, Eq)]
pub struct NearQuery {
    /// The id of the node from which distances are measured.
    pub from: u32,
    /// The radius, in the unit of the roads' lengths. A node at exactly this distance is within it.
    pub radius: u64,
}
