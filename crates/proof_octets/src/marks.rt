//! Nodes with their distances.

use octet_text::List;

/// A node and its distance from the node of the query.
#[derive(Clone, Copy, Debug, PartialEq, Eq)]
pub struct Mark {
    pub id: u32,
    /// The least length of a walk to the node.
    pub distance: u64,
}

/// A list of nodes with their distances.
pub type Marks = List<Mark>;
