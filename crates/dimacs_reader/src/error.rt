//! Why two texts are not valid road files of the challenge.

use octet_text::NoMemory;
use thiserror::Error;

/// The first fault of a graph and its coordinates.
///
/// A file has the number 1 if it is the graph, and 2 if it is the coordinates. Lines are counted from 1, and
/// skipped lines count too.
#[derive(Clone, Copy, Debug, PartialEq, Eq, Error)]
pub enum DimacsError {
    /// The file with this number has only skipped lines, or its first other line is not a problem line.
    #[error("The file does not begin with `p sp NODES ARCS` in a graph, or `p aux sp co NODES` in coordinates.")]
    NoProblem(u8),
    /// In the file with this number, the line with this number is not an arc (in a graph) or a place (in
    /// coordinates).
    #[error("Line {1} is not `a FROM TO LENGTH` in a graph, or `v ID X Y` in coordinates.")]
    BadLine(u8, u32),
    /// In the file with this number, the line with this number has a word that is not a number in the allowed
    /// range.
    #[error("Line {1} has a word that is not a number, or a number out of range.")]
    BadNumber(u8, u32),
    /// The problem line of the file with this number declares more than 65,536 nodes or 524,288 arcs.
    #[error("The problem line says more than 65,536 nodes or 524,288 arcs.")]
    TooMany(u8),
    /// In the file with this number, the line with this number has an id that is not from 1 to the number of
    /// nodes.
    #[error("Line {1} has an id that is not from 1 to the number of nodes.")]
    Range(u8, u32),
    /// For 1, the graph does not have as many arcs as it declares. For 2, the number of coordinates differs from
    /// the declared number or from the number of the graph's nodes.
    #[error("There are not as many arcs, or places of the graph's nodes, as the problem line says.")]
    Count(u8),
    /// The least id for which there are two places.
    #[error("The node {0} is placed twice.")]
    Repeated(u32),
    /// The least index, counted from 0, of an arc between two nodes for which there is no reverse arc left.
    #[error("The arc at index {0} has no arc back of the same length.")]
    Unpaired(u32),
    /// Out of memory.
    #[error("There is not enough memory to read the two files.")]
    Memory(NoMemory),
}

impl From<NoMemory> for DimacsError {
    ghost use Rattle.std.specs.Prelude.{◌≡◌};
    ghost use Rattle.dimacs_reader.specs.declared.error.DimacsError.TheVariants.{Memory};

    ghost from_gives = { λ none e. e ≡ Memory none };

    fn from(none: NoMemory) -> DimacsError {
        DimacsError::Memory(none)
    }
}
