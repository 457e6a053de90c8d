//! The problem lines, which declare the sizes of the two files.

ghost use Rattle.std.specs.Prelude.{◌≡◌};
ghost use Rattle.road_reader.specs.Lines.{words_of};
ghost use Rattle.dimacs_reader.specs.Fields.{size_in};
ghost use Rattle.dimacs_reader.specs.Dimacs.{graph_size_of, place_count_of};

use crate::error::DimacsError;
use road_reader::{Line, four_words, natural, split_word};

/// The greatest number of nodes in a file.
pub const MOST_NODES: u32 = 65_536;

/// The greatest number of arcs in a graph, two for each road.
pub const MOST_ARCS: u32 = 524_288;

/// The declared size of a graph.
#[derive(Clone, Copy)]
pub struct GraphSize {
    pub nodes: u32,
    pub arcs: u32,
}

fn size(nodes: &[u8], arcs: &[u8]) -> Option<GraphSize>
    ensures { result ≡ size_in nodes.now arcs.now }
{
    let nodes = natural(nodes)?;
    let arcs = natural(arcs)?;
    Some(GraphSize { nodes, arcs })
}

/// Parses the problem line of a graph. Fails with the line's first fault.
pub fn graph_size(line: Line) -> Result<GraphSize, DimacsError>
    ensures { result ≡ graph_size_of line.entry.number (words_of line.entry.octets.now) }
{
    let words = four_words(line.octets).ok_or(DimacsError::NoProblem(1))?;
    if words.kind != b"p".as_slice() || words.first != b"sp".as_slice() {
        return Err(DimacsError::NoProblem(1));
    }
    let size = size(words.second, words.third).ok_or(DimacsError::BadNumber(1, line.number))?;
    if size.nodes > MOST_NODES || size.arcs > MOST_ARCS {
        return Err(DimacsError::TooMany(1));
    }
    Ok(size)
}

/// Parses the number of nodes in the problem line of coordinates. Fails with the line's first fault.
pub fn place_count(line: Line) -> Result<u32, DimacsError>
    ensures { result ≡ place_count_of line.entry.number (words_of line.entry.octets.now) }
{
    let (kind, rest) = split_word(line.octets);
    let words = four_words(rest).ok_or(DimacsError::NoProblem(2))?;
    if kind != b"p".as_slice()
        || words.kind != b"aux".as_slice()
        || words.first != b"sp".as_slice()
        || words.second != b"co".as_slice()
    {
        return Err(DimacsError::NoProblem(2));
    }
    let count = natural(words.third).ok_or(DimacsError::BadNumber(2, line.number))?;
    if count > MOST_NODES {
        return Err(DimacsError::TooMany(2));
    }
    Ok(count)
}
