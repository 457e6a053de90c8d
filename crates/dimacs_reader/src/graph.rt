//! Graph files.

ghost use Rattle.std.specs.Prelude.{◌≡◌, ◌+◌, ◌^◌, ◌<◌, ◌⊎◌, Ok, Err, IfOk, IfErr, length};
ghost use Rattle.octet_text.specs.Want.{no_memory};
ghost use Rattle.road_reader.specs.Lines.{words_of};
ghost use Rattle.dimacs_reader.specs.Told.{told_lines};
ghost use Rattle.dimacs_reader.specs.Fields.{arc_in};
ghost use Rattle.dimacs_reader.specs.Dimacs.{is_id, arc_of, each_of, graph_of};

use crate::arc::{Arc, Arcs};
use crate::error::DimacsError;
use crate::lines::next_line;
use crate::problem::graph_size;
use octet_text::push;
use road_reader::{FourWords, Line, Lines, four_words, natural};
use std::alloc::Global;

/// The contents of a graph file.
#[derive(Drop)]
pub struct Graph {
    /// The number of nodes. Their ids are the numbers from 1 to this one.
    pub nodes: u32,
    /// The arcs, in the order of the file.
    pub arcs: Arcs,
}

/// Tests whether a number is an id, if there are `nodes` nodes.
pub fn is_id(nodes: u32, id: u32) -> bool
    ensures { result ≡ is_id nodes id }
{
    1 <= id && id <= nodes
}

fn arc(words: &FourWords) -> Option<Arc>
    ensures { result ≡ arc_in words.now.first.now words.now.second.now words.now.third.now }
{
    let from = natural(words.first)?;
    let to = natural(words.second)?;
    let length = natural(words.third)?;
    Some(Arc { from, to, length })
}

/// Parses the arc in a line. Fails with the line's first fault.
fn read_arc(nodes: u32, line: Line) -> Result<Arc, DimacsError>
    ensures { result ≡ arc_of nodes line.entry.number (words_of line.entry.octets.now) }
{
    let words = four_words(line.octets).ok_or(DimacsError::BadLine(1, line.number))?;
    if words.kind != b"a".as_slice() {
        return Err(DimacsError::BadLine(1, line.number));
    }
    let arc = arc(&words).ok_or(DimacsError::BadNumber(1, line.number))?;
    if !is_id(nodes, arc.from) || !is_id(nodes, arc.to) {
        return Err(DimacsError::Range(1, line.number));
    }
    Ok(arc)
}

/// Parses the arcs in all remaining lines.
fn read_arcs(alloc: Global, nodes: u32, mut lines: Lines) -> Result<Vec<Arc>, DimacsError>
    requires { lines.passed + length lines.rest.now < 2 ^ 32 }
    ensures arcs { IfOk result (λ arcs.
        each_of (arc_of nodes) (told_lines lines.entry.passed lines.entry.rest.now) ≡ Ok
        arcs.items) }
    ensures fault { IfErr result (λ fault. (fault ≡ DimacsError.Memory no_memory)
        ⊎ (each_of (arc_of nodes) (told_lines lines.entry.passed lines.entry.rest.now) ≡ Err
        fault)) }
{
    let mut arcs = Vec::new(alloc);
    while let Some(line) = next_line(&mut lines) {
        let arc = read_arc(nodes, line)?;
        push(&mut arcs, arc)?;
    }
    Ok(arcs)
}

/// Reads a graph file of fewer than 2^32 octets.
pub fn read_graph(alloc: Global, text: &[u8]) -> Result<Graph, DimacsError>
    requires { length text.now < 2 ^ 32 }
    ensures graph { IfOk result (λ graph. graph_of text.now ≡ Ok graph) }
    ensures fault { IfErr result (λ fault. (fault ≡ DimacsError.Memory no_memory) ⊎
        (graph_of text.now ≡ Err fault)) }
{
    let mut lines = Lines {
        rest: text,
        passed: 0,
    };
    let Some(problem) = next_line(&mut lines) else {
        return Err(DimacsError::NoProblem(1));
    };
    let size = graph_size(problem)?;
    let arcs = read_arcs(alloc, size.nodes, lines)?;
    if arcs.len() != size.arcs as usize {
        return Err(DimacsError::Count(1));
    }
    Ok(Graph {
        nodes: size.nodes,
        arcs: Arcs::from_vec(arcs),
    })
}
