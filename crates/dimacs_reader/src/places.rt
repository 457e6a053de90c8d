//! Coordinate files, and nodes by their ids.

ghost use Rattle.std.specs.Prelude.{◌≡◌, ◌+◌, ◌^◌, ◌<◌, ◌≤◌, ◌⊎◌, Ok, Err, IfOk, IfErr, length, All};
ghost use Rattle.octet_text.specs.Want.{no_memory};
ghost use Rattle.std.specs.List.Sorted.{IsNonDecreasingBy, IsPermutation};
ghost use Rattle.road_map.specs.Least.{IsLeast};
ghost use Rattle.road_map.specs.Maps.{StandsTwice};
ghost use Rattle.road_reader.specs.Lines.{words_of};
ghost use Rattle.dimacs_reader.specs.Told.{told_lines};
ghost use Rattle.dimacs_reader.specs.Fields.{place_in};
ghost use Rattle.dimacs_reader.specs.Dimacs.{place_of, each_of, places_of, placed_twice, nodes_of, where_none};

use crate::error::DimacsError;
use crate::graph::is_id;
use crate::lines::next_line;
use crate::problem::place_count;
use octet_text::push;
use road_map::{Node, Nodes};
use road_reader::{FourWords, Line, Lines, coordinate, four_words, natural};
use std::alloc::Global;

fn place(words: &FourWords) -> Option<Node>
    ensures { result ≡ place_in words.now.first.now words.now.second.now words.now.third.now }
{
    let id = natural(words.first)?;
    let x = coordinate(words.second)?;
    let y = coordinate(words.third)?;
    Some(Node { id, x, y })
}

/// Parses the place in a line. Fails with the line's first fault.
fn read_place(nodes: u32, line: Line) -> Result<Node, DimacsError>
    ensures { result ≡ place_of nodes line.entry.number (words_of line.entry.octets.now) }
{
    let words = four_words(line.octets).ok_or(DimacsError::BadLine(2, line.number))?;
    if words.kind != b"v".as_slice() {
        return Err(DimacsError::BadLine(2, line.number));
    }
    let node = place(&words).ok_or(DimacsError::BadNumber(2, line.number))?;
    if !is_id(nodes, node.id) {
        return Err(DimacsError::Range(2, line.number));
    }
    Ok(node)
}

/// Parses the places in all remaining lines.
fn list_places(alloc: Global, nodes: u32, mut lines: Lines) -> Result<Vec<Node>, DimacsError>
    requires { lines.passed + length lines.rest.now < 2 ^ 32 }
    ensures places { IfOk result (λ places.
        each_of (place_of nodes) (told_lines lines.entry.passed lines.entry.rest.now) ≡ Ok
        places.items) }
    ensures fault { IfErr result (λ fault. (fault ≡ DimacsError.Memory no_memory)
        ⊎ (each_of (place_of nodes)
        (told_lines lines.entry.passed lines.entry.rest.now) ≡ Err fault)) }
{
    let mut places = Vec::new(alloc);
    while let Some(line) = next_line(&mut lines) {
        let place = read_place(nodes, line)?;
        push(&mut places, place)?;
    }
    Ok(places)
}

/// Reads the coordinates of a graph with `nodes` nodes, from a file of fewer than 2^32 octets.
pub fn read_places(alloc: Global, nodes: u32, text: &[u8]) -> Result<Vec<Node>, DimacsError>
    requires { length text.now < 2 ^ 32 }
    ensures places { IfOk result (λ places. places_of nodes text.now ≡ Ok places.items) }
    ensures fault { IfErr result (λ fault. (fault ≡ DimacsError.Memory no_memory) ⊎
        (places_of nodes text.now ≡ Err fault)) }
{
    let mut lines = Lines {
        rest: text,
        passed: 0,
    };
    let Some(problem) = next_line(&mut lines) else {
        return Err(DimacsError::NoProblem(2));
    };
    let count = place_count(problem)?;
    let places = list_places(alloc, count, lines)?;
    if count != nodes || places.len() != count as usize {
        return Err(DimacsError::Count(2));
    }
    Ok(places)
}

/// Returns the nodes sorted by id.
fn sorted_by_id(mut places: Vec<Node>) -> Vec<Node>
    ensures same { IsPermutation places.items result.items }
    ensures sorted { IsNonDecreasingBy (λ n. n.id) result.items }
{
    places.sort_unstable_by_key(|node| node.id);
    places
}

/// Returns the least id that occurs more than once among nodes sorted by id.
fn repeated_id(nodes: &[Node]) -> Option<u32>
    requires { IsNonDecreasingBy (λ n. n.id) nodes.now }
    ensures { IsLeast (StandsTwice nodes.now) result }
{
    for index in 1..nodes.len() {
        if nodes[index - 1].id == nodes[index].id {
            return Some(nodes[index].id);
        }
    }
    None
}

/// Returns the nodes of a graph by ascending id. The ids of the places must be 1 to the number of nodes.
pub fn nodes_by_id(places: Vec<Node>, nodes: u32) -> Result<Nodes, DimacsError>
    requires { All (λ n. (1 ≤ n.id) × (n.id ≤ nodes)) places.items }
    ensures { result ≡ where_none (placed_twice nodes places.items) (λ id. DimacsError.Repeated id)
        (nodes_of nodes places.items) }
{
    let sorted = sorted_by_id(places);
    match repeated_id(sorted.as_slice()) {
        None => Ok(Nodes::from_vec(sorted)),
        Some(id) => Err(DimacsError::Repeated(id)),
    }
}
