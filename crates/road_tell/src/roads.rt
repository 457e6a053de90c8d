//! The lines in which a road file breaks a rule of maps.

use road_map::MapError;
use road_reader::natural;
use std::fmt::{self, Display, Formatter};

/// The line of a road file that breaks a rule of maps, counted from 1, and the id of the node.
#[derive(Clone, Copy, Debug, PartialEq, Eq)]
pub enum MapPlace {
    /// Two lines list the same node.
    RepeatedNode { line: u32, first: u32, id: u32 },
    /// The line's road has an end that is not a node.
    UnknownEnd { line: u32, id: u32 },
    /// The line's road joins a node to itself.
    SelfRoad { line: u32, id: u32 },
    /// The node of the line has more than 255 neighbours.
    Crowded { line: u32, id: u32 },
}

/// Returns the place of a fault in a road file, if it can be found.
pub fn place_of(text: &[u8], fault: MapError) -> Option<MapPlace> {
    match fault {
        MapError::RepeatedNode(id) => {
            let first = line_of_node(text, id, 0)?;
            let line = line_of_node(text, id, 1)?;
            Some(MapPlace::RepeatedNode { line, first, id })
        }
        MapError::UnknownEnd(index) => {
            let road = line_of_road(text, index)?;
            let a_stands = line_of_node(text, road.a, 0).is_some();
            let id = if a_stands { road.b } else { road.a };
            Some(MapPlace::UnknownEnd {
                line: road.line,
                id,
            })
        }
        MapError::SelfRoad(index) => {
            let road = line_of_road(text, index)?;
            Some(MapPlace::SelfRoad {
                line: road.line,
                id: road.a,
            })
        }
        MapError::Crowded(id) => {
            let line = line_of_node(text, id, 0)?;
            Some(MapPlace::Crowded { line, id })
        }
        MapError::Empty | MapError::TooMany | MapError::Memory(_) => None,
    }
}

/// The ends of the road in a line.
#[derive(Clone, Copy)]
struct RoadLine {
    line: u32,
    a: u32,
    b: u32,
}

/// Returns the line of the road at this index, counted from 0.
fn line_of_road(text: &[u8], index: u32) -> Option<RoadLine> {
    let mut line = 0u32;
    let mut passed = 0u32;
    for octets in text.split(|octet| *octet == b'\n') {
        line = line.saturating_add(1);
        let words = Front::of(octets);
        if words.kind == b"road".as_slice() {
            if passed == index {
                let a = natural(words.first)?;
                let b = natural(words.second)?;
                return Some(RoadLine { line, a, b });
            }
            passed = passed.saturating_add(1);
        }
    }
    None
}

/// Returns the line that lists a node. Skips the first `after` lines that list it.
fn line_of_node(text: &[u8], id: u32, after: u32) -> Option<u32> {
    let mut line = 0u32;
    let mut passed = 0u32;
    for octets in text.split(|octet| *octet == b'\n') {
        line = line.saturating_add(1);
        let words = Front::of(octets);
        if words.kind == b"node".as_slice() && natural(words.first) == Some(id) {
            if passed == after {
                return Some(line);
            }
            passed = passed.saturating_add(1);
        }
    }
    None
}

/// The first three words of a line. Missing words are empty.
#[derive(Clone, Copy)]
struct Front<'a> {
    kind: &'a [u8],
    first: &'a [u8],
    second: &'a [u8],
}

impl Front<'_> {
    fn of(line: &[u8]) -> Front<'_> {
        let (kind, rest) = split_word(line);
        let (first, rest) = split_word(rest);
        let (second, _) = split_word(rest);
        Front {
            kind,
            first,
            second,
        }
    }
}

fn is_blank(octet: u8) -> bool {
    octet == b' ' || octet == b'\t'
}

/// Returns the first word of a line, and the text after it.
fn split_word(line: &[u8]) -> (&[u8], &[u8]) {
    let start = line
        .iter()
        .position(|octet| !is_blank(*octet))
        .unwrap_or(line.len());
    let (_, line) = line.split_at(start);
    let end = line
        .iter()
        .position(|octet| is_blank(*octet))
        .unwrap_or(line.len());
    line.split_at(end)
}

impl Display for MapPlace {
    fn fmt<W: fmt::Write>(&self, f: &mut Formatter<W>) -> fmt::Result {
        match self {
            MapPlace::RepeatedNode { line, first, id } => write!(
                f,
                "Line {line} lists the node {id}, which line {first} has listed already."
            ),
            MapPlace::UnknownEnd { line, id } => {
                write!(
                    f,
                    "Line {line} has a road to {id}, and no line lists a node {id}."
                )
            }
            MapPlace::SelfRoad { line, id } => {
                write!(f, "Line {line} has a road from the node {id} to itself.")
            }
            MapPlace::Crowded { line, id } => write!(
                f,
                "The node {id} of line {line} has more than 255 neighbours."
            ),
        }
    }
}

/// Returns the number of roads with length 0 in a road file.
pub fn zero_roads(text: &[u8]) -> u32 {
    let mut count = 0u32;
    for octets in text.split(|octet| *octet == b'\n') {
        let (kind, rest) = split_word(octets);
        let (_, rest) = split_word(rest);
        let (_, rest) = split_word(rest);
        let (length, _) = split_word(rest);
        let length = match length {
            [length @ .., b'\r'] => length,
            _ => length,
        };
        if kind == b"road".as_slice() && natural(length) == Some(0) {
            count = count.saturating_add(1);
        }
    }
    count
}
