//! Words that are not numbers in the allowed range.

use crate::quoted::Quoted;
use road_reader::{coordinate, natural, split_word, without_return};
use std::fmt::{self, Display, Formatter};

/// The allowed range of a number.
#[derive(Clone, Copy, Debug, PartialEq, Eq)]
pub enum Range {
    /// A 32-bit number without a sign: an id, a length or a count.
    Natural,
    /// A 32-bit number with a sign: a coordinate.
    Coordinate,
}

impl Range {
    /// Tests whether a word is a number in this range.
    fn has(self, word: &[u8]) -> bool {
        match self {
            Range::Natural => natural(word).is_some(),
            Range::Coordinate => coordinate(word).is_some(),
        }
    }
}

/// A word that is not a number in the allowed range, and its line, counted from 1.
#[derive(Clone, Copy, Debug, PartialEq, Eq)]
pub struct BadNumber<'a> {
    pub line: u32,
    pub word: &'a [u8],
    pub range: Range,
}

/// Returns the first word of a line that is not a number in the allowed range, in a road file, a graph or its
/// coordinates. Lines are counted from 1.
pub fn bad_number(text: &[u8], line: u32) -> Option<BadNumber<'_>> {
    let mut number = 0u32;
    for octets in text.split(|octet| *octet == b'\n') {
        number = number.saturating_add(1);
        if number == line {
            return bad_number_in(line, without_return(octets));
        }
    }
    None
}

/// Returns the first word among a line's octets that is not a number in the allowed range.
fn bad_number_in(line: u32, octets: &[u8]) -> Option<BadNumber<'_>> {
    let (kind, mut rest) = split_word(octets);
    for place in 0..6u32 {
        let (word, behind) = split_word(rest);
        rest = behind;
        if word.is_empty() {
            return None;
        }
        if let Some(range) = range_of(kind, place, word) {
            if !range.has(word) {
                return Some(BadNumber { line, word, range });
            }
        }
    }
    None
}

/// Returns the allowed range of the word at an index after a line's kind, if the word must be a number.
fn range_of(kind: &[u8], place: u32, word: &[u8]) -> Option<Range> {
    let is_place = kind == b"node".as_slice() || kind == b"v".as_slice();
    if is_place && place > 0 {
        return Some(Range::Coordinate);
    }
    if kind == b"p".as_slice() && is_title(word) {
        return None;
    }
    Some(Range::Natural)
}

/// Tests whether a word belongs to the fixed words of a problem line.
fn is_title(word: &[u8]) -> bool {
    word == b"sp".as_slice() || word == b"aux".as_slice() || word == b"co".as_slice()
}

impl Display for BadNumber<'_> {
    fn fmt<W: fmt::Write>(&self, f: &mut Formatter<W>) -> fmt::Result {
        let BadNumber { line, word, range } = self;
        let word = Quoted(*word);
        let ends = match range {
            Range::Natural => "0 to 4294967295",
            Range::Coordinate => "-2147483648 to 2147483647",
        };
        write!(f, "Line {line}: {word} is not a whole number from {ends}.")
    }
}
