//! The known contents of the file that the message about a run names.

use crate::hex_text::{WrongHex, digits_of};
use crate::looks::{Look, look_of};
use command_files::{Ended, Fault};
use road_command::{Command, Words, command_of};

/// The known contents of a file.
#[derive(Clone, Copy)]
pub enum Content<'a> {
    /// Nothing is known: the file was not loaded, or a key was to be made from it.
    Unknown,
    /// The first octets of a road file, a graph, its coordinates, a publication, a chain file or a reply, and the
    /// length of the file in octets.
    Octets { front: &'a [u8], length: usize },
    /// How a file differs from the required hex digits, and what kind of file it looks like. The file may hold a
    /// secret, so none of its octets is kept.
    Hex { wrong: WrongHex, look: Option<Look> },
}

impl<'a> Content<'a> {
    /// Returns the known contents of a file after a run that ended in this way. The file has `length` octets and
    /// begins with `front`.
    pub fn of(
        words: &Words,
        ended: Ended,
        name: &str,
        text: &'a [u8],
        length: usize,
    ) -> Content<'a> {
        match (ended.fault, command_of(words)) {
            (Some(Fault::BadHex), command) => {
                Content::of_hex(text, length, digits_of(command, name))
            }
            (_, Some(Command::Key { .. } | Command::Succeed { .. })) => Content::Unknown,
            _ => Content::Octets {
                front: text,
                length,
            },
        }
    }

    /// Returns the known contents of a file that does not hold the required hex digits.
    pub fn of_hex(text: &[u8], length: usize, wanted: Option<usize>) -> Content<'a> {
        Content::Hex {
            wrong: WrongHex::of(text, length, wanted),
            look: look_of(text),
        }
    }

    /// Returns the octets that are kept. The slice is empty if none are.
    pub fn octets(&self) -> &'a [u8] {
        match self {
            Content::Octets { front, length: _ } => *front,
            _ => &[],
        }
    }

    /// Tests whether only a line end follows from this offset on.
    pub fn ends_a_line_at(&self, offset: u32) -> bool {
        match self {
            Content::Octets { front, length } => {
                let at = offset as usize;
                *length == at.saturating_add(1) && front.get(at) == Some(&b'\n')
            }
            _ => false,
        }
    }

    /// Returns what kind of file it looks like, if this is a known kind.
    pub fn look(&self) -> Option<Look> {
        match self {
            Content::Unknown => None,
            Content::Octets { front, length: _ } => look_of(*front),
            Content::Hex { wrong: _, look } => *look,
        }
    }
}
