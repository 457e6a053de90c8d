//! Files that do not consist of the required hex digits.

use road_command::Command;
use std::fmt::{self, Display, Formatter};

/// How a text differs from the required number of hex digits or, if no number is required, from an even number of
/// them. It holds only counts and an offset. It holds no octet of the text, which may be a secret.
#[derive(Clone, Copy, Debug, PartialEq, Eq)]
pub struct WrongHex {
    /// The number of octets before the line end.
    found: usize,
    /// The offset of the first octet that is not a hex digit.
    place: Option<usize>,
    /// The required number of digits.
    wanted: Option<usize>,
    /// The number of all octets, if only some of them were examined.
    all: Option<usize>,
}

impl WrongHex {
    /// Returns how a text differs from the required hex digits. `text` has its first octets, and `length` is the
    /// number of all its octets.
    pub fn of(text: &[u8], length: usize, wanted: Option<usize>) -> WrongHex {
        let line = without_line_end(text);
        WrongHex {
            found: line.len(),
            place: line.iter().position(|octet| !octet.is_ascii_hexdigit()),
            wanted,
            all: if text.len() < length {
                Some(length)
            } else {
                None
            },
        }
    }
}

impl Display for WrongHex {
    fn fmt<W: fmt::Write>(&self, f: &mut Formatter<W>) -> fmt::Result {
        let found = self.found;
        match (self.place, self.wanted, self.all) {
            (Some(place), Some(wanted), _) => write!(
                f,
                "The octet at offset {place} is not a hex digit. The file must have {wanted} hex digits and at most one line end."
            ),
            (Some(place), None, _) => write!(
                f,
                "The octet at offset {place} is not a hex digit. The file must have an even number of hex digits and at most one line end."
            ),
            (None, _, Some(length)) => { write!(f, "It is too long: it has {length} octets.") }
            (None, Some(wanted), None) => {
                write!(f, "It has {found} hex {}, not {wanted}.", digits(found))
            }
            (None, None, None) => {
                write!(
                    f,
                    "It has {found} hex {}. The number must be even.",
                    digits(found)
                )
            }
        }
    }
}

/// Returns the word for this number of digits.
fn digits(count: usize) -> &'static str {
    if count == 1 { "digit" } else { "digits" }
}

/// Returns a text without its final line end, if it has one.
fn without_line_end(text: &[u8]) -> &[u8] {
    match text {
        [line @ .., b'\r', b'\n'] => line,
        [line @ .., b'\n'] => line,
        _ => text,
    }
}

/// Returns the number of hex digits that a command requires of its file with this name. Returns `None` if any even
/// number is allowed.
pub fn digits_of(command: Option<Command<'_>>, name: &str) -> Option<usize> {
    match command {
        Some(Command::Key { .. } | Command::Succeed { .. }) => Some(96),
        Some(Command::Reduce { key, .. }) if key != name => None,
        _ => Some(112),
    }
}
