//! Quoting words from a file.

use std::fmt::{self, Display, Formatter};

/// The greatest number of octets of a word that are quoted.
const MOST: usize = 20;

/// A word from a file. A long word is cut. Only visible ASCII characters are shown, so no file can control a
/// terminal.
#[derive(Clone, Copy)]
pub struct Quoted<'a>(pub &'a [u8]);

impl Display for Quoted<'_> {
    fn fmt<W: fmt::Write>(&self, f: &mut Formatter<W>) -> fmt::Result {
        let (front, rest) = self.0.split_at(self.0.len().min(MOST));
        if !front.iter().all(|octet| octet.is_ascii_graphic()) {
            return f.write_str("an unprintable word");
        }
        match str::from_utf8(front) {
            Ok(word) => f.write_str(word)?,
            Err(_) => return f.write_str("an unprintable word"),
        }
        if rest.is_empty() {
            Ok(())
        } else {
            f.write_str("..")
        }
    }
}
