//! Texts in one buffer.
ghost use Rattle.std.specs.Prelude.{◌≡◌, ℕ, ◌+◌, ◌-◌, ◌<◌, ◌≤◌, ◌^◌, List, [], ◌∷◌, ◌++◌, length, take, drop, slice_index, slice_index_or, OnOk, OnErr, IsTrue, ◌↔◌};
ghost use Rattle.merkle_cover.specs.Texts.{total_length, HasRoom};

use octet_text::{NoMemory, extend, push};
use std::alloc::Global;
use std::marker::Model;

/// A list of texts, kept in one buffer.
#[derive(Drop)]
pub struct Texts {
    octets: Vec<u8>,
    ends: Vec<u32>,
}

impl Model for Texts {
    ghost use Rattle.std.specs.Prelude.{ℕ, List, ◌<◌, ◌^◌, length};
    ghost use Rattle.merkle_cover.specs.Texts.{texts_of, IsCut};

    ghost Value = { List (List ℕ) };

    ghost view = { λ t. texts_of t.octets.items 0 t.ends.items };

    ghost invariant = { λ t. IsCut t.octets.items t.ends.items };
}

impl Texts {
    /// Makes an empty list.
    pub fn new(alloc: Global) -> Texts
        ensures { result ≡ [] }
    {
        Texts {
            octets: Vec::new(alloc),
            ends: Vec::new(alloc),
        }
    }

    /// Tests whether one more text fits: there are fewer than 4,294,967,295 texts, and with the new one they have
    /// fewer than 2^32 octets in all.
    pub fn fits(&self, text: &[u8]) -> bool
        ensures { IsTrue result ↔ HasRoom self.now text.now }
    {
        self.ends.len() < u32::MAX as usize
            && self.octets.len() as u64 + text.len() as u64 <= u64::from(u32::MAX)
    }

    /// Appends a text. After an error the list is unchanged.
    pub fn push(&mut self, text: &[u8]) -> Result<(), NoMemory>
        requires { HasRoom self.old text.now }
        ensures ok { OnOk result (self.new ≡ self.old ++ text.now ∷ []) }
        ensures err { OnErr result (self.new ≡ self.old) }
    {
        let before = self.octets.len();
        extend(&mut self.octets, text)?;
        let end = self.octets.len() as u32;
        if let Err(none) = push(&mut self.ends, end) {
            self.octets.truncate(before);
            return Err(none);
        }
        Ok(())
    }

    /// Returns the number of texts.
    pub fn count(&self) -> u32
        ensures { result ≡ length self.now }
    {
        self.ends.len() as u32
    }

    /// Returns the number of octets in all texts.
    pub fn total(&self) -> u64
        ensures { result ≡ total_length self.now }
    {
        self.octets.len() as u64
    }

    /// Returns the text at an index.
    pub fn text(&self, index: u32) -> &[u8]
        requires { index < length self.now }
        ensures { result.now ≡ slice_index_or self.now index [] }
    {
        let index = index as usize;
        let start = start_of(&self.ends, index);
        let end = self.ends[index] as usize;
        between(&self.octets, start, end)
    }
}

// Returns the octets from one offset up to another.
pub(crate) fn between(octets: &[u8], start: usize, end: usize) -> &[u8]
    requires order { start ≤ end }
    requires within { end ≤ length octets.now }
    ensures { result.now ≡ take (end - start) (drop start octets.now) }
{
    &octets[start..end]
}

// Returns the offset at which the text at an index starts, which is the end of the previous text.
fn start_of(ends: &[u32], index: usize) -> usize
    requires { index < length ends.now }
    ensures { result ≡ slice_index (0 ∷ ends.now) index }
{
    if index == 0 {
        0
    } else {
        ends[index - 1] as usize
    }
}
