//! A library that keeps a prefix of each loaded file.
ghost use Rattle.std.specs.Prelude.{◌≡◌, IfOk, length, string_bytes, take};

use crate::{Library, LoadError};
use octet_text::{NoMemory, copied, text_of};
use std::alloc::Global;

/// The prefix of a loaded file.
#[derive(Drop)]
pub struct Kept {
    name: String,
    front: Vec<u8>,
    length: usize,
}

impl Kept {
    /// Copies the first octets, at most `most` of them.
    fn of(alloc: Global, name: &str, octets: &[u8], most: usize) -> Result<Kept, NoMemory>
        ensures name { IfOk result (λ kept. string_bytes kept.name ≡ name.now) }
        ensures front { IfOk result (λ kept. kept.front.items ≡ take most octets.now) }
        ensures length { IfOk result (λ kept. kept.length ≡ length octets.now) }
    {
        let name = text_of(alloc, name)?;
        let front = copied(alloc, front_of(octets, most))?;
        Ok(Kept {
            name,
            front,
            length: octets.len(),
        })
    }

    /// Returns the first octets of the file.
    pub fn front(&self) -> &[u8] {
        &self.front
    }

    /// Returns the length of the file in octets.
    pub fn length(&self) -> usize {
        self.length
    }
}

/// Returns the first octets, at most `most`.
fn front_of(octets: &[u8], most: usize) -> &[u8]
    ensures { result.now ≡ take most octets.now }
{
    if most < octets.len() {
        &octets[..most]
    } else {
        octets
    }
}

/// A library over another one, which keeps a prefix of each loaded file. If memory is too short to keep a prefix,
/// the file is loaded all the same. It counts as its failures those that the stated files do not explain: a file that
/// is missing or too long is none.
#[derive(Drop)]
pub struct KeptLibrary<L: Library + Drop> {
    inner: L,
    kept: Vec<Kept>,
    most: usize,
}

impl<L: Library + Drop> KeptLibrary<L> {
    /// Makes a library over this one. It keeps at most `most` octets of each file.
    pub fn new(alloc: Global, inner: L, most: usize) -> KeptLibrary<L>
        ensures { result.inner ≡ inner }
    {
        KeptLibrary {
            inner,
            kept: Vec::new(alloc),
            most,
        }
    }

    /// Returns the underlying library.
    pub fn inner(&self) -> &L {
        &self.inner
    }

    /// Returns the prefix of the last file that was loaded under a name.
    pub fn kept(&self, name: &str) -> Option<&Kept> {
        let mut found = None;
        for kept in &self.kept {
            if kept.name.as_str() == name {
                found = Some(kept);
            }
        }
        found
    }

    /// Keeps the prefix of a file.
    fn keep(&mut self, alloc: Global, name: &str, octets: &[u8])
        ensures { self.new.inner ≡ self.old.inner }
    {
        if let Ok(kept) = Kept::of(alloc, name, octets, self.most) {
            let _ = self.kept.push(kept);
        }
    }
}

impl<L: Library + Drop> Library for KeptLibrary<L> {
    ghost files = { λ l. L.files l.inner };

    ghost asked = { λ l. L.asked l.inner };

    ghost faults = { λ l. L.failures l.inner };

    ghost failures = { λ l. L.failures l.inner };

    fn load(&mut self, alloc: Global, name: &str, most: usize) -> Result<Vec<u8>, LoadError> {
        match self.inner.load(alloc, name, most) {
            Ok(octets) => {
                self.keep(alloc, name, &octets);
                Ok(octets)
            }
            Err(why) => Err(why),
        }
    }
}
