//! A sink that keeps a prefix of the octets that it took.
ghost use Rattle.std.specs.Prelude.{◌≡◌, ◌≤◌};

use crate::{Failed, Sink};

/// The number of octets kept.
const MOST: usize = 2048;

/// A sink over another one, which keeps the first 2,048 octets that it took.
#[derive(Drop)]
pub struct KeptSink<K: Sink + Drop> {
    inner: K,
    front: [u8; MOST],
    count: usize,
    ghost within: { count ≤ 2048 },
}

impl<K: Sink + Drop> KeptSink<K> {
    /// Makes a sink over this one.
    pub fn new(inner: K) -> KeptSink<K>
        ensures { result.inner ≡ inner }
    {
        KeptSink {
            inner,
            front: [0; MOST],
            count: 0,
        }
    }

    /// Returns the underlying sink.
    pub fn inner(&self) -> &K {
        &self.inner
    }

    /// Returns the first octets that the sink took, at most 2,048.
    pub fn front(&self) -> &[u8] {
        &self.front[..self.count]
    }

    /// Keeps octets after those already kept, as long as room is left.
    fn keep(&mut self, octets: &[u8])
        ensures { self.new.inner ≡ self.old.inner }
    {
        let more = octets.len().min(MOST - self.count);
        let end = self.count + more;
        (&mut self.front[self.count..end]).copy_from_slice(&octets[..more]);
        self.count = end;
    }
}

impl<K: Sink + Drop> Sink for KeptSink<K> {
    ghost taken = { λ s. K.taken s.inner };

    ghost faults = { λ s. K.faults s.inner };

    fn write(&mut self, octets: &[u8]) -> Result<usize, Failed> {
        match self.inner.write(octets) {
            Ok(count) => {
                self.keep(&octets[..count]);
                Ok(count)
            }
            Err(why) => Err(why),
        }
    }
}
