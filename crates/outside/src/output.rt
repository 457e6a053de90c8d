//! Standard output.
ghost use Rattle.std.specs.Prelude.{◌≡◌, ◌∷◌, ◌≤◌, [], length, take, IfOk, OnErr};
ghost use Rattle.outside.specs.Called.{Called};

use crate::record::Record;
use std::io;

/// Standard output, the octets that the system said it took, and each call, under the code 0 with the octets.
#[derive(Drop)]
pub struct NotedOutput<R: Print + Drop> {
    rt: R,
    history: Record,
    calls: Record,
}

impl<R: Print + Drop> NotedOutput<R> {
    /// Makes the runtime's standard output. It has taken nothing.
    pub fn new(rt: R) -> NotedOutput<R>
        ensures history { result.history.events ≡ [] }
        ensures calls { result.calls.events ≡ [] }
    {
        NotedOutput {
            rt,
            history: Record::new(),
            calls: Record::new(),
        }
    }

    /// Prints some octets from the front, and notes those that the system took.
    pub fn write(&mut self, octets: &[u8]) -> io::Result<usize>
        ensures most { IfOk result (λ n. n ≤ length octets.now) }
        ensures noted { IfOk result (λ n.
            self.new.history.events ≡ ([], take n octets.now) ∷ self.old.history.events) }
        ensures kept { OnErr result (self.new.history.events ≡ self.old.history.events) }
        ensures called { Called 0 octets.now result self.old.calls.events self.new.calls.events }
    {
        let count = self.calls.call(0, octets, self.rt.write_some(octets))?;
        self.history.note(&[], &octets[..count]);
        Ok(count)
    }
}
