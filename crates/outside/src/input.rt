//! Standard input.
ghost use Rattle.std.specs.Prelude.{◌≡◌, ◌∷◌, ◌≤◌, [], length, take, IfOk, OnErr};
ghost use Rattle.std.specs.Io.KnownBytes.{ReadConsumes};
ghost use Rattle.outside.specs.Called.{Called};

use crate::record::Record;
use std::io::{self, Read};

/// Returns the runtime's standard input. It has given nothing.
pub fn standard_input<R: Input>(rt: &R) -> NotedInput<R::Reader>
    ensures history { result.history.events ≡ [] }
    ensures calls { result.calls.events ≡ [] }
{
    NotedInput {
        reader: rt.reader(),
        history: Record::new(),
        calls: Record::new(),
    }
}

/// A reader, the octets that it gave, each piece with the room that it had, and each read, under the code 0.
#[derive(Drop)]
pub struct NotedInput<F: Read + Drop> {
    reader: F,
    history: Record,
    calls: Record,
}

impl<F: Read + Drop> NotedInput<F> {
    /// Reads some octets, and notes them, together with the room in the buffer.
    pub fn read(&mut self, into: &mut [u8]) -> io::Result<usize>
        ensures most { IfOk result (λ n. n ≤ length into.new) }
        ensures gave { ReadConsumes (F.remaining self.old.reader) (F.remaining self.new.reader)
            result into.new }
        ensures noted { IfOk result (λ n. self.new.history.events ≡
            (length into.new ∷ [], take n into.new) ∷ self.old.history.events) }
        ensures kept { OnErr result (self.new.history.events ≡ self.old.history.events) }
        ensures called { Called 0 [] result self.old.calls.events self.new.calls.events }
    {
        let count = self.calls.call(0, b"", self.reader.read(into))?;
        self.history.note(&[into.len() as u64], &into[..count]);
        Ok(count)
    }
}
