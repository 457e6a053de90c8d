//! Files that are opened by their names and read.
ghost use Rattle.std.specs.Prelude.{◌≡◌, ◌<◌, ◌≤◌, ◌∷◌, [], length, take, IfOk, OnErr};
ghost use Rattle.std.specs.Io.KnownBytes.{ReadConsumes};
ghost use Rattle.outside.specs.Called.{Called};

use crate::record::Record;
use std::fs;
use std::io::{self, ErrorKind, Read};
use std::rt::Files;

/// The files of the working folder, of which one is open at a time, and the system's answers.
///
/// The history has each opening by its answer, as `Record::call` notes it; 2 octets that a read gave; 3 that the file
/// has ended; 5 that it was closed, with what the caller made of it. The calls are 0 an opening and 1 a read.
#[derive(Drop)]
pub struct NotedFiles<R: Files + Drop> {
    rt: R,
    file: Option<R::File>,
    history: Record,
    calls: Record,
}

impl<R: Files + Drop> NotedFiles<R> {
    /// Makes the files that the runtime reaches. None is open.
    pub fn new(rt: R) -> NotedFiles<R>
        ensures history { result.history.events ≡ [] }
        ensures calls { result.calls.events ≡ [] }
    {
        NotedFiles {
            rt,
            file: None,
            history: Record::new(),
            calls: Record::new(),
        }
    }

    /// Opens the file with a name for reading. Notes that it exists, that it is missing, or that it is refused.
    pub fn open(&mut self, name: &str) -> io::Result<()>
        ensures noted { Called 0 name.now result self.old.history.events self.new.history.events }
        ensures called { Called 0 name.now result self.old.calls.events self.new.calls.events }
    {
        self.file = Some(
            self.calls.call(
                0,
                name.as_bytes(),
                self.history
                    .call(0, name.as_bytes(), fs::open(&self.rt, name)),
            )?,
        );
        Ok(())
    }

    /// Reads some octets of the open file. Notes them, or that the file has ended.
    pub fn read(&mut self, into: &mut [u8]) -> io::Result<usize>
        requires { 0 < length into.old }
        ensures most { IfOk result (λ n. n ≤ length into.new) }
        ensures size { length into.new ≡ length into.old }
        ensures end { IfOk result (λ n. n ≡ 0 →
            self.new.history.events ≡ (3 ∷ [], []) ∷ self.old.history.events) }
        ensures noted { IfOk result (λ n. 0 < n →
            self.new.history.events ≡ (2 ∷ [], take n into.new) ∷ self.old.history.events) }
        ensures kept { OnErr result (self.new.history.events ≡ self.old.history.events) }
        ensures called { Called 1 [] result self.old.calls.events self.new.calls.events }
    {
        match &mut self.file {
            Some(file) => read_noted(file, into, &mut self.history, &mut self.calls),
            None => self
                .calls
                .call(1, b"", Err(io::Error::from(ErrorKind::NotFound))),
        }
    }

    /// Closes the open file, and notes what became of it.
    pub fn close(&mut self, became: u64)
        ensures noted { self.new.history.events ≡ (5 ∷ became ∷ [], []) ∷ self.old.history.events }
        ensures calls { self.new.calls.events ≡ self.old.calls.events }
    {
        self.history.note(&[5, became], &[]);
        self.file = None;
    }
}

/// Reads some octets of a file. Notes them, or that the file has ended.
fn read_noted<F: Read>(
    file: &mut F,
    into: &mut [u8],
    history: &mut Record,
    calls: &mut Record,
) -> io::Result<usize>
    requires { 0 < length into.old }
    ensures most { IfOk result (λ n. n ≤ length into.new) }
    ensures size { length into.new ≡ length into.old }
    ensures gave { ReadConsumes (F.remaining file.old) (F.remaining file.new) result into.new }
    ensures end { IfOk result (λ n. n ≡ 0 →
        history.new.events ≡ (3 ∷ [], []) ∷ history.old.events) }
    ensures noted { IfOk result (λ n. 0 < n →
        history.new.events ≡ (2 ∷ [], take n into.new) ∷ history.old.events) }
    ensures kept { OnErr result (history.new.events ≡ history.old.events) }
    ensures called { Called 1 [] result calls.old.events calls.new.events }
{
    let count = calls.call(1, b"", file.read(into))?;
    history.note(&[if count == 0 { 3 } else { 2 }], &into[..count]);
    Ok(count)
}
