//! A file that is appended to.
ghost use Rattle.std.specs.Prelude.{◌≡◌, ◌∷◌, [], OnOk, OnErr};
ghost use Rattle.std.specs.Io.KnownBytes.{Appends};
ghost use Rattle.outside.specs.Called.{Called};

use crate::look::{Look, look_of};
use crate::names::NotedNames;
use crate::record::Record;
use std::fs::{File, OpenOptions};
use std::io::{self, ErrorKind, Write};
use std::rt::Files;

/// A file that pieces are appended to, or none, the pieces that it took, and each call, under the code 0 with the piece.
#[derive(Drop)]
pub struct NotedTail {
    file: Option<File>,
    history: Record,
    calls: Record,
}

impl NotedTail {
    /// Makes the object over a file that is positioned where the first piece goes, or over none.
    pub fn new(file: Option<File>) -> NotedTail
        ensures history { result.history.events ≡ [] }
        ensures calls { result.calls.events ≡ [] }
    {
        NotedTail {
            file,
            history: Record::new(),
            calls: Record::new(),
        }
    }

    /// Appends a whole piece, and notes it. Without a file it fails.
    pub fn append(&mut self, piece: &[u8]) -> io::Result<()>
        ensures noted { OnOk result
            (self.new.history.events ≡ ([], piece.now) ∷ self.old.history.events) }
        ensures kept { OnErr result (self.new.history.events ≡ self.old.history.events) }
        ensures called { Called 0 piece.now result self.old.calls.events self.new.calls.events }
    {
        match &mut self.file {
            Some(file) => append_noted(file, piece, &mut self.history, &mut self.calls),
            None => self
                .calls
                .call(0, piece, Err(io::Error::from(ErrorKind::NotFound))),
        }
    }

    /// Makes the pieces durable, if there is a file. Notes the call among those of the names.
    pub fn sync<R: Files<File = File> + Drop>(&self, names: &mut NotedNames<R>) -> io::Result<()>
        ensures called { Called 3 [] result names.old.calls.events names.new.calls.events }
        ensures answers { names.new.answers.events ≡ names.old.answers.events }
    {
        match &self.file {
            Some(file) => names.calls.call(3, b"", file.sync_all()),
            None => names.calls.call(3, b"", Ok(())),
        }
    }
}

/// Appends a whole piece after the octets that the file took before, and notes it.
fn append_noted<F: Write>(
    file: &mut F,
    piece: &[u8],
    history: &mut Record,
    calls: &mut Record,
) -> io::Result<()>
    ensures took { OnOk result
        (Appends (F.contents file.old) (F.contents file.new) piece.now) }
    ensures noted { OnOk result
        (history.new.events ≡ ([], piece.now) ∷ history.old.events) }
    ensures kept { OnErr result (history.new.events ≡ history.old.events) }
    ensures called { Called 0 piece.now result calls.old.events calls.new.events }
{
    calls.call(0, piece, file.write_all(piece))?;
    history.note(&[], piece);
    Ok(())
}

/// Opens the existing file with a name for appending, and looks at it.
pub fn open_to_append<R: Files<File = File>>(rt: &R, name: &str) -> io::Result<(File, Look)> {
    let file = OpenOptions::new().append(true).open(rt, name)?;
    let look = look_of(&file.metadata()?);
    Ok((file, look))
}
