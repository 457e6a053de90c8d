//! A mirror in a file: an adapter over the real file, which states the octets that it reported as taken.
ghost use Rattle.std.specs.Prelude.{◌≡◌, ◌≢◌, ◌+◌, ◌∷◌, [], length, IfErr, IsErr, IsOk, OnOk, OnErr};
ghost use Rattle.std.specs.IoError.{error_kind};
ghost use Rattle.std.specs.declared.option.Option.TheVariants.{Some};
ghost use Rattle.outside.specs.Called.{Adds};
ghost use Rattle.mirror_out.specs.FileMirror.{SyncsOnce};

use crate::Mirror;
use outside::{NotedNames, NotedTail, Record};
use road_io::Failed;
use std::fs::File;
use std::io::{self, ErrorKind};
use std::rt::Files;

/// A file that appends each piece, or a file that could not be opened and takes none. It promises nothing. It
/// states the pieces that it reported as taken, which follow the old contents of the file. A put that fails may
/// leave a prefix of its piece, of which the mirror states nothing.
#[derive(Drop)]
pub struct FileMirror {
    label: u32,
    tail: NotedTail,
    faults: u64,
    handed: Record,
}

impl FileMirror {
    ghost use Rattle.mirror_out.specs.FileMirror.{label_of};

    /// Makes a mirror with a label, in a file that is positioned where the first piece goes.
    pub fn new(label: u32, file: File) -> FileMirror
        ensures label { label_of result ≡ label }
        ensures taken { result.tail.history.events ≡ [] }
        ensures calls { result.tail.calls.events ≡ [] }
        ensures handed { result.handed.events ≡ [] }
        ensures faults { result.faults ≡ 0 }
    {
        FileMirror {
            label,
            tail: NotedTail::new(Some(file)),
            faults: 0,
            handed: Record::new(),
        }
    }

    /// Makes a mirror with a label, for a file that could not be opened. Each put fails.
    pub fn lost(label: u32) -> FileMirror
        ensures label { label_of result ≡ label }
        ensures taken { result.tail.history.events ≡ [] }
        ensures calls { result.tail.calls.events ≡ [] }
        ensures handed { result.handed.events ≡ [] }
        ensures faults { result.faults ≡ 0 }
    {
        FileMirror {
            label,
            tail: NotedTail::new(None),
            faults: 0,
            handed: Record::new(),
        }
    }

    /// Makes the octets that it has taken durable, by one call that is noted among those of the names. A device that
    /// cannot sync counts as synced.
    pub fn sync<R: Files<File = File> + Drop>(&self, names: &mut NotedNames<R>) -> io::Result<()>
        ensures once { SyncsOnce result names.old.calls.events names.new.calls.events }
        ensures answers { names.new.answers.events ≡ names.old.answers.events }
    {
        excused(self.tail.sync(names))
    }
}

// Returns the result of a sync. It is not an error if a device cannot be synced.
fn excused(answer: io::Result<()>) -> io::Result<()>
    ensures failed { IfErr answer (λ e. error_kind e ≢ ErrorKind.InvalidInput → result ≡ answer) }
    ensures synced { OnOk answer (IsOk result) }
    ensures unsynced { OnErr result (IsErr answer) }
{
    match answer {
        Err(e) if e.kind() == ErrorKind::InvalidInput => Ok(()),
        answer => answer,
    }
}

impl Mirror for FileMirror {
    ghost use Rattle.std.specs.Io.KnownBytes.{Appends};
    ghost use Rattle.outside.specs.Called.{Refuses};
    ghost use Rattle.road_io.specs.Causes.{HasCause};
    ghost use Rattle.road_io.specs.Noted.{noted};
    ghost use Rattle.mirror_out.specs.Mirrors.{PromisedLess};

    ghost octets = { λ m. Some (noted m.tail.history.events) };

    ghost named = { λ m. m.label };

    ghost faults = { λ m. m.faults };

    ghost handed = { λ m. length m.handed.events };

    ghost puts = { λ _. 0 };

    ghost room = { λ _. 0 };

    fn label(&self) -> u32 {
        self.label
    }

    fn put(&mut self, piece: &[u8]) -> Result<(), Failed>
        ensures ok { OnOk result (Appends (Some (noted self.old.tail.history.events))
            (Some (noted self.new.tail.history.events)) piece.now) }
        ensures label { self.new.label ≡ self.old.label }
        ensures err { OnErr result (PromisedLess 1 piece.now 0 0) }
        ensures left { OnErr result (Some (noted self.new.tail.history.events) ≡
            Some (noted self.old.tail.history.events)) }
        ensures kept { OnOk result (self.new.faults ≡ self.old.faults) }
        ensures cause { HasCause self.old.faults self.new.faults result }
        ensures counted { length self.new.handed.events ≡ length self.old.handed.events + 1 }
        ensures asked { Adds 0 piece.now self.old.tail.calls.events self.new.tail.calls.events }
        ensures refused { OnErr result
            (Refuses self.old.tail.calls.events self.new.tail.calls.events) }
    {
        self.handed.note(&[], piece);
        match self.tail.append(piece) {
            Ok(()) => Ok(()),
            Err(_) => {
                self.faults = self.faults.saturating_add(1);
                Err(Failed)
            }
        }
    }
}
