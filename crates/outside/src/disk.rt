//! A file that is used as a disk.
ghost use Rattle.std.specs.Prelude.{◌≡◌, ◌≤◌, ◌∷◌, [], List, ℕ, length, true, IfOk, IsOk, OnOk, OnErr};
ghost use Rattle.std.specs.Fs.{metadata_len, new_options, with_create_new, with_read, with_write};
ghost use Rattle.std.specs.Option.{unwrap_or};
ghost use Rattle.outside.specs.Called.{Adds, Called, Refuses, creations, looks_first, syncs, was_missing};
ghost use Rattle.outside.specs.Calls.{ReadsAt, WritesAt, noted_sync, noted_write};
ghost use Rattle.outside.specs.Looks.{seen_as};

use crate::folder::sync_folder;
use crate::look::{Look, look_of, note_look};
use crate::names::NotedNames;
use crate::record::Record;
use std::fs::{self, File, Metadata, OpenFile, OpenOptions, Permissions};
use std::io::{self, ErrorKind, Read, Seek, SeekFrom, Write};
use std::os::unix::fs::{OpenOptionsExt, PermissionsExt};
use std::rt::Files;

/// A file that was opened to be used as a disk, and is not locked yet. `NotedDisk::hold` locks it.
#[derive(Drop)]
pub struct Opened(File);

/// A file of the working folder that is used as a disk, and the system's answers to its calls and to looks at it. If
/// there is none, the reason is kept; an absent file is an empty disk.
///
/// Looks are noted as by `NotedNames`, and besides: 2 a look at the file of the handle, 3 that others are denied
/// access to it, through the handle, 5 that another file is used from now on.
#[derive(Drop)]
pub struct NotedDisk<R: Files<File = File> + Drop> {
    file: io::Result<File>,
    history: Record,
    names: NotedNames<R>,
}

impl<R: Files<File = File> + Drop> NotedDisk<R> {
    /// Makes a disk whose file has not been opened.
    pub fn new(rt: R) -> NotedDisk<R>
        ensures history { result.history.events ≡ [] }
        ensures answers { result.names.answers.events ≡ [] }
        ensures calls { result.names.calls.events ≡ [] }
    {
        NotedDisk {
            file: Err(io::Error::from(ErrorKind::NotConnected)),
            history: Record::new(),
            names: NotedNames::new(rt),
        }
    }

    // ---- opening

    /// Opens the existing file with a name for reading and writing, as it is. If that fails, the reason is kept.
    pub fn open(&mut self, name: &str) -> io::Result<Opened>
        ensures history { self.new.history.events ≡ self.old.history.events }
        ensures answers { self.new.names.answers.events ≡ self.old.names.answers.events }
        ensures called { Called 4 name.now result self.old.names.calls.events
            self.new.names.calls.events }
    {
        self.opened(4, &as_it_is(false), name)
    }

    /// Creates a file with a name that only its owner may read and write. If that fails, the reason is kept.
    pub fn create(&mut self, name: &str) -> io::Result<Opened>
        ensures history { self.new.history.events ≡ self.old.history.events }
        ensures answers { self.new.names.answers.events ≡ self.old.names.answers.events }
        ensures called { Called 5 name.now result self.old.names.calls.events
            self.new.names.calls.events }
    {
        let mut how = as_it_is(true);
        self.opened(5, how.mode(0o600), name)
    }

    /// Opens the file with a name, and notes the call under a code. If that fails, the reason is kept.
    fn opened(&mut self, code: u64, how: &OpenOptions, name: &str) -> io::Result<Opened>
        ensures history { self.new.history.events ≡ self.old.history.events }
        ensures answers { self.new.names.answers.events ≡ self.old.names.answers.events }
        ensures called { Called code name.now result self.old.names.calls.events
            self.new.names.calls.events }
    {
        match self
            .names
            .calls
            .call(code, name.as_bytes(), how.open(&self.names.rt, name))
        {
            Ok(file) => Ok(Opened(file)),
            Err(e) => {
                self.file = Err(e);
                Err(e)
            }
        }
    }

    /// Locks an opened file against all others, makes its name durable, and uses it from now on.
    pub fn hold(&mut self, opened: Opened) -> io::Result<()>
        ensures history { self.new.history.events ≡ self.old.history.events }
        ensures noted { OnOk result
            (self.new.names.answers.events ≡ (5 ∷ [], []) ∷ self.old.names.answers.events) }
        ensures kept { OnErr result
            (self.new.names.answers.events ≡ self.old.names.answers.events) }
        ensures called { OnOk result (self.new.names.calls.events ≡
            (0 ∷ 7 ∷ [], []) ∷ (0 ∷ 6 ∷ [], []) ∷ self.old.names.calls.events) }
        ensures refused { OnErr result
            (Refuses self.old.names.calls.events self.new.names.calls.events) }
        ensures more { length self.old.names.calls.events ≤ length self.new.names.calls.events }
        ensures first { looks_first self.old.names.calls.events ≡ true →
            looks_first self.new.names.calls.events ≡ true }
        ensures missing { (absent : List ℕ) → was_missing absent self.old.names.calls.events ≡ true →
            was_missing absent self.new.names.calls.events ≡ true }
        ensures syncs { syncs self.new.names.calls.events ≡ syncs self.old.names.calls.events }
        ensures creations { creations self.new.names.calls.events ≡
            creations self.old.names.calls.events }
    {
        self.names
            .calls
            .call(6, b"", opened.0.try_lock().map_err(io::Error::from))?;
        self.names.calls.call(7, b"", sync_folder(&self.names.rt))?;
        self.take(opened.0)
    }

    /// Opens the existing file with a name for reading, locks it against all who write, and uses it from now on.
    pub fn open_to_read(&mut self, name: &str) -> io::Result<()>
        ensures history { self.new.history.events ≡ self.old.history.events }
        ensures noted { OnOk result
            (self.new.names.answers.events ≡ (5 ∷ [], []) ∷ self.old.names.answers.events) }
        ensures kept { OnErr result
            (self.new.names.answers.events ≡ self.old.names.answers.events) }
        ensures called { OnOk result (self.new.names.calls.events ≡
            (0 ∷ 9 ∷ [], []) ∷ (0 ∷ 8 ∷ [], name.now) ∷ self.old.names.calls.events) }
        ensures refused { OnErr result
            (Refuses self.old.names.calls.events self.new.names.calls.events) }
        ensures more { length self.old.names.calls.events ≤ length self.new.names.calls.events }
        ensures first { looks_first self.old.names.calls.events ≡ true →
            looks_first self.new.names.calls.events ≡ true }
        ensures missing { (absent : List ℕ) → was_missing absent self.old.names.calls.events ≡ true →
            was_missing absent self.new.names.calls.events ≡ true }
        ensures syncs { syncs self.new.names.calls.events ≡ syncs self.old.names.calls.events }
        ensures creations { creations self.new.names.calls.events ≡
            creations self.old.names.calls.events }
    {
        let file = self
            .names
            .calls
            .call(8, name.as_bytes(), fs::open(&self.names.rt, name))?;
        self.names
            .calls
            .call(9, b"", file.try_lock_shared().map_err(io::Error::from))?;
        self.take(file)
    }

    /// Uses a file from now on, and notes that looks at an earlier one tell nothing of it.
    fn take(&mut self, file: File) -> io::Result<()>
        ensures done { IsOk result }
        ensures history { self.new.history.events ≡ self.old.history.events }
        ensures noted { self.new.names.answers.events ≡
            (5 ∷ [], []) ∷ self.old.names.answers.events }
        ensures calls { self.new.names.calls.events ≡ self.old.names.calls.events }
    {
        self.names.answers.note(&[5], &[]);
        self.file = Ok(file);
        Ok(())
    }

    /// Closes the file.
    pub fn close(&mut self)
        ensures history { self.new.history.events ≡ self.old.history.events }
        ensures answers { self.new.names.answers.events ≡ self.old.names.answers.events }
        ensures calls { self.new.names.calls.events ≡ self.old.names.calls.events }
    {
        self.file = Err(io::Error::from(ErrorKind::NotConnected));
    }

    // ---- the disk's calls

    /// Returns the length of the file in octets, and notes it.
    pub fn len(&mut self) -> io::Result<u64>
        ensures noted { IfOk result (λ n.
            self.new.history.events ≡ (0 ∷ n ∷ [], []) ∷ self.old.history.events) }
        ensures kept { OnErr result (self.new.history.events ≡ self.old.history.events) }
        ensures answers { self.new.names.answers.events ≡ self.old.names.answers.events }
        ensures called { Adds 10 [] self.old.names.calls.events self.new.names.calls.events }
        ensures failed { OnErr result
            (Refuses self.old.names.calls.events self.new.names.calls.events) }
    {
        let count = match self.names.calls.call(10, b"", metadata_of(&self.file)) {
            Ok(file) => length_in(&file),
            Err(e) => empty(e)?,
        };
        self.history.note(&[0, count], &[]);
        Ok(count)
    }

    /// Fills the buffer with the octets from an offset on, as far as the file has any, and notes them.
    pub fn read_at(&mut self, at: u64, into: &mut [u8]) -> io::Result<()>
        ensures noted { OnOk result
            (self.new.history.events ≡ (1 ∷ at ∷ [], into.new) ∷ self.old.history.events) }
        ensures kept { OnErr result (self.new.history.events ≡ self.old.history.events) }
        ensures answers { self.new.names.answers.events ≡ self.old.names.answers.events }
        ensures called { Called 11 [] result self.old.names.calls.events
            self.new.names.calls.events }
    {
        let answer = match &mut self.file {
            Ok(file) => read_at(file, at, into),
            Err(_) => read_at(&mut io::empty(), at, into),
        };
        self.names.calls.call(11, b"", answer)?;
        self.history.note(&[1, at], into);
        Ok(())
    }

    /// Writes all octets from an offset on, if the file is at least that long. Notes the write or its failure.
    pub fn write_at(&mut self, at: u64, octets: &[u8]) -> io::Result<()>
        ensures noted { self.new.history.events ≡
            noted_write result at octets.now ∷ self.old.history.events }
        ensures answers { self.new.names.answers.events ≡ self.old.names.answers.events }
        ensures called { Called 12 octets.now result self.old.names.calls.events
            self.new.names.calls.events }
    {
        let answer = match &mut self.file {
            Ok(file) => write_at(file, at, octets),
            Err(e) => Err(*e),
        };
        self.history
            .note(&[if answer.is_ok() { 2 } else { 3 }, at], octets);
        self.names.calls.call(12, octets, answer)
    }

    /// Notes a write as failed that is not made.
    pub fn refuse(&mut self, at: u64, octets: &[u8])
        ensures noted { self.new.history.events ≡
            (3 ∷ at ∷ [], octets.now) ∷ self.old.history.events }
        ensures answers { self.new.names.answers.events ≡ self.old.names.answers.events }
        ensures calls { self.new.names.calls.events ≡ self.old.names.calls.events }
    {
        self.history.note(&[3, at], octets);
    }

    /// Makes the writes durable. Notes the sync or its failure.
    pub fn sync(&mut self) -> io::Result<()>
        ensures noted { self.new.history.events ≡
            noted_sync result ∷ self.old.history.events }
        ensures answers { self.new.names.answers.events ≡ self.old.names.answers.events }
        ensures called { Called 13 [] result self.old.names.calls.events
            self.new.names.calls.events }
    {
        let answer = match &self.file {
            Ok(file) => file.sync_all(),
            Err(e) => empty(*e).and(Ok(())),
        };
        self.history
            .note(&[if answer.is_ok() { 4 } else { 5 }], &[]);
        self.names.calls.call(13, b"", answer)
    }

    // ---- looks

    /// Returns the user of this process, if the system reports the user. Notes the user, or 0.
    pub fn user(&mut self) -> Option<u64>
        ensures noted { self.new.names.answers.events ≡
            (0 ∷ unwrap_or result 0 ∷ [], []) ∷ self.old.names.answers.events }
        ensures history { self.new.history.events ≡ self.old.history.events }
        ensures called { Adds 2 [] self.old.names.calls.events self.new.names.calls.events }
    {
        self.names.user()
    }

    /// Looks at the file of a name without following a link, and notes the look.
    pub fn look_at_link(&mut self, name: &str) -> io::Result<Look>
        ensures noted { IfOk result (λ look. self.new.names.answers.events ≡
            (seen_as 1 look, name.now) ∷ self.old.names.answers.events) }
        ensures kept { OnErr result
            (self.new.names.answers.events ≡ self.old.names.answers.events) }
        ensures history { self.new.history.events ≡ self.old.history.events }
        ensures called { Called 0 name.now result self.old.names.calls.events
            self.new.names.calls.events }
    {
        self.names.look_at_link(name)
    }

    /// Looks at the open file through its handle, and notes the look.
    pub fn look_at_file(&mut self) -> io::Result<Look>
        ensures noted { IfOk result (λ look. self.new.names.answers.events ≡
            (seen_as 2 look, []) ∷ self.old.names.answers.events) }
        ensures kept { OnErr result
            (self.new.names.answers.events ≡ self.old.names.answers.events) }
        ensures history { self.new.history.events ≡ self.old.history.events }
        ensures called { Called 14 [] result self.old.names.calls.events
            self.new.names.calls.events }
    {
        let look = look_of(&self.names.calls.call(14, b"", metadata_of(&self.file))?);
        note_look(&mut self.names.answers, 2, look, &[]);
        Ok(look)
    }

    /// Denies others access to the open file through its handle, and notes it.
    pub fn shut(&mut self) -> io::Result<()>
        ensures noted { self.new.names.answers.events ≡
            (3 ∷ [], []) ∷ self.old.names.answers.events }
        ensures history { self.new.history.events ≡ self.old.history.events }
        ensures called { Called 15 [] result self.old.names.calls.events
            self.new.names.calls.events }
    {
        self.names.answers.note(&[3], &[]);
        self.names.calls.call(15, b"", closed(&self.file))
    }
}

/// Returns how a file is opened for reading and writing, a new one or an existing one: that one is not cut.
fn as_it_is(new: bool) -> OpenOptions
    ensures { result ≡ with_create_new (with_write (with_read new_options true) true) new }
{
    let mut how = OpenOptions::new();
    how.read(true).write(true).create_new(new);
    how
}

/// Returns the open file, or the reason why there is none.
fn held(file: &io::Result<File>) -> io::Result<&File> {
    match file {
        Ok(file) => Ok(file),
        Err(e) => Err(*e),
    }
}

/// Looks at the open file.
fn metadata_of(file: &io::Result<File>) -> io::Result<Metadata> {
    held(file)?.metadata()
}

/// Denies others access to the open file.
fn closed(file: &io::Result<File>) -> io::Result<()> {
    held(file)?.set_permissions(Permissions::from_mode(0o600))
}

/// Returns the length of a file in octets, from its metadata.
fn length_in(file: &Metadata) -> u64
    ensures { result ≡ metadata_len file.now }
{
    file.len()
}

/// Returns 0, the length of an absent file, or another reason why there is no file.
fn empty(why: io::Error) -> io::Result<u64> {
    if why.kind() == ErrorKind::NotFound {
        Ok(0)
    } else {
        Err(why)
    }
}

/// Fills the buffer with the octets from an offset on, as far as the file has any.
fn read_at<F: Read + Seek>(file: &mut F, at: u64, into: &mut [u8]) -> io::Result<()>
    ensures gave { OnOk result
        (ReadsAt F.stream_position F.remaining at into.new file.old file.new) }
{
    file.seek(SeekFrom::Start(at))?;
    file.read_exact(into)
}

/// Writes all octets from an offset on, if the file is at least that long.
fn write_at<F: Write + Seek + OpenFile>(file: &mut F, at: u64, octets: &[u8]) -> io::Result<()>
    ensures took { OnOk result
        (WritesAt F.stream_position F.contents at octets.now file.old file.new) }
{
    if length_in(&file.metadata()?) < at {
        return Err(io::Error::from(ErrorKind::InvalidInput));
    }
    file.seek(SeekFrom::Start(at))?;
    file.write_all(octets)
}
