//! Doubles of the file system: one whose files the script plays, and one that hands out real files.

use crate::double_streams::read_into;
use crate::script::{Answer, Script, unfit};
use std::alloc::{AllocError, Allocator, Global};
use std::fs::{File, Metadata, OpenFile, OpenOptions};
use std::io::{self, Read, Seek, SeekFrom, Write};
use std::rt::Files;

/// What opens the files of a double, and looks at them.
pub(crate) trait Opener {
    type File: Read + Write + Seek + OpenFile + Drop;

    /// Opens the file of a name by an answer.
    fn open(&self, answer: Answer, how: &OpenOptions, name: &str) -> io::Result<Self::File>;

    /// Looks at the file of a name, to which a link may lead.
    fn look(&self, answer: Answer, name: &str) -> io::Result<Metadata>;

    /// Looks at the file of a name, or at the link.
    fn look_at_link(&self, answer: Answer, name: &str) -> io::Result<Metadata>;
}

/// A double of the file system.
#[derive(Clone, Copy)]
pub(crate) struct DoubleFiles<'a, O> {
    pub(crate) script: &'a Script<'a>,
    pub(crate) opener: O,
}

impl<O: Opener> Files for DoubleFiles<'_, O> {
    type File = O::File;

    type Dir = O::File;

    fn open_file(&self, how: &OpenOptions, path: &str) -> io::Result<O::File> {
        let line = opening(self.script.alloc(), how, path)?;
        let answer = self.script.answer("open ", &line)?;
        self.opener.open(answer, how, path)
    }

    fn open_dir(&self, path: &str) -> io::Result<O::File> {
        self.script.keep("open_dir ", path)?;
        Err(unfit())
    }

    fn metadata(&self, path: &str) -> io::Result<Metadata> {
        let answer = self.script.answer("look ", path)?;
        self.opener.look(answer, path)
    }

    fn symlink_metadata(&self, path: &str) -> io::Result<Metadata> {
        let answer = self.script.answer("look_at_link ", path)?;
        self.opener.look_at_link(answer, path)
    }

    fn copy(&self, from: &str, _to: &str) -> io::Result<u64> {
        self.script.keep("copy ", from)?;
        Err(unfit())
    }

    fn rename(&self, from: &str, _to: &str) -> io::Result<()> {
        self.script.keep("rename ", from)
    }

    fn remove_file(&self, path: &str) -> io::Result<()> {
        self.script.keep("remove_file ", path)
    }

    fn create_dir(&self, path: &str) -> io::Result<()> {
        self.script.keep("create_dir ", path)
    }

    fn remove_dir(&self, path: &str) -> io::Result<()> {
        self.script.keep("remove_dir ", path)
    }

    fn remove_dir_all<B: Allocator>(&self, _alloc: B, path: &str) -> io::Result<()> {
        self.script.keep("remove_dir_all ", path)
    }
}

/// Returns a double whose files the script plays.
pub(crate) fn files_played<'a>(script: &'a Script<'a>) -> DoubleFiles<'a, Played<'a>> {
    DoubleFiles {
        script,
        opener: Played { script },
    }
}

/// Returns a double that hands out real files.
pub(crate) fn real<'a, R: Files<File = File>>(
    rt: R,
    script: &'a Script<'a>,
) -> DoubleFiles<'a, OfTheSystem<R>> {
    DoubleFiles {
        script,
        opener: OfTheSystem { rt },
    }
}

/// Returns the line of an opening: the name, each option that was asked for, and the mode of a new file if it is not the
/// usual one.
fn opening(alloc: Global, how: &OpenOptions, name: &str) -> Result<String, AllocError> {
    let mut line = name.to_string(alloc)?;
    for (is_asked, word) in [
        (how.asks_read(), " read"),
        (how.asks_write(), " write"),
        (how.asks_append(), " append"),
        (how.asks_truncate(), " truncate"),
        (how.asks_create(), " create"),
        (how.asks_create_new(), " create_new"),
    ] {
        if is_asked {
            line.push_str(word)?;
        }
    }
    line.push_str(mode_in(&format!(in alloc; "{how:?}")?))?;
    Ok(line)
}

/// Returns the mode of a new file in the text of the options, which shows it as a decimal number.
fn mode_in(options: &str) -> &'static str {
    if options.ends_with(" mode: 438 }") {
        ""
    } else if options.ends_with(" mode: 384 }") {
        " of mode 600"
    } else {
        " of another mode"
    }
}

/// Files that the script plays.
#[derive(Clone, Copy)]
pub(crate) struct Played<'a> {
    pub(crate) script: &'a Script<'a>,
}

impl<'a> Opener for Played<'a> {
    type File = DoubleFile<'a>;

    fn open(&self, answer: Answer, _how: &OpenOptions, _name: &str) -> io::Result<DoubleFile<'a>> {
        match answer {
            Answer::Opens => Ok(DoubleFile {
                script: self.script,
            }),
            _ => Err(unfit()),
        }
    }

    fn look(&self, answer: Answer, _name: &str) -> io::Result<Metadata> {
        match answer {
            Answer::Regular(len) => Ok(Metadata::of_file(len)),
            Answer::Folder => Ok(Metadata::of_dir()),
            Answer::Link(len) => Ok(Metadata::of_symlink(len)),
            _ => Err(unfit()),
        }
    }

    fn look_at_link(&self, answer: Answer, name: &str) -> io::Result<Metadata> {
        self.look(answer, name)
    }
}

/// A file that the script plays. It can be read.
pub(crate) struct DoubleFile<'a> {
    script: &'a Script<'a>,
}

impl Drop for DoubleFile<'_> {
    fn drop(self) {
        let _ = self.script.keep("close", "");
        let DoubleFile { script: _ } = self;
    }
}

impl Read for DoubleFile<'_> {
    fn read(&mut self, buf: &mut [u8]) -> io::Result<usize> {
        read_into(self.script, buf)
    }
}

impl Write for DoubleFile<'_> {
    fn write(&mut self, _buf: &[u8]) -> io::Result<usize> {
        self.script.keep("write", "")?;
        Err(unfit())
    }

    fn flush(&mut self) -> io::Result<()> {
        self.script.keep("flush", "")
    }
}

impl Seek for DoubleFile<'_> {
    fn seek(&mut self, _to: SeekFrom) -> io::Result<u64> {
        self.script.keep("seek", "")?;
        Err(unfit())
    }
}

impl OpenFile for DoubleFile<'_> {
    fn metadata(&self) -> io::Result<Metadata> {
        self.script.keep("look_at_file", "")?;
        Err(unfit())
    }

    fn set_len(&self, _size: u64) -> io::Result<()> {
        self.script.keep("set_len", "")
    }

    fn sync_all(&self) -> io::Result<()> {
        self.script.keep("sync_all", "")
    }

    fn sync_data(&self) -> io::Result<()> {
        self.script.keep("sync_data", "")
    }
}

/// Real files.
#[derive(Clone, Copy)]
pub(crate) struct OfTheSystem<R> {
    pub(crate) rt: R,
}

impl<R: Files<File = File>> Opener for OfTheSystem<R> {
    type File = File;

    fn open(&self, answer: Answer, how: &OpenOptions, name: &str) -> io::Result<File> {
        match answer {
            Answer::Real => how.open(&self.rt, name),
            Answer::RealOf(other) => {
                let mut both = OpenOptions::new();
                both.read(true).write(true);
                both.open(&self.rt, other)
            }
            _ => Err(unfit()),
        }
    }

    fn look(&self, answer: Answer, name: &str) -> io::Result<Metadata> {
        match answer {
            Answer::Real => self.rt.metadata(name),
            _ => Err(unfit()),
        }
    }

    fn look_at_link(&self, answer: Answer, name: &str) -> io::Result<Metadata> {
        match answer {
            Answer::Real => self.rt.symlink_metadata(name),
            _ => Err(unfit()),
        }
    }
}
