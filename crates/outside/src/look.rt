//! The result of a look at a file.
ghost use Rattle.std.specs.Prelude.{◌≡◌, ◌∷◌};
ghost use Rattle.outside.specs.Looks.{seen_as};

use crate::record::Record;
use std::fs::Metadata;
use std::os::unix::fs::MetadataExt;

/// The value of `Look::kind` for a regular file.
pub const REGULAR: u64 = 0o10;

/// The value of `Look::kind` for a link.
pub const LINK: u64 = 0o12;

/// The value of `Look::kind` for a block device.
pub const BLOCK: u64 = 0o6;

/// The value of `Look::kind` for a FIFO.
pub const FIFO: u64 = 0o1;

/// The value of `Look::kind` for a socket.
pub const SOCKET: u64 = 0o14;

/// The result of a look at a file.
#[derive(Clone, Copy, Debug)]
pub struct Look {
    /// The kind of the file, the highest four bits of C's `st_mode`: `REGULAR`, `LINK` or another number.
    pub kind: u64,
    /// The owner of the file.
    pub owner: u64,
    /// The number of the file's names.
    pub names: u64,
    /// The mode of the file: the permissions of each group of users.
    pub mode: u64,
    /// The device of the file.
    pub device: u64,
    /// The file's number on the device.
    pub inode: u64,
}

/// Returns the look for an answer of the system.
pub fn look_of(file: &Metadata) -> Look {
    Look {
        kind: u64::from(file.mode()) >> 12,
        owner: u64::from(file.uid()),
        names: file.nlink(),
        mode: u64::from(file.mode()),
        device: file.dev(),
        inode: file.ino(),
    }
}

/// Notes a look under a code.
pub fn note_look(answers: &mut Record, code: u64, look: Look, name: &[u8])
    ensures { answers.new.events ≡ (seen_as code look, name.now) ∷ answers.old.events }
{
    answers.note(
        &[
            code,
            look.kind,
            look.owner,
            look.names,
            look.mode,
            look.device,
            look.inode,
        ],
        name,
    );
}
