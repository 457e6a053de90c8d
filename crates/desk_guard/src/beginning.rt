//! The status of a process that runs no command.
ghost use Rattle.std.specs.Prelude.{◌≡◌};
ghost use Rattle.desk_guard.specs.Beginning.{answer_by, answer_exit, unbegun_exit, unbegun_by};

use octet_text::NoMemory;
use std::io::{self, ErrorKind};

/// Why a run cannot have its arguments.
#[derive(Clone, Copy, Debug, PartialEq, Eq)]
pub enum Unbegun {
    /// Out of memory.
    Memory(NoMemory),
    /// The system has no memory to give the arguments, or there are more than a list holds.
    NotGiven,
    /// An argument is not UTF-8 text.
    NotText,
}

impl Unbegun {
    /// Returns why the system did not give the arguments.
    pub fn of(kind: ErrorKind) -> Unbegun
        ensures { result ≡ unbegun_by kind }
    {
        match kind {
            ErrorKind::OutOfMemory => Unbegun::NotGiven,
            _ => Unbegun::NotText,
        }
    }

    /// Returns the status of the process.
    pub fn status(self) -> u8
        ensures { result ≡ unbegun_exit self }
    {
        match self {
            Unbegun::Memory(_) | Unbegun::NotGiven => 9,
            Unbegun::NotText => 2,
        }
    }
}

/// How the printing of the answer to a question about the program ended.
#[derive(Clone, Copy, Debug)]
pub enum Answer {
    /// It was printed. A reader that closes early has read enough.
    Given,
    /// It was not written whole, for this reason.
    Cut(io::Error),
}

impl Answer {
    /// Returns how the printing ended.
    pub fn of(printed: io::Result<()>) -> Answer
        ensures { result ≡ answer_by printed }
    {
        match printed {
            Ok(()) => Answer::Given,
            Err(e) if e.kind() == ErrorKind::BrokenPipe => Answer::Given,
            Err(e) => Answer::Cut(e),
        }
    }

    /// Returns the status of the process.
    pub fn status(self) -> u8
        ensures { result ≡ answer_exit self }
    {
        match self {
            Answer::Given => 0,
            Answer::Cut(_) => 6,
        }
    }
}
