//! Doubles of standard output, of standard input and of a reader.
ghost use Rattle.std.specs.Io.{ReadsAtMost};

use crate::script::{Answer, Script, unfit};
use std::alloc::Allocator;
use std::fmt::Display;
use std::io::{self, BufRead, Lines, Read};

/// A double of standard output.
#[derive(Clone, Copy)]
pub(crate) struct DoubleOutput<'a> {
    pub(crate) script: &'a Script<'a>,
}

impl Print for DoubleOutput<'_> {
    fn print<D: Display + Drop>(&self, value: D) -> io::Result<()> {
        drop(value);
        self.script.keep("print", "")
    }

    fn println<D: Display + Drop>(&self, value: D) -> io::Result<()> {
        drop(value);
        self.script.keep("println", "")
    }

    fn write_all(&self, _bytes: &[u8]) -> io::Result<()> {
        self.script.keep("write_all", "")
    }

    fn write_some(&self, bytes: &[u8]) -> io::Result<usize> {
        let text = str::from_utf8(bytes).unwrap_or("no text");
        match self.script.answer("write ", text)? {
            Answer::Takes(count) => Ok(count.min(bytes.len())),
            _ => Err(unfit()),
        }
    }
}

/// A double of standard input.
#[derive(Clone, Copy)]
pub(crate) struct DoubleInput<'a> {
    pub(crate) script: &'a Script<'a>,
}

impl<'a> Input for DoubleInput<'a> {
    type Reader = DoubleReader<'a>;

    fn read_line<A: Allocator + Clone>(&self, _buf: &mut String<A>) -> io::Result<usize> {
        self.script.keep("read_line", "")?;
        Err(unfit())
    }

    fn lines<A: Allocator>(&self, alloc: A) -> Lines<DoubleReader<'a>, A> {
        self.reader().lines(alloc)
    }

    fn reader(&self) -> DoubleReader<'a> {
        let _ = self.script.keep("reader", "");
        DoubleReader {
            script: self.script,
        }
    }
}

/// A double of a reader.
#[derive(Clone, Copy)]
pub(crate) struct DoubleReader<'a> {
    pub(crate) script: &'a Script<'a>,
}

impl Read for DoubleReader<'_> {
    fn read(&mut self, buf: &mut [u8]) -> io::Result<usize> {
        read_into(self.script, buf)
    }
}

impl BufRead for DoubleReader<'_> {
    fn fill_buf(&mut self) -> io::Result<&[u8]> {
        Err(unfit())
    }

    fn consume(&mut self, _amount: usize) {}
}

/// Reads what the script gives, as far as there is room.
pub(crate) fn read_into(script: &Script<'_>, buf: &mut [u8]) -> io::Result<usize>
    ensures { ReadsAtMost result buf.new }
{
    let room = buf.len();
    let given = room.to_string(script.alloc())?;
    match script.answer("read ", &given)? {
        Answer::Gives(text) => {
            let octets = text.as_bytes();
            let count = octets.len().min(room);
            buf[..count].copy_from_slice(&octets[..count]);
            Ok(count)
        }
        _ => Err(unfit()),
    }
}
