//! Facts that no clause can state: the real streams.

use crate::asserts::assert_same;
use road_io::{Sink, Source, StdSink, StdSource, read_whole, write_all};
use std::cell::Cell;
use std::fmt::Display;
use std::io;

/// A runtime that prints one octet at a time, and counts them.
#[derive(Drop)]
struct OneAtATime<'a> {
    printed: &'a Cell<u64>,
}

impl Print for OneAtATime<'_> {
    fn print<D: Display + Drop>(&self, value: D) -> io::Result<()> {
        drop(value);
        Ok(())
    }

    fn println<D: Display + Drop>(&self, value: D) -> io::Result<()> {
        drop(value);
        Ok(())
    }

    fn write_all(&self, _bytes: &[u8]) -> io::Result<()> {
        Ok(())
    }

    fn write_some(&self, bytes: &[u8]) -> io::Result<usize> {
        self.printed.set(self.printed.get().saturating_add(1));
        Ok(bytes.len().min(1))
    }
}

#[test]
fn a_short_write_is_taken_for_what_it_is(rt: HostRuntime) {
    let printed = Cell::new(0);
    let mut sink = StdSink::new(OneAtATime { printed: &printed });
    assert_same(&rt, &sink.write(b"seven!!"), &Ok(1));
    assert_same(&rt, &write_all(&mut sink, b"seven!!"), &Ok(()));
    assert_same(&rt, &printed.get(), &8);
}

#[test]
fn standard_output_takes_octets(rt: HostRuntime) {
    let mut sink = StdSink::new(rt);
    assert_same(&rt, &sink.write(b""), &Ok(0));
    assert_same(
        &rt,
        &write_all(&mut sink, b"standard output takes octets\n"),
        &Ok(()),
    );
}

#[test]
fn standard_input_ends(rt: HostRuntime) {
    let mut source = StdSource::new(&rt);
    assert_same(&rt, &source.read(&mut [0; 0]), &Ok(0));
    assert_same(&rt, &read_whole(&mut source, &mut [0; 4]), &Ok(0));
}
