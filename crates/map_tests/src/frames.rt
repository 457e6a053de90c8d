//! Frames that are read and written, and frames that are cut short or too long.

use crate::same::assert_same;
use mem_io::{MemSink, MemSource};
use route_service::{FrameError, next_frame, write_frame};
use std::test::Fail;

static FRAMES: [u8; 19] = [0, 0, 0, 2, 7, 8, 0, 0, 0, 0, 0, 0, 0, 4, 0, 0, 0, 3, 9];

#[test]
fn frames_are_read_one_by_one(rt: HostRuntime) -> Result<(), Fail> {
    let octets = FRAMES.to_vec(rt.alloc())?;
    let mut source = MemSource::new(octets, 5, Vec::new(rt.alloc()));
    let mut body = Vec::new(rt.alloc());
    assert_same(&rt, next_frame(&mut source, 3, &mut body), Ok(true));
    assert_same(&rt, body.as_slice(), [7u8, 8].as_slice());
    assert_same(&rt, next_frame(&mut source, 3, &mut body), Ok(true));
    assert_same(&rt, body.len(), 0);
    let long = next_frame(&mut source, 3, &mut body);
    assert_same(&rt, long, Err(FrameError::TooLong));
    let cut = next_frame(&mut source, 3, &mut body);
    assert_same(&rt, cut, Err(FrameError::Truncated));
    assert_same(&rt, next_frame(&mut source, 3, &mut body), Ok(false));
    Ok(())
}

#[test]
fn frames_are_written(rt: HostRuntime) -> Result<(), Fail> {
    let mut sink = MemSink::new(rt.alloc(), 100, 3, Vec::new(rt.alloc()))?;
    assert_same(&rt, write_frame(&mut sink, b"abc"), Ok(()));
    assert_same(&rt, sink.taken(), [0u8, 0, 0, 3, 97, 98, 99].as_slice());
    Ok(())
}
