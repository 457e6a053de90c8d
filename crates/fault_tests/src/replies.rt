//! Every prefix of a reply.

use crate::parties::{ASKED, library_of, play_all};
use client_commands::check;
use command_files::Conclusion;
use mem_io::{MemLibrary, MemSink};
use std::alloc::Global;
use std::process::Abort;
use std::test::Fail;

/// The number of octets in each field of the reply, according to `docs/SPEC.md`: the kind, the header, the
/// signature, the route of three ids, four node items, no pair item, a cover of one digest, and an empty cover.
const FIELDS: [usize; 36] = [
    1, 4, 1, 1, 1, 1, 8, 4, 32, 4, 32, 8, 8, 2, 1292, 4, 4, 4, 4, 4, 4, 2, 31, 4, 2, 31, 4, 2, 31,
    4, 2, 31, 4, 4, 32, 4,
];

/// Asserts that the prefix of the reply with this many octets is refused as malformed at this offset.
fn is_malformed(
    rt: &impl Abort,
    alloc: Global,
    library: &mut MemLibrary,
    reply: &[u8],
    count: usize,
    at: usize,
) -> Result<(), Fail> {
    library.put("cut", reply.get(..count).unwrap_or(&[]))?;
    let mut sink = MemSink::new(alloc, 100, 100, Vec::new(alloc))?;
    let end = check(alloc, library, &mut sink, "key", "cut", ASKED, 0, None);
    assert_eq!(rt; end, Ok(Conclusion::Refused), "at {count}");
    let line = format!(in alloc; "refused Malformed {at}\n")?;
    assert_eq!(rt; sink.taken(), line.as_bytes(), "at {count}");
    Ok(())
}

/// Returns the offset at which the field begins that holds the octet with this number.
fn field_of(octet: usize) -> usize {
    let mut at = 0usize;
    for octets in FIELDS {
        let next = at.saturating_add(octets);
        if octet < next {
            return at;
        }
        at = next;
    }
    at
}

#[test]
fn a_cut_reply_is_malformed_at_the_field_that_is_cut(rt: HostRuntime) -> Result<(), Fail> {
    let alloc = rt.alloc();
    let (made, _disk) = play_all(&rt, alloc)?;
    let mut library = library_of(alloc, &made, Vec::new(alloc))?;
    let reply = made.reply.as_slice();
    assert_eq!(rt; reply.len(), field_of(2000));
    for count in 0..reply.len() {
        is_malformed(&rt, alloc, &mut library, reply, count, field_of(count))?;
    }
    Ok(())
}
