//! Recognising files by their first octets.

use std::fmt::{self, Display, Formatter};

/// A kind of file that can be recognised.
#[derive(Clone, Copy, Debug, PartialEq, Eq)]
pub enum Look {
    Empty,
    Gzip,
    ByteOrderMark,
    RoadFile,
    Publication,
    Reply,
    NearReply,
    Chain,
}

/// Returns the kind of file that octets look like, if this is a known kind.
pub fn look_of(text: &[u8]) -> Option<Look> {
    match text {
        [] => Some(Look::Empty),
        [0x1f, 0x8b, ..] => Some(Look::Gzip),
        [0xef, 0xbb, 0xbf, ..] | [0xff, 0xfe, ..] | [0xfe, 0xff, ..] => Some(Look::ByteOrderMark),
        [b'r', b'o', b'a', b'd', b's', b' ', ..] => Some(Look::RoadFile),
        [b'R', b'P', b'P', b'1', ..] => Some(Look::Publication),
        [0 | 3, b'R', b'P', b'F', b'1', ..] | [1] | [2] => Some(Look::Reply),
        [b'R', b'P', b'N', b'1', ..] => Some(Look::NearReply),
        [b'R', b'P', b'L', b'1', ..] => Some(Look::Chain),
        _ => None,
    }
}

impl Display for Look {
    fn fmt<W: fmt::Write>(&self, f: &mut Formatter<W>) -> fmt::Result {
        f.write_str(match self {
            Look::Empty => "It is empty.",
            Look::Gzip => "It looks like a gzip file, which must be unpacked first.",
            Look::ByteOrderMark => "It begins with a byte order mark, which must be removed.",
            Look::RoadFile => "It looks like a road file.",
            Look::Publication => "It looks like a publication.",
            Look::Reply => "It looks like a reply with a route.",
            Look::NearReply => "It looks like a reply to a range query.",
            Look::Chain => "It looks like a chain file.",
        })
    }
}
