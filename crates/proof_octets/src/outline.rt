//! The part of an answer before its items, and the number of its node items.
ghost use Rattle.std.specs.Prelude.{◌≡◌, ◌<◌, ◌^◌, length, IfOk, IfSome};
ghost use Rattle.octet_text.specs.Format.{Gives, Reads, whole};
ghost use Rattle.proof_octets.specs.Good.{IsGoodHeader};
ghost use Rattle.proof_octets.specs.Outlines.{outline, outlines, outlined};
ghost use Rattle.proof_octets.specs.Replies.{reply, way_of};

use crate::Header;
use crate::header::read_header;
use crate::items::{skim_nodes, skim_pairs};
use crate::lists::{read_signature, read_way, skim_digests};
use octet_text::{Cursor, Malformed, Octets, ReadError};
use std::alloc::Global;

/// The part of an answer before its items, and the number of its node items.
#[derive(Debug, Drop)]
pub struct Outline {
    pub header: Header,
    /// The owner's signature of the header's octets.
    pub signature: Octets,
    /// The number of node items.
    pub nodes: u32,
}

#[tactic(auto, unfolding(crate::specs::Outlines::outline))]
fn read_outline(alloc: Global, cursor: &mut Cursor<'_>, routed: bool) -> Result<Outline, ReadError>
    ensures { Gives (λ o. o) result cursor.new ((outline (way_of routed)).read cursor.old) }
{
    let header = read_header(cursor)?;
    let signature = read_signature(alloc, cursor)?;
    let _route = read_way(alloc, cursor, routed)?;
    let nodes = skim_nodes(alloc, cursor, header.leaf_kind())?;
    let _pairs = skim_pairs(alloc, cursor)?;
    let _node_cover = skim_digests(alloc, cursor)?;
    let _pair_cover = skim_digests(alloc, cursor)?;
    Ok(Outline {
        header,
        signature,
        nodes,
    })
}

#[tactic(auto, unfolding(crate::specs::Outlines::outlines))]
fn read_kind(alloc: Global, cursor: &mut Cursor<'_>) -> Result<Option<Outline>, ReadError>
    ensures { Gives (λ o. o) result cursor.new (outlines.read cursor.old) }
{
    match cursor.u8_in(0, 3)? {
        0 => Ok(Some(read_outline(alloc, cursor, true)?)),
        1 => Ok(None),
        2 => Ok(None),
        _ => Ok(Some(read_outline(alloc, cursor, false)?)),
    }
}

// Reads the outline of the answer that all these octets encode.
fn read_whole(alloc: Global, octets: &[u8]) -> Result<Option<Outline>, ReadError>
    requires { length octets.now < 2 ^ 32 }
    ensures { Reads (λ o. o) result (whole outlines octets.now) }
{
    let mut cursor = Cursor::new(octets);
    let outline = read_kind(alloc, &mut cursor)?;
    if !cursor.is_empty() {
        return Err(ReadError::Malformed(Malformed { at: cursor.at() }));
    }
    Ok(outline)
}

impl Outline {
    /// Reads the outline of the answer that all these octets encode. Returns `None` if they encode a reply without
    /// an answer. Fails with the offset of the first field that cannot be read.
    ///
    /// Reads every item and keeps none, so it takes no more memory than a signature and a route.
    pub fn read(alloc: Global, octets: &[u8]) -> Result<Option<Outline>, ReadError>
        requires { length octets.now < 2 ^ 32 }
        ensures reads { Reads (λ o. o) result (outlined (whole reply octets.now)) }
        ensures good { IfOk result (λ read. IfSome read (λ outline. IsGoodHeader outline.header)) }
    {
        read_whole(alloc, octets)
    }
}
