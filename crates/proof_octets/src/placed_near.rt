//! Writing replies for a radius whose leaves are stored as texts in a list.
ghost use Rattle.std.specs.Prelude.{◌≡◌, ◌<◌, ◌^◌, List, length, IfOk, OnOk};
ghost use Rattle.octet_text.specs.Puts.{Puts};
ghost use Rattle.road_leaf.specs.declared.leaf.NodeLeaf.{NodeLeaf};
ghost use Rattle.proof_octets.specs.NearReplies.{near_reply};
ghost use Rattle.proof_octets.specs.PlacedNear.{HasNearLeaves, near_with, placed_near_text, CanWritePlacedNear};

use crate::header::Header;
use crate::item_writing::{put_items_at, texts_length};
use crate::lists::put_digests;
use crate::near_reply::put_near_front;
use book_model::Places;
use merkle_cover::Texts;
use octet_text::{Digests, NoMemory, Octets, with_room};
use std::alloc::Global;

/// A reply that names its leaves by their indices alone. It is written with a list that holds the text of each leaf
/// of the node tree.
#[derive(Debug, Drop)]
pub struct PlacedNear {
    pub header: Header,
    /// The owner's signature of the header's octets.
    pub signature: Octets,
    /// The indices of the leaves in the node tree, ascending.
    pub places: Places,
    pub cover: Digests,
}

// Appends the octets of a reply. After an error, part of them may have been appended.
fn put_placed(out: &mut Vec<u8>, reply: &PlacedNear, texts: &Texts) -> Result<(), NoMemory>
    requires { CanWritePlacedNear reply.now texts.now }
    ensures { OnOk result (Puts out.old.items out.new.items (placed_near_text reply.now texts.now)) }
{
    put_near_front(out, &reply.header, reply.signature.as_slice())?;
    put_items_at(out, reply.places.as_slice(), texts)?;
    put_digests(out, &reply.cover)?;
    Ok(())
}

// Returns the number of octets in the reply.
fn placed_length(reply: &PlacedNear, texts: &Texts) -> usize
    requires can { CanWritePlacedNear reply.now texts.now }
    requires told { (leaves : List NodeLeaf) × HasNearLeaves reply.now texts.now leaves }
    ensures { result ≡ length (placed_near_text reply.now texts.now) }
{
    let front = 4 + 104 + 2 + reply.signature.as_slice().len();
    let nodes = 4 + texts_length(reply.places.as_slice(), texts);
    let cover = 4 + 32 * reply.cover.as_slice().len();
    front + nodes + cover
}

impl PlacedNear {
    /// Encodes the reply. The list `texts` holds the leaf of each index. The reply is written into memory of
    /// exactly its length.
    pub fn write(&self, alloc: Global, texts: &Texts) -> Result<Vec<u8>, NoMemory>
        requires { (leaves : List NodeLeaf) × HasNearLeaves self.now texts.now leaves }
        ensures { (leaves : List NodeLeaf) → HasNearLeaves self.now texts.now leaves →
            IfOk result (λ v. v.items ≡ near_reply.spell (near_with self.now leaves)) }
    {
        let places = self.places.as_slice();
        let most = places.len().saturating_mul(1024);
        let mut out = with_room(alloc, placed_length(self, texts).min(most), places)?;
        put_placed(&mut out, self, texts)?;
        Ok(out)
    }
}
