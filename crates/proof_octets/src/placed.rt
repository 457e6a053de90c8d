//! Writing answers whose node leaves are stored as texts in a list.
ghost use Rattle.std.specs.Prelude.{◌≡◌, ◌+◌, ◌*◌, ◌<◌, ◌≤◌, ◌^◌, List, length, IfOk, OnOk};
ghost use Rattle.octet_text.specs.Puts.{Puts};
ghost use Rattle.road_leaf.specs.declared.leaf.NodeLeaf.{NodeLeaf};
ghost use Rattle.proof_octets.specs.Replies.{reply, reply_of};
ghost use Rattle.proof_octets.specs.Placed.{HasLeaves, with_leaves, placed_answer_text, CanWritePlaced};

use crate::header::Header;
use crate::item_writing::{put_items_at, texts_length};
use crate::lists::way_length;
use crate::reply_writing::{put_back, put_front};
use book_model::{PairLeaves, Places};
use merkle_cover::Texts;
use octet_text::{Digests, NoMemory, Octets, put_u8, with_room};
use road_map::Ids;
use std::alloc::Global;

/// An answer to a query that names its node leaves by their indices alone. It is written with a list that holds the
/// text of each leaf of the node tree.
#[derive(Debug, Drop)]
pub struct PlacedAnswer {
    pub header: Header,
    /// The owner's signature of the header's octets.
    pub signature: Octets,
    /// The route, which is empty if there is none.
    pub route: Ids,
    /// The indices of the node leaves in the node tree, ascending.
    pub node_places: Places,
    /// The indices of the pair leaves in the pair tree, ascending.
    pub pair_places: Places,
    /// The pair leaves at these indices.
    pub pairs: PairLeaves,
    pub node_cover: Digests,
    pub pair_cover: Digests,
}

// Appends the octets of the reply that carries an answer. After an error, part of them may have been appended.
fn put_placed(out: &mut Vec<u8>, answer: &PlacedAnswer, texts: &Texts) -> Result<(), NoMemory>
    requires { CanWritePlaced answer.now texts.now }
    ensures { OnOk result (Puts out.old.items out.new.items
        (placed_answer_text answer.now texts.now)) }
{
    let kind = if answer.route.as_slice().is_empty() {
        3
    } else {
        0
    };
    put_u8(out, kind)?;
    put_front(
        out,
        &answer.header,
        answer.signature.as_slice(),
        &answer.route,
    )?;
    put_items_at(out, answer.node_places.as_slice(), texts)?;
    put_back(
        out,
        &answer.pair_places,
        &answer.pairs,
        &answer.node_cover,
        &answer.pair_cover,
    )?;
    Ok(())
}

// Returns the number of octets in that reply.
fn placed_length(answer: &PlacedAnswer, texts: &Texts) -> usize
    requires can { CanWritePlaced answer.now texts.now }
    requires told { (leaves : List NodeLeaf) × HasLeaves answer.now texts.now leaves }
    ensures { result ≡ length (placed_answer_text answer.now texts.now) }
{
    let front = 104 + 2 + answer.signature.as_slice().len() + way_length(&answer.route);
    let nodes = 4 + texts_length(answer.node_places.as_slice(), texts);
    let pairs = 4 + 21 * answer.pair_places.as_slice().len();
    let node_cover = 4 + 32 * answer.node_cover.as_slice().len();
    let pair_cover = 4 + 32 * answer.pair_cover.as_slice().len();
    1 + front + nodes + pairs + node_cover + pair_cover
}

impl PlacedAnswer {
    /// Encodes the reply that carries the answer. The list `texts` holds the leaf of each index. The reply is
    /// written into memory of exactly its length.
    pub fn write(&self, alloc: Global, texts: &Texts) -> Result<Vec<u8>, NoMemory>
        requires { (leaves : List NodeLeaf) × HasLeaves self.now texts.now leaves }
        ensures { (leaves : List NodeLeaf) → HasLeaves self.now texts.now leaves →
            IfOk result (λ v. v.items ≡ reply.spell (reply_of (with_leaves self.now leaves))) }
    {
        let places = self.node_places.as_slice();
        let most = places.len().saturating_mul(1024);
        let mut out = with_room(alloc, placed_length(self, texts).min(most), places)?;
        put_placed(&mut out, self, texts)?;
        Ok(out)
    }
}
