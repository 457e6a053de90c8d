//! The positions of an answer's leaf texts in the octets that encode it.

ghost use Rattle.std.specs.Prelude.{◌≡◌, ◌+◌, ◌<◌, ◌^◌, [], ◌∷◌, ◌++◌, length, map, IfOk, OnOk};
ghost use Rattle.road_leaf.specs.Leaves.{node_leaf_text, pair_leaf};
ghost use Rattle.merkle_cover.specs.Cuts.{cut_from, AreIn};
ghost use Rattle.proof_octets.specs.Good.{IsGood};
ghost use Rattle.proof_octets.specs.Replies.{reply_of, reply_text};
ghost use Rattle.route_client.specs.Cutting.{cuts_at, end_at, nodes_at};

use crate::leaf_lengths::text_length;
use merkle_cover::Cut;
use octet_text::{NoMemory, push};
use proof_octets::Answer;
use road_leaf::{NodeLeaves, PairLeaf};
use std::alloc::Global;

/// The positions of an answer's leaf texts in the octets that encode it.
#[derive(Drop)]
pub struct LeafCuts {
    pub nodes: Vec<Cut>,
    pub pairs: Vec<Cut>,
}

// Adds the position of a text, and returns the offset at which the text ends.
fn push_cut(cuts: &mut Vec<Cut>, start: u32, length: u32) -> Result<u32, NoMemory>
    requires { start + length < 2 ^ 32 }
    ensures end { IfOk result (λ end. end ≡ start + length) }
    ensures cut { OnOk result (cuts.new.items ≡ cuts.old.items ++
        record { start = start; end = start + length } ∷ []) }
{
    let end = start + length;
    push(cuts, Cut { start, end })?;
    Ok(end)
}

/// Adds the positions of node items, which follow one another from an offset on. Returns the offset at which they
/// end. Each text follows its index in the tree and its length.
pub fn push_nodes(cuts: &mut Vec<Cut>, at: u32, leaves: &NodeLeaves) -> Result<u32, NoMemory>
    requires { end_at 6 at (map node_leaf_text leaves.now) < 2 ^ 32 }
    ensures cuts { OnOk result (cuts.new.items ≡ cuts.old.items ++ cuts_at 6 at
        (map node_leaf_text leaves.now)) }
    ensures end { IfOk result (λ end. end ≡ end_at 6 at (map node_leaf_text leaves.now)) }
{
    let mut next = at;
    for index in 0..leaves.len() {
        let leaf = leaves.at(index);
        next = push_cut(cuts, next + 6, text_length(&leaf))?;
    }
    Ok(next)
}

// Adds the positions of pair items in the same way. Each text follows its index in the tree.
fn push_pairs(cuts: &mut Vec<Cut>, at: u32, leaves: &[PairLeaf]) -> Result<u32, NoMemory>
    requires { end_at 4 at (map pair_leaf.spell leaves.now) < 2 ^ 32 }
    ensures cuts { OnOk result (cuts.new.items ≡ cuts.old.items ++ cuts_at 4 at
        (map pair_leaf.spell leaves.now)) }
    ensures end { IfOk result (λ end. end ≡ end_at 4 at (map pair_leaf.spell leaves.now)) }
{
    let mut next = at;
    for _ in 0..leaves.len() {
        next = push_cut(cuts, next + 4, 17)?;
    }
    Ok(next)
}

// Returns the offset of the first node item. It follows the kind of the reply, the header, the signature, the route
// (if the answer has one), and the number of items.
fn nodes_at(answer: &Answer) -> u32
    requires { IsGood answer.now }
    ensures { result ≡ nodes_at answer.now }
{
    let signature = answer.signature.as_slice().len() as u32;
    let route = answer.items.route.as_slice();
    if route.is_empty() {
        return 111 + signature;
    }
    115 + signature + 4 * route.len() as u32
}

/// Returns the position of each leaf's text in the octets that encode an answer.
pub fn leaf_cuts(alloc: Global, octets: &[u8], answer: &Answer) -> Result<LeafCuts, NoMemory>
    requires good { IsGood answer.now }
    requires spelled { octets.now ≡ reply_text (reply_of answer.now) }
    requires short { length octets.now < 2 ^ 32 }
    ensures nodes_in { IfOk result (λ cuts. AreIn octets.now cuts.nodes.items) }
    ensures pairs_in { IfOk result (λ cuts. AreIn octets.now cuts.pairs.items) }
    ensures nodes { IfOk result (λ cuts.
        map (cut_from octets.now) cuts.nodes.items ≡ map node_leaf_text answer.now.items.nodes) }
    ensures pairs { IfOk result (λ cuts.
        map (cut_from octets.now) cuts.pairs.items ≡ map pair_leaf.spell answer.now.items.pairs) }
{
    let mut nodes = Vec::new(alloc);
    let end = push_nodes(&mut nodes, nodes_at(answer), &answer.items.nodes)?;
    let mut pairs = Vec::new(alloc);
    push_pairs(&mut pairs, end + 4, answer.items.pairs.as_slice())?;
    Ok(LeafCuts { nodes, pairs })
}
