//! The text of a node's leaf, and the texts of pair leaves.

ghost use Rattle.std.specs.Prelude.{◌≡◌, ◌+◌, ◌≤◌, ◌<◌, ◌^◌, ◌∷◌, ◌++◌, [], length, map, OnOk, IfOk, All};
ghost use Rattle.std.specs.List.{flat_map};
ghost use Rattle.merkle_cover.specs.Texts.{HasRoom};
ghost use Rattle.road_leaf.specs.Leaves.{node_leaf_text, pair_leaf};

use merkle_cover::Texts;
use octet_text::NoMemory;
use road_leaf::{NodeLeaf, PairLeaf};
use std::alloc::Global;

/// Appends the text of a node's leaf. All leaves are encoded in the same buffer.
pub fn push_leaf(texts: &mut Texts, text: &mut Vec<u8>, leaf: &NodeLeaf) -> Result<(), NoMemory>
    requires arcs { length leaf.now.arcs ≤ 255 }
    requires room { HasRoom texts.old (node_leaf_text leaf.now) }
    ensures { OnOk result (texts.new ≡ texts.old ++ node_leaf_text leaf.now ∷ []) }
{
    text.clear();
    leaf.write(text)?;
    texts.push(text)
}

/// Gives the fact that the numbers of a pair's leaf fit their widths. So the leaf has an encoding if its ids
/// ascend.
#[tactic(auto, unfolding(road_leaf::specs::Leaves::pair_leaf))]
pub fn pair_fits(pair: &PairLeaf)
    ensures { pair.now.a < pair.now.b → pair_leaf.Fits pair.now }
{
    let _a = pair.a;
    let _b = pair.b;
    let _distance = pair.distance;
}

/// Encodes pair leaves. Each leaf whose ids ascend has an encoding.
pub fn pair_texts(alloc: Global, leaves: &[PairLeaf]) -> Result<Texts, NoMemory>
    requires { length leaves.now + length (flat_map pair_leaf.spell leaves.now) < 2 ^ 32 }
    ensures texts { IfOk result (λ t. t ≡ map pair_leaf.spell leaves.now) }
    ensures fit { OnOk result (All (λ p. p.a < p.b → pair_leaf.Fits p) leaves.now) }
{
    let mut texts = Texts::new(alloc);
    for leaf in leaves {
        pair_fits(leaf);
        texts.push(&leaf.write())?;
    }
    Ok(texts)
}
