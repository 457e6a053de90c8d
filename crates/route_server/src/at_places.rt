//! The pair leaves at indices, and the cover of all other leaves.
ghost use Rattle.std.specs.Prelude.{◌≡◌, ℕ, ◌<◌, ◌^◌, IfOk, All, length, slice_get};
ghost use Rattle.std.specs.List.{filter_map};
ghost use Rattle.std.specs.Option.{option_copied};
ghost use Rattle.road_leaf.specs.Leaves.{pair_leaf};
ghost use Rattle.merkle_cover.specs.Covers.{IsRising};
ghost use Rattle.route_server.specs.Keeping.{count_in, cover_in};

use crate::leaf_texts::pair_fits;
use crate::leaf_tree::LeafTree;
use book_model::PairLeaves;
use octet_text::{Digests, Hasher, NoMemory, push};
use road_leaf::PairLeaf;
use std::alloc::Global;

/// Copies the pair leaves at the given indices of their list.
pub fn pairs_at(alloc: Global, pairs: &[PairLeaf], places: &[u32]) -> Result<PairLeaves, NoMemory>
    requires rising { IsRising (length pairs.now) places.now }
    requires ids { All (λ p. p.a < p.b) pairs.now }
    ensures leaves { IfOk result (λ leaves. leaves ≡ filter_map (slice_get pairs.now) places.now) }
    ensures count { IfOk result (λ leaves. length leaves ≡ length places.now) }
    ensures fit { IfOk result (λ leaves. All pair_leaf.Fits leaves) }
{
    let mut leaves = Vec::new(alloc);
    for place in places {
        let pair = pairs[*place as usize];
        pair_fits(&pair);
        push(&mut leaves, pair)?;
    }
    Ok(PairLeaves::from_vec(leaves))
}

/// Returns the cover of indices in a tree. It is empty if there is no tree.
pub fn cover_at<H: Hasher>(
    alloc: Global,
    tree: Option<&LeafTree<H>>,
    places: &[u32],
) -> Result<Digests, NoMemory>
    requires { IsRising (count_in (option_copied tree)) places.now }
    ensures { IfOk result (λ digests.
        digests ≡ cover_in H.hash (option_copied tree.entry) places.now) }
{
    match tree {
        Some(tree) => tree.cover(alloc, places),
        None => Ok(Digests::from_vec(Vec::new(alloc))),
    }
}
