//! The roots of the trees over a book's leaves. One leaf is encoded at a time.
ghost use Rattle.std.specs.Prelude.{◌≡◌, ℕ, ◌≤◌, List, [], length, IfOk};
ghost use Rattle.road_map.specs.Maps.{IsMap};
ghost use Rattle.book_model.specs.Books.{leaves_of};
ghost use Rattle.proof_method.specs.Gathering.{IsOrderOf};
ghost use Rattle.merkle_cover.specs.Trees.{root};
ghost use Rattle.merkle_cover.specs.Rising.{Takes};
ghost use Rattle.route_server.specs.Fitting.{FitsFormats};
ghost use Rattle.route_server.specs.Headers.{node_texts, pair_texts, root_or_zeros};

use crate::widths::has_widths;
use merkle_cover::Rising;
use octet_text::{Digest32, Hasher, NoMemory};
use proof_method::MethodBook;
use road_leaf::PairLeaf;
use road_map::map_laws;
use std::alloc::Global;

/// Returns the root of the tree over a book's node leaves, in the given order of ids.
pub fn node_root<H: Hasher, B: MethodBook>(
    alloc: Global,
    book: &B,
    order: &[u32],
    fan: u8,
) -> Result<Digest32, NoMemory>
    requires map { IsMap (B.shown book.now).parts }
    requires order { IsOrderOf (B.shown book.now).parts order.now }
    requires fits { FitsFormats (B.kind book.now) (B.shown book.now) }
    requires fan { 2 ≤ fan }
    requires fan_max { fan ≤ 32 }
    ensures { IfOk result (λ r. r ≡ root H.hash
        (node_texts (leaves_of (B.shown book.now) order.now)) fan) }
{
    map_laws();
    let count = order.len() as u32;
    let mut rising = Rising::<H>::unpushed(alloc, count, fan)?;
    let mut text = Vec::new(alloc);
    for id in order {
        let leaf = book.node_leaf(alloc, *id)?;
        has_widths(&leaf);
        text.clear();
        leaf.write(&mut text)?;
        rising.push(&text);
    }
    Ok(rising.end().root)
}

/// Returns the root of the tree over the leaves of pairs, or zeros if there are none.
pub fn pair_root<H: Hasher>(
    alloc: Global,
    pairs: &[PairLeaf],
    fan: u8,
) -> Result<Digest32, NoMemory>
    requires few { length pairs.now ≤ 2097152 }
    requires fan { 2 ≤ fan }
    requires fan_max { fan ≤ 32 }
    ensures { IfOk result (λ r. r ≡ root_or_zeros H.hash fan (pair_texts pairs.now)) }
{
    if pairs.is_empty() {
        return Ok([0; 32]);
    }
    let count = pairs.len() as u32;
    let mut rising = Rising::<H>::unpushed(alloc, count, fan)?;
    for pair in pairs {
        rising.push(&pair.write());
    }
    Ok(rising.end().root)
}
