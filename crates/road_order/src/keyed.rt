//! Ids sorted by keys.
ghost use Rattle.std.specs.Prelude.{◌≡◌, ℕ, List, IfOk, map};
ghost use Rattle.std.specs.declared.cmp.Ordering.TheVariants.{Equal};
ghost use Rattle.book_model.specs.Sorting.{sorted_by};
ghost use Rattle.road_order.specs.Keys.{keyed_cmp};

use octet_text::{NoMemory, collected};
use road_map::Ids;
use std::alloc::Global;

/// Returns the ids by ascending key. Ids with equal keys ascend.
pub fn ids_by_key<K: Ord + Copy>(alloc: Global, mut keyed: Vec<(K, u32)>) -> Result<Ids, NoMemory>
    requires { (x y : K) → K.cmp x y ≡ Equal → x ≡ y }
    ensures { IfOk result (λ ids. ids ≡ map (λ p. p.1) (sorted_by (keyed_cmp K.cmp) keyed.items)) }
{
    keyed.sort_unstable();
    let ids = ids_of(alloc, keyed.as_slice())?;
    Ok(Ids::from_vec(ids))
}

/// Returns the ids without their keys.
fn ids_of<K: Copy>(alloc: Global, keyed: &[(K, u32)]) -> Result<Vec<u32>, NoMemory>
    ensures { IfOk result (λ ids. ids.items ≡ map (λ p. p.1) keyed.now) }
{
    collected(alloc, keyed.iter().map(|entry| entry.1))
}
