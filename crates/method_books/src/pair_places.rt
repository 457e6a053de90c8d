//! Indices of pairs among the leaves of all pairs of some ids.

ghost use Rattle.std.specs.Prelude.{◌≡◌, ◌≢◌, ℕ, IsTrue, IfSome, IfNone, slice_get};
ghost use Rattle.road_leaf.specs.declared.pair.PairLeaf.{PairLeaf};
ghost use Rattle.pair_dist.specs.Rising.{PairsRise};
ghost use Rattle.method_books.specs.HypBooks.{StandsAt};

use pair_dist::place_of_pair;
use road_leaf::PairLeaf;

/// Returns the index at which the leaf of two ids should be among the leaves of all pairs of `count` ids, from the
/// indices of the two ids: after the rows of the ids before the lesser one, and in the row of the lesser one. No
/// result depends on this index being right.
pub fn place_in_rows(count: usize, a: usize, b: usize) -> usize {
    let (first, second) = (a.min(b), a.max(b));
    let twice = count
        .saturating_mul(2)
        .saturating_sub(first)
        .saturating_sub(1);
    let rows = first.saturating_mul(twice) / 2;
    rows.saturating_add(second.saturating_sub(first).saturating_sub(1))
}

/// Tests whether the leaf of two ids is at an index.
fn stands_at(pairs: &[PairLeaf], place: usize, a: u32, b: u32) -> bool
    ensures { IsTrue result → StandsAt pairs.now a b place }
{
    match pairs.get(place) {
        None => false,
        Some(pair) => pair.a == a && pair.b == b,
    }
}

/// Returns the index of the leaf of two ids among leaves in ascending order. The lesser id comes first. Tries
/// `guess` first.
pub fn place_from(pairs: &[PairLeaf], guess: usize, a: u32, b: u32) -> Option<usize>
    requires { PairsRise pairs.now }
    ensures found { IfSome result (StandsAt pairs.now a b) }
    ensures none { IfNone result ((place : ℕ) (l : PairLeaf) → slice_get pairs.now place ≡ Some l →
        l.a ≡ a → l.b ≢ b) }
{
    if stands_at(pairs, guess, a, b) {
        Some(guess)
    } else {
        place_of_pair(pairs, a, b)
    }
}
