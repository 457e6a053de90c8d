//! Pair items by their two ids.

ghost use Rattle.std.specs.Prelude.{◌≡◌, ◌==◌, ◌&&◌, List, find};
ghost use Rattle.road_leaf.specs.declared.pair.PairLeaf.{PairLeaf};
ghost use Rattle.proof_judge.specs.Judgement.{pair_at};
ghost use Rattle.proof_judge.specs.Apart.{joined_fault};

use crate::refusal::Refusal;
use road_leaf::PairLeaf;

/// Tests whether a pair item names these two ids, in this order.
pub(crate) fn names(pair: PairLeaf, first: u32, second: u32) -> bool
    ensures { result ≡ ((pair.a == first) && (pair.b == second)) }
{
    pair.a == first && pair.b == second
}

/// Returns the first pair item that names these two ids, in this order.
fn find_named(pairs: &[PairLeaf], first: u32, second: u32) -> Option<PairLeaf>
    ensures { result ≡ find (λ p. (p.a == first) && (p.b == second)) pairs.now }
{
    for pair in pairs {
        if names(*pair, first, second) {
            return Some(*pair);
        }
    }
    None
}

/// Returns the first pair item that names these two ids, in either order.
pub fn find_pair(pairs: &[PairLeaf], b: u32, c: u32) -> Option<PairLeaf>
    ensures { result ≡ pair_at pairs.now b c }
{
    find_named(pairs, b.min(c), b.max(c))
}

/// Returns the fault of two borders `b` and `c`, if they have one: they show a walk between the ends, or no pair
/// item names them. `sum` is the sum of the lengths of the walks that lead to them from the two ends. `pair` is the
/// first item that names the two ids.
pub fn joined_fault(pair: Option<PairLeaf>, b: u32, c: u32, sum: u64) -> Option<Refusal>
    ensures { (pairs : List PairLeaf) → pair ≡ pair_at pairs b c →
        result ≡ joined_fault pairs b c sum }
{
    if b == c {
        return Some(Refusal::Shorter(sum));
    }
    match pair {
        None => Some(Refusal::MissingPair(b.min(c), b.max(c))),
        Some(pair) => {
            if pair.distance == u64::MAX {
                None
            } else {
                Some(Refusal::Disagrees(pair.distance))
            }
        }
    }
}
