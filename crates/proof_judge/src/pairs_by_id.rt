//! Pair items by their two ids.

ghost use Rattle.std.specs.Prelude.{◌≡◌, true, IfOk};
ghost use Rattle.proof_judge.specs.Judgement.{pair_at};
ghost use Rattle.proof_judge.specs.ById.{named_in, is_before, AreSorted, IsSortedCopy};

use crate::pairs::names;
use octet_text::{NoMemory, copied, sort_by_key};
use road_leaf::PairLeaf;
use std::alloc::Global;
use std::marker::Model;

/// Pair items sorted by their two ids. Items that are already sorted are borrowed; others are copied and sorted.
#[derive(Drop)]
pub struct PairsById<'a> {
    pairs: &'a [PairLeaf],
    sorted: Option<Vec<PairLeaf>>,
}

impl<'a> Model for PairsById<'a> {
    ghost use Rattle.std.specs.Prelude.{◌≡◌, ℕ, List, None, IfSome};
    ghost use Rattle.road_leaf.specs.declared.pair.PairLeaf.{PairLeaf};
    ghost use Rattle.proof_judge.specs.ById.{AreSorted, IsSortedCopy};

    ghost Value = { List PairLeaf };

    ghost view = { λ s. s.pairs.now };

    ghost invariant = { λ s. (s.sorted ≡ None → AreSorted s.pairs.now) ×
        IfSome s.sorted (λ copy. IsSortedCopy s.pairs.now copy.items) };
}

/// Returns a copy of the items, sorted by their two ids. Items with the same two ids keep their order.
fn sorted_copy(alloc: Global, pairs: &[PairLeaf]) -> Result<Vec<PairLeaf>, NoMemory>
    ensures { IfOk result (λ copy. IsSortedCopy pairs.now copy.items) }
{
    let mut copy = copied(alloc, pairs)?;
    sort_by_key(&mut copy, |pair| (pair.a, pair.b))?;
    Ok(copy)
}

/// Tests whether an item's two ids come before two given ids.
fn precedes(pair: &PairLeaf, a: u32, b: u32) -> bool
    ensures { result ≡ is_before pair.now.a pair.now.b a b }
{
    pair.a < a || (pair.a == a && pair.b < b)
}

/// Tests whether no item's ids come before those of the previous item.
fn are_sorted(pairs: &[PairLeaf]) -> bool
    ensures { result ≡ true → AreSorted pairs.now }
{
    pairs.is_sorted_by(|pair, next| !precedes(next, pair.a, pair.b))
}

/// Returns the first item that names these two ids, in this order, among sorted items.
fn find_sorted(sorted: &[PairLeaf], a: u32, b: u32) -> Option<PairLeaf>
    requires { AreSorted sorted.now }
    ensures { result ≡ named_in sorted.now a b }
{
    let place = sorted.partition_point(|pair| precedes(pair, a, b));
    match sorted.get(place) {
        None => None,
        Some(pair) => {
            if names(*pair, a, b) {
                Some(*pair)
            } else {
                None
            }
        }
    }
}

impl<'a> PairsById<'a> {
    /// Sorts pair items by their two ids.
    pub fn new(alloc: Global, pairs: &'a [PairLeaf]) -> Result<PairsById<'a>, NoMemory>
        ensures { IfOk result (λ by_id. by_id ≡ pairs.now) }
    {
        if are_sorted(pairs) {
            return Ok(PairsById {
                pairs,
                sorted: None,
            });
        }
        let copy = sorted_copy(alloc, pairs)?;
        Ok(PairsById {
            pairs,
            sorted: Some(copy),
        })
    }

    /// Returns the items, sorted.
    fn sorted(&self) -> &[PairLeaf]
        ensures { IsSortedCopy self.now result.now }
    {
        match &self.sorted {
            None => self.pairs,
            Some(copy) => copy.as_slice(),
        }
    }

    /// Returns the first pair item that names these two ids, in either order.
    pub fn find(&self, b: u32, c: u32) -> Option<PairLeaf>
        ensures { result ≡ pair_at self.now b c }
    {
        find_sorted(self.sorted(), b.min(c), b.max(c))
    }
}
