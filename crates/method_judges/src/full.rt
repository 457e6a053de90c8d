//! The judge of FULL.

ghost use Rattle.std.specs.Prelude.{◌≡◌};
ghost use Rattle.proof_judge.specs.Judgement.{full_judged};
ghost use Rattle.proof_judge.specs.Apart.{joined_fault, by_fault};

use book_model::{Items, Numbers, Query};
use proof_judge::{Judge, Refusal, begin, begin_apart, find_pair, joined_fault};
use road_leaf::PairLeaf;
use std::alloc::Global;

/// The method that signs the distance of each pair of nodes and sends the distance of the two ends.
pub struct Full;

impl Judge for Full {
    ghost use Rattle.book_model.specs.Books.{Full as ByFull};

    ghost kind = { ByFull };

    fn judge(
        alloc: Global,
        _numbers: Numbers,
        items: &Items,
        query: Query,
    ) -> Result<u64, Refusal> {
        let (_by_id, length) = begin(alloc, items, query)?;
        tests(items.pairs.as_slice(), query, length)
    }

    fn judge_apart(
        alloc: Global,
        _numbers: Numbers,
        items: &Items,
        query: Query,
    ) -> Result<(), Refusal> {
        let _by_id = begin_apart(alloc, items, query)?;
        pair_tests(items.pairs.as_slice(), query)
    }
}

/// Runs the test that follows the test of the route: the pair of the two ends has the distance `length`, which is
/// the length of the route.
fn tests(pairs: &[PairLeaf], query: Query, length: u64) -> Result<u64, Refusal>
    ensures { result ≡ full_judged pairs.now query length }
{
    if query.from == query.to {
        return if length > 0 {
            Err(Refusal::Shorter(0))
        } else {
            Ok(length)
        };
    }
    let Some(pair) = find_pair(pairs, query.from, query.to) else {
        let (first, second) = (query.from.min(query.to), query.from.max(query.to));
        return Err(Refusal::MissingPair(first, second));
    };
    if pair.distance == length {
        Ok(length)
    } else {
        Err(Refusal::Disagrees(pair.distance))
    }
}

/// Runs the test of the pair of the two ends if no route is given: the pair states that no walk joins them.
fn pair_tests(pairs: &[PairLeaf], query: Query) -> Result<(), Refusal>
    ensures { result ≡ by_fault (joined_fault pairs.now query.from query.to 0) }
{
    let pair = find_pair(pairs, query.from, query.to);
    match joined_fault(pair, query.from, query.to, 0) {
        None => Ok(()),
        Some(refusal) => Err(refusal),
    }
}
