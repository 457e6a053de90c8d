//! The judge of HYP.

ghost use Rattle.std.specs.Prelude.{◌≡◌, ◌≤◌, ℕ, length};
ghost use Rattle.road_map.specs.Least.{lesser};
ghost use Rattle.road_search.specs.Labelling.{length_at};
ghost use Rattle.road_search.specs.Passing.{IsLeastPassing};
ghost use Rattle.proof_judge.specs.ItemWalks.{item_at, inner_ways};
ghost use Rattle.proof_judge.specs.Judgement.{HypTests, PairTests};
ghost use Rattle.proof_judge.specs.Apart.{BorderTests, InnerTests};
ghost use Rattle.proof_judge.specs.SharedTests.{UnlessMemory, IsNarrow};
ghost use Rattle.method_judges.specs.Scans.{AreInner};

use crate::hyp_items::Inner;
use crate::scan::{Detours, Joined, scanned};
use book_model::{Items, Numbers, Query};
use proof_judge::{
    Judge, NodesById, PairsById, Refusal, are_narrow, begin, begin_apart, search_all,
};
use road_search::{Labels, search};
use std::alloc::Global;

/// The method that signs the distances of all pairs of border nodes of a grid of cells. The client then searches
/// only the cells of the two ends.
///
/// The tests that all methods share come first. The further tests look for an inner walk to an id without an item,
/// a shorter inner walk to the end, and a shorter walk over two border nodes. If no route is given, any inner walk
/// to the end and any walk over two border nodes fails a test.
pub struct Hyp;

impl Judge for Hyp {
    ghost use Rattle.book_model.specs.Books.{Hyp as ByHyp};

    ghost kind = { ByHyp };

    fn judge(
        alloc: Global,
        _numbers: Numbers,
        items: &Items,
        query: Query,
    ) -> Result<u64, Refusal> {
        let (by_id, length) = begin(alloc, items, query)?;
        tests(alloc, items, &by_id, query, length)
    }

    fn judge_apart(
        alloc: Global,
        _numbers: Numbers,
        items: &Items,
        query: Query,
    ) -> Result<(), Refusal> {
        are_narrow(&items.nodes);
        let by_id = begin_apart(alloc, items, query)?;
        inner_tests(alloc, items, &by_id, query)
    }
}

/// Runs the tests of the pairs of border nodes.
fn pair_tests(
    alloc: Global,
    items: &Items,
    by_id: &NodesById<'_>,
    query: Query,
    near: &Labels,
    far: &Labels,
    length: u64,
) -> Result<u64, Refusal>
    requires same { by_id.now ≡ items.now.nodes }
    requires near { (v : ℕ) → IsLeastPassing
        (inner_ways (item_at items.now.nodes)) query.from length v (length_at near.now v) }
    requires far { (v : ℕ) → IsLeastPassing (inner_ways (item_at items.now.nodes)) query.to length v
        (length_at far.now v) }
    ensures { UnlessMemory (PairTests items.now query length) result }
{
    let pairs = PairsById::new(alloc, items.pairs.as_slice())?;
    let detours = Detours {
        pairs: &pairs,
        most: length,
    };
    let fault = scanned(alloc, &detours, &items.nodes, by_id, near, far)?;
    match fault {
        None => Ok(length),
        Some(refusal) => Err(refusal),
    }
}

/// Returns the lesser of two ids, or the only one given, or `None` if none is given.
fn lesser_of(a: Option<u32>, b: Option<u32>) -> Option<u32>
    ensures { result ≡ lesser a b }
{
    match (a, b) {
        (Some(a), Some(b)) => Some(a.min(b)),
        (Some(a), None) => Some(a),
        (None, b) => b,
    }
}

/// Runs the tests that follow the test of the route. `length` is the length of the route.
fn tests(
    alloc: Global,
    items: &Items,
    by_id: &NodesById<'_>,
    query: Query,
    length: u64,
) -> Result<u64, Refusal>
    requires { by_id.now ≡ items.now.nodes }
    ensures { UnlessMemory (HypTests items.now query length) result }
{
    let inner = Inner { by_id };
    let near = search(alloc, &inner, query.from, length)?;
    let far = search(alloc, &inner, query.to, length)?;
    if let Some(id) = lesser_of(near.missing(), far.missing()) {
        return Err(Refusal::MissingTuple(id));
    }
    if let Some(shorter) = near.get(query.to) {
        return Err(Refusal::Shorter(shorter));
    }
    pair_tests(alloc, items, by_id, query, &near, &far, length)
}

/// Runs the tests of the pairs of border nodes if no route is given.
fn border_tests(
    alloc: Global,
    items: &Items,
    by_id: &NodesById<'_>,
    query: Query,
    near: &Labels,
    far: &Labels,
) -> Result<(), Refusal>
    requires same { by_id.now ≡ items.now.nodes }
    requires near { AreInner items.now.nodes query.from (length_at near.now) }
    requires far { AreInner items.now.nodes query.to (length_at far.now) }
    ensures { UnlessMemory (BorderTests items.now query) result }
{
    let pairs = PairsById::new(alloc, items.pairs.as_slice())?;
    let joined = Joined { pairs: &pairs };
    let fault = scanned(alloc, &joined, &items.nodes, by_id, near, far)?;
    match fault {
        None => Ok(()),
        Some(refusal) => Err(refusal),
    }
}

/// Runs the tests if both ends have an item and no route is given.
fn inner_tests(
    alloc: Global,
    items: &Items,
    by_id: &NodesById<'_>,
    query: Query,
) -> Result<(), Refusal>
    requires same { by_id.now ≡ items.now.nodes }
    requires narrow { IsNarrow (inner_ways (item_at by_id.now)) }
    requires few { length by_id.now ≤ 65536 }
    ensures { UnlessMemory (InnerTests items.now query) result }
{
    let inner = Inner { by_id };
    let near = search_all(alloc, &inner, query.from)?;
    let far = search_all(alloc, &inner, query.to)?;
    if let Some(id) = lesser_of(near.missing(), far.missing()) {
        return Err(Refusal::MissingTuple(id));
    }
    if let Some(length) = near.get(query.to) {
        return Err(Refusal::Shorter(length));
    }
    border_tests(alloc, items, by_id, query, &near, &far)
}
