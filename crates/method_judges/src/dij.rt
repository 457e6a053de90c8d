//! The judge of DIJ.

ghost use Rattle.proof_judge.specs.Judgement.{DijTests};
ghost use Rattle.proof_judge.specs.SharedTests.{UnlessMemory};

use crate::plain_items::Anywhere;
use book_model::{Items, Numbers, Query};
use proof_judge::{Judge, NodesById, Refusal, are_narrow, begin, begin_apart, walk_tests};
use road_search::search;
use std::alloc::Global;

/// The method that sends the leaves of all nodes that are at most as far from the start as the end is. The client
/// repeats the search over them.
pub struct Dij;

impl Judge for Dij {
    ghost use Rattle.book_model.specs.Books.{Dij as ByDij};

    ghost kind = { ByDij };

    fn judge(
        alloc: Global,
        _numbers: Numbers,
        items: &Items,
        query: Query,
    ) -> Result<u64, Refusal> {
        let (by_id, length) = begin(alloc, items, query)?;
        tests(alloc, &by_id, query, length)
    }

    fn judge_apart(
        alloc: Global,
        _numbers: Numbers,
        items: &Items,
        query: Query,
    ) -> Result<(), Refusal> {
        are_narrow(&items.nodes);
        let by_id = begin_apart(alloc, items, query)?;
        walk_tests(alloc, &Anywhere { by_id: &by_id }, query)
    }
}

/// Runs the tests that follow the test of the route. `length` is the length of the route.
fn tests(alloc: Global, by_id: &NodesById<'_>, query: Query, length: u64) -> Result<u64, Refusal>
    ensures { UnlessMemory (DijTests by_id.now query length) result }
{
    let labels = search(alloc, &Anywhere { by_id }, query.from, length)?;
    if let Some(id) = labels.missing() {
        return Err(Refusal::MissingTuple(id));
    }
    match labels.get(query.to) {
        None => Ok(length),
        Some(shorter) => Err(Refusal::Shorter(shorter)),
    }
}
