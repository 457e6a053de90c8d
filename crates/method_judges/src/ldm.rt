//! The judge of LDM.

ghost use Rattle.std.specs.Prelude.{◌≡◌, ◌^◌, ◌<◌};
ghost use Rattle.proof_judge.specs.Judgement.{LdmTests};
ghost use Rattle.proof_judge.specs.SharedTests.{UnlessMemory, AreShort};
ghost use Rattle.method_judges.specs.Live.{below};

use crate::ldm_items::ItemLeaves;
use crate::live::live_labels;
use crate::open::Open;
use book_model::{Items, Numbers, Query};
use proof_judge::{
    Judge, NodesById, Refusal, are_narrow, are_short, begin, begin_apart, walk_tests,
};
use std::alloc::Global;

/// The method whose leaves tell how far each node is from some landmarks. With these distances the client repeats a
/// goal-directed search.
pub struct Ldm;

impl Judge for Ldm {
    ghost use Rattle.book_model.specs.Books.{Ldm as ByLdm};

    ghost kind = { ByLdm };

    fn judge(alloc: Global, numbers: Numbers, items: &Items, query: Query) -> Result<u64, Refusal> {
        are_short(&items.nodes);
        let (by_id, length) = begin(alloc, items, query)?;
        tests(alloc, &by_id, numbers.first, query, length)
    }

    fn judge_apart(
        alloc: Global,
        _numbers: Numbers,
        items: &Items,
        query: Query,
    ) -> Result<(), Refusal> {
        are_narrow(&items.nodes);
        let by_id = begin_apart(alloc, items, query)?;
        let leaves = ItemLeaves { by_id: &by_id };
        let open = Open {
            leaves: &leaves,
            to: query.to,
        };
        walk_tests(alloc, &open, query)
    }
}

/// Returns a length if it is given and below a limit.
fn below(found: Option<u64>, limit: u64) -> Option<u64>
    ensures { result ≡ below found limit }
{
    found.filter(|length| *length < limit)
}

/// Runs the tests that follow the test of the route. `length` is the length of the route.
fn tests(
    alloc: Global,
    by_id: &NodesById<'_>,
    step: u64,
    query: Query,
    length: u64,
) -> Result<u64, Refusal>
    requires most { length < 2 ^ 48 }
    requires short { AreShort by_id.now }
    ensures { UnlessMemory (LdmTests step by_id.now query length) result }
{
    let leaves = ItemLeaves { by_id };
    let labels = live_labels(alloc, &leaves, step, query, length)?;
    if let Some(id) = labels.missing() {
        return Err(Refusal::MissingTuple(id));
    }
    match below(labels.get(query.to), length) {
        None => Ok(length),
        Some(shorter) => Err(Refusal::Shorter(shorter)),
    }
}
