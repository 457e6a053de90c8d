//! Code shared by all judgements without a route: items by id with an item for each end, and a search over all
//! walks.

ghost use Rattle.std.specs.Prelude.{◌≡◌, ◌*◌, ◌≤◌, ℕ, None, Some, IfOk, OnOk, IfErr, IsSome};
ghost use Rattle.road_map.specs.Least.{IsLeast};
ghost use Rattle.road_search.specs.Labelling.{length_at};
ghost use Rattle.proof_judge.specs.ItemWalks.{StandsTwice};
ghost use Rattle.proof_judge.specs.Apart.{Leads, WalkTests, end_lacking};
ghost use Rattle.proof_judge.specs.SharedTests.{UnlessMemory, RefusesApart, HasAtMost, IsNarrow};

use crate::nodes_by_id::NodesById;
use crate::refusal::Refusal;
use book_model::{Items, Query};
use octet_text::NoMemory;
use road_search::{Ground, Labels, search};
use std::alloc::Global;

/// Returns the first of the two ends for which there is no item, if any.
fn end_lacking(by_id: &NodesById<'_>, query: Query) -> Option<u32>
    ensures { result ≡ end_lacking by_id.now query }
{
    if by_id.find(query.from).is_none() {
        return Some(query.from);
    }
    if by_id.find(query.to).is_none() {
        return Some(query.to);
    }
    None
}

/// Runs the tests that all methods share if no route is given: that no id is repeated, and that both ends have an
/// item. Returns the items by id.
pub fn begin_apart(alloc: Global, items: &Items, query: Query) -> Result<NodesById<'_>, Refusal>
    ensures nodes { IfOk result (λ by_id. by_id ≡ items.now.nodes) }
    ensures distinct { OnOk result (IsLeast (StandsTwice items.now.nodes) None) }
    ensures ends { OnOk result (end_lacking items.now.nodes query ≡ None) }
    ensures refused { IfErr result (RefusesApart items.now query) }
{
    let by_id = NodesById::new(alloc, &items.nodes)?;
    match end_lacking(&by_id, query) {
        None => Ok(by_id),
        Some(id) => Err(Refusal::MissingTuple(id)),
    }
}

/// Returns, for each id, the least length of a passing walk to it, however long the walk is. If there are few
/// enough ids with an entry and arcs are short enough, the least lengths fit in 64 bits.
pub fn search_all<G: Ground>(alloc: Global, ground: &G, from: u32) -> Result<Labels, NoMemory>
    requires { IsNarrow (G.ways ground.now) }
    ensures lengths { IfOk result (λ found. (v : ℕ) →
        IsLeast (Leads (G.ways ground.now) from v) (length_at found v)) }
    ensures missing { IfOk result (λ found.
        IsLeast (λ v. IsSome (length_at found v) × ((G.ways ground.now).arcs v ≡ None))
        found.missing) }
    ensures low { IfOk result (λ found. (most : ℕ) → HasAtMost most (G.ways ground.now) →
        (v d : ℕ) → length_at found v ≡ Some d → d ≤ most * 4294967295) }
{
    let labels = search(alloc, ground, from, u64::MAX)?;
    Ok(labels)
}

/// Succeeds if no walk from the start ends at an id without an entry and no walk from it ends at the end of the
/// query.
pub fn walk_tests<G: Ground>(alloc: Global, ground: &G, query: Query) -> Result<(), Refusal>
    requires { IsNarrow (G.ways ground.now) }
    ensures { UnlessMemory (WalkTests (G.ways ground.now) query) result }
{
    let labels = search_all(alloc, ground, query.from)?;
    if let Some(id) = labels.missing() {
        return Err(Refusal::MissingTuple(id));
    }
    match labels.get(query.to) {
        None => Ok(()),
        Some(length) => Err(Refusal::Shorter(length)),
    }
}
