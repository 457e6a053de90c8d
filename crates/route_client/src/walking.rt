// Walks over the items of a reply.
ghost use Rattle.std.specs.Prelude.{◌≡◌, ◌⊎◌, ℕ, ◌+◌, ◌≤◌, Some, IsSome, IfOk, All};
ghost use Rattle.road_map.specs.Least.{IsLeast};
ghost use Rattle.road_search.specs.Labelling.{length_at};
ghost use Rattle.road_search.specs.Passing.{IsLeastPassing};
ghost use Rattle.proof_judge.specs.ItemWalks.{item_at, any_ways, Lacks};
ghost use Rattle.proof_judge.specs.SharedTests.{IsNarrow};
ghost use Rattle.proof_octets.specs.Radius.{ListsMarks};
ghost use Rattle.route_client.specs.NearVerdicts.{UnlessMemory, Walked};
ghost use Rattle.route_client.specs.Reached.{IsLimitAbove, AreLeast, RiseWithin, IsLabelled, AreMarked, Reached, Measured};

use crate::NearError;
use method_judges::Anywhere;
use octet_text::{NoMemory, push, room_for};
use proof_judge::{NodesById, Refusal, are_narrow};
use proof_octets::{Mark, Marks, NearQuery};
use road_leaf::NodeLeaves;
use road_search::{Labels, search};
use std::alloc::Global;

// Returns the radius plus one. The greatest radius is returned unchanged, since no least length exceeds it.
fn limit_above(radius: u64) -> u64
    ensures { IsLimitAbove radius result }
{
    radius.saturating_add(1)
}

// Returns the ids with a length of at most `most`, in ascending order.
fn ids_within(alloc: Global, labels: &Labels, most: u64) -> Result<Vec<u32>, NoMemory>
    ensures { IfOk result (λ ids. RiseWithin labels.now most ids.items) }
{
    let mut ids = labels.near(alloc, most)?;
    ids.sort_unstable();
    Ok(ids)
}

// Returns ids with their lengths.
fn marks_of(alloc: Global, labels: &Labels, ids: &[u32]) -> Result<Marks, NoMemory>
    requires { All (λ id. IsSome (length_at labels.now id)) ids.now }
    ensures { IfOk result (AreMarked labels.now ids.now) }
{
    let mut marks = room_for(alloc, ids)?;
    for id in ids {
        match labels.get(*id) {
            Some(distance) => push(&mut marks, Mark { id: *id, distance })?,
            None => unreachable!(),
        }
    }
    Ok(Marks::from_vec(marks))
}

// Returns the ids with a length of at most `most`, in ascending order, each with its length.
pub(crate) fn marks_within(alloc: Global, labels: &Labels, most: u64) -> Result<Marks, NoMemory>
    ensures { IfOk result (ListsMarks (IsLabelled labels.now most)) }
{
    let ids = ids_within(alloc, labels, most)?;
    let marks = marks_of(alloc, labels, &ids)?;
    Ok(marks)
}

// Returns the least lengths of walks that are no longer than the radius.
fn reach(alloc: Global, by_id: &NodesById<'_>, query: NearQuery) -> Result<Labels, NoMemory>
    requires { IsNarrow (any_ways (item_at by_id.now)) }
    ensures least { IfOk result (λ found.
        AreLeast (any_ways (item_at by_id.now)) query.from (query.radius + 1) found) }
    ensures missing { IfOk result (λ found.
        IsLeast (Lacks (any_ways (item_at by_id.now)) query.from (query.radius + 1))
        found.missing) }
{
    let limit = limit_above(query.radius);
    let labels = search(alloc, &Anywhere { by_id }, query.from, limit)?;
    Ok(labels)
}

// Returns the same lengths if each such walk ends at an item. Otherwise fails with the least id without an item at
// which such a walk ends.
fn reached(alloc: Global, by_id: &NodesById<'_>, query: NearQuery) -> Result<Labels, NearError>
    requires { IsNarrow (any_ways (item_at by_id.now)) }
    ensures { UnlessMemory (Reached by_id.now query) result }
{
    let labels = reach(alloc, by_id, query)?;
    if let Some(id) = labels.missing() {
        return Err(NearError::MissingTuple(id));
    }
    Ok(labels)
}

// Returns the least lengths of walks that are no longer than the radius. Fails if the items are refused.
pub(crate) fn measured(
    alloc: Global,
    nodes: &NodeLeaves,
    query: NearQuery,
) -> Result<Labels, NearError>
    ensures { UnlessMemory (Measured nodes.now query) result }
{
    are_narrow(nodes);
    match NodesById::new(alloc, nodes) {
        Ok(by_id) => reached(alloc, &by_id, query),
        Err(Refusal::RepeatedNode(id)) => Err(NearError::RepeatedNode(id)),
        Err(Refusal::Memory(none)) => Err(NearError::Memory(none)),
        Err(_) => unreachable!(),
    }
}

// Returns the nodes that the items show. Fails if the items are refused.
pub(crate) fn walk(alloc: Global, nodes: &NodeLeaves, query: NearQuery) -> Result<Marks, NearError>
    ensures { UnlessMemory (Walked nodes.now query) result }
{
    match measured(alloc, nodes, query) {
        Ok(labels) => {
            let marks = marks_within(alloc, &labels, query.radius)?;
            Ok(marks)
        }
        Err(error) => Err(error),
    }
}
