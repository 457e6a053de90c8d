//! Following a route over items.

ghost use Rattle.std.specs.Prelude.{◌≡◌, ℕ, ◌^◌, ◌<◌, ◌≤◌, [], IfSome, IfOk, OnOk, IfErr, None, Ok, length};
ghost use Rattle.road_map.specs.Least.{IsLeast};
ghost use Rattle.std.specs.Option.{option_map, option_copied};
ghost use Rattle.proof_judge.specs.ItemWalks.{item_at, StandsTwice};
ghost use Rattle.proof_judge.specs.Judgement.{arc_to, walked_from, walked};
ghost use Rattle.proof_judge.specs.SharedTests.{HopSays, RefusesBefore};

use crate::nodes_by_id::NodesById;
use crate::refusal::Refusal;
use book_model::{Items, Query};
use road_map::Arc;
use std::alloc::Global;

/// Returns the arcs in the item of an id.
pub fn arcs_of<'a>(by_id: &'a NodesById<'_>, id: u32) -> Option<&'a [Arc]>
    ensures { option_copied result ≡ option_map (λ n. n.arcs) (item_at by_id.now id) }
{
    match by_id.find(id) {
        None => None,
        Some(leaf) => Some(leaf.arcs),
    }
}

/// Returns the length of the arc to an id, if there is such an arc.
fn arc_length(arcs: &[Arc], to: u32) -> Option<u32>
    ensures length { result ≡ arc_to arcs.now to }
    ensures fits { IfSome result (λ l. l < 2 ^ 32) }
{
    arcs.iter().find(|arc| arc.to == to).map(|arc| arc.length)
}

/// Returns the length of one hop of a route. Fails with `BadRoute` if no arc joins its two ids.
fn hop(by_id: &NodesById<'_>, index: u32, from: u32, to: u32) -> Result<u32, Refusal>
    requires { index < 65536 }
    ensures { HopSays by_id.now index from to result }
{
    match by_id.find(from) {
        None => Err(Refusal::MissingTuple(from)),
        Some(leaf) => match arc_length(leaf.arcs, to) {
            None => Err(Refusal::BadRoute(index + 1)),
            Some(length) => Ok(length),
        },
    }
}

/// Tests whether a route ends at the end of the query. Fails with `BadRoute` if not.
fn arrive(by_id: &NodesById<'_>, index: u32, at: u32, to: u32) -> Result<u64, Refusal>
    requires { index < 65536 }
    ensures { result ≡ walked_from by_id.now to index at [] }
{
    match by_id.find(at) {
        None => Err(Refusal::MissingTuple(at)),
        Some(_) => {
            if at == to {
                Ok(0)
            } else {
                Err(Refusal::BadRoute(index + 1))
            }
        }
    }
}

/// Follows the rest of a route from one of its ids, and returns the length of the rest. Fails at the first fault.
fn follow(by_id: &NodesById<'_>, to: u32, first: u32, rest: &[u32]) -> Result<u64, Refusal>
    requires { length rest.now < 65536 }
    ensures value { result ≡ walked_from by_id.now to 0 first rest.now }
    ensures most { IfOk result (λ d. d < 2 ^ 48) }
{
    let mut at = first;
    let mut total = 0;
    for (index, next) in rest.iter().enumerate() {
        let length = hop(by_id, index as u32, at, *next)?;
        total += u64::from(length);
        at = *next;
    }
    arrive(by_id, rest.len() as u32, at, to)?;
    Ok(total)
}

/// Returns the length of a route. Fails with the route's first fault.
pub fn walk(by_id: &NodesById<'_>, query: Query, route: &[u32]) -> Result<u64, Refusal>
    requires { length route.now ≤ 65536 }
    ensures value { result ≡ walked by_id.now query route.now }
    ensures most { IfOk result (λ d. d < 2 ^ 48) }
{
    match route.split_first() {
        None => Err(Refusal::BadRoute(0)),
        Some((first, rest)) => {
            if *first == query.from {
                follow(by_id, query.to, *first, rest)
            } else {
                Err(Refusal::BadRoute(0))
            }
        }
    }
}

/// Runs the tests that all methods share. Returns the items by id, and the length of the route.
pub fn begin(alloc: Global, items: &Items, query: Query) -> Result<(NodesById<'_>, u64), Refusal>
    requires { length items.now.route ≤ 65536 }
    ensures nodes { IfOk result (λ begun. begun.0 ≡ items.now.nodes) }
    ensures length { IfOk result (λ begun.
        walked items.now.nodes query items.now.route ≡ Ok begun.1) }
    ensures most { IfOk result (λ begun. begun.1 < 2 ^ 48) }
    ensures distinct { OnOk result (IsLeast (StandsTwice items.now.nodes) None) }
    ensures refused { IfErr result (RefusesBefore items.now query) }
{
    let by_id = NodesById::new(alloc, &items.nodes)?;
    let length = walk(&by_id, query, items.route.as_slice())?;
    Ok((by_id, length))
}
