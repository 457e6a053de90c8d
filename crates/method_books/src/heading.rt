//! Finding shortest routes: by a search in all directions, and by lower bounds under growing limits.

ghost use Rattle.std.specs.Prelude.{◌≡◌, ℕ, Err, IfOk, IfErr, IfSome, nat_eq};
ghost use Rattle.std.specs.List.{IsDistinct};
ghost use Rattle.road_map.specs.Routes.{IsShortest};
ghost use Rattle.road_map.specs.Walks.{Knows};
ghost use Rattle.road_search.specs.Headed.{IsLowerBound};
ghost use Rattle.proof_method.specs.Gathering.{IsFirstUnknown, WhyNone};

use book_model::Query;
use octet_text::NoMemory;
use proof_method::GatherError;
use road_map::{Map, map_laws};
use road_search::{Bound, Path, headed, knows};
use std::alloc::Global;

/// Tests that both ends are nodes.
///
/// Fails with `UnknownNode` and the start if no node has the start's id, and otherwise with the end if no node has
/// the end's id.
#[tactic(auto, using(proof_method::proofs::EndLaws::none_unknown))]
pub fn known_ends(map: &Map, query: Query) -> Result<(), GatherError>
    ensures from { IfOk result (λ _. Knows map.now.parts query.from) }
    ensures to { IfOk result (λ _. Knows map.now.parts query.to) }
    ensures refused { IfErr result (WhyNone map.now.parts query) }
    ensures unknown { (id : ℕ) → IsFirstUnknown map.now.parts query id
        → result ≡ Err (GatherError.UnknownNode id) }
{
    if !knows(map, query.from) {
        return Err(GatherError::UnknownNode(query.from));
    }
    if !knows(map, query.to) {
        return Err(GatherError::UnknownNode(query.to));
    }
    Ok(())
}

/// Lower bounds without information: 0 at every position.
#[derive(Clone, Copy)]
struct Unbound;

impl Bound for Unbound {
    ghost bound = { λ _ _. 0 };

    fn bound(&self, _position: u32) -> u64 {
        0
    }
}

/// Returns a shortest route between two nodes, by a search in all directions.
///
/// Fails with `UnknownNode` and the start if no node has the start's id, and otherwise with the end if no node has
/// the end's id. Fails with `NoRoute` if both ends are known and no walk joins them. An unknown end is reported,
/// however little memory is available.
#[tactic(auto, using(proof_method::proofs::EndLaws::none_unknown))]
pub fn plain_route(alloc: Global, map: &Map, query: Query) -> Result<Path, GatherError>
    ensures route { IfOk result (λ path.
        IsShortest map.now.parts query.from query.to path.ids path.length) }
    ensures distinct { IfOk result (λ path. IsDistinct nat_eq path.ids) }
    ensures refused { IfErr result (WhyNone map.now.parts query) }
    ensures unknown { (id : ℕ) → IsFirstUnknown map.now.parts query id
        → result ≡ Err (GatherError.UnknownNode id) }
{
    map_laws();
    let _parts = map.parts();
    known_ends(map, query)?;
    let found = headed(alloc, map, &Unbound, query.from, query.to, u64::MAX)?;
    match found {
        None => Err(GatherError::NoRoute),
        Some(path) => Ok(path),
    }
}

/// How many times a limit grows before the whole map is searched. Each increase is twice the previous one.
const ROUNDS: u32 = 8;

/// Returns a shortest route between two nodes, if it is shorter than the last limit. The first limit is the bound
/// of the start, plus one, plus a slack. Each search takes time for the goal-directed walks below its limit.
fn below_limits<B: Bound>(
    alloc: Global,
    map: &Map,
    bounds: &B,
    query: Query,
    slack: u64,
) -> Result<Option<Path>, NoMemory>
    requires known { Knows map.now.parts query.from }
    requires low { IsLowerBound map.now.parts map.now.order query.to (B.bound bounds.now) }
    ensures route { IfOk result (λ answer. IfSome answer (λ path.
        IsShortest map.now.parts query.from query.to path.ids path.length)) }
    ensures distinct { IfOk result (λ answer.
        IfSome answer (λ path. IsDistinct nat_eq path.ids)) }
{
    let least = bounds.bound(map.place(query.from));
    let mut limit = least.saturating_add(1).saturating_add(slack);
    let mut more = (least / 32).saturating_add(slack);
    for _round in 0..ROUNDS {
        let found = headed(alloc, map, bounds, query.from, query.to, limit)?;
        if let Some(path) = found {
            return Ok(Some(path));
        }
        limit = limit.saturating_add(more);
        more = more.saturating_mul(2);
    }
    Ok(None)
}

/// Returns a shortest route between two nodes.
pub fn route_headed<B: Bound>(
    alloc: Global,
    map: &Map,
    bounds: &B,
    query: Query,
    slack: u64,
) -> Result<Path, GatherError>
    requires from { Knows map.now.parts query.from }
    requires to { Knows map.now.parts query.to }
    requires low { IsLowerBound map.now.parts map.now.order query.to (B.bound bounds.now) }
    ensures route { IfOk result (λ path.
        IsShortest map.now.parts query.from query.to path.ids path.length) }
    ensures distinct { IfOk result (λ path. IsDistinct nat_eq path.ids) }
    ensures refused { IfErr result (WhyNone map.now.parts query) }
{
    let found = below_limits(alloc, map, bounds, query, slack)?;
    if let Some(path) = found {
        return Ok(path);
    }
    plain_route(alloc, map, query)
}
