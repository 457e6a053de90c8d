// The nodes of a map within a radius.
ghost use Rattle.std.specs.Prelude.{◌≡◌, ◌↔◌, ℕ, ◌+◌, min, ◌^◌, ◌-◌, IfOk, All, Contains, nat_eq};
ghost use Rattle.std.specs.List.{IsDistinct};
ghost use Rattle.road_map.specs.Walks.{Knows};
ghost use Rattle.proof_octets.specs.Radius.{IsWithin};

use octet_text::NoMemory;
use proof_octets::NearQuery;
use road_map::{Map, map_laws};
use road_search::{NoGate, lengths_through};
use std::alloc::Global;

// Returns the radius plus one. The greatest radius is returned unchanged, since no distance comes near it.
fn limit_above(radius: u64) -> u64
    ensures { result ≡ min (radius + 1) (2 ^ 64 - 1) }
{
    radius.saturating_add(1)
}

/// Returns the ids of the nodes within a radius, each once, in no particular order.
///
/// The search stops at the radius, so its cost depends only on the part of the map within it.
pub(crate) fn ids_within(alloc: Global, map: &Map, query: NearQuery) -> Result<Vec<u32>, NoMemory>
    requires { Knows map.now.parts query.from }
    ensures distinct { IfOk result (λ ids. IsDistinct nat_eq ids.items) }
    ensures known { IfOk result (λ ids. All (Knows map.now.parts) ids.items) }
    ensures same { IfOk result (λ ids. (id : ℕ) → Contains ids.items id ↔
        IsWithin map.now.parts query id) }
{
    map_laws();
    let _parts = map.parts();
    let limit = limit_above(query.radius);
    let labels = lengths_through(alloc, map, &NoGate, query.from, limit)?;
    let ids = labels.near(alloc, query.radius)?;
    Ok(ids)
}
