//! Roads between positions.

ghost use Rattle.std.specs.Prelude.{◌≤◌, IfOk, OnOk, IfErr, length};
ghost use Rattle.road_map.specs.Rows.{IsPlaced, ArePlaced, JoinsIds, JoinIdsBelow, RoadIsFaulty, FirstFaulty};

use crate::error::MapError;
use crate::parts::Road;
use crate::rising_ids::RisingIds;
use octet_text::{push, room_for};
use std::alloc::Global;

/// Returns a road with the positions of its ends in place of their ids. Fails if the road is faulty.
fn placed_road(ids: &RisingIds, road: Road, index: u32) -> Result<Road, MapError>
    requires { length ids.now ≤ 65536 }
    ensures placed { IfOk result (IsPlaced ids.now road) }
    ensures joins { OnOk result (JoinsIds ids.now road) }
    ensures fault { IfErr result (RoadIsFaulty ids.now road index) }
{
    let Some(a) = ids.place(road.a) else {
        return Err(MapError::UnknownEnd(index));
    };
    let Some(b) = ids.place(road.b) else {
        return Err(MapError::UnknownEnd(index));
    };
    if road.a == road.b {
        return Err(MapError::SelfRoad(index));
    }
    Ok(Road {
        a: a as u32,
        b: b as u32,
        length: road.length,
    })
}

/// Returns the roads with the positions of their ends in place of their ids. Fails at the first faulty road.
pub fn placed_roads(alloc: Global, ids: &RisingIds, roads: &[Road]) -> Result<Vec<Road>, MapError>
    requires ids { length ids.now ≤ 65536 }
    requires few { length roads.now ≤ 262144 }
    ensures placed { IfOk result (λ placed. ArePlaced ids.now roads.now placed.items) }
    ensures joined { OnOk result (JoinIdsBelow ids.now roads.now (length roads.now)) }
    ensures fault { IfErr result (FirstFaulty ids.now roads.now) }
{
    let mut placed = room_for(alloc, roads)?;
    for (index, road) in roads.iter().enumerate() {
        let road = placed_road(ids, *road, index as u32)?;
        push(&mut placed, road)?;
    }
    Ok(placed)
}
