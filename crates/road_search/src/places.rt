//! The ascending ids of a map.

ghost use Rattle.std.specs.Prelude.{◌≡◌, IfOk};
ghost use Rattle.road_map.specs.Places.{AreRising};
ghost use Rattle.road_map.specs.Walks.{ids};

use octet_text::NoMemory;
use road_map::{Map, RisingIds};
use std::alloc::Global;
use std::rc::Rc;

/// Returns the ids of a map's nodes in ascending order.
pub fn rising_ids(alloc: Global, map: &Map) -> Result<Vec<u32>, NoMemory>
    ensures ids { IfOk result (λ found. found.items ≡ ids map.now.order) }
    ensures rise { IfOk result (λ found. AreRising found.items) }
{
    let _parts = map.parts();
    let found = map.ids(alloc)?;
    Ok(found.into_vec())
}

/// Returns the same ids with fast look-up, as the map keeps them.
pub fn placed_ids(_alloc: Global, map: &Map) -> Result<Rc<RisingIds>, NoMemory>
    ensures ids { IfOk result (λ found. found.value ≡ ids map.now.order) }
    ensures rise { IfOk result (λ found. AreRising found.value) }
{
    let _parts = map.parts();
    let found = map.rising_ids()?;
    Ok(found)
}
