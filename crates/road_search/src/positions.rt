//! Finding a shortest route by position.

ghost use Rattle.std.specs.Prelude.{◌≡◌, IfOk, IfSome, map as every};
ghost use Rattle.std.specs.Option.{option_map};
ghost use Rattle.road_map.specs.Walks.{Knows, distance};
ghost use Rattle.road_map.specs.Routes.{IsShortest};
ghost use Rattle.road_search.specs.Nets.{id_at};

use crate::label_setting::search_to;
use crate::labels::way_back;
use crate::naming::id_at;
use crate::paged::Paged;
use crate::path::Path;
use octet_text::{NoMemory, push, room_for};
use road_map::{Ids, Map, map_laws};
use std::alloc::Global;

/// Returns the ids of the nodes at positions.
pub(crate) fn ids_at(alloc: Global, map: &Map, positions: &[u32]) -> Result<Vec<u32>, NoMemory>
    ensures { IfOk result (λ ids. ids.items ≡ every (id_at map.now.order) positions.now) }
{
    let mut ids = room_for(alloc, positions)?;
    for position in positions {
        push(&mut ids, id_at(map, *position))?;
    }
    Ok(ids)
}

/// Returns a shortest route between two nodes, if a walk joins them. Looks up the ids of the route's nodes only, by
/// position.
pub fn shortest_by_position(
    alloc: Global,
    map: &Map,
    from: u32,
    to: u32,
) -> Result<Option<Path>, NoMemory>
    requires { Knows map.now.parts from }
    ensures route { IfOk result (λ answer.
        IfSome answer (λ path. IsShortest map.now.parts from to path.ids path.length)) }
    ensures length { IfOk result (λ answer.
        option_map (λ path. path.length) answer ≡ distance map.now.parts from to) }
{
    map_laws();
    let _parts = map.parts();
    let start = map.place(from);
    let Some(end) = map.position(to) else {
        return Ok(None);
    };
    let mut marks = Paged::new(alloc);
    let net = map.net();
    let _bound = search_to(alloc, net, &mut marks, start, end, u64::MAX)?;
    let Some(mark) = marks.at(end as usize) else {
        return Ok(None);
    };
    let way = way_back(&marks, alloc, end, mark.label.hops)?;
    Ok(Some(Path {
        ids: Ids::from_vec(ids_at(alloc, map, way.as_slice())?),
        length: mark.label.length,
    }))
}
