//! Finding a shortest route with lower bounds of the remaining distance.

ghost use Rattle.std.specs.Prelude.{◌≡◌, ◌≤◌, ℕ, Some, IfOk, IfSome, IfNone, nat_eq};
ghost use Rattle.std.specs.List.{IsDistinct};
ghost use Rattle.road_map.specs.Walks.{Knows, distance};
ghost use Rattle.road_map.specs.Routes.{IsShortest};
ghost use Rattle.road_search.specs.Headed.{IsLowerBound};

use crate::ground::Ground;
use crate::label_setting::search_to;
use crate::labels::way_back;
use crate::paged::Paged;
use crate::path::Path;
use crate::positions::ids_at;
use octet_text::NoMemory;
use road_map::{Arc, Ids, Map, Net, map_laws};
use std::alloc::Global;

/// Lower bounds of the distances from positions of a map to an end.
pub trait Bound {
    // The bounds as contracts see them.
    ghost bound: { Self → ℕ → ℕ };

    /// Returns the bound of the node at a position.
    fn bound(&self, position: u32) -> u64
        ensures { result ≡ bound self.now position };
}

/// A map's arcs by position, as the ground of goal-directed walks. A length passes if its sum with the position's
/// bound is below a limit.
#[derive(Clone, Copy)]
struct HeadingFor<'a, B: Bound> {
    net: &'a Net,
    bounds: &'a B,
    limit: u64,
}

impl<B: Bound> Ground for HeadingFor<'_, B> {
    ghost use Rattle.road_search.specs.Headed.{headed_ways, headed_shorter};

    ghost ways = { λ w. headed_ways w.net.now (B.bound w.bounds.now) w.limit };

    fn arcs(&self, id: u32) -> Option<&[Arc]> {
        let net = self.net;
        net.get(id)
    }

    fn lets(&self, id: u32, length: u64) -> bool {
        let bound = self.bounds.bound(id);
        u128::from(length) + u128::from(bound) < u128::from(self.limit)
    }

    ghost lets_shorter = { λ w id short long le h.
        headed_shorter (B.bound w.bounds.now id) w.limit short long le h };
}

/// Returns a shortest route between two nodes if it is shorter than a limit. Returns `None` otherwise, also if an
/// id does not belong to a node.
///
/// The cost depends on the nodes for which the sum of the least length by goal-directed walks and the bound is
/// below the limit, and on their neighbours. If several routes are equally short, it returns any one of them.
pub fn headed<B: Bound>(
    alloc: Global,
    map: &Map,
    bounds: &B,
    from: u32,
    to: u32,
    limit: u64,
) -> Result<Option<Path>, NoMemory>
    requires known { Knows map.now.parts from }
    requires low { IsLowerBound map.now.parts map.now.order to (B.bound bounds.now) }
    ensures route { IfOk result (λ answer.
        IfSome answer (λ path. IsShortest map.now.parts from to path.ids path.length)) }
    ensures distinct { IfOk result (λ answer.
        IfSome answer (λ path. IsDistinct nat_eq path.ids)) }
    ensures none { IfOk result (λ answer. IfNone answer ((d : ℕ) →
        distance map.now.parts from to ≡ Some d → limit ≤ d)) }
{
    map_laws();
    let _parts = map.parts();
    let start = map.place(from);
    let Some(end) = map.position(to) else {
        return Ok(None);
    };
    let net = map.net();
    let ground = HeadingFor { net, bounds, limit };
    let mut marks = Paged::new(alloc);
    let _bound = search_to(alloc, &ground, &mut marks, start, end, limit)?;
    let Some(mark) = marks.at(end as usize) else {
        return Ok(None);
    };
    let way = way_back(&marks, alloc, end, mark.label.hops)?;
    let route = ids_at(alloc, map, way.as_slice())?;
    Ok(Some(Path {
        ids: Ids::from_vec(route),
        length: mark.label.length,
    }))
}
