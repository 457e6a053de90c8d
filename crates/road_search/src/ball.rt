//! Finding a shortest route and all nodes as near as its end, by position.

ghost use Rattle.std.specs.Prelude.{◌≡◌, ◌↔◌, ℕ, IsTrue, Contains, IfOk, IfSome, nat_eq};
ghost use Rattle.std.specs.List.{IsDistinct};
ghost use Rattle.std.specs.List.Sorted.{IsStrictlySortedBy};
ghost use Rattle.std.specs.Option.{option_map};
ghost use Rattle.std.specs.Ordering.{nat_cmp};
ghost use Rattle.road_map.specs.Walks.{Knows, distance};
ghost use Rattle.road_map.specs.Routes.{IsShortest};
ghost use Rattle.road_search.specs.Nearness.{is_within};

use crate::label_setting::search_to;
use crate::labels::way_back;
use crate::nearby::near_ids;
use crate::paged::Paged;
use crate::positions::ids_at;
use octet_text::NoMemory;
use road_map::{Ids, Map, map_laws};
use std::alloc::Global;

/// A shortest route between two nodes, and the nodes that are at most as far from its start as its end is.
#[derive(Debug, Drop)]
pub struct Ball {
    /// The ids of the nodes that the route visits, in order, including both ends. No id occurs twice.
    pub route: Ids,
    /// The sum of the lengths of the route's roads.
    pub length: u64,
    /// The ids of the nodes at most this far from the start, in ascending order.
    pub nodes: Ids,
}

/// Returns a shortest route between two nodes, and the nodes that are at most as far as its end. Returns `None` if
/// no walk joins the two or an id does not belong to a node.
///
/// The cost depends on the nodes that it returns or, if no walk leads to the end, on all nodes that walks reach. If
/// several routes are equally short, it returns any one of them.
pub fn ball_to(alloc: Global, map: &Map, from: u32, to: u32) -> Result<Option<Ball>, NoMemory>
    requires { Knows map.now.parts from }
    ensures route { IfOk result (λ answer.
        IfSome answer (λ ball. IsShortest map.now.parts from to ball.route ball.length)) }
    ensures distinct { IfOk result (λ answer.
        IfSome answer (λ ball. IsDistinct nat_eq ball.route)) }
    ensures length { IfOk result (λ answer.
        option_map (λ ball. ball.length) answer ≡ distance map.now.parts from to) }
    ensures rising { IfOk result (λ answer.
        IfSome answer (λ ball. IsStrictlySortedBy nat_cmp ball.nodes)) }
    ensures near { IfOk result (λ answer. IfSome answer (λ ball. (id : ℕ) →
        Contains ball.nodes id ↔ IsTrue (is_within ball.length (distance map.now.parts from id)))) }
{
    map_laws();
    let _parts = map.parts();
    let start = map.place(from);
    let Some(end) = map.position(to) else {
        return Ok(None);
    };
    let mut marks = Paged::new(alloc);
    let net = map.net();
    let _bound = search_to(alloc, net, &mut marks, start, end, u64::MAX)?;
    let Some(mark) = marks.at(end as usize) else {
        return Ok(None);
    };
    let way = way_back(&marks, alloc, end, mark.label.hops)?;
    let route = ids_at(alloc, map, way.as_slice())?;
    let ids = map.rising_ids()?;
    let nodes = near_ids(alloc, ids.as_slice(), &marks, mark.label.length)?;
    Ok(Some(Ball {
        route: Ids::from_vec(route),
        length: mark.label.length,
        nodes: Ids::from_vec(nodes),
    }))
}
