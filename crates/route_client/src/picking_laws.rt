//! Laws of the nearest of listed ids.
ghost use Rattle.route_client.specs.NearestTruth.{OneIsPicked, PicksAreNearest};

use road_map::map_laws;

/// If a client accepts exactly the nodes within a radius of a map, each with its distance, `nearest` picks the
/// nearest of the listed ones. A listed id that is not picked is farther than the radius, not joined by a walk, or
/// not a node; or as many nodes as requested are picked before it. The same nodes give the same pick.
pub fn nearest_laws()
    ensures truth { PicksAreNearest }
    ensures one { OneIsPicked }
{
    map_laws();
}
