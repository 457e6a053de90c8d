//! The input of a judge in tests.
ghost use Rattle.std.specs.Prelude.{◌≤◌, length, IfOk};

use book_model::{Items, PairLeaves};
use octet_text::copied;
use road_leaf::{NodeLeaf, NodeLeaves, PairLeaf};
use road_map::Ids;
use std::alloc::Global;
use std::test::Fail;

/// Makes the items from a route, leaves and pairs.
pub(crate) fn items_of(
    alloc: Global,
    route: &[u32],
    leaves: Vec<NodeLeaf>,
    pairs: &[PairLeaf],
) -> Result<Items, Fail>
    ensures route { IfOk result (λ items. length items.route ≤ 65536) }
    ensures nodes { IfOk result (λ items. length items.nodes ≤ 65536) }
{
    if route.len() > 65_536 || leaves.len() > 65_536 {
        return Err(Fail::from("many items"));
    }
    Ok(Items {
        route: Ids::from_vec(copied(alloc, route)?),
        nodes: NodeLeaves::of(alloc, leaves)?,
        pairs: PairLeaves::from_vec(copied(alloc, pairs)?),
    })
}
