//! The facts about lengths and ids that the types of the items guarantee.

ghost use Rattle.std.specs.Prelude.{ℕ, ◌<◌, ◌^◌, Bool, Contains};
ghost use Rattle.road_map.specs.declared.arc.Arc.{Arc};
ghost use Rattle.road_leaf.specs.declared.leaf.NodeLeaf.{NodeLeaf};
ghost use Rattle.proof_judge.specs.ItemWalks.{item_at, leaf_ways};
ghost use Rattle.proof_judge.specs.SharedTests.{AreShort, IsNarrow};

use road_leaf::{NodeLeaves, NodeView};
use road_map::Arc;

fn length_fits(arc: &Arc)
    ensures { arc.now.length < 2 ^ 32 }
{
    let _length = arc.length;
}

fn lengths_fit(arcs: &[Arc])
    ensures { (a : Arc) → Contains arcs.now a → a.length < 2 ^ 32 }
{
    for arc in arcs {
        length_fits(arc);
    }
}

/// Gives the fact that the lengths of all arcs are 32-bit numbers, by their type.
pub fn are_short(nodes: &NodeLeaves)
    ensures { AreShort nodes.now }
{
    for index in 0..nodes.len() {
        lengths_fit(nodes.at(index).arcs);
    }
}

fn id_fits(node: &NodeView<'_>)
    ensures { node.now.id < 2 ^ 32 }
{
    let _id = node.id;
}

/// Gives the fact that all ids are 32-bit numbers, by their type.
fn ids_fit(nodes: &NodeLeaves)
    ensures { (n : NodeLeaf) → Contains nodes.now n → n.id < 2 ^ 32 }
{
    for index in 0..nodes.len() {
        id_fits(&nodes.at(index));
    }
}

/// Gives the fact that walks over the items use few ids and short arcs, whatever lengths the items let pass.
pub fn are_narrow(nodes: &NodeLeaves)
    ensures { (lets : ℕ → ℕ → Bool) → IsNarrow (leaf_ways lets (item_at nodes.now)) }
{
    are_short(nodes);
    ids_fit(nodes);
}
