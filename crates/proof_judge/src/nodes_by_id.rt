//! Node items by id.

ghost use Rattle.std.specs.Prelude.{◌≡◌, ℕ, None, Some, IfOk, OnOk, IfErr, ◌⊎◌};
ghost use Rattle.octet_text.specs.Want.{no_memory};
ghost use Rattle.std.specs.Option.{option_map};
ghost use Rattle.road_leaf.specs.Seen.{seen};
ghost use Rattle.road_map.specs.Least.{IsLeast};
ghost use Rattle.road_map.specs.Places.{AreRising};
ghost use Rattle.proof_judge.specs.ItemWalks.{item_at, StandsTwice};

use crate::places::{are_few, indices_of, repeated_id, sorted_ids};
use crate::refusal::Refusal;
use octet_text::{NoMemory, share, shared};
use road_leaf::{NodeLeaves, NodeView};
use road_map::RisingIds;
use std::alloc::Global;
use std::marker::Model;
use std::rc::Rc;

/// Node items, their ids in ascending order, and the index of each id's item. Searches share the ids.
#[derive(Drop)]
pub struct NodesById<'a> {
    nodes: &'a NodeLeaves,
    indices: Vec<u32>,
    ids: Rc<RisingIds>,
}

impl<'a> Model for NodesById<'a> {
    ghost use Rattle.std.specs.Prelude.{List};
    ghost use Rattle.road_leaf.specs.declared.leaf.NodeLeaf.{NodeLeaf};
    ghost use Rattle.proof_judge.specs.ById.{AreListed};

    ghost Value = { List NodeLeaf };

    ghost view = { λ s. s.nodes.now };

    ghost invariant = { λ s. AreListed s.nodes.now s.indices.items s.ids.value };
}

impl<'a> NodesById<'a> {
    /// Sorts node items by id. Fails if two items have the same id.
    pub fn new(alloc: Global, nodes: &'a NodeLeaves) -> Result<NodesById<'a>, Refusal>
        ensures nodes { IfOk result (λ by_id. by_id ≡ nodes.now) }
        ensures distinct { OnOk result (IsLeast (StandsTwice nodes.now) None) }
        ensures fault { IfErr result
            (λ e. (e ≡ Refusal.Memory no_memory) ⊎
            ((id : ℕ) × (e ≡ Refusal.RepeatedNode id) ×
            IsLeast (StandsTwice nodes.now) (Some id))) }
    {
        let sorted = sorted_ids(alloc, nodes)?;
        match repeated_id(sorted.as_slice()) {
            None => {
                are_few(sorted.as_slice());
                let rising = RisingIds::new(alloc, sorted)?;
                let indices = indices_of(alloc, nodes, &rising)?;
                let ids = shared(alloc, rising)?;
                Ok(NodesById {
                    nodes,
                    indices,
                    ids,
                })
            }
            Some(id) => Err(Refusal::RepeatedNode(id)),
        }
    }

    /// Returns the item of an id.
    pub fn find(&self, id: u32) -> Option<NodeView<'_>>
        ensures { option_map seen result ≡ item_at self.now id }
    {
        match self.ids.place(id) {
            None => None,
            Some(place) => self.nodes.get(self.indices[place] as usize),
        }
    }

    /// Returns the ids of the items. The list is shared, not copied.
    pub fn ids(&self) -> Result<Rc<RisingIds>, NoMemory>
        ensures { IfOk result (λ ids. AreRising ids.value) }
    {
        let ids = share(&self.ids)?;
        Ok(ids)
    }
}
