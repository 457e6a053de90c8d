//! Items as the ground of a search in which every length passes.

ghost use Rattle.proof_judge.specs.ItemWalks.{item_at, any_ways};

use octet_text::NoMemory;
use proof_judge::{NodesById, arcs_of};
use road_map::{Arc, RisingIds};
use road_search::Ground;
use std::alloc::Global;
use std::rc::Rc;

/// Items as the ground of a search. An id with an item has the item's arcs, and every length passes.
#[derive(Clone, Copy)]
pub struct Anywhere<'a, 'b> {
    pub by_id: &'a NodesById<'b>,
}

impl Ground for Anywhere<'_, '_> {
    ghost ways = { λ w. any_ways (item_at w.by_id.now) };

    fn arcs(&self, id: u32) -> Option<&[Arc]> {
        let by_id = self.by_id;
        arcs_of(by_id, id)
    }

    fn lets(&self, _id: u32, _length: u64) -> bool {
        true
    }

    fn ids(&self, _alloc: Global) -> Result<Rc<RisingIds>, NoMemory> {
        let by_id = self.by_id;
        by_id.ids()
    }

    ghost lets_shorter = { λ w id short long le h. h };
}
