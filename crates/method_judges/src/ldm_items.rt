//! Items as leaves at hand.

ghost use Rattle.proof_judge.specs.ItemWalks.{item_at};

use crate::bounds::Lookup;
use octet_text::NoMemory;
use proof_judge::{NodesById, arcs_of};
use road_leaf::ExtraView;
use road_map::{Arc, RisingIds};
use std::alloc::Global;
use std::rc::Rc;

/// The items of a reply, by id.
#[derive(Clone, Copy)]
pub struct ItemLeaves<'a, 'b> {
    pub by_id: &'a NodesById<'b>,
}

impl Lookup for ItemLeaves<'_, '_> {
    ghost leaves = { λ w. item_at w.by_id.now };

    fn arcs(&self, id: u32) -> Option<&[Arc]> {
        let by_id = self.by_id;
        arcs_of(by_id, id)
    }

    fn extra(&self, id: u32) -> Option<ExtraView<'_>> {
        match self.by_id.find(id) {
            None => None,
            Some(leaf) => Some(leaf.extra),
        }
    }

    fn ids(&self, _alloc: Global) -> Result<Rc<RisingIds>, NoMemory> {
        let by_id = self.by_id;
        by_id.ids()
    }
}
