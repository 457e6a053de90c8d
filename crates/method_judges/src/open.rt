//! Open walks: the search that shows that no walk reaches an end.

ghost use Rattle.proof_judge.specs.Apart.{open_ways};

use crate::bounds::{Lookup, apart};
use octet_text::NoMemory;
use road_map::{Arc, RisingIds};
use road_search::Ground;
use std::alloc::Global;
use std::rc::Rc;

/// Leaves at hand as the ground of a search towards an end. An id with a leaf has the leaf's arcs. No walk
/// continues from an id that is apart from the end.
#[derive(Clone, Copy)]
pub struct Open<'a, L: Lookup> {
    pub leaves: &'a L,
    pub to: u32,
}

impl<L: Lookup> Ground for Open<'_, L> {
    ghost ways = { λ w. open_ways (L.leaves w.leaves.now) w.to };

    fn arcs(&self, id: u32) -> Option<&[Arc]> {
        self.leaves.arcs(id)
    }

    fn lets(&self, id: u32, _length: u64) -> bool {
        !apart(self.leaves, id, self.to)
    }

    fn ids(&self, alloc: Global) -> Result<Rc<RisingIds>, NoMemory> {
        self.leaves.ids(alloc)
    }

    ghost lets_shorter = { λ w id short long le h. h };
}
