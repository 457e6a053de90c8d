//! Inner walks over items.

ghost use Rattle.std.specs.Prelude.{◌≡◌};
ghost use Rattle.road_leaf.specs.Seen.{extra_seen};
ghost use Rattle.proof_judge.specs.ItemWalks.{item_at, is_border, marks, inner_ways};

use octet_text::NoMemory;
use proof_judge::{NodesById, arcs_of};
use road_leaf::ExtraView;
use road_map::{Arc, RisingIds};
use road_search::Ground;
use std::alloc::Global;
use std::rc::Rc;

fn is_border(extra: ExtraView<'_>) -> bool
    ensures { result ≡ is_border (extra_seen extra.entry) }
{
    match extra {
        ExtraView::Cell { border, .. } => border,
        _ => false,
    }
}

/// Tests whether the item of an id marks it as a border node.
pub fn is_marked(by_id: &NodesById<'_>, id: u32) -> bool
    ensures { result ≡ marks (item_at by_id.now id) }
{
    match by_id.find(id) {
        None => false,
        Some(leaf) => is_border(leaf.extra),
    }
}

/// Items as the ground of a search for inner walks. An id with an item has the item's arcs. No walk continues from
/// a border node.
#[derive(Clone, Copy)]
pub struct Inner<'a, 'b> {
    pub by_id: &'a NodesById<'b>,
}

impl Ground for Inner<'_, '_> {
    ghost ways = { λ w. inner_ways (item_at w.by_id.now) };

    fn arcs(&self, id: u32) -> Option<&[Arc]> {
        let by_id = self.by_id;
        arcs_of(by_id, id)
    }

    fn lets(&self, id: u32, _length: u64) -> bool {
        !is_marked(self.by_id, id)
    }

    fn ids(&self, _alloc: Global) -> Result<Rc<RisingIds>, NoMemory> {
        let by_id = self.by_id;
        by_id.ids()
    }

    ghost lets_shorter = { λ w id short long le h. h };
}
