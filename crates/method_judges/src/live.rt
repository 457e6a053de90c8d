//! Live walks: the search that both the server and the client perform.

ghost use Rattle.std.specs.Prelude.{◌≡◌, ◌^◌, ◌+◌, ◌<◌, ℕ, IfOk, None, IsSome};
ghost use Rattle.road_map.specs.Least.{IsLeast};
ghost use Rattle.road_search.specs.Labelling.{length_at};
ghost use Rattle.road_search.specs.Passing.{IsLeastPassing};
ghost use Rattle.proof_judge.specs.ItemWalks.{live_ways};

use crate::bounds::{Lookup, bound};
use book_model::Query;
use octet_text::NoMemory;
use road_map::{Arc, RisingIds};
use road_search::{Ground, Labels, search};
use std::alloc::Global;
use std::rc::Rc;

/// A length above that of every arc.
const ABOVE_ARCS: u64 = 4294967296;

/// Leaves at hand as the ground of a search towards an end. An id with a leaf has the leaf's arcs. A length passes
/// if the sum of it and the bound to the end is below a limit.
#[derive(Clone, Copy)]
struct Live<'a, L: Lookup> {
    leaves: &'a L,
    step: u64,
    to: u32,
    most: u64,
}

impl<L: Lookup> Ground for Live<'_, L> {
    ghost use Rattle.method_judges.specs.Live.{live_shorter};
    ghost use Rattle.book_model.specs.Bounds.{bound};

    ghost ways = { λ w. live_ways w.step (L.leaves w.leaves.now) w.to w.most };

    fn arcs(&self, id: u32) -> Option<&[Arc]> {
        self.leaves.arcs(id)
    }

    fn lets(&self, id: u32, length: u64) -> bool {
        let bound = bound(self.step, self.leaves, id, self.to);
        u128::from(length) + bound < u128::from(self.most)
    }

    fn ids(&self, alloc: Global) -> Result<Rc<RisingIds>, NoMemory> {
        self.leaves.ids(alloc)
    }

    ghost lets_shorter = { λ w id short long le h.
        live_shorter (bound w.step (L.leaves w.leaves.now) (L.leaves w.leaves.now id)
        (L.leaves w.leaves.now w.to)) w.most short long le h };
}

/// Returns the least lengths of live walks towards an end below a limit, for all nodes that such walks reach.
///
/// The search goes one arc beyond the limit, since a neighbour of a live node may lie there.
pub fn live_labels<L: Lookup>(
    alloc: Global,
    leaves: &L,
    step: u64,
    query: Query,
    most: u64,
) -> Result<Labels, NoMemory>
    requires { most < 2 ^ 48 }
    ensures lengths { IfOk result (λ found. (v : ℕ) →
        IsLeastPassing (live_ways step (L.leaves leaves.now) query.to most) query.from
        (most + 2 ^ 32) v (length_at found v)) }
    ensures missing { IfOk result (λ found.
        IsLeast (λ v. IsSome (length_at found v) ×
        ((live_ways step (L.leaves leaves.now) query.to most).arcs v ≡ None)) found.missing) }
{
    let live = Live {
        leaves,
        step,
        to: query.to,
        most,
    };
    let labels = search(alloc, &live, query.from, most + ABOVE_ARCS)?;
    Ok(labels)
}
