//! Least lengths over a map, found from position to position, of walks that a gate lets pass.

ghost use Rattle.std.specs.Prelude.{◌≡◌, ◌≤◌, ℕ, Bool, IsTrue, IfOk};
ghost use Rattle.road_map.specs.Walks.{Knows};
ghost use Rattle.road_search.specs.Gated.{IsGated};
ghost use Rattle.road_search.specs.Labelling.{length_at};
ghost use Rattle.road_search.specs.Passing.{Ways, IsLeastPassing};

use crate::ground::Ground;
use crate::label_setting::search_in;
use crate::labels::Labels;
use crate::listed::Listed;
use crate::paged::Paged;
use crate::places::placed_ids;
use octet_text::NoMemory;
use road_map::{Arc, Map, Net};
use std::alloc::Global;

/// A gate: the lengths that it lets pass at each position of a map.
pub trait Gate {
    // How contracts see it.
    ghost lets: { Self → ℕ → ℕ → Bool };

    /// Tests whether a walk of this length may leave the node at a position.
    fn lets(&self, position: u32, length: u64) -> bool
        ensures { result ≡ lets self.now position length };

    // If a length passes, every smaller one passes.
    ghost lets_shorter: { (g : Self) (position short long : ℕ) → short ≤ long →
        IsTrue (lets g position long) → IsTrue (lets g position short) };
}

/// The gate that lets every length pass.
#[derive(Clone, Copy)]
pub struct NoGate;

impl Gate for NoGate {
    ghost use Rattle.std.specs.Prelude.{true};

    ghost lets = { λ _ _ _. true };

    fn lets(&self, _position: u32, _length: u64) -> bool {
        true
    }

    ghost lets_shorter = { λ g position short long le h. h };
}

/// A map's arcs by position, as a ground of walks that a gate lets pass.
#[derive(Clone, Copy)]
struct Gated<'a, G: Gate> {
    net: &'a Net,
    gate: &'a G,
}

impl<G: Gate> Ground for Gated<'_, G> {
    ghost use Rattle.road_search.specs.Gated.{gated_net};

    ghost ways = { λ w. gated_net w.net.now (G.lets w.gate.now) };

    fn arcs(&self, id: u32) -> Option<&[Arc]> {
        let net = self.net;
        net.get(id)
    }

    fn lets(&self, id: u32, length: u64) -> bool {
        self.gate.lets(id, length)
    }

    ghost lets_shorter = { λ w id short long le h. G.lets_shorter w.gate.now id short long le h };
}

/// Returns the least length, below the limit, of a walk that the gate lets pass from a node to each node.
///
/// Its cost and its memory depend on what it labels. The walks are those of any ways by id that have the map's arcs
/// and let pass at the id of a node what the gate lets pass at its position.
pub fn lengths_through<G: Gate>(
    alloc: Global,
    map: &Map,
    gate: &G,
    from: u32,
    limit: u64,
) -> Result<Labels, NoMemory>
    requires { Knows map.now.parts from }
    ensures { IfOk result (λ found. (w : Ways) →
        IsGated map.now.parts map.now.order (G.lets gate.now) w → (v : ℕ) →
        IsLeastPassing w from limit v (length_at found v)) }
{
    let _parts = map.parts();
    let start = map.place(from);
    let net = map.net();
    let ids = placed_ids(alloc, map)?;
    let mut marks = Paged::new(alloc);
    let _lacking = search_in(alloc, &Gated { net, gate }, &mut marks, start, limit)?;
    Ok(Labels::new(Listed::of(alloc, ids, marks), None))
}
