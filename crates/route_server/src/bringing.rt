//! The contents that a reply takes from a publication's book: indices of node leaves, and leaves of pairs, with
//! their covers.
ghost use Rattle.std.specs.Prelude.{◌≡◌, ◌<◌, ◌^◌, IfOk, All, length, nat_eq};
ghost use Rattle.std.specs.List.{IsDistinct};
ghost use Rattle.std.specs.Option.{option_copied};
ghost use Rattle.road_map.specs.Walks.{Knows};
ghost use Rattle.merkle_cover.specs.Covers.{IsRising};
ghost use Rattle.route_server.specs.Bringing.{ArePlaces, ArePairsAt, AreBrought};
ghost use Rattle.route_server.specs.Headers.{node_texts};
ghost use Rattle.route_server.specs.Keeping.{count_in};

use crate::at_places::{cover_at, pairs_at};
use crate::held::Held;
use crate::leaf_tree::LeafTree;
use crate::order::places_of;
use book_model::{PairLeaves, Places};
use merkle_cover::Texts;
use octet_text::{Digests, Hasher, NoMemory, copied};
use proof_method::MethodBook;
use road_leaf::PairLeaf;
use std::alloc::Global;

/// Indices of node leaves, and the cover that proves their leaves under the root of the node tree.
#[derive(Drop)]
pub(crate) struct PlacesBrought {
    /// The indices, in ascending order.
    pub(crate) places: Places,
    /// The cover of all other indices.
    pub(crate) cover: Digests,
}

/// Leaves of pairs, and the cover that proves them under the root of the pair tree.
#[derive(Drop)]
pub(crate) struct PairsBrought {
    /// The indices of the leaves in the pair tree, in ascending order.
    pub(crate) places: Places,
    /// The leaves at these indices.
    pub(crate) pairs: PairLeaves,
    /// The cover of all other indices.
    pub(crate) cover: Digests,
}

/// Gives the fact that ids and indices fit their width.
pub(crate) fn numbers_fit(numbers: &[u32])
    ensures { All (λ n. n < 2 ^ 32) numbers.now }
{
    let _ = numbers;
}

fn places_from(alloc: Global, places: &[u32]) -> Result<Places, NoMemory>
    ensures { IfOk result (λ copy. copy ≡ places.now) }
{
    let places = copied(alloc, places)?;
    Ok(Places::from_vec(places))
}

/// Returns indices of a tree's leaves, together with the cover of all other indices.
pub(crate) fn places_brought<H: Hasher>(
    alloc: Global,
    tree: &LeafTree<H>,
    places: Vec<u32>,
) -> Result<PlacesBrought, NoMemory>
    requires { IsRising (length tree.now.texts) places.items }
    ensures { IfOk result (ArePlaces H.hash tree.now places.items) }
{
    let cover = tree.cover(alloc, &places)?;
    numbers_fit(&places);
    Ok(PlacesBrought {
        places: Places::from_vec(places),
        cover,
    })
}

/// Returns the pair leaves at the given indices of their list, with the cover of all other indices.
pub(crate) fn pairs_brought<H: Hasher>(
    alloc: Global,
    pairs: &[PairLeaf],
    tree: Option<&LeafTree<H>>,
    places: &[u32],
) -> Result<PairsBrought, NoMemory>
    requires rising { IsRising (length pairs.now) places.now }
    requires ids { All (λ p. p.a < p.b) pairs.now }
    requires whole { count_in (option_copied tree) ≡ length pairs.now }
    ensures { IfOk result (ArePairsAt H.hash pairs.now (option_copied tree.entry) places.now) }
{
    numbers_fit(places);
    Ok(PairsBrought {
        pairs: pairs_at(alloc, pairs, places)?,
        cover: cover_at(alloc, tree, places)?,
        places: places_from(alloc, places)?,
    })
}

impl<H: Hasher> Held<H> {
    /// Returns the indices of the leaves of some nodes, and the cover of all other indices. The ids may come in any
    /// order.
    pub(crate) fn bring(&self, alloc: Global, ids: &[u32]) -> Result<PlacesBrought, NoMemory>
        requires distinct { IsDistinct nat_eq ids.now }
        requires known { All (Knows self.now.map.parts) ids.now }
        ensures { IfOk result (AreBrought H.hash self.now ids.now) }
    {
        let places = places_of(alloc, self.book.map(), &self.order.places, ids)?;
        places_brought(alloc, &self.nodes, places)
    }

    /// Returns the texts of the node leaves, in the order of the leaves.
    pub(crate) fn node_texts(&self) -> &Texts
        ensures { result.now ≡ node_texts self.now.nodes }
    {
        self.nodes.texts()
    }
}
