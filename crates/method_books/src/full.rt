//! The book of FULL.

ghost use Rattle.std.specs.Prelude.{◌≡◌, ◌⊎◌, ℕ, None, Some, Err, IfOk, OnOk, IfErr, nat_eq};
ghost use Rattle.std.specs.List.{IsDistinct};
ghost use Rattle.octet_text.specs.Want.{no_memory};
ghost use Rattle.road_map.specs.Routes.{IsShortest};
ghost use Rattle.road_map.specs.Walks.{Knows, distance};
ghost use Rattle.book_model.specs.Books.{Full as ByFull, method_fault};
ghost use Rattle.book_model.specs.Orders.{by_id};
ghost use Rattle.book_model.specs.Pairs.{pairs_of};
ghost use Rattle.book_model.specs.declared.settings.PlanError.TheVariants as plan_error;
ghost use Rattle.proof_method.specs.Gathering.{Lists, AreEnds, IsPairAt, IsFirstUnknown, WhyNone};
ghost use Rattle.method_books.specs.PlainBooks.{plain_book};

use crate::by_table::{ByTable, place_between, said_between};
use crate::dij::first_parameter;
use crate::heading::{known_ends, route_headed};
use crate::rising::rising;
use book_model::{Numbers, PairLeaves, Places, PlanError, Query, Settings};
use octet_text::{NoMemory, push};
use pair_dist::{PairError, pair_leaves};
use proof_method::{Found, GatherError, MethodBook, ends, ids_by_id, leaf_adding};
use road_leaf::{Extra, NodeLeaf, PairLeaf};
use road_map::{Ids, Map, map_laws};
use road_search::Path;
use std::alloc::Global;

/// A map with the leaves of all pairs of its nodes. It gathers the leaf of the two ends.
#[derive(Drop)]
pub struct FullBook {
    pub(crate) map: Map,
    pub(crate) pairs: PairLeaves,
    ghost all: { pairs ≡ pairs_of (distance map.parts) (by_id map.parts.nodes) },
}

// Makes the leaves of all pairs of a map's nodes. Fails if a parameter or the number of nodes does not allow the
// book.
fn table_over(alloc: Global, map: &Map, settings: &Settings) -> Result<PairLeaves, PlanError>
    ensures pairs { IfOk result (λ pairs.
        pairs ≡ pairs_of (distance map.now.parts) (by_id map.now.parts.nodes)) }
    ensures allowed { OnOk result (method_fault ByFull map.now.parts settings.now ≡ None) }
    ensures refused { IfErr result (λ e. (e ≡ plan_error.Memory no_memory) ⊎
        (method_fault ByFull map.now.parts settings.now ≡ Some e)) }
{
    if let Some(index) = first_parameter(settings) {
        return Err(PlanError::Settings(index));
    }
    let count = map.parts().nodes.as_slice().len();
    if count > 1024 {
        return Err(PlanError::TooManyNodes(count as u32));
    }
    let ids = ids_by_id(alloc, map)?;
    match pair_leaves(alloc, map, ids.as_slice()) {
        Ok(pairs) => Ok(pairs),
        Err(PairError::TooMany) => Err(PlanError::TooManyNodes(count as u32)),
        Err(PairError::Memory(none)) => Err(PlanError::Memory(none)),
    }
}

impl MethodBook for FullBook {
    ghost use Rattle.std.specs.Prelude.{Some};
    ghost use Rattle.book_model.specs.Books.{Full as ByFull};
    ghost use Rattle.method_books.specs.PlainBooks.{plain_book};

    ghost planned = { λ _. Some ByFull };

    ghost kind = { λ _. ByFull };

    ghost shown = { λ b. plain_book b.map.parts b.pairs };

    ghost charted = { λ b. b.map };

    fn offers(_method: u8) -> bool {
        true
    }

    fn plan(
        alloc: Global,
        map: Map,
        settings: &Settings,
        _order: &[u32],
    ) -> Result<FullBook, PlanError> {
        match table_over(alloc, &map, settings) {
            Ok(pairs) => Ok(FullBook { map, pairs }),
            Err(fault) => Err(fault),
        }
    }

    fn map(&self) -> &Map {
        &self.map
    }

    fn into_map(self) -> Map {
        let FullBook { map, pairs: _ } = self;
        map
    }

    fn numbers(&self) -> Numbers {
        Numbers {
            first: 0,
            second: 0,
        }
    }

    fn node_leaf(&self, alloc: Global, id: u32) -> Result<NodeLeaf, NoMemory> {
        leaf_adding(alloc, &self.map, id, Extra::Plain)
    }

    fn pairs(&self) -> &[PairLeaf] {
        self.pairs.as_slice()
    }

    #[tactic(auto, using(proof_method::proofs::EndLaws::none_first))]
    fn gather(&self, alloc: Global, query: Query) -> Result<Found, GatherError> {
        let path = route_by_table(alloc, self, query)?;
        let nodes = rising(alloc, &path.ids)?;
        let pairs = pair_of_ends(alloc, self, query)?;
        Ok(Found {
            route: path.ids,
            nodes,
            pairs,
        })
    }

    fn gather_apart(&self, alloc: Global, query: Query) -> Result<Found, NoMemory> {
        let nodes = ends(alloc, query)?;
        let pairs = pair_of_ends(alloc, self, query)?;
        Ok(Found {
            route: Ids::from_vec(Vec::new(alloc)),
            nodes,
            pairs,
        })
    }
}

/// Returns a shortest route between two nodes, along arcs that the table shows to lie on one.
///
/// Fails with `UnknownNode` and the start if no node has the start's id, and otherwise with the end if no node has
/// the end's id. Fails with `NoRoute` if both ends are known and no walk joins them. An unknown end is reported,
/// however little memory is available.
#[tactic(auto, using(proof_method::proofs::EndLaws::none_unknown))]
fn route_by_table(alloc: Global, book: &FullBook, query: Query) -> Result<Path, GatherError>
    ensures route { IfOk result (λ path.
        IsShortest book.now.map.parts query.from query.to path.ids path.length) }
    ensures distinct { IfOk result (λ path. IsDistinct nat_eq path.ids) }
    ensures refused { IfErr result (WhyNone book.now.map.parts query) }
    ensures unknown { (id : ℕ) → IsFirstUnknown book.now.map.parts query id
        → result ≡ Err (GatherError.UnknownNode id) }
{
    map_laws();
    let _parts = book.map.parts();
    known_ends(&book.map, query)?;
    if said_between(book, query.from, query.to) == u64::MAX {
        return Err(GatherError::NoRoute);
    }
    let bounds = ByTable { book, to: query.to };
    route_headed(alloc, &book.map, &bounds, query, 0)
}

/// Returns the index of the leaf of the two ends, or `None` if they are the same node.
fn pair_of_ends(alloc: Global, book: &FullBook, query: Query) -> Result<Places, NoMemory>
    requires from { Knows book.now.map.parts query.from }
    requires to { Knows book.now.map.parts query.to }
    ensures { IfOk result (Lists
        (IsPairAt (AreEnds query) (plain_book book.now.map.parts book.now.pairs))) }
{
    let _parts = book.map.parts();
    let mut places = Vec::new(alloc);
    if query.from == query.to {
        return Ok(Places::from_vec(places));
    }
    let place = place_between(book, query.from, query.to);
    push(&mut places, place as u32)?;
    Ok(Places::from_vec(places))
}
