//! The book of DIJ.

ghost use Rattle.std.specs.Prelude.{◌≡◌, ℕ, IsTrue, Err, IfOk, IfErr, nat_eq};
ghost use Rattle.std.specs.List.{IsDistinct};
ghost use Rattle.road_map.specs.declared.parts.Parts.{Parts};
ghost use Rattle.road_map.specs.Routes.{IsShortest};
ghost use Rattle.road_map.specs.Walks.{distance};
ghost use Rattle.road_search.specs.Nearness.{is_within};
ghost use Rattle.proof_method.specs.Gathering.{IsFirstUnknown, Lists, WhyNone};
ghost use Rattle.book_model.specs.Books.{Dij as ByDij, own_tests, first_failed};

use crate::parameters::first_failed;
use crate::within::component;
use book_model::{Numbers, Places, PlanError, Query, Settings};
use octet_text::NoMemory;
use proof_method::{Found, GatherError, MethodBook, leaf_adding};
use road_leaf::{Extra, NodeLeaf, PairLeaf};
use road_map::{Ids, Map, map_laws};
use road_search::{Ball, ball_to, knows};
use std::alloc::Global;

/// A map whose leaves have nothing besides coordinates and arcs. It gathers the leaves of all nodes that are at
/// most as far from the start as the end is.
#[derive(Drop)]
pub struct DijBook {
    map: Map,
}

impl MethodBook for DijBook {
    ghost use Rattle.std.specs.Prelude.{[], Some};
    ghost use Rattle.book_model.specs.Books.{Dij as ByDij};
    ghost use Rattle.method_books.specs.PlainBooks.{plain_book};

    ghost planned = { λ _. Some ByDij };

    ghost kind = { λ _. ByDij };

    ghost shown = { λ b. plain_book b.map.parts [] };

    ghost charted = { λ b. b.map };

    fn offers(_method: u8) -> bool {
        true
    }

    fn plan(
        _alloc: Global,
        map: Map,
        settings: &Settings,
        _order: &[u32],
    ) -> Result<DijBook, PlanError> {
        match first_parameter(settings) {
            None => Ok(DijBook { map }),
            Some(index) => Err(PlanError::Settings(index)),
        }
    }

    fn map(&self) -> &Map {
        &self.map
    }

    fn into_map(self) -> Map {
        let DijBook { map } = self;
        map
    }

    fn numbers(&self) -> Numbers {
        Numbers {
            first: 0,
            second: 0,
        }
    }

    fn node_leaf(&self, alloc: Global, id: u32) -> Result<NodeLeaf, NoMemory> {
        leaf_adding(alloc, &self.map, id, Extra::Plain)
    }

    fn pairs(&self) -> &[PairLeaf] {
        &[]
    }

    #[tactic(auto, using(proof_method::proofs::EndLaws::none_first))]
    fn gather(&self, alloc: Global, query: Query) -> Result<Found, GatherError> {
        let _parts = self.map.parts();
        let reached = reach_all(alloc, &self.map, query)?;
        Ok(Found {
            route: reached.route,
            nodes: reached.nodes,
            pairs: Places::from_vec(Vec::new(alloc)),
        })
    }

    fn gather_apart(&self, alloc: Global, query: Query) -> Result<Found, NoMemory> {
        let nodes = component(alloc, &self.map, query)?;
        Ok(Found {
            route: Ids::from_vec(Vec::new(alloc)),
            nodes,
            pairs: Places::from_vec(Vec::new(alloc)),
        })
    }
}

/// Searches a map for a shortest route and for all nodes that are at most as far as its end.
///
/// Fails with `UnknownNode` and the start if no node has the start's id, and otherwise with the end if no node has
/// the end's id. Fails with `NoRoute` if both ends are known and no walk joins them. An unknown end is reported,
/// however little memory is available.
#[tactic(auto, using(proof_method::proofs::EndLaws::none_unknown))]
fn reach_all(alloc: Global, map: &Map, query: Query) -> Result<Ball, GatherError>
    ensures route { IfOk result (λ ball.
        IsShortest map.now.parts query.from query.to ball.route ball.length) }
    ensures distinct { IfOk result (λ ball. IsDistinct nat_eq ball.route) }
    ensures nodes { IfOk result (λ ball. Lists
        (λ id. IsTrue (is_within ball.length (distance map.now.parts query.from id))) ball.nodes) }
    ensures refused { IfErr result (WhyNone map.now.parts query) }
    ensures unknown { (id : ℕ) → IsFirstUnknown map.now.parts query id
        → result ≡ Err (GatherError.UnknownNode id) }
{
    map_laws();
    let _parts = map.parts();
    if !knows(map, query.from) {
        return Err(GatherError::UnknownNode(query.from));
    }
    if !knows(map, query.to) {
        return Err(GatherError::UnknownNode(query.to));
    }
    let found = ball_to(alloc, map, query.from, query.to)?;
    match found {
        None => Err(GatherError::NoRoute),
        Some(ball) => Ok(ball),
    }
}

/// Returns the number of the first parameter that is not 0. These methods have no parameters.
pub fn first_parameter(settings: &Settings) -> Option<u8>
    ensures { (parts : Parts) → result ≡ first_failed 3 (own_tests ByDij parts settings.now) }
{
    first_failed([settings.p1 == 0, settings.p2 == 0, settings.p3 == 0])
}
