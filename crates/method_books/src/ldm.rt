//! Planning a book of LDM, and gathering items from it for a query.

ghost use Rattle.std.specs.Prelude.{◌≡◌, ◌⊎◌, ◌+◌, ◌<◌, ◌^◌, ℕ, nat_eq, None, Some, Err, is_some, IfOk, OnOk, IfErr, length};
ghost use Rattle.std.specs.List.{list_any, IsDistinct};
ghost use Rattle.std.specs.Map.{lookup};
ghost use Rattle.octet_text.specs.Want.{no_memory};
ghost use Rattle.road_map.specs.Routes.{IsShortest};
ghost use Rattle.road_map.specs.Walks.{Knows, ids};
ghost use Rattle.road_search.specs.Labelling.{length_at};
ghost use Rattle.road_search.specs.Passing.{IsLeastPassing};
ghost use Rattle.proof_judge.specs.ItemWalks.{live_ways};
ghost use Rattle.road_map.specs.declared.parts.Parts.{Parts};
ghost use Rattle.book_model.specs.Books.{Ldm as ByLdm, IsBookOf, leaf, own_tests, first_failed, method_fault};
ghost use Rattle.book_model.specs.declared.settings.PlanError.TheVariants as plan_error;
ghost use Rattle.proof_method.specs.Gathering.{IsOrderOf, IsFirstUnknown, WhyNone};
ghost use Rattle.proof_method.specs.Vectors.{HasVectors};
ghost use Rattle.method_books.specs.LdmBooks.{ldm_book};

use crate::by_codes::{ByCodes, Live};
use crate::extras::Extras;
use crate::heading::{known_ends, route_headed};
use crate::ldm_method::{LdmBook, copy};
use crate::near::needed;
use crate::parameters::{first_failed, is_from_to};
use book_model::{Numbers, Places, PlanError, Query, Settings};
use landmarks::{compress, landmark_codes};
use method_judges::{Lookup, Open};
use octet_text::NoMemory;
use proof_judge::search_all;
use proof_method::{Found, GatherError, MethodBook, ends, leaf_adding, method_laws};
use road_leaf::{NodeLeaf, PairLeaf};
use road_map::{Ids, Map, map_laws};
use road_search::{Bound, Labels, Path, lengths_through};
use std::alloc::Global;

impl MethodBook for LdmBook {
    ghost use Rattle.std.specs.Prelude.{Some};
    ghost use Rattle.book_model.specs.Books.{Ldm as ByLdm};
    ghost use Rattle.method_books.specs.LdmBooks.{ldm_book};

    ghost planned = { λ _. Some ByLdm };

    ghost kind = { λ _. ByLdm };

    ghost shown = { λ b. ldm_book b.map.parts b.extras.entries b.numbers };

    ghost charted = { λ b. b.map };

    fn offers(_method: u8) -> bool {
        true
    }

    fn plan(
        alloc: Global,
        map: Map,
        settings: &Settings,
        order: &[u32],
    ) -> Result<LdmBook, PlanError> {
        let _parts = map.parts();
        match codes_over(alloc, &map, settings, order) {
            Ok(coded) => Ok(LdmBook {
                map,
                extras: coded.extras,
                numbers: coded.numbers,
            }),
            Err(fault) => Err(fault),
        }
    }

    fn map(&self) -> &Map {
        &self.map
    }

    fn into_map(self) -> Map {
        let LdmBook { map, .. } = self;
        map
    }

    fn numbers(&self) -> Numbers {
        self.numbers
    }

    fn node_leaf(&self, alloc: Global, id: u32) -> Result<NodeLeaf, NoMemory> {
        let extra = copy(alloc, self.extra_at(id))?;
        leaf_adding(alloc, &self.map, id, extra)
    }

    fn pairs(&self) -> &[PairLeaf] {
        &[]
    }

    #[tactic(auto, using(proof_method::proofs::EndLaws::none_first))]
    fn gather(&self, alloc: Global, query: Query) -> Result<Found, GatherError> {
        map_laws();
        let _parts = self.map.parts();
        let path = route_by_codes(alloc, self, query)?;
        let labels = live_labels(alloc, self, query, path.length)?;
        let nodes = needed(alloc, self, &path.ids, &labels)?;
        Ok(Found {
            route: path.ids,
            nodes,
            pairs: Places::from_vec(Vec::new(alloc)),
        })
    }

    fn gather_apart(&self, alloc: Global, query: Query) -> Result<Found, NoMemory> {
        let _parts = self.map.parts();
        let open = Open {
            leaves: self,
            to: query.to,
        };
        let labels = search_all(alloc, &open, query.from)?;
        let ends = ends(alloc, query)?;
        let nodes = needed(alloc, self, &ends, &labels)?;
        Ok(Found {
            route: Ids::from_vec(Vec::new(alloc)),
            nodes,
            pairs: Places::from_vec(Vec::new(alloc)),
        })
    }
}

/// A number that exceeds the length of any road.
const ABOVE_ROADS: u64 = 4294967296;

/// Returns the least lengths of live walks, towards an end and below a limit, to all nodes that they reach.
///
/// The search goes one road beyond the limit, since a neighbour of a live node may be there.
fn live_labels(alloc: Global, book: &LdmBook, query: Query, most: u64) -> Result<Labels, NoMemory>
    requires known { Knows book.now.map.parts query.from }
    requires short { most < 2 ^ 48 }
    ensures { IfOk result (λ found. (v : ℕ) → IsLeastPassing (live_ways book.now.numbers.first
        (leaf (ldm_book book.now.map.parts book.now.extras.entries book.now.numbers)) query.to most)
        query.from (most + 2 ^ 32) v (length_at found v)) }
{
    let _parts = book.map.parts();
    let end = book.extra(query.to);
    let to = query.to;
    let bounds = ByCodes { book, to, end };
    let live = Live { bounds, most };
    let labels = lengths_through(alloc, &book.map, &live, query.from, most + ABOVE_ROADS)?;
    Ok(labels)
}

/// Returns how far the first limit of a search is above the bound of its start, so that it rarely needs a second one:
/// some steps, since codes are inexact, and a part of the bound, since roads wind. No result depends on it.
fn slack_of(step: u64, least: u64) -> u64 {
    step.saturating_mul(6).saturating_add(least / 48)
}

/// Returns a shortest route between two nodes, using the bounds from codes.
///
/// Fails with `UnknownNode` and the start if no node has the start's id, and otherwise with the end if no node has
/// the end's id. Fails with `NoRoute` if both ends are known and no walk joins them. An unknown end is reported,
/// however little memory is available.
#[tactic(auto, using(proof_method::proofs::EndLaws::none_unknown))]
fn route_by_codes(alloc: Global, book: &LdmBook, query: Query) -> Result<Path, GatherError>
    ensures route { IfOk result (λ path.
        IsShortest book.now.map.parts query.from query.to path.ids path.length) }
    ensures distinct { IfOk result (λ path. IsDistinct nat_eq path.ids) }
    ensures refused { IfErr result (WhyNone book.now.map.parts query) }
    ensures unknown { (id : ℕ) → IsFirstUnknown book.now.map.parts query id
        → result ≡ Err (GatherError.UnknownNode id) }
{
    let _parts = book.map.parts();
    known_ends(&book.map, query)?;
    let end = book.extra(query.to);
    let to = query.to;
    let bounds = ByCodes { book, to, end };
    let least = bounds.bound(book.map.place(query.from));
    let slack = slack_of(book.numbers.first, least);
    route_headed(alloc, &book.map, &bounds, query, slack)
}

// The contents of a book's leaves about codes, and the step and the number of landmarks.
#[derive(Drop)]
struct Coded {
    extras: Extras,
    numbers: Numbers,
}

// Makes the codes of a map's nodes. Fails if a parameter does not allow the book.
fn codes_over(
    alloc: Global,
    map: &Map,
    settings: &Settings,
    order: &[u32],
) -> Result<Coded, PlanError>
    requires { IsOrderOf map.now.parts order.now }
    ensures covers { IfOk result (λ c. (id : ℕ) → is_some (lookup (nat_eq id) c.extras.entries)
        ≡ list_any (nat_eq id) (ids map.now.parts.nodes)) }
    ensures book { IfOk result (λ c. IsBookOf ByLdm map.now.parts settings.now order.now
        (ldm_book map.now.parts c.extras.entries c.numbers)) }
    ensures vectors { IfOk result (λ c.
        HasVectors ByLdm (ldm_book map.now.parts c.extras.entries c.numbers)) }
    ensures allowed { OnOk result (method_fault ByLdm map.now.parts settings.now ≡ None) }
    ensures refused { IfErr result (λ e. (e ≡ plan_error.Memory no_memory) ⊎
        (method_fault ByLdm map.now.parts settings.now ≡ Some e)) }
{
    method_laws();
    let count = map.parts().nodes.as_slice().len();
    if let Some(index) = refused_parameter(settings, count) {
        return Err(PlanError::Settings(index));
    }
    let table = landmark_codes(alloc, map, settings.p1 as u32, settings.p2 as u8)?;
    let extras = compress(alloc, &table, order, settings.p3 as u16)?;
    let numbers = Numbers {
        first: table.step(),
        second: settings.p1,
    };
    let extras = Extras::new(alloc, order, extras)?;
    Ok(Coded { extras, numbers })
}

/// Returns the number of the first parameter that is out of its range, for a map of `nodes` nodes: 1 to 64
/// landmarks, but at most one for each node; 1 to 16 bits of a code; a threshold of at most 65,534.
fn refused_parameter(settings: &Settings, nodes: usize) -> Option<u8>
    ensures { (parts : Parts) → nodes ≡ length parts.nodes →
        result ≡ first_failed 3 (own_tests ByLdm parts settings.now) }
{
    first_failed([
        is_from_to(1, 64, settings.p1) && settings.p1 <= nodes as u64,
        is_from_to(1, 16, settings.p2),
        settings.p3 <= 65534,
    ])
}
