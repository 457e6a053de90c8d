//! Planning a book of HYP, and gathering from it for a query.

ghost use Rattle.std.specs.Prelude.{◌≡◌, ◌≤◌, ◌⊎◌, ℕ, List, IfOk, OnOk, IfErr, IsTrue, None, Some, Contains, length};
ghost use Rattle.octet_text.specs.Want.{no_memory};
ghost use Rattle.road_map.specs.Walks.{Knows, distance};
ghost use Rattle.book_model.specs.Books.{Hyp as ByHyp, IsBookOf, borders as borders_in, leaf, method_fault};
ghost use Rattle.book_model.specs.Pairs.{pairs_of};
ghost use Rattle.book_model.specs.declared.settings.PlanError.TheVariants as plan_error;
ghost use Rattle.method_books.specs.Grids.{IsGridOf};
ghost use Rattle.road_search.specs.Labelling.{length_at};
ghost use Rattle.road_search.specs.Nearness.{is_within};
ghost use Rattle.proof_method.specs.Gathering.{Lists};
ghost use Rattle.method_books.specs.HypBooks.{hyp_book, cell_extra, AreMarked, IsWantedPlace};

use crate::gathering::{wanted_nodes, wanted_pairs};
use crate::grid::{Grid, cell_at, grid_over, is_border_at};
use crate::heading::plain_route;
use crate::hyp_method::{HypBook, borders, first_parameter, marks_of, table_of};
use crate::inland::Inland;
use book_model::{Numbers, PairLeaves, Places, PlanError, Query, Settings};
use octet_text::NoMemory;
use proof_judge::search_all;
use proof_method::{Found, GatherError, MethodBook, leaf_adding};
use road_leaf::{Extra, NodeLeaf, PairLeaf};
use road_map::{Ids, Map};
use road_search::{Labels, lengths_through};
use std::alloc::Global;

// A grid of cells, its border nodes by ascending id, and the leaves of all pairs of these.
#[derive(Drop)]
struct Celled {
    grid: Grid,
    marks: Vec<bool>,
    borders: Ids,
    pairs: PairLeaves,
}

// Makes the grid over a map, unless a parameter or the number of border nodes forbids the book.
fn cells_over(alloc: Global, map: &Map, settings: &Settings) -> Result<Celled, PlanError>
    ensures grid { IfOk result (λ c. IsGridOf map.now.parts.nodes c.grid) }
    ensures bordered { IfOk result
        (λ c. c.borders ≡ borders_in map.now.parts c.grid.columns c.grid.rows) }
    ensures marks { IfOk result (λ c. AreMarked map.now.parts map.now.order c.grid.columns
        c.grid.rows c.marks.items) }
    ensures few { IfOk result (λ c. length c.borders ≤ 2048) }
    ensures pairs { IfOk result (λ c. c.pairs ≡ pairs_of (distance map.now.parts) c.borders) }
    ensures book { (order : List ℕ) → IfOk result (λ c.
        IsBookOf ByHyp map.now.parts settings.now order
        (hyp_book map.now.parts c.grid.columns c.grid.rows c.pairs)) }
    ensures allowed { OnOk result (method_fault ByHyp map.now.parts settings.now ≡ None) }
    ensures refused { IfErr result (λ e. (e ≡ plan_error.Memory no_memory) ⊎
        (method_fault ByHyp map.now.parts settings.now ≡ Some e)) }
{
    if let Some(index) = first_parameter(settings) {
        return Err(PlanError::Settings(index));
    }
    let grid = grid_over(
        map.parts().nodes.as_slice(),
        settings.p1 as u32,
        settings.p2 as u32,
    );
    let marks = marks_of(alloc, map, &grid)?;
    let borders = borders(alloc, map, &grid)?;
    let pairs = table_of(alloc, map, &borders)?;
    Ok(Celled {
        grid,
        marks,
        borders,
        pairs,
    })
}

impl MethodBook for HypBook {
    ghost use Rattle.std.specs.Prelude.{Some};
    ghost use Rattle.book_model.specs.Books.{Hyp as ByHyp};
    ghost use Rattle.method_books.specs.HypBooks.{hyp_book};

    ghost planned = { λ _. Some ByHyp };

    ghost kind = { λ _. ByHyp };

    ghost shown = { λ b. hyp_book b.map.parts b.grid.columns b.grid.rows b.pairs };

    ghost charted = { λ b. b.map };

    fn offers(_method: u8) -> bool {
        true
    }

    fn plan(
        alloc: Global,
        map: Map,
        settings: &Settings,
        _order: &[u32],
    ) -> Result<HypBook, PlanError> {
        match cells_over(alloc, &map, settings) {
            Ok(celled) => Ok(HypBook {
                map,
                grid: celled.grid,
                marks: celled.marks,
                borders: celled.borders,
                pairs: celled.pairs,
            }),
            Err(fault) => Err(fault),
        }
    }

    fn map(&self) -> &Map {
        &self.map
    }

    fn into_map(self) -> Map {
        let HypBook {
            map,
            grid: _,
            marks: _,
            borders: _,
            pairs: _,
        } = self;
        map
    }

    fn numbers(&self) -> Numbers {
        Numbers {
            first: u64::from(self.grid.columns),
            second: u64::from(self.grid.rows),
        }
    }

    fn node_leaf(&self, alloc: Global, id: u32) -> Result<NodeLeaf, NoMemory> {
        leaf_of(alloc, self, id)
    }

    fn pairs(&self) -> &[PairLeaf] {
        self.pairs.as_slice()
    }

    #[tactic(auto, using(proof_method::proofs::EndLaws::none_first))]
    fn gather(&self, alloc: Global, query: Query) -> Result<Found, GatherError> {
        let _parts = self.map.parts();
        let path = plain_route(alloc, &self.map, query)?;
        let most = path.length;
        let inland = Inland { book: self };
        let near = lengths_through(alloc, &self.map, &inland, query.from, most)?;
        let far = lengths_through(alloc, &self.map, &inland, query.to, most)?;
        let brought = bring(alloc, self, &path.ids, &near, &far, most)?;
        Ok(Found {
            route: path.ids,
            nodes: brought.nodes,
            pairs: brought.pairs,
        })
    }

    fn gather_apart(&self, alloc: Global, query: Query) -> Result<Found, NoMemory> {
        let _parts = self.map.parts();
        let inland = Inland { book: self };
        let near = search_all(alloc, &inland, query.from)?;
        let far = search_all(alloc, &inland, query.to)?;
        let route = Ids::from_vec(Vec::new(alloc));
        let brought = bring(alloc, self, &route, &near, &far, u64::MAX)?;
        Ok(Found {
            route,
            nodes: brought.nodes,
            pairs: brought.pairs,
        })
    }
}

// What is gathered besides a route: nodes, and indices of pairs of borders.
#[derive(Drop)]
struct Brought {
    nodes: Ids,
    pairs: Places,
}

// Returns the ids on a route and those that inner walks from its two ends reach within a length, and the indices of
// the pairs of borders that such walks reach.
fn bring(
    alloc: Global,
    book: &HypBook,
    route: &Ids,
    near: &Labels,
    far: &Labels,
    most: u64,
) -> Result<Brought, NoMemory>
    ensures nodes { IfOk result (λ b. Lists (λ id. Contains route.now id ⊎
        IsTrue (is_within most (length_at near.now id)) ⊎
        IsTrue (is_within most (length_at far.now id))) b.nodes) }
    ensures pairs { IfOk result (λ b. Lists (IsWantedPlace book.now.pairs book.now.borders
        (length_at near.now) (length_at far.now) most) b.pairs) }
{
    let _parts = book.map.parts();
    let nodes = wanted_nodes(alloc, route, near, far, most)?;
    let pairs = wanted_pairs(
        alloc,
        book.pairs.as_slice(),
        book.borders.as_slice(),
        near,
        far,
        most,
    )?;
    Ok(Brought { nodes, pairs })
}

/// Returns the leaf of a node: its place, its arcs, its cell, and whether it is a border.
fn leaf_of(alloc: Global, book: &HypBook, id: u32) -> Result<NodeLeaf, NoMemory>
    requires { Knows book.now.map.parts id }
    ensures { IfOk result (λ found.
        leaf (hyp_book book.now.map.parts book.now.grid.columns book.now.grid.rows book.now.pairs)
        id ≡ Some found) }
{
    let _parts = book.map.parts();
    let position = book.map.place(id);
    let cell = cell_at(&book.map, &book.grid, position);
    let border = is_border_at(&book.map, &book.grid, position);
    let leaf = leaf_adding(alloc, &book.map, id, Extra::Cell { cell, border })?;
    Ok(leaf)
}
