//! The book of HYP.

ghost use Rattle.std.specs.Prelude.{◌≡◌, ◌==◌, ◌<◌, ◌≤◌, ◌⊎◌, ℕ, IfOk, OnOk, IfErr, IfNone, Contains, length, slice_get};
ghost use Rattle.octet_text.specs.Want.{no_memory};
ghost use Rattle.std.specs.List.{filter};
ghost use Rattle.road_map.specs.declared.parts.Parts.{Parts};
ghost use Rattle.road_map.specs.declared.parts.Node.{Node};
ghost use Rattle.road_map.specs.Walks.{Knows, distance};
ghost use Rattle.road_leaf.specs.declared.pair.PairLeaf.{PairLeaf};
ghost use Rattle.book_model.specs.Books.{Hyp as ByHyp, borders as borders_in, first_failed, own_tests};
ghost use Rattle.book_model.specs.Pairs.{pairs_of};
ghost use Rattle.book_model.specs.declared.settings.PlanError.TheVariants as plan_error;
ghost use Rattle.method_books.specs.Grids.{IsGridOf};
ghost use Rattle.method_books.specs.HypBooks.{AreMarked};

use crate::grid::{Grid, is_border_at};
use crate::parameters::{first_failed, is_from_to};
use book_model::{PairLeaves, PlanError, Settings};
use octet_text::{NoMemory, push};
use pair_dist::{PairError, pair_leaves};
use road_map::{Ids, Map};
use std::alloc::Global;

/// A map with a grid of cells, its border nodes by ascending id, and the leaves of all pairs of these.
#[derive(Drop)]
pub struct HypBook {
    pub map: Map,
    pub grid: Grid,
    /// Which positions are those of border nodes.
    pub marks: Vec<bool>,
    pub borders: Ids,
    pub pairs: PairLeaves,
    ghost of: { IsGridOf map.parts.nodes grid },
    ghost marked: { AreMarked map.parts map.order grid.columns grid.rows marks.items },
    ghost bordered: { borders ≡ borders_in map.parts grid.columns grid.rows },
    ghost few: { length borders ≤ 2048 },
    ghost all: { pairs ≡ pairs_of (distance map.parts) borders },
}

/// Returns the number of the first parameter that is out of its range: 1 to 1,024 columns, 1 to 1,024 rows, and no
/// third one.
pub fn first_parameter(settings: &Settings) -> Option<u8>
    ensures first { (parts : Parts) → result ≡ first_failed 3 (own_tests ByHyp parts settings.now) }
    ensures columns { IfNone result (1 ≤ settings.now.p1) }
    ensures columns_max { IfNone result (settings.now.p1 ≤ 1024) }
    ensures rows { IfNone result (1 ≤ settings.now.p2) }
    ensures rows_max { IfNone result (settings.now.p2 ≤ 1024) }
{
    first_failed([
        is_from_to(1, 1024, settings.p1),
        is_from_to(1, 1024, settings.p2),
        settings.p3 == 0,
    ])
}

/// Returns which positions of a map are those of border nodes in a grid.
pub fn marks_of(alloc: Global, map: &Map, grid: &Grid) -> Result<Vec<bool>, NoMemory>
    requires { IsGridOf map.now.parts.nodes grid.now }
    ensures { IfOk result (λ marks. AreMarked map.now.parts map.now.order grid.now.columns
        grid.now.rows marks.items) }
{
    let mut marks = Vec::new(alloc);
    for position in 0..map.count() {
        let _id = map.node(position).id;
        push(&mut marks, is_border_at(map, grid, position))?;
    }
    Ok(marks)
}

/// Returns the border nodes of a map in a grid, by ascending id.
pub fn borders(alloc: Global, map: &Map, grid: &Grid) -> Result<Ids, NoMemory>
    requires { IsGridOf map.now.parts.nodes grid.now }
    ensures { IfOk result (λ ids. ids ≡ borders_in map.now.parts grid.now.columns grid.now.rows) }
{
    let _parts = map.parts();
    let mut found = Vec::new(alloc);
    for position in 0..map.count() {
        let id = map.node(position).id;
        if is_border_at(map, grid, position) {
            push(&mut found, id)?;
        }
    }
    Ok(Ids::from_vec(found))
}

/// Makes the leaves of all pairs of border nodes. More than 2,048 of these are refused before any search.
pub fn table_of(alloc: Global, map: &Map, borders: &Ids) -> Result<PairLeaves, PlanError>
    requires known { (id : ℕ) → Contains borders.now id → Knows map.now.parts id }
    requires counted { length borders.now ≤ 65536 }
    ensures leaves { IfOk result (λ leaves.
        leaves ≡ pairs_of (distance map.now.parts) borders.now) }
    ensures few { OnOk result (length borders.now ≤ 2048) }
    ensures refused { IfErr result
        (λ e. (e ≡ plan_error.Memory no_memory) ⊎
        ((e ≡ plan_error.TooManyBorders (length borders.now)) × (2048 < length borders.now))) }
{
    let ids = borders.as_slice();
    match pair_leaves(alloc, map, ids) {
        Ok(pairs) => Ok(pairs),
        Err(PairError::TooMany) => Err(PlanError::TooManyBorders(ids.len() as u32)),
        Err(PairError::Memory(none)) => Err(PlanError::Memory(none)),
    }
}
