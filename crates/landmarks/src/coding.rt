//! Codes of distances.

ghost use Rattle.std.specs.Prelude.{◌≡◌, ◌↔◌, ℕ, ◌^◌, ◌/◌, ◌<◌, ◌≤◌, ◌⊎◌, Option, Some, List, Err, IfOk, OnOk, IfSome, Contains, map, length, nat_eq, slice_get};
ghost use Rattle.std.specs.Map.{lookup};
ghost use Rattle.road_map.specs.Walks.{Knows, distance};
ghost use Rattle.road_map.specs.Places.{AreRising};
ghost use Rattle.book_model.specs.Orders.{by_id};
ghost use Rattle.book_model.specs.Landmarks.{no_code, step_of, code_of, codes_of};
ghost use Rattle.book_model.specs.Books.{landmarks};
ghost use Rattle.landmarks.specs.Rows.{rows_of, row_of, greatest_row, code_in, IsCodable, AreCodable, AreShort};
ghost use Rattle.landmarks.specs.Tables.{Codes as AreCodes, IsTable};
ghost use Rattle.landmarks.specs.declared.coding.CodeError.TheVariants as code_error;

use crate::lengths::{Lengths, greatest_in, ids_of, lengths_from};
use crate::picking::picks;
use crate::table::{CodeTable, NO_CODE};
use octet_text::{NoMemory, push, room_for};
use road_leaf::Codes;
use road_map::{Map, map_laws};
use road_search::Survey;
use std::alloc::Global;
use thiserror::Error;

/// Why codes could not be made.
#[derive(Clone, Copy, Debug, PartialEq, Eq, Error)]
pub enum CodeError {
    /// The number of bits of a code is not 1 to 16.
    #[error("A code cannot have so many bits.")]
    Bits,
    /// Out of memory.
    #[error("Out of memory.")]
    Memory(NoMemory),
}

impl From<NoMemory> for CodeError {
    ghost from_gives = { λ none e. e ≡ code_error.Memory none };

    fn from(none: NoMemory) -> CodeError {
        CodeError::Memory(none)
    }
}

/// Returns the greatest of all lengths in the rows, or 0 if there are none.
fn greatest_of_rows(rows: &[Lengths]) -> u64
    ensures { result ≡ greatest_row rows.now }
{
    let mut most = 0;
    for row in rows {
        most = most.max(greatest_in(row.as_slice()));
    }
    most
}

/// Returns the least step for which the codes of all lengths up to `most` fit in `bits` bits and leave one code
/// unused.
fn step_for(most: u64, bits: u8) -> u64
    requires most { most < 2 ^ 48 }
    requires low { 1 ≤ bits }
    requires high { bits ≤ 16 }
    ensures { result ≡ step_of most bits }
{
    let parts = (1u64 << bits) - 1;
    most / parts + 1
}

/// Returns the code of a length.
fn code_for(step: u64, length: Option<u64>) -> u16
    requires step { 0 < step }
    requires fits { IfSome length (λ d. d / step < no_code) }
    ensures { result ≡ code_of step length }
{
    match length {
        None => NO_CODE,
        Some(length) => (length / step) as u16,
    }
}

/// Returns the code of the length at an index.
fn code_at(step: u64, row: &[Option<u64>], place: usize) -> u16
    requires step { 0 < step }
    requires codable { IsCodable step place row.now }
    ensures { result ≡ code_in step place row.now }
{
    code_for(step, row[place])
}

/// Returns the codes for the node at an index, one from each row.
fn codes_at(alloc: Global, step: u64, rows: &[Lengths], place: usize) -> Result<Codes, NoMemory>
    requires step { 0 < step }
    requires codable { (k : ℕ) (row : List (Option ℕ)) → slice_get rows.now k ≡ Some row →
        IsCodable step place row }
    ensures { IfOk result (λ codes. codes ≡ map (code_in step place) rows.now) }
{
    let mut codes = room_for(alloc, rows)?;
    for row in rows {
        push(&mut codes, code_at(step, row.as_slice(), place))?;
    }
    Ok(Codes::from_vec(codes))
}

/// Returns the codes of all ids, in the order of the ids. Each row has the lengths from one landmark to all of
/// them.
fn coded(alloc: Global, step: u64, ids: &[u32], rows: &[Lengths]) -> Result<Vec<Codes>, NoMemory>
    requires step { 0 < step }
    requires codable { AreCodable step (length ids.now) rows.now }
    ensures { IfOk result (λ codes. (dist : ℕ → ℕ → Option ℕ) (chosen : List ℕ) →
        rows.now ≡ rows_of dist ids.now chosen →
        codes.items ≡ map (codes_of dist step chosen) ids.now) }
{
    let mut codes = room_for(alloc, ids)?;
    for place in 0..ids.len() {
        push(&mut codes, codes_at(alloc, step, rows, place)?)?;
    }
    Ok(codes)
}

/// Returns the table of the codes of ascending ids. Each row has the lengths from one landmark to all of them.
fn table_of(alloc: Global, ids: Vec<u32>, rows: &[Lengths], bits: u8) -> Result<CodeTable, NoMemory>
    requires low { 1 ≤ bits }
    requires high { bits ≤ 16 }
    requires rise { AreRising ids.items }
    requires short { AreShort (length ids.items) rows.now }
    ensures step { IfOk result (λ table. table.step ≡ step_of (greatest_row rows.now) bits) }
    ensures codes { IfOk result (λ table. (dist : ℕ → ℕ → Option ℕ) (chosen : List ℕ) →
        rows.now ≡ rows_of dist ids.items chosen →
        AreCodes dist table.step chosen ids.items (λ v. lookup (nat_eq v) table.entries)) }
{
    let step = step_for(greatest_of_rows(rows), bits);
    let codes = coded(alloc, step, ids.as_slice(), rows)?;
    let table = CodeTable::new(alloc, step, ids, codes)?;
    Ok(table)
}

/// Returns one row for each of the chosen nodes: the distances from it to all nodes, by ascending id. Runs one
/// search over the whole map for each row. All searches use the same memory.
fn rows_from(alloc: Global, map: &Map, chosen: &[u32]) -> Result<Vec<Lengths>, NoMemory>
    requires { (id : ℕ) → Contains chosen.now id → Knows map.now.parts id }
    ensures { IfOk result (λ rows.
        rows.items ≡ rows_of (distance map.now.parts) (by_id map.now.parts.nodes) chosen.now) }
{
    let mut survey = Survey::of(alloc, map);
    let mut rows = room_for(alloc, chosen)?;
    for id in chosen {
        push(&mut rows, lengths_from(alloc, map, &mut survey, *id)?)?;
    }
    Ok(rows)
}

/// Returns the codes of all nodes for these landmarks. A search from each landmark finds the distances.
///
/// Fails with `Bits` exactly if the number of bits is not 1 to 16. This does not depend on the available memory.
pub fn codes(alloc: Global, map: &Map, chosen: &[u32], bits: u8) -> Result<CodeTable, CodeError>
    requires { (id : ℕ) → Contains chosen.now id → Knows map.now.parts id }
    ensures table { IfOk result (IsTable map.now.parts chosen.now bits) }
    ensures good { OnOk result ((1 ≤ bits) × (bits ≤ 16)) }
    ensures refused { (result ≡ Err CodeError.Bits) ↔ ((bits ≡ 0) ⊎ (16 < bits)) }
{
    if bits == 0 || bits > 16 {
        return Err(CodeError::Bits);
    }
    map_laws();
    let _parts = map.parts();
    let ids = ids_of(alloc, map)?;
    let rows = rows_from(alloc, map, chosen)?;
    let table = table_of(alloc, ids, &rows, bits)?;
    Ok(table)
}

/// Returns the codes of all nodes for `count` landmarks that are chosen as in `pick`. If the map has fewer nodes,
/// every node is a landmark. One search from each landmark serves both to pick the next one and to find its codes.
pub fn landmark_codes(alloc: Global, map: &Map, count: u32, bits: u8) -> Result<CodeTable, NoMemory>
    requires low { 1 ≤ bits }
    requires high { bits ≤ 16 }
    ensures { IfOk result (IsTable map.now.parts (landmarks map.now.parts count) bits) }
{
    map_laws();
    let _parts = map.parts();
    let ids = ids_of(alloc, map)?;
    let picked = picks(alloc, map, &ids, count)?;
    let table = table_of(alloc, ids, &picked.rows, bits)?;
    Ok(table)
}
