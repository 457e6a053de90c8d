//! Picking landmarks.

ghost use Rattle.std.specs.Prelude.{◌≡◌, ◌↔◌, ℕ, ◌≤◌, ◌<◌, ◌⊎◌, Option, IfOk, OnOk, IfSome, IsSomeAnd, Err, map, Contains, length, ◌++◌};
ghost use Rattle.std.specs.Option.{option_map, option_to_list};
ghost use Rattle.road_map.specs.Walks.{distance};
ghost use Rattle.book_model.specs.Orders.{by_id};
ghost use Rattle.book_model.specs.Landmarks.{picked, nearest, is_farther, considered, farthest};
ghost use Rattle.book_model.specs.Books.{landmarks};
ghost use Rattle.landmarks.specs.Rows.{rows_of, nearest_row};
ghost use Rattle.landmarks.specs.declared.picking.PickError.TheVariants as pick_error;

use crate::laws::landmark_laws;
use crate::lengths::{Lengths, ids_of, lengths_from, nearer, no_lengths};
use octet_text::{NoMemory, push};
use road_map::Map;
use road_search::Survey;
use std::alloc::Global;
use thiserror::Error;

/// Why no landmarks were picked.
#[derive(Clone, Copy, Debug, PartialEq, Eq, Error)]
pub enum PickError {
    /// The count is 0, above 64, or above the number of nodes.
    #[error("There cannot be so many landmarks.")]
    Count,
    /// Out of memory.
    #[error("Out of memory.")]
    Memory(NoMemory),
}

impl From<NoMemory> for PickError {
    ghost from_gives = { λ none e. e ≡ pick_error.Memory none };

    fn from(none: NoMemory) -> PickError {
        PickError::Memory(none)
    }
}

/// Tests whether the second length is longer than the first. `None` counts as longest.
fn is_farther(a: Option<u64>, b: Option<u64>) -> bool
    ensures { result ≡ is_farther a b }
{
    match (a, b) {
        (None, _) => false,
        (Some(_), None) => true,
        (Some(d), Some(e)) => d < e,
    }
}

/// Returns the farthest node so far, with its length, after considering one more node. Skips the node if it is
/// chosen.
fn consider(
    best: Option<(u32, Option<u64>)>,
    chosen: &[u32],
    id: u32,
    near: Option<u64>,
) -> Option<(u32, Option<u64>)>
    ensures best { (f : ℕ → Option ℕ) (b : Option ℕ) → best ≡ option_map (λ u. (u, f u)) b →
        near ≡ f id → result ≡ option_map (λ u. (u, f u)) (considered f chosen.now b id) }
    ensures known { IfSome result (λ r. (r.0 ≡ id) ⊎ IsSomeAnd best (λ b. r.0 ≡ b.0)) }
{
    if let Some((_, length)) = best {
        if !is_farther(length, near) {
            return best;
        }
    }
    if chosen.contains(&id) {
        return best;
    }
    Some((id, near))
}

/// Returns the first of the ids that is farthest among those not chosen, if any is left.
fn next(ids: &[u32], near: &[Option<u64>], chosen: &[u32]) -> Option<u32>
    requires { length near.now ≡ length ids.now }
    ensures farthest { (f : ℕ → Option ℕ) → near.now ≡ map f ids.now →
        result ≡ farthest f chosen.now ids.now }
    ensures known { IfSome result (Contains ids.now) }
{
    let mut best = None;
    for (i, id) in ids.iter().enumerate() {
        best = consider(best, chosen, *id, near[i]);
    }
    best.map(|b| b.0)
}

/// The landmarks picked so far, with lengths to all nodes by ascending id.
#[derive(Drop)]
pub struct Picked {
    /// The landmarks, in the order in which they were picked.
    pub chosen: Vec<u32>,
    /// The distances from each landmark.
    pub rows: Vec<Lengths>,
    /// The distances from the nearest landmark.
    near: Lengths,
}

/// Picks one more landmark.
fn pick_next(
    alloc: Global,
    map: &Map,
    survey: &mut Survey<'_>,
    ids: &[u32],
    picked: &mut Picked,
) -> Result<(), NoMemory>
    requires same { survey.old.map ≡ map.now }
    requires ids { ids.now ≡ by_id map.now.parts.nodes }
    requires near { picked.old.near ≡ nearest_row
        (distance map.now.parts) ids.now picked.old.chosen.items }
    requires rows { picked.old.rows.items ≡ rows_of
        (distance map.now.parts) ids.now picked.old.chosen.items }
    ensures same { survey.new.map ≡ map.now }
    ensures chosen { OnOk result (picked.new.chosen.items ≡ picked.old.chosen.items ++
        option_to_list (farthest (nearest (distance map.now.parts) picked.old.chosen.items)
        picked.old.chosen.items ids.now)) }
    ensures near { OnOk result (picked.new.near ≡ nearest_row
        (distance map.now.parts) ids.now picked.new.chosen.items) }
    ensures rows { OnOk result (picked.new.rows.items ≡ rows_of
        (distance map.now.parts) ids.now picked.new.chosen.items) }
{
    let Some(id) = next(ids, picked.near.as_slice(), &picked.chosen) else {
        return Ok(());
    };
    let row = lengths_from(alloc, map, survey, id)?;
    picked.near = nearer(alloc, picked.near.as_slice(), row.as_slice())?;
    push(&mut picked.chosen, id)?;
    push(&mut picked.rows, row)?;
    Ok(())
}

/// Picks `count` landmarks, or all nodes if the map has fewer. Runs one search over the whole map for each
/// landmark. All searches use the same memory.
pub fn picks(alloc: Global, map: &Map, ids: &[u32], count: u32) -> Result<Picked, NoMemory>
    requires ids { ids.now ≡ by_id map.now.parts.nodes }
    ensures chosen { IfOk result (λ picked. picked.chosen.items ≡ landmarks map.now.parts count) }
    ensures rows { IfOk result (λ picked.
        picked.rows.items ≡ rows_of (distance map.now.parts) ids.now
        (landmarks map.now.parts count)) }
{
    let mut survey = Survey::of(alloc, map);
    let mut picked = Picked {
        chosen: Vec::new(alloc),
        rows: Vec::new(alloc),
        near: no_lengths(alloc, ids)?,
    };
    for _k in 0..count {
        pick_next(alloc, map, &mut survey, ids, &mut picked)?;
    }
    Ok(picked)
}

/// Picks `count` landmarks: first the node with the least id, then each time the node farthest from all landmarks
/// so far. A node that no walk reaches counts as farthest of all. A tie goes to the least id.
///
/// Fails with `Count` exactly if the count is 0, above 64, or above the number of nodes. This does not depend on
/// the available memory.
pub fn pick(alloc: Global, map: &Map, count: u32) -> Result<Vec<u32>, PickError>
    ensures picked { IfOk result (λ chosen. chosen.items ≡ landmarks map.now.parts count) }
    ensures count { IfOk result (λ chosen. length chosen.items ≡ count) }
    ensures good { OnOk result ((0 < count) × (count ≤ 64) × (count ≤ length map.now.parts.nodes)) }
    ensures refused { (result ≡ Err PickError.Count) ↔ ((count ≡ 0) ⊎ (64 < count) ⊎
        (length map.now.parts.nodes < count)) }
{
    landmark_laws();
    let nodes = map.parts().nodes.as_slice().len();
    if count == 0 || count > 64 || count as usize > nodes {
        return Err(PickError::Count);
    }
    let ids = ids_of(alloc, map)?;
    let picked = picks(alloc, map, &ids, count)?;
    let Picked { chosen, .. } = picked;
    Ok(chosen)
}
