//! Arcs that two other arcs make redundant.

ghost use Rattle.std.specs.Prelude.{◌≡◌, ◌<◌, ◌+◌, ◌⊎◌, ℕ, true, Some, IfOk, OnOk, [], ◌∷◌, ◌++◌, Contains, slice_get};
ghost use Rattle.road_map.specs.declared.arc.Arc.{Arc};
ghost use Rattle.pair_dist.specs.Chains.{too_long};
ghost use Rattle.pair_dist.specs.Thinning.{AreSteps, IsNeedless, IsThinned, Agrees};

use crate::chain::Chain;
use octet_text::{NoMemory, filled, push, room_for};
use road_map::{Arc, Arcs};
use std::alloc::Global;

/// If both arcs are longer than 0, lowers the length at the end of the second one to their sum.
fn lower(lengths: &mut Vec<u64>, first: Arc, second: Arc)
    ensures { (j v : ℕ) → slice_get lengths.new.items j ≡ Some v →
        (slice_get lengths.old.items j ≡ Some v) ⊎ ((second.to ≡ j) × (0 < first.length) ×
        (0 < second.length) × (v ≡ first.length + second.length)) }
{
    let to = second.to as usize;
    if first.length == 0 || second.length == 0 || to >= lengths.len() {
        return;
    }
    let length = u64::from(first.length) + u64::from(second.length);
    if length < lengths[to] {
        lengths[to] = length;
    }
}

/// Lowers the lengths at the ends of two arcs: `first`, and then any of `out`.
fn lower_each(lengths: &mut Vec<u64>, first: Arc, out: &[Arc])
    ensures { (j v : ℕ) → slice_get lengths.new.items j ≡ Some v →
        (slice_get lengths.old.items j ≡ Some v) ⊎ ((a : Arc) × Contains out.now a × (a.to ≡ j) ×
        (0 < first.length) × (0 < a.length) × (v ≡ first.length + a.length)) }
{
    for second in out {
        lower(lengths, first, *second);
    }
}

/// Lowers the lengths at the ends of an arc of a row followed by one more arc.
fn lower_beyond(lengths: &mut Vec<u64>, rows: &[Arcs], row: &[Arc], first: Arc)
    requires among { Contains row.now first }
    requires steps { AreSteps rows.now row.now lengths.old.items }
    ensures { AreSteps rows.now row.now lengths.new.items }
{
    if let Some(out) = rows.get(first.to as usize) {
        lower_each(lengths, first, out.as_slice());
    }
}

/// Returns, for each number, the least length of two arcs that lead to it: one arc of a row, and one from this
/// arc's end. The length is the greatest number if there are no such arcs.
fn lengths_beyond(alloc: Global, rows: &[Arcs], row: &[Arc]) -> Result<Vec<u64>, NoMemory>
    ensures { IfOk result (λ lengths. AreSteps rows.now row.now lengths.items) }
{
    let mut lengths = filled(alloc, u64::MAX, rows.len())?;
    for first in row {
        lower_beyond(&mut lengths, rows, row, *first);
    }
    Ok(lengths)
}

/// Tests whether two other arcs lead to the end of this one and are together not longer.
fn is_needless(lengths: &[u64], arc: Arc) -> bool
    ensures { result ≡ true → IsNeedless lengths.now arc }
{
    match lengths.get(arc.to as usize) {
        None => false,
        Some(length) => *length <= u64::from(arc.length),
    }
}

/// Appends an arc, unless it is redundant.
fn put_needed(thin: &mut Vec<Arc>, lengths: &[u64], arc: Arc) -> Result<(), NoMemory>
    ensures { OnOk result ((thin.new.items ≡ thin.old.items ++ arc ∷ []) ⊎
        ((thin.new.items ≡ thin.old.items) × IsNeedless lengths.now arc)) }
{
    if !is_needless(lengths, arc) {
        push(thin, arc)?;
    }
    Ok(())
}

/// Returns the arcs of a row that are not redundant.
fn needed(alloc: Global, row: &[Arc], lengths: &[u64]) -> Result<Arcs, NoMemory>
    ensures among { IfOk result (λ thin. (a : Arc) → Contains thin a → Contains row.now a) }
    ensures rest { IfOk result (λ thin. (a : Arc) → Contains row.now a → Contains thin a ⊎
        IsNeedless lengths.now a) }
{
    let mut thin = room_for(alloc, row)?;
    for arc in row {
        put_needed(&mut thin, lengths, *arc)?;
    }
    Ok(Arcs::from_vec(thin))
}

/// Returns the row at a number without the arcs that two others replace without being longer.
fn thin_row(alloc: Global, rows: &[Arcs], row: &[Arc]) -> Result<Arcs, NoMemory>
    ensures { IfOk result (IsThinned rows.now row.now) }
{
    let lengths = lengths_beyond(alloc, rows, row)?;
    let thin = needed(alloc, row, lengths.as_slice())?;
    Ok(thin)
}

/// Removes the arcs of a chain that two others, each longer than 0, make redundant. Works row by row, over the rows
/// that are already thinned and those that are not yet.
pub fn thinned(alloc: Global, chain: Chain) -> Result<Chain, NoMemory>
    ensures { IfOk result (Agrees chain) }
{
    let Chain { mut rows } = chain;
    for number in 0..rows.len() {
        let thin = thin_row(alloc, rows.as_slice(), rows[number].as_slice())?;
        rows[number] = thin;
    }
    Ok(Chain { rows })
}
