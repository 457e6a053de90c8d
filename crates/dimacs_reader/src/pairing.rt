//! Pairing arcs: each arc between two nodes needs a reverse arc of its own.

ghost use Rattle.std.specs.Prelude.{◌≡◌, ◌+◌, ◌-◌, ◌^◌, ◌<◌, ◌⊎◌, ℕ, nat_lt, true, None, Some, IfOk, IfErr, OnOk, IsPermutation, length, count_by, get_or, set};
ghost use Rattle.octet_text.specs.Want.{no_memory};
ghost use Rattle.dimacs_reader.specs.declared.arc.Arc.{Arc};
ghost use Rattle.dimacs_reader.specs.Dimacs.{is_arc, first_unpaired, road_of, roads_of};
ghost use Rattle.dimacs_reader.specs.Left.{AreSorted, precedes, place_in, left_of, has_back, TakesBack};

use crate::arc::Arc;
use crate::error::DimacsError;
use octet_text::{NoMemory, copied, filled, push};
use road_map::Road;
use std::alloc::Global;

/// Returns the arcs sorted by their ends and lengths.
fn sorted_arcs(alloc: Global, arcs: &[Arc]) -> Result<Vec<Arc>, NoMemory>
    ensures sorted { IfOk result (λ sorted. AreSorted sorted.items) }
    ensures same { IfOk result (λ sorted. IsPermutation arcs.now sorted.items) }
{
    let mut sorted = copied(alloc, arcs)?;
    sorted.sort_unstable_by_key(|arc| (arc.from, arc.to, arc.length));
    Ok(sorted)
}

/// Tests whether one arc sorts before another one.
fn precedes(other: &Arc, arc: Arc) -> bool
    ensures { result ≡ precedes arc other.now }
{
    other.from < arc.from
        || (other.from == arc.from
            && (other.to < arc.to || (other.to == arc.to && other.length < arc.length)))
}

/// Tests whether two arcs are equal.
fn is_arc(arc: Arc, other: Arc) -> bool
    ensures { result ≡ is_arc arc other }
{
    arc.from == other.from && arc.to == other.to && arc.length == other.length
}

/// Returns the first index of an arc among sorted arcs, if it is there.
fn place_in(sorted: &[Arc], arc: Arc) -> Option<usize>
    requires { AreSorted sorted.now }
    ensures { result ≡ place_in sorted.now arc }
{
    let place = sorted.partition_point(|other| precedes(other, arc));
    match sorted.get(place) {
        None => None,
        Some(other) => {
            if is_arc(arc, *other) {
                Some(place)
            } else {
                None
            }
        }
    }
}

/// Returns as many zeros as there are arcs.
fn zeros(alloc: Global, arcs: &[Arc]) -> Result<Vec<u32>, NoMemory>
    ensures long { IfOk result (λ left. length left.items ≡ length arcs.now) }
    ensures zero { IfOk result (λ left. (k : ℕ) → get_or left.items k 0 ≡ 0) }
{
    filled(alloc, 0, arcs.len())
}

/// Adds one at an index.
fn add_one(left: &mut Vec<u32>, place: usize)
    requires within { place < length left.old.items }
    requires room { get_or left.old.items place 0 + 1 < 2 ^ 32 }
    ensures { left.new.items ≡ set left.old.items place (get_or left.old.items place 0 + 1) }
{
    left[place] += 1;
}

/// Returns the counts of equal arcs among sorted arcs, each at the first index of its arc.
fn count_arcs(alloc: Global, sorted: &[Arc]) -> Result<Vec<u32>, NoMemory>
    requires few { length sorted.now < 2 ^ 32 }
    requires sorted { AreSorted sorted.now }
    ensures long { IfOk result (λ left. length left.items ≡ length sorted.now) }
    ensures counts { IfOk result (λ left. (arc : Arc) →
        left_of sorted.now left.items arc ≡ count_by (is_arc arc) sorted.now) }
{
    let mut left = zeros(alloc, sorted)?;
    for arc in sorted {
        let place = place_in(sorted, *arc).unwrap();
        add_one(&mut left, place);
    }
    Ok(left)
}

/// Subtracts one at an index, and returns whether any was left.
fn take_one(left: &mut Vec<u32>, place: usize) -> bool
    requires { place < length left.old.items }
    ensures some { result ≡ nat_lt 0 (get_or left.old.items place 0) }
    ensures long { length left.new.items ≡ length left.old.items }
    ensures less { result ≡ true →
        left.new.items ≡ set left.old.items place (get_or left.old.items place 0 - 1) }
{
    if left[place] == 0 {
        return false;
    }
    left[place] -= 1;
    true
}

/// Takes the reverse of an arc, and returns whether one was left. An arc from a node to itself needs no reverse
/// arc.
fn take_back(sorted: &[Arc], left: &mut Vec<u32>, arc: Arc) -> bool
    requires sorted { AreSorted sorted.now }
    requires long { length left.old.items ≡ length sorted.now }
    ensures long { length left.new.items ≡ length sorted.now }
    ensures paired { result ≡ has_back (left_of sorted.now left.old.items) arc }
    ensures left { result ≡ true →
        TakesBack (left_of sorted.now left.old.items) (left_of sorted.now left.new.items) arc }
{
    if arc.from == arc.to {
        return true;
    }
    let back = Arc {
        from: arc.to,
        to: arc.from,
        length: arc.length,
    };
    match place_in(sorted, back) {
        None => false,
        Some(place) => take_one(left, place),
    }
}

/// Returns the first index of an arc between two nodes for which there is no reverse arc left. `left` has the
/// counts of all arcs.
fn find_unpaired(sorted: &[Arc], left: Vec<u32>, arcs: &[Arc]) -> Option<u32>
    requires few { length arcs.now < 2 ^ 32 }
    requires sorted { AreSorted sorted.now }
    requires long { length left.items ≡ length sorted.now }
    requires counts { (arc : Arc) →
        left_of sorted.now left.items arc ≡ count_by (is_arc arc) arcs.now }
    ensures { result ≡ first_unpaired arcs.now }
{
    let mut left = left;
    for (index, arc) in arcs.iter().enumerate() {
        if !take_back(sorted, &mut left, *arc) {
            return Some(index as u32);
        }
    }
    None
}

/// Fails with `Unpaired` if an arc between two nodes has no reverse arc of its own.
pub fn check_pairs(alloc: Global, arcs: &[Arc]) -> Result<(), DimacsError>
    requires { length arcs.now < 2 ^ 32 }
    ensures paired { OnOk result (first_unpaired arcs.now ≡ None) }
    ensures fault { IfErr result (λ fault. (fault ≡ DimacsError.Memory no_memory)
        ⊎ ((index : ℕ) × (fault ≡ DimacsError.Unpaired index) ×
        (first_unpaired arcs.now ≡ Some index))) }
{
    let sorted = sorted_arcs(alloc, arcs)?;
    let left = count_arcs(alloc, &sorted)?;
    match find_unpaired(&sorted, left, arcs) {
        None => Ok(()),
        Some(index) => Err(DimacsError::Unpaired(index)),
    }
}

/// Returns a road for each arc that leads from a lesser to a greater id.
pub fn roads(alloc: Global, arcs: &[Arc]) -> Result<Vec<Road>, NoMemory>
    ensures { IfOk result (λ roads. roads.items ≡ roads_of arcs.now) }
{
    let mut roads = Vec::new(alloc);
    for arc in arcs {
        if arc.from < arc.to {
            push(&mut roads, road(*arc))?;
        }
    }
    Ok(roads)
}

fn road(arc: Arc) -> Road
    ensures { result ≡ road_of arc }
{
    Road {
        a: arc.from,
        b: arc.to,
        length: arc.length,
    }
}
