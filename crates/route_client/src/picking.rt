//! The listed nodes among those within a radius, nearest first.
ghost use Rattle.std.specs.Prelude.{◌≡◌, ℕ, nat_eq, Contains, IfOk, IsPermutation};
ghost use Rattle.std.specs.List.{filter, list_any};
ghost use Rattle.std.specs.List.Sorted.{IsNonDecreasing, IsSorted, IsStrictlySortedBy};
ghost use Rattle.std.specs.Ordering.{nat_cmp};
ghost use Rattle.proof_octets.specs.Radius.{marked_ids};
ghost use Rattle.route_client.specs.Nearest.{PicksNearest, nearer_cmp};

use octet_text::{NoMemory, copied, push};
use proof_octets::{Mark, Marks};
use std::alloc::Global;

/// The listed nodes among those within a radius.
#[derive(Debug, Drop)]
pub struct Picked {
    /// The nearest of them, by ascending distance and then by ascending id.
    pub nodes: Marks,
    /// The number of all listed nodes within the radius.
    pub count: usize,
}

// Returns ids in ascending order. Repeated ids are kept.
fn sorted_ids(alloc: Global, ids: &[u32]) -> Result<Vec<u32>, NoMemory>
    ensures sorted { IfOk result (λ sorted. IsNonDecreasing sorted.items) }
    ensures same { IfOk result (λ sorted. IsPermutation ids.now sorted.items) }
{
    let mut sorted = copied(alloc, ids)?;
    sorted.sort_unstable();
    Ok(sorted)
}

// Tests whether ascending ids include an id.
fn is_listed(ids: &[u32], id: u32) -> bool
    requires { IsNonDecreasing ids.now }
    ensures { result ≡ list_any (nat_eq id) ids.now }
{
    ids.binary_search(&id).is_ok()
}

// Returns the marks whose ids are listed, in the order of the marks.
fn listed(alloc: Global, marks: &[Mark], ids: &[u32]) -> Result<Vec<Mark>, NoMemory>
    requires { IsNonDecreasing ids.now }
    ensures { IfOk result (λ found.
        found.items ≡ filter (λ m. list_any (nat_eq m.id) ids.now) marks.now) }
{
    let mut found = Vec::new(alloc);
    for mark in marks {
        if is_listed(ids, mark.id) {
            push(&mut found, *mark)?;
        }
    }
    Ok(found)
}

// Sorts marks, nearest first.
fn rank(mut marks: Vec<Mark>) -> Vec<Mark>
    ensures same { IsPermutation marks.items result.items }
    ensures sorted { IsSorted nearer_cmp result.items }
{
    marks.sort_unstable_by_key(|mark| (mark.distance, mark.id));
    marks
}

/// Picks the listed ids from the nodes within a radius. The nodes must come from an accepted reply, in its order.
/// Returns the number of listed nodes and the nearest of them: the first `most` by ascending distance and then by
/// ascending id.
///
/// The ids may be in any order. An id that is listed twice counts once. A listed id may be missing from the nodes
/// for one of three reasons: it is farther than the radius, no walk joins it to the start, or it is not a node. The
/// reply does not tell which.
pub fn nearest(alloc: Global, within: &[Mark], ids: &[u32], most: usize) -> Result<Picked, NoMemory>
    requires { IsStrictlySortedBy nat_cmp (marked_ids within.now) }
    ensures { IfOk result (PicksNearest (λ m. Contains within.now m) ids.now most) }
{
    let ids = sorted_ids(alloc, ids)?;
    let found = listed(alloc, within, &ids)?;
    let mut nodes = rank(found);
    let count = nodes.len();
    nodes.truncate(most);
    Ok(Picked {
        nodes: Marks::from_vec(nodes),
        count,
    })
}
