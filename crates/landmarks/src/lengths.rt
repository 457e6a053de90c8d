//! Lengths from landmarks to all nodes.

ghost use Rattle.std.specs.Prelude.{◌≡◌, ℕ, Option, None, IfOk, map, length};
ghost use Rattle.road_map.specs.Least.{lesser};
ghost use Rattle.road_map.specs.Walks.{Knows, distance, ids};
ghost use Rattle.road_map.specs.Places.{AreRising};
ghost use Rattle.book_model.specs.Orders.{by_id};
ghost use Rattle.book_model.specs.Landmarks.{greatest_of};
ghost use Rattle.landmarks.specs.Rows.{row_of, lessers, Gives};

use book_model::book_laws;
use octet_text::{NoMemory, push};
use road_map::Map;
use road_search::{Survey, rising_ids};
use std::alloc::Global;
use std::marker::Model;

/// Lengths of walks to some nodes, in the order of the nodes. `None` means that no walk leads to the node.
#[derive(Drop)]
pub struct Lengths {
    items: Vec<Option<u64>>,
}

impl Model for Lengths {
    ghost use Rattle.std.specs.Prelude.{List, Option, ℕ};

    ghost Value = { List (Option ℕ) };

    ghost view = { λ l. l.items.items };
}

impl Lengths {
    /// Returns the lengths.
    pub fn as_slice(&self) -> &[Option<u64>]
        ensures { result.now ≡ self.now }
    {
        &self.items
    }
}

/// Returns the ids of a map's nodes in ascending order.
pub fn ids_of(alloc: Global, map: &Map) -> Result<Vec<u32>, NoMemory>
    ensures ids { IfOk result (λ ids. ids.items ≡ by_id map.now.parts.nodes) }
    ensures rise { IfOk result (λ ids. AreRising ids.items) }
{
    book_laws();
    let _parts = map.parts();
    let ids = rising_ids(alloc, map)?;
    Ok(ids)
}

/// Makes a list of lengths in which no walk leads to any of these nodes.
pub fn no_lengths(alloc: Global, ids: &[u32]) -> Result<Lengths, NoMemory>
    ensures { IfOk result (λ lengths. lengths ≡ map (λ _. None) ids.now) }
{
    let mut items = Vec::new(alloc);
    for _id in ids {
        push(&mut items, None)?;
    }
    Ok(Lengths { items })
}

/// Returns the lengths from a survey's start to all nodes, by ascending id.
fn lengths_of(alloc: Global, survey: &Survey<'_>, count: u32) -> Result<Lengths, NoMemory>
    requires { length survey.now.map.order ≡ count }
    ensures { IfOk result (λ lengths. (f : ℕ → Option ℕ) → Gives survey.now f →
        lengths ≡ map f (ids survey.now.map.order)) }
{
    let mut items = Vec::new(alloc);
    for position in 0..count {
        push(&mut items, survey.length(position))?;
    }
    Ok(Lengths { items })
}

/// Returns the distances from a node to all nodes, by ascending id.
pub fn lengths_from(
    alloc: Global,
    map: &Map,
    survey: &mut Survey<'_>,
    from: u32,
) -> Result<Lengths, NoMemory>
    requires known { Knows map.now.parts from }
    requires same { survey.old.map ≡ map.now }
    ensures same { survey.new.map ≡ map.now }
    ensures row { IfOk result (λ lengths.
        lengths ≡ row_of (distance map.now.parts) (by_id map.now.parts.nodes) from) }
{
    book_laws();
    let _parts = map.parts();
    survey.measure(alloc, map.place(from))?;
    lengths_of(alloc, survey, map.count())
}

/// Returns the lesser of two lengths. `None` counts as longer than any length.
fn lesser_of(a: Option<u64>, b: Option<u64>) -> Option<u64>
    ensures { result ≡ lesser a b }
{
    match (a, b) {
        (None, other) => other,
        (some, None) => some,
        (Some(m), Some(n)) => Some(m.min(n)),
    }
}

/// Returns the lesser of two lengths for each node.
pub fn nearer(
    alloc: Global,
    near: &[Option<u64>],
    other: &[Option<u64>],
) -> Result<Lengths, NoMemory>
    requires { length near.now ≡ length other.now }
    ensures { IfOk result (λ lengths. lengths ≡ lessers near.now other.now) }
{
    let mut items = Vec::new(alloc);
    for (i, length) in near.iter().enumerate() {
        push(&mut items, lesser_of(*length, other[i]))?;
    }
    Ok(Lengths { items })
}

/// Returns the greatest of some lengths, or 0 if there are none.
pub fn greatest_in(lengths: &[Option<u64>]) -> u64
    ensures { result ≡ greatest_of lengths.now }
{
    let mut most = 0;
    for length in lengths {
        most = most.max(length.unwrap_or(0));
    }
    most
}
