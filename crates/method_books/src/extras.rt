//! The contents of leaves about codes, by id.

ghost use Rattle.std.specs.Prelude.{◌≡◌, ℕ, nat_eq, IfOk, IsTrue, is_some, map, length, slice_get};
ghost use Rattle.std.specs.Map.{lookup, keys_of};
ghost use Rattle.std.specs.Option.{option_copied, option_map};
ghost use Rattle.std.specs.List.{IsDistinct, list_any};
ghost use Rattle.std.specs.List.Sorted.{IsNonDecreasingBy};
ghost use Rattle.road_map.specs.Places.{StandsAt};
ghost use Rattle.method_books.specs.LdmBooks.{extra_in};

use octet_text::{NoMemory, collected, push, room_for};
use road_leaf::Extra;
use road_map::RisingIds;
use std::alloc::Global;
use std::marker::Model;

/// For each node, the contents of its leaf about codes, by ascending id.
#[derive(Drop)]
pub struct Extras {
    ids: RisingIds,
    entries: Vec<(u32, Extra)>,
}

impl Model for Extras {
    ghost use Rattle.method_books.specs.LdmBooks.{ById, IsById};

    ghost Value = { ById };

    ghost view = { λ e. record { entries = e.entries.items } };

    ghost invariant = { λ e. IsById e.ids e.entries.items };
}

impl Extras {
    /// Sorts the contents of leaves by id. They come in the order of the leaves.
    pub fn new(alloc: Global, order: &[u32], extras: Vec<Extra>) -> Result<Extras, NoMemory>
        requires long { length extras.items ≡ length order.now }
        requires distinct { IsDistinct nat_eq order.now }
        ensures adds { IfOk result (λ by_id. map (extra_in by_id.entries) order.now ≡ extras.items) }
        ensures covers { IfOk result (λ by_id. (id : ℕ) →
            is_some (lookup (nat_eq id) by_id.entries) ≡ list_any (nat_eq id) order.now) }
    {
        let entries = sorted(alloc, order, extras)?;
        let rising = ids_of(alloc, entries.as_slice())?;
        let ids = RisingIds::new(alloc, rising)?;
        Ok(Extras { ids, entries })
    }

    /// Returns the contents of an id's leaf about codes, if a node has the id.
    pub fn get(&self, id: u32) -> Option<&Extra>
        ensures { option_copied result ≡ lookup (nat_eq id) self.now.entries }
    {
        match self.ids.place(id) {
            None => None,
            Some(place) => extra_at(self.entries.as_slice(), place),
        }
    }

    /// Returns the same, but first looks at the position at which the id should be.
    pub fn get_from(&self, place: usize, id: u32) -> Option<&Extra>
        ensures { option_copied result ≡ lookup (nat_eq id) self.now.entries }
    {
        if stands_at(self.entries.as_slice(), place, id) {
            extra_at(self.entries.as_slice(), place)
        } else {
            self.get(id)
        }
    }
}

/// Tests whether the entry of an id is at a position.
fn stands_at(entries: &[(u32, Extra)], place: usize, id: u32) -> bool
    ensures { IsTrue result → StandsAt (λ e. e.0) entries.now id place }
{
    match entries.get(place) {
        None => false,
        Some(entry) => entry.0 == id,
    }
}

/// Returns the contents of the entry at an index.
fn extra_at(entries: &[(u32, Extra)], place: usize) -> Option<&Extra>
    ensures { option_copied result ≡ option_map (λ e. e.1) (slice_get entries.now place) }
{
    match entries.get(place) {
        None => None,
        Some(entry) => Some(&entry.1),
    }
}

/// Returns the contents of leaves about codes, each with the id of its leaf, in no particular order.
fn with_ids(alloc: Global, order: &[u32], extras: Vec<Extra>) -> Result<Vec<(u32, Extra)>, NoMemory>
    requires long { length extras.items ≡ length order.now }
    requires distinct { IsDistinct nat_eq order.now }
    ensures distinct { IfOk result (λ entries. IsDistinct nat_eq (keys_of entries.items)) }
    ensures adds { IfOk result (λ entries. map (extra_in entries.items) order.now ≡ extras.items) }
    ensures covers { IfOk result (λ entries. (id : ℕ) →
        is_some (lookup (nat_eq id) entries.items) ≡ list_any (nat_eq id) order.now) }
{
    let mut entries = room_for(alloc, &extras)?;
    let mut extras = extras;
    while let Some(extra) = extras.pop() {
        push(&mut entries, (order[extras.len()], extra))?;
    }
    Ok(entries)
}

/// Returns the same by ascending id.
fn sorted(alloc: Global, order: &[u32], extras: Vec<Extra>) -> Result<Vec<(u32, Extra)>, NoMemory>
    requires long { length extras.items ≡ length order.now }
    requires distinct { IsDistinct nat_eq order.now }
    ensures distinct { IfOk result (λ entries. IsDistinct nat_eq (keys_of entries.items)) }
    ensures sorted { IfOk result (λ entries. IsNonDecreasingBy (λ e. e.0) entries.items) }
    ensures adds { IfOk result (λ entries. map (extra_in entries.items) order.now ≡ extras.items) }
    ensures covers { IfOk result (λ entries. (id : ℕ) →
        is_some (lookup (nat_eq id) entries.items) ≡ list_any (nat_eq id) order.now) }
{
    let mut entries = with_ids(alloc, order, extras)?;
    entries.sort_unstable_by_key(|entry| entry.0);
    Ok(entries)
}

/// Returns the ids of entries, in the same order.
fn ids_of(alloc: Global, entries: &[(u32, Extra)]) -> Result<Vec<u32>, NoMemory>
    ensures { IfOk result (λ ids. ids.items ≡ keys_of entries.now) }
{
    collected(alloc, entries.iter().map(|entry| entry.0))
}
