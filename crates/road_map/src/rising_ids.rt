//! Look-up of an id in an ascending list of ids.

ghost use Rattle.std.specs.Prelude.{◌≡◌, [], IfOk, IfSome};
ghost use Rattle.road_map.specs.Places.{StandsAt, AreRising, place_in};

use crate::spans::Spans;
use octet_text::NoMemory;
use std::alloc::Global;
use std::marker::Model;

/// Ascending ids in buckets. A look-up compares only a few ids, however the ids are chosen.
#[derive(Drop)]
pub struct RisingIds {
    ids: Vec<u32>,
    spans: Spans,
}

impl Model for RisingIds {
    ghost use Rattle.std.specs.Prelude.{List, ℕ};
    ghost use Rattle.road_map.specs.Places.{AreRising};

    ghost Value = { List ℕ };

    ghost view = { λ r. r.ids.items };

    ghost invariant = { λ r. AreRising r.ids.items };
}

impl RisingIds {
    /// Makes an empty list.
    pub fn none(alloc: Global) -> RisingIds
        ensures { result ≡ [] }
    {
        RisingIds {
            ids: Vec::new(alloc),
            spans: Spans::none(alloc),
        }
    }

    /// Makes the look-up of these ascending ids.
    pub fn new(alloc: Global, ids: Vec<u32>) -> Result<RisingIds, NoMemory>
        requires { AreRising ids.items }
        ensures { IfOk result (λ rising. rising ≡ ids.items) }
    {
        let spans = Spans::of(alloc, ids.as_slice())?;
        Ok(RisingIds { ids, spans })
    }

    /// Returns the ids.
    pub fn as_slice(&self) -> &[u32]
        ensures { result.now ≡ self.now }
    {
        self.ids.as_slice()
    }

    /// Returns the index of an id, if the list has the id.
    pub fn place(&self, id: u32) -> Option<usize>
        ensures { result ≡ place_in self.now id }
    {
        match place_without_gaps(self.ids.as_slice(), id) {
            Some(place) => Some(place),
            None => self.place_by_span(id),
        }
    }

    /// Returns the index of an id: by its bucket, or else by binary search over all ids.
    fn place_by_span(&self, id: u32) -> Option<usize>
        ensures { result ≡ place_in self.now id }
    {
        match self.spans.place(self.ids.as_slice(), id) {
            Some(place) => Some(place),
            None => place_in(self.ids.as_slice(), id),
        }
    }
}

/// Finds the index of an id among ascending ids by binary search.
fn place_in(ids: &[u32], id: u32) -> Option<usize>
    requires { AreRising ids.now }
    ensures { result ≡ place_in ids.now id }
{
    match place_without_gaps(ids, id) {
        Some(place) => Some(place),
        None => ids.binary_search(&id).ok(),
    }
}

/// Returns the index that an id would have if no id were missing below it, if the id is at that index.
fn place_without_gaps(ids: &[u32], id: u32) -> Option<usize>
    ensures { IfSome result (StandsAt (λ id. id) ids.now id) }
{
    if ids.is_empty() {
        return None;
    }
    let place = id.wrapping_sub(ids[0]) as usize;
    if place < ids.len() && ids[place] == id {
        return Some(place);
    }
    None
}
