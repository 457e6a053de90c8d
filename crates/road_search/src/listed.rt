//! Marks of ids from a list, by their indices.

ghost use Rattle.std.specs.Prelude.{◌≡◌, ◌↔◌, ℕ, [], None, Some, IfOk, OnOk, OnErr, IsSome, IsTrue, Contains, nat_eq, if◌then◌else◌};
ghost use Rattle.std.specs.Option.{option_map};
ghost use Rattle.std.specs.List.{IsDistinct};
ghost use Rattle.road_search.specs.Marking.{mark_at};
ghost use Rattle.road_map.specs.Places.{AreRising};
ghost use Rattle.road_search.specs.Listing.{listed};
ghost use Rattle.road_search.specs.Nearness.{is_within};
ghost use Rattle.road_search.specs.Labelling.{length_in};

use crate::marks::{Mark, Marks};
use crate::nearby::{is_near, near_ids};
use crate::paged::Paged;
use octet_text::{NoMemory, extend, insert, push, shared};
use road_map::RisingIds;
use std::alloc::Global;
use std::collections::BTreeMap;
use std::marker::Model;
use std::rc::Rc;

/// Marks of any ids. The marks of ids from an ascending list, which may be shared, are stored by index. All other
/// marks are stored by id.
#[derive(Drop)]
pub struct Listed {
    ids: Rc<RisingIds>,
    marks: Paged,
    others: BTreeMap<u32, Mark>,
}

impl Model for Listed {
    ghost use Rattle.road_search.specs.Listing.{Listing, IsListing};

    ghost Value = { Listing };

    ghost view = { λ s. record {
      ids = s.ids.value;
      marks = s.marks.pages;
      others = s.others.entries;
    } };

    ghost invariant = { λ s. IsListing s.ids.value s.others.entries };
}

impl Listed {
    /// Makes an empty store, with no room by index.
    pub fn none(alloc: Global) -> Result<Listed, NoMemory>
        ensures { IfOk result (λ found. (id : ℕ) → listed found id ≡ None) }
    {
        let ids = shared(alloc, RisingIds::none(alloc))?;
        Ok(Listed::of(alloc, ids, Paged::new(alloc)))
    }

    /// Makes an empty store with an index for each of these ids.
    pub fn new(alloc: Global, ids: Rc<RisingIds>) -> Listed
        requires { AreRising ids.value }
        ensures { (id : ℕ) → listed result id ≡ None }
    {
        Listed::of(alloc, ids, Paged::new(alloc))
    }

    /// Makes a store from the marks of these ids, by index.
    pub fn of(alloc: Global, ids: Rc<RisingIds>, marks: Paged) -> Listed
        requires { AreRising ids.value }
        ensures ids { result.ids ≡ ids.value }
        ensures marks { result.marks ≡ marks.pages }
        ensures others { result.others ≡ [] }
    {
        Listed {
            ids,
            marks,
            others: BTreeMap::new(alloc),
        }
    }

    /// Returns the ids outside the list that have a mark, each once.
    fn others(&self, alloc: Global) -> Result<Vec<u32>, NoMemory>
        ensures distinct { IfOk result (λ ids. IsDistinct nat_eq ids.items) }
        ensures all { IfOk result (λ ids. (id : ℕ) → IsSome (mark_at self.now.others id) →
            Contains ids.items id) }
    {
        let mut all = Vec::new(alloc);
        for (id, _mark) in self.others.iter() {
            push(&mut all, *id)?;
        }
        Ok(all)
    }

    /// Returns those of the ids outside the list whose labels are at most this long, each once.
    fn others_near(&self, alloc: Global, most: u64) -> Result<Vec<u32>, NoMemory>
        ensures distinct { IfOk result (λ ids. IsDistinct nat_eq ids.items) }
        ensures same { IfOk result
            (λ ids. (id : ℕ) → Contains ids.items id ↔
            IsTrue (is_within most (length_in (mark_at self.now.others) id))) }
    {
        let all = self.others(alloc)?;
        let mut near = Vec::new(alloc);
        for id in &all {
            if is_near(other_mark(&self.others, *id), most) {
                push(&mut near, *id)?;
            }
        }
        Ok(near)
    }

    /// Returns the ids whose labels are at most this long, each once, in no particular order.
    pub(crate) fn near(&self, alloc: Global, most: u64) -> Result<Vec<u32>, NoMemory>
        ensures distinct { IfOk result (λ ids. IsDistinct nat_eq ids.items) }
        ensures same { IfOk result
            (λ ids. (id : ℕ) → Contains ids.items id ↔
            IsTrue (is_within most (length_in (listed self.now) id))) }
    {
        let others = self.others_near(alloc, most)?;
        let mut near = near_ids(alloc, self.ids.as_slice(), &self.marks, most)?;
        extend(&mut near, others.as_slice())?;
        Ok(near)
    }
}

/// Returns the mark of an id among marks by id.
fn other_mark(others: &BTreeMap<u32, Mark>, id: u32) -> Option<Mark>
    ensures { result ≡ mark_at others.now.entries id }
{
    others.get(&id).copied()
}

/// Sets the mark of an id among marks by id.
fn set_other(others: &mut BTreeMap<u32, Mark>, id: u32, new: Mark) -> Result<(), NoMemory>
    ensures marks { OnOk result ((v : ℕ) →
        mark_at others.new.entries v ≡ (if nat_eq id v then Some new else
        mark_at others.old.entries v)) }
    ensures same { OnErr result (others.new.entries ≡ others.old.entries) }
{
    insert(others, id, new)?;
    Ok(())
}

impl Marks for Listed {
    ghost use Rattle.road_search.specs.Listing.{listed};

    ghost mark = { λ s id. listed s id };

    type Refused = NoMemory;

    fn get(&self, id: u32) -> Option<Mark> {
        match self.ids.place(id) {
            None => other_mark(&self.others, id),
            Some(place) => self.marks.at(place),
        }
    }

    fn set(&mut self, id: u32, new: Mark) -> Result<(), NoMemory> {
        match self.ids.place(id) {
            None => {
                set_other(&mut self.others, id, new)?;
                Ok(())
            }
            Some(place) => {
                self.marks.put(place, new)?;
                Ok(())
            }
        }
    }
}
