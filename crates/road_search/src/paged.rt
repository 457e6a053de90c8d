//! Marks by number, in pages.

ghost use Rattle.std.specs.Prelude.{◌≡◌, ◌<◌, ◌/◌, ℕ, [], None, Some, OnOk, false, nat_eq, length, slice_get, if◌then◌else◌};
ghost use Rattle.road_search.specs.Pages.{paged, on_page};

use crate::marks::{Mark, Marks};
use crate::slots::Slots;
use octet_text::{NoMemory, push};
use std::alloc::Global;
use std::marker::Model;

/// The number of marks on a page.
pub(crate) const PAGE: usize = 64;

/// Marks of numbers. A page takes memory once one of its numbers is marked.
#[derive(Drop)]
pub struct Paged {
    pages: Vec<Slots>,
}

impl Model for Paged {
    ghost use Rattle.road_search.specs.Pages.{PageList};

    ghost Value = { PageList };

    ghost view = { λ p. record { pages = p.pages.items } };
}

/// Adds empty pages up to this one.
fn make_pages(pages: &mut Vec<Slots>, index: usize) -> Result<(), NoMemory>
    ensures there { OnOk result (index < length pages.new.items) }
    ensures same { OnOk result ((v : ℕ) → paged pages.new.items v ≡ paged pages.old.items v) }
{
    let alloc = *pages.allocator();
    while pages.len() <= index {
        push(pages, Slots::new(alloc))?;
    }
    Ok(())
}

/// Sets the mark at an index of a page.
fn put_on(pages: &mut Vec<Slots>, index: usize, place: usize, new: Mark) -> Result<(), NoMemory>
    requires there { index < length pages.old.items }
    requires place { place < 64 }
    ensures here { OnOk result ((v : ℕ) → on_page (slice_get pages.new.items index) v ≡
        (if nat_eq place v then Some new else on_page (slice_get pages.old.items index) v)) }
    ensures others { OnOk result ((p : ℕ) → nat_eq index p ≡ false →
        slice_get pages.new.items p ≡ slice_get pages.old.items p) }
{
    pages[index].widen(PAGE)?;
    pages[index].put(place, new)?;
    Ok(())
}

impl Paged {
    /// Makes an empty store.
    pub(crate) fn new(alloc: Global) -> Paged
        ensures { result.pages ≡ [] }
    {
        Paged {
            pages: Vec::new(alloc),
        }
    }

    /// Makes marks from these pages.
    pub(crate) fn of(pages: Vec<Slots>) -> Paged
        ensures { result.pages ≡ pages.items }
    {
        Paged { pages }
    }

    /// Returns the pages, with memory or without.
    pub(crate) fn pages(&self) -> &[Slots]
        ensures { result.now ≡ self.now.pages }
    {
        self.pages.as_slice()
    }

    /// Tests whether a page has memory. If not, its numbers have no mark.
    pub(crate) fn has_room(&self, index: usize) -> bool
        ensures { result ≡ false → (v : ℕ) → v / 64 ≡ index → paged self.now.pages v ≡ None }
    {
        match self.pages.get(index) {
            None => false,
            Some(page) => page.len() > 0,
        }
    }

    /// Returns the mark of a number.
    pub(crate) fn at(&self, number: usize) -> Option<Mark>
        ensures { result ≡ paged self.now.pages number }
    {
        match self.pages.get(number / PAGE) {
            None => None,
            Some(page) => page.get(number % PAGE),
        }
    }

    /// Sets the mark of a number.
    pub(crate) fn put(&mut self, number: usize, new: Mark) -> Result<(), NoMemory>
        ensures { OnOk result ((v : ℕ) → paged self.new.pages v ≡
            (if nat_eq number v then Some new else paged self.old.pages v)) }
    {
        make_pages(&mut self.pages, number / PAGE)?;
        put_on(&mut self.pages, number / PAGE, number % PAGE, new)?;
        Ok(())
    }
}

impl Marks for Paged {
    ghost use Rattle.road_search.specs.Pages.{paged};

    ghost mark = { λ s number. paged s.pages number };

    type Refused = NoMemory;

    fn get(&self, id: u32) -> Option<Mark> {
        self.at(id as usize)
    }

    fn set(&mut self, id: u32, new: Mark) -> Result<(), NoMemory> {
        self.put(id as usize, new)
    }
}
