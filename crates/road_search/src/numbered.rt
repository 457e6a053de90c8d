//! Marks in a list by number.

ghost use Rattle.std.specs.Prelude.{◌≡◌, ◌+◌, ◌<◌, ◌^◌, ℕ, None, Some, IfOk, OnOk, nat_eq, if◌then◌else◌};
ghost use Rattle.road_search.specs.Marking.{marked};

use crate::marks::{Mark, Marks};
use crate::slots::Slots;
use octet_text::NoMemory;
use std::alloc::Global;

/// Marks of ids that are small numbers. There is a slot for each number up to the greatest one marked.
#[derive(Drop)]
pub struct Numbered {
    pub(crate) marks: Slots,
}

impl Numbered {
    /// Makes an empty store.
    pub fn new(alloc: Global) -> Numbered
        ensures { (id : ℕ) → ⟦<Numbered as Marks>⟧.mark result id ≡ None }
    {
        Numbered {
            marks: Slots::new(alloc),
        }
    }

    /// Removes all marks and keeps the memory.
    pub fn clear(&mut self)
        ensures { (id : ℕ) → ⟦<Numbered as Marks>⟧.mark self.new id ≡ None }
    {
        self.marks.clear();
    }

    /// Returns the mark of a number.
    pub(crate) fn at(&self, number: usize) -> Option<Mark>
        ensures { result ≡ marked self.now.marks.items number }
    {
        self.marks.get(number)
    }

    /// Sets the mark of a number.
    pub(crate) fn put(&mut self, number: usize, new: Mark) -> Result<(), NoMemory>
        requires { number + 1 < 2 ^ 64 }
        ensures { OnOk result ((v : ℕ) →
            marked self.new.marks.items v ≡ (if nat_eq number v then Some new else
            marked self.old.marks.items v)) }
    {
        self.marks.put(number, new)
    }
}

impl Marks for Numbered {
    ghost use Rattle.std.specs.Prelude.{None, slice_get};
    ghost use Rattle.std.specs.Option.{unwrap_or};

    ghost mark = { λ s id. unwrap_or (slice_get s.marks.items id) None };

    type Refused = NoMemory;

    fn get(&self, id: u32) -> Option<Mark> {
        self.at(id as usize)
    }

    fn set(&mut self, id: u32, new: Mark) -> Result<(), NoMemory> {
        self.put(id as usize, new)
    }
}
