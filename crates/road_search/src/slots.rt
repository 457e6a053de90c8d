//! Marks in a list. They take only as much memory as their parts.

ghost use Rattle.std.specs.Prelude.{◌≡◌, ◌+◌, ◌<◌, ◌^◌, ◌++◌, ◌∷◌, [], ℕ, None, Some, IfOk, OnOk, nat_eq, length, map, if◌then◌else◌};
ghost use Rattle.road_search.specs.Marking.{marked};
ghost use Rattle.road_search.specs.Slots.{mark_in, marked_in};

use crate::label::Label;
use crate::marks::Mark;
use octet_text::{NoMemory, fill_up, push, room_for};
use std::alloc::Global;
use std::marker::Model;

/// Whether a mark exists, and whether it is final.
#[derive(Clone, Copy, Debug)]
pub enum State {
    Free,
    Open,
    Settled,
}

/// The memory of a mark: the parts of its label, and whether it exists.
#[derive(Clone, Copy, Debug)]
pub struct Slot {
    pub length: u64,
    pub hops: u64,
    pub before: u32,
    pub state: State,
}

/// A slot without a mark.
const FREE: Slot = Slot {
    length: 0,
    hops: 0,
    before: 0,
    state: State::Free,
};

/// Marks by number. Contracts treat them as a list.
#[derive(Drop)]
pub struct Slots {
    slots: Vec<Slot>,
}

impl Model for Slots {
    ghost use Rattle.std.specs.Prelude.{map};
    ghost use Rattle.road_search.specs.MarkLists.{MarkList};

    ghost Value = { MarkList };

    ghost use Rattle.road_search.specs.Slots.{mark_in};

    ghost view = { λ s. record { items = map mark_in s.slots.items } };
}

/// Returns the slot for a mark, or for no mark.
fn slot_of(mark: Option<Mark>) -> Slot
    ensures { mark_in result ≡ mark }
{
    match mark {
        None => FREE,
        Some(mark) => Slot {
            length: mark.label.length,
            hops: mark.label.hops,
            before: mark.label.before,
            state: if mark.settled {
                State::Settled
            } else {
                State::Open
            },
        },
    }
}

/// Returns the mark in a slot.
fn mark_in(slot: &Slot) -> Option<Mark>
    ensures { result ≡ mark_in slot.now }
{
    let label = Label {
        length: slot.length,
        before: slot.before,
        hops: slot.hops,
    };
    match slot.state {
        State::Free => None,
        State::Open => Some(Mark {
            label,
            settled: false,
        }),
        State::Settled => Some(Mark {
            label,
            settled: true,
        }),
    }
}

/// Adds slots up to a number, without marks.
fn make_room(slots: &mut Vec<Slot>, number: usize) -> Result<(), NoMemory>
    requires { number + 1 < 2 ^ 64 }
    ensures room { OnOk result (number < length slots.new.items) }
    ensures same { OnOk result ((v : ℕ) →
        marked_in slots.new.items v ≡ marked_in slots.old.items v) }
{
    if number < slots.len() {
        return Ok(());
    }
    fill_up(slots, number + 1, FREE)?;
    Ok(())
}

/// Stores a slot at a number.
fn put_slot(slots: &mut Vec<Slot>, number: usize, new: Slot) -> Result<(), NoMemory>
    requires { number + 1 < 2 ^ 64 }
    ensures { OnOk result ((v : ℕ) →
        marked_in slots.new.items v ≡ (if nat_eq number v then mark_in new else
        marked_in slots.old.items v)) }
{
    make_room(slots, number)?;
    slots[number] = new;
    Ok(())
}

impl Slots {
    /// Makes an empty list.
    pub fn new(alloc: Global) -> Slots
        ensures { result.items ≡ [] }
    {
        Slots {
            slots: Vec::new(alloc),
        }
    }

    /// Makes a list without marks, with as many slots as another list.
    pub fn as_many_as(alloc: Global, others: &Slots) -> Result<Slots, NoMemory>
        ensures { IfOk result (λ slots. slots.items ≡ []) }
    {
        let slots = room_for(alloc, &others.slots)?;
        Ok(Slots { slots })
    }

    /// Returns the number of slots.
    pub fn len(&self) -> usize
        ensures { result ≡ length self.now.items }
    {
        self.slots.len()
    }

    /// Returns the mark of a number.
    pub fn get(&self, number: usize) -> Option<Mark>
        ensures { result ≡ marked self.now.items number }
    {
        match self.slots.get(number) {
            None => None,
            Some(slot) => mark_in(slot),
        }
    }

    /// Appends free slots up to `count` slots.
    pub fn widen(&mut self, count: usize) -> Result<(), NoMemory>
        ensures { OnOk result ((v : ℕ) → marked self.new.items v ≡ marked self.old.items v) }
    {
        fill_up(&mut self.slots, count, FREE)?;
        Ok(())
    }

    /// Sets the mark of a number.
    pub fn put(&mut self, number: usize, new: Mark) -> Result<(), NoMemory>
        requires { number + 1 < 2 ^ 64 }
        ensures { OnOk result ((v : ℕ) →
            marked self.new.items v ≡ (if nat_eq number v then Some new else
            marked self.old.items v)) }
    {
        put_slot(&mut self.slots, number, slot_of(Some(new)))
    }

    /// Sets the mark of the next number, or leaves the number without a mark.
    pub fn push(&mut self, mark: Option<Mark>) -> Result<(), NoMemory>
        ensures { OnOk result (self.new.items ≡ self.old.items ++ mark ∷ []) }
    {
        push(&mut self.slots, slot_of(mark))?;
        Ok(())
    }

    /// Removes all marks and keeps the memory.
    pub fn clear(&mut self)
        ensures { (v : ℕ) → marked self.new.items v ≡ None }
    {
        self.slots.fill(FREE);
    }
}
