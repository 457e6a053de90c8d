//! A sink in memory, which states the octets that it has taken.
ghost use Rattle.std.specs.Prelude.{◌≡◌, ◌<◌, ◌≤◌, ◌↔◌, ◌+◌, ◌-◌, ◌^◌, IsTrue, List, ℕ, length, min, IfOk, OnOk, OnErr, vec_capacity};
ghost use Rattle.std.specs.declared.option.Option.TheVariants.{Some};

use road_io::{Failed, Sink};
use std::alloc::{AllocError, Global};

/// A sink in memory, which takes at most `piece` octets at once and has room for a fixed number of octets. Its
/// calls are numbered from 0. A call fails if it is planned to fail or exceeds the room.
#[derive(Drop)]
pub struct MemSink {
    taken: Vec<u8>,
    room: usize,
    piece: usize,
    fails: Vec<u64>,
    calls: u64,
    faults: u64,
    ghost reserved: { room ≤ vec_capacity taken },
    ghost takes_some: { 0 < piece },
}

impl MemSink {
    ghost use Rattle.mem_io.specs.MemSink.{IsNewSink, CanTake, taken_of};

    /// Makes a sink that has taken nothing. The writes with the numbers in `fails` will fail.
    pub fn new(
        alloc: Global,
        room: usize,
        piece: usize,
        fails: Vec<u64>,
    ) -> Result<MemSink, AllocError>
        requires { 0 < piece }
        ensures { IfOk result (IsNewSink room piece fails.items) }
    {
        match Vec::with_capacity(alloc, room) {
            Ok(taken) => Ok(MemSink {
                taken,
                room,
                piece,
                fails,
                calls: 0,
                faults: 0,
            }),
            Err(none) => Err(none),
        }
    }

    /// Returns the octets taken.
    pub fn taken(&self) -> &[u8]
        ensures { result.now ≡ taken_of self.now }
    {
        &self.taken
    }

    /// Tests whether the next write, of `count` octets, will succeed.
    fn can_take(&self, count: usize) -> bool
        ensures { IsTrue result ↔ CanTake self.now count }
    {
        if self.fails.contains(&self.calls) {
            return false;
        }
        if self.taken.len() > self.room {
            return false;
        }
        count.min(self.piece) <= self.room - self.taken.len()
    }
}

impl Sink for MemSink {
    ghost use Rattle.std.specs.Io.KnownBytes.{WriteAppends};
    ghost use Rattle.road_io.specs.Causes.{HasCause};
    ghost use Rattle.mem_io.specs.MemSink.{taken_of, CanTake, CountsWrite};

    ghost taken = { λ s. Some (taken_of s) };

    ghost faults = { λ s. s.faults };

    fn write(&mut self, octets: &[u8]) -> Result<usize, Failed>
        ensures most { IfOk result (λ n. n ≤ length octets.now) }
        ensures least { IfOk result (λ n. 0 < length octets.now → 0 < n) }
        ensures taken { WriteAppends (Some (taken_of self.old))
            (Some (taken_of self.new)) result octets.now }
        ensures kept { OnOk result (self.new.faults ≡ self.old.faults) }
        ensures cause { HasCause self.old.faults self.new.faults result }
        ensures written { OnOk result (CanTake self.old (length octets.now)) }
        ensures refused { OnErr result (¬ CanTake self.old (length octets.now)) }
        ensures piece { IfOk result (λ n. n ≡ min (length octets.now) self.old.piece) }
        ensures counts { CountsWrite self.old self.new }
        ensures faulted { OnErr result (self.new.faults ≡ min (self.old.faults + 1) (2 ^ 64 - 1)) }
    {
        let can_take = self.can_take(octets.len());
        self.calls = self.calls.saturating_add(1);
        if !can_take {
            self.faults = self.faults.saturating_add(1);
            return Err(Failed);
        }
        let count = octets.len().min(self.piece);
        self.taken.extend_from_slice(&octets[..count]).unwrap();
        Ok(count)
    }
}
