//! A mirror in memory, which states its contents.
ghost use Rattle.std.specs.Prelude.{◌≡◌, ◌-◌, ◌≤◌, ◌+◌, ◌<◌, ◌^◌, ℕ, length, min, vec_len, vec_capacity, IfOk, OnOk, OnErr};
ghost use Rattle.std.specs.declared.option.Option.TheVariants.{Some};
ghost use Rattle.std.specs.Bool.{OnTrue, OnFalse};
ghost use Rattle.mirror_out.specs.Promises.{puts_before};

use crate::Mirror;
use road_io::{Failed, Record};
use std::alloc::{AllocError, Global};

/// A mirror in memory, with room for a number of octets. Its puts are numbered from 0. It promises the puts before
/// the next one that is planned to fail, and the octets of its free room. It fails exactly if a promise does not
/// cover a put.
#[derive(Drop)]
pub struct MemMirror {
    label: u32,
    taken: Vec<u8>,
    room: usize,
    fails: Vec<u64>,
    calls: u64,
    faults: u64,
    handed: Record,
    ghost reserved: { room ≤ vec_capacity taken },
    ghost within: { vec_len taken ≤ room },
}

// Tests whether a call is planned to fail. The last call that a u64 can count always fails.
fn is_planned(fails: &[u64], call: u64) -> bool
    ensures planned { OnTrue result (puts_before fails.now call ≡ 0) }
    ensures unplanned { OnFalse result (0 < puts_before fails.now call) }
    ensures going { OnFalse result (call < 2 ^ 64 - 1) }
{
    call == u64::MAX || fails.contains(&call)
}

impl MemMirror {
    ghost use Rattle.mirror_out.specs.MemMirror.{held_in, IsNewMirror};

    /// Makes an empty mirror. The puts with the numbers in `fails` will fail.
    pub fn new(
        alloc: Global,
        label: u32,
        room: usize,
        fails: Vec<u64>,
    ) -> Result<MemMirror, AllocError>
        ensures { IfOk result (IsNewMirror label room fails.items) }
    {
        let taken = Vec::with_capacity(alloc, room)?;
        Ok(MemMirror {
            label,
            taken,
            room,
            fails,
            calls: 0,
            faults: 0,
            handed: Record::new(),
        })
    }

    /// Returns the octets that the mirror holds.
    pub fn held(&self) -> &[u8]
        ensures { result.now ≡ held_in self.now }
    {
        &self.taken
    }
}

impl Mirror for MemMirror {
    ghost use Rattle.std.specs.Io.KnownBytes.{Appends};
    ghost use Rattle.road_io.specs.Causes.{HasCause};
    ghost use Rattle.mirror_out.specs.Mirrors.{PromisedLess};
    ghost use Rattle.mirror_out.specs.MemMirror.{held_in, promised_puts, free_room, CountsPut};

    ghost octets = { λ m. Some (held_in m) };

    ghost named = { λ m. m.label };

    ghost faults = { λ m. m.faults };

    ghost handed = { λ m. length m.handed.events };

    ghost puts = { λ m. promised_puts m };

    ghost room = { λ m. free_room m };

    fn label(&self) -> u32 {
        self.label
    }

    fn put(&mut self, piece: &[u8]) -> Result<(), Failed>
        ensures ok { OnOk result (Appends (Some (held_in self.old))
            (Some (held_in self.new)) piece.now) }
        ensures label { self.new.label ≡ self.old.label }
        ensures err { OnErr result
            (PromisedLess 1 piece.now (promised_puts self.old) (free_room self.old)) }
        ensures left { OnErr result (Some (held_in self.new) ≡ Some (held_in self.old)) }
        ensures puts { OnOk result (promised_puts self.old ≤ promised_puts self.new + 1) }
        ensures room { OnOk result (free_room self.old ≤ free_room self.new + length piece.now) }
        ensures kept { OnOk result (self.new.faults ≡ self.old.faults) }
        ensures cause { HasCause self.old.faults self.new.faults result }
        ensures counted { length self.new.handed.events ≡ length self.old.handed.events + 1 }
        ensures counts { CountsPut self.old self.new }
        ensures faulted { OnErr result (self.new.faults ≡ min (self.old.faults + 1) (2 ^ 64 - 1)) }
        ensures promised { OnOk result
            ((0 < promised_puts self.old) × (length piece.now ≤ free_room self.old)) }
        ensures refused { OnErr result (held_in self.new ≡ held_in self.old) }
    {
        self.handed.note(&[], piece);
        let call = self.calls;
        self.calls = call.saturating_add(1);
        if is_planned(&self.fails, call) || piece.len() > self.room - self.taken.len() {
            self.faults = self.faults.saturating_add(1);
            return Err(Failed);
        }
        self.taken.extend_from_slice(piece).unwrap();
        Ok(())
    }
}
