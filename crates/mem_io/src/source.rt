//! A source in memory, which states the octets that are left.
ghost use Rattle.std.specs.Prelude.{◌≡◌, ◌<◌, ◌≤◌, ◌+◌, ◌-◌, ◌^◌, [], List, ℕ, length, min, vec_len, IfOk, OnOk, OnErr};
ghost use Rattle.std.specs.declared.option.Option.TheVariants.{Some};

use road_io::{Failed, Source};

/// A source in memory, which gives at most `piece` octets at once. Its calls are numbered from 0. A call fails if
/// it is planned to fail.
#[derive(Drop)]
pub struct MemSource {
    octets: Vec<u8>,
    at: usize,
    piece: usize,
    fails: Vec<u64>,
    calls: u64,
    faults: u64,
    ghost within: { at ≤ vec_len octets },
    ghost gives_some: { 0 < piece },
}

impl MemSource {
    ghost use Rattle.mem_io.specs.MemSource.{IsNewSource, left_of};

    /// Makes a source of these octets. The reads with the numbers in `fails` will fail.
    pub fn new(octets: Vec<u8>, piece: usize, fails: Vec<u64>) -> MemSource
        requires { 0 < piece }
        ensures { IsNewSource octets.items piece fails.items result }
    {
        MemSource {
            octets,
            at: 0,
            piece,
            fails,
            calls: 0,
            faults: 0,
        }
    }

    /// Returns the octets that are left.
    pub fn left(&self) -> &[u8]
        ensures { result.now ≡ left_of self.now }
    {
        &self.octets[self.at..]
    }
}

impl Source for MemSource {
    ghost use Rattle.std.specs.Io.KnownBytes.{ReadConsumes, WriteAppends};
    ghost use Rattle.road_io.specs.Causes.{HasCause};
    ghost use Rattle.mem_io.specs.MemSource.{left_of, given_by, IsPlannedRead, CountsRead};

    ghost left = { λ s. Some (left_of s) };

    ghost given = { λ s. given_by s };

    ghost ended = { λ s. left_of s ≡ [] };

    ghost faults = { λ s. s.faults };

    fn read(&mut self, into: &mut [u8]) -> Result<usize, Failed>
        ensures most { IfOk result (λ n. n ≤ length into.new) }
        ensures left { ReadConsumes (Some (left_of self.old))
            (Some (left_of self.new)) result into.new }
        ensures gave { WriteAppends (Some (given_by self.old))
            (Some (given_by self.new)) result into.new }
        ensures ended { IfOk result (λ n. n ≡ 0 → 0 < length into.new → left_of self.new ≡ []) }
        ensures kept { OnOk result (self.new.faults ≡ self.old.faults) }
        ensures cause { HasCause self.old.faults self.new.faults result }
        ensures piece { IfOk result
            (λ n. n ≡ min (min (length into.new) self.old.piece) (length (left_of self.old))) }
        ensures unplanned { OnOk result (¬ IsPlannedRead self.old) }
        ensures planned { OnErr result (IsPlannedRead self.old) }
        ensures counts { CountsRead self.old self.new }
        ensures faulted { OnErr result (self.new.faults ≡ min (self.old.faults + 1) (2 ^ 64 - 1)) }
    {
        let call = self.calls;
        self.calls = call.saturating_add(1);
        if self.fails.contains(&call) {
            self.faults = self.faults.saturating_add(1);
            return Err(Failed);
        }
        let count = into.len().min(self.piece).min(self.octets.len() - self.at);
        into[..count].copy_from_slice(&self.octets[self.at..self.at + count]);
        self.at += count;
        Ok(count)
    }
}
