//! Standard input: an adapter over the real stream, which states the octets that it gave, but nothing about those
//! that are left.
ghost use Rattle.std.specs.Prelude.{◌≡◌, ◌≤◌, [], length, IfOk};
ghost use Rattle.std.specs.declared.option.Option.TheVariants.{None};

use crate::{Failed, Source};
use outside::{NotedInput, standard_input};
use std::io;

/// Standard input. Each error counts as a failure.
#[derive(Drop)]
pub struct StdSource<R: Input> {
    input: NotedInput<R::Reader>,
    faults: u64,
    last_error: Option<io::Error>,
}

impl<R: Input> StdSource<R> {
    /// Makes the source of the runtime's standard input. It has given nothing.
    pub fn new(rt: &R) -> StdSource<R>
        ensures history { result.input.history.events ≡ [] }
        ensures calls { result.input.calls.events ≡ [] }
        ensures faults { result.faults ≡ 0 }
    {
        StdSource {
            input: standard_input(rt),
            faults: 0,
            last_error: None,
        }
    }

    /// Returns the system's reason why the last read failed, if the source has failed.
    pub fn last_error(&self) -> Option<io::Error> {
        self.last_error
    }
}

impl<R: Input> Source for StdSource<R> {
    ghost use Rattle.std.specs.Prelude.{◌<◌, OnOk, OnErr};
    ghost use Rattle.std.specs.Io.KnownBytes.{WriteAppends};
    ghost use Rattle.std.specs.declared.option.Option.TheVariants.{Some};
    ghost use Rattle.outside.specs.Called.{Refuses};
    ghost use Rattle.road_io.specs.Causes.{HasCause};
    ghost use Rattle.road_io.specs.Noted.{noted};
    ghost use Rattle.road_io.specs.Given.{IsEnd};

    ghost left = { λ _. None };

    ghost given = { λ s. noted s.input.history.events };

    ghost ended = { λ s. IsEnd s.input.history.events };

    ghost faults = { λ s. s.faults };

    fn read(&mut self, into: &mut [u8]) -> Result<usize, Failed>
        ensures most { IfOk result (λ n. n ≤ length into.new) }
        ensures gave { WriteAppends (Some (noted self.old.input.history.events))
            (Some (noted self.new.input.history.events)) result into.new }
        ensures ended { IfOk result (λ n. n ≡ 0 → 0 < length into.new →
            IsEnd self.new.input.history.events) }
        ensures kept { OnOk result (self.new.faults ≡ self.old.faults) }
        ensures cause { HasCause self.old.faults self.new.faults result }
        ensures refused { OnErr result
            (Refuses self.old.input.calls.events self.new.input.calls.events) }
    {
        match self.input.read(into) {
            Ok(count) => Ok(count),
            Err(e) => {
                self.faults = self.faults.saturating_add(1);
                self.last_error = Some(e);
                Err(Failed)
            }
        }
    }
}
