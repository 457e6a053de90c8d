//! Codes by id.

ghost use Rattle.std.specs.Prelude.{◌≡◌, nat_eq, slice_get, IfOk};
ghost use Rattle.std.specs.Map.{lookup};
ghost use Rattle.std.specs.List.{zip};
ghost use Rattle.std.specs.Option.{option_copied};
ghost use Rattle.road_map.specs.Places.{AreRising};
ghost use Rattle.landmarks.specs.Tables.{codes_in};

use octet_text::NoMemory;
use road_leaf::Codes;
use road_map::RisingIds;
use std::alloc::Global;
use std::marker::Model;

/// The code which states that no walk joins a node and a landmark.
pub(crate) const NO_CODE: u16 = 65535;

/// The step of codes, and the codes of each node of a map, by ascending id.
#[derive(Drop)]
pub struct CodeTable {
    step: u64,
    ids: RisingIds,
    codes: Vec<Codes>,
}

impl Model for CodeTable {
    ghost use Rattle.std.specs.List.{zip};
    ghost use Rattle.road_map.specs.Places.{AreRising};
    ghost use Rattle.landmarks.specs.Tables.{Coded};

    ghost Value = { Coded };

    ghost view = { λ t. record { step = t.step; entries = zip t.ids t.codes.items } };

    ghost invariant = { λ t. AreRising t.ids };
}

impl CodeTable {
    /// Makes a table of these codes, for ascending ids.
    pub(crate) fn new(
        alloc: Global,
        step: u64,
        ids: Vec<u32>,
        codes: Vec<Codes>,
    ) -> Result<CodeTable, NoMemory>
        requires { AreRising ids.items }
        ensures step { IfOk result (λ table. table.step ≡ step) }
        ensures entries { IfOk result (λ table. table.entries ≡ zip ids.items codes.items) }
    {
        let rising = RisingIds::new(alloc, ids)?;
        Ok(CodeTable {
            step,
            ids: rising,
            codes,
        })
    }

    /// Returns the step: the number of units of length in one code, at least 1.
    pub fn step(&self) -> u64
        ensures { result ≡ self.now.step }
    {
        self.step
    }

    /// Returns the codes of a node, one for each landmark, or `None` exactly if no node has the id.
    pub fn of(&self, id: u32) -> Option<&[u16]>
        ensures { option_copied result ≡ lookup (nat_eq id) self.now.entries }
    {
        match self.ids.place(id) {
            None => None,
            Some(place) => codes_at(self.codes.as_slice(), place),
        }
    }

    /// Returns the codes of a node.
    pub(crate) fn codes_of(&self, id: u32) -> &[u16]
        ensures { result.now ≡ codes_in self.now id }
    {
        match self.of(id) {
            None => &[],
            Some(codes) => codes,
        }
    }
}

/// Returns the codes at an index.
fn codes_at(codes: &[Codes], place: usize) -> Option<&[u16]>
    ensures { option_copied result ≡ slice_get codes.now place }
{
    match codes.get(place) {
        None => None,
        Some(codes) => Some(codes.as_slice()),
    }
}
