//! An area: a key with its slots.
ghost use Rattle.std.specs.Prelude.{◌≡◌, ◌+◌, ◌*◌, ◌^◌, ◌<◌, ◌≤◌, length, IfOk, IsErr, Err};
ghost use Rattle.octet_text.specs.Want.{no_memory};
ghost use Rattle.desk_areas.specs.Keys.{key_from};
ghost use Rattle.desk_areas.specs.Layout.{slots_of, place_in};

use crate::errors::StartError;
use lms_tree::{Key, KeyError};
use octet_text::array_at;
use std::alloc::Global;
use std::marker::Model;

/// The state of a slot as a desk counts it.
#[derive(Clone, Copy, Debug, PartialEq, Eq)]
pub enum Count {
    /// No signing uses it.
    Free,
    /// A ticket holds it.
    Out,
    /// A text is stored behind its closed gate.
    Written,
    /// Its gate is open: the slot has signed, or may have signed.
    Spent,
}

/// An area of the disk: its key, and the state of each of its slots.
#[derive(Drop)]
pub struct Area {
    key: Key,
    counts: Vec<Count>,
}

impl Model for Area {
    ghost use Rattle.std.specs.Prelude.{◌≡◌, length};
    ghost use Rattle.desk_areas.specs.Area.{AreaView};
    ghost use Rattle.desk_areas.specs.Layout.{slots_of};

    ghost Value = { AreaView };

    ghost view = { λ a. record { key = a.key; counts = a.counts.items } };

    ghost invariant = { λ a. length a.counts.items ≡ slots_of a.key.kind };
}

impl Area {
    /// Returns the state of each slot.
    pub fn counts(&self) -> &[Count]
        ensures counts { result.now ≡ self.now.counts }
        ensures sized { length result.now ≡ slots_of self.now.key.kind }
        ensures few { length result.now ≤ 1024 }
    {
        &self.counts
    }

    /// Returns the key.
    pub fn key(&self) -> &Key
        ensures { result.now ≡ self.now.key }
    {
        &self.key
    }

    /// Makes an area from these parts.
    pub fn from_parts(key: Key, counts: Vec<Count>) -> Area
        requires { length counts.items ≡ slots_of key.kind }
        ensures { result ≡ record { key = key; counts = counts.items } }
    {
        Area { key, counts }
    }

    /// Returns its parts.
    pub fn into_parts(self) -> (Key, Vec<Count>)
        ensures { (result.0 ≡ self.key) × (result.1.items ≡ self.counts) }
    {
        let Area { key, counts } = self;
        (key, counts)
    }
}

/// Returns the offset at which a slot begins, in the area at a base.
pub fn place_in(base: u64, number: u32) -> u64
    requires base { base ≤ 917952 }
    requires number { number ≤ 1024 }
    ensures place { result ≡ place_in base number }
    ensures low { result < 2 ^ 63 }
{
    base + 64 + 128 * number as u64
}

/// Builds the key of a known kind, from I and SEED.
pub fn build_key(alloc: Global, kind: u32, secret: &[u8; 48]) -> Result<Key, StartError>
    requires { 0 < slots_of kind }
    ensures key { IfOk result (λ key. key ≡ key_from kind secret.now) }
    ensures memory { IsErr result → result ≡ Err (StartError.Memory no_memory) }
{
    match Key::build(alloc, kind, &array_at(secret, 0), &array_at(secret, 16)) {
        Ok(key) => Ok(key),
        Err(KeyError::Memory(none)) => Err(StartError::Memory(none)),
        Err(KeyError::Kind) => unreachable!(),
    }
}

/// Returns the number of slots of a key of this kind, or 0 for an unknown kind.
#[tactic(auto, unfolding(crate::specs::Layout::slots_of))]
pub fn slots_of(kind: u32) -> u32
    ensures slots { result ≡ slots_of kind }
    ensures few { result ≤ 1024 }
{
    match kind {
        5 => 32,
        6 => 1024,
        _ => 0,
    }
}
