//! Texts at their positions in octets.

ghost use Rattle.std.specs.Prelude.{◌≡◌, ◌-◌, ◌<◌, ◌≤◌, ◌^◌, [], length, take, drop, map, slice_index_or, All};
ghost use Rattle.std.specs.Bool.{OnTrue};
ghost use Rattle.merkle_cover.specs.Cuts.{cut_from, AreIn};

use crate::texts::between;
use std::marker::Model;

/// The position of a text in octets: from one offset up to but not including another.
#[derive(Clone, Copy, Debug, PartialEq, Eq)]
pub struct Cut {
    pub start: u32,
    pub end: u32,
}

/// Tests whether all cuts lie in the octets and are fewer than 2^32.
pub fn are_in(octets: &[u8], cuts: &[Cut]) -> bool
    ensures { OnTrue result (AreIn octets.now cuts.now) }
{
    if cuts.len() > u32::MAX as usize {
        return false;
    }
    for cut in cuts {
        if cut.end < cut.start || octets.len() < cut.end as usize {
            return false;
        }
    }
    true
}

/// Texts at their positions in octets, not copied.
#[derive(Drop)]
pub struct CutTexts<'a> {
    octets: &'a [u8],
    cuts: &'a [Cut],
}

impl<'a> Model for CutTexts<'a> {
    ghost use Rattle.std.specs.Prelude.{ℕ, List, map};
    ghost use Rattle.merkle_cover.specs.Cuts.{cut_from, AreIn};

    ghost Value = { List (List ℕ) };

    ghost view = { λ t. map (cut_from t.octets.now) t.cuts.now };

    ghost invariant = { λ t. AreIn t.octets.now t.cuts.now };
}

impl<'a> CutTexts<'a> {
    /// Makes the list of the texts at these cuts.
    pub fn new(octets: &'a [u8], cuts: &'a [Cut]) -> CutTexts<'a>
        requires { AreIn octets.now cuts.now }
        ensures { result ≡ map (cut_from octets.now) cuts.now }
    {
        CutTexts { octets, cuts }
    }

    /// Returns the number of texts.
    pub fn count(&self) -> u32
        ensures { result ≡ length self.now }
    {
        self.cuts.len() as u32
    }

    /// Returns the text at an index.
    pub fn text(&self, index: u32) -> &[u8]
        requires { index < length self.now }
        ensures { result.now ≡ slice_index_or self.now index [] }
    {
        let cut = self.cuts[index as usize];
        between(self.octets, cut.start as usize, cut.end as usize)
    }
}
