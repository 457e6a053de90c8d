//! The slots of an area, and the headers that they have signed.
ghost use Rattle.std.specs.Prelude.{◌≡◌, ◌+◌, ◌<◌, ◌≤◌, length, MatchResult};
ghost use Rattle.desk_areas.specs.Layout.{place_in, gate_at};
ghost use Rattle.desk_sight.specs.Texts.{IsZeroFrom};
ghost use Rattle.desk_sight.specs.Slots.{IsGreater, IsSlots, IsWrong, IsWrongAt};

use crate::octets::{header_at, is_zero};
use crate::strange::Strange;

/// A header in a slot, reduced to the facts that are reported.
#[derive(Clone, Copy, Debug, PartialEq, Eq)]
pub struct Signed {
    /// The version of the map.
    pub version: u64,
    /// The number of nodes of the map.
    pub nodes: u32,
}

/// The contents of some slots of an area.
#[derive(Clone, Copy, Debug, PartialEq, Eq)]
pub(crate) struct Slots {
    /// The number of spent slots. The first slots are spent first.
    pub spent: u32,
    /// The header of the last spent slot that has one.
    pub last: Option<Signed>,
    /// The greatest version of a header in a spent slot.
    pub greatest: Option<u64>,
    /// The header in the first free slot.
    pub waiting: Option<Signed>,
}

impl Slots {
    // Starts without any slot.
    fn none(image: &[u8], base: usize) -> Slots
        ensures { IsSlots image.now base 0 result }
    {
        Slots {
            spent: 0,
            last: None,
            greatest: None,
            waiting: None,
        }
    }

    // Adds one more slot, with this number.
    fn with(self, image: &[u8], base: usize, key: u32, number: u32) -> Result<Slots, Strange>
        requires within { place_in base (number + 1) ≤ length image.now }
        requires few { number < 1024 }
        requires low { base ≤ 1000000 }
        requires slots { IsSlots image.now base number self }
        ensures { MatchResult result (IsSlots image.now base (number + 1))
            (IsWrongAt image.now base number key) }
    {
        let place = base + 64 + 128 * number as usize;
        if !is_zero(image, place + 106, place + 128) {
            return Err(Strange::Tail { key, slot: number });
        }
        if image[place] == 0 {
            self.with_free(image, base, key, number)
        } else {
            self.with_spent(image, base, key, number)
        }
    }

    // Adds one more slot that is not spent.
    fn with_free(self, image: &[u8], base: usize, key: u32, number: u32) -> Result<Slots, Strange>
        requires within { place_in base (number + 1) ≤ length image.now }
        requires few { number < 1024 }
        requires low { base ≤ 1000000 }
        requires slots { IsSlots image.now base number self }
        requires tail { IsZeroFrom (place_in base number + 106) (place_in base number + 128) image.now }
        requires free { gate_at image.now (place_in base number) ≡ 0 }
        ensures { MatchResult result (IsSlots image.now base (number + 1))
            (IsWrongAt image.now base number key) }
    {
        let place = base + 64 + 128 * number as usize;
        if self.spent == number {
            let waiting = header_at(image, place);
            return Ok(Slots {
                spent: self.spent,
                last: self.last,
                greatest: self.greatest,
                waiting,
            });
        }
        if is_zero(image, place + 1, place + 106) {
            Ok(self)
        } else {
            Err(Strange::Text { key, slot: number })
        }
    }

    // Adds one more slot that is spent.
    fn with_spent(self, image: &[u8], base: usize, key: u32, number: u32) -> Result<Slots, Strange>
        requires within { place_in base (number + 1) ≤ length image.now }
        requires few { number < 1024 }
        requires low { base ≤ 1000000 }
        requires slots { IsSlots image.now base number self }
        requires tail { IsZeroFrom (place_in base number + 106) (place_in base number + 128) image.now }
        requires spent { 0 < gate_at image.now (place_in base number) }
        ensures { MatchResult result (IsSlots image.now base (number + 1))
            (IsWrongAt image.now base number key) }
    {
        if self.spent != number {
            return Err(Strange::Gap {
                key,
                slot: self.spent,
            });
        }
        match header_at(image, base + 64 + 128 * number as usize) {
            None => Ok(Slots {
                spent: number + 1,
                last: self.last,
                greatest: self.greatest,
                waiting: None,
            }),
            Some(signed) => Ok(Slots {
                spent: number + 1,
                last: Some(signed),
                greatest: Some(greater(self.greatest, signed.version)),
                waiting: None,
            }),
        }
    }
}

// Returns the greater of two versions; the first one is optional.
pub(crate) fn greater(first: Option<u64>, second: u64) -> u64
    ensures { IsGreater first second result }
{
    match first {
        Some(first) => { if first < second { second } else { first } }
        None => second,
    }
}

/// Returns the contents of the first `count` slots of the area at a base.
pub(crate) fn slots_of(image: &[u8], base: usize, key: u32, count: u32) -> Result<Slots, Strange>
    requires within { place_in base count ≤ length image.now }
    requires few { count ≤ 1024 }
    requires low { base ≤ 1000000 }
    ensures { MatchResult result (IsSlots image.now base count) (IsWrong image.now base count key) }
{
    let mut slots = Slots::none(image, base);
    for number in 0..count {
        slots = slots.with(image, base, key, number)?;
    }
    Ok(slots)
}
