//! Searching the spent slots of areas for a text.
ghost use Rattle.std.specs.Prelude.{◌≡◌, ◌≢◌, ◌+◌, ◌*◌, ◌<◌, ◌≤◌, ◌^◌, ◌↔◌, List, ℕ, Some, true, false, length, take, drop, min, IfOk, IsErr, slice_index_or, OnOk};
ghost use Rattle.std.specs.Option.{ForSome};
ghost use Rattle.road_io.specs.Causes.{HasCause};
ghost use Rattle.road_io.specs.Disk.{Narrows, Stays};
ghost use Rattle.road_io.specs.Moments.{Image, EachImage, AtEachMoment};
ghost use Rattle.desk_areas.specs.Layout.{place_in, base_of, text_at};
ghost use Rattle.desk_areas.specs.Reading.{IsLaidOut, FindsIn, FindsEarlier};

use crate::area::{Area, Count, place_in};
use road_io::{Disk, Failed};

// Tests whether the slot at this offset holds this text.
fn has_text<D: Disk>(disk: &mut D, place: u64, text: &[u8]) -> Result<bool, Failed>
    requires within { ForSome (D.content disk.old) (λ c. place + 128 ≤ length c) }
    requires place { place < 2 ^ 63 }
    ensures yes { IfOk result (λ b. b ≡ true →
        ForSome (D.content disk.new) (λ c. text_at c place ≡ text.now)) }
    ensures no { IfOk result (λ b. b ≡ false →
        ForSome (D.content disk.new) (λ c. text_at c place ≢ text.now)) }
    ensures content { Narrows (D.content disk.old) (D.content disk.new) }
    ensures moments { AtEachMoment D.Disk disk.old disk.new Stays }
    ensures cause { HasCause (D.faults disk.old) (D.faults disk.new) result }
    ensures kept { OnOk result (D.faults disk.new ≡ D.faults disk.old) }
{
    let mut octets = [0u8; 127];
    disk.read_at(place + 1, &mut octets)?;
    Ok(same_text(&octets, text))
}

// Tests whether a length octet and a text field hold this text.
fn same_text(octets: &[u8; 127], text: &[u8]) -> bool
    ensures { (result ≡ true) ↔ (take (min (slice_index_or octets.now 0 0) 126)
        (drop 1 octets.now) ≡ text.now) }
{
    let len = (octets[0] as usize).min(126);
    &octets[1..len + 1] == text
}

/// Tests whether a spent slot of the area at a base holds this text.
pub fn find_text<D: Disk>(
    base: u64,
    counts: &[Count],
    disk: &mut D,
    text: &[u8],
) -> Result<bool, Failed>
    requires within { ForSome (D.content disk.old)
        (λ c. place_in base (length counts.now) ≤ length c) }
    requires few { length counts.now ≤ 1024 }
    requires low { base ≤ 917952 }
    ensures yes { IfOk result (λ found. found ≡ true →
        ForSome (D.content disk.new) (FindsIn counts.now base text.now)) }
    ensures no { IfOk result (λ found. found ≡ false →
        ForSome (D.content disk.new) (λ c. FindsIn counts.now base text.now c → ⊥)) }
    ensures content { Narrows (D.content disk.old) (D.content disk.new) }
    ensures moments { AtEachMoment D.Disk disk.old disk.new Stays }
    ensures cause { HasCause (D.faults disk.old) (D.faults disk.new) result }
    ensures kept { OnOk result (D.faults disk.new ≡ D.faults disk.old) }
{
    let mut number = 0u32;
    for count in counts {
        if *count == Count::Spent {
            if has_text(disk, place_in(base, number), text)? {
                return Ok(true);
            }
        }
        number += 1;
    }
    Ok(false)
}

/// Tests whether a spent slot of one of the first areas holds this text.
pub fn find_earlier<D: Disk>(areas: &[Area], disk: &mut D, text: &[u8]) -> Result<bool, Failed>
    requires laid_out { ForSome (D.content disk.old) (IsLaidOut areas.now) }
    requires few { length areas.now ≤ 7 }
    ensures yes { IfOk result (λ found. found ≡ true →
        ForSome (D.content disk.new) (FindsEarlier areas.now text.now)) }
    ensures no { IfOk result (λ found. found ≡ false →
        ForSome (D.content disk.new) (λ c. FindsEarlier areas.now text.now c → ⊥)) }
    ensures content { Narrows (D.content disk.old) (D.content disk.new) }
    ensures moments { AtEachMoment D.Disk disk.old disk.new Stays }
    ensures cause { HasCause (D.faults disk.old) (D.faults disk.new) result }
    ensures kept { OnOk result (D.faults disk.new ≡ D.faults disk.old) }
{
    let mut base = 0u64;
    for area in areas {
        let counts = area.counts();
        if find_text(base, counts, disk, text)? {
            return Ok(true);
        }
        base = place_in(base, counts.len() as u32);
    }
    Ok(false)
}

/// Copies the text of the slot at this offset to the front of a buffer, and returns its length in octets.
pub fn read_text<D: Disk>(disk: &mut D, place: u64, into: &mut [u8; 126]) -> Result<u32, Failed>
    requires within { ForSome (D.content disk.old) (λ c. place + 128 ≤ length c) }
    requires place { place < 2 ^ 63 }
    ensures text { IfOk result (λ n.
        ForSome (D.content disk.new) (λ c. text_at c place ≡ take n into.new)) }
    ensures short { IfOk result (λ n. n ≤ 126) }
    ensures refused { IsErr result → into.new ≡ into.old }
    ensures content { Narrows (D.content disk.old) (D.content disk.new) }
    ensures moments { AtEachMoment D.Disk disk.old disk.new Stays }
    ensures cause { HasCause (D.faults disk.old) (D.faults disk.new) result }
    ensures kept { OnOk result (D.faults disk.new ≡ D.faults disk.old) }
{
    let mut octets = [0u8; 127];
    disk.read_at(place + 1, &mut octets)?;
    let len = (octets[0] as u32).min(126);
    into.copy_from_slice(&octets[1..]);
    Ok(len)
}

/// Returns the offset at which the area with a number begins, given the areas before it.
pub fn base_of(areas: &[Area], area: u32) -> u64
    requires known { area ≤ length areas.now }
    requires few { length areas.now ≤ 7 }
    ensures base { (image : List ℕ) → IsLaidOut areas.now image → result ≡ base_of image area }
    ensures low { result ≤ 131136 * area }
{
    let mut base = 0u64;
    for number in 0..area {
        let counts = areas[number as usize].counts();
        base = place_in(base, counts.len() as u32);
    }
    base
}
