//! The contents of a desk: the facts that are reported, and the slots over which no command may sign.
ghost use Rattle.std.specs.Prelude.{◌≡◌, ◌+◌, ◌-◌, ◌*◌, ◌<◌, ◌≤◌, ◌↔◌, ◌≢◌, ℕ, true, length, get_or, IfOk, IfErr, IfSome, IfNone, IsSomeAnd, Some, MatchOption, MatchResult, Ok, Err, None};
ghost use Rattle.desk_areas.specs.Layout.{place_in, slots_at, base_of, gate_at, text_at};
ghost use Rattle.lms_tree.specs.Links.{IsLink};
ghost use Rattle.desk_sight.specs.Slots.{IsGreater, IsSlots};
ghost use Rattle.desk_areas.specs.Reading.{IsLinkTo};
ghost use Rattle.desk_sight.specs.Areas.{early_at, HasBlock, HasOctet, IsWrongIn, IsShut, IsPlainBlock, IsStrange};
ghost use Rattle.desk_sight.specs.Sights.{IsTold, IsSight, IsSightOf, IsUntold};

use crate::first_key::kind_at;
use crate::octets::is_zero;
use crate::slots::{Signed, Slots, greater, slots_of};
use crate::strange::Strange;
use desk_areas::slots_of as kind_slots;
use lms_tree::is_link;
use octet_text::array_at;

/// The contents of a desk before a command signs.
#[derive(Clone, Copy, Debug, PartialEq, Eq)]
pub struct Sight {
    /// The number of the current key, from 1.
    pub key: u32,
    /// The number of the current key's one-time keys that sign maps.
    pub size: u32,
    /// The number of these one-time keys that are used. The first ones are used first.
    pub spent: u32,
    /// The last header that the desk signed.
    pub last: Option<Signed>,
    /// The greatest version that the desk signed.
    pub greatest: Option<u64>,
    /// A whole header in the first free one-time key. Either a crash left it there, or a bit was flipped after its
    /// signature.
    pub waiting: Option<Signed>,
    /// The key that a whole link text names, if this text is in the last one-time key and that key is free. The
    /// possible causes are the same.
    pub link: Option<[u8; 56]>,
    /// Whether the octet at the first gate of the next key is not zero.
    pub is_followed: bool,
}

impl Sight {
    /// Returns the sight with one more used one-time key.
    pub fn with_one_more(self) -> Sight {
        Sight {
            spent: self.spent.saturating_add(1),
            waiting: None,
            ..self
        }
    }

    /// Returns the number of maps that the current key can still sign.
    pub fn left(&self) -> u32 {
        self.size.saturating_sub(self.spent)
    }
}

/// The headers that some keys of a desk have signed.
#[derive(Clone, Copy)]
pub(crate) struct Told {
    /// The last header.
    pub last: Option<Signed>,
    /// The greatest version of a header.
    pub greatest: Option<u64>,
}

impl Told {
    // Starts without any key.
    fn none(image: &[u8]) -> Told
        ensures { IsTold image.now 0 result }
    {
        Told {
            last: None,
            greatest: None,
        }
    }

    // Adds one more key, with these slots.
    fn with(self, image: &[u8], area: u32, base: usize, count: u32, slots: Slots) -> Told
        requires told { IsTold image.now area self }
        requires base { base ≡ base_of image.now area }
        requires count { count ≡ early_at image.now area }
        requires slots { IsSlots image.now base count slots }
        ensures { IsTold image.now (area + 1) result }
    {
        Told {
            last: later(self.last, slots.last),
            greatest: greatest(self.greatest, slots.greatest),
        }
    }
}

// Returns the later header if there is one, and otherwise the earlier one.
fn later(before: Option<Signed>, now: Option<Signed>) -> Option<Signed>
    ensures { MatchOption now (result ≡ before) (λ signed. result ≡ Some signed) }
{
    match now {
        None => before,
        Some(signed) => Some(signed),
    }
}

// Returns the greater of two versions, or the only one, if any.
fn greatest(before: Option<u64>, now: Option<u64>) -> Option<u64>
    ensures { MatchOption now (result ≡ before)
        (λ version. IsSomeAnd result (IsGreater before version)) }
{
    match now {
        None => before,
        Some(version) => Some(greater(before, version)),
    }
}

// Returns the number of slots of the area at a base, or 0 if its kind is unknown or it does not lie within the
// image.
pub(crate) fn whole_slots(image: &[u8], base: usize) -> u32
    requires { base ≤ 1000000 }
    ensures some { 0 < result → (result ≡ slots_at image.now base) ×
        (place_in base result ≤ length image.now) × (result ≤ 1024) }
    ensures none { result ≡ 0 → 0 < slots_at image.now base →
        place_in base (slots_at image.now base) ≤ length image.now → ⊥ }
{
    let slots = block_slots(image, base);
    if image.len() < base + 64 + 128 * slots as usize {
        return 0;
    }
    slots
}

// Returns the number of slots of the kind at a base.
pub(crate) fn block_slots(image: &[u8], base: usize) -> u32
    requires { base ≤ 1200000 }
    ensures slots { result ≡ slots_at image.now base }
    ensures few { result ≤ 1024 }
{
    if image.len() < base + 5 {
        return 0;
    }
    kind_slots(kind_at(image, base))
}

// Tests whether those octets of a block that are always zero are zero.
fn is_plain_block(image: &[u8], base: usize, area: u32) -> bool
    requires within { base + 64 ≤ length image.now }
    requires base { base ≡ base_of image.now area }
    ensures { (result ≡ true) ↔ IsPlainBlock image.now area }
{
    is_zero(image, base + 53, base + 64) && (area == 0 || image[base] == 0)
}

// Returns the octets of a slot in which its text may be.
fn text_of(image: &[u8], place: usize) -> &[u8]
    requires { place + 128 ≤ length image.now }
    ensures { result.now ≡ text_at image.now place }
{
    let length = (image[place + 1] as usize).min(126);
    &image[place + 2..place + 2 + length]
}

// Returns the key that the link text in a free last slot names.
fn waiting_link(image: &[u8], place: usize) -> Option<[u8; 56]>
    requires { place + 128 ≤ length image.now }
    ensures some { IfSome result (λ key. (gate_at image.now place ≡ 0) ×
        IsLinkTo (text_at image.now place) key) }
    ensures none { IfNone result (gate_at image.now place ≡ 0 → IsLink (text_at image.now place) → ⊥) }
{
    if image[place] != 0 {
        return None;
    }
    let text = text_of(image, place);
    if is_link(text) {
        Some(array_at(text, 4))
    } else {
        None
    }
}

// Tests whether the last slot of an area is spent and holds a link text.
fn is_linked(image: &[u8], place: usize) -> bool
    requires { place + 128 ≤ length image.now }
    ensures { (result ≡ true) ↔ ((0 < gate_at image.now place) × IsLink (text_at image.now place)) }
{
    image[place] != 0 && is_link(text_of(image, place))
}

// Tests whether an octet exists and is not zero.
pub(crate) fn is_some(image: &[u8], place: usize) -> bool
    ensures { (result ≡ true) ↔ (0 < gate_at image.now place) }
{
    place < image.len() && image[place] != 0
}

// Tests whether there is a block at a base and the octets of its secret are not all equal.
fn has_block(image: &[u8], base: usize) -> bool
    requires { base ≤ 1200000 }
    ensures { (result ≡ true) ↔ HasBlock image.now base }
{
    block_slots(image, base) != 0 && has_secret(image, base + 5)
}

// Tests whether the 48 octets at an offset are not all equal. The image may end before them.
fn has_secret(image: &[u8], place: usize) -> bool
    requires { place ≤ 1300000 }
    ensures { (result ≡ true) ↔ ((number : ℕ) × (number < 48) ×
        (get_or image.now (place + number) 0 ≢ get_or image.now place 0)) }
{
    let first = octet_at(image, place);
    for number in 0..48usize {
        if octet_at(image, place + number) != first {
            return true;
        }
    }
    false
}

// Returns the octet at an offset, or 0 past the end.
fn octet_at(image: &[u8], place: usize) -> u8
    ensures { result ≡ get_or image.now place 0 }
{
    if place < image.len() { image[place] } else { 0 }
}

// Tests whether any octet from one offset up to another exists and is not zero.
fn has_octet(image: &[u8], from: usize, to: usize) -> bool
    ensures { (result ≡ true) ↔ HasOctet image.now from to }
{
    for place in from..to.min(image.len()) {
        if image[place] != 0 {
            return true;
        }
    }
    false
}

// Tests whether there is a desk behind a closed first gate. Something other than a run must then have closed the
// gate.
pub(crate) fn is_shut(image: &[u8]) -> bool
    requires { gate_at image.now 0 ≡ 0 }
    ensures { (result ≡ true) ↔ IsShut image.now }
{
    if !has_block(image, 0) {
        return false;
    }
    let end = 64 + 128 * block_slots(image, 0) as usize;
    has_octet(image, 64, end) || has_block(image, end)
}

// Returns the sight of an area that is reached and whole, given what the areas before it have signed.
fn sight_in(image: &[u8], base: usize, area: u32, slots: u32, told: Told) -> Result<Sight, Strange>
    requires base { base ≡ base_of image.now area }
    requires low { base ≤ 917952 }
    requires few { area < 8 }
    requires slots { slots ≡ slots_at image.now base }
    requires some { 0 < slots }
    requires most { slots ≤ 1024 }
    requires within { place_in base slots ≤ length image.now }
    requires told { IsTold image.now area told }
    ensures sight { IfOk result (IsSightOf image.now area) }
    ensures strange { IfErr result (IsWrongIn image.now area) }
{
    let key = area + 1;
    if !is_plain_block(image, base, area) {
        return Err(Strange::Block { key });
    }
    let size = slots - 1;
    let found = match slots_of(image, base, key, size) {
        Ok(found) => found,
        Err(strange) => return Err(strange),
    };
    let told = told.with(image, area, base, size, found);
    let last = base + 64 + 128 * size as usize;
    Ok(Sight {
        key,
        size,
        spent: found.spent,
        last: told.last,
        greatest: told.greatest,
        waiting: found.waiting,
        link: waiting_link(image, last),
        is_followed: is_some(image, last + 192),
    })
}

/// Returns the contents of the desk with these octets, or `None` if it has no key that can be recognised. Fails if
/// the octets hold anything that no run and no crash leaves.
pub fn sight_of(image: &[u8]) -> Result<Option<Sight>, Strange>
    ensures told { MatchResult result
        (λ found. MatchOption found (IsUntold image.now) (IsSight image.now)) (IsStrange image.now) }
    ensures strange { (e : Strange) → IsStrange image.now e → result ≡ Err e }
    ensures untold { IsUntold image.now → result ≡ Ok None }
{
    sight_found(image)
}

// Does the same, one area after the other.
fn sight_found(image: &[u8]) -> Result<Option<Sight>, Strange>
    ensures { MatchResult result (λ found. MatchOption found (IsUntold image.now) (IsSight image.now))
        (IsStrange image.now) }
{
    if !is_some(image, 0) {
        return if is_shut(image) {
            Err(Strange::Shut)
        } else {
            Ok(None)
        };
    }
    let mut told = Told::none(image);
    let mut base = 0usize;
    for area in 0..8u32 {
        let slots = whole_slots(image, base);
        if slots == 0 {
            return Ok(None);
        }
        let sight = sight_in(image, base, area, slots, told)?;
        if !is_linked(image, base + 64 + 128 * (slots as usize - 1)) {
            return Ok(Some(sight));
        }
        told = Told {
            last: sight.last,
            greatest: sight.greatest,
        };
        base = base + 64 + 128 * slots as usize;
    }
    Ok(None)
}
