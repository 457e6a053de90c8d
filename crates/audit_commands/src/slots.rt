//! The keys of a desk, and the texts that their slots have signed.

ghost use Rattle.std.specs.Prelude.{◌≡◌, ◌≢◌, ◌<◌, ◌≤◌, ℕ, List, None, true, length, take, IfOk, IfErr, IfSome, IfNone};
ghost use Rattle.std.specs.Option.{option_map};
ghost use Rattle.road_io.specs.Causes.{Rose};
ghost use Rattle.road_io.specs.Disk.{Stays};
ghost use Rattle.road_io.specs.Moments.{AtEachMoment, EachImage};
ghost use Rattle.lms_tree.specs.Signatures.{number_at, public_key};
ghost use Rattle.desk_areas.specs.Layout.{slots_of};
ghost use Rattle.key_desk.specs.Desk.{Fits, HasAreas, key_of};
ghost use Rattle.audit_commands.specs.Reducing.{HasSpent, IsNamed};

use desk_areas::slots_of;
use key_desk::{AreaError, Desk, DeskError};
use octet_text::array_at;
use road_io::Disk;

/// Returns the open area that has this public key, if any.
pub fn area_of(desk: &Desk, public: &[u8; 56]) -> Option<u32>
    ensures found { IfSome result (λ area. (area ≤ length desk.now.earlier) ×
        (public_key (key_of desk.now area) ≡ public.now)) }
    ensures none { IfNone result ((area : ℕ) → area ≤ length desk.now.earlier →
        public_key (key_of desk.now area) ≢ public.now) }
{
    for area in 0..desk.key_count() {
        if desk.public_of(area) == *public {
            return Some(area);
        }
    }
    None
}

/// Returns the number of slots of an open area.
fn slots_in(desk: &Desk, area: u32) -> u32
    requires opened { desk.now.is_open ≡ true }
    requires area { area ≤ length desk.now.earlier }
    ensures { result ≡ slots_of (key_of desk.now area).kind }
{
    match desk.area(area) {
        Ok(key) => slots_of(key.kind()),
        Err(AreaError::Closed) => unreachable!(),
    }
}

/// Returns the number of the slot that a signature names in its first four octets.
#[tactic(auto, unfolding(lms_tree::specs::Signatures::number_at))]
fn number(sig: &[u8]) -> Option<u32>
    ensures some { IfSome result (λ slot. (slot ≡ number_at sig.now 0) × (4 ≤ length sig.now)) }
    ensures none { IfNone result (length sig.now < 4) }
{
    if sig.len() < 4 {
        return None;
    }
    Some(u32::from_be_bytes(array_at(sig, 0)))
}

/// Returns a slot's number if it is less than the number of slots.
fn within(slot: u32, slots: u32) -> Option<u32>
    ensures some { IfSome result (λ number. (number ≡ slot) × (slot < slots)) }
    ensures none { IfNone result (slots ≤ slot) }
{
    if slot < slots { Some(slot) } else { None }
}

/// Returns the slot of an open area that a signature names, if it exists.
fn slot_of(desk: &Desk, area: u32, sig: &[u8]) -> Option<u32>
    requires opened { desk.now.is_open ≡ true }
    requires area { area ≤ length desk.now.earlier }
    ensures some { IfSome result (IsNamed desk.now area sig.now) }
    ensures none { IfNone result ((i : List ℕ) → HasAreas desk.now i →
        HasSpent i area sig.now None) }
{
    match number(sig) {
        None => None,
        Some(slot) => within(slot, slots_in(desk, area)),
    }
}

/// Copies the text that the slot named by a signature has signed to the front of `into`, and returns its number of
/// octets. Returns `None` if the slot has signed no text.
pub fn spent_of<D: Disk>(
    desk: &mut Desk,
    disk: &mut D,
    area: u32,
    sig: &[u8],
    into: &mut [u8; 126],
) -> Result<Option<u32>, DeskError>
    requires fits { Fits D.Disk desk.old disk.old }
    requires opened { desk.old.is_open ≡ true }
    requires area { area ≤ length desk.old.earlier }
    ensures spent { IfOk result (λ found. EachImage D.Disk disk.new (λ i.
        HasSpent i area sig.now (option_map (λ n. take n into.new) found))) }
    ensures short { IfOk result (λ found. IfSome found (λ n. n ≤ 126)) }
    ensures desk { IfOk result (λ found. desk.new ≡ desk.old) }
    ensures failed { IfErr result (λ e. Rose (D.faults disk.old) (D.faults disk.new)) }
    ensures faults { D.faults disk.old ≤ D.faults disk.new }
    ensures unfaulted { IfOk result (λ found. D.faults disk.new ≡ D.faults disk.old) }
    ensures stays { AtEachMoment D.Disk disk.old disk.new Stays }
{
    match slot_of(desk, area, sig) {
        None => Ok(None),
        Some(slot) => desk.text_of(disk, area, slot, into),
    }
}
