//! The texts that the slots of a desk have signed.
ghost use Rattle.std.specs.Prelude.{◌≡◌, ◌≢◌, ◌^◌, ◌<◌, ◌≤◌, ◌↔◌, ℕ, List, Err, true, false, length, IfOk, OnOk, IfNone, IsSome, IsErr, IsErrOf};
ghost use Rattle.road_io.specs.Causes.{Rose};
ghost use Rattle.road_io.specs.Disk.{Stays};
ghost use Rattle.road_io.specs.Moments.{AtEachMoment};
ghost use Rattle.desk_areas.specs.Layout.{SlotId, place_of, slots_of};
ghost use Rattle.key_desk.specs.Stands.{KeepsStanding};

use crate::desk::{Desk, DeskError};
use desk_areas::{Count, base_of, place_in, read_text};
use road_io::{Disk, Failed};

impl Desk {
    ghost use Rattle.key_desk.specs.Desk.{count_of, counts_of, key_of, HasAreas, IsSlotOf, IsSound, Fits, KeepsAllKnown};
    ghost use Rattle.key_desk.specs.SlotTexts.{HasInSlot};

    // Returns the states of the slots of an open area.
    fn counts_in(&self, area: u32) -> &[Count]
        requires { area ≤ length self.now.earlier }
        ensures counts { result.now ≡ counts_of self.now area }
        ensures sized { length result.now ≡ slots_of (key_of self.now area).kind }
    {
        let earlier = self.earlier();
        if (area as usize) < earlier.len() {
            earlier[area as usize].counts()
        } else {
            self.counts()
        }
    }

    // Tests whether a slot of an open area counts as spent.
    fn is_spent(&self, area: u32, slot: u32) -> bool
        requires { IsSlotOf self.now (record { area = area; number = slot }) }
        ensures { (result ≡ true) ↔
            (count_of self.now (record { area = area; number = slot }) ≡ Count.Spent) }
    {
        let counts = self.counts_in(area);
        counts[slot as usize] == Count::Spent
    }

    // Returns the offset at which a slot of an open area begins.
    fn place_of(&self, area: u32, slot: u32) -> u64
        requires { IsSlotOf self.now (record { area = area; number = slot }) }
        ensures place { (image : List ℕ) → IsSound self.now → HasAreas self.now image →
            result ≡ place_of image (record { area = area; number = slot }) }
        ensures low { result < 2 ^ 63 }
    {
        let base = base_of(self.earlier(), area);
        place_in(base, slot)
    }

    /// Copies the text that a slot of an open area has signed to the front of `into`, and returns its length.
    /// Returns `None` exactly if the slot is not spent. Takes no memory.
    pub fn text_of<D: Disk>(
        &mut self,
        disk: &mut D,
        area: u32,
        slot: u32,
        into: &mut [u8; 126],
    ) -> Result<Option<u32>, DeskError>
        requires fits { Fits D.Disk self.old disk.old }
        requires slot { IsSlotOf self.old (record { area = area; number = slot }) }
        ensures fits { Fits D.Disk self.new disk.new }
        ensures text { IfOk result
            (HasInSlot D.Disk disk.new (record { area = area; number = slot }) into.new) }
        ensures spent { IfOk result (λ found. IsSome found ↔
            (count_of self.old (record { area = area; number = slot }) ≡ Count.Spent)) }
        ensures kept { IfOk result (λ found. IfNone found (into.new ≡ into.old)) }
        ensures refused { IsErr result → into.new ≡ into.old }
        ensures known { KeepsAllKnown D.Disk self.old disk.old self.new disk.new }
        ensures moments { AtEachMoment D.Disk disk.old disk.new Stays }
        ensures stands { KeepsStanding D.Disk disk.old disk.new }
        ensures faults { D.faults disk.old ≤ D.faults disk.new }
        ensures fault { IsErrOf result DeskError.DiskFault →
            Rose (D.faults disk.old) (D.faults disk.new) }
        ensures unfaulted { result ≢ Err DeskError.DiskFault → D.faults disk.new ≡ D.faults disk.old }
        ensures closes { IsErrOf result DeskError.DiskFault →
            self.new ≡ record self.old { is_open = false } }
        ensures untouched { IsErrOf result DeskError.Closed → (self.new ≡ self.old) ×
            (disk.new ≡ disk.old) }
        ensures stays { OnOk result (self.new ≡ self.old) }
        ensures closed { IsErrOf result DeskError.Closed ↔ (self.old.is_open ≡ false) }
        ensures not_used_up { result ≢ Err DeskError.KeysUsedUp }
    {
        let is_open = self.is_open();
        if !is_open {
            return Err(DeskError::Closed);
        }
        let is_spent = self.is_spent(area, slot);
        if !is_spent {
            return Ok(None);
        }
        let place = self.place_of(area, slot);
        match read_text(disk, place, into) {
            Err(Failed) => {
                self.close();
                Err(DeskError::DiskFault)
            }
            Ok(len) => Ok(Some(len)),
        }
    }
}
