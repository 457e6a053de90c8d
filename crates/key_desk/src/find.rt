//! Finding out whether a text is signed.
ghost use Rattle.std.specs.Prelude.{◌≡◌, ◌≢◌, ◌≤◌, List, ℕ, Err, true, false, ◌↔◌, IfOk, OnOk, IsErrOf};
ghost use Rattle.road_io.specs.Causes.{Rose};
ghost use Rattle.road_io.specs.Disk.{Stays};
ghost use Rattle.road_io.specs.Moments.{Image, EachImage, AtEachMoment};
ghost use Rattle.desk_areas.specs.Layout.{SlotId, IsSigned};
ghost use Rattle.key_desk.specs.Stands.{KeepsStanding};

use crate::desk::{Desk, DeskError};
use desk_areas::{find_earlier, find_text};
use road_io::{Disk, Failed};

impl Desk {
    ghost use Rattle.key_desk.specs.Desk.{Fits, KeepsAllKnown, SameAreas};

    /// Tests whether a text is signed. The answer holds for every image.
    pub fn signed<D: Disk>(&mut self, disk: &mut D, text: &[u8]) -> Result<bool, DeskError>
        requires fits { Fits D.Disk self.old disk.old }
        ensures fits { Fits D.Disk self.new disk.new }
        ensures yes { IfOk result (λ b. b ≡ true → (slot : SlotId) ×
            EachImage D.Disk disk.new (λ i. IsSigned i slot text.now)) }
        ensures no { IfOk result (λ b. b ≡ false →
            EachImage D.Disk disk.new (λ i. (slot : SlotId) → IsSigned i slot text.now → ⊥)) }
        ensures same { SameAreas self.old self.new × (self.new.counts ≡ self.old.counts) }
        ensures known { KeepsAllKnown D.Disk self.old disk.old self.new disk.new }
        ensures moments { AtEachMoment D.Disk disk.old disk.new Stays }
        ensures stands { KeepsStanding D.Disk disk.old disk.new }
        ensures faults { D.faults disk.old ≤ D.faults disk.new }
        ensures fault { IsErrOf result DeskError.DiskFault →
            Rose (D.faults disk.old) (D.faults disk.new) × (self.new.is_open ≡ false) }
        ensures kept { result ≢ Err DeskError.DiskFault → D.faults disk.new ≡ D.faults disk.old }
        ensures stays_open { OnOk result (self.new.is_open ≡ true) }
        ensures untouched { IsErrOf result DeskError.Closed → (self.new ≡ self.old) ×
            (disk.new ≡ disk.old) }
        ensures stays { OnOk result (self.new ≡ self.old) }
        ensures closed { IsErrOf result DeskError.Closed ↔ (self.old.is_open ≡ false) }
        ensures not_used_up { result ≢ Err DeskError.KeysUsedUp }
    {
        let is_open = self.is_open();
        if !is_open {
            return Err(DeskError::Closed);
        }
        match find_text(self.base(), self.counts(), disk, text) {
            Err(Failed) => {
                self.close();
                return Err(DeskError::DiskFault);
            }
            Ok(true) => return Ok(true),
            Ok(false) => {}
        }
        match find_earlier(self.earlier(), disk, text) {
            Err(Failed) => {
                self.close();
                Err(DeskError::DiskFault)
            }
            Ok(found) => Ok(found),
        }
    }
}
