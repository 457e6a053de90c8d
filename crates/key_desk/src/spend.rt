//! Spending a slot that already holds a text.
ghost use Rattle.std.specs.Prelude.{◌≡◌, ◌≢◌, ◌⊎◌, ◌+◌, ◌<◌, ◌≤◌, List, ℕ, Some, Err, true, length, slice_index_or, IfOk, OnOk, IfSome, IfNone, IsErr, IsErrOf};
ghost use Rattle.std.specs.Option.{ForSome};
ghost use Rattle.road_io.specs.Causes.{HasCause, Rose};
ghost use Rattle.road_io.specs.Disk.{Stays};
ghost use Rattle.road_io.specs.Moments.{Image, EachImage, AtEachMoment};
ghost use Rattle.desk_areas.specs.Faults.{IsBadBlock};
ghost use Rattle.desk_areas.specs.Layout.{SlotId, IsOpen, slots_of};
ghost use Rattle.desk_areas.specs.Settled.{IsSettled};
ghost use Rattle.key_desk.specs.Spending.{IsTexted, OpensTexted, HasSpent, SpendsTexted};

use crate::desk::{Desk, first_free};
use desk_areas::{Count, StartError, open_gate, read_text};
use lms_tree::is_link;
use road_io::{Disk, Failed};
use std::alloc::Global;

impl Desk {
    ghost use Rattle.key_desk.specs.Desk.{count_at, slot_here, Fits};

    /// Spends the lowest free slot of the disk's current area, with the text that it holds, and returns its number.
    /// Makes no signature. Spends nothing if no slot is free, or if the lowest free slot holds no text or a link
    /// text.
    ///
    /// A crash after the text was written and before its gate was opened leaves such a text. So does a fault
    /// outside this program that closes a gate after a signature. In both cases, no call signs another text with
    /// that one-time key.
    pub fn spend_texted<D: Disk>(alloc: Global, disk: &mut D) -> Result<Option<u32>, StartError>
        ensures spends { SpendsTexted D.Disk disk.old disk.new }
        ensures spent { IfOk result (λ found. IfSome found (λ number. EachImage D.Disk disk.new
            (λ i. (c : List ℕ) × (D.content disk.old ≡ Some c) × HasSpent number c i))) }
        ensures none { IfOk result (λ found. IfNone found (EachImage D.Disk disk.new
            (λ i. (slot : SlotId) → IsTexted i slot → ⊥))) }
        ensures nothing { IfOk result
            (λ found. IfNone found (AtEachMoment D.Disk disk.old disk.new Stays)) }
        ensures refused { IsErr result → result ≢ Err StartError.DiskFault →
            AtEachMoment D.Disk disk.old disk.new Stays }
        ensures no_key { IsErrOf result StartError.NoKey →
            ForSome (D.content disk.new) (λ c. IsOpen c → ⊥) }
        ensures bad_block { IsErrOf result StartError.BadBlock →
            ForSome (D.content disk.new) (λ c. IsOpen c × IsBadBlock c) }
        ensures not_held { result ≢ Err StartError.Held }
        ensures faults { D.faults disk.old ≤ D.faults disk.new }
        ensures fault { IsErrOf result StartError.DiskFault →
            Rose (D.faults disk.old) (D.faults disk.new) }
        ensures kept { result ≢ Err StartError.DiskFault → D.faults disk.new ≡ D.faults disk.old }
    {
        let desk = Desk::reopen(alloc, disk)?;
        let found = desk.texted(disk)?;
        match found {
            None => Ok(None),
            Some(number) => {
                desk.open_texted(disk, number)?;
                Ok(Some(number))
            }
        }
    }

    // Returns the lowest free slot, if it holds a text that it may have signed.
    fn texted<D: Disk>(&self, disk: &mut D) -> Result<Option<u32>, Failed>
        requires fits { Fits D.Disk self.now disk.old }
        requires opened { self.now.is_open ≡ true }
        requires either { (s : ℕ) → (count_at self.now s ≡ Count.Free) ⊎
            (count_at self.now s ≡ Count.Spent) }
        requires settled { IsSettled D.Disk disk.old }
        ensures found { IfOk result (λ found. IfSome found (λ number.
            EachImage D.Disk disk.new (λ i. IsTexted i (slot_here self.now number)))) }
        ensures early { IfOk result (λ found. IfSome found
            (λ number. number + 1 < slots_of self.now.key.kind)) }
        ensures none { IfOk result (λ found. IfNone found (EachImage D.Disk disk.new
            (λ i. (slot : SlotId) → IsTexted i slot → ⊥))) }
        ensures moments { AtEachMoment D.Disk disk.old disk.new Stays }
        ensures cause { HasCause (D.faults disk.old) (D.faults disk.new) result }
        ensures kept { OnOk result (D.faults disk.new ≡ D.faults disk.old) }
    {
        let Some(number) = first_free(self.counts()) else {
            return Ok(None);
        };
        let place = self.place(number);
        let mut octets = [0u8; 126];
        let len = read_text(disk, place, &mut octets)?;
        let text = &octets[..len as usize];
        if text.is_empty() {
            return Ok(None);
        }
        if is_link(text) {
            return Ok(None);
        }
        Ok(Some(number))
    }

    // Opens the gate of a slot that holds a text.
    fn open_texted<D: Disk>(&self, disk: &mut D, number: u32) -> Result<(), Failed>
        requires fits { Fits D.Disk self.now disk.old }
        requires early { number + 1 < slots_of self.now.key.kind }
        requires texted { EachImage D.Disk disk.old (λ i. IsTexted i (slot_here self.now number)) }
        ensures moments { AtEachMoment D.Disk disk.old disk.new OpensTexted }
        ensures spent { OnOk result (EachImage D.Disk disk.new (λ i. (d : List ℕ) ×
            Image D.Disk disk.old d × HasSpent number d i)) }
        ensures cause { HasCause (D.faults disk.old) (D.faults disk.new) result }
        ensures kept { OnOk result (D.faults disk.new ≡ D.faults disk.old) }
    {
        open_gate(disk, self.place(number))
    }
}
