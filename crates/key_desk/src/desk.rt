//! The desk, and the states of a signing.
ghost use Rattle.std.specs.Prelude.{◌≡◌, ◌≢◌, ◌⊎◌, ◌+◌, ◌*◌, ◌^◌, ◌<◌, ◌≤◌, ◌↔◌, List, ℕ, true, false, length, slice_set, slice_index_or, IfOk, OnOk, IsErrOf, IsErr, IsOk, Err, IfSome, IfNone, take, drop, ◌∷◌};
ghost use Rattle.road_io.specs.Causes.{Rose, RoseBy};
ghost use Rattle.road_io.specs.Moments.{Image, EachImage, AtEachMoment};
ghost use Rattle.desk_areas.specs.Calls.{CalledUpTo};
ghost use Rattle.desk_areas.specs.Layout.{SlotId, slots_of, place_in, gate_of, IsSigned, OpensGate, PutsText, SameSigned, SignsAtMost};
ghost use Rattle.key_desk.specs.Stands.{KeepsStanding};
ghost use Rattle.lms_tree.specs.Signatures.{height_of, public_key, seal_len, sealed};
ghost use Rattle.lms_tree.specs.Links.{IsLink};

use desk_areas::{Area, Count, open_gate, place_in, put_text};
use lms_tree::{Key, sig_len};
use road_io::{Disk, Failed};
use std::marker::Model;
use thiserror::Error;

/// Why a desk refuses.
#[derive(Clone, Copy, Debug, PartialEq, Eq, Error)]
pub enum DeskError {
    /// No slot is free.
    #[error("No one-time key of the desk is free.")]
    KeysUsedUp,
    /// The disk failed. From now on the desk is closed.
    #[error("The disk failed, and the desk is closed.")]
    DiskFault,
    /// The disk failed before. The desk must be opened again.
    #[error("The desk is closed since its disk failed, and must be opened again.")]
    Closed,
}

/// An owner's desk over the keys on a disk. It signs each text with its own one-time key of the disk's last open
/// area. It spends the key's slot on the disk before it makes the signature. While the desk is open, only `links`
/// takes memory.
#[derive(Drop)]
pub struct Desk {
    pub(crate) earlier: Vec<Area>,
    pub(crate) base: u64,
    pub(crate) key: Key,
    pub(crate) counts: Vec<Count>,
    pub(crate) is_open: bool,
}

impl Model for Desk {
    ghost use Rattle.std.specs.Prelude.{◌≡◌, ◌≤◌, ◌*◌, length};
    ghost use Rattle.key_desk.specs.View.{View};
    ghost use Rattle.desk_areas.specs.Layout.{slots_of};

    ghost Value = { View };

    ghost view = { λ d. record {
      earlier = d.earlier.items;
      base = d.base;
      key = d.key;
      counts = d.counts.items;
      is_open = d.is_open;
    } };

    ghost invariant = { λ d. (length d.counts.items ≡ slots_of d.key.kind) ×
        (d.base ≤ 131136 * length d.earlier.items) × (length d.earlier.items ≤ 7) };
}

impl Desk {
    ghost use Rattle.desk_areas.specs.Layout.{slots_of};
    ghost use Rattle.key_desk.specs.Desk.{IsSignature};

    /// Returns the public key, 56 octets.
    pub fn public(&self) -> [u8; 56]
        ensures { result ≡ public_key self.now.key }
    {
        self.key.public()
    }

    /// Returns the number of octets in a signature.
    pub fn sig_len(&self) -> u32
        ensures { result ≡ seal_len (height_of self.now.key.kind) }
    {
        signature_len(self.key.kind())
    }

    // Writes the signature of a text by the one-time key of a slot.
    fn sign_with(&self, slot: u32, text: &[u8], out: &mut [u8])
        requires slot { slot < slots_of self.now.key.kind }
        requires room { length out.old ≡ seal_len (height_of self.now.key.kind) }
        ensures exact { out.new ≡ sealed self.now.key slot text.now }
        ensures signature { IsSignature self.now.key slot text.now out.new }
    {
        self.key.sign_into(slot, text, out);
    }

    // Tests whether no call has met a disk error so far.
    pub(crate) fn is_open(&self) -> bool
        ensures { result ≡ self.now.is_open }
    {
        self.is_open
    }

    // Returns the state of each slot of the current area.
    pub(crate) fn counts(&self) -> &[Count]
        ensures counts { result.now ≡ self.now.counts }
        ensures sized { length result.now ≡ slots_of self.now.key.kind }
        ensures few { length result.now ≤ 1024 }
    {
        &self.counts
    }

    // Returns the key of the current area.
    pub(crate) fn key(&self) -> &Key
        ensures { result.now ≡ self.now.key }
    {
        &self.key
    }

    // Returns the number of the current area.
    fn current(&self) -> u32
        ensures { result ≡ length self.now.earlier }
    {
        self.earlier.len() as u32
    }

    // Returns the offset at which the current area begins.
    pub(crate) fn base(&self) -> u64
        ensures base { result ≡ self.now.base }
        ensures low { result ≤ 131136 * length self.now.earlier }
        ensures few { length self.now.earlier ≤ 7 }
    {
        self.base
    }

    // Returns the offset at which a slot of the current area begins.
    pub(crate) fn place(&self, number: u32) -> u64
        requires { number < slots_of self.now.key.kind }
        ensures place { result ≡ place_in self.now.base number }
        ensures low { result < 2 ^ 63 }
    {
        place_in(self.base, number)
    }

    // Returns the areas before the current one.
    pub(crate) fn earlier(&self) -> &[Area]
        ensures areas { result.now ≡ self.now.earlier }
        ensures few { length result.now ≤ 7 }
    {
        &self.earlier
    }

    // Sets the state of a slot.
    pub(crate) fn count(&mut self, slot: u32, count: Count)
        requires { slot < length self.old.counts }
        ensures { self.new ≡ record self.old { counts = slice_set self.old.counts slot count } }
    {
        self.counts[slot as usize] = count;
    }

    // Closes the desk.
    pub(crate) fn close(&mut self)
        ensures { self.new ≡ record self.old { is_open = false } }
    {
        self.is_open = false;
    }

    // Makes a desk from these parts.
    pub(crate) fn from_parts(earlier: Vec<Area>, base: u64, key: Key, counts: Vec<Count>) -> Desk
        requires sized { length counts.items ≡ slots_of key.kind }
        requires low { base ≤ 131136 * length earlier.items }
        requires few { length earlier.items ≤ 7 }
        ensures { result ≡ record {
          earlier = earlier.items;
          base = base;
          key = key;
          counts = counts.items;
          is_open = true;
        } }
    {
        Desk {
            earlier,
            base,
            key,
            counts,
            is_open: true,
        }
    }
}

impl Desk {
    // Makes a desk with this current area.
    pub(crate) fn with_current(earlier: Vec<Area>, base: u64, area: Area) -> Desk
        requires low { base ≤ 131136 * length earlier.items }
        requires few { length earlier.items ≤ 7 }
        ensures { result ≡ record {
          earlier = earlier.items;
          base = base;
          key = area.key;
          counts = area.counts;
          is_open = true;
        } }
    {
        let (key, counts) = area.into_parts();
        Desk {
            earlier,
            base,
            key,
            counts,
            is_open: true,
        }
    }
}

// Returns the number of octets in a signature by a key of this type.
pub(crate) fn signature_len(kind: u32) -> u32
    ensures { result ≡ seal_len (height_of kind) }
{
    match sig_len(kind) {
        Some(len) => len,
        // No key has any other type, so this case does not occur. The value stands for a signature without a path.
        None => 1132,
    }
}

/// A slot that is reserved for one signing. It must be given back or written.
pub struct Ticket {
    slot: u32,
}

impl Model for Ticket {
    ghost use Rattle.std.specs.Prelude.{ℕ};

    ghost Value = { ℕ };

    ghost view = { λ t. t.slot };
}

/// A slot whose text is on the disk behind its closed gate. It must be spent.
pub struct Texted {
    area: u32,
    number: u32,
    len: usize,
    piece: [u8; 127],
    ghost short: { len ≤ 126 },
    ghost plain: { IsLink (take len (drop 1 piece)) → ⊥ },
}

/// A slot whose text is on the disk and whose gate is open. It must be sealed.
pub struct Spent {
    area: u32,
    number: u32,
    len: usize,
    piece: [u8; 127],
    ghost short: { len ≤ 126 },
}

impl Desk {
    ghost use Rattle.key_desk.specs.Desk.{count_at, slot_here, IsUsedUp, PutsLowest, SameAreas, Fits, KnowsTexted, KnowsSpent, KeepsKnown, KeepsAllKnown, texted_slot, texted_text, spent_slot, spent_text};
    ghost use Rattle.key_desk.specs.Desk.{IsSignature};

    /// Reserves the lowest free slot of the current area. The last slot is never reserved, since it is kept for the
    /// link to the next key.
    pub fn ticket(&mut self) -> Result<Ticket, DeskError>
        ensures out { IfOk result (λ t. (count_at self.old t ≡ Count.Free) ×
            (self.new ≡ record self.old { counts = slice_set self.old.counts t Count.Out })) }
        ensures early { IfOk result (λ t. t + 1 < slots_of self.old.key.kind) }
        ensures lowest { IfOk result (λ t. (s : ℕ) → s < t → count_at self.old s ≢ Count.Free) }
        ensures same { SameAreas self.old self.new }
        ensures refused { IsErr result → self.new ≡ self.old }
        ensures used_up { IsErrOf result DeskError.KeysUsedUp → (self.old.is_open ≡ true) ×
            IsUsedUp self.old }
        ensures closed { IsErrOf result DeskError.Closed ↔ (self.old.is_open ≡ false) }
        ensures not_free { IsUsedUp self.old → self.old.is_open ≡ true →
            result ≡ Err DeskError.KeysUsedUp }
        ensures open { IsOk result → self.old.is_open ≡ true }
        ensures no_fault { result ≢ Err DeskError.DiskFault }
    {
        let is_open = self.is_open();
        if !is_open {
            return Err(DeskError::Closed);
        }
        match first_free(self.counts()) {
            None => Err(DeskError::KeysUsedUp),
            Some(slot) => {
                self.count(slot, Count::Out);
                Ok(Ticket { slot })
            }
        }
    }

    /// Signs a text with the next one-time key: takes a ticket, writes the text, opens the gate, and makes the
    /// signature. If none of these fails, it makes four calls to the disk.
    pub fn sign<D: Disk>(
        &mut self,
        disk: &mut D,
        text: &[u8],
        out: &mut [u8],
    ) -> Result<u32, DeskError>
        requires fits { Fits D.Disk self.old disk.old }
        requires short { length text.now ≤ 126 }
        requires plain { IsLink text.now → ⊥ }
        requires out { length out.old ≡ seal_len (height_of self.old.key.kind) }
        ensures fits { Fits D.Disk self.new disk.new }
        ensures signed { IfOk result
            (λ q. KnowsSpent D.Disk self.new disk.new (slot_here self.old q) text.now) }
        ensures was_free { IfOk result
            (λ q. EachImage D.Disk disk.old (λ i. gate_of i (slot_here self.old q) ≡ 0)) }
        ensures early { IfOk result (λ q. q + 1 < slots_of self.old.key.kind) }
        ensures lowest { IfOk result
            (λ q. (s : ℕ) → s < q → count_at self.old s ≢ Count.Free) }
        ensures exact { IfOk result (λ q. out.new ≡ sealed self.new.key q text.now) }
        ensures signature { IfOk result (λ q. IsSignature self.new.key q text.now out.new) }
        ensures out { IsErr result → out.new ≡ out.old }
        ensures same { SameAreas self.old self.new }
        ensures stays_open { IsOk result → self.new.is_open ≡ true }
        ensures succeeds { self.old.is_open ≡ true → (s : ℕ) → s + 1 < slots_of self.old.key.kind →
            count_at self.old s ≡ Count.Free → (Rose (D.faults disk.old) (D.faults disk.new) → ⊥) →
            IsOk result }
        ensures counts { IfOk result
            (λ q. self.new.counts ≡ slice_set self.old.counts q Count.Spent) }
        ensures others { (q : ℕ) × (IfOk result (λ number. number ≡ q)) ×
            ((s : ℕ) → s ≢ q → count_at self.new s ≡ count_at self.old s) }
        ensures taken { (s : ℕ) → count_at self.old s ≢ Count.Free →
            count_at self.new s ≡ count_at self.old s }
        ensures unfreed { IsErrOf result DeskError.DiskFault → (q : ℕ) ×
            (count_at self.old q ≡ Count.Free) × (count_at self.new q ≢ Count.Free) ×
            ((s : ℕ) → s ≢ q → count_at self.new s ≡ count_at self.old s) }
        ensures untouched { IsErr result → result ≢ Err DeskError.DiskFault →
            (self.new ≡ self.old) × (disk.new ≡ disk.old) }
        ensures not_free { IsUsedUp self.old → self.old.is_open ≡ true →
            result ≡ Err DeskError.KeysUsedUp }
        ensures known { KeepsAllKnown D.Disk self.old disk.old self.new disk.new }
        ensures moments { (q : ℕ) × (IfOk result (λ number. number ≡ q)) ×
            (q + 1 < slots_of self.old.key.kind) × AtEachMoment D.Disk disk.old disk.new
            (λ d i. ((i ≡ d) ⊎ PutsLowest self.old q text.now d i) ×
            SignsAtMost (slot_here self.old q) text.now d i) }
        ensures stands { KeepsStanding D.Disk disk.old disk.new }
        ensures counted { OnOk result (RoseBy 4 (D.calls disk.old) (D.calls disk.new)) }
        ensures few { CalledUpTo 4 (D.calls disk.old) (D.calls disk.new) }
        ensures faults { D.faults disk.old ≤ D.faults disk.new }
        ensures fault { IsErrOf result DeskError.DiskFault →
            Rose (D.faults disk.old) (D.faults disk.new) × (self.new.is_open ≡ false) }
        ensures kept { result ≢ Err DeskError.DiskFault → D.faults disk.new ≡ D.faults disk.old }
        ensures closed { IsErrOf result DeskError.Closed ↔ (self.old.is_open ≡ false) }
        ensures used_up { IsErrOf result DeskError.KeysUsedUp → (self.old.is_open ≡ true) ×
            IsUsedUp self.old }
    {
        let ticket = self.ticket()?;
        let texted = ticket.write(self, disk, text)?;
        let spent = texted.spend(self, disk)?;
        Ok(spent.seal(self, disk, out))
    }
}

// Returns the lowest free slot before the last slot.
pub(crate) fn first_free(counts: &[Count]) -> Option<u32>
    requires { length counts.now ≤ 1024 }
    ensures some { IfSome result (λ s. (slice_index_or counts.now s Count.Spent ≡ Count.Free) ×
        (s + 1 < length counts.now)) }
    ensures lowest { IfSome result
        (λ s. (k : ℕ) → k < s → slice_index_or counts.now k Count.Spent ≢ Count.Free) }
    ensures none { IfNone result ((k : ℕ) → k + 1 < length counts.now →
        slice_index_or counts.now k Count.Spent ≢ Count.Free) }
{
    for (i, count) in counts.iter().enumerate() {
        if i + 1 < counts.len() && *count == Count::Free {
            return Some(i as u32);
        }
    }
    None
}

impl Ticket {
    fn into_slot(self) -> u32
        ensures { result ≡ self }
    {
        let Ticket { slot } = self;
        slot
    }

    ghost use Rattle.key_desk.specs.Desk.{count_at, slot_here, SameAreas, Fits, KnowsTexted, KnowsSpent, KeepsKnown, texted_slot, texted_text, spent_slot, spent_text};

    /// Returns the slot's number.
    pub fn slot(&self) -> u32
        ensures { result ≡ self.now }
    {
        self.slot
    }

    /// Makes the slot free again.
    pub fn give_back(self, desk: &mut Desk)
        requires { count_at desk.old self ≡ Count.Out }
        ensures free { desk.new ≡ record desk.old {
          counts = slice_set desk.old.counts self
              Count.Free;
        } }
    {
        let Ticket { slot } = self;
        desk.count(slot, Count::Free);
    }

    /// Writes the text into the slot behind its closed gate, with one write and a sync.
    pub fn write<D: Disk>(
        self,
        desk: &mut Desk,
        disk: &mut D,
        text: &[u8],
    ) -> Result<Texted, DeskError>
        requires fits { Fits D.Disk desk.old disk.old }
        requires out { count_at desk.old self ≡ Count.Out }
        requires short { length text.now ≤ 126 }
        requires plain { IsLink text.now → ⊥ }
        ensures fits { Fits D.Disk desk.new disk.new }
        ensures knows { IfOk result
            (λ it. KnowsTexted D.Disk desk.new disk.new (slot_here desk.old self) text.now) }
        ensures carries { IfOk result
            (λ it. (texted_slot it ≡ slot_here desk.old self) × (texted_text it ≡ text.now)) }
        ensures counts { OnOk result
            (desk.new ≡ record desk.old { counts = slice_set desk.old.counts self Count.Written }) }
        ensures same { SameAreas desk.old desk.new }
        ensures stays_open { OnOk result (desk.new.is_open ≡ true) }
        ensures refused { IsErr result → desk.new.counts ≡ desk.old.counts }
        ensures untouched { IsErr result → result ≢ Err DeskError.DiskFault →
            (desk.new ≡ desk.old) × (disk.new ≡ disk.old) }
        ensures closes { IsErrOf result DeskError.DiskFault →
            desk.new ≡ record desk.old { is_open = false } }
        ensures others { KeepsKnown D.Disk
            (slot_here desk.old self) desk.old disk.old desk.new disk.new }
        ensures moments { AtEachMoment D.Disk disk.old disk.new
            (λ d i. PutsText (slot_here desk.old self) text.now d i × SameSigned d i) }
        ensures stands { KeepsStanding D.Disk disk.old disk.new }
        ensures counted { OnOk result (RoseBy 2 (D.calls disk.old) (D.calls disk.new)) }
        ensures few { CalledUpTo 2 (D.calls disk.old) (D.calls disk.new) }
        ensures faults { D.faults disk.old ≤ D.faults disk.new }
        ensures fault { IsErrOf result DeskError.DiskFault →
            Rose (D.faults disk.old) (D.faults disk.new) × (desk.new.is_open ≡ false) }
        ensures kept { result ≢ Err DeskError.DiskFault → D.faults disk.new ≡ D.faults disk.old }
        ensures closed { IsErrOf result DeskError.Closed ↔ (desk.old.is_open ≡ false) }
        ensures not_used_up { result ≢ Err DeskError.KeysUsedUp }
    {
        let slot = self.into_slot();
        let is_open = desk.is_open();
        if !is_open {
            return Err(DeskError::Closed);
        }
        let place = desk.place(slot);
        match put_text(disk, place, text) {
            Err(Failed) => {
                desk.close();
                Err(DeskError::DiskFault)
            }
            Ok(piece) => {
                let area = desk.current();
                desk.count(slot, Count::Written);
                Ok(Texted {
                    area,
                    number: slot,
                    len: text.len(),
                    piece,
                })
            }
        }
    }
}

impl Texted {
    ghost use Rattle.key_desk.specs.Desk.{count_at, slot_here, SameAreas, Fits, KnowsTexted, KnowsSpent, KeepsKnown, texted_slot, texted_text, spent_slot, spent_text};

    /// Opens the slot's gate, with one write and a sync. From then on the pair counts as signed.
    pub fn spend<D: Disk>(self, desk: &mut Desk, disk: &mut D) -> Result<Spent, DeskError>
        requires fits { Fits D.Disk desk.old disk.old }
        requires knows { KnowsTexted D.Disk desk.old disk.old (texted_slot self)
            (texted_text self) }
        ensures fits { Fits D.Disk desk.new disk.new }
        ensures knows { IfOk result
            (λ it. KnowsSpent D.Disk desk.new disk.new (texted_slot self) (texted_text self)) }
        ensures carries { IfOk result
            (λ it. (spent_slot it ≡ texted_slot self) × (spent_text it ≡ texted_text self)) }
        ensures counts { OnOk result
            (desk.new ≡ record desk.old {
              counts = slice_set desk.old.counts
                  (texted_slot self).number Count.Spent;
            }) }
        ensures same { SameAreas desk.old desk.new }
        ensures stays_open { OnOk result (desk.new.is_open ≡ true) }
        ensures refused { IsErr result → desk.new.counts ≡ desk.old.counts }
        ensures untouched { IsErr result → result ≢ Err DeskError.DiskFault →
            (desk.new ≡ desk.old) × (disk.new ≡ disk.old) }
        ensures closes { IsErrOf result DeskError.DiskFault →
            desk.new ≡ record desk.old { is_open = false } }
        ensures others { KeepsKnown D.Disk (texted_slot self) desk.old disk.old desk.new disk.new }
        ensures moments { AtEachMoment D.Disk disk.old disk.new
            (λ d i. OpensGate (texted_slot self) d i ×
            SignsAtMost (texted_slot self) (texted_text self) d i) }
        ensures stands { KeepsStanding D.Disk disk.old disk.new }
        ensures counted { OnOk result (RoseBy 2 (D.calls disk.old) (D.calls disk.new)) }
        ensures few { CalledUpTo 2 (D.calls disk.old) (D.calls disk.new) }
        ensures faults { D.faults disk.old ≤ D.faults disk.new }
        ensures fault { IsErrOf result DeskError.DiskFault →
            Rose (D.faults disk.old) (D.faults disk.new) × (desk.new.is_open ≡ false) }
        ensures kept { result ≢ Err DeskError.DiskFault → D.faults disk.new ≡ D.faults disk.old }
        ensures closed { IsErrOf result DeskError.Closed ↔ (desk.old.is_open ≡ false) }
        ensures not_used_up { result ≢ Err DeskError.KeysUsedUp }
    {
        let Texted {
            area,
            number,
            len,
            piece,
        } = self;
        let is_open = desk.is_open();
        if !is_open {
            return Err(DeskError::Closed);
        }
        let place = desk.place(number);
        match open_gate(disk, place) {
            Err(Failed) => {
                desk.close();
                Err(DeskError::DiskFault)
            }
            Ok(()) => {
                desk.count(number, Count::Spent);
                Ok(Spent {
                    area,
                    number,
                    len,
                    piece,
                })
            }
        }
    }
}

impl Spent {
    ghost use Rattle.key_desk.specs.Desk.{count_at, slot_here, SameAreas, Fits, KnowsTexted, KnowsSpent, KeepsKnown, texted_slot, texted_text, spent_slot, spent_text};
    ghost use Rattle.key_desk.specs.Desk.{IsSignature};

    /// Writes the signature of the text by the slot's one-time key, and returns the slot's number. Makes no call to
    /// the disk.
    pub fn seal<D: Disk>(self, desk: &Desk, _disk: &D, out: &mut [u8]) -> u32
        requires knows { KnowsSpent D.Disk desk.now _disk.now (spent_slot self) (spent_text self) }
        requires out { length out.old ≡ seal_len (height_of desk.now.key.kind) }
        ensures number { result ≡ (spent_slot self).number }
        ensures exact { out.new ≡ sealed desk.now.key (spent_slot self).number (spent_text self) }
        ensures signature { IsSignature desk.now.key (spent_slot self).number
            (spent_text self) out.new }
    {
        let Spent {
            area: _area,
            number,
            len,
            piece,
        } = self;
        desk.sign_with(number, &piece[1..len + 1], out);
        number
    }
}
