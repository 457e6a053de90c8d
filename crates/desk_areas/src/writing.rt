//! One write within the disk's length, followed by a sync. A slot changes in no other way.
ghost use Rattle.std.specs.Prelude.{◌≡◌, ◌+◌, ◌*◌, ◌<◌, ◌^◌, ◌≤◌, ◌∷◌, List, ℕ, length, take, drop, OnOk, IfOk};
ghost use Rattle.road_io.specs.Causes.{HasCause, RoseBy};
ghost use Rattle.road_io.specs.Disk.{written, Torn};
ghost use Rattle.road_io.specs.Moments.{Image, EachImage, AtEachMoment};
ghost use Rattle.desk_areas.specs.Calls.{CalledUpTo};
ghost use Rattle.desk_areas.specs.Layout.{AgreesOutside, gate_at, text_at};
ghost use Rattle.desk_areas.specs.Settled.{IsSettled};

use road_io::{Disk, Failed};

// Writes octets within the disk's length, and syncs. Makes two calls to the disk.
pub(crate) fn store<D: Disk>(disk: &mut D, at: u64, octets: &[u8]) -> Result<(), Failed>
    requires within { EachImage D.Disk disk.old (λ i. at + length octets.now ≤ length i) }
    // Nothing changes outside the range, at any moment.
    ensures moments { AtEachMoment D.Disk disk.old disk.new
        (AgreesOutside at (at + length octets.now)) }
    // After `Ok` every image has the octets.
    ensures stored { OnOk result (EachImage D.Disk disk.new
        (λ i. (d : List ℕ) × Image D.Disk disk.old d × (i ≡ written at octets.now d))) }
    ensures settled { OnOk result (IsSettled D.Disk disk.new) }
    ensures cause { HasCause (D.faults disk.old) (D.faults disk.new) result }
    ensures kept { OnOk result (D.faults disk.new ≡ D.faults disk.old) }
    ensures counted { OnOk result (RoseBy 2 (D.calls disk.old) (D.calls disk.new)) }
    ensures few { CalledUpTo 2 (D.calls disk.old) (D.calls disk.new) }
{
    put(disk, at, octets)
}

// Does the same, but may also write past the end.
pub(crate) fn put<D: Disk>(disk: &mut D, at: u64, octets: &[u8]) -> Result<(), Failed>
    requires within { EachImage D.Disk disk.old (λ i. at ≤ length i) }
    ensures moments { AtEachMoment D.Disk disk.old disk.new (Torn at (length octets.now)) }
    ensures stored { OnOk result (EachImage D.Disk disk.new
        (λ i. (d : List ℕ) × Image D.Disk disk.old d × (i ≡ written at octets.now d))) }
    ensures settled { OnOk result (IsSettled D.Disk disk.new) }
    ensures cause { HasCause (D.faults disk.old) (D.faults disk.new) result }
    ensures kept { OnOk result (D.faults disk.new ≡ D.faults disk.old) }
    ensures counted { OnOk result (RoseBy 2 (D.calls disk.old) (D.calls disk.new)) }
    ensures few { CalledUpTo 2 (D.calls disk.old) (D.calls disk.new) }
{
    disk.write_at(at, octets)?;
    disk.sync()
}

/// Writes the length octet and a text after the gate of the slot at this offset, and returns the octets written.
pub fn put_text<D: Disk>(disk: &mut D, place: u64, text: &[u8]) -> Result<[u8; 127], Failed>
    requires within { EachImage D.Disk disk.old (λ i. place + 128 ≤ length i) }
    requires place { place < 2 ^ 63 }
    requires short { length text.now ≤ 126 }
    ensures moments { AtEachMoment D.Disk disk.old disk.new
        (AgreesOutside (place + 1) (place + 2 + length text.now)) }
    ensures stored { OnOk result (EachImage D.Disk disk.new (λ i. (text_at i place ≡ text.now))) }
    ensures piece { IfOk result (λ piece. take (length text.now) (drop 1 piece) ≡ text.now) }
    ensures settled { OnOk result (IsSettled D.Disk disk.new) }
    ensures cause { HasCause (D.faults disk.old) (D.faults disk.new) result }
    ensures kept { OnOk result (D.faults disk.new ≡ D.faults disk.old) }
    ensures counted { OnOk result (RoseBy 2 (D.calls disk.old) (D.calls disk.new)) }
    ensures few { CalledUpTo 2 (D.calls disk.old) (D.calls disk.new) }
{
    let piece = piece_of(text);
    store(disk, place + 1, &piece[..text.len() + 1])?;
    Ok(piece)
}

/// Opens the gate of the slot at this offset.
pub fn open_gate<D: Disk>(disk: &mut D, place: u64) -> Result<(), Failed>
    requires within { EachImage D.Disk disk.old (λ i. place + 128 ≤ length i) }
    ensures moments { AtEachMoment D.Disk disk.old disk.new (AgreesOutside place (place + 1)) }
    ensures stored { OnOk result (EachImage D.Disk disk.new (λ i. gate_at i place ≡ 1)) }
    ensures settled { OnOk result (IsSettled D.Disk disk.new) }
    ensures cause { HasCause (D.faults disk.old) (D.faults disk.new) result }
    ensures kept { OnOk result (D.faults disk.new ≡ D.faults disk.old) }
    ensures counted { OnOk result (RoseBy 2 (D.calls disk.old) (D.calls disk.new)) }
    ensures few { CalledUpTo 2 (D.calls disk.old) (D.calls disk.new) }
{
    store(disk, place, &[1])
}

// Returns the length octet followed by the text.
fn piece_of(text: &[u8]) -> [u8; 127]
    requires { length text.now ≤ 126 }
    ensures front { take (length text.now + 1) result ≡ length text.now ∷ text.now }
    ensures text { take (length text.now) (drop 1 result) ≡ text.now }
{
    let mut piece = [0u8; 127];
    piece[0] = text.len() as u8;
    (&mut piece[1..text.len() + 1]).copy_from_slice(text);
    piece
}
