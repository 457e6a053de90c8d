//! Making a new key's area: first the zeros, then the key block. The block's gate is opened last.
ghost use Rattle.std.specs.Prelude.{◌≡◌, ◌≢◌, ◌⊎◌, ◌+◌, ◌^◌, ◌<◌, ◌≤◌, ◌++◌, Some, Err, length, replicate, IfOk, OnOk, IsErrOf, IsErr};
ghost use Rattle.std.specs.Int.{w32, to_be_bytes};
ghost use Rattle.std.specs.Option.{ForSome};
ghost use Rattle.road_io.specs.Causes.{HasCause, Rose, RoseBy};
ghost use Rattle.road_io.specs.Disk.{Narrows, Torn, Stays};
ghost use Rattle.road_io.specs.Moments.{EachImage, AtEachMoment};
ghost use Rattle.desk_areas.specs.Calls.{CalledUpTo};
ghost use Rattle.desk_areas.specs.Layout.{slots_of, place_in, gate_at, IsOpen, AgreesOutside};
ghost use Rattle.desk_areas.specs.Keys.{key_from};
ghost use Rattle.desk_areas.specs.Blank.{IsZero, IsBlankArea, IsBlank, IsFresh};

use crate::errors::StartError;
use crate::writing::{put, store};
use octet_text::write_array;
use road_io::{Disk, Failed};

/// Returns the length of the disk. Fails if the disk holds a key.
pub fn look_for_key<D: Disk>(disk: &mut D) -> Result<u64, StartError>
    ensures shut { IfOk result (λ n.
        EachImage D.Disk disk.new (λ i. (IsOpen i → ⊥) × (length i ≡ n))) }
    ensures was_shut { IfOk result
        (λ n. ForSome (D.content disk.new) (λ c. (IsOpen c → ⊥) × (length c ≡ n))) }
    ensures one { OnOk result (EachImage D.Disk disk.new (λ i. D.content disk.old ≡ Some i)) }
    ensures held { IsErrOf result StartError.Held → ForSome (D.content disk.new) IsOpen }
    ensures other { IsErr result → (result ≡ Err StartError.DiskFault) ⊎
        (result ≡ Err StartError.Held) }
    ensures fault { IsErrOf result StartError.DiskFault →
        Rose (D.faults disk.old) (D.faults disk.new) }
    ensures kept { result ≢ Err StartError.DiskFault → D.faults disk.new ≡ D.faults disk.old }
    ensures faults { D.faults disk.old ≤ D.faults disk.new }
    ensures content { OnOk result (Narrows (D.content disk.old) (D.content disk.new)) }
    ensures refused { IsErrOf result StartError.Held →
        Narrows (D.content disk.old) (D.content disk.new) }
    ensures moments { AtEachMoment D.Disk disk.old disk.new Stays }
    ensures counted { IfOk result (λ n.
        ((64 ≤ n) × RoseBy 3 (D.calls disk.old) (D.calls disk.new)) ⊎
        ((n < 64) × RoseBy 2 (D.calls disk.old) (D.calls disk.new))) }
    ensures held_counted { IsErrOf result StartError.Held →
        RoseBy 3 (D.calls disk.old) (D.calls disk.new) }
    ensures few { CalledUpTo 3 (D.calls disk.old) (D.calls disk.new) }
{
    disk.sync()?;
    let len = disk.len()?;
    if len >= 64 {
        let mut gate = [0u8; 1];
        disk.read_at(0, &mut gate)?;
        if gate[0] != 0 {
            return Err(StartError::Held);
        }
    }
    Ok(len)
}

/// Writes zeros over the whole length of a first key's area. The key's gate is closed at each moment.
pub fn clear_first<D: Disk>(disk: &mut D, len: u64, zeros: &[u8]) -> Result<(), Failed>
    requires shut { EachImage D.Disk disk.old (λ i. (IsOpen i → ⊥) × (length i ≡ len)) }
    requires zeros { zeros.now ≡ replicate (length zeros.now) 0 }
    requires long { 63 ≤ length zeros.now }
    ensures moments { AtEachMoment D.Disk disk.old disk.new (λ d i. IsOpen i → ⊥) }
    ensures cleared { OnOk result (EachImage D.Disk disk.new (IsZero 0 (length zeros.now + 1))) }
    ensures cause { HasCause (D.faults disk.old) (D.faults disk.new) result }
    ensures kept { OnOk result (D.faults disk.new ≡ D.faults disk.old) }
    ensures counted { OnOk result
        (((64 ≤ len) × RoseBy 2 (D.calls disk.old) (D.calls disk.new)) ⊎
        ((len < 64) × RoseBy 4 (D.calls disk.old) (D.calls disk.new))) }
    ensures few { CalledUpTo 4 (D.calls disk.old) (D.calls disk.new) }
{
    if len < 64 {
        close(disk)?;
    }
    zero_all(disk, zeros)
}

// Writes zeros behind a closed gate.
fn zero_all<D: Disk>(disk: &mut D, zeros: &[u8]) -> Result<(), Failed>
    requires shut { EachImage D.Disk disk.old (λ i. (0 < length i) × (gate_at i 0 ≡ 0)) }
    requires zeros { zeros.now ≡ replicate (length zeros.now) 0 }
    requires long { 63 ≤ length zeros.now }
    ensures moments { AtEachMoment D.Disk disk.old disk.new (λ d i. IsOpen i → ⊥) }
    ensures cleared { OnOk result (EachImage D.Disk disk.new (IsZero 0 (length zeros.now + 1))) }
    ensures cause { HasCause (D.faults disk.old) (D.faults disk.new) result }
    ensures kept { OnOk result (D.faults disk.new ≡ D.faults disk.old) }
    ensures counted { OnOk result (RoseBy 2 (D.calls disk.old) (D.calls disk.new)) }
    ensures few { CalledUpTo 2 (D.calls disk.old) (D.calls disk.new) }
{
    put(disk, 1, zeros)
}

// Sets octet 0 to zero, or appends it to an empty disk.
fn close<D: Disk>(disk: &mut D) -> Result<(), Failed>
    requires short { EachImage D.Disk disk.old (λ i. length i < 64) }
    ensures moments { AtEachMoment D.Disk disk.old disk.new (λ d i. length i < 64) }
    ensures closed { OnOk result (EachImage D.Disk disk.new
        (λ i. (0 < length i) × (gate_at i 0 ≡ 0))) }
    ensures cause { HasCause (D.faults disk.old) (D.faults disk.new) result }
    ensures kept { OnOk result (D.faults disk.new ≡ D.faults disk.old) }
    ensures counted { OnOk result (RoseBy 2 (D.calls disk.old) (D.calls disk.new)) }
    ensures few { CalledUpTo 2 (D.calls disk.old) (D.calls disk.new) }
{
    put(disk, 0, &[0])
}

/// Writes zeros over a new area, which follows all others.
pub fn clear_next<D: Disk>(disk: &mut D, base: u64, zeros: &[u8]) -> Result<(), Failed>
    requires within { EachImage D.Disk disk.old (λ i. base ≤ length i) }
    requires zeros { zeros.now ≡ replicate (length zeros.now) 0 }
    ensures moments { AtEachMoment D.Disk disk.old disk.new (Torn base (length zeros.now)) }
    ensures cleared { OnOk result (EachImage D.Disk disk.new (IsZero base (length zeros.now))) }
    ensures cause { HasCause (D.faults disk.old) (D.faults disk.new) result }
    ensures kept { OnOk result (D.faults disk.new ≡ D.faults disk.old) }
    ensures counted { OnOk result (RoseBy 2 (D.calls disk.old) (D.calls disk.new)) }
    ensures few { CalledUpTo 2 (D.calls disk.old) (D.calls disk.new) }
{
    put(disk, base, zeros)
}

/// Writes octets 1 to 52 of the key block at a base, behind its closed gate.
pub fn put_block<D: Disk>(
    disk: &mut D,
    base: u64,
    kind: u32,
    secret: &[u8; 48],
) -> Result<(), Failed>
    requires clear { EachImage D.Disk disk.old (IsZero base (place_in 0 (slots_of kind))) }
    requires low { base < 2 ^ 63 }
    ensures moments { AtEachMoment D.Disk disk.old disk.new (AgreesOutside (base + 1) (base + 53)) }
    ensures blank { OnOk result (EachImage D.Disk disk.new
        (IsBlankArea (key_from kind secret.now) base)) }
    ensures cause { HasCause (D.faults disk.old) (D.faults disk.new) result }
    ensures kept { OnOk result (D.faults disk.new ≡ D.faults disk.old) }
    ensures counted { OnOk result (RoseBy 2 (D.calls disk.old) (D.calls disk.new)) }
    ensures few { CalledUpTo 2 (D.calls disk.old) (D.calls disk.new) }
{
    let block = block_of(kind, secret);
    store(disk, base + 1, &block)
}

// Returns the kind, in four octets, followed by the secret.
fn block_of(kind: u32, secret: &[u8; 48]) -> [u8; 52]
    ensures { result ≡ to_be_bytes w32 kind ++ secret.now }
{
    let mut block = [0u8; 52];
    write_array(&mut block, 0, &kind.to_be_bytes());
    write_array(&mut block, 4, secret);
    block
}

/// Writes the first key's block, and then opens its gate.
pub fn open_first<D: Disk>(disk: &mut D, kind: u32, secret: &[u8; 48]) -> Result<(), Failed>
    requires clear { EachImage D.Disk disk.old (IsZero 0 (place_in 0 (slots_of kind))) }
    ensures moments { AtEachMoment D.Disk disk.old disk.new
        (λ d i. IsFresh (key_from kind secret.now) i) }
    ensures blank { OnOk result (EachImage D.Disk disk.new (IsBlank (key_from kind secret.now))) }
    ensures cause { HasCause (D.faults disk.old) (D.faults disk.new) result }
    ensures kept { OnOk result (D.faults disk.new ≡ D.faults disk.old) }
    ensures counted { OnOk result (RoseBy 4 (D.calls disk.old) (D.calls disk.new)) }
    ensures few { CalledUpTo 4 (D.calls disk.old) (D.calls disk.new) }
{
    put_block(disk, 0, kind, secret)?;
    open_block(disk)
}

// Opens the first key's gate.
fn open_block<D: Disk>(disk: &mut D) -> Result<(), Failed>
    requires within { EachImage D.Disk disk.old (λ i. 1 ≤ length i) }
    ensures moments { AtEachMoment D.Disk disk.old disk.new (AgreesOutside 0 1) }
    ensures open { OnOk result (EachImage D.Disk disk.new (λ i. gate_at i 0 ≡ 1)) }
    ensures cause { HasCause (D.faults disk.old) (D.faults disk.new) result }
    ensures kept { OnOk result (D.faults disk.new ≡ D.faults disk.old) }
    ensures counted { OnOk result (RoseBy 2 (D.calls disk.old) (D.calls disk.new)) }
    ensures few { CalledUpTo 2 (D.calls disk.old) (D.calls disk.new) }
{
    store(disk, 0, &[1])
}
