//! Reading areas: their blocks, gates and links.
ghost use Rattle.std.specs.Prelude.{◌≡◌, ◌≢◌, ◌+◌, ◌*◌, ◌<◌, ◌≤◌, ◌-◌, ◌^◌, ◌↔◌, List, ℕ, Some, length, take, drop, min, IfOk, OnOk, IfSome, IfNone, IsErrOf, IsErr, Err, ◌⊎◌, true, false, slice_index_or, get_or};
ghost use Rattle.octet_text.specs.Want.{no_memory};
ghost use Rattle.std.specs.List.{count_by};
ghost use Rattle.std.specs.Option.{ForSome};
ghost use Rattle.road_io.specs.Causes.{HasCause, Rose, RoseBy};
ghost use Rattle.road_io.specs.Disk.{Narrows, Stays};
ghost use Rattle.road_io.specs.Moments.{Image, EachImage, AtEachMoment};
ghost use Rattle.desk_areas.specs.Area.{area_in};
ghost use Rattle.desk_areas.specs.Calls.{Called, CalledUpTo, area_calls, is_spent, most_area_calls};
ghost use Rattle.desk_areas.specs.Faults.{IsBadArea, IsBadBlock};
ghost use Rattle.desk_areas.specs.Layout.{slots_of, place_in, gate_at, text_at, kind_at, secret_at};
ghost use Rattle.desk_areas.specs.Reading.{HasStray, HasGates, IsReadArea, IsLinkTo, IsLastLink, IsNamed, HasRead};
ghost use Rattle.lms_tree.specs.Links.{IsLink};

use crate::area::{Area, Count, build_key, place_in, slots_of};
use crate::errors::StartError;
use lms_tree::{Key, is_link};
use octet_text::{array_at, push};
use road_io::{Disk, Failed};
use std::alloc::Global;

/// The key block of an area, as read.
#[derive(Drop)]
struct Block {
    kind: u32,
    secret: [u8; 48],
}

fn read_block<D: Disk>(disk: &mut D, base: u64) -> Result<Block, Failed>
    requires within { ForSome (D.content disk.old) (λ c. base + 64 ≤ length c) }
    ensures kind { IfOk result (λ b. ForSome (D.content disk.new) (λ c. b.kind ≡ kind_at c base)) }
    ensures secret { IfOk result (λ b.
        ForSome (D.content disk.new) (λ c. b.secret ≡ secret_at c base)) }
    ensures content { Narrows (D.content disk.old) (D.content disk.new) }
    ensures moments { AtEachMoment D.Disk disk.old disk.new Stays }
    ensures cause { HasCause (D.faults disk.old) (D.faults disk.new) result }
    ensures kept { OnOk result (D.faults disk.new ≡ D.faults disk.old) }
    ensures counted { RoseBy 1 (D.calls disk.old) (D.calls disk.new) }
{
    let mut octets = [0u8; 53];
    disk.read_at(base, &mut octets)?;
    Ok(Block {
        kind: u32::from_be_bytes(array_at(&octets, 1)),
        secret: array_at(&octets, 5),
    })
}

/// Tests whether the gate at an offset is open.
pub fn read_gate<D: Disk>(disk: &mut D, place: u64) -> Result<bool, Failed>
    requires { ForSome (D.content disk.old) (λ c. place + 1 ≤ length c) }
    ensures shut { IfOk result (λ b. b ≡ false →
        ForSome (D.content disk.new) (λ c. gate_at c place ≡ 0)) }
    ensures open { IfOk result (λ b. b ≡ true →
        ForSome (D.content disk.new) (λ c. 0 < gate_at c place)) }
    ensures content { Narrows (D.content disk.old) (D.content disk.new) }
    ensures moments { AtEachMoment D.Disk disk.old disk.new Stays }
    ensures cause { HasCause (D.faults disk.old) (D.faults disk.new) result }
    ensures kept { OnOk result (D.faults disk.new ≡ D.faults disk.old) }
    ensures counted { RoseBy 1 (D.calls disk.old) (D.calls disk.new) }
{
    let mut octets = [0u8; 1];
    disk.read_at(place, &mut octets)?;
    Ok(octets[0] != 0)
}

fn read_gates<D: Disk>(
    alloc: Global,
    disk: &mut D,
    base: u64,
    slots: u32,
) -> Result<Vec<Count>, StartError>
    requires within { ForSome (D.content disk.old) (λ c. place_in base slots ≤ length c) }
    requires few { slots ≤ 1024 }
    requires low { base ≤ 917952 }
    ensures size { IfOk result (λ v. length v.items ≡ slots) }
    ensures gates { IfOk result (λ v. ForSome (D.content disk.new) (HasGates v.items base)) }
    ensures either { IfOk result (λ v. (s : ℕ) →
        (slice_index_or v.items s Count.Spent ≡ Count.Free) ⊎
        (slice_index_or v.items s Count.Spent ≡ Count.Spent)) }
    ensures content { Narrows (D.content disk.old) (D.content disk.new) }
    ensures moments { AtEachMoment D.Disk disk.old disk.new Stays }
    ensures faults { D.faults disk.old ≤ D.faults disk.new }
    ensures fault { IsErrOf result StartError.DiskFault →
        Rose (D.faults disk.old) (D.faults disk.new) }
    ensures kept { result ≢ Err StartError.DiskFault → D.faults disk.new ≡ D.faults disk.old }
    ensures other { IsErr result → (result ≡ Err StartError.DiskFault) ⊎
        (result ≡ Err (StartError.Memory no_memory)) }
    ensures counted { OnOk result (Called slots (D.calls disk.old) (D.calls disk.new)) }
    ensures few { CalledUpTo slots (D.calls disk.old) (D.calls disk.new) }
{
    let mut counts = Vec::new(alloc);
    for slot in 0..slots {
        let spent = read_gate(disk, place_in(base, slot))?;
        push(&mut counts, if spent { Count::Spent } else { Count::Free })?;
    }
    Ok(counts)
}

// Returns the key that the slot at this offset names, if the slot holds a link text.
fn read_link<D: Disk>(disk: &mut D, place: u64) -> Result<Option<[u8; 56]>, Failed>
    requires within { ForSome (D.content disk.old) (λ c. place + 128 ≤ length c) }
    requires low { place < 2 ^ 63 }
    ensures some { IfOk result (λ found.
        IfSome found (λ key. ForSome (D.content disk.new) (λ c. IsLinkTo (text_at c place) key))) }
    ensures none { IfOk result (λ found.
        IfNone found (ForSome (D.content disk.new) (λ c. IsLink (text_at c place) → ⊥))) }
    ensures content { Narrows (D.content disk.old) (D.content disk.new) }
    ensures moments { AtEachMoment D.Disk disk.old disk.new Stays }
    ensures cause { HasCause (D.faults disk.old) (D.faults disk.new) result }
    ensures kept { OnOk result (D.faults disk.new ≡ D.faults disk.old) }
    ensures counted { RoseBy 1 (D.calls disk.old) (D.calls disk.new) }
{
    let mut octets = [0u8; 127];
    disk.read_at(place + 1, &mut octets)?;
    Ok(link_in(&octets))
}

// Returns the key that a length octet and a text field name.
fn link_in(octets: &[u8; 127]) -> Option<[u8; 56]>
    ensures some { IfSome result (λ key.
        IsLinkTo (take (min (slice_index_or octets.now 0 0) 126) (drop 1 octets.now)) key) }
    ensures none { IfNone result (IsLink
        (take (min (slice_index_or octets.now 0 0) 126) (drop 1 octets.now)) → ⊥) }
{
    let len = (octets[0] as usize).min(126);
    let text = &octets[1..len + 1];
    if is_link(text) {
        Some(array_at(text, 4))
    } else {
        None
    }
}

// Tests whether a spent slot before the last holds a link text.
fn has_stray<D: Disk>(disk: &mut D, base: u64, counts: &[Count]) -> Result<bool, Failed>
    requires within { ForSome (D.content disk.old)
        (λ c. place_in base (length counts.now) ≤ length c) }
    requires few { length counts.now ≤ 1024 }
    requires low { base ≤ 917952 }
    ensures yes { IfOk result (λ found. found ≡ true →
        ForSome (D.content disk.new) (HasStray counts.now base)) }
    ensures no { IfOk result (λ found. found ≡ false →
        ForSome (D.content disk.new) (λ c. HasStray counts.now base c → ⊥)) }
    ensures content { Narrows (D.content disk.old) (D.content disk.new) }
    ensures moments { AtEachMoment D.Disk disk.old disk.new Stays }
    ensures cause { HasCause (D.faults disk.old) (D.faults disk.new) result }
    ensures kept { OnOk result (D.faults disk.new ≡ D.faults disk.old) }
    ensures counted { IfOk result (λ found. found ≡ false →
        Called (count_by is_spent (take (length counts.now - 1) counts.now))
        (D.calls disk.old) (D.calls disk.new)) }
    ensures few { CalledUpTo (length counts.now - 1) (D.calls disk.old) (D.calls disk.new) }
{
    let mut number = 0u32;
    for count in counts {
        if number + 1 < counts.len() as u32 && *count == Count::Spent {
            if read_link(disk, place_in(base, number))?.is_some() {
                return Ok(true);
            }
        }
        number += 1;
    }
    Ok(false)
}

// Returns the key that the last slot names, if the slot is spent and holds a link text.
fn last_link<D: Disk>(disk: &mut D, base: u64, counts: &[Count]) -> Result<Option<[u8; 56]>, Failed>
    requires within { ForSome (D.content disk.old)
        (λ c. place_in base (length counts.now) ≤ length c) }
    requires some { 0 < length counts.now }
    requires few { length counts.now ≤ 1024 }
    requires low { base ≤ 917952 }
    ensures link { IfOk result (λ found.
        ForSome (D.content disk.new) (IsLastLink counts.now base found)) }
    ensures content { Narrows (D.content disk.old) (D.content disk.new) }
    ensures moments { AtEachMoment D.Disk disk.old disk.new Stays }
    ensures cause { HasCause (D.faults disk.old) (D.faults disk.new) result }
    ensures kept { OnOk result (D.faults disk.new ≡ D.faults disk.old) }
    ensures counted { OnOk result
        (Called (count_by is_spent (drop (length counts.now - 1) counts.now))
        (D.calls disk.old) (D.calls disk.new)) }
    ensures few { CalledUpTo 1 (D.calls disk.old) (D.calls disk.new) }
{
    let last = counts.len() - 1;
    if counts[last] != Count::Spent {
        return Ok(None);
    }
    read_link(disk, place_in(base, last as u32))
}

// Reads the area at a base. Fails if the area itself cannot be used.
fn read_area<D: Disk>(alloc: Global, disk: &mut D, base: u64, len: u64) -> Result<Area, StartError>
    requires len { ForSome (D.content disk.old) (λ c. length c ≡ len) }
    requires low { base ≤ 917952 }
    ensures area { IfOk result (λ a. ForSome (D.content disk.new) (IsReadArea a base)) }
    ensures known { IfOk result (λ a. (0 < slots_of a.key.kind) ×
        (length a.counts ≡ slots_of a.key.kind)) }
    ensures named { IfOk result (λ a. length a.key.i ≡ 16) }
    ensures either { IfOk result (λ a. (s : ℕ) →
        (slice_index_or a.counts s Count.Spent ≡ Count.Free) ⊎
        (slice_index_or a.counts s Count.Spent ≡ Count.Spent)) }
    ensures bad { IsErrOf result StartError.BadBlock →
        ForSome (D.content disk.new) (λ c. IsBadArea c base) }
    ensures not_others { (result ≢ Err StartError.NoKey) × (result ≢ Err StartError.Held) }
    ensures content { Narrows (D.content disk.old) (D.content disk.new) }
    ensures moments { AtEachMoment D.Disk disk.old disk.new Stays }
    ensures faults { D.faults disk.old ≤ D.faults disk.new }
    ensures fault { IsErrOf result StartError.DiskFault →
        Rose (D.faults disk.old) (D.faults disk.new) }
    ensures kept { result ≢ Err StartError.DiskFault → D.faults disk.new ≡ D.faults disk.old }
    ensures counted { IfOk result (λ a.
        Called (1 + length a.counts + count_by is_spent (take (length a.counts - 1) a.counts))
        (D.calls disk.old) (D.calls disk.new)) }
    ensures few { CalledUpTo 2048 (D.calls disk.old) (D.calls disk.new) }
{
    if len < base + 64 {
        return Err(StartError::BadBlock);
    }
    let Block { kind, secret } = read_block(disk, base)?;
    let slots = slots_of(kind);
    if slots == 0 || len < place_in(base, slots) {
        return Err(StartError::BadBlock);
    }
    let counts = read_gates(alloc, disk, base, slots)?;
    if has_stray(disk, base, &counts)? {
        return Err(StartError::BadBlock);
    }
    let key = build_key(alloc, kind, &secret)?;
    Ok(Area::from_parts(key, counts))
}

/// Tests whether a key of some areas has this name.
pub fn has_name(areas: &[Area], name: &[u8; 16]) -> bool
    ensures yes { result ≡ true → (a : ℕ) × (a < length areas.now) ×
        ((area_in areas.now a).key.i ≡ name.now) }
    ensures no { result ≡ false → (a : ℕ) → a < length areas.now →
        (area_in areas.now a).key.i ≢ name.now }
{
    for area in areas {
        if area.key().i() == *name {
            return true;
        }
    }
    false
}

// Tests whether the link before a key names this key.
fn is_named(named: &Option<[u8; 56]>, key: &Key) -> bool
    ensures { (result ≡ true) ↔ IsNamed named.now key.now }
{
    match named {
        Some(public) => key.public() == *public,
        None => true,
    }
}

/// An area as read, and the key that its last slot names.
#[derive(Drop)]
pub struct Found {
    pub area: Area,
    pub link: Option<[u8; 56]>,
}

/// Reads the area after those already read, and the area's link. An area that cannot be used is a bad block.
pub fn read_next<D: Disk>(
    alloc: Global,
    disk: &mut D,
    len: u64,
    earlier: &[Area],
    base: u64,
    named: &Option<[u8; 56]>,
) -> Result<Found, StartError>
    requires len { ForSome (D.content disk.old) (λ c. length c ≡ len) }
    requires read { ForSome (D.content disk.old) (HasRead earlier.now base named.now) }
    requires low { base ≤ 917952 }
    requires few { length earlier.now ≤ 7 }
    ensures area { IfOk result (λ f. ForSome (D.content disk.new) (IsReadArea f.area base)) }
    ensures known { IfOk result (λ f. (0 < slots_of f.area.key.kind) ×
        (length f.area.counts ≡ slots_of f.area.key.kind)) }
    ensures i { IfOk result (λ f. length f.area.key.i ≡ 16) }
    ensures either { IfOk result (λ f. (s : ℕ) →
        (slice_index_or f.area.counts s Count.Spent ≡ Count.Free) ⊎
        (slice_index_or f.area.counts s Count.Spent ≡ Count.Spent)) }
    ensures distinct { IfOk result
        (λ f. (a : ℕ) → a < length earlier.now → (area_in earlier.now a).key.i ≢ f.area.key.i) }
    ensures named { IfOk result (λ f. IsNamed named.now f.area.key) }
    ensures link { IfOk result (λ f.
        ForSome (D.content disk.new) (IsLastLink f.area.counts base f.link)) }
    ensures eighth { IfOk result (λ f. IfSome f.link (λ key. length earlier.now < 7)) }
    ensures bad { IsErrOf result StartError.BadBlock → ForSome (D.content disk.new) IsBadBlock }
    ensures not_others { (result ≢ Err StartError.NoKey) × (result ≢ Err StartError.Held) }
    ensures content { Narrows (D.content disk.old) (D.content disk.new) }
    ensures moments { AtEachMoment D.Disk disk.old disk.new Stays }
    ensures faults { D.faults disk.old ≤ D.faults disk.new }
    ensures fault { IsErrOf result StartError.DiskFault →
        Rose (D.faults disk.old) (D.faults disk.new) }
    ensures kept { result ≢ Err StartError.DiskFault → D.faults disk.new ≡ D.faults disk.old }
    ensures counted { IfOk result (λ f.
        Called (area_calls f.area.counts) (D.calls disk.old) (D.calls disk.new)) }
    ensures few { CalledUpTo most_area_calls (D.calls disk.old) (D.calls disk.new) }
{
    let area = read_area(alloc, disk, base, len)?;
    if has_name(earlier, &area.key().i()) {
        return Err(StartError::BadBlock);
    }
    if !is_named(named, area.key()) {
        return Err(StartError::BadBlock);
    }
    let link = last_link(disk, base, area.counts())?;
    if link.is_some() && earlier.len() == 7 {
        return Err(StartError::BadBlock);
    }
    Ok(Found { area, link })
}
