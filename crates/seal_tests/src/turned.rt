//! Tests of desks with one flipped bit. No one-time key makes two signatures of different texts; this follows from
//! the result of the look before each command and from the slots that it spends.

use desk_sight::{Seen, Sight, Spending, Strange, Unfit, Use, image_of, look, sight_of};
use key_desk::Desk;
use lms_tree::{Key, link_text};
use mem_io::MemDisk;
use road_io::Disk;
use std::alloc::{AllocError, Global};
use std::process::Abort;
use std::test::Fail;

/// The number of octets of an `h5` key's area.
const AREA: usize = 4160;

/// The number of an area's last slot.
const LAST: u32 = 31;

/// A desk of `h5` keys as runs leave it. Each key has signed some maps, and each key but the last has signed the
/// link to the next key.
#[derive(Drop)]
struct Life {
    image: Vec<u8>,
    first: [u8; 56],
    keys: u8,
    /// The number of maps that each key has signed.
    spent: u8,
}

/// The result of the look before a command, and the image that it left.
#[derive(Drop)]
struct After {
    seen: Result<Option<Seen>, Unfit>,
    image: Vec<u8>,
    /// If the look found no key, whether a signer can still open the desk. This is tried only on a desk of one key,
    /// since a signer makes each key again.
    opens: bool,
}

/// Returns the offset at which an area begins.
fn base_of(area: u32) -> usize {
    (area as usize).saturating_mul(AREA)
}

/// Returns the offset at which a slot of an area begins.
fn place_of(area: u32, slot: u32) -> usize {
    base_of(area)
        .saturating_add(64)
        .saturating_add((slot as usize).saturating_mul(128))
}

/// Puts octets at an offset of an image.
fn put(image: &mut Vec<u8>, place: usize, octets: &[u8]) {
    let mut at = place;
    for octet in octets {
        if let Some(spot) = image.get_mut(at) {
            *spot = *octet;
        }
        at = at.saturating_add(1);
    }
}

/// Returns the octet at an offset.
fn octet_at(image: &[u8], place: usize) -> u8 {
    image.get(place).copied().unwrap_or(0)
}

/// Returns a header of 104 octets under DIJ, of a version, with a root that is not zeros.
fn header(alloc: Global, version: u8) -> Result<Vec<u8>, AllocError> {
    let mut text = Vec::new(alloc);
    text.extend_from_slice(b"RPF1\x01\x00\x02\x00")?;
    text.extend_from_slice(&[0, 0, 0, 0, 0, 0, 0, version, 0, 0, 0, 9])?;
    text.extend_from_slice(&[7; 32])?;
    text.extend_from_slice(&[0; 52])?;
    Ok(text)
}

/// Returns the identifier of an area's key.
fn identifier_of(area: u8) -> [u8; 16] {
    let mut identifier = [area; 16];
    identifier[0] = 100;
    identifier
}

/// Returns the key of an area.
fn key_of(alloc: Global, area: u8) -> Result<Key, Fail> {
    let key = Key::build(alloc, 5, &identifier_of(area), &[area; 32])?;
    Ok(key)
}

impl Life {
    /// Makes a desk of `keys` keys, each of which has signed `spent` maps.
    fn of(alloc: Global, keys: u8, spent: u8) -> Result<Life, Fail> {
        let mut life = Life {
            image: Vec::from_elem(alloc, 0u8, base_of(u32::from(keys)))?,
            first: key_of(alloc, 0)?.public(),
            keys,
            spent,
        };
        for area in 0..keys {
            life.add(alloc, area)?;
        }
        Ok(life)
    }

    /// Adds the key of an area, the maps that it has signed, and the link to it in the area before.
    fn add(&mut self, alloc: Global, number: u8) -> Result<(), Fail> {
        let key = key_of(alloc, number)?;
        let area = u32::from(number);
        let base = base_of(area);
        put(&mut self.image, base, &[0, 0, 0, 0, 5]);
        put(
            &mut self.image,
            base.saturating_add(5),
            &identifier_of(number),
        );
        put(&mut self.image, base.saturating_add(21), &[number; 32]);
        for slot in 0..self.spent {
            let place = place_of(area, u32::from(slot));
            put(&mut self.image, place, &[1, 104]);
            put(
                &mut self.image,
                place.saturating_add(2),
                &header(alloc, slot)?,
            );
        }
        if area == 0 {
            put(&mut self.image, 0, &[1]);
        } else {
            let place = place_of(area.saturating_sub(1), LAST);
            put(&mut self.image, place, &[1, 60]);
            put(
                &mut self.image,
                place.saturating_add(2),
                &link_text(&key.public()),
            );
        }
        Ok(())
    }

    /// Tests whether a one-time key has signed.
    fn has_signed(&self, area: u32, slot: u32) -> bool {
        let is_linked = slot == LAST && area.saturating_add(1) < u32::from(self.keys);
        is_linked || slot < u32::from(self.spent)
    }

    /// Performs the look before a command over the image.
    fn looked(&self, alloc: Global, what: Use) -> Result<After, Fail> {
        let length = self.image.len() as u64;
        let journal = length.saturating_add(1000);
        let mut disk = MemDisk::new(alloc, length, journal, Vec::new(alloc), None)?;
        disk.write_at(0, &self.image)?;
        let public = if what == Use::Publish {
            Some(self.first)
        } else {
            None
        };
        let seen = look(alloc, what, public, &mut disk);
        let Ok(image) = image_of(alloc, &mut disk) else {
            return Err(Fail::from("the disk was not read"));
        };
        let is_untold = self.keys == 1 && what != Use::Key && seen == Ok(None);
        let opens = is_untold && Desk::reopen(alloc, &mut disk).is_ok();
        Ok(After { seen, image, opens })
    }

    /// Tests whether a command after this look makes no second signature by any one-time key.
    fn is_kept(&self, what: Use, after: &After) -> bool {
        let Ok(seen) = after.seen else {
            return after.image.as_slice() == self.image.as_slice();
        };
        match (what, seen) {
            (Use::Key, _) => octet_at(&after.image, 0) != 0,
            (_, None) => !after.opens,
            (Use::Links, Some(seen)) => seen.spending == Spending::Nothing,
            (_, Some(_)) => match sight_of(&after.image) {
                Ok(Some(sight)) => self.signs_new(what, sight, &after.image),
                _ => false,
            },
        }
    }

    /// Tests whether a command signs with a one-time key that has not signed. `publish` takes the first free slot.
    /// `succeed` takes the last slot of the current area, if it is free.
    fn signs_new(&self, what: Use, sight: Sight, now: &[u8]) -> bool {
        let area = sight.key.saturating_sub(1);
        let slot = if what == Use::Succeed {
            LAST
        } else {
            sight.spent
        };
        if what == Use::Publish && slot == sight.size {
            return true;
        }
        let is_free = octet_at(now, place_of(area, slot)) == 0;
        match what {
            Use::Publish => is_free && !self.has_signed(area, slot),
            Use::Succeed => !is_free || !self.has_signed(area, slot),
            Use::Key | Use::Links => true,
        }
    }

    /// Tests whether a command makes no second signature over the image. `sight` is the result of `sight_of` for
    /// this image.
    ///
    /// Performs the look only if it may do more than refuse the images that `sight_of` refuses: if it may spend a
    /// slot, if no key is found, and over the first block.
    fn bears(
        &self,
        alloc: Global,
        what: Use,
        sight: Result<Option<Sight>, Strange>,
        place: usize,
    ) -> Result<bool, Fail> {
        let looks = match (what, sight) {
            _ if place < 64 => true,
            (Use::Key | Use::Links, _) | (_, Err(_)) => return Ok(true),
            (_, Ok(None)) => true,
            (Use::Publish, Ok(Some(sight))) => sight.waiting.is_some(),
            (Use::Succeed, Ok(Some(sight))) => sight.link.is_some(),
        };
        match sight {
            Ok(Some(sight)) if !looks => Ok(self.signs_new(what, sight, &self.image)),
            _ => {
                let after = self.looked(alloc, what)?;
                Ok(self.is_kept(what, &after))
            }
        }
    }
}

/// Asserts that nothing is signed twice after one bit is flipped.
fn assert_kept(
    rt: &impl Abort,
    alloc: Global,
    life: &mut Life,
    place: usize,
    bit: u32,
) -> Result<(), Fail> {
    let before = octet_at(&life.image, place);
    put(&mut life.image, place, &[before ^ (1u8 << bit.min(7))]);
    let sight = sight_of(&life.image);
    for what in [Use::Key, Use::Publish, Use::Succeed, Use::Links] {
        let is_kept = life.bears(alloc, what, sight, place)?;
        assert!(rt; is_kept, "{what:?} behind bit {bit} of octet {place}");
    }
    put(&mut life.image, place, &[before]);
    Ok(())
}

/// Flips each bit from one offset up to another, one at a time.
fn assert_each(
    rt: &impl Abort,
    alloc: Global,
    life: &mut Life,
    from: usize,
    to: usize,
) -> Result<(), Fail> {
    for place in from..to {
        for bit in 0..8u32 {
            assert_kept(rt, alloc, life, place, bit)?;
        }
    }
    Ok(())
}

/// Flips each bit of an area's block, and of its first, last spent, first free and last slot, one at a time.
fn assert_area(rt: &impl Abort, alloc: Global, life: &mut Life, area: u32) -> Result<(), Fail> {
    let base = base_of(area);
    assert_each(rt, alloc, life, base, base.saturating_add(64))?;
    for slot in [0, 2, 3, LAST] {
        let place = place_of(area, slot);
        assert_each(rt, alloc, life, place, place.saturating_add(128))?;
    }
    Ok(())
}

/// Asserts the same for each area of `keys` keys.
fn assert_areas(rt: &impl Abort, alloc: Global, keys: u8) -> Result<(), Fail> {
    let mut life = Life::of(alloc, keys, 3)?;
    for area in 0..keys {
        assert_area(rt, alloc, &mut life, u32::from(area))?;
    }
    Ok(())
}

#[test]
fn no_turned_bit_of_one_key_signs_twice(rt: HostRuntime) -> Result<(), Fail> {
    let mut life = Life::of(rt.alloc(), 1, 5)?;
    assert_each(&rt, rt.alloc(), &mut life, 0, AREA)
}

#[test]
fn no_turned_bit_of_two_keys_signs_twice(rt: HostRuntime) -> Result<(), Fail> {
    assert_areas(&rt, rt.alloc(), 2)
}

#[test]
fn no_turned_bit_of_eight_keys_signs_twice(rt: HostRuntime) -> Result<(), Fail> {
    assert_areas(&rt, rt.alloc(), 8)
}
