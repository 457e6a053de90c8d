//! Opening a desk over a disk's keys.
ghost use Rattle.std.specs.Prelude.{◌≡◌, ◌≢◌, ◌+◌, ◌*◌, ◌<◌, ◌≤◌, ◌-◌, List, ℕ, Some, length, IfOk, OnOk, IsErr, IsErrOf, Err, ◌⊎◌, true};
ghost use Rattle.octet_text.specs.Want.{no_memory};
ghost use Rattle.std.specs.Option.{ForSome};
ghost use Rattle.road_io.specs.Causes.{Rose, RoseBy};
ghost use Rattle.road_io.specs.Disk.{Narrows, Stays};
ghost use Rattle.road_io.specs.Moments.{Image, EachImage, AtEachMoment};
ghost use Rattle.desk_areas.specs.Calls.{Called, CalledUpTo, area_calls, most_area_calls};
ghost use Rattle.desk_areas.specs.Faults.{IsBadBlock};
ghost use Rattle.desk_areas.specs.Layout.{IsOpen, keys_left};
ghost use Rattle.key_desk.specs.Calls.{areas_calls, opening_calls, most_opening_calls};
ghost use Rattle.key_desk.specs.Stands.{KeepsStanding};

use crate::desk::Desk;
use desk_areas::{Area, Count, Found, StartError, place_in, read_gate, read_next};
use octet_text::push;
use road_io::Disk;
use std::alloc::Global;

impl Desk {
    ghost use Rattle.key_desk.specs.Desk.{count_at, free_slots, HasAreas, Fits};

    /// Opens the desk over the keys on the disk. Changes no image. Syncs the disk, reads its length and its first
    /// gate once, and then reads each block, each gate, and the text of each spent slot once.
    pub fn reopen<D: Disk>(alloc: Global, disk: &mut D) -> Result<Desk, StartError>
        ensures fits { IfOk result (λ desk. Fits D.Disk desk disk.new) }
        ensures opened { IfOk result (λ desk. desk.is_open ≡ true) }
        ensures counts { IfOk result
            (λ desk. (s : ℕ) → (count_at desk s ≡ Count.Free) ⊎ (count_at desk s ≡ Count.Spent)) }
        ensures areas { IfOk result
            (λ desk. ForSome (D.content disk.new) (λ c. IsOpen c × HasAreas desk c)) }
        ensures left { IfOk result
            (λ desk. ForSome (D.content disk.new) (λ c. free_slots desk ≡ keys_left c desk.base)) }
        ensures no_key_else { ForSome (D.content disk.new)
            (λ c. (IsOpen c → ⊥) → (result ≡ Err StartError.NoKey) ⊎
            (result ≡ Err StartError.DiskFault)) }
        ensures bad_block_else { ForSome (D.content disk.new)
            (λ c. IsOpen c → IsBadBlock c → (result ≡ Err StartError.BadBlock) ⊎
            ((result ≡ Err StartError.DiskFault) ⊎ (result ≡ Err (StartError.Memory no_memory)))) }
        ensures no_key { IsErrOf result StartError.NoKey →
            ForSome (D.content disk.new) (λ c. IsOpen c → ⊥) }
        ensures bad_block { IsErrOf result StartError.BadBlock →
            ForSome (D.content disk.new) (λ c. IsOpen c × IsBadBlock c) }
        ensures content { OnOk result (Narrows (D.content disk.old) (D.content disk.new)) }
        ensures refused { IsErr result → result ≢ Err StartError.DiskFault →
            Narrows (D.content disk.old) (D.content disk.new) }
        ensures moments { AtEachMoment D.Disk disk.old disk.new Stays }
        ensures faults { D.faults disk.old ≤ D.faults disk.new }
        ensures fault { IsErrOf result StartError.DiskFault →
            Rose (D.faults disk.old) (D.faults disk.new) }
        ensures kept { result ≢ Err StartError.DiskFault → D.faults disk.new ≡ D.faults disk.old }
        ensures not_held { result ≢ Err StartError.Held }
        ensures stands { KeepsStanding D.Disk disk.old disk.new }
        ensures one { OnOk result (EachImage D.Disk disk.new (λ i. D.content disk.old ≡ Some i)) }
        ensures counted { IfOk result (λ desk.
            RoseBy (opening_calls desk) (D.calls disk.old) (D.calls disk.new)) }
        ensures shut_counted { IsErrOf result StartError.NoKey →
            RoseBy 2 (D.calls disk.old) (D.calls disk.new) ⊎
            RoseBy 3 (D.calls disk.old) (D.calls disk.new) }
        ensures few { CalledUpTo most_opening_calls (D.calls disk.old) (D.calls disk.new) }
    {
        disk.sync()?;
        let len = disk.len()?;
        if len < 64 {
            return Err(StartError::NoKey);
        }
        let is_open = read_gate(disk, 0)?;
        if !is_open {
            return Err(StartError::NoKey);
        }
        Self::read_areas(alloc, disk, len)
    }

    // Reads one area after the other.
    fn read_areas<D: Disk>(alloc: Global, disk: &mut D, len: u64) -> Result<Desk, StartError>
        requires len { ForSome (D.content disk.old) (λ c. length c ≡ len) }
        requires open { ForSome (D.content disk.old) IsOpen }
        requires one { EachImage D.Disk disk.old (λ i. D.content disk.old ≡ Some i) }
        ensures fits { IfOk result (λ desk. Fits D.Disk desk disk.new) }
        ensures opened { IfOk result (λ desk. desk.is_open ≡ true) }
        ensures counts { IfOk result
            (λ desk. (s : ℕ) → (count_at desk s ≡ Count.Free) ⊎ (count_at desk s ≡ Count.Spent)) }
        ensures bad_block { IsErrOf result StartError.BadBlock →
            ForSome (D.content disk.new) IsBadBlock }
        ensures not_others { (result ≢ Err StartError.NoKey) × (result ≢ Err StartError.Held) }
        ensures content { Narrows (D.content disk.old) (D.content disk.new) }
        ensures moments { AtEachMoment D.Disk disk.old disk.new Stays }
        ensures faults { D.faults disk.old ≤ D.faults disk.new }
        ensures fault { IsErrOf result StartError.DiskFault →
            Rose (D.faults disk.old) (D.faults disk.new) }
        ensures kept { result ≢ Err StartError.DiskFault → D.faults disk.new ≡ D.faults disk.old }
        ensures counted { IfOk result (λ desk.
            Called (areas_calls desk.earlier + area_calls desk.counts)
            (D.calls disk.old) (D.calls disk.new)) }
        ensures few { CalledUpTo (8 * most_area_calls) (D.calls disk.old) (D.calls disk.new) }
    {
        let mut earlier: Vec<Area> = Vec::new(alloc);
        let mut base = 0u64;
        let mut named: Option<[u8; 56]> = None;
        for _round in 0..8u32 {
            let Found { area, link } = read_next(alloc, disk, len, &earlier, base, &named)?;
            match link {
                None => return Ok(Desk::with_current(earlier, base, area)),
                Some(key) => {
                    base = place_in(base, area.counts().len() as u32);
                    push(&mut earlier, area)?;
                    named = Some(key);
                }
            }
        }
        Err(StartError::BadBlock)
    }
}
