//! Making a key on a disk without a key.
ghost use Rattle.std.specs.Prelude.{◌≡◌, ◌≢◌, ◌⊎◌, ◌<◌, ◌≤◌, [], List, ℕ, length, Err, IfOk, OnOk, IsErrOf, IsErr, true};
ghost use Rattle.std.specs.Option.{ForSome};
ghost use Rattle.road_io.specs.Causes.{Rose, RoseBy};
ghost use Rattle.road_io.specs.Disk.{Narrows, Stays, Turns};
ghost use Rattle.road_io.specs.Moments.{EachImage, AtEachMoment, still_told};
ghost use Rattle.desk_areas.specs.Calls.{CalledUpTo};
ghost use Rattle.desk_areas.specs.Blank.{IsBlank, IsFresh};
ghost use Rattle.desk_areas.specs.Layout.{slots_of, IsOpen};
ghost use Rattle.desk_areas.specs.Signed.{signed};
ghost use Rattle.key_desk.specs.Stands.{KeepsStanding};
ghost use Rattle.desk_areas.specs.Keys.{key_from};

use crate::desk::Desk;
use desk_areas::{Count, StartError, build_key, clear_first, look_for_key, open_first, slots_of};
use octet_text::filled;
use road_io::Disk;
use std::alloc::Global;

impl Desk {
    ghost use Rattle.key_desk.specs.Desk.{count_at, Fits};

    /// Makes a key on a disk without a key, and opens its desk. Makes nine calls to the disk, ten if the disk is
    /// shorter than a key block, and three if the disk holds a key.
    pub fn create<D: Disk>(
        alloc: Global,
        disk: &mut D,
        kind: u32,
        secret: &[u8; 48],
    ) -> Result<Desk, StartError>
        requires { (kind ≡ 5) ⊎ (kind ≡ 6) }
        ensures fits { IfOk result (λ desk. Fits D.Disk desk disk.new) }
        ensures opened { IfOk result (λ desk. desk.is_open ≡ true) }
        ensures key { IfOk result (λ desk. desk.key ≡ key_from kind secret.now) }
        ensures first { IfOk result (λ desk. desk.earlier ≡ []) }
        ensures free { IfOk result
            (λ desk. (s : ℕ) → s < slots_of kind → count_at desk s ≡ Count.Free) }
        ensures blank { IfOk result (λ desk. EachImage D.Disk disk.new (IsBlank desk.key)) }
        ensures unsigned { OnOk result (EachImage D.Disk disk.new (λ i. signed i ≡ [])) }
        ensures was_shut { OnOk result
            (ForSome (still_told D.Disk disk.old disk.new) (λ c. IsOpen c → ⊥)) }
        ensures held { IsErrOf result StartError.Held → ForSome (D.content disk.new) IsOpen }
        ensures held_else { ForSome (still_told D.Disk disk.old disk.new)
            (λ c. IsOpen c → (result ≡ Err StartError.Held) ⊎ (result ≡ Err StartError.DiskFault)) }
        ensures refused { IsErr result → result ≢ Err StartError.DiskFault →
            Narrows (D.content disk.old) (D.content disk.new) }
        ensures untouched { IsErr result → result ≢ Err StartError.DiskFault →
            AtEachMoment D.Disk disk.old disk.new Stays }
        ensures held_stays { ForSome (D.content disk.old) IsOpen →
            AtEachMoment D.Disk disk.old disk.new Stays }
        ensures stands { KeepsStanding D.Disk disk.old disk.new }
        ensures moments { Turns D.clock D.image_at disk.old disk.new
            (IsFresh (key_from kind secret.now)) }
        ensures faults { D.faults disk.old ≤ D.faults disk.new }
        ensures fault { IsErrOf result StartError.DiskFault →
            Rose (D.faults disk.old) (D.faults disk.new) }
        ensures kept { result ≢ Err StartError.DiskFault → D.faults disk.new ≡ D.faults disk.old }
        ensures not_others { (result ≢ Err StartError.NoKey) × (result ≢ Err StartError.BadBlock) }
        ensures counted { OnOk result (ForSome (still_told D.Disk disk.old disk.new) (λ c.
            ((64 ≤ length c) × RoseBy 9 (D.calls disk.old) (D.calls disk.new)) ⊎
            ((length c < 64) × RoseBy 10 (D.calls disk.old) (D.calls disk.new)))) }
        ensures held_counted { IsErrOf result StartError.Held →
            RoseBy 3 (D.calls disk.old) (D.calls disk.new) }
        ensures few { CalledUpTo 10 (D.calls disk.old) (D.calls disk.new) }
    {
        let len = look_for_key(disk)?;
        let slots = slots_of(kind);
        let key = build_key(alloc, kind, secret)?;
        let zeros = filled(alloc, 0u8, 63 + 128 * slots as usize)?;
        let counts = filled(alloc, Count::Free, slots as usize)?;
        clear_first(disk, len, &zeros)?;
        open_first(disk, kind, secret)?;
        Ok(Desk::from_parts(Vec::new(alloc), 0, key, counts))
    }
}
