ghost use Rattle.std.specs.Prelude.{◌≡◌, ◌+◌, ◌<◌, ◌≤◌, length, false, true, IfOk, OnOk};
ghost use Rattle.std.specs.Option.{ForSome};
ghost use Rattle.road_io.specs.Moments.{EachImage};
ghost use Rattle.desk_areas.specs.Layout.{gate_at};

use desk_areas::{open_gate, read_gate};
use road_io::{Disk, Failed, FileDisk};
use std::fs::File;
use std::rt::Files;

/// Tests whether the gate at an offset of a real file is open.
pub fn gate<R: Files<File = File> + Drop>(
    disk: &mut FileDisk<R>,
    place: u64,
) -> Result<bool, Failed>
    requires { ForSome (⟦<FileDisk<R> as Disk>⟧.content disk.old) (λ c. place + 1 ≤ length c) }
    ensures shut { IfOk result (λ b. b ≡ false →
        ForSome (⟦<FileDisk<R> as Disk>⟧.content disk.new) (λ c. gate_at c place ≡ 0)) }
    ensures open { IfOk result (λ b. b ≡ true →
        ForSome (⟦<FileDisk<R> as Disk>⟧.content disk.new) (λ c. 0 < gate_at c place)) }
{
    read_gate(disk, place)
}

/// Opens the gate at an offset of a real file, in every image that a crash may leave.
pub fn open<R: Files<File = File> + Drop>(disk: &mut FileDisk<R>, place: u64) -> Result<(), Failed>
    requires within { EachImage ⟦<FileDisk<R> as Disk>⟧ disk.old (λ i. place + 128 ≤ length i) }
    requires start { ForSome (⟦<FileDisk<R> as Disk>⟧.content disk.old) (λ c. place ≤ length c) }
    ensures stored { OnOk result
        (EachImage ⟦<FileDisk<R> as Disk>⟧ disk.new (λ i. gate_at i place ≡ 1)) }
{
    open_gate(disk, place)
}
