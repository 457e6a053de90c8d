//! Opening a desk.

ghost use Rattle.std.specs.Prelude.{◌≤◌, IfOk, IfErr, ◌≡◌, ◌≢◌, Err};
ghost use Rattle.road_io.specs.Causes.{Rose, RoseBy};
ghost use Rattle.road_io.specs.Disk.{Stays};
ghost use Rattle.road_io.specs.Moments.{AtEachMoment, still_told};
ghost use Rattle.desk_areas.specs.Calls.{CalledUpTo};
ghost use Rattle.key_desk.specs.Calls.{most_opening_calls, opening_calls};
ghost use Rattle.key_desk.specs.Stands.{KeepsStanding};
ghost use Rattle.command_files.specs.Endings.{WhyNot, NoEnd};
ghost use Rattle.command_desks.specs.Opening.{EndsOpening, IsOpened};

use command_files::Fault;
use key_desk::{Desk, StartError};
use road_io::Disk;
use std::alloc::Global;

/// Opens the desk over the keys on the disk. Changes no image.
pub fn open_desk<D: Disk>(alloc: Global, disk: &mut D) -> Result<Desk, Fault>
    ensures opened { IfOk result (IsOpened D.Disk disk.old disk.new) }
    ensures refused { IfErr result
        (WhyNot (Rose (D.faults disk.old) (D.faults disk.new))
        (EndsOpening (still_told D.Disk disk.old disk.new) NoEnd)) }
    ensures faults { D.faults disk.old ≤ D.faults disk.new }
    ensures unfaulted { result ≢ Err Fault.Disk → D.faults disk.new ≡ D.faults disk.old }
    ensures stays { AtEachMoment D.Disk disk.old disk.new Stays }
    ensures stands { KeepsStanding D.Disk disk.old disk.new }
    ensures counted { IfOk result (λ desk.
        RoseBy (opening_calls desk) (D.calls disk.old) (D.calls disk.new)) }
    ensures few { CalledUpTo most_opening_calls (D.calls disk.old) (D.calls disk.new) }
{
    match Desk::reopen(alloc, disk) {
        Ok(desk) => Ok(desk),
        Err(StartError::NoKey) => Err(Fault::NoKey),
        Err(StartError::BadBlock) => Err(Fault::BadBlock),
        Err(StartError::DiskFault) => Err(Fault::Disk),
        Err(StartError::Memory(none)) => Err(Fault::Memory(none)),
        Err(StartError::Held) => unreachable!(),
    }
}
