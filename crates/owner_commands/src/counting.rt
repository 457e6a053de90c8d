//! The command `desk`.

ghost use Rattle.std.specs.Prelude.{IfOk, IfErr, ◌≡◌, ◌≢◌, Err};
ghost use Rattle.std.specs.Option.{ForSome};
ghost use Rattle.road_io.specs.Causes.{Rose};
ghost use Rattle.road_io.specs.Disk.{Stays};
ghost use Rattle.road_io.specs.Moments.{AtEachMoment, still_told};
ghost use Rattle.command_files.specs.Endings.{PromisesWithoutFiles, WhyNot, NoEnd};
ghost use Rattle.command_files.specs.Spared.{SparesBut};
ghost use Rattle.desk_areas.specs.Faults.{IsUsable};
ghost use Rattle.command_desks.specs.Opening.{EndsOpening};
ghost use Rattle.owner_commands.specs.OwnerDesk.{IsDeskLine, EndsDesk};

use command_desks::open_desk;
use command_files::{Conclusion, Fault, write_text};
use road_io::{Disk, Sink};
use road_line::line_of_desk;
use std::alloc::Global;

/// Writes the owner's public key, and the number of its remaining one-time keys.
pub fn desk<K: Sink, D: Disk>(
    alloc: Global,
    sink: &mut K,
    disk: &mut D,
) -> Result<Conclusion, Fault>
    ensures promised { PromisesWithoutFiles (EndsDesk (still_told D.Disk disk.old disk.new))
        (Rose (D.faults disk.old) (D.faults disk.new))
        (K.taken sink.old) (K.taken sink.new) (K.faults sink.old) (K.faults sink.new) result }
    ensures sink { SparesBut Fault.Sink result (K.faults sink.old) (K.faults sink.new) }
    ensures unfaulted { result ≢ Err Fault.Disk → D.faults disk.new ≡ D.faults disk.old }
    ensures stays { AtEachMoment D.Disk disk.old disk.new Stays }
{
    let line = line_on(alloc, disk)?;
    write_text(sink, &line)
}

/// Returns the line of the desk over the key on the disk.
fn line_on<D: Disk>(alloc: Global, disk: &mut D) -> Result<Vec<u8>, Fault>
    ensures usable { IfOk result (λ line. ForSome (still_told D.Disk disk.old disk.new) IsUsable) }
    ensures line { IfOk result (λ line.
        ForSome (still_told D.Disk disk.old disk.new) (λ c. IsDeskLine c line.items)) }
    ensures refused { IfErr result
        (WhyNot (Rose (D.faults disk.old) (D.faults disk.new))
        (EndsOpening (still_told D.Disk disk.old disk.new) NoEnd)) }
    ensures unfaulted { result ≢ Err Fault.Disk → D.faults disk.new ≡ D.faults disk.old }
    ensures stays { AtEachMoment D.Disk disk.old disk.new Stays }
{
    let desk = open_desk(alloc, disk)?;
    match line_of_desk(alloc, &desk.public(), desk.left(), desk.size()) {
        Ok(line) => Ok(line),
        Err(none) => Err(Fault::Memory(none)),
    }
}
