//! Reading all octets of a disk.
ghost use Rattle.std.specs.Prelude.{◌≡◌, ◌≢◌, ◌≤◌, Err, IfOk, IsErrOf};
ghost use Rattle.std.specs.Option.{ForSome};
ghost use Rattle.road_io.specs.Causes.{Rose};
ghost use Rattle.road_io.specs.Disk.{Narrows, Stays};
ghost use Rattle.road_io.specs.Moments.{AtEachMoment};
ghost use Rattle.desk_sight.specs.Images.{seen_of};

use octet_text::{NoMemory, filled};
use road_io::Disk;
use std::alloc::Global;

/// The greatest number of octets that eight keys take.
const MOST: u64 = 1_049_088;

/// Why a disk could not be read.
#[derive(Clone, Copy, Debug, PartialEq, Eq)]
pub enum Unseen {
    /// The disk failed.
    Failed,
    /// Out of memory.
    Memory(NoMemory),
}

/// Reads the octets of a disk, at most as many as eight keys take. Changes no image.
pub fn image_of<D: Disk>(alloc: Global, disk: &mut D) -> Result<Vec<u8>, Unseen>
    ensures image { IfOk result
        (λ image. ForSome (D.content disk.new) (λ c. image.items ≡ seen_of c)) }
    ensures content { Narrows (D.content disk.old) (D.content disk.new) }
    ensures moments { AtEachMoment D.Disk disk.old disk.new Stays }
    ensures faults { D.faults disk.old ≤ D.faults disk.new }
    ensures fault { IsErrOf result Unseen.Failed → Rose (D.faults disk.old) (D.faults disk.new) }
    ensures kept { result ≢ Err Unseen.Failed → D.faults disk.new ≡ D.faults disk.old }
{
    let Ok(length) = disk.len() else {
        return Err(Unseen::Failed);
    };
    let length = length.min(MOST) as usize;
    let mut image = match filled(alloc, 0u8, length) {
        Ok(image) => image,
        Err(none) => return Err(Unseen::Memory(none)),
    };
    match disk.read_at(0, &mut image) {
        Ok(()) => Ok(image),
        Err(_) => Err(Unseen::Failed),
    }
}
