//! The command `publish`.

ghost use Rattle.std.specs.Prelude.{IfOk, IfErr, ◌≡◌, ◌≢◌, Err, ◌∷◌, [], ◌++◌};
ghost use Rattle.road_io.specs.Causes.{Rose};
ghost use Rattle.road_io.specs.Moments.{still_told};
ghost use Rattle.desk_areas.specs.Calls.{CalledUpTo};
ghost use Rattle.key_desk.specs.Stands.{KeepsStanding};
ghost use Rattle.command_files.specs.Endings.{Promises, WhyNot};
ghost use Rattle.command_files.specs.Spared.{SparesLibrary, SparesBut};
ghost use Rattle.mirror_out.specs.Gone.{HasRoom};
ghost use Rattle.owner_commands.specs.Calls.{most_publish_calls};
ghost use Rattle.owner_commands.specs.Losing.{LosesWhatFails};
ghost use Rattle.owner_commands.specs.Publishing.{EndsPublish, TellsLost, ends_publish};
ghost use Rattle.owner_commands.specs.Signing.{SignsAtMostOne, SignsAtMostHeader, StaysRefused, IsSealedOnDisk, SealsWhatItMirrors, SealsWhatItWrites};

use crate::verifying::verified_publication;
use book_model::Settings;
use command_books::not_built;
use command_desks::open_desk;
use command_files::{Conclusion, Fault, load_parts};
use key_desk::DeskError;
use mirror_out::{Mirror, Spreader};
use octet_text::Sha;
use proof_octets::Publication;
use publication_out::send;
use road_io::{Disk, Library, Sink};
use road_map::Parts;
use route_owner::PublishError;
use std::alloc::Global;

/// Signs the header of a file's map under settings, and sends the publication as it is made, in pieces of 4,096
/// octets, each to the sink and then to the mirrors. What drops a mirror is made before anything is signed. The mirrors
/// that fail are appended to `gone`, if it has room for all.
pub fn publish<L: Library, K: Sink, D: Disk, M: Mirror>(
    alloc: Global,
    library: &mut L,
    sink: &mut K,
    disk: &mut D,
    mirrors: &mut Vec<M>,
    gone: &mut Vec<M>,
    roads: &str,
    settings: &Settings,
) -> Result<Conclusion, Fault>
    ensures promised { Promises
        (ends_publish (still_told D.Disk disk.old disk.new) roads.now settings.now) TellsLost
        (Rose (D.faults disk.old) (D.faults disk.new))
        (L.files library.new) (L.faults library.old) (L.faults library.new)
        (K.taken sink.old) (K.taken sink.new) (K.faults sink.old) (K.faults sink.new) result }
    ensures library { SparesLibrary result (L.faults library.old) (L.faults library.new) }
    ensures asked { L.asked library.new ≡ L.asked library.old ++ roads.now ∷ [] }
    ensures sink { SparesBut Fault.Sink result (K.faults sink.old) (K.faults sink.new) }
    ensures sealed { SealsWhatItWrites D.Disk disk.old disk.new (K.taken sink.old)
        (K.taken sink.new) result }
    ensures mirrored { SealsWhatItMirrors M.octets M.named M.handed M.puts M.room D.Disk disk.old
        disk.new (K.taken sink.old) (K.taken sink.new) mirrors.old.items mirrors.new.items result }
    ensures gone { HasRoom gone.old mirrors.old → LosesWhatFails M.octets M.named M.handed M.puts
        M.room M.faults D.Disk disk.old disk.new (K.taken sink.old) (K.taken sink.new)
        mirrors.old.items mirrors.new.items gone.old.items gone.new.items result }
    ensures signs { SignsAtMostOne D.Disk disk.old disk.new
        (L.files library.new) roads.now settings.now }
    ensures untouched { IfErr result (StaysRefused D.Disk disk.old disk.new) }
    ensures unfaulted { result ≢ Err Fault.Disk → D.faults disk.new ≡ D.faults disk.old }
    ensures stands { KeepsStanding D.Disk disk.old disk.new }
    ensures few { CalledUpTo most_publish_calls (D.calls disk.old) (D.calls disk.new) }
{
    let parts = load_parts(alloc, library, roads)?;
    let mut spreader = match Spreader::new(alloc, mirrors) {
        Ok(spreader) => spreader,
        Err(none) => return Err(Fault::Memory(none)),
    };
    let publication = signed(alloc, disk, parts, settings)?;
    match send(&publication, sink, &mut spreader, mirrors, gone) {
        Err(_) => Err(Fault::Sink),
        Ok(()) if spreader.lost().is_empty() => Ok(Conclusion::Done),
        Ok(()) => Err(Fault::MirrorLost),
    }
}

/// Returns the verified publication of parts and settings, signed by the key on the disk.
fn signed<D: Disk>(
    alloc: Global,
    disk: &mut D,
    parts: Parts,
    settings: &Settings,
) -> Result<Publication, Fault>
    ensures sealed { IfOk result (IsSealedOnDisk D.Disk disk.old disk.new parts settings.now) }
    ensures refused { IfErr result
        (WhyNot (Rose (D.faults disk.old) (D.faults disk.new))
        (EndsPublish (still_told D.Disk disk.old disk.new) settings.now parts)) }
    ensures signs { SignsAtMostHeader D.Disk disk.old disk.new parts settings.now }
    ensures untouched { IfErr result (StaysRefused D.Disk disk.old disk.new) }
    ensures unfaulted { result ≢ Err Fault.Disk → D.faults disk.new ≡ D.faults disk.old }
    ensures stands { KeepsStanding D.Disk disk.old disk.new }
    ensures few { CalledUpTo most_publish_calls (D.calls disk.old) (D.calls disk.new) }
{
    let mut desk = open_desk(alloc, disk)?;
    match route_owner::publish::<Sha, D>(alloc, &mut desk, disk, parts, settings) {
        Ok(publication) => verified_publication(&desk, publication),
        Err(PublishError::Build(fault)) => Err(not_built(fault)),
        Err(PublishError::Desk(DeskError::KeysUsedUp)) => Err(Fault::KeysUsedUp),
        Err(PublishError::Desk(DeskError::DiskFault)) => Err(Fault::Disk),
        Err(PublishError::Desk(DeskError::Closed)) => unreachable!(),
        Err(PublishError::Memory(none)) => Err(Fault::Memory(none)),
    }
}
