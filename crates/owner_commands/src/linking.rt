//! The command `links`.

ghost use Rattle.std.specs.Prelude.{IfOk, IfErr, ◌≡◌, ◌≢◌, Err};
ghost use Rattle.std.specs.Option.{ForSome};
ghost use Rattle.road_io.specs.Causes.{Rose};
ghost use Rattle.road_io.specs.Disk.{Stays};
ghost use Rattle.road_io.specs.Moments.{AtEachMoment, still_told};
ghost use Rattle.desk_areas.specs.Faults.{IsUsable};
ghost use Rattle.command_files.specs.Endings.{PromisesWithoutFiles, WhyNot, NoEnd};
ghost use Rattle.command_files.specs.Spared.{SparesBut};
ghost use Rattle.command_desks.specs.Opening.{EndsOpening};
ghost use Rattle.owner_commands.specs.ChainLine.{IsChainOn, EndsLinks};
ghost use Rattle.owner_commands.specs.StandingKeys.{IsStandingChain, ChainsWhatItWrites};

use crate::verifying::verified_chain;
use command_desks::open_desk;
use command_files::{Conclusion, Fault, write_text};
use key_desk::LinksError;
use road_io::{Disk, Sink};
use std::alloc::Global;

/// Writes the chain file that leads from the owner's first key to the current key.
pub fn links<K: Sink, D: Disk>(
    alloc: Global,
    sink: &mut K,
    disk: &mut D,
) -> Result<Conclusion, Fault>
    ensures promised { PromisesWithoutFiles (EndsLinks (still_told D.Disk disk.old disk.new))
        (Rose (D.faults disk.old) (D.faults disk.new))
        (K.taken sink.old) (K.taken sink.new) (K.faults sink.old) (K.faults sink.new) result }
    ensures sink { SparesBut Fault.Sink result (K.faults sink.old) (K.faults sink.new) }
    ensures unfaulted { result ≢ Err Fault.Disk → D.faults disk.new ≡ D.faults disk.old }
    ensures stays { AtEachMoment D.Disk disk.old disk.new Stays }
    ensures sealed { ChainsWhatItWrites D.Disk disk.new (K.taken sink.old) (K.taken sink.new)
        result }
{
    let chain = chain_on(alloc, disk)?;
    write_text(sink, &chain)
}

/// Returns the verified chain file of the desk over the keys on the disk.
fn chain_on<D: Disk>(alloc: Global, disk: &mut D) -> Result<Vec<u8>, Fault>
    ensures usable { IfOk result (λ chain. ForSome (still_told D.Disk disk.old disk.new) IsUsable) }
    ensures chain { IfOk result (λ chain.
        ForSome (still_told D.Disk disk.old disk.new) (λ c. IsChainOn c chain.items)) }
    ensures refused { IfErr result
        (WhyNot (Rose (D.faults disk.old) (D.faults disk.new))
        (EndsOpening (still_told D.Disk disk.old disk.new) NoEnd)) }
    ensures unfaulted { result ≢ Err Fault.Disk → D.faults disk.new ≡ D.faults disk.old }
    ensures stays { AtEachMoment D.Disk disk.old disk.new Stays }
    ensures stand { IfOk result (λ chain. IsStandingChain D.Disk disk.new chain.items) }
{
    let desk = open_desk(alloc, disk)?;
    match desk.links(alloc) {
        Ok(links) => verified_chain(alloc, &desk.public_of(0), &links),
        Err(LinksError::Memory(none)) => Err(Fault::Memory(none)),
        Err(LinksError::Closed) => unreachable!(),
    }
}
