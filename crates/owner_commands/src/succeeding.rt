//! The command `succeed`.

ghost use Rattle.std.specs.Prelude.{◌≡◌, ◌⊎◌, IfOk, IfErr, IfSome, OnOk, ◌≢◌, Err, ◌∷◌, [], ◌++◌};
ghost use Rattle.road_io.specs.Causes.{Rose};
ghost use Rattle.road_io.specs.Moments.{AtEachMoment, EachImage, still_told};
ghost use Rattle.lms_tree.specs.Links.{link_text};
ghost use Rattle.lms_tree.specs.Signatures.{public_key};
ghost use Rattle.desk_areas.specs.Calls.{CalledUpTo};
ghost use Rattle.desk_areas.specs.Keys.{key_from};
ghost use Rattle.key_desk.specs.Stands.{KeepsStanding, SameKeys};
ghost use Rattle.key_desk.specs.Succession.{RaisesNext, SignsLink};
ghost use Rattle.road_command.specs.View.{type_of};
ghost use Rattle.command_files.specs.Endings.{Promises, TellsNone, WhyNot};
ghost use Rattle.command_files.specs.Spared.{SparesLibrary, SparesBut};
ghost use Rattle.owner_commands.specs.Calls.{most_succeed_calls};
ghost use Rattle.owner_commands.specs.NextKey.{AddsKey, EndsSuccession, IsNextKey, ends_succession, fault_of};
ghost use Rattle.owner_commands.specs.Signing.{StaysRefused};
ghost use Rattle.owner_commands.specs.StandingKeys.{FollowsAnother};

use crate::verifying::line_of_next;
use command_files::{Conclusion, Fault, load_hex, write_text};
use key_desk::{Desk, SucceedError};
use road_command::KeyKind;
use road_io::{Disk, Library, Sink};
use std::alloc::Global;

/// Makes the next key on the disk, which the current key signs with its last one-time key, and writes its public
/// key.
pub fn succeed<L: Library, K: Sink, D: Disk>(
    alloc: Global,
    library: &mut L,
    sink: &mut K,
    disk: &mut D,
    secret: &str,
    kind: KeyKind,
) -> Result<Conclusion, Fault>
    ensures promised { Promises
        (ends_succession (still_told D.Disk disk.old disk.new) secret.now (type_of kind))
        TellsNone (Rose (D.faults disk.old) (D.faults disk.new))
        (L.files library.new) (L.faults library.old) (L.faults library.new)
        (K.taken sink.old) (K.taken sink.new) (K.faults sink.old) (K.faults sink.new) result }
    ensures library { SparesLibrary result (L.faults library.old) (L.faults library.new) }
    ensures asked { L.asked library.new ≡ L.asked library.old ++ secret.now ∷ [] }
    ensures sink { SparesBut Fault.Sink result (K.faults sink.old) (K.faults sink.new) }
    ensures adds { AddsKey D.Disk disk.old disk.new (L.files library.new) secret.now
        (type_of kind) result }
    ensures unfaulted { result ≢ Err Fault.Disk → D.faults disk.new ≡ D.faults disk.old }
    ensures stands { KeepsStanding D.Disk disk.old disk.new }
{
    let secret: [u8; 48] = load_hex(alloc, library, secret)?;
    let line = make_next(alloc, disk, &secret, kind)?;
    write_text(sink, &line)
}

/// Makes the next key on the disk, and returns the line of its public key. The link to it is verified.
fn make_next<D: Disk>(
    alloc: Global,
    disk: &mut D,
    secret: &[u8; 48],
    kind: KeyKind,
) -> Result<[u8; 113], Fault>
    ensures line { IfOk result (λ line.
        EndsSuccession (still_told D.Disk disk.old disk.new) (type_of kind) secret.now
        (Ok Conclusion.Done) line) }
    ensures made { OnOk result (EachImage D.Disk disk.new
        (IsNextKey (key_from (type_of kind) secret.now))) }
    ensures refused { IfErr result
        (WhyNot (Rose (D.faults disk.old) (D.faults disk.new))
        (EndsSuccession (still_told D.Disk disk.old disk.new) (type_of kind) secret.now)) }
    ensures links { AtEachMoment D.Disk disk.old disk.new
        (λ d i. (i ≡ d) ⊎ SignsLink
        (link_text (public_key (key_from (type_of kind) secret.now))) d i) }
    ensures raises { AtEachMoment D.Disk disk.old disk.new
        (λ d i. (i ≡ d) ⊎ RaisesNext (key_from (type_of kind) secret.now) d i) }
    ensures keys { AtEachMoment D.Disk disk.old disk.new SameKeys }
    ensures follows { OnOk result
        (FollowsAnother D.Disk disk.new (key_from (type_of kind) secret.now)) }
    ensures untouched { IfErr result (StaysRefused D.Disk disk.old disk.new) }
    ensures unfaulted { result ≢ Err Fault.Disk → D.faults disk.new ≡ D.faults disk.old }
    ensures stands { KeepsStanding D.Disk disk.old disk.new }
    ensures few { CalledUpTo most_succeed_calls (D.calls disk.old) (D.calls disk.new) }
{
    match Desk::succeed(alloc, disk, kind.number(), secret) {
        Ok(desk) => line_of_next(&desk),
        Err(e) => Err(not_followed(e)),
    }
}

/// Returns the fault that corresponds to a refused succession.
fn not_followed(e: SucceedError) -> Fault
    ensures { result ≡ fault_of e }
{
    match e {
        SucceedError::NoKey => Fault::NoKey,
        SucceedError::BadBlock => Fault::BadBlock,
        SucceedError::TooManyKeys => Fault::TooManyKeys,
        SucceedError::NoSuccession => Fault::NoSuccession,
        SucceedError::SameSecret => Fault::SameSecret,
        SucceedError::DiskFault => Fault::Disk,
        SucceedError::Memory(none) => Fault::Memory(none),
    }
}
