//! The command `key`.

ghost use Rattle.std.specs.Prelude.{◌≡◌, ◌≢◌, ◌⊎◌, ◌++◌, codes, IfOk, IfErr, OnOk, Err, ◌∷◌, []};
ghost use Rattle.std.specs.Option.{ForSome};
ghost use Rattle.hex.specs.Hex.{encode_lower};
ghost use Rattle.road_io.specs.Causes.{Rose};
ghost use Rattle.road_io.specs.Disk.{Stays, Turns};
ghost use Rattle.road_io.specs.Moments.{AtEachMoment, EachImage, still_told};
ghost use Rattle.desk_areas.specs.Blank.{IsBlank, IsFresh};
ghost use Rattle.desk_areas.specs.Keys.{key_from};
ghost use Rattle.desk_areas.specs.Layout.{IsOpen};
ghost use Rattle.key_desk.specs.Stands.{KeepsStanding};
ghost use Rattle.road_command.specs.View.{type_of};
ghost use Rattle.command_files.specs.Endings.{Promises, TellsNone, WhyNot};
ghost use Rattle.command_files.specs.Spared.{SparesLibrary, SparesBut};
ghost use Rattle.owner_commands.specs.Names.{HasDistinctNames};
ghost use Rattle.owner_commands.specs.OwnerKey.{EndsKey, MakesByFile, MakesKey, ends_key};
ghost use Rattle.owner_commands.specs.Signing.{StaysRefused};

use command_files::{Conclusion, Fault, load_hex, write_text};
use key_desk::{Desk, StartError};
use road_command::KeyKind;
use road_io::{Disk, Library, Sink};
use std::alloc::Global;

/// Makes the owner's key on the disk, and writes its public key.
pub fn key<L: Library, K: Sink, D: Disk>(
    alloc: Global,
    library: &mut L,
    sink: &mut K,
    disk: &mut D,
    secret: &str,
    kind: KeyKind,
) -> Result<Conclusion, Fault>
    ensures promised { Promises
        (ends_key (still_told D.Disk disk.old disk.new) secret.now (type_of kind)) TellsNone
        (Rose (D.faults disk.old) (D.faults disk.new))
        (L.files library.new) (L.faults library.old) (L.faults library.new)
        (K.taken sink.old) (K.taken sink.new) (K.faults sink.old) (K.faults sink.new) result }
    ensures library { SparesLibrary result (L.faults library.old) (L.faults library.new) }
    ensures asked { L.asked library.new ≡ L.asked library.old ++ secret.now ∷ [] }
    ensures sink { SparesBut Fault.Sink result (K.faults sink.old) (K.faults sink.new) }
    ensures made { OnOk result
        (MakesKey D.Disk disk.new (L.files library.new) secret.now (type_of kind)) }
    ensures held { ForSome (D.content disk.old) IsOpen →
        AtEachMoment D.Disk disk.old disk.new Stays }
    ensures kept { ForSome (still_told D.Disk disk.old disk.new)
        (λ c. IsOpen c → result ≢ Ok Conclusion.Done) }
    ensures moments { AtEachMoment D.Disk disk.old disk.new Stays ⊎
        MakesByFile D.Disk disk.old disk.new (L.files library.new) secret.now (type_of kind) }
    ensures untouched { IfErr result (StaysRefused D.Disk disk.old disk.new) }
    ensures unfaulted { result ≢ Err Fault.Disk → D.faults disk.new ≡ D.faults disk.old }
    ensures stands { KeepsStanding D.Disk disk.old disk.new }
{
    let secret: [u8; 48] = load_hex(alloc, library, secret)?;
    let line = make_key(alloc, disk, &secret, kind)?;
    write_text(sink, &line)
}

/// Makes the owner's key on the disk, and returns the line of its public key.
fn make_key<D: Disk>(
    alloc: Global,
    disk: &mut D,
    secret: &[u8; 48],
    kind: KeyKind,
) -> Result<[u8; 113], Fault>
    ensures line { IfOk result (λ line.
        EndsKey (still_told D.Disk disk.old disk.new) (type_of kind) secret.now
        (Ok Conclusion.Done) line) }
    ensures made { OnOk result (EachImage D.Disk disk.new
        (IsBlank (key_from (type_of kind) secret.now))) }
    ensures names { OnOk result (EachImage D.Disk disk.new HasDistinctNames) }
    ensures refused { IfErr result
        (WhyNot (Rose (D.faults disk.old) (D.faults disk.new))
        (EndsKey (still_told D.Disk disk.old disk.new) (type_of kind) secret.now)) }
    ensures held { ForSome (D.content disk.old) IsOpen →
        AtEachMoment D.Disk disk.old disk.new Stays }
    ensures moments { Turns D.clock D.image_at disk.old disk.new
        (IsFresh (key_from (type_of kind) secret.now)) }
    ensures untouched { IfErr result (StaysRefused D.Disk disk.old disk.new) }
    ensures unfaulted { result ≢ Err Fault.Disk → D.faults disk.new ≡ D.faults disk.old }
    ensures stands { KeepsStanding D.Disk disk.old disk.new }
{
    match Desk::create(alloc, disk, kind.number(), secret) {
        Ok(desk) => Ok(line_of_key(&desk.public())),
        Err(StartError::Held) => Err(Fault::Held),
        Err(StartError::DiskFault) => Err(Fault::Disk),
        Err(StartError::Memory(none)) => Err(Fault::Memory(none)),
        Err(StartError::NoKey | StartError::BadBlock) => unreachable!(),
    }
}

/// Returns the line of a public key: lower-case hex and a line end.
pub(crate) fn line_of_key(public: &[u8; 56]) -> [u8; 113]
    ensures { result ≡ encode_lower public.now ++ codes "\n" }
{
    let mut line = [b'\n'; 113];
    hex::encode_to_slice(public, &mut line[..112]).unwrap();
    line
}
