//! The command `reduce`.

ghost use Rattle.std.specs.Prelude.{◌≡◌, ◌≤◌, ◌⊎◌, true, length, take, IfOk, IfErr, IfSome, ◌≢◌, Err, ◌∷◌, []};
ghost use Rattle.octet_text.specs.Want.{no_memory};
ghost use Rattle.std.specs.Option.{option_copied, option_map};
ghost use Rattle.road_io.specs.Causes.{Rose};
ghost use Rattle.road_io.specs.Disk.{Stays};
ghost use Rattle.road_io.specs.Moments.{AtEachMoment, still_told};
ghost use Rattle.key_desk.specs.Desk.{Fits, key_of};
ghost use Rattle.command_files.specs.Endings.{Promises, TellsNone, MayEnd, WhyNot};
ghost use Rattle.command_files.specs.Asking.{AsksFront};
ghost use Rattle.command_files.specs.Spared.{SparesLibrary, SparesBut};
ghost use Rattle.audit_commands.specs.Reducing.{EndsReduce, TellsReduced, TellsSlot, ends_reduce};
ghost use Rattle.audit_commands.specs.Unreleased.{RestsOnReduced, WritesReduced};

use crate::lines::{line_of_reduced, line_of_signed};
use crate::slots::{area_of, spent_of};
use command_desks::open_desk;
use command_files::{Conclusion, Fault, Told, load_hex, load_hex_text, write_told};
use key_desk::{AreaError, Desk};
use lms_reduce::{ReduceError, reduce as reduce_forgery, released_laws};
use lms_tree::Key;
use octet_text::NoMemory;
use road_io::{Disk, Library, Sink};
use road_line::line_of_refused;
use route_client::CheckError;
use std::alloc::Global;

/// Reduces a signature of a text, using the owner's disk, and writes the result: a collision of SHA-256, or a value
/// of a chain that the desk never released. Instead writes that the signature is invalid, or that its slot has
/// signed the same text, if this is so.
pub fn reduce<L: Library, K: Sink, D: Disk>(
    alloc: Global,
    library: &mut L,
    sink: &mut K,
    disk: &mut D,
    key: &str,
    text: &str,
    signature: &str,
) -> Result<Conclusion, Fault>
    ensures promised { Promises (ends_reduce
        (still_told D.Disk disk.old disk.new) key.now text.now signature.now) TellsNone
        (Rose (D.faults disk.old) (D.faults disk.new))
        (L.files library.new) (L.faults library.old) (L.faults library.new)
        (K.taken sink.old) (K.taken sink.new) (K.faults sink.old) (K.faults sink.new) result }
    ensures library { SparesLibrary result (L.faults library.old) (L.faults library.new) }
    ensures asked { AsksFront (key.now ∷ text.now ∷ signature.now ∷ [])
        (L.asked library.old) (L.asked library.new) }
    ensures sink { SparesBut Fault.Sink result (K.faults sink.old) (K.faults sink.new) }
    ensures unreleased { WritesReduced D.Disk disk.new (L.files library.new) text.now
        signature.now (K.taken sink.old) (K.taken sink.new) result }
    ensures unfaulted { result ≢ Err Fault.Disk → D.faults disk.new ≡ D.faults disk.old }
    ensures stays { AtEachMoment D.Disk disk.old disk.new Stays }
{
    let public: [u8; 56] = load_hex(alloc, library, key)?;
    let text = load_hex_text(alloc, library, text)?;
    let sig = load_hex_text(alloc, library, signature)?;
    let told = find(alloc, disk, &public, &text, &sig)?;
    write_told(sink, &told)
}

/// Returns the result of reducing a signature, given the desk over the keys on the disk.
fn find<D: Disk>(
    alloc: Global,
    disk: &mut D,
    public: &[u8; 56],
    text: &[u8],
    sig: &[u8],
) -> Result<Told, Fault>
    ensures told { IfOk result (λ told.
        EndsReduce (still_told D.Disk disk.old disk.new) public.now text.now sig.now
        told.end told.text.items) }
    ensures verdict { IfOk result (λ told. MayEnd TellsNone told.end) }
    ensures rests { IfOk result (λ told.
        RestsOnReduced D.Disk disk.new text.now sig.now told.end told.text.items) }
    ensures refused { IfErr result
        (WhyNot (Rose (D.faults disk.old) (D.faults disk.new))
        (EndsReduce (still_told D.Disk disk.old disk.new) public.now text.now sig.now)) }
    ensures unfaulted { result ≢ Err Fault.Disk → D.faults disk.new ≡ D.faults disk.old }
    ensures stays { AtEachMoment D.Disk disk.old disk.new Stays }
{
    released_laws();
    let mut desk = open_desk(alloc, disk)?;
    match area_of(&desk, public) {
        None => Err(Fault::OtherKey),
        Some(area) => find_in(alloc, &mut desk, disk, area, text, sig),
    }
}

/// Returns the result of reducing a signature under the key of an open area.
fn find_in<D: Disk>(
    alloc: Global,
    desk: &mut Desk,
    disk: &mut D,
    area: u32,
    text: &[u8],
    sig: &[u8],
) -> Result<Told, Fault>
    requires fits { Fits D.Disk desk.old disk.old }
    requires opened { desk.old.is_open ≡ true }
    requires area { area ≤ length desk.old.earlier }
    ensures told { IfOk result (λ told.
        TellsSlot D.Disk disk.new area (key_of desk.old area) text.now sig.now told.end
        told.text.items) }
    ensures verdict { IfOk result (λ told. MayEnd TellsNone told.end) }
    ensures refused { IfErr result (λ fault. (fault ≡ Fault.Memory no_memory) ⊎ ((fault ≡ Fault.Disk) ×
        Rose (D.faults disk.old) (D.faults disk.new))) }
    ensures faults { D.faults disk.old ≤ D.faults disk.new }
    ensures unfaulted { result ≢ Err Fault.Disk → D.faults disk.new ≡ D.faults disk.old }
    ensures stays { AtEachMoment D.Disk disk.old disk.new Stays }
{
    let mut room = [0u8; 126];
    match spent_of(desk, disk, area, sig, &mut room) {
        Err(_) => Err(Fault::Disk),
        Ok(found) => match desk.area(area) {
            Ok(key) => match tell(alloc, key, front(found, &room), text, sig) {
                Ok(told) => Ok(told),
                Err(none) => Err(Fault::Memory(none)),
            },
            Err(AreaError::Closed) => unreachable!(),
        },
    }
}

/// Returns the prefix of some octets, if its length is given.
fn front(found: Option<u32>, octets: &[u8; 126]) -> Option<&[u8]>
    requires { IfSome found (λ n. n ≤ 126) }
    ensures { option_copied result ≡ option_map (λ n. take n octets.now) found }
{
    match found {
        Some(len) => Some(&octets[..len as usize]),
        None => None,
    }
}

/// Returns the line of a reduced signature, given the key and the text that the signature's slot has signed.
fn tell(
    alloc: Global,
    key: &Key,
    spent: Option<&[u8]>,
    text: &[u8],
    sig: &[u8],
) -> Result<Told, NoMemory>
    ensures told { IfOk result (λ told.
        TellsReduced key.now (option_copied spent.entry) text.now sig.now told.end
        told.text.items) }
    ensures verdict { IfOk result (λ told. MayEnd TellsNone told.end) }
{
    match reduce_forgery(alloc, key, spent, text, sig) {
        Ok(reduced) => Ok(Told {
            text: line_of_reduced(alloc, &reduced)?,
            end: Ok(Conclusion::Evidence),
        }),
        Err(ReduceError::Signed(slot)) => Ok(Told {
            text: line_of_signed(alloc, slot)?,
            end: Ok(Conclusion::Done),
        }),
        Err(ReduceError::NotVerified(why)) => Ok(Told {
            text: line_of_refused(alloc, CheckError::BadSignature(why))?,
            end: Ok(Conclusion::Refused),
        }),
        Err(ReduceError::Memory(none)) => Err(none),
    }
}
