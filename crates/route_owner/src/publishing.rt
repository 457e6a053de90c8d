//! Publishing a map.

ghost use Rattle.std.specs.Prelude.{◌≡◌, ◌≢◌, ◌⊎◌, ℕ, Some, slice_set, List, Ok, Err, IfOk, IfErr, OnOk, IsOk, ◌<◌, ◌≤◌, true, false, length};
ghost use Rattle.octet_text.specs.Want.{no_memory};
ghost use Rattle.sha2.specs.Sha256.{sha256};
ghost use Rattle.road_io.specs.Causes.{Rose, RoseBy};
ghost use Rattle.desk_areas.specs.Calls.{CalledUpTo};
ghost use Rattle.desk_areas.specs.declared.area.Count.TheVariants.{Free, Spent};
ghost use Rattle.key_desk.specs.Desk.{count_at, Fits, KeepsAllKnown, SameAreas};
ghost use Rattle.key_desk.specs.Stands.{KeepsStanding};
ghost use Rattle.key_desk.specs.declared.desk.DeskError.{DeskError};
ghost use Rattle.key_desk.specs.declared.desk.DeskError.TheVariants as desk_errors;
ghost use Rattle.proof_octets.specs.declared.header.Header.{Header};
ghost use Rattle.proof_octets.specs.declared.publication.Publication.{Publication};
ghost use Rattle.proof_octets.specs.Publications.{publication_text};
ghost use Rattle.route_server.specs.Headers.{HasHeader, Makes};
ghost use Rattle.route_server.specs.declared.errors.BuildError.{BuildError};
ghost use Rattle.route_owner.specs.Published.{slot_of, IsPublication, IsSealed, IsNoBook, IsUsedUp, AnswersRefusal, CanPublish, OnSigning, OnNoSigning, SignsHeader, SignsLowestHeader, IsSignable};

use crate::errors::PublishError;
use crate::widths::{parts_have_widths, settings_have_widths};
use book_model::Settings;
use key_desk::Desk;
use octet_text::{Hasher, NoMemory, Octets, filled};
use proof_octets::{Publication, length_laws, range_laws};
use road_io::Disk;
use road_map::Parts;
use route_server::{BuildError, Headed, header_of, server_laws};
use std::alloc::Global;

/// Returns the header of parts and settings, which the owner signs, and gives the parts back. Fails with the first
/// reason why they have no header.
pub fn make_signable<H: Hasher>(
    alloc: Global,
    parts: Parts,
    settings: &Settings,
) -> Result<Headed, BuildError>
    ensures signable { IfOk result (λ it. IsSignable H.hash parts settings.now it.header it.parts) }
    ensures refused { IfErr result (λ e. Makes H.hash sha256 parts settings.now (Err e)) }
{
    parts_have_widths(&parts);
    settings_have_widths(*settings);
    let headed = header_of::<H>(alloc, parts, settings)?;
    Ok(headed)
}

/// Returns `count` zeros, which a signature will replace.
fn zeros(alloc: Global, count: usize) -> Result<Vec<u8>, NoMemory>
    ensures { IfOk result (λ octets. length octets.items ≡ count) }
{
    filled(alloc, 0u8, count)
}

/// Signs the header of the book of parts and settings with the next one-time key, and returns the publication.
///
/// Takes all memory before the signing begins. Makes four calls to the disk, or fewer if one of them fails or
/// nothing is signed.
#[tactic(auto, using(crate::proofs::Standing::stands_same, crate::proofs::Standing::same_areas))]
pub fn publish<H: Hasher, D: Disk>(
    alloc: Global,
    desk: &mut Desk,
    disk: &mut D,
    parts: Parts,
    settings: &Settings,
) -> Result<Publication, PublishError>
    requires { Fits D.Disk desk.old disk.old }
    ensures published { IfOk result (IsPublication H.hash desk.old.key parts settings.now) }
    ensures sealed { IfOk result
        (IsSealed D.Disk disk.old disk.new (length desk.old.earlier)) }
    ensures no_book { (e : BuildError) → result ≡ Err (PublishError.Build e) →
        IsNoBook H.hash parts settings.now e }
    ensures used_up { result ≡ Err (PublishError.Desk desk_errors.KeysUsedUp) →
        IsUsedUp H.hash parts settings.now desk.old }
    ensures closed { result ≡ Err (PublishError.Desk desk_errors.Closed) →
        desk.old.is_open ≡ false }
    ensures fault { result ≡ Err (PublishError.Desk desk_errors.DiskFault) →
        Rose (D.faults disk.old) (D.faults disk.new) }
    ensures kept { result ≢ Err (PublishError.Desk desk_errors.DiskFault) →
        D.faults disk.new ≡ D.faults disk.old }
    ensures untouched { OnNoSigning result ((desk.new ≡ desk.old) × (disk.new ≡ disk.old)) }
    ensures unsigned { (e : DeskError) → result ≡ Err (PublishError.Desk e) →
        e ≢ desk_errors.DiskFault → (desk.new ≡ desk.old) × (disk.new ≡ disk.old) }
    ensures known { KeepsAllKnown D.Disk desk.old disk.old desk.new disk.new }
    ensures lowest { IfOk result
        (λ p. (s : ℕ) → s < slot_of p → count_at desk.old s ≢ Free) }
    ensures stays_open { IsOk result → desk.new.is_open ≡ true }
    ensures closes { result ≡ Err (PublishError.Desk desk_errors.DiskFault) →
        desk.new.is_open ≡ false }
    ensures counts { IfOk result (λ p.
        desk.new.counts ≡ slice_set desk.old.counts (slot_of p) Spent) }
    ensures taken { (s : ℕ) → count_at desk.old s ≢ Free →
        count_at desk.new s ≡ count_at desk.old s }
    ensures refused_else { AnswersRefusal H.hash parts settings.now desk.old result }
    ensures succeeds { CanPublish H.hash parts settings.now desk.old →
        (Rose (D.faults disk.old) (D.faults disk.new) → ⊥) →
        IsOk result ⊎ (result ≡ Err (PublishError.Memory no_memory)) }
    ensures moments { OnSigning result
        (SignsHeader D.Disk disk.old disk.new H.hash parts settings.now) }
    ensures lowest_moments { ((s : ℕ) → (count_at desk.old s ≡ Free) ⊎ (count_at desk.old s ≡ Spent))
        → OnSigning result
        (SignsLowestHeader D.Disk disk.old disk.new H.hash parts settings.now) }
    ensures fits { Fits D.Disk desk.new disk.new }
    ensures same { SameAreas desk.old desk.new }
    ensures stands { KeepsStanding D.Disk disk.old disk.new }
    ensures counted { OnOk result (RoseBy 4 (D.calls disk.old) (D.calls disk.new)) }
    ensures few { CalledUpTo 4 (D.calls disk.old) (D.calls disk.new) }
{
    server_laws();
    let Headed { header, parts } = match make_signable::<H>(alloc, parts, settings) {
        Ok(signable) => signable,
        Err(BuildError::Memory(none)) => return Err(PublishError::Memory(none)),
        Err(fault) => return Err(PublishError::Build(fault)),
    };
    let mut signature = match zeros(alloc, desk.sig_len() as usize) {
        Ok(signature) => signature,
        Err(none) => return Err(PublishError::Memory(none)),
    };
    length_laws();
    range_laws();
    match desk.sign(disk, &header.write(), &mut signature) {
        Ok(_) => Ok(Publication {
            header,
            signature: Octets::from_vec(signature),
            settings: *settings,
            parts,
        }),
        Err(fault) => Err(PublishError::Desk(fault)),
    }
}
