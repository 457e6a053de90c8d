//! An owner of the five nodes, in memory: its publications, the signatures of its desk, and signatures without the
//! desk. The hash is the sum of the octets, so two leaves have the same digest if they have the same octets in
//! another order.
ghost use Rattle.std.specs.Prelude.{IfOk};
ghost use Rattle.key_desk.specs.Desk.{Fits};

use book_model::Settings;
use key_desk::Desk;
use lms_tree::Key;
use mem_io::MemDisk;
use octet_text::{Octets, Toy};
use proof_octets::{Header, Publication};
use road_io::Disk;
use route_server::Held;
use std::alloc::Global;
use std::test::Fail;
use test_maps::{DIJ, NODES, ROADS, parts_of};

/// The text that is hashed for the leaf of node 2, which has the coordinates (10, 0).
pub(crate) const SECOND: [u8; 32] = [
    0, 0x4e, 0, 0, 0, 2, 0, 0, 0, 10, 0, 0, 0, 0, 0, 2, 0, 0, 0, 1, 0, 0, 0, 4, 0, 0, 0, 3, 0, 0,
    0, 5,
];

/// The same text with node 2 at (0, 10).
pub(crate) const SECOND_MOVED: [u8; 32] = [
    0, 0x4e, 0, 0, 0, 2, 0, 0, 0, 0, 0, 0, 0, 10, 0, 2, 0, 0, 0, 1, 0, 0, 0, 4, 0, 0, 0, 3, 0, 0,
    0, 5,
];

/// Returns settings with method DIJ and this version.
fn settings(version: u64) -> Settings {
    Settings { version, ..DIJ }
}

/// Returns the header of a version.
pub(crate) fn header_of(alloc: Global, version: u64) -> Result<Header, Fail> {
    let held = Held::<Toy>::build(alloc, parts_of(alloc, &NODES, &ROADS)?, &settings(version))?;
    Ok(held.header())
}

/// Returns the publication of a version with this signature.
pub(crate) fn publication(
    alloc: Global,
    version: u64,
    signature: Vec<u8>,
) -> Result<Publication, Fail> {
    Ok(Publication {
        header: header_of(alloc, version)?,
        signature: Octets::from_vec(signature),
        settings: settings(version),
        parts: parts_of(alloc, &NODES, &ROADS)?,
    })
}

/// Installs the publication of a version with this signature.
pub(crate) fn installed(
    alloc: Global,
    version: u64,
    signature: Vec<u8>,
) -> Result<Held<Toy>, Fail> {
    let publication = publication(alloc, version, signature)?;
    Ok(Held::install(alloc, publication)?)
}

/// Makes the desk over a new key of zero octets, and its disk.
pub(crate) fn owner(alloc: Global) -> Result<(Desk, MemDisk), Fail>
    ensures { IfOk result (λ both. Fits ⟦<MemDisk as Disk>⟧ both.0 both.1) }
{
    let mut disk = MemDisk::new(alloc, 8320, 100_000, Vec::new(alloc), None)?;
    let desk = Desk::create(alloc, &mut disk, 5, &[0; 48])?;
    Ok((desk, disk))
}

/// Returns the desk's signature of the header of a version.
pub(crate) fn sealed<D: Disk>(
    alloc: Global,
    desk: &mut Desk,
    disk: &mut D,
    version: u64,
) -> Result<Vec<u8>, Fail>
    requires { Fits D.Disk desk.old disk.old }
    ensures { Fits D.Disk desk.new disk.new }
{
    let header = header_of(alloc, version)?;
    let mut signature = Vec::from_elem(alloc, 0u8, desk.sig_len() as usize)?;
    desk.sign(disk, &header.write(), &mut signature)?;
    Ok(signature)
}

/// Returns the public key whose secret repeats one octet, and the signature of a text by its last one-time key.
pub(crate) fn signed_past(
    alloc: Global,
    secret: u8,
    text: &[u8],
) -> Result<([u8; 56], Vec<u8>), Fail> {
    let key = Key::build(alloc, 5, &[secret; 16], &[secret; 32])?;
    let mut signature = Vec::from_elem(alloc, 0u8, 1292)?;
    key.sign_into(31, text, &mut signature);
    Ok((key.public(), signature))
}
