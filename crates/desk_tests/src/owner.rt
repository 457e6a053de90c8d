//! A map of five nodes, published from a disk in memory.

use crate::asserts::assert_same;
use book_model::{PlanError, Settings};
use key_desk::Desk;
use lms_tree::verify;
use mem_io::MemDisk;
use octet_text::Sha;
use route_owner::{PublishError, publish};
use route_server::BuildError;
use std::alloc::Global;
use std::test::Fail;
use test_maps::{DIJ, NODES, ROADS, parts_of};

/// An owner's disk, its public key, and the octets of the publication that its desk signed.
#[derive(Drop)]
pub(crate) struct Signed {
    pub disk: MemDisk,
    pub key: [u8; 56],
    pub text: Vec<u8>,
}

/// Publishes the five nodes in this version, which is the first one that a new desk signs.
pub(crate) fn published(alloc: Global, version: u64) -> Result<Signed, Fail> {
    let mut disk = MemDisk::new(alloc, 4160, 100_000, Vec::new(alloc), None)?;
    let mut desk = Desk::create(alloc, &mut disk, 5, &[0; 48])?;
    let parts = parts_of(alloc, &NODES, &ROADS)?;
    let settings = Settings { version, ..DIJ };
    let publication = publish::<Sha, MemDisk>(alloc, &mut desk, &mut disk, parts, &settings)?;
    let key = desk.public();
    let text = publication.write(alloc)?;
    Ok(Signed { disk, key, text })
}

#[test]
fn what_is_published_is_signed(rt: HostRuntime) -> Result<(), Fail> {
    let published = published(rt.alloc(), 3)?;
    assert_same(&rt, &published.text.len(), &1550);
    let header = published.text.get(4..108).unwrap_or(&[]);
    let signature = published.text.get(110..1402).unwrap_or(&[]);
    let verdict = verify(&published.key, header, signature);
    assert_same(&rt, &verdict, &Ok(()));
    Ok(())
}

#[test]
fn what_has_no_book_is_not_published(rt: HostRuntime) -> Result<(), Fail> {
    let alloc = rt.alloc();
    let mut disk = MemDisk::new(alloc, 4160, 100_000, Vec::new(alloc), None)?;
    let mut desk = Desk::create(alloc, &mut disk, 5, &[0; 48])?;
    let parts = parts_of(alloc, &NODES, &ROADS)?;
    // A parameter that DIJ does not have.
    let other = Settings { p3: 1, ..DIJ };
    let refused = publish::<Sha, MemDisk>(alloc, &mut desk, &mut disk, parts, &other);
    let no_plan = PublishError::Build(BuildError::Plan(PlanError::Settings(5)));
    assert_same(&rt, &refused.err(), &Some(no_plan));
    Ok(())
}
