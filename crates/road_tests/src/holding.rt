//! Books of rows of nodes and roads, held with signatures of zeros, and their answers.

use book_model::{Query, Settings};
use octet_text::{Hasher, NoMemory, Octets, Sha, filled};
use proof_octets::{Answer, Header, Publication, Reply};
use route_server::{BuildError, Held, InstallError};
use std::alloc::Global;
use std::test::Fail;
use test_maps::{DIJ, NODES, ROADS, parts_of};

pub(crate) const FULL: Settings = Settings { method: 2, ..DIJ };

/// One landmark and codes of two bits.
pub(crate) const CODES: Settings = Settings {
    method: 3,
    p1: 1,
    p2: 2,
    ..DIJ
};

/// Three columns and one row.
pub(crate) const CELLS: Settings = Settings {
    method: 4,
    p1: 3,
    p2: 1,
    ..DIJ
};

/// Builds the book over rows.
fn built<H: Hasher>(
    alloc: Global,
    nodes: &[(u32, i32, i32)],
    roads: &[(u32, u32, u32)],
    settings: &Settings,
) -> Result<Held<H>, BuildError> {
    let parts = parts_of(alloc, nodes, roads)?;
    Held::build(alloc, parts, settings)
}

/// Returns the header of the book over rows.
pub(crate) fn header_of<H: Hasher>(
    alloc: Global,
    nodes: &[(u32, i32, i32)],
    roads: &[(u32, u32, u32)],
    settings: &Settings,
) -> Result<Header, BuildError> {
    let held = built::<H>(alloc, nodes, roads, settings)?;
    Ok(held.header())
}

/// Returns the publication of rows with a header and a signature of zeros, which is as long as a signature by a key
/// of height 5.
fn publication_with(
    alloc: Global,
    nodes: &[(u32, i32, i32)],
    roads: &[(u32, u32, u32)],
    settings: &Settings,
    header: Header,
) -> Result<Publication, NoMemory> {
    let parts = parts_of(alloc, nodes, roads)?;
    let zeros = filled(alloc, 0, 1292)?;
    Ok(Publication {
        header,
        signature: Octets::from_vec(zeros),
        settings: *settings,
        parts,
    })
}

/// Installs the book over rows with a header.
fn installed_with(
    alloc: Global,
    nodes: &[(u32, i32, i32)],
    roads: &[(u32, u32, u32)],
    settings: &Settings,
    header: Header,
) -> Result<Held<Sha>, InstallError> {
    match publication_with(alloc, nodes, roads, settings, header) {
        Ok(publication) => Held::install(alloc, publication),
        Err(none) => Err(InstallError::Memory(none)),
    }
}

/// Installs the book over rows with its own header.
fn installed_over(
    alloc: Global,
    nodes: &[(u32, i32, i32)],
    roads: &[(u32, u32, u32)],
    settings: &Settings,
) -> Result<Held<Sha>, InstallError> {
    let header = header_of::<Sha>(alloc, nodes, roads, settings)?;
    installed_with(alloc, nodes, roads, settings, header)
}

/// Installs the book of the five nodes with its own header.
pub(crate) fn installed(alloc: Global, settings: &Settings) -> Result<Held<Sha>, InstallError> {
    installed_over(alloc, &NODES, &ROADS, settings)
}

fn reply(alloc: Global, held: &Held<Sha>, from: u32, to: u32) -> Result<Vec<u8>, Fail> {
    if held.signature().len() > 1452 {
        return Err(Fail::from("a long signature"));
    }
    Ok(held.answer(alloc, Query { from, to })?)
}

/// Returns the reply for a route from the book over rows.
pub(crate) fn reply_over(
    alloc: Global,
    nodes: &[(u32, i32, i32)],
    roads: &[(u32, u32, u32)],
    settings: &Settings,
    ends: (u32, u32),
) -> Result<Vec<u8>, Fail> {
    let held = installed_over(alloc, nodes, roads, settings)?;
    reply(alloc, &held, ends.0, ends.1)
}

/// Returns the reply for a route from the book of the five nodes.
pub(crate) fn first_reply(
    alloc: Global,
    settings: &Settings,
    from: u32,
    to: u32,
) -> Result<Vec<u8>, Fail> {
    reply_over(alloc, &NODES, &ROADS, settings, (from, to))
}

/// Returns why rows and settings have no book.
pub(crate) fn refusal_of(
    alloc: Global,
    nodes: &[(u32, i32, i32)],
    roads: &[(u32, u32, u32)],
    settings: &Settings,
) -> Option<BuildError> {
    built::<Sha>(alloc, nodes, roads, settings).err()
}

/// Returns why the book of the five nodes is not installed with this header.
pub(crate) fn refusal_with(
    alloc: Global,
    settings: &Settings,
    header: Header,
) -> Option<InstallError> {
    installed_with(alloc, &NODES, &ROADS, settings, header).err()
}

/// Reads the answer that short octets encode.
pub(crate) fn read_answer(alloc: Global, octets: &[u8]) -> Result<Answer, Fail> {
    if octets.len() > 10_000 {
        return Err(Fail::from("many octets"));
    }
    match Reply::read(alloc, octets) {
        Ok(Reply::Answer(answer)) => Ok(answer),
        _ => Err(Fail::from("no answer")),
    }
}

/// Reads the answer without a route that short octets encode.
pub(crate) fn read_apart(alloc: Global, octets: &[u8]) -> Result<Answer, Fail> {
    if octets.len() > 10_000 {
        return Err(Fail::from("many octets"));
    }
    match Reply::read(alloc, octets) {
        Ok(Reply::Apart(answer)) => Ok(answer),
        _ => Err(Fail::from("another reply")),
    }
}
