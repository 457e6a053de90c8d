//! Chain files: the links of a chain as octets.
ghost use Rattle.std.specs.Prelude.{◌≡◌, ◌<◌, ◌≤◌, ◌^◌, List, length, IfOk, OnOk};
ghost use Rattle.octet_text.specs.Format.{Gives, Takes, Reads, IsFound, ReadsAll, whole, octets_at, any_octets, string, u16, between};
ghost use Rattle.octet_text.specs.Puts.{Puts};
ghost use Rattle.lms_tree.specs.ChainFiles.{link_row, many, chain_file};

use crate::links::Link;
use octet_text::{
    Cursor, List, Malformed, NoMemory, Octets, ReadError, Short, copied, push, put_octets, put_u16,
};
use std::alloc::Global;

/// Reads the links of a chain file, at most seven. Fails with `Malformed` and the first field that cannot be read.
/// An eighth link counts as such a field, at its first octet.
pub fn read_links(alloc: Global, octets: &[u8]) -> Result<List<Link>, ReadError>
    requires { length octets.now < 2 ^ 32 }
    ensures exact { Reads (λ l. l) result (whole chain_file octets.now) }
    ensures found { IsFound (λ l. l) chain_file octets.now result }
    ensures only { ReadsAll (λ l. l) chain_file octets.now result }
{
    read_all(alloc, octets)
}

// Reads the links, as the format defines it.
fn read_all(alloc: Global, octets: &[u8]) -> Result<List<Link>, ReadError>
    requires { length octets.now < 2 ^ 32 }
    ensures { Reads (λ l. l) result (whole chain_file octets.now) }
{
    let mut cursor = Cursor::new(octets);
    let links = read_some(alloc, &mut cursor, 7)?;
    if !cursor.is_empty() {
        return Err(ReadError::Malformed(Malformed { at: cursor.at() }));
    }
    Ok(List::from_vec(links))
}

// Reads links until no octet is left, but at most this many.
fn read_some(alloc: Global, cursor: &mut Cursor<'_>, most: u32) -> Result<Vec<Link>, ReadError>
    ensures { Gives (λ v. v.items) result cursor.new ((many link_row most).read cursor.old) }
{
    let mut links = Vec::new(alloc);
    for _ in 0..most {
        if cursor.is_empty() {
            return Ok(links);
        }
        let link = read_link(alloc, cursor)?;
        push(&mut links, link)?;
    }
    Ok(links)
}

// Reads one link.
fn read_link(alloc: Global, cursor: &mut Cursor<'_>) -> Result<Link, ReadError>
    ensures { Gives (λ l. l) result cursor.new (link_row.read cursor.old) }
{
    cursor.name(b"RPL1")?;
    let key = read_key(cursor)?;
    let signature = read_signature(alloc, cursor)?;
    Ok(Link { key, signature })
}

// Reads the 56 octets of a public key.
fn read_key(cursor: &mut Cursor<'_>) -> Result<[u8; 56], Short>
    ensures { Takes (λ key. key) result cursor.new (octets_at 56 any_octets cursor.old) }
{
    let octets = cursor.take_octets(56)?;
    let mut key = [0; 56];
    key.copy_from_slice(octets);
    Ok(key)
}

// Reads a signature, which follows its length.
fn read_signature(alloc: Global, cursor: &mut Cursor<'_>) -> Result<Octets, ReadError>
    ensures { Gives (λ x. x) result cursor.new ((string (u16 (between 0 1452))).read cursor.old) }
{
    let size = cursor.u16_in(0, 1452)?;
    let octets = cursor.take_octets(u32::from(size))?;
    Ok(Octets::from_vec(copied(alloc, octets)?))
}

/// Encodes a chain file.
pub fn write_links(alloc: Global, links: &[Link]) -> Result<Vec<u8>, NoMemory>
    requires { chain_file.Fits links.now }
    ensures { IfOk result (λ octets. octets.items ≡ chain_file.spell links.now) }
{
    let mut out = Vec::new(alloc);
    for link in links {
        put_link(&mut out, link)?;
    }
    Ok(out)
}

// Appends one link.
fn put_link(out: &mut Vec<u8>, link: &Link) -> Result<(), NoMemory>
    requires { link_row.Fits link.now }
    ensures { OnOk result (Puts out.old.items out.new.items (link_row.spell link.now)) }
{
    let signature = link.signature.as_slice();
    put_octets(out, b"RPL1")?;
    put_octets(out, &link.key)?;
    put_u16(out, signature.len() as u16)?;
    put_octets(out, signature)
}
