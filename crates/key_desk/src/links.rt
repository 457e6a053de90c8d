//! The keys of a desk, and the links from each key to the next.
ghost use Rattle.std.specs.Prelude.{◌≡◌, ◌+◌, ◌<◌, ◌≤◌, ◌↔◌, Ok, Err, true, false, length, IfOk, IsErr, IsErrOf};
ghost use Rattle.octet_text.specs.Want.{no_memory};
ghost use Rattle.lms_tree.specs.ChainFiles.{chain_file, link_row};
ghost use Rattle.lms_tree.specs.Chains.{chained};
ghost use Rattle.lms_tree.specs.Links.{link_text};
ghost use Rattle.lms_tree.specs.Signatures.{height_of, public_key, seal_len, verified};
ghost use Rattle.key_desk.specs.Links.{link_of};

use crate::desk::{Desk, signature_len};
use desk_areas::slots_of;
use lms_tree::{Key, Link, link_text, verify};
use octet_text::{NoMemory, Octets, filled, push};
use std::alloc::Global;
use thiserror::Error;

/// Why a desk did not return its links.
#[derive(Clone, Copy, Debug, PartialEq, Eq, Error)]
pub enum LinksError {
    /// The disk failed before. The desk must be opened again.
    #[error("The desk is closed since its disk failed, and must be opened again.")]
    Closed,
    /// Out of memory.
    #[error("Out of memory.")]
    Memory(NoMemory),
}

impl From<NoMemory> for LinksError {
    ghost use Rattle.std.specs.Prelude.{◌≡◌};
    ghost use Rattle.key_desk.specs.declared.links.LinksError.TheVariants.{Memory};

    ghost from_gives = { λ none e. e ≡ Memory none };

    fn from(none: NoMemory) -> Self {
        LinksError::Memory(none)
    }
}

/// Why a desk did not return a key.
#[derive(Clone, Copy, Debug, PartialEq, Eq, Error)]
pub enum AreaError {
    /// The disk failed before. The desk must be opened again.
    #[error("The desk is closed since its disk failed, and must be opened again.")]
    Closed,
}

impl Desk {
    ghost use Rattle.key_desk.specs.Desk.{key_of};
    ghost use Rattle.key_desk.specs.Links.{link_from, links_of};

    /// Returns the number of the desk's keys. Each open area has one. The last one is the current key.
    pub fn key_count(&self) -> u32
        ensures { result ≡ length self.now.earlier + 1 }
    {
        self.earlier().len() as u32 + 1
    }

    // Returns the key of an open area.
    fn key_in(&self, area: u32) -> &Key
        requires { area ≤ length self.now.earlier }
        ensures { result.now ≡ key_of self.now area }
    {
        let earlier = self.earlier();
        if (area as usize) < earlier.len() {
            earlier[area as usize].key()
        } else {
            self.key()
        }
    }

    /// Returns the public key of an open area. Takes no memory.
    pub fn public_of(&self, area: u32) -> [u8; 56]
        requires { area ≤ length self.now.earlier }
        ensures { result ≡ public_key (key_of self.now area) }
    {
        self.key_in(area).public()
    }

    /// Returns the key of an open area. Takes no memory, since the desk keeps its keys.
    pub fn area(&self, area: u32) -> Result<&Key, AreaError>
        requires { area ≤ length self.now.earlier }
        ensures key { IfOk result (λ key. key.now ≡ key_of self.now area) }
        ensures closed { IsErrOf result AreaError.Closed ↔ (self.now.is_open ≡ false) }
    {
        let is_open = self.is_open();
        if !is_open {
            return Err(AreaError::Closed);
        }
        Ok(self.key_in(area))
    }

    // Returns the link from the key of an area to the key of the next area.
    fn link_from(&self, alloc: Global, area: u32) -> Result<Link, LinksError>
        requires known { area < length self.now.earlier }
        requires few { area < 7 }
        ensures link { IfOk result (λ link. link ≡ link_from self.now area) }
        ensures good { IfOk result
            (λ link. verified (public_key (key_of self.now area))
            (link_text link.key) link.signature ≡ Ok tt) }
        ensures fits { IfOk result (λ link. link_row.Fits link) }
        ensures memory { IsErr result → result ≡ Err (LinksError.Memory no_memory) }
    {
        let next = self.public_of(area + 1);
        link_to(alloc, self.key_in(area), next)
    }

    /// Returns the links from the first key to the current one, in order. Each link has a key after the first, and
    /// the signature of its link text by the last one-time key of the previous key. Each call returns the same
    /// octets.
    pub fn links(&self, alloc: Global) -> Result<Vec<Link>, LinksError>
        ensures links { IfOk result (λ links. links.items ≡ links_of self.now) }
        ensures chained { IfOk result
            (λ links. chained (public_key (key_of self.now 0)) links.items ≡ Ok tt) }
        ensures fits { IfOk result (λ links. chain_file.Fits links.items) }
        ensures closed { IsErrOf result LinksError.Closed ↔ (self.now.is_open ≡ false) }
    {
        let is_open = self.is_open();
        if !is_open {
            return Err(LinksError::Closed);
        }
        let mut links = Vec::new(alloc);
        let count = self.earlier().len() as u32;
        for area in 0..count {
            let link = self.link_from(alloc, area)?;
            push(&mut links, link)?;
        }
        Ok(links)
    }

    /// Tests whether the previous key's link leads to the current key: makes the link again, without heap memory,
    /// and verifies it. By the contract it always does; the test detects a bit of memory that has flipped in the
    /// meantime.
    pub fn is_linked(&self) -> bool
        requires { 0 < length self.now.earlier }
        ensures { result ≡ true }
    {
        let earlier = self.earlier();
        is_good_link(earlier[earlier.len() - 1].key(), &self.public())
    }
}

// Signs the link text of the next key with the last one-time key of a key.
fn sign_link(key: &Key, next: &[u8; 56], signature: &mut [u8])
    requires { length signature.old ≡ seal_len (height_of key.now.kind) }
    ensures signature { signature.new ≡ (link_of key.now next.now).signature }
    ensures verified { verified (public_key key.now) (link_text next.now) signature.new ≡ Ok tt }
{
    let last = slots_of(key.kind()).saturating_sub(1);
    key.sign_into(last, &link_text(next), signature);
}

// Tests whether the signature of a link text, made by the last one-time key of a key, verifies under that key.
fn is_good_link(key: &Key, next: &[u8; 56]) -> bool
    ensures { result ≡ true }
{
    let mut octets = [0u8; 1452];
    let signature = &mut octets[..signature_len(key.kind()) as usize];
    sign_link(key, next, signature);
    verify(&key.public(), &link_text(next), signature).is_ok()
}

// Makes the link from a key to the next key: the last one-time key signs the link text.
fn link_to(alloc: Global, key: &Key, next: [u8; 56]) -> Result<Link, LinksError>
    ensures link { IfOk result (λ link. link ≡ link_of key.now next) }
    ensures good { IfOk result (λ link.
        verified (public_key key.now) (link_text link.key) link.signature ≡ Ok tt) }
    ensures fits { IfOk result (λ link. link_row.Fits link) }
    ensures memory { IsErr result → result ≡ Err (LinksError.Memory no_memory) }
{
    let length = signature_len(key.kind());
    let mut signature = filled(alloc, 0u8, length as usize)?;
    sign_link(key, &next, &mut signature);
    Ok(Link {
        key: next,
        signature: Octets::from_vec(signature),
    })
}
