ghost use Rattle.std.specs.Prelude.{◌≡◌, ℕ, ◌+◌, ◌*◌, ◌^◌, ◌<◌, ◌≤◌, List, [], ◌++◌, length, take, slice_index_or, ◌↔◌, Ok, IfOk, false};
ghost use Rattle.lms_tree.specs.Signatures.{height_of, is_kind, node_of, path_of, public_key, seal_len, sealed, sibling, verified};
ghost use Rattle.lms_tree.specs.Nodes.{HasNodes};

use crate::hashes::{inner, leaf};
use crate::kinds::{LMOTS_SHA256_N32_W8, height, is_kind};
use lms_ots::{public_hash, sign_ots};
use octet_text::{Digest32, NoMemory, array_at, filled, write_array};
use std::alloc::Global;
use std::marker::Model;
use thiserror::Error;

mod parts;

// Returns a list of this many zero digests.
fn zeros(alloc: Global, count: usize) -> Result<Vec<Digest32>, NoMemory>
    ensures { IfOk result (λ v. length v.items ≡ count) }
{
    filled(alloc, [0; 32], count)
}

// Returns a node of the tree, from the nodes with greater numbers.
fn node_at(i: &[u8; 16], seed: &[u8; 32], height: u32, nodes: &[Digest32], r: u32) -> Digest32
    requires height { height ≤ 10 }
    requires low { 1 ≤ r }
    requires high { r < 2 * 2 ^ height }
    requires nodes { HasNodes i.now seed.now height nodes.now (r + 1) }
    ensures { (k j : ℕ) → j + k ≡ height → 2 ^ j ≤ r → r < 2 * 2 ^ j →
        result ≡ node_of i.now seed.now height k r }
{
    let leaves: u32 = 1 << height;
    if r >= leaves {
        leaf(i, r, &public_hash(i, r - leaves, seed))
    } else {
        inner(i, r, &nodes[2 * r as usize], &nodes[2 * r as usize + 1])
    }
}

// Returns all nodes of the tree. Takes all memory before the first hash.
fn nodes_of(
    alloc: Global,
    i: &[u8; 16],
    seed: &[u8; 32],
    height: u32,
) -> Result<Vec<Digest32>, NoMemory>
    requires { height ≤ 10 }
    ensures { IfOk result (λ v. HasNodes i.now seed.now height v.items 1) }
{
    let count: u32 = 2 << height;
    let mut nodes = zeros(alloc, count as usize)?;
    for r in (1..count).rev() {
        let digest = node_at(i, seed, height, &nodes, r);
        nodes[r as usize] = digest;
    }
    Ok(nodes)
}

// Returns the sibling of a node.
fn sibling_of(r: u32) -> u32
    requires { r < 2 ^ 31 }
    ensures { result ≡ sibling r }
{
    if r % 2 == 0 { r + 1 } else { r - 1 }
}

/// Why a key could not be built.
#[derive(Clone, Copy, Debug, PartialEq, Eq, Error)]
pub enum KeyError {
    /// The type is neither 5 nor 6.
    #[error("The type of tree is unknown.")]
    Kind,
    /// Out of memory.
    #[error("There is no memory for the nodes of the tree.")]
    Memory(NoMemory),
}

/// A private key with the nodes of its tree: 64 for height 5, 2,048 for height 10.
#[derive(Drop)]
pub struct Key {
    kind: u32,
    height: u32,
    i: [u8; 16],
    seed: [u8; 32],
    nodes: Vec<Digest32>,
}

impl Model for Key {
    ghost use Rattle.lms_tree.specs.Nodes.{KeepsTree};
    ghost use Rattle.lms_tree.specs.Signatures.{KeyOf};

    ghost Value = { KeyOf };

    ghost view = { λ k. record { kind = k.kind; i = k.i; seed = k.seed } };

    ghost invariant = { λ k. KeepsTree k.kind k.height k.i k.seed k.nodes.items };
}

impl Key {
    /// Builds the key of a type, 5 or 6, with one-time keys derived from `I` and `SEED` (§ 5.2, Appendix A). Takes
    /// all its memory before the first hash.
    pub fn build(alloc: Global, kind: u32, i: &[u8; 16], seed: &[u8; 32]) -> Result<Key, KeyError>
        ensures key { IfOk result (λ key.
            key ≡ record { kind = kind; i = i.now; seed = seed.now }) }
        ensures kind { (result ≡ Err KeyError.Kind) ↔ (is_kind kind ≡ false) }
    {
        if !is_kind(kind) {
            return Err(KeyError::Kind);
        }
        let height = height(kind);
        match nodes_of(alloc, i, seed, height) {
            Ok(nodes) => Ok(Key {
                kind,
                height,
                i: *i,
                seed: *seed,
                nodes,
            }),
            Err(none) => Err(KeyError::Memory(none)),
        }
    }

    /// Returns the type of the tree.
    pub fn kind(&self) -> u32
        ensures { result ≡ self.now.kind }
    {
        self.kind
    }

    /// Returns the number of one-time keys of the tree, 32 or 1,024.
    pub fn slots(&self) -> u32
        ensures { result ≡ 2 ^ height_of self.now.kind }
    {
        1 << self.height
    }

    /// Returns the public key, 56 octets (§ 5.3).
    pub fn public(&self) -> [u8; 56]
        ensures { result ≡ public_key self.now }
    {
        let mut public = [0; 56];
        let root: Digest32 = self.nodes[1];
        write_array(&mut public, 0, &self.kind.to_be_bytes());
        write_array(&mut public, 4, &LMOTS_SHA256_N32_W8.to_be_bytes());
        write_array(&mut public, 8, &self.i);
        write_array(&mut public, 24, &root);
        public
    }

    /// Writes the signature of a text by the one-time key `q` (§ 5.4.1). Takes no memory.
    pub fn sign_into(&self, q: u32, text: &[u8], out: &mut [u8])
        requires slot { q < 2 ^ height_of self.now.kind }
        requires room { length out.old ≡ seal_len (height_of self.now.kind) }
        ensures signature { out.new ≡ sealed self.now q text.now }
        ensures verified { verified (public_key self.now) text.now out.new ≡ Ok tt }
    {
        let mut ots = [0; 1124];
        sign_ots(&self.i, q, &self.seed, text, &mut ots);
        write_array(out, 0, &q.to_be_bytes());
        write_array(out, 4, &ots);
        write_array(out, 1128, &self.kind.to_be_bytes());
        self.write_path(q, out);
    }

    // Writes the path of leaf q into a signature, after the other fields.
    fn write_path(&self, q: u32, out: &mut [u8])
        requires slot { q < 2 ^ height_of self.now.kind }
        requires room { length out.old ≡ seal_len (height_of self.now.kind) }
        ensures { out.new ≡ take 1132 out.old ++ path_of self.now.i self.now.seed
            (height_of self.now.kind) q }
    {
        let leaf: u32 = (1 << self.height) + q;
        for level in 0..self.height {
            let value: Digest32 = self.nodes[sibling_of(leaf >> level) as usize];
            write_array(out, 1132 + 32 * level as usize, &value);
        }
    }
}
