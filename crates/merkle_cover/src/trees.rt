//! Trees of digests over texts.
ghost use Rattle.std.specs.Prelude.{◌≡◌, ◌≢◌, ℕ, ◌+◌, ◌-◌, ◌*◌, ◌^◌, ◌<◌, ◌≤◌, List, [], ◌∷◌, length, map, min, take, drop, slice_index, slice_index_or, IfOk, IfErr, OnOk, Option, Some, None, Ok, Err};
ghost use Rattle.octet_text.specs.Want.{no_memory};
ghost use Rattle.std.specs.Int.{div_ceil};
ghost use Rattle.std.specs.List.{range_with_len, flat_map};
ghost use Rattle.merkle_cover.specs.Trees.{tree_of, level_over, leaf_count, root, IsShaped};
ghost use Rattle.merkle_cover.specs.Covers.{cover_of, chosen_texts, fold_of, IsRising};
ghost use Rattle.merkle_cover.specs.declared.trees.TreeError.{TreeError};
ghost use Rattle.merkle_cover.specs.Refusals.{first_refusal};

use crate::covers::{CoverWalk, cover_place};
use crate::folds::{leaf_digest, top_of};
use crate::texts::Texts;
use octet_text::{Digest32, Digests, Hasher, NoMemory, digest_of_pieces, push};
use std::alloc::Global;
use std::marker::{Model, PhantomData};
use thiserror::Error;

/// Why a tree was not made.
#[derive(Clone, Copy, Debug, PartialEq, Eq, Error)]
pub enum TreeError {
    /// The fan-out is not 2 to 32.
    #[error("The fan-out of a tree is from 2 to 32.")]
    Fan,
    /// There are no leaves.
    #[error("A tree has at least one leaf.")]
    Empty,
    /// There are more than 2,097,152 leaves.
    #[error("A tree has at most 2,097,152 leaves.")]
    TooMany,
    /// Out of memory.
    #[error("Out of memory.")]
    Memory(NoMemory),
}

/// A tree over texts, with the digests of all its positions.
#[derive(Drop)]
pub struct Tree<H: Hasher> {
    fan: u8,
    root: Digest32,
    levels: Vec<Digests>,
    hasher: PhantomData<H>,
}

impl<H: Hasher> Model for Tree<H> {
    ghost use Rattle.merkle_cover.specs.Trees.{Levels, IsShaped};

    ghost Value = { Levels };

    ghost view = { λ t. record { fan = t.fan; root = t.root; levels = t.levels.items } };

    ghost invariant = { λ t. IsShaped t.fan t.levels.items };
}

// Returns the digests of the leaves.
fn leaf_level<H: Hasher>(alloc: Global, leaves: &Texts) -> Result<Digests, NoMemory>
    ensures { IfOk result (λ v. v ≡ map (λ text. H.hash (0 ∷ text)) leaves.now) }
{
    let mut digests = Vec::new(alloc);
    for index in 0..leaves.count() {
        push(&mut digests, leaf_digest::<H>(leaves.text(index)))?;
    }
    Ok(Digests::from_vec(digests))
}

// Returns the digests of one group of a level. The last group may be smaller than the others.
fn group(below: &[Digest32], place: usize, fan: usize) -> &[Digest32]
    requires { place * fan < length below.now }
    ensures { result.now ≡ take (min fan (length below.now - place * fan))
        (drop (place * fan) below.now) }
{
    let rest = &below[place * fan..];
    &rest[..fan.min(rest.len())]
}

// Returns the digests of the next level up.
fn level_above<H: Hasher>(
    alloc: Global,
    below: &[Digest32],
    fan: usize,
) -> Result<Digests, NoMemory>
    requires fan { 0 < fan }
    requires fan_max { fan ≤ 32 }
    ensures { IfOk result (λ v. v ≡ level_over H.hash fan below.now) }
{
    let mut digests = Vec::new(alloc);
    for place in 0..below.len().div_ceil(fan) {
        let digest = digest_of_pieces::<H>(1, group(below, place, fan));
        push(&mut digests, digest)?;
    }
    Ok(Digests::from_vec(digests))
}

fn count_of(level: &Digests) -> usize
    ensures { result ≡ length level.now }
{
    level.as_slice().len()
}

fn first_digest(digests: &[Digest32]) -> Digest32
    requires { 0 < length digests.now }
    ensures { result ≡ slice_index_or digests.now 0 [] }
{
    digests[0]
}

// Builds the tree over the leaves. There must be at least one leaf and at most 2,097,152.
fn tree_over<H: Hasher>(alloc: Global, leaves: &Texts, fan: u8) -> Result<Tree<H>, NoMemory>
    requires fan { 2 ≤ fan }
    requires fan_max { fan ≤ 32 }
    requires leaves { 1 ≤ length leaves.now }
    requires leaves_max { length leaves.now ≤ 2097152 }
    ensures { IfOk result (λ tree. tree ≡ tree_of H.hash leaves.now fan) }
{
    let first = leaf_level::<H>(alloc, leaves)?;
    let mut count = count_of(&first);
    let mut levels = Vec::new(alloc);
    push(&mut levels, first)?;
    let mut last = 0;
    while count > 1 {
        let below: &Digests = &levels[last];
        let next = level_above::<H>(alloc, below.as_slice(), fan as usize)?;
        count = count_of(&next);
        push(&mut levels, next)?;
        last += 1;
    }
    let top: &Digests = &levels[last];
    let root = first_digest(top.as_slice());
    Ok(Tree {
        fan,
        root,
        levels,
        hasher: PhantomData,
    })
}

impl<H: Hasher> Tree<H> {
    /// Builds the tree over the leaves. Hashes each leaf and each position above the leaves once.
    ///
    /// Fails with the first error that applies: `Fan` if the fan-out is not 2 to 32, `Empty` if there is no leaf,
    /// `TooMany` if there are more than 2,097,152 leaves. None of these depends on the available memory.
    pub fn build(alloc: Global, leaves: &Texts, fan: u8) -> Result<Tree<H>, TreeError>
        ensures ok { IfOk result (λ tree. tree ≡ tree_of H.hash leaves.now fan) }
        ensures fan { IfOk result (λ tree. tree.fan ≡ fan) }
        ensures good { OnOk result (first_refusal (length leaves.now) fan ≡ None) }
        ensures refused { IfErr result
            (λ e. e ≢ TreeError.Memory no_memory → first_refusal (length leaves.now) fan ≡ Some e) }
        ensures told { (e : TreeError) → first_refusal (length leaves.now) fan ≡ Some e →
            result ≡ Err e }
    {
        if fan < 2 || fan > 32 {
            return Err(TreeError::Fan);
        }
        let count = leaves.count();
        if count == 0 {
            return Err(TreeError::Empty);
        }
        if count > 2_097_152 {
            return Err(TreeError::TooMany);
        }
        match tree_over::<H>(alloc, leaves, fan) {
            Ok(tree) => Ok(tree),
            Err(none) => Err(TreeError::Memory(none)),
        }
    }

    /// Returns the root: the digest of the top level's position.
    pub fn root(&self) -> Digest32
        ensures { result ≡ self.now.root }
    {
        self.root
    }

    /// Returns the cover of the chosen leaves. It is empty if no leaf is chosen.
    ///
    /// Takes time proportional to the number of levels times the sum of two numbers: that of the chosen leaves and
    /// that of the cover's digests.
    pub fn cover(&self, alloc: Global, places: &[u32]) -> Result<Vec<Digest32>, NoMemory>
        requires { IsRising (leaf_count self.now) places.now }
        ensures cover { (texts : List (List ℕ)) → self.now ≡ tree_of H.hash texts self.now.fan
            → IfOk result (λ v. v.items ≡ cover_of H.hash texts self.now.fan places.now) }
        ensures folds { (texts : List (List ℕ)) → self.now ≡ tree_of H.hash texts self.now.fan →
            0 < length places.now
            → IfOk result (λ v. fold_of H.hash (length texts) self.now.fan places.now
            (chosen_texts texts places.now) v.items ≡ Ok (root H.hash texts self.now.fan)) }
    {
        let mut out = Vec::new(alloc);
        if places.is_empty() {
            return Ok(out);
        }
        let walk = CoverWalk {
            levels: &self.levels,
            leaves: u64::from(self.leaves()),
            fan: u64::from(self.fan),
            places,
        };
        let (level, span) = top_of(walk.leaves, walk.fan);
        cover_place(&walk, level, 0, span, 0, &mut out)?;
        Ok(out)
    }

    /// Returns the number of leaves, 1 to 2,097,152.
    pub fn leaves(&self) -> u32
        ensures { result ≡ leaf_count self.now }
    {
        let lowest: &Digests = &self.levels[0];
        count_of(lowest) as u32
    }

    /// Returns the fan-out, 2 to 32.
    pub fn fan(&self) -> u8
        ensures { result ≡ self.now.fan }
    {
        self.fan
    }

    // Returns the digests by level.
    pub(crate) fn levels(&self) -> &[Digests]
        ensures value { result.now ≡ self.now.levels }
        ensures shaped { IsShaped self.now.fan self.now.levels }
    {
        self.levels.as_slice()
    }
}
