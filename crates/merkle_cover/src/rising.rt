//! The root of a tree and a cover of it, from texts that come one at a time.
ghost use Rattle.std.specs.Prelude.{◌≡◌, ◌≢◌, ℕ, suc, ◌+◌, ◌-◌, ◌*◌, ◌/◌, ◌^◌, ◌<◌, ◌≤◌, List, [], ◌∷◌, ◌++◌, length, take, drop, slice_get, slice_index_or, IfOk, IfErr, OnOk, Some, None, Err};
ghost use Rattle.octet_text.specs.Want.{no_memory};
ghost use Rattle.std.specs.List.{range_with_len, sum_by};
ghost use Rattle.merkle_cover.specs.Covers.{IsRising, cover_of};
ghost use Rattle.merkle_cover.specs.declared.rising.RisingError.{RisingError};
ghost use Rattle.merkle_cover.specs.Rising.{Takes, count_waiting, first_rising_refusal};
ghost use Rattle.merkle_cover.specs.Raising.{CanRaise, IsRaised};
ghost use Rattle.merkle_cover.specs.Shape.{top};
ghost use Rattle.merkle_cover.specs.Trees.{root};

use crate::covering::Covering;
use crate::folds::{fault_of, leaf_digest, top_of};
use crate::spots::{Spot, cover_spots};
use octet_text::{Digest32, Digests, Hasher, NoMemory, digest_of_pieces, filled};
use std::alloc::Global;
use std::marker::{Model, PhantomData};
use thiserror::Error;

/// Why a tree for texts that come one at a time was not made.
#[derive(Clone, Copy, Debug, PartialEq, Eq, Error)]
pub enum RisingError {
    /// The fan-out is not 2 to 32.
    #[error("The fan-out of a tree is from 2 to 32.")]
    Fan,
    /// There is no leaf.
    #[error("A tree has at least one leaf.")]
    Empty,
    /// There are more than 2,097,152 leaves.
    #[error("A tree has at most 2,097,152 leaves.")]
    TooMany,
    /// The position at this index is not below the number of leaves, or does not exceed the one before it.
    #[error("The place at index {0} is no leaf, or does not exceed the one before.")]
    Place(u32),
    /// Out of memory.
    #[error("Out of memory.")]
    Memory(NoMemory),
}

/// A tree's root, with the cover of the chosen leaves.
#[derive(Debug, Drop)]
pub struct Risen {
    /// The root: the digest of the top level's position.
    pub root: Digest32,
    /// The cover, which is empty if no leaf is chosen.
    pub cover: Digests,
}

// The number of leaves of a tree, its fan-out and its top level.
#[derive(Clone, Copy)]
struct Outline {
    leaves: u32,
    fan: u8,
    top: u32,
}

// Returns this many digests, from an offset on.
fn group(waiting: &[Digest32], first: usize, count: usize) -> &[Digest32]
    requires { first + count ≤ length waiting.now }
    ensures { result.now ≡ take count (drop first waiting.now) }
{
    &waiting[first..first + count]
}

// Raises the digest of a leaf through each group that it completes. Returns the last digest made, which is the root
// if the leaf is the last one.
fn raise<H: Hasher>(
    outline: Outline,
    waiting: &mut [Digest32],
    cover: &mut Covering,
    leaf: u32,
    lowest: Digest32,
) -> Digest32
    requires fan { 2 ≤ outline.fan }
    requires fan_max { outline.fan ≤ 32 }
    requires leaves { outline.leaves ≤ 2097152 }
    requires leaf { leaf < outline.leaves }
    requires height { outline.top ≡ top outline.leaves outline.fan }
    requires slots { length waiting.old ≡ outline.top * outline.fan }
    ensures spots { cover.new.spots ≡ cover.old.spots }
    ensures raised { (texts : List (List ℕ)) (places : List ℕ)
        → CanRaise H.hash texts places outline.leaves outline.fan leaf waiting.old
        cover.old.spots.items cover.old.digests.items lowest
        → IsRaised H.hash texts outline.leaves outline.fan leaf waiting.new cover.new.spots.items
        cover.new.digests.items result }
{
    let fan = u64::from(outline.fan);
    let last = leaf + 1 == outline.leaves;
    let mut digest = lowest;
    let mut place = u64::from(leaf);
    let mut level = 0;
    cover.take(Spot { level, place }, &digest);
    while level < outline.top {
        let slot = place % fan;
        let first = u64::from(level) * fan;
        waiting[(first + slot) as usize] = digest;
        if slot + 1 < fan && !last {
            return digest;
        }
        digest = digest_of_pieces::<H>(1, group(waiting, first as usize, slot as usize + 1));
        place /= fan;
        level += 1;
        cover.take(Spot { level, place }, &digest);
    }
    digest
}

/// A tree whose texts come one at a time. It keeps only the digests that wait for their group to be complete. It
/// takes all its memory when it is made.
#[derive(Drop)]
pub struct Rising<H: Hasher> {
    outline: Outline,
    pushed: u32,
    waiting: Vec<Digest32>,
    cover: Covering,
    newest: Digest32,
    hasher: PhantomData<H>,
}

impl<H: Hasher> Model for Rising<H> {
    ghost use Rattle.merkle_cover.specs.Rising.{Growth, IsGrowing};

    ghost Value = { Growth };

    ghost view = { λ r. record {
      leaves = r.outline.leaves;
      fan = r.outline.fan;
      pushed = r.pushed;
      waiting = r.waiting.items;
      spots = r.cover.spots.items;
      cover = r.cover.digests.items;
      newest = r.newest;
    } };

    ghost invariant = { λ r. IsGrowing r.outline.leaves r.outline.fan r.outline.top r.pushed
        r.waiting.items };
}

// Returns the sum of the lowest digits of a number, in the given base.
fn digit_sum(number: u32, base: u32, digits: u32) -> u32
    requires base { 2 ≤ base }
    requires base_max { base ≤ 32 }
    requires digits { digits ≤ 2097152 }
    ensures sum { result ≡ sum_by (λ k. number / base ^ k - base * (number / base ^ suc k))
        (range_with_len 0 digits) }
    ensures few { result ≤ base * digits }
{
    let mut rest = number;
    let mut sum = 0;
    for digit in 0..digits {
        let _ = digit;
        sum += rest % base;
        rest /= base;
    }
    sum
}

// Makes a tree that has taken no text.
fn seed<H: Hasher>(
    alloc: Global,
    leaves: u32,
    fan: u8,
    places: &[u32],
) -> Result<Rising<H>, NoMemory>
    requires fan { 2 ≤ fan }
    requires fan_max { fan ≤ 32 }
    requires leaves { 1 ≤ leaves }
    requires leaves_max { leaves ≤ 2097152 }
    requires places { IsRising leaves places.now }
    ensures unpushed { IfOk result (λ r. r.pushed ≡ 0) }
    ensures leaves { IfOk result (λ r. r.leaves ≡ leaves) }
    ensures takes { IfOk result (λ r. (texts : List (List ℕ)) → length texts ≡ leaves →
        Takes H.hash fan places.now texts r) }
{
    let (top, _) = top_of(u64::from(leaves), u64::from(fan));
    let spots = cover_spots(alloc, leaves, fan, places)?;
    let cover = Covering::new(alloc, spots)?;
    let waiting = filled(alloc, [0; 32], top as usize * fan as usize)?;
    Ok(Rising {
        outline: Outline { leaves, fan, top },
        pushed: 0,
        waiting,
        cover,
        newest: [0; 32],
        hasher: PhantomData,
    })
}

impl<H: Hasher> Rising<H> {
    /// Makes a tree for `leaves` leaves, which has taken no text yet and will also make the cover of the chosen
    /// leaves. Takes all memory that the tree will need.
    ///
    /// Fails with the first error that applies: `Fan` if the fan-out is not 2 to 32, `Empty` if the number of
    /// leaves is 0, `TooMany` if it exceeds 2,097,152, `Place` with the first index at which a position is not
    /// below the number of leaves or does not exceed the one before it. None of these depends on the available
    /// memory.
    pub fn new(
        alloc: Global,
        leaves: u32,
        fan: u8,
        places: &[u32],
    ) -> Result<Rising<H>, RisingError>
        ensures unpushed { IfOk result (λ r. r.pushed ≡ 0) }
        ensures leaves { IfOk result (λ r. r.leaves ≡ leaves) }
        ensures takes { IfOk result
            (λ r. (texts : List (List ℕ)) → length texts ≡ leaves →
            Takes H.hash fan places.now texts r) }
        ensures good { OnOk result (first_rising_refusal leaves fan places.now ≡ None) }
        ensures refused { IfErr result
            (λ e. e ≢ RisingError.Memory no_memory → first_rising_refusal leaves fan places.now ≡ Some e) }
        ensures told { (e : RisingError) → first_rising_refusal leaves fan places.now ≡ Some e →
            result ≡ Err e }
    {
        if fan < 2 || fan > 32 {
            return Err(RisingError::Fan);
        }
        if leaves == 0 {
            return Err(RisingError::Empty);
        }
        if leaves > 2_097_152 {
            return Err(RisingError::TooMany);
        }
        match fault_of(leaves, places) {
            Some(index) => Err(RisingError::Place(index)),
            None => match seed::<H>(alloc, leaves, fan, places) {
                Ok(rising) => Ok(rising),
                Err(none) => Err(RisingError::Memory(none)),
            },
        }
    }

    /// Makes a tree for `leaves` leaves, which has taken no text yet and makes no cover. Takes all memory that the
    /// tree will need. The only error is out of memory.
    pub fn unpushed(alloc: Global, leaves: u32, fan: u8) -> Result<Rising<H>, NoMemory>
        requires fan { 2 ≤ fan }
        requires fan_max { fan ≤ 32 }
        requires leaves { 1 ≤ leaves }
        requires leaves_max { leaves ≤ 2097152 }
        ensures unpushed { IfOk result (λ r. r.pushed ≡ 0) }
        ensures leaves { IfOk result (λ r. r.leaves ≡ leaves) }
        ensures takes { IfOk result (λ r. (texts : List (List ℕ)) → length texts ≡ leaves →
            Takes H.hash fan [] texts r) }
    {
        match Rising::new(alloc, leaves, fan, &[]) {
            Ok(rising) => Ok(rising),
            Err(RisingError::Memory(none)) => Err(none),
            Err(_) => unreachable!(),
        }
    }

    /// Takes the next text.
    pub fn push(&mut self, text: &[u8])
        requires { self.old.pushed < self.old.leaves }
        ensures pushed { self.new.pushed ≡ self.old.pushed + 1 }
        ensures leaves { self.new.leaves ≡ self.old.leaves }
        ensures takes { (fan : ℕ) (places : List ℕ) (texts : List (List ℕ)) →
            Takes H.hash fan places texts self.old
            → slice_index_or texts self.old.pushed [] ≡ text.now →
            Takes H.hash fan places texts self.new }
    {
        let digest = leaf_digest::<H>(text);
        let pushed = self.pushed;
        self.newest = raise::<H>(
            self.outline,
            &mut self.waiting,
            &mut self.cover,
            pushed,
            digest,
        );
        self.pushed = pushed + 1;
    }

    /// Returns the number of texts taken.
    pub fn pushed(&self) -> u32
        ensures { result ≡ self.now.pushed }
    {
        self.pushed
    }

    /// Returns the number of leaves that the complete tree has.
    pub fn leaves(&self) -> u32
        ensures { result ≡ self.now.leaves }
    {
        self.outline.leaves
    }

    /// Returns the number of digests that wait for their group to be complete. It is at most the fan-out times the
    /// number of levels.
    pub fn held(&self) -> u32
        ensures count { result ≡ count_waiting self.now.leaves self.now.fan self.now.pushed }
        ensures few { result ≤ self.now.fan * (top self.now.leaves self.now.fan + 1) }
    {
        if self.pushed == self.outline.leaves {
            return 0;
        }
        digit_sum(self.pushed, u32::from(self.outline.fan), self.outline.top)
    }

    /// Returns the root and the cover of the chosen leaves.
    pub fn end(self) -> Risen
        requires { self.pushed ≡ self.leaves }
        ensures root { (fan : ℕ) (places : List ℕ) (texts : List (List ℕ)) →
            Takes H.hash fan places texts self
            → result.root ≡ root H.hash texts fan }
        ensures cover { (fan : ℕ) (places : List ℕ) (texts : List (List ℕ)) →
            Takes H.hash fan places texts self
            → result.cover ≡ cover_of H.hash texts fan places }
    {
        let Rising {
            outline: _,
            pushed: _,
            waiting: _,
            cover,
            newest,
            hasher: _,
        } = self;
        Risen {
            root: newest,
            cover: Digests::from_vec(cover.into_digests()),
        }
    }
}
