//! Facts that no clause states: published digests, calls that succeed, and texts of refusals.
ghost use Rattle.std.specs.Prelude.{◌≡◌, Ok};
ghost use Rattle.std.specs.Bool.{OnTrue};
ghost use Rattle.octet_text.specs.Toy.{toy_digest as toy_hash};
ghost use Rattle.merkle_cover.specs.Trees.{tree_of};

use crate::asserts::{assert_octets, assert_same};
use merkle_cover::{
    Cut, CutTexts, FoldError, Texts, Tree, TreeError, TwoTexts, are_in, are_rising, clash, fold,
};
use octet_text::{Digest32, Hasher, NoMemory, Sha, Toy};
use std::alloc::Global;
use std::process::Abort;
use std::test::Fail;

// The roots of five leaves with fan-out 2 and 3, and the digest in the cover if only the last leaf is not chosen.
const ROOT_BY_TWO: Digest32 = [
    0xe5, 0xf7, 0xde, 0xf0, 0x31, 0x06, 0xc0, 0xda, 0x43, 0x71, 0x21, 0xc9, 0xf9, 0x67, 0x93, 0x96,
    0xd7, 0x74, 0x65, 0x95, 0xcd, 0x2a, 0x3c, 0x28, 0xfd, 0x80, 0x83, 0xdd, 0xd7, 0xde, 0x68, 0x06,
];

const COVER_BY_TWO: Digest32 = [
    0x26, 0xf7, 0xe5, 0x97, 0x80, 0xdb, 0x68, 0xb8, 0x5b, 0x17, 0xfa, 0x80, 0xa6, 0x98, 0x3e, 0x8d,
    0xfa, 0x53, 0x9e, 0x73, 0xb3, 0x88, 0xa3, 0xc5, 0xd5, 0xd2, 0xeb, 0x06, 0xfa, 0x67, 0x3d, 0x00,
];

const ROOT_BY_THREE: Digest32 = [
    0x3c, 0x49, 0x79, 0xca, 0xa9, 0x1f, 0xe5, 0xd8, 0xa2, 0xfb, 0x5b, 0xa1, 0x9b, 0x63, 0x1d, 0x87,
    0x0d, 0x0f, 0xda, 0x53, 0x8a, 0x09, 0xe0, 0xb1, 0xa8, 0xa7, 0x27, 0xae, 0x44, 0x8c, 0x0b, 0x05,
];

const COVER_BY_THREE: Digest32 = [
    0x5a, 0xeb, 0x19, 0x6e, 0x83, 0x59, 0x82, 0x31, 0xb4, 0x5c, 0x61, 0xf3, 0xe0, 0xc5, 0xa0, 0xfd,
    0xa4, 0x9b, 0x0d, 0x4f, 0x86, 0xa6, 0xdb, 0x5f, 0x89, 0x3a, 0xac, 0xcc, 0xf5, 0x14, 0xfa, 0x99,
];

// The SHA-256 digest of 00 and the leaf text of a map's only node, which has id 7 and coordinates -1 and 2.
const ONE_NODE: [u8; 15] = [0x4e, 0, 0, 0, 7, 0xff, 0xff, 0xff, 0xff, 0, 0, 0, 2, 0, 0];

const ROOT_OF_ONE_NODE: Digest32 = [
    0x0b, 0xfc, 0x2e, 0x4d, 0x0e, 0x3d, 0xae, 0x60, 0x77, 0xc5, 0xb8, 0x42, 0x69, 0x41, 0xc6, 0xb4,
    0x3c, 0x58, 0xab, 0x48, 0x6b, 0x1a, 0x83, 0xd6, 0xe6, 0x15, 0x11, 0x42, 0xb0, 0xf2, 0x4b, 0xf2,
];

fn texts_of(alloc: Global, parts: &[&[u8]]) -> Result<Texts, Fail> {
    let mut texts = Texts::new(alloc);
    for part in parts {
        if !texts.fits(part) {
            return Err(Fail::from("no room"));
        }
        texts.push(part)?;
    }
    Ok(texts)
}

fn five_leaves(alloc: Global) -> Result<Texts, Fail> {
    texts_of(alloc, &[b"a", b"bc", b"", b"def", b"g"])
}

// Octets that hold the texts of the first four leaves, followed by "fed".
const CUT: &[u8] = b"abcdefed";

const FIRST_FOUR: [Cut; 4] = [
    Cut { start: 0, end: 1 },
    Cut { start: 1, end: 3 },
    Cut { start: 3, end: 3 },
    Cut { start: 3, end: 6 },
];

const SECOND_AND_FOURTH: [Cut; 2] = [Cut { start: 1, end: 3 }, Cut { start: 3, end: 6 }];

const ANOTHER_FOURTH: [Cut; 2] = [Cut { start: 1, end: 3 }, Cut { start: 5, end: 8 }];

// Returns the texts in these octets.
fn texts_at<'a>(rt: &impl Abort, cuts: &'a [Cut]) -> CutTexts<'a> {
    assert!(rt; are_in(CUT, cuts));
    CutTexts::new(CUT, cuts)
}

fn toy_digest(last: u8) -> Digest32 {
    let mut digest = [0; 32];
    digest[31] = last;
    digest
}

fn folded<H: Hasher>(
    rt: &impl Abort,
    fan: u8,
    places: &[u32],
    texts: &CutTexts<'_>,
    cover: &[Digest32],
) -> Result<Digest32, FoldError> {
    assert!(rt; 2 <= fan && fan <= 32);
    assert!(rt; !places.is_empty());
    assert!(rt; texts.count() as usize == places.len());
    fold::<H>(5, fan, places, texts, cover)
}

// Returns the root of five leaves, and the cover of the first four.
fn root_and_cover<H: Hasher>(
    rt: &impl Abort,
    alloc: Global,
    fan: u8,
) -> Result<(Digest32, Vec<Digest32>), Fail> {
    let leaves = five_leaves(alloc)?;
    let tree = Tree::<H>::build(alloc, &leaves, fan)?;
    let places = [0, 1, 2, 3];
    assert!(rt; are_rising(tree.leaves(), &places));
    let cover = tree.cover(alloc, &places)?;
    Ok((tree.root(), cover))
}

// Compares the root that the first four texts recompute at these indices of five leaves.
fn assert_folds<H: Hasher>(
    rt: &impl Abort,
    fan: u8,
    places: &[u32],
    cover: &[Digest32],
    wanted: Result<Digest32, FoldError>,
) {
    let texts = texts_at(rt, &FIRST_FOUR);
    assert_same(rt, &folded::<H>(rt, fan, places, &texts, cover), &wanted);
}

// Checks the cover of the first four of five leaves, and the root that it recomputes.
fn covers_and_folds<H: Hasher>(
    rt: &impl Abort,
    alloc: Global,
    fan: u8,
    digest: Digest32,
    root: Digest32,
) -> Result<(), Fail> {
    let (found, cover) = root_and_cover::<H>(rt, alloc, fan)?;
    assert_same(rt, &found, &root);
    assert_same(rt, &cover.as_slice(), &[digest].as_slice());
    assert_folds::<H>(rt, fan, &[0, 1, 2, 3], &cover, Ok(root));
    assert_folds::<H>(rt, fan, &[0, 1, 2, 3], &[], Err(FoldError::CoverShort));
    let two = [digest, digest];
    assert_folds::<H>(rt, fan, &[0, 1, 2, 3], &two, Err(FoldError::CoverLong));
    assert_folds::<H>(rt, fan, &[1, 1, 2, 3], &cover, Err(FoldError::Place(1)));
    assert_folds::<H>(rt, fan, &[0, 1, 2, 5], &cover, Err(FoldError::Place(3)));
    Ok(())
}

#[test]
fn covers_of_five_leaves_fold_to_the_root(rt: HostRuntime) -> Result<(), Fail> {
    let alloc = rt.alloc();
    covers_and_folds::<Sha>(&rt, alloc, 2, COVER_BY_TWO, ROOT_BY_TWO)?;
    covers_and_folds::<Sha>(&rt, alloc, 3, COVER_BY_THREE, ROOT_BY_THREE)?;
    covers_and_folds::<Toy>(&rt, alloc, 2, toy_digest(105), toy_digest(194))?;
    covers_and_folds::<Toy>(&rt, alloc, 3, toy_digest(103), toy_digest(191))
}

// Returns the root that the second and the fourth of five leaves recompute, and the tree's root. This is the
// example of the crate `merkle_cover`.
fn second_and_fourth(rt: &impl Abort, alloc: Global) -> Result<(Digest32, Digest32), Fail> {
    let leaves = five_leaves(alloc)?;
    let tree = Tree::<Sha>::build(alloc, &leaves, 2)?;
    let positions = [1, 3];
    assert!(rt; are_rising(tree.leaves(), &positions));
    let cover = tree.cover(alloc, &positions)?;
    // The root and the cover convince a client that these two of the five texts are leaves. The two texts stand in
    // one buffer.
    let octets = b"bcdef";
    let cuts = [Cut { start: 0, end: 2 }, Cut { start: 2, end: 5 }];
    assert!(rt; are_in(octets, &cuts));
    let texts = CutTexts::new(octets, &cuts);
    assert!(rt; texts.count() as usize == positions.len());
    let root = fold::<Sha>(5, 2, &positions, &texts, &cover)?;
    Ok((root, tree.root()))
}

#[test]
fn two_of_five_leaves_fold_to_the_root(rt: HostRuntime) -> Result<(), Fail> {
    let found = second_and_fourth(&rt, rt.alloc())?;
    assert_same(&rt, &found, &(ROOT_BY_TWO, ROOT_BY_TWO));
    Ok(())
}

// Returns the root of a tree.
fn root_of(alloc: Global, leaves: &Texts, fan: u8) -> Result<Digest32, TreeError> {
    let tree = Tree::<Sha>::build(alloc, leaves, fan)?;
    Ok(tree.root())
}

#[test]
fn a_tree_of_one_leaf_has_its_digest(rt: HostRuntime) -> Result<(), Fail> {
    let alloc = rt.alloc();
    let leaves = texts_of(alloc, &[&ONE_NODE])?;
    assert_same(&rt, &leaves.total(), &15);
    assert_same(&rt, &root_of(alloc, &leaves, 2), &Ok(ROOT_OF_ONE_NODE));
    assert_same(&rt, &root_of(alloc, &leaves, 1), &Err(TreeError::Fan));
    assert_same(&rt, &root_of(alloc, &leaves, 33), &Err(TreeError::Fan));
    let none = Texts::new(alloc);
    assert_same(&rt, &root_of(alloc, &none, 2), &Err(TreeError::Empty));
    Ok(())
}

// Returns the clash of a tree with texts and a cover from which the same root is recomputed.
fn clash_of(
    rt: &impl Abort,
    alloc: Global,
    tree: &Tree<Toy>,
    leaves: &Texts,
    places: &[u32],
    texts: &CutTexts<'_>,
    cover: &[Digest32],
) -> Result<Option<TwoTexts>, NoMemory>
    requires { tree.now ≡ tree_of toy_hash leaves.now tree.now.fan }
{
    assert!(rt; !places.is_empty());
    assert!(rt; texts.count() as usize == places.len());
    let count = leaves.count();
    let fan = tree.fan();
    assert!(rt; 1 <= count);
    assert!(rt; 2 <= fan && fan <= 32);
    let digest = fold::<Toy>(count, fan, places, texts, cover);
    assert!(rt; is_root(&digest, &tree.root()));
    clash::<Toy>(alloc, tree, leaves, places, texts, cover)
}

fn is_root(digest: &Result<Digest32, FoldError>, root: &Digest32) -> bool
    ensures { OnTrue result (digest.now ≡ Ok root.now) }
{
    match digest {
        Ok(digest) => digest == root,
        Err(_) => false,
    }
}

// Returns the clash of a tree over five leaves, hashed by their sums, with two texts at the indices of the second
// and the fourth leaf.
fn clash_with(rt: &impl Abort, alloc: Global, cuts: &[Cut]) -> Result<Option<TwoTexts>, Fail> {
    let leaves = five_leaves(alloc)?;
    let tree = Tree::<Toy>::build(alloc, &leaves, 2)?;
    let places = [1, 3];
    assert!(rt; are_rising(tree.leaves(), &places));
    let cover = tree.cover(alloc, &places)?;
    let texts = texts_at(rt, cuts);
    Ok(clash_of(rt, alloc, &tree, &leaves, &places, &texts, &cover)?)
}

#[test]
fn texts_with_one_sum_clash(rt: HostRuntime) -> Result<(), Fail> {
    let own = clash_with(&rt, rt.alloc(), &SECOND_AND_FOURTH)?;
    assert_same(&rt, &own.is_none(), &true);
    let other = clash_with(&rt, rt.alloc(), &ANOTHER_FOURTH)?;
    match other {
        Some(two) => {
            assert_octets(&rt, two.left.as_slice(), b"\0def");
            assert_octets(&rt, two.right.as_slice(), b"\0fed");
        }
        None => assert!(rt; false),
    }
    Ok(())
}

#[test]
fn refusals_are_whole_sentences(rt: HostRuntime) -> Result<(), Fail> {
    let place = FoldError::Place(3);
    let said = format!(in rt.alloc(); "{place}")?;
    let wanted = "The place at index 3 is no leaf, or does not exceed the one before.";
    assert_octets(&rt, said.as_bytes(), wanted.as_bytes());
    let fan = TreeError::Fan;
    let said = format!(in rt.alloc(); "{fan}")?;
    assert_octets(
        &rt,
        said.as_bytes(),
        b"The fan-out of a tree is from 2 to 32.",
    );
    Ok(())
}
