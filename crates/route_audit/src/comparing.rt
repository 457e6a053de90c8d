//! Comparing a reply with a publication's book.
ghost use Rattle.std.specs.Prelude.{◌≡◌, ◌≢◌, ◌↔◌, ◌<◌, ◌^◌, length, IfOk, IfSome, IsNone, Ok};
ghost use Rattle.route_client.specs.Verdicts.{nodes_covered, pairs_covered};
ghost use Rattle.proof_octets.specs.Good.{IsGood};
ghost use Rattle.proof_octets.specs.Replies.{reply_of, reply_text};
ghost use Rattle.route_server.specs.Headers.{node_texts, pair_texts};
ghost use Rattle.route_server.specs.Keeping.{header_in};
ghost use Rattle.route_audit.specs.Comparing.{part_under, node_part_of, pair_part_of, FoldsUnder, Compares};
ghost use Rattle.octet_text.specs.Collisions.{AreCollision};
ghost use Rattle.route_audit.specs.Evidence.{Clashes, IsTreesOwn};

use crate::Finding;
use merkle_cover::{CutTexts, TwoTexts, clash};
use octet_text::{Digest32, Hasher, NoMemory, octet_law};
use proof_octets::Answer;
use route_client::leaf_cuts;
use route_server::Held;
use std::alloc::Global;

// Returns the two texts that the tree and the recomputed root hash where they clash.
fn clash_in<H: Hasher>(
    alloc: Global,
    held: &Held<H>,
    which: u8,
    places: &[u32],
    texts: &CutTexts<'_>,
    cover: &[Digest32],
) -> Result<Option<TwoTexts>, NoMemory>
    requires texts { length texts.now ≡ length places.now }
    requires folds { FoldsUnder H.hash which
        (part_under held.now which places.now texts.now cover.now) }
    ensures own { IfOk result (λ r. IsNone r ↔
        IsTreesOwn H.hash (part_under held.now which places.now texts.now cover.now)) }
    ensures differ { IfOk result (λ r. IfSome r (λ two. two.left ≢ two.right)) }
    ensures one_digest { IfOk result (λ r. IfSome r (λ two. H.hash two.left ≡ H.hash two.right)) }
    ensures clash { IfOk result (λ r.
        IfSome r (Clashes H.hash (part_under held.now which places.now texts.now cover.now))) }
{
    if places.is_empty() {
        return Ok(None);
    }
    let Some(tree) = held.tree(which) else {
        unreachable!()
    };
    let Some(leaves) = held.leaves(which) else {
        unreachable!()
    };
    clash(alloc, tree, leaves, places, texts, cover)
}

/// Returns two texts with the same digest if these items and this cover recompute the root of a tree of a book (1
/// for nodes, 2 for pairs) but are not the tree's own.
pub fn clash_under<H: Hasher>(
    alloc: Global,
    held: &Held<H>,
    which: u8,
    places: &[u32],
    texts: &CutTexts<'_>,
    cover: &[Digest32],
) -> Result<Option<TwoTexts>, NoMemory>
    requires texts { length texts.now ≡ length places.now }
    requires folds { FoldsUnder H.hash which
        (part_under held.now which places.now texts.now cover.now) }
    ensures own { IfOk result (λ r. IsNone r ↔
        IsTreesOwn H.hash (part_under held.now which places.now texts.now cover.now)) }
    ensures collision { IfOk result (λ r. IfSome r (λ two.
        AreCollision H.hash two.left two.right)) }
    ensures clash { IfOk result (λ r.
        IfSome r (Clashes H.hash (part_under held.now which places.now texts.now cover.now))) }
{
    let found = clash_in::<H>(alloc, held, which, places, texts, cover)?;
    let Some(two) = found else {
        return Ok(None);
    };
    octet_law(two.left.as_slice());
    octet_law(two.right.as_slice());
    Ok(Some(two))
}

// Finds where the node items and the node cover differ from the node tree.
fn clash_of_nodes<H: Hasher>(
    alloc: Global,
    held: &Held<H>,
    texts: &CutTexts<'_>,
    answer: &Answer,
) -> Result<Option<TwoTexts>, NoMemory>
    requires good { IsGood answer.now }
    requires texts { texts.now ≡ node_texts answer.now.items.nodes }
    requires same { answer.now.header ≡ header_in H.hash held.now }
    requires covered { nodes_covered H.hash answer.now ≡ Ok tt }
    ensures own { IfOk result (λ r. IsNone r ↔
        IsTreesOwn H.hash (node_part_of held.now answer.now)) }
    ensures collision { IfOk result (λ r. IfSome r (λ two.
        AreCollision H.hash two.left two.right)) }
    ensures clash { IfOk result (λ r.
        IfSome r (Clashes H.hash (node_part_of held.now answer.now))) }
{
    clash_under::<H>(
        alloc,
        held,
        1,
        answer.node_places.as_slice(),
        texts,
        answer.node_cover.as_slice(),
    )
}

// Finds where the pair items and the pair cover differ from the pair tree.
fn clash_of_pairs<H: Hasher>(
    alloc: Global,
    held: &Held<H>,
    texts: &CutTexts<'_>,
    answer: &Answer,
) -> Result<Option<TwoTexts>, NoMemory>
    requires good { IsGood answer.now }
    requires texts { texts.now ≡ pair_texts answer.now.items.pairs }
    requires same { answer.now.header ≡ header_in H.hash held.now }
    requires covered { pairs_covered H.hash answer.now ≡ Ok tt }
    ensures own { IfOk result (λ r. IsNone r ↔
        IsTreesOwn H.hash (pair_part_of held.now answer.now)) }
    ensures collision { IfOk result (λ r. IfSome r (λ two.
        AreCollision H.hash two.left two.right)) }
    ensures clash { IfOk result (λ r.
        IfSome r (Clashes H.hash (pair_part_of held.now answer.now))) }
{
    clash_under::<H>(
        alloc,
        held,
        2,
        answer.pair_places.as_slice(),
        texts,
        answer.pair_cover.as_slice(),
    )
}

/// Returns what an accepted answer is evidence of, given the book with its header.
pub fn compare<H: Hasher>(
    alloc: Global,
    held: &Held<H>,
    reply: &[u8],
    answer: &Answer,
) -> Result<Finding, NoMemory>
    requires good { IsGood answer.now }
    requires spelled { reply.now ≡ reply_text (reply_of answer.now) }
    requires short { length reply.now < 2 ^ 32 }
    requires same { answer.now.header ≡ header_in H.hash held.now }
    requires nodes { nodes_covered H.hash answer.now ≡ Ok tt }
    requires pairs { pairs_covered H.hash answer.now ≡ Ok tt }
    ensures { IfOk result (Compares H.hash (node_part_of held.now answer.now)
        (pair_part_of held.now answer.now)) }
{
    let cuts = leaf_cuts(alloc, reply, answer)?;
    let nodes = CutTexts::new(reply, cuts.nodes.as_slice());
    if let Some(two) = clash_of_nodes::<H>(alloc, held, &nodes, answer)? {
        return Ok(Finding::collision(two));
    }
    let pairs = CutTexts::new(reply, cuts.pairs.as_slice());
    if let Some(two) = clash_of_pairs::<H>(alloc, held, &pairs, answer)? {
        return Ok(Finding::collision(two));
    }
    Ok(Finding::Right)
}
