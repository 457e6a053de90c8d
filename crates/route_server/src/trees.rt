//! The trees over a book's leaves.
ghost use Rattle.std.specs.Prelude.{◌≡◌, ◌<◌, ◌≤◌, IfOk, OnOk, All, length};
ghost use Rattle.std.specs.Option.{option_copied};
ghost use Rattle.road_map.specs.Maps.{IsMap};
ghost use Rattle.road_leaf.specs.Leaves.{node_leaf, pair_leaf};
ghost use Rattle.book_model.specs.Books.{leaves_of};
ghost use Rattle.proof_method.specs.Gathering.{IsOrderOf};
ghost use Rattle.route_server.specs.Fitting.{FitsFormats, kind_of_leaves};
ghost use Rattle.route_server.specs.Headers.{node_texts, pair_texts};
ghost use Rattle.route_server.specs.Keeping.{leaves_in, count_in, root_in};

use crate::leaf_texts::pair_texts;
use crate::leaf_tree::LeafTree;
use crate::texts::node_texts;
use octet_text::{Digest32, Hasher, NoMemory};
use proof_method::MethodBook;
use road_leaf::PairLeaf;
use std::alloc::Global;

/// Builds the tree over a book's node leaves, in the given order of ids.
pub fn node_tree<H: Hasher, B: MethodBook>(
    alloc: Global,
    book: &B,
    order: &[u32],
    fan: u8,
) -> Result<LeafTree<H>, NoMemory>
    requires map { IsMap (B.shown book.now).parts }
    requires order { IsOrderOf (B.shown book.now).parts order.now }
    requires fits { FitsFormats (B.kind book.now) (B.shown book.now) }
    requires fan { 2 ≤ fan }
    requires fan_max { fan ≤ 32 }
    ensures tree { IfOk result (λ l.
        l ≡ record { fan = fan; texts = node_texts (leaves_of (B.shown book.now) order.now) }) }
    ensures fit { OnOk result (All
        (node_leaf (kind_of_leaves (B.kind book.now) (B.shown book.now).numbers)).Fits
        (leaves_of (B.shown book.now) order.now)) }
{
    let texts = node_texts(alloc, book, order)?;
    LeafTree::build(alloc, texts, fan)
}

/// Builds the tree over the leaves of pairs, if there are any.
pub fn pair_tree<H: Hasher>(
    alloc: Global,
    pairs: &[PairLeaf],
    fan: u8,
) -> Result<Option<LeafTree<H>>, NoMemory>
    requires few { length pairs.now ≤ 2097152 }
    requires ids { All (λ p. p.a < p.b) pairs.now }
    requires fan { 2 ≤ fan }
    requires fan_max { fan ≤ 32 }
    ensures tree { IfOk result (λ l. l ≡ leaves_in fan (pair_texts pairs.now)) }
    ensures fit { OnOk result (All pair_leaf.Fits pairs.now) }
{
    if pairs.is_empty() {
        return Ok(None);
    }
    let texts = pair_texts(alloc, pairs)?;
    let tree = LeafTree::build(alloc, texts, fan)?;
    Ok(Some(tree))
}

/// A book with the trees over its leaves.
#[derive(Drop)]
pub struct BookTrees<H: Hasher, B: MethodBook> {
    /// The book.
    pub book: B,
    /// The tree over its node leaves.
    pub nodes: LeafTree<H>,
    /// The tree over its pair leaves, if there are any.
    pub pairs: Option<LeafTree<H>>,
}

/// Builds the trees over a book's leaves, in the given order of ids, and returns them with the book.
pub fn with_trees<H: Hasher, B: MethodBook>(
    alloc: Global,
    book: B,
    order: &[u32],
    fan: u8,
) -> Result<BookTrees<H, B>, NoMemory>
    requires map { IsMap (B.shown book).parts }
    requires order { IsOrderOf (B.shown book).parts order.now }
    requires fits { FitsFormats (B.kind book) (B.shown book) }
    requires fan { 2 ≤ fan }
    requires fan_max { fan ≤ 32 }
    ensures book { IfOk result (λ it. it.book ≡ book) }
    ensures nodes { IfOk result (λ it. it.nodes ≡
        record { fan = fan; texts = node_texts (leaves_of (B.shown book) order.now) }) }
    ensures pairs { IfOk result (λ it. it.pairs ≡ leaves_in fan (pair_texts (B.shown book).pairs)) }
    ensures nodes_fit { OnOk result (All
        (node_leaf (kind_of_leaves (B.kind book) (B.shown book).numbers)).Fits
        (leaves_of (B.shown book) order.now)) }
    ensures pairs_fit { OnOk result (All pair_leaf.Fits (B.shown book).pairs) }
{
    let nodes = node_tree(alloc, &book, order, fan)?;
    let pairs = pair_tree(alloc, book.pairs(), fan)?;
    Ok(BookTrees { book, nodes, pairs })
}

/// Returns the number of a tree's leaves and its root, or 0 and zeros if there is no tree.
pub fn count_and_root<H: Hasher>(tree: Option<&LeafTree<H>>) -> (u32, Digest32)
    ensures count { result.0 ≡ count_in (option_copied tree.entry) }
    ensures root { result.1 ≡ root_in H.hash (option_copied tree.entry) }
{
    match tree {
        Some(tree) => (tree.count(), tree.root()),
        None => (0, [0; 32]),
    }
}
