//! The length of a node leaf's text.

ghost use Rattle.std.specs.Prelude.{◌≡◌, ◌<◌, ◌^◌, length};
ghost use Rattle.road_leaf.specs.Leaves.{node_leaf_text};
ghost use Rattle.road_leaf.specs.Seen.{seen, extra_seen};
ghost use Rattle.proof_octets.specs.Lengths.{added_length};

use road_leaf::{ExtraView, NodeView};

// Returns the number of octets that the kind of a leaf adds to its text.
fn length_added(extra: ExtraView<'_>) -> usize
    requires { added_length (extra_seen extra) < 2 ^ 32 }
    ensures { result ≡ added_length (extra_seen extra.entry) }
{
    match extra {
        ExtraView::Plain => 0,
        ExtraView::Own(codes) => 1 + 2 * codes.len(),
        ExtraView::Near { .. } => 7,
        ExtraView::Cell { .. } => 5,
    }
}

/// Returns the number of octets in the text of a node's leaf.
pub fn text_length(leaf: &NodeView<'_>) -> u32
    requires { length (node_leaf_text (seen leaf.now)) < 2 ^ 32 }
    ensures { result ≡ length (node_leaf_text (seen leaf.now)) }
{
    (15 + 8 * leaf.arcs.len() + length_added(leaf.extra)) as u32
}
