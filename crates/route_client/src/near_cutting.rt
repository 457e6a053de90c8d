//! The positions of a reply's leaf texts in the octets that encode it.

ghost use Rattle.std.specs.Prelude.{◌≡◌, ◌<◌, ◌^◌, length, map, IfOk};
ghost use Rattle.road_leaf.specs.Leaves.{node_leaf_text};
ghost use Rattle.merkle_cover.specs.Cuts.{cut_from, AreIn};
ghost use Rattle.proof_octets.specs.NearReplies.{near_reply, IsGoodNear};

use crate::cutting::push_nodes;
use merkle_cover::Cut;
use octet_text::NoMemory;
use proof_octets::NearReply;
use std::alloc::Global;

/// Returns the position of each leaf's text in the octets that encode a reply.
pub fn reply_cuts(alloc: Global, octets: &[u8], reply: &NearReply) -> Result<Vec<Cut>, NoMemory>
    requires good { IsGoodNear reply.now }
    requires spelled { octets.now ≡ near_reply.spell reply.now }
    requires short { length octets.now < 2 ^ 32 }
    ensures in_octets { IfOk result (λ cuts. AreIn octets.now cuts.items) }
    ensures texts { IfOk result (λ cuts.
        map (cut_from octets.now) cuts.items ≡ map node_leaf_text reply.now.nodes) }
{
    let signature = reply.signature.as_slice().len() as u32;
    let mut cuts = Vec::new(alloc);
    push_nodes(&mut cuts, 114 + signature, &reply.nodes)?;
    Ok(cuts)
}
