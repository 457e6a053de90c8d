//! Laws of the format of replies for a radius.
ghost use Rattle.std.specs.Prelude.{◌+◌, ◌<◌, ◌↔◌, length};
ghost use Rattle.std.specs.List.{flat_map};
ghost use Rattle.road_leaf.specs.Leaves.{node_leaf_text};
ghost use Rattle.octet_text.specs.Exact.{IsExact};
ghost use Rattle.proof_octets.specs.declared.near_reply.NearReply.{NearReply};
ghost use Rattle.proof_octets.specs.NearReplies.{near_reply, IsGoodNear};

/// Each reply that fits the format has one encoding, and each encoding reads back as the reply that it encodes.
pub fn near_format_laws()
    ensures { IsExact near_reply }
{}

/// Which replies fit the format, in terms of their fields.
pub fn near_range_laws()
    ensures { (a : NearReply) → near_reply.Fits a ↔ IsGoodNear a }
{}

/// The leaves of a reply have fewer octets than the reply.
pub fn near_length_laws()
    ensures { (a : NearReply) → IsGoodNear a
        → length a.nodes + length (flat_map node_leaf_text a.nodes) < length (near_reply.spell a) }
{}
