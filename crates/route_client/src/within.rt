//! The results of checking a reply for a radius: the accepted reply, and the part of it that a client keeps.

use proof_octets::{Header, Marks, NearReply};

/// The part of an accepted reply that a client keeps.
#[derive(Debug, Drop)]
pub struct Within {
    /// The nodes within the radius, by ascending id, each with its distance.
    pub nodes: Marks,
    /// The version of the publication to which the nodes belong.
    pub version: u64,
    /// The signed header of that publication.
    pub header: Header,
}

/// A reply that passes every test, with the items that prove it.
#[derive(Debug, Drop)]
pub struct CheckedReply {
    pub reply: NearReply,
    /// The nodes that it proves to be within the radius, by ascending id, each with its distance.
    pub nodes: Marks,
}
