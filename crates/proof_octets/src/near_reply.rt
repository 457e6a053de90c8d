//! The reply to a query for the nodes within a radius.
ghost use Rattle.std.specs.Prelude.{◌≡◌, ◌<◌, ◌^◌, length, Err, IfOk, OnOk};
ghost use Rattle.octet_text.specs.Want.{no_memory};
ghost use Rattle.octet_text.specs.Format.{Gives, Reads, IsFound, ReadsAll, whole};
ghost use Rattle.octet_text.specs.Puts.{Puts};
ghost use Rattle.octet_text.specs.declared.errors.ReadError.{ReadError};
ghost use Rattle.proof_octets.specs.NearReplies.{near_reply, IsNamed};
ghost use Rattle.proof_octets.specs.NearWriting.{near_front, near_text, CanWriteNear};

use crate::header::{Header, read_header};
use crate::item_writing::put_node_items;
use crate::items::read_node_items;
use crate::lists::{put_digests, put_signature, read_digests, read_signature};
use book_model::Places;
use octet_text::{Cursor, Digests, Malformed, NoMemory, Octets, ReadError, put_octets};
use road_leaf::NodeLeaves;
use std::alloc::Global;

/// Leaves of nodes and their proof: their indices in the node tree, the signed header, and the cover of all other
/// indices.
#[derive(Debug, Drop)]
pub struct NearReply {
    pub header: Header,
    /// The owner's signature of the header's octets.
    pub signature: Octets,
    /// The indices of the leaves in the node tree, ascending.
    pub places: Places,
    /// The leaves at these indices.
    pub nodes: NodeLeaves,
    pub cover: Digests,
}

#[tactic(auto, unfolding(crate::specs::NearReplies::near_reply), using(crate::proofs::Named::begun))]
fn read_near(alloc: Global, cursor: &mut Cursor<'_>) -> Result<NearReply, ReadError>
    ensures gives { Gives (λ a. a) result cursor.new (near_reply.read cursor.old) }
    ensures named { result ≡ Err (ReadError.Memory no_memory) → IsNamed cursor.old.text }
{
    cursor.name(b"RPN1")?;
    let header = read_header(cursor)?;
    let signature = read_signature(alloc, cursor)?;
    let (places, nodes) = read_node_items(alloc, cursor, header.leaf_kind())?;
    let cover = read_digests(alloc, cursor)?;
    Ok(NearReply {
        header,
        signature,
        places,
        nodes,
        cover,
    })
}

// Reads the reply that all these octets encode.
fn read_whole(alloc: Global, octets: &[u8]) -> Result<NearReply, ReadError>
    requires { length octets.now < 2 ^ 32 }
    ensures reads { Reads (λ r. r) result (whole near_reply octets.now) }
    ensures named { result ≡ Err (ReadError.Memory no_memory) → IsNamed octets.now }
{
    let mut cursor = Cursor::new(octets);
    let reply = read_near(alloc, &mut cursor)?;
    if !cursor.is_empty() {
        return Err(ReadError::Malformed(Malformed { at: cursor.at() }));
    }
    Ok(reply)
}

// Appends everything before the node items of a reply.
pub(crate) fn put_near_front(
    out: &mut Vec<u8>,
    header: &Header,
    signature: &[u8],
) -> Result<(), NoMemory>
    requires { length signature.now < 2 ^ 16 }
    ensures { OnOk result (Puts out.old.items out.new.items
        (near_front header.now signature.now)) }
{
    put_octets(out, b"RPN1")?;
    put_octets(out, &header.write())?;
    put_signature(out, signature)?;
    Ok(())
}

// Appends the octets of a reply. After an error, part of them may have been appended.
fn put_near(alloc: Global, out: &mut Vec<u8>, reply: &NearReply) -> Result<(), NoMemory>
    requires { CanWriteNear reply.now }
    ensures { OnOk result (Puts out.old.items out.new.items (near_text reply.now)) }
{
    put_near_front(out, &reply.header, reply.signature.as_slice())?;
    put_node_items(alloc, out, &reply.places, &reply.nodes)?;
    put_digests(out, &reply.cover)?;
    Ok(())
}

impl NearReply {
    /// Reads the reply that all these octets encode. Fails with the offset of the first field that cannot be read.
    ///
    /// No memory is reserved for a count that the remaining octets cannot hold. Octets that do not begin with the
    /// name of such a reply are refused, however little memory is available.
    pub fn read(alloc: Global, octets: &[u8]) -> Result<NearReply, ReadError>
        requires { length octets.now < 2 ^ 32 }
        ensures found { IsFound (λ r. r) near_reply octets.now result }
        ensures only { ReadsAll (λ r. r) near_reply octets.now result }
        ensures exact { Reads (λ r. r) result (whole near_reply octets.now) }
        ensures named { result ≡ Err (ReadError.Memory no_memory) → IsNamed octets.now }
    {
        read_whole(alloc, octets)
    }

    /// Encodes the reply.
    pub fn write(&self, alloc: Global) -> Result<Vec<u8>, NoMemory>
        requires { near_reply.Fits self.now }
        ensures { IfOk result (λ v. v.items ≡ near_reply.spell self.now) }
    {
        let mut out = Vec::new(alloc);
        put_near(alloc, &mut out, self)?;
        Ok(out)
    }
}
