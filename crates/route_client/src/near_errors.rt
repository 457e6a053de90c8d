//! Why a reply for the nodes within a radius is refused.

ghost use Rattle.std.specs.Prelude.{◌≡◌};
ghost use Rattle.route_client.specs.declared.near_errors.NearError.TheVariants as errors;

use crate::CoverFault;
use lms_tree::SealError;
use octet_text::NoMemory;
use thiserror::Error;

/// The first test that a reply fails.
#[derive(Clone, Copy, Debug, PartialEq, Eq, Error)]
pub enum NearError {
    /// The octets do not encode a reply. The first field that cannot be read begins at this offset.
    #[error("The field at offset {0} cannot be read.")]
    Malformed(u32),
    /// The reply has this version, which is older than the minimum.
    #[error("The reply is of version {0}, which is too old.")]
    Stale(u64),
    /// The link with this number, counted from 0, is the first one that is not signed under the previous key.
    #[error("The link {0} of the chain is not signed: {1}")]
    BadChain(u8, SealError),
    /// The header is signed neither under the public key nor under a key of the chain. The error is that of the
    /// last of these keys.
    #[error("The header is not signed: {0}")]
    BadSignature(SealError),
    /// The items are not the ones under the root of the node tree.
    #[error("The items are not those of the root: {0}.")]
    BadCover(CoverFault),
    /// Several items have the same id. This is the least id of this kind.
    #[error("Two items are of the node {0}.")]
    RepeatedNode(u32),
    /// A walk that is no longer than the radius ends at this id, but no item has it. It is the least id of this
    /// kind.
    #[error("The item of node {0} is missing.")]
    MissingTuple(u32),
    /// Out of memory.
    #[error("Out of memory.")]
    Memory(NoMemory),
}

impl From<NoMemory> for NearError {
    ghost from_gives = { λ none e. e ≡ errors.Memory none };

    fn from(none: NoMemory) -> NearError {
        NearError::Memory(none)
    }
}
