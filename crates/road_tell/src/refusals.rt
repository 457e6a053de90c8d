//! Refusals of replies, for a reader who wants to rely on a reply.

use lms_tree::SealError;
use proof_judge::Refusal;
use route_client::{CheckError, NearError};
use std::fmt::{self, Display, Formatter};

/// The sentence about items that do not recompute a signed root.
const COVER: &str = "the reply does not show that its roads are the signed ones.";

/// The sentence about memory that ran out.
const MEMORY: &str = "the check ran out of memory.";

/// Why a client refused a reply, displayed as a sentence.
#[derive(Clone, Copy)]
pub enum Unusable {
    /// The reply should hold a shortest route, or show that no route exists.
    Route(CheckError),
    /// The reply should hold the nodes within a radius.
    Nodes(NearError),
}

impl Display for Unusable {
    fn fmt<W: fmt::Write>(&self, f: &mut Formatter<W>) -> fmt::Result {
        match self {
            Unusable::Route(why) => {
                f.write_str("The answer is not to be used: ")?;
                Unusable::route(f, *why)
            }
            Unusable::Nodes(why) => {
                f.write_str("The nodes are not to be used: ")?;
                Unusable::nodes(f, *why)
            }
        }
    }
}

impl Unusable {
    /// Tests whether the reason is that the header is not signed under the public key.
    pub fn is_unsigned(&self) -> bool {
        matches!(
            self,
            Unusable::Route(CheckError::BadSignature(_))
                | Unusable::Nodes(NearError::BadSignature(_))
        )
    }

    /// Returns the offset of the first field that cannot be read, if this is the reason.
    pub fn malformed_at(&self) -> Option<u32> {
        match self {
            Unusable::Route(CheckError::Malformed(place))
            | Unusable::Nodes(NearError::Malformed(place)) => Some(*place),
            _ => None,
        }
    }

    /// Writes why a reply for a route is refused.
    fn route<W: fmt::Write>(f: &mut Formatter<W>, why: CheckError) -> fmt::Result {
        match why {
            CheckError::NotAnswer(1) => f.write_str(
                "there is none. The server says, without proof, that an end is not a node of the map.",
            ),
            CheckError::NotAnswer(_) => f.write_str(
                "there is none. The server says, without proof, that no route joins the two ends.",
            ),
            CheckError::Malformed(place) => write!(
                f,
                "the file is not a reply. The field at offset {place} cannot be read."
            ),
            CheckError::Stale(version) => write!(
                f,
                "the reply is of version {version} of the map, which is older than LEAST."
            ),
            CheckError::BadChain(link, _) => Unusable::chain(f, link),
            CheckError::BadSignature(why) => Unusable::seal(f, why),
            CheckError::BadCover(_, _) => f.write_str(COVER),
            CheckError::Judged(why) => Unusable::judged(f, why),
            CheckError::Memory(_) => f.write_str(MEMORY),
        }
    }

    /// Writes why a reply for nodes is refused.
    fn nodes<W: fmt::Write>(f: &mut Formatter<W>, why: NearError) -> fmt::Result {
        match why {
            NearError::Malformed(place) => write!(
                f,
                "the file is not a reply to a range query. The field at offset {place} cannot be read."
            ),
            NearError::Stale(version) => write!(
                f,
                "the reply is of version {version} of the map, which is older than LEAST."
            ),
            NearError::BadChain(link, _) => Unusable::chain(f, link),
            NearError::BadSignature(why) => Unusable::seal(f, why),
            NearError::BadCover(_) => f.write_str(COVER),
            NearError::RepeatedNode(id) => write!(f, "the reply has the node {id} twice."),
            NearError::MissingTuple(id) => write!(
                f,
                "the reply leaves out the node {id}, which its roads show to be within the radius."
            ),
            NearError::Memory(_) => f.write_str(MEMORY),
        }
    }

    /// Writes which link of a chain is not signed.
    fn chain<W: fmt::Write>(f: &mut Formatter<W>, link: u8) -> fmt::Result {
        write!(
            f,
            "link {link} of the chain, counted from 0 on, is not signed by the key before it."
        )
    }

    /// Writes why a header is not signed.
    fn seal<W: fmt::Write>(f: &mut Formatter<W>, why: SealError) -> fmt::Result {
        f.write_str(match why {
            SealError::BadKey => {
                "the public key is of an unknown kind, so nothing is signed under it."
            }
            _ => {
                "the reply is not signed under this public key, or under a key of the chain if one is given."
            }
        })
    }

    /// Writes how the signed roads contradict the reply. The reply has a route or claims that none exists; each
    /// sentence fits both cases.
    fn judged<W: fmt::Write>(f: &mut Formatter<W>, why: Refusal) -> fmt::Result {
        match why {
            Refusal::RepeatedNode(id) => write!(f, "the reply has the node {id} twice."),
            Refusal::BadRoute(_) => f.write_str(
                "its route does not lead from S to T over signed roads.",
            ),
            Refusal::MissingTuple(id) => write!(
                f,
                "the reply leaves out the node {id}. Without this node, it shows neither a shortest route nor that there is none."
            ),
            Refusal::MissingPair(a, b) => write!(
                f,
                "the reply leaves out the distance between the nodes {a} and {b}. Without it, the reply shows neither a shortest route nor that there is none."
            ),
            Refusal::Shorter(length) => write!(
                f,
                "the signed roads have a walk of length {length} from S to T, and the reply has no route as short."
            ),
            Refusal::Disagrees(distance) => write!(
                f,
                "a signed distance in the reply, {distance}, contradicts it."
            ),
            Refusal::Memory(_) => f.write_str(MEMORY),
        }
    }
}
