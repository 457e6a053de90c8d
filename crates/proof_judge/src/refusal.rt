//! Why items are refused.

ghost use Rattle.std.specs.Prelude.{◌≡◌};
ghost use Rattle.proof_judge.specs.declared.refusal.Refusal.TheVariants as refusals;

use octet_text::NoMemory;
use thiserror::Error;

/// The first test that items fail.
#[derive(Clone, Copy, Debug, PartialEq, Eq, Error)]
pub enum Refusal {
    /// Several node items have the same id. This is the least id of this kind.
    #[error("Two items are of the node {0}.")]
    RepeatedNode(u32),
    /// The route fails at this index: it does not begin at the start (0), no arc leads to its id at this index, or
    /// it ends just before this index, at a node other than the end.
    #[error("The route is broken at index {0}.")]
    BadRoute(u32),
    /// A walk ends at this id, for which there is no item.
    #[error("The item of node {0} is missing.")]
    MissingTuple(u32),
    /// No item has the distance between these two ids. The first is the lesser one.
    #[error("The item of the pair of {0} and {1} is missing.")]
    MissingPair(u32, u32),
    /// The items show a walk of this length, which is shorter than the route.
    #[error("The items show a walk of length {0}, which is shorter.")]
    Shorter(u64),
    /// The pair item of the two ends has this distance, which differs from the route's length.
    #[error("The pair of the two ends says the distance {0}.")]
    Disagrees(u64),
    /// Out of memory.
    #[error("Out of memory.")]
    Memory(NoMemory),
}

impl From<NoMemory> for Refusal {
    ghost from_gives = { λ none e. e ≡ refusals.Memory none };

    fn from(none: NoMemory) -> Refusal {
        Refusal::Memory(none)
    }
}
