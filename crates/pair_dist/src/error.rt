//! Why there is no table.

ghost use Rattle.std.specs.Prelude.{◌≡◌};
ghost use Rattle.pair_dist.specs.declared.error.PairError.TheVariants as pair_error;

use octet_text::NoMemory;
use thiserror::Error;

/// Why there is no table of the pairs of some nodes.
#[derive(Clone, Copy, Debug, PartialEq, Eq, Error)]
pub enum PairError {
    /// More than 2,048 nodes were chosen.
    #[error("More than 2,048 nodes are too many for a table of their pairs.")]
    TooMany,
    /// Out of memory.
    #[error("Out of memory.")]
    Memory(NoMemory),
}

impl From<NoMemory> for PairError {
    ghost from_gives = { λ none e. e ≡ pair_error.Memory none };

    fn from(none: NoMemory) -> PairError {
        PairError::Memory(none)
    }
}
