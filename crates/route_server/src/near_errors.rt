//! Why there is no reply for a radius.

ghost use Rattle.std.specs.Prelude.{◌≡◌};
ghost use Rattle.route_server.specs.declared.near_errors.NearRefusal.TheVariants as refusals;

use octet_text::NoMemory;
use thiserror::Error;

/// Why there is no reply.
#[derive(Clone, Copy, Debug, PartialEq, Eq, Error)]
pub enum NearRefusal {
    /// The query names this id, but no node of the map has it.
    #[error("The map has no node {0}.")]
    UnknownNode(u32),
    /// Out of memory.
    #[error("Out of memory.")]
    Memory(NoMemory),
}

impl From<NoMemory> for NearRefusal {
    ghost from_gives = { λ none e. e ≡ refusals.Memory none };

    fn from(none: NoMemory) -> NearRefusal {
        NearRefusal::Memory(none)
    }
}
