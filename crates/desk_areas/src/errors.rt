//! Why a desk was not opened.

use octet_text::NoMemory;
use road_io::Failed;
use thiserror::Error;

/// Why a desk was not opened.
#[derive(Clone, Copy, Debug, PartialEq, Eq, Error)]
pub enum StartError {
    /// The disk already holds a key, which a new key may not replace.
    #[error("The disk holds a key already.")]
    Held,
    /// The disk holds no key.
    #[error("The disk holds no key.")]
    NoKey,
    /// An area of the disk cannot be used: its kind is unknown, some of its slots are not on the disk, or the link
    /// before it names another key.
    #[error("The disk holds a key that cannot be used.")]
    BadBlock,
    /// The disk failed.
    #[error("The disk failed.")]
    DiskFault,
    /// Out of memory.
    #[error("Out of memory.")]
    Memory(NoMemory),
}

impl From<Failed> for StartError {
    ghost use Rattle.std.specs.Prelude.{◌≡◌};
    ghost use Rattle.desk_areas.specs.declared.errors.StartError.TheVariants.{DiskFault};

    ghost from_gives = { λ _ e. e ≡ DiskFault };

    fn from(_: Failed) -> Self {
        StartError::DiskFault
    }
}

impl From<NoMemory> for StartError {
    ghost use Rattle.std.specs.Prelude.{◌≡◌};
    ghost use Rattle.desk_areas.specs.declared.errors.StartError.TheVariants.{Memory};

    ghost from_gives = { λ none e. e ≡ Memory none };

    fn from(none: NoMemory) -> Self {
        StartError::Memory(none)
    }
}
