//! The remaining octets of a publication.
ghost use Rattle.std.specs.Prelude.{◌≤◌};

use crate::fields::{Part, ROOM};
use proof_octets::Publication;

/// The remaining octets of a publication: those of the buffer from one index up to another, and then those of a
/// part from an index on.
#[derive(Drop)]
pub struct Rest<'a> {
    pub publication: &'a Publication,
    pub part: Part,
    pub index: usize,
    pub buffer: [u8; ROOM],
    pub at: usize,
    pub end: usize,
    ghost order: { at ≤ end },
    ghost within: { end ≤ 110 },
}
