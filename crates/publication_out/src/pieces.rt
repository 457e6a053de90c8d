//! The octets of a publication, piece by piece.
ghost use Rattle.std.specs.Prelude.{◌≡◌, ◌++◌, length, take, drop, min};
ghost use Rattle.proof_octets.specs.Publications.{publication as publications, publication_text};

use crate::fields::{Part, ROOM, front};
use crate::filling::fill;
use crate::rest::Rest;
use proof_octets::Publication;
use std::marker::Model;

/// The remaining octets of a publication. Contracts treat it as their list.
#[derive(Drop)]
pub struct Pieces<'a> {
    rest: Rest<'a>,
}

impl<'a> Model for Pieces<'a> {
    ghost use Rattle.std.specs.Prelude.{ℕ, List};
    ghost use Rattle.publication_out.specs.Left.{left_in, HasFewItems};

    ghost Value = { List ℕ };

    ghost view = { λ p. left_in p.rest };

    ghost invariant = { λ p. HasFewItems p.rest.publication.now };
}

/// Returns all octets of a publication. Takes no memory.
pub fn pieces_of(publication: &Publication) -> Pieces<'_>
    requires { publications.Fits publication.now }
    ensures { result ≡ publication_text publication.now }
{
    Pieces {
        rest: Rest {
            publication,
            part: Part::Signature,
            index: 0,
            buffer: front(publication),
            at: 0,
            end: ROOM,
        },
    }
}

impl Pieces<'_> {
    /// Fills the buffer from its start with the next octets, and returns their number. The number is 0 exactly if
    /// the buffer has no room or nothing is left. Takes no memory.
    pub fn next(&mut self, into: &mut [u8]) -> usize
        ensures count { result ≡ min (length into.old) (length self.old) }
        ensures given { into.new ≡ take result self.old ++ drop result into.old }
        ensures left { self.new ≡ drop result self.old }
    {
        fill(&mut self.rest, into)
    }
}
