//! The digests of a cover while the cover is being made.
ghost use Rattle.std.specs.Prelude.{◌≡◌, ◌≢◌, ◌≤◌, [], ◌∷◌, ◌++◌, length, slice_get, vec_len, vec_capacity, IfOk, Some};

use crate::spots::Spot;
use octet_text::{Digest32, NoMemory, room_for};
use std::alloc::Global;

// The digests made so far of a cover, and the positions of all its digests.
#[derive(Drop)]
pub(crate) struct Covering {
    pub(crate) spots: Vec<Spot>,
    pub(crate) digests: Vec<Digest32>,
    ghost reserved: { vec_len spots ≤ vec_capacity digests },
}

impl Covering {
    // Makes an empty cover for these positions. Reserves memory for all its digests.
    pub(crate) fn new(alloc: Global, spots: Vec<Spot>) -> Result<Covering, NoMemory>
        ensures spots { IfOk result (λ c. c.spots ≡ spots) }
        ensures none { IfOk result (λ c. c.digests.items ≡ []) }
    {
        let digests = room_for(alloc, &spots)?;
        Ok(Covering { spots, digests })
    }

    // Returns the digests.
    pub(crate) fn into_digests(self) -> Vec<Digest32>
        ensures { result.items ≡ self.digests.items }
    {
        let Covering { spots: _, digests } = self;
        digests
    }

    // Keeps the digest of a position if the position is the cover's next one.
    pub(crate) fn take(&mut self, spot: Spot, digest: &Digest32)
        ensures spots { self.new.spots ≡ self.old.spots }
        ensures taken { slice_get self.old.spots.items (length self.old.digests.items) ≡ Some spot
            → self.new.digests.items ≡ self.old.digests.items ++ digest.now ∷ [] }
        ensures kept { slice_get self.old.spots.items (length self.old.digests.items) ≢ Some spot
            → self.new.digests.items ≡ self.old.digests.items }
    {
        let next = self.digests.len();
        if next < self.spots.len() && self.spots[next] == spot {
            self.digests.push(*digest).unwrap();
        }
    }
}
