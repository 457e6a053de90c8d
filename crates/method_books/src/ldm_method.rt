//! The book of a map under LDM.

ghost use Rattle.std.specs.Prelude.{◌≡◌, ℕ, nat_eq, IfOk, is_some, slice_get};
ghost use Rattle.std.specs.Map.{lookup};
ghost use Rattle.std.specs.List.{list_any};
ghost use Rattle.road_map.specs.Walks.{ids, Knows};
ghost use Rattle.road_search.specs.Headed.{IsLowerBound};
ghost use Rattle.method_books.specs.LdmBooks.{extra_in, ldm_book, bound_from};

use crate::extras::Extras;
use book_model::Numbers;
use method_judges::Lookup;
use octet_text::{NoMemory, copied};
use road_leaf::{Codes, Extra, ExtraView};
use road_map::{Arc, Map, RisingIds};
use road_search::placed_ids;
use std::alloc::Global;
use std::rc::Rc;

/// A map, the contents of the leaf of each node about codes, and the step and the number of landmarks.
#[derive(Drop)]
pub struct LdmBook {
    pub(crate) map: Map,
    pub(crate) extras: Extras,
    pub(crate) numbers: Numbers,
    ghost covers: { (id : ℕ) → is_some (lookup (nat_eq id) extras.entries) ≡ list_any (nat_eq id)
        (ids map.parts.nodes) },
    // Gives the fact that the distance from a node to an id is at least the bound from their codes.
    ghost low: { (to : ℕ) → IsLowerBound map.parts map.order to
        (λ p. bound_from (ldm_book map.parts extras.entries numbers) to (slice_get map.order p)) },
}

impl Lookup for LdmBook {
    ghost use Rattle.book_model.specs.Books.{leaf};
    ghost use Rattle.method_books.specs.LdmBooks.{ldm_book};

    ghost leaves = { λ b. leaf (ldm_book b.map.parts b.extras.entries b.numbers) };

    fn arcs(&self, id: u32) -> Option<&[Arc]> {
        let _parts = self.map.parts();
        match self.map.position(id) {
            None => None,
            Some(position) => Some(self.map.arcs(position)),
        }
    }

    fn extra(&self, id: u32) -> Option<ExtraView<'_>> {
        match self.extras.get(id) {
            None => None,
            Some(extra) => Some(extra.view()),
        }
    }

    fn ids(&self, alloc: Global) -> Result<Rc<RisingIds>, NoMemory> {
        placed_ids(alloc, &self.map)
    }
}

impl LdmBook {
    /// Returns the contents of a node's leaf about codes.
    pub(crate) fn extra_at(&self, id: u32) -> &Extra
        requires { Knows self.now.map.parts id }
        ensures { result.now ≡ extra_in self.now.extras.entries id }
    {
        self.extras.get(id).unwrap()
    }
}

/// Copies the contents of a leaf about codes.
pub fn copy(alloc: Global, extra: &Extra) -> Result<Extra, NoMemory>
    ensures { IfOk result (λ copy. copy ≡ extra.now) }
{
    match extra {
        Extra::Plain => Ok(Extra::Plain),
        Extra::Own(codes) => Ok(Extra::Own(Codes::from_vec(copied(alloc, codes.as_slice())?))),
        Extra::Near { reference, error } => Ok(Extra::Near {
            reference: *reference,
            error: *error,
        }),
        Extra::Cell { cell, border } => Ok(Extra::Cell {
            cell: *cell,
            border: *border,
        }),
    }
}
