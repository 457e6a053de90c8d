//! Lower bounds of distances from the codes of a book, and the walks that these bounds let pass.

ghost use Rattle.std.specs.Prelude.{◌≡◌};
ghost use Rattle.std.specs.Option.{option_map};
ghost use Rattle.road_leaf.specs.Seen.{extra_seen};
ghost use Rattle.book_model.specs.Books.{leaf};
ghost use Rattle.method_books.specs.LdmBooks.{ldm_book};

use crate::ldm_method::LdmBook;
use method_judges::{Lookup, bound};
use octet_text::NoMemory;
use road_leaf::ExtraView;
use road_map::{Arc, RisingIds};
use road_search::{Bound, Gate};
use std::alloc::Global;
use std::rc::Rc;

/// Lower bounds of the distances to a node, from the codes of a book.
#[derive(Clone, Copy)]
pub struct ByCodes<'a> {
    pub book: &'a LdmBook,
    pub to: u32,
    /// The extra contents of the node's leaf.
    pub end: Option<ExtraView<'a>>,
    ghost told: { option_map extra_seen end ≡ option_map (λ n. n.extra) (leaf
        (ldm_book book.now.map.parts book.now.extras.entries book.now.numbers) to) },
}

/// The leaves of a book. A leaf is first searched at a position, and the leaf of the end is at hand.
#[derive(Clone, Copy)]
struct AtHand<'a> {
    bounds: ByCodes<'a>,
    position: u32,
}

impl Lookup for AtHand<'_> {
    ghost use Rattle.book_model.specs.Books.{leaf};
    ghost use Rattle.method_books.specs.LdmBooks.{ldm_book};

    ghost leaves = { λ h. leaf (ldm_book h.bounds.book.now.map.parts
        h.bounds.book.now.extras.entries h.bounds.book.now.numbers) };

    fn arcs(&self, id: u32) -> Option<&[Arc]> {
        self.bounds.book.arcs(id)
    }

    fn extra(&self, id: u32) -> Option<ExtraView<'_>> {
        let bounds = self.bounds;
        if id == bounds.to {
            return bounds.end;
        }
        let book = bounds.book;
        match book.extras.get_from(self.position as usize, id) {
            None => None,
            Some(extra) => Some(extra.view()),
        }
    }

    fn ids(&self, alloc: Global) -> Result<Rc<RisingIds>, NoMemory> {
        self.bounds.book.ids(alloc)
    }
}

impl Bound for ByCodes<'_> {
    ghost use Rattle.std.specs.Prelude.{slice_get};
    ghost use Rattle.method_books.specs.LdmBooks.{ldm_book, bound_from};

    ghost bound = { λ b p. bound_from
        (ldm_book b.book.now.map.parts b.book.now.extras.entries b.book.now.numbers) b.to
        (slice_get b.book.now.map.order p) };

    fn bound(&self, position: u32) -> u64 {
        let book = self.book;
        if position < book.map.count() {
            let node = book.map.node(position);
            let leaves = AtHand {
                bounds: *self,
                position,
            };
            let least = bound(book.numbers.first, &leaves, node.id, self.to);
            least.min(u128::from(u64::MAX)) as u64
        } else {
            0
        }
    }
}

/// Live walks over the map of a book. A walk continues while the sum of its length and the bound of the rest is
/// below a limit.
#[derive(Clone, Copy)]
pub struct Live<'a> {
    pub bounds: ByCodes<'a>,
    pub most: u64,
}

impl Gate for Live<'_> {
    ghost use Rattle.std.specs.Prelude.{◌+◌, nat_lt, slice_get};
    ghost use Rattle.road_search.specs.Headed.{headed_shorter};
    ghost use Rattle.method_books.specs.LdmBooks.{ldm_book, bound_from};

    ghost lets = { λ w p length. nat_lt (length + bound_from
        (ldm_book w.bounds.book.now.map.parts w.bounds.book.now.extras.entries
        w.bounds.book.now.numbers) w.bounds.to (slice_get w.bounds.book.now.map.order p)) w.most };

    fn lets(&self, position: u32, length: u64) -> bool {
        let bound = self.bounds.bound(position);
        u128::from(length) + u128::from(bound) < u128::from(self.most)
    }

    ghost lets_shorter = { λ w p short long le h. headed_shorter (bound_from
        (ldm_book w.bounds.book.now.map.parts w.bounds.book.now.extras.entries
        w.bounds.book.now.numbers) w.bounds.to (slice_get w.bounds.book.now.map.order p)) w.most
        short long le h };
}
