//! Inner walks over a map.

ghost use Rattle.std.specs.Prelude.{◌≡◌, ℕ, false, not, slice_get};
ghost use Rattle.std.specs.Option.{option_copied, option_map, unwrap_or};
ghost use Rattle.road_leaf.specs.declared.leaf.Extra.{Extra};
ghost use Rattle.proof_judge.specs.ItemWalks.{inner_ways, marks};
ghost use Rattle.book_model.specs.Books.{leaf, leaf_of};
ghost use Rattle.method_books.specs.HypBooks.{hyp_book, cell_extra};

use crate::hyp_method::HypBook;
use octet_text::NoMemory;
use road_map::{Arc, Map, RisingIds};
use road_search::{Gate, Ground, placed_ids};
use std::alloc::Global;
use std::rc::Rc;

/// Returns the arcs out of an id, if it is known.
fn arcs_at(map: &Map, id: u32) -> Option<&[Arc]>
    ensures { (extra_of : ℕ → Extra) →
        option_copied result ≡ option_map (λ n. n.arcs) (leaf_of map.now.parts extra_of id) }
{
    let _parts = map.parts();
    match map.position(id) {
        None => None,
        Some(position) => Some(map.arcs(position)),
    }
}

/// Tests whether walks may continue from an id. They may not continue from a border node.
fn lets_on(book: &HypBook, id: u32) -> bool
    ensures { result ≡ not (marks (leaf_of book.now.map.parts
        (cell_extra book.now.map.parts book.now.grid.columns book.now.grid.rows) id)) }
{
    let _parts = book.map.parts();
    match book.map.position(id) {
        None => true,
        Some(position) => !is_marked(book.marks.as_slice(), position as usize),
    }
}

/// Tests whether a position is marked.
fn is_marked(marks: &[bool], position: usize) -> bool
    ensures { result ≡ unwrap_or (slice_get marks.now position) false }
{
    match marks.get(position) {
        None => false,
        Some(marked) => *marked,
    }
}

/// The map of a book as the ground of a search for inner walks. No walk continues from a border node.
#[derive(Clone, Copy)]
pub struct Inland<'a> {
    pub book: &'a HypBook,
}

impl Ground for Inland<'_> {
    ghost ways = { λ w. inner_ways
        (leaf (hyp_book w.book.now.map.parts w.book.now.grid.columns w.book.now.grid.rows
        w.book.now.pairs)) };

    fn arcs(&self, id: u32) -> Option<&[Arc]> {
        let book = self.book;
        arcs_at(&book.map, id)
    }

    fn lets(&self, id: u32, _length: u64) -> bool {
        lets_on(self.book, id)
    }

    fn ids(&self, alloc: Global) -> Result<Rc<RisingIds>, NoMemory> {
        let book = self.book;
        placed_ids(alloc, &book.map)
    }

    ghost lets_shorter = { λ w id short long le h. h };
}

impl Gate for Inland<'_> {
    ghost use Rattle.std.specs.Prelude.{false, not, slice_get};
    ghost use Rattle.std.specs.Option.{unwrap_or};

    ghost lets = { λ w p _. not (unwrap_or (slice_get w.book.now.marks.items p) false) };

    fn lets(&self, position: u32, _length: u64) -> bool {
        let book = self.book;
        !is_marked(book.marks.as_slice(), position as usize)
    }

    ghost lets_shorter = { λ w p short long le h. h };
}
