//! Distances between nodes, from the table of a book.

ghost use Rattle.std.specs.Prelude.{◌≡◌, ◌≢◌, min, max, true, nat_eq};
ghost use Rattle.std.specs.List.{list_any};
ghost use Rattle.road_map.specs.Walks.{Knows, ids};
ghost use Rattle.method_books.specs.HypBooks.{StandsAt};
ghost use Rattle.method_books.specs.PlainBooks.{said_of};

use crate::full::FullBook;
use crate::pair_places::{place_from, place_in_rows};
use road_search::Bound;

/// The distances to the node at a position, from the table of a book: the exact remaining distance.
#[derive(Clone, Copy)]
pub struct ByTable<'a> {
    pub book: &'a FullBook,
    pub to: u32,
    ghost known: { list_any (nat_eq to) (ids book.now.map.parts.nodes) ≡ true },
}

impl Bound for ByTable<'_> {
    ghost use Rattle.std.specs.Prelude.{slice_get};
    ghost use Rattle.method_books.specs.PlainBooks.{said_from};

    ghost bound = { λ b p. said_from b.book.now.map.parts b.to (slice_get b.book.now.map.order p) };

    fn bound(&self, position: u32) -> u64 {
        let book = self.book;
        let _parts = book.map.parts();
        if position < book.map.count() {
            said_between(book, book.map.node(position).id, self.to)
        } else {
            0
        }
    }
}

/// Returns the index of the leaf of two different nodes.
pub fn place_between(book: &FullBook, a: u32, b: u32) -> usize
    requires a { Knows book.now.map.parts a }
    requires b { Knows book.now.map.parts b }
    requires apart { a ≢ b }
    ensures { StandsAt book.now.pairs (min a b) (max a b) result }
{
    let _parts = book.map.parts();
    let (first, second) = (a.min(b), a.max(b));
    let pairs = book.pairs.as_slice();
    let (i, j) = (book.map.place(a), book.map.place(b));
    let guess = place_in_rows(book.map.count() as usize, i as usize, j as usize);
    let place = place_from(pairs, guess, first, second).unwrap();
    place
}

/// Returns the distance of two nodes, or the greatest number if no walk joins them.
pub fn said_between(book: &FullBook, a: u32, b: u32) -> u64
    requires a { Knows book.now.map.parts a }
    requires b { Knows book.now.map.parts b }
    ensures { result ≡ said_of book.now.map.parts a b }
{
    let _parts = book.map.parts();
    if a == b {
        return 0;
    }
    let place = place_between(book, a, b);
    book.pairs.as_slice()[place].distance
}
