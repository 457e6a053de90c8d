//! The book of a map, under the method in its settings.

ghost use Rattle.std.specs.Prelude.{◌≡◌};

use crate::{DijBook, FullBook, HypBook, LdmBook};
use book_model::{Numbers, PlanError, Query, Settings};
use octet_text::NoMemory;
use proof_method::{Found, GatherError, MethodBook};
use road_leaf::{NodeLeaf, PairLeaf};
use road_map::Map;
use std::alloc::Global;

/// A book of one of the methods. Settings name them by numbers: 1 is DIJ, 2 FULL, 3 LDM and 4 HYP.
#[derive(Drop)]
pub enum AnyBook {
    Dij(DijBook),
    Full(FullBook),
    Ldm(LdmBook),
    Hyp(HypBook),
}

impl MethodBook for AnyBook {
    ghost use Rattle.book_model.specs.Books.{kind_of};
    ghost use Rattle.method_books.specs.AnyBooks.{kind_in, shown_in, charted_in};

    ghost planned = { λ method. kind_of method };

    ghost kind = { λ b. kind_in b };

    ghost shown = { λ b. shown_in b };

    ghost charted = { λ b. charted_in b };

    fn offers(method: u8) -> bool {
        1 <= method && method <= 4
    }

    fn plan(
        alloc: Global,
        map: Map,
        settings: &Settings,
        order: &[u32],
    ) -> Result<AnyBook, PlanError> {
        match settings.method {
            1 => Ok(AnyBook::Dij(DijBook::plan(alloc, map, settings, order)?)),
            2 => Ok(AnyBook::Full(FullBook::plan(alloc, map, settings, order)?)),
            3 => Ok(AnyBook::Ldm(LdmBook::plan(alloc, map, settings, order)?)),
            4 => Ok(AnyBook::Hyp(HypBook::plan(alloc, map, settings, order)?)),
            _ => Err(PlanError::Settings(0)),
        }
    }

    fn map(&self) -> &Map {
        match self {
            AnyBook::Dij(book) => book.map(),
            AnyBook::Full(book) => book.map(),
            AnyBook::Ldm(book) => book.map(),
            AnyBook::Hyp(book) => book.map(),
        }
    }

    fn into_map(self) -> Map {
        match self {
            AnyBook::Dij(book) => book.into_map(),
            AnyBook::Full(book) => book.into_map(),
            AnyBook::Ldm(book) => book.into_map(),
            AnyBook::Hyp(book) => book.into_map(),
        }
    }

    fn numbers(&self) -> Numbers {
        match self {
            AnyBook::Dij(book) => book.numbers(),
            AnyBook::Full(book) => book.numbers(),
            AnyBook::Ldm(book) => book.numbers(),
            AnyBook::Hyp(book) => book.numbers(),
        }
    }

    fn node_leaf(&self, alloc: Global, id: u32) -> Result<NodeLeaf, NoMemory> {
        match self {
            AnyBook::Dij(book) => book.node_leaf(alloc, id),
            AnyBook::Full(book) => book.node_leaf(alloc, id),
            AnyBook::Ldm(book) => book.node_leaf(alloc, id),
            AnyBook::Hyp(book) => book.node_leaf(alloc, id),
        }
    }

    fn pairs(&self) -> &[PairLeaf] {
        match self {
            AnyBook::Dij(book) => book.pairs(),
            AnyBook::Full(book) => book.pairs(),
            AnyBook::Ldm(book) => book.pairs(),
            AnyBook::Hyp(book) => book.pairs(),
        }
    }

    fn gather(&self, alloc: Global, query: Query) -> Result<Found, GatherError> {
        match self {
            AnyBook::Dij(book) => book.gather(alloc, query),
            AnyBook::Full(book) => book.gather(alloc, query),
            AnyBook::Ldm(book) => book.gather(alloc, query),
            AnyBook::Hyp(book) => book.gather(alloc, query),
        }
    }

    fn gather_apart(&self, alloc: Global, query: Query) -> Result<Found, NoMemory> {
        match self {
            AnyBook::Dij(book) => book.gather_apart(alloc, query),
            AnyBook::Full(book) => book.gather_apart(alloc, query),
            AnyBook::Ldm(book) => book.gather_apart(alloc, query),
            AnyBook::Hyp(book) => book.gather_apart(alloc, query),
        }
    }
}
