//! The trait of books.

ghost use Rattle.std.specs.Prelude.{◌≡◌, ℕ, ◌⊎◌, Option, None, Some, Err, is_some, IfOk, OnOk, IfErr};
ghost use Rattle.octet_text.specs.Want.{no_memory};
ghost use Rattle.road_map.specs.Walks.{Knows};
ghost use Rattle.road_map.specs.Maps.{Charted};
ghost use Rattle.book_model.specs.Books.{Kind, Book, leaf, IsBookOf};
ghost use Rattle.book_model.specs.declared.settings.PlanError.TheVariants as plan_error;
ghost use Rattle.proof_method.specs.Vectors.{HasVectors};
ghost use Rattle.proof_method.specs.Planning.{own_fault};
ghost use Rattle.proof_method.specs.Gathering.{IsOrderOf, IsFound, IsFirstUnknown, AreUnjoined, WhyNone};
ghost use Rattle.proof_method.specs.Apart.{IsFoundApart};

use crate::found::{Found, GatherError};
use book_model::{Numbers, PlanError, Query, Settings};
use octet_text::NoMemory;
use road_leaf::{NodeLeaf, PairLeaf};
use road_map::Map;
use std::alloc::Global;

/// The book of a map under a method: how a map becomes a book, and what the book gathers for a query. A client's
/// judgement of the gathered items is the task of the method's judge, which needs no book.
pub trait MethodBook: Drop + Sized {
    // The method for which settings with this number plan a book. A book of a single method is planned for that
    // method, whatever the number.
    ghost planned: { ℕ → Option Kind };

    // A book as contracts see it: its method, its leaves and numbers, and its map.
    ghost kind: { Self → Kind };

    ghost shown: { Self → Book };

    ghost charted: { Self → Charted };

    /// Tests whether settings with this number of a method can be planned.
    fn offers(method: u8) -> bool
        ensures { result ≡ is_some (planned method) };

    /// Plans the book of a map under the settings' method, with node leaves in the given order of the map's ids.
    /// Fails exactly if the method is not offered, or if the method's parameters or the size of the map do not
    /// allow the book.
    fn plan(alloc: Global, map: Map, settings: &Settings, order: &[u32]) -> Result<Self, PlanError>
        requires order { IsOrderOf map.parts order.now }
        ensures method { IfOk result (λ book. planned settings.now.method ≡ Some (kind book)) }
        ensures map { IfOk result (λ book. charted book ≡ map) }
        ensures book { IfOk result
            (λ book. IsBookOf (kind book) map.parts settings.now order.now (shown book)) }
        ensures vectors { IfOk result (λ book. HasVectors (kind book) (shown book)) }
        ensures allowed { OnOk result
            (own_fault (planned settings.now.method) map.parts settings.now ≡ None) }
        ensures refused { IfErr result
            (λ e. (e ≡ plan_error.Memory no_memory) ⊎
            (own_fault (planned settings.now.method) map.parts settings.now ≡ Some e)) };

    /// Returns the map.
    fn map(&self) -> &Map
        ensures map { result.now ≡ charted self.now }
        ensures parts { result.now.parts ≡ (shown self.now).parts };

    /// Returns the map without copying it.
    fn into_map(self) -> Map
        ensures { result ≡ charted self };

    /// Returns the two numbers that a client needs for the judgement.
    fn numbers(&self) -> Numbers
        ensures { result ≡ (shown self.now).numbers };

    /// Returns the leaf of a node.
    fn node_leaf(&self, alloc: Global, id: u32) -> Result<NodeLeaf, NoMemory>
        requires { Knows (shown self.now).parts id }
        ensures { IfOk result (λ found. leaf (shown self.now) id ≡ Some found) };

    /// Returns the leaves of pairs, in the order of their tree.
    fn pairs(&self) -> &[PairLeaf]
        ensures { result.now ≡ (shown self.now).pairs };

    /// Gathers the items that prove a shortest route between two nodes.
    ///
    /// Fails with `UnknownNode` exactly if an end is unknown; this does not depend on the available memory. Fails
    /// with `NoRoute` exactly if both ends are known and no walk joins them.
    fn gather(&self, alloc: Global, query: Query) -> Result<Found, GatherError>
        ensures found { IfOk result
            (λ found. (d : ℕ) × IsFound (kind self.now) (shown self.now) query d found) }
        ensures refused { IfErr result (WhyNone (shown self.now).parts query) }
        ensures unknown { (id : ℕ) → IsFirstUnknown (shown self.now).parts query id
            → result ≡ Err (GatherError.UnknownNode id) };

    /// Gathers the items that prove that no walk joins two known nodes. The result has no route.
    fn gather_apart(&self, alloc: Global, query: Query) -> Result<Found, NoMemory>
        requires { AreUnjoined (shown self.now).parts query }
        ensures { IfOk result (IsFoundApart (kind self.now) (shown self.now) query) };
}
