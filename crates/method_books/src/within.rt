//! Nodes that a walk reaches.

ghost use Rattle.std.specs.Prelude.{[], ◌⊎◌, IfOk};
ghost use Rattle.book_model.specs.Books.{Dij as ByDij};
ghost use Rattle.proof_method.specs.Gathering.{AreUnjoined, Lists};
ghost use Rattle.proof_method.specs.Apart.{IsEnd, WantedApart};
ghost use Rattle.method_books.specs.PlainBooks.{plain_book};

use book_model::Query;
use octet_text::{NoMemory, push};
use proof_method::rising;
use road_map::{Ids, Map, map_laws};
use road_search::{NoGate, lengths_through};
use std::alloc::Global;

/// Returns the ids that a walk from the start reaches, together with the end, which no walk from the start reaches.
/// The ids are in ascending order.
pub fn component(alloc: Global, map: &Map, query: Query) -> Result<Ids, NoMemory>
    requires { AreUnjoined map.now.parts query }
    ensures { IfOk result (Lists (λ id. IsEnd query id ⊎
        WantedApart ByDij (plain_book map.now.parts []) query id)) }
{
    map_laws();
    let _parts = map.parts();
    let labels = lengths_through(alloc, map, &NoGate, query.from, u64::MAX)?;
    let mut ids = labels.near(alloc, u64::MAX)?;
    push(&mut ids, query.to)?;
    Ok(rising(ids))
}
