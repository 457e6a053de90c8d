//! Ids in the order in which they are gathered.

ghost use Rattle.std.specs.Prelude.{Contains, IfOk};
ghost use Rattle.proof_method.specs.Apart.{IsEnd};
ghost use Rattle.proof_method.specs.Gathering.{Lists};

use book_model::Query;
use octet_text::{NoMemory, push};
use road_map::Ids;
use std::alloc::Global;

/// Returns the same ids, each once, in ascending order.
pub fn rising(mut ids: Vec<u32>) -> Ids
    ensures { Lists (Contains ids.items) result }
{
    ids.sort_unstable();
    ids.dedup();
    Ids::from_vec(ids)
}

/// Returns the ids of the two ends in ascending order.
pub fn ends(alloc: Global, query: Query) -> Result<Ids, NoMemory>
    ensures { IfOk result (Lists (IsEnd query)) }
{
    let mut ids = Vec::new(alloc);
    push(&mut ids, query.from)?;
    push(&mut ids, query.to)?;
    Ok(rising(ids))
}
