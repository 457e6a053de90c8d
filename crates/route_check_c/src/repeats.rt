//! Whether a route visits a node twice.
ghost use Rattle.std.specs.Prelude.{◌↔◌, IfOk, IsTrue};
ghost use Rattle.route_check_c.specs.Telling.{IsSimple};

use octet_text::{NoMemory, collected};
use std::alloc::Global;
use std::collections::BTreeSet;

/// Tests whether a route visits no node twice.
pub(crate) fn is_simple(alloc: Global, ids: &[u32]) -> Result<bool, NoMemory>
    ensures { IfOk result (λ simple. IsTrue simple ↔ IsSimple ids.now) }
{
    let nodes: BTreeSet<u32> = collected(alloc, ids.iter().copied())?;
    Ok(nodes.len() == ids.len())
}
