//! The nodes whose leaves show that a route is shortest, or that no route exists.

ghost use Rattle.std.specs.Prelude.{◌≡◌, ◌++◌, ◌⊎◌, ◌↔◌, ◌<◌, ◌^◌, ℕ, IfOk, OnOk, Contains, Some};
ghost use Rattle.std.specs.List.{filter_map};
ghost use Rattle.std.specs.Option.{option_to_list};
ghost use Rattle.road_map.specs.Walks.{Knows};
ghost use Rattle.road_search.specs.Labelling.{length_at};
ghost use Rattle.road_leaf.specs.declared.leaf.Extra.TheVariants.{Near};
ghost use Rattle.proof_method.specs.Gathering.{Lists};
ghost use Rattle.method_books.specs.LdmBooks.{extra_in, reference_of, reference_in, IsNear, IsNeeded};

use crate::ldm_method::LdmBook;
use octet_text::{NoMemory, copied, push};
use proof_method::rising;
use road_leaf::Extra;
use road_map::{Ids, Map};
use road_search::{Labels, knows};
use std::alloc::Global;

/// Appends those of some ids that belong to nodes of the map.
fn add_known(ids: &mut Vec<u32>, map: &Map, near: &[u32]) -> Result<(), NoMemory>
    ensures { OnOk result ((id : ℕ) → Contains ids.new.items id ↔
        (Contains ids.old.items id ⊎ (Contains near.now id × Knows map.now.parts id))) }
{
    for id in near {
        if knows(map, *id) {
            push(ids, *id)?;
        }
    }
    Ok(())
}

/// Appends the node whose codes replace those of a node, if there is such a node.
fn add_reference(ids: &mut Vec<u32>, book: &LdmBook, id: u32) -> Result<(), NoMemory>
    ensures { OnOk result (ids.new.items ≡ ids.old.items ++ option_to_list
        (reference_in book.now.extras.entries id)) }
{
    if let Some(Extra::Near { reference, .. }) = book.extras.get(id) {
        push(ids, *reference)?;
    }
    Ok(())
}

/// Returns the ids, followed by the nodes whose codes replace theirs.
fn with_references(alloc: Global, book: &LdmBook, ids: &[u32]) -> Result<Vec<u32>, NoMemory>
    ensures { IfOk result (λ all. all.items ≡ ids.now ++ filter_map
        (reference_in book.now.extras.entries) ids.now) }
{
    let mut all = copied(alloc, ids)?;
    for id in ids {
        add_reference(&mut all, book, *id)?;
    }
    Ok(all)
}

/// Returns the nodes on a route, or the two ends if there is no route, together with the nodes that walks reach and
/// the nodes whose codes replace theirs. Each appears once, by ascending id.
pub fn needed(alloc: Global, book: &LdmBook, route: &Ids, labels: &Labels) -> Result<Ids, NoMemory>
    requires { (v d : ℕ) → length_at labels.now v ≡ Some d → d < 2 ^ 64 }
    ensures { IfOk result (Lists (IsNeeded book.now.map.order book.now.extras.entries route.now
        (length_at labels.now))) }
{
    let _parts = book.map.parts();
    let near = labels.near(alloc, u64::MAX)?;
    let mut ids = copied(alloc, route.as_slice())?;
    add_known(&mut ids, &book.map, &near)?;
    let all = with_references(alloc, book, &ids)?;
    Ok(rising(all))
}
