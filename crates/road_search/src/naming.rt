//! Converting marks of positions into marks of their nodes' ids.

ghost use Rattle.std.specs.Prelude.{◌≡◌, ℕ, IfOk, map as every};
ghost use Rattle.std.specs.Option.{option_map};
ghost use Rattle.road_search.specs.Listing.{listed};
ghost use Rattle.road_search.specs.Nets.{id_at, named, AreNamed};
ghost use Rattle.road_search.specs.Pages.{paged};

use crate::label::Label;
use crate::listed::Listed;
use crate::marks::Mark;
use crate::paged::Paged;
use crate::places::placed_ids;
use crate::slots::Slots;
use octet_text::{NoMemory, push};
use road_map::Map;
use std::alloc::Global;

/// Returns the id of the node at a position, or the position itself if no node is there.
pub fn id_at(map: &Map, position: u32) -> u32
    ensures { result ≡ id_at map.now.order position }
{
    if position < map.count() {
        map.node(position).id
    } else {
        position
    }
}

/// Converts the mark of a position into that of an id.
fn named(map: &Map, mark: Mark) -> Mark
    ensures { result ≡ named map.now.order mark }
{
    let label = mark.label;
    Mark {
        label: Label {
            length: label.length,
            before: id_at(map, label.before),
            hops: label.hops,
        },
        settled: mark.settled,
    }
}

/// Converts the mark of a position, if it exists, into that of an id.
fn mark_named(map: &Map, mark: Option<Mark>) -> Option<Mark>
    ensures { result ≡ option_map (named map.now.order) mark }
{
    match mark {
        None => None,
        Some(mark) => Some(named(map, mark)),
    }
}

/// Converts the marks of a page into marks of ids.
fn page_named(alloc: Global, map: &Map, page: &Slots) -> Result<Slots, NoMemory>
    ensures { IfOk result (λ all. all.items ≡
        every (option_map (named map.now.order)) page.now.items) }
{
    let mut all = Slots::as_many_as(alloc, page)?;
    for place in 0..page.len() {
        all.push(mark_named(map, page.get(place)))?;
    }
    Ok(all)
}

/// Converts marks of positions into marks of ids.
fn all_named(alloc: Global, map: &Map, marks: &Paged) -> Result<Paged, NoMemory>
    ensures { IfOk result (λ all. (place : ℕ) → paged all.pages place ≡
        option_map (named map.now.order) (paged marks.now.pages place)) }
{
    let mut all = Vec::new(alloc);
    for page in marks.pages() {
        push(&mut all, page_named(alloc, map, page)?)?;
    }
    Ok(Paged::of(all))
}

/// Returns the marks of positions by the ids of their nodes.
pub fn by_ids(alloc: Global, map: &Map, marks: &Paged) -> Result<Listed, NoMemory>
    ensures { IfOk result (λ found.
        AreNamed map.now.order (paged marks.now.pages) (listed found)) }
{
    let ids = placed_ids(alloc, map)?;
    let named = all_named(alloc, map, marks)?;
    Ok(Listed::of(alloc, ids, named))
}
