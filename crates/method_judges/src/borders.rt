//! The border nodes that inner walks reach.

ghost use Rattle.std.specs.Prelude.{◌≡◌, ℕ, ◌==◌, ◌&&◌, is_some, IfOk, OnOk, if◌then◌else◌};
ghost use Rattle.std.specs.Ordering.{nat_cmp};
ghost use Rattle.std.specs.BTreeMap.{get, IsOrdered};
ghost use Rattle.road_search.specs.Labelling.{length_at};
ghost use Rattle.method_judges.specs.Scans.{border_length, IsBorderList};

use crate::hyp_items::is_marked;
use octet_text::{NoMemory, collected, insert};
use proof_judge::NodesById;
use road_leaf::NodeLeaves;
use road_search::Labels;
use std::alloc::Global;
use std::collections::BTreeMap;

/// Returns the least inner length of an id, if the id belongs to a border node and has one.
fn inner_length(by_id: &NodesById<'_>, labels: &Labels, id: u32) -> Option<u64>
    ensures { result ≡ border_length by_id.now (length_at labels.now) id }
{
    if is_marked(by_id, id) {
        labels.get(id)
    } else {
        None
    }
}

/// Adds the length of an id to the list, if there is a length.
fn note(near: &mut BTreeMap<u32, u64>, id: u32, length: Option<u64>) -> Result<(), NoMemory>
    ensures { OnOk result ((q : ℕ) →
        get nat_cmp near.new q ≡ (if is_some length &&
        (id == q) then length else get nat_cmp near.old q)) }
{
    if let Some(length) = length {
        insert(near, id, length)?;
    }
    Ok(())
}

/// Returns all border nodes with their least inner lengths.
fn borders(
    alloc: Global,
    nodes: &NodeLeaves,
    by_id: &NodesById<'_>,
    labels: &Labels,
) -> Result<BTreeMap<u32, u64>, NoMemory>
    requires { by_id.now ≡ nodes.now }
    ensures { IfOk result (λ near. (id : ℕ) →
        get nat_cmp near id ≡ border_length nodes.now (length_at labels.now) id) }
{
    let mut near = BTreeMap::new(alloc);
    for index in 0..nodes.len() {
        let id = nodes.at(index).id;
        let length = inner_length(by_id, labels, id);
        note(&mut near, id, length)?;
    }
    Ok(near)
}

/// Returns the border nodes by ascending id.
fn in_order(alloc: Global, near: BTreeMap<u32, u64>) -> Result<Vec<(u32, u64)>, NoMemory>
    ensures entries { IfOk result (λ v. v.items ≡ near.entries) }
    ensures ordered { IsOrdered nat_cmp near }
{
    let _count = near.len();
    collected(alloc, near.into_iter())
}

/// Returns all border nodes by ascending id, each with its least inner length.
pub fn listed(
    alloc: Global,
    nodes: &NodeLeaves,
    by_id: &NodesById<'_>,
    labels: &Labels,
) -> Result<Vec<(u32, u64)>, NoMemory>
    requires { by_id.now ≡ nodes.now }
    ensures { IfOk result (λ v. IsBorderList nodes.now (length_at labels.now) v.items) }
{
    let near = borders(alloc, nodes, by_id, labels)?;
    let list = in_order(alloc, near)?;
    Ok(list)
}
