//! Breadth-first order.
ghost use Rattle.std.specs.Prelude.{◌≡◌, ◌<◌, ◌≤◌, ◌+◌, ℕ, [], ◌∷◌, None, Some, List, IfOk, OnOk, length, replicate, slice_get};
ghost use Rattle.road_map.specs.Walks.{ids};
ghost use Rattle.book_model.specs.Orders.{breadth};
ghost use Rattle.road_order.specs.Spreads.{HasLabel, IsSpread, AllAtMost, LabelledBelow, RootsBelow, AllClosed, ClosedBut, IsClosedAt, Grows, Follows, IsLabelled, Keeps, Gives, keyed_of};
ghost use Rattle.road_order.specs.declared.label.Label.{Label};

use crate::keyed::ids_by_key;
use crate::label::Label;
use crate::neighbour::{degree, neighbour_at};
use octet_text::{NoMemory, filled, push, room_for};
use road_map::{Ids, Map};
use std::alloc::Global;

/// Returns the ids by the least id of their component, then by the number of hops from the node with that id, then
/// by id.
pub fn breadth_ids(alloc: Global, map: &Map) -> Result<Ids, NoMemory>
    ensures { IfOk result (λ ids. ids ≡ breadth map.now.parts) }
{
    let _parts = map.parts();
    let labels = label_all(alloc, map)?;
    let keyed = with_labels(alloc, map, labels.as_slice())?;
    let ids = ids_by_key(alloc, keyed)?;
    Ok(ids)
}

/// Returns each id with the least id of its component and the number of hops from the node with that id.
fn with_labels(
    alloc: Global,
    map: &Map,
    labels: &[Option<Label>],
) -> Result<Vec<((u32, u32), u32)>, NoMemory>
    requires { IsLabelled map.now labels.now }
    ensures { IfOk result (λ keyed. keyed.items ≡ keyed_of map.now.parts (ids map.now.order)) }
{
    let _parts = map.parts();
    let mut keyed = room_for(alloc, labels)?;
    for position in 0..map.count() {
        match labels[position as usize] {
            Some(label) => {
                let root = map.node(label.root).id;
                push(&mut keyed, ((root, label.hops), map.node(position).id))?;
            }
            None => unreachable!(),
        }
    }
    Ok(keyed)
}

/// Returns the labels of all nodes, by position.
fn label_all(alloc: Global, map: &Map) -> Result<Vec<Option<Label>>, NoMemory>
    ensures { IfOk result (λ labels. IsLabelled map.now labels.items) }
{
    let mut labels = no_labels(alloc, map.count())?;
    spread_all(alloc, map, labels.as_mut_slice())?;
    Ok(labels)
}

/// Makes `count` empty labels.
fn no_labels(alloc: Global, count: u32) -> Result<Vec<Option<Label>>, NoMemory>
    ensures { IfOk result (λ labels. labels.items ≡ replicate count None) }
{
    filled(alloc, None, count as usize)
}

/// Labels every node. At the start no node has a label.
fn spread_all(alloc: Global, map: &Map, labels: &mut [Option<Label>]) -> Result<(), NoMemory>
    requires { labels.old ≡ replicate (length map.now.order) None }
    ensures { OnOk result (IsLabelled map.now labels.new) }
{
    for position in 0..map.count() {
        spread(alloc, map, labels, position)?;
    }
    Ok(())
}

/// Does nothing if the node has a label. Otherwise labels it as the first of its component, and then, layer by
/// layer, all nodes that it reaches.
fn spread(alloc: Global, map: &Map, labels: &mut [Option<Label>], root: u32) -> Result<(), NoMemory>
    requires root { root < length map.now.order }
    requires spread { IsSpread map.now labels.old }
    requires closed { AllClosed map.now labels.old }
    requires below { LabelledBelow labels.old root }
    requires roots { RootsBelow labels.old root }
    ensures spread { OnOk result (IsSpread map.now labels.new) }
    ensures closed { OnOk result (AllClosed map.now labels.new) }
    ensures keeps { OnOk result (Keeps labels.old labels.new) }
    ensures root { OnOk result ((l : Label) × HasLabel labels.new root l) }
    ensures roots { OnOk result (RootsBelow labels.new (root + 1)) }
{
    let _parts = map.parts();
    let _count = map.count();
    if labels[root as usize].is_some() {
        return Ok(());
    }
    labels[root as usize] = Some(Label { root, hops: 0 });
    let mut layer = Vec::new(alloc);
    push(&mut layer, root)?;
    let mut hops = 0;
    'layers: while !layer.is_empty() {
        hops += 1;
        layer = next_layer(alloc, map, labels, layer.as_slice(), Label { root, hops })?;
    }
    Ok(())
}

/// Labels the unlabelled neighbours of a layer, and returns them.
fn next_layer(
    alloc: Global,
    map: &Map,
    labels: &mut [Option<Label>],
    layer: &[u32],
    label: Label,
) -> Result<Vec<u32>, NoMemory>
    requires spread { IsSpread map.now labels.old }
    requires below { LabelledBelow labels.old label.root }
    requires most { AllAtMost labels.old label }
    requires before { Follows labels.old layer.now label }
    requires closed { ClosedBut map.now labels.old layer.now }
    ensures spread { OnOk result (IsSpread map.now labels.new) }
    ensures grows { IfOk result (λ next. Grows label labels.old labels.new [] next.items) }
    ensures closed { IfOk result (λ next. ClosedBut map.now labels.new next.items) }
{
    let mut next = Vec::new(alloc);
    for position in layer {
        label_neighbours(map, labels, &mut next, *position, label)?;
    }
    Ok(next)
}

/// Labels the unlabelled neighbours of a node, and lists them.
fn label_neighbours(
    map: &Map,
    labels: &mut [Option<Label>],
    next: &mut Vec<u32>,
    position: u32,
    label: Label,
) -> Result<(), NoMemory>
    requires position { position < length map.now.order }
    requires spread { IsSpread map.now labels.old }
    requires below { LabelledBelow labels.old label.root }
    requires most { AllAtMost labels.old label }
    requires before { Follows labels.old (position ∷ []) label }
    ensures spread { OnOk result (IsSpread map.now labels.new) }
    ensures grows { OnOk result (Grows label labels.old labels.new next.old.items next.new.items) }
    ensures closed { OnOk result ((l : Label) → HasLabel labels.old position l →
        IsClosedAt map.now labels.new position l) }
{
    for index in 0..degree(map, position) {
        let neighbour = neighbour_at(map, position, index);
        give(labels, next, neighbour, label)?;
    }
    Ok(())
}

/// Labels a position that has no label, and lists it.
fn give(
    labels: &mut [Option<Label>],
    next: &mut Vec<u32>,
    position: u32,
    label: Label,
) -> Result<(), NoMemory>
    requires { position < length labels.old }
    ensures { OnOk result (Gives label position labels.old labels.new next.old.items
        next.new.items) }
{
    if labels[position as usize].is_none() {
        push(next, position)?;
        labels[position as usize] = Some(label);
    }
    Ok(())
}
