//! Further positions beside the chosen ones, along the lines of a grid.
//!
//! A search that stops at every other chosen position still covers everything that these positions enclose. Over a
//! large map, searches between positions along finer lines cover less, and the chosen positions are only a few of
//! their links apart. The choice of positions changes no distance.

ghost use Rattle.std.specs.Prelude.{◌≡◌, ℕ, ◌<◌, ◌≤◌, ◌+◌, ◌*◌, ◌^◌, Some, IfOk, IfSome, length, slice_get};
ghost use Rattle.std.specs.Option.{unwrap_or};
ghost use Rattle.book_model.specs.Frames.{InFrame};
ghost use Rattle.book_model.specs.Orders.{slot};
ghost use Rattle.pair_dist.specs.Chains.{Begins};

use crate::chain::walls_at;
use crate::walled::is_wall;
use book_model::{Frame, frame_of, slot};
use octet_text::{NoMemory, copied, push, room_for};
use road_map::{Map, Net, Node};
use std::alloc::Global;

/// Returns the cell of a node, in a grid with as many columns as rows over a frame.
fn cell_of(frame: &Frame, columns: u32, node: Node) -> u32
    requires inside { InFrame frame.now node }
    requires some { 0 < columns }
    requires few { columns ≤ 65535 }
    ensures { result ≡ slot frame.now.low_y frame.now.high_y columns node.y * columns +
        slot frame.now.low_x frame.now.high_x columns node.x }
{
    let row = slot(frame.low_y, frame.high_y, columns, node.y);
    let column = slot(frame.low_x, frame.high_x, columns, node.x);
    row * columns + column
}

/// Returns the cells of all nodes, by position.
fn cells_of(alloc: Global, map: &Map, columns: u32) -> Result<Vec<u32>, NoMemory>
    requires some { 0 < columns }
    requires few { columns ≤ 65535 }
    ensures { IfOk result (λ cells. length cells.items ≡ length map.now.order) }
{
    let parts = map.parts();
    let frame = frame_of(parts.nodes.as_slice());
    let count = map.count();
    let mut cells = room_for(alloc, parts.nodes.as_slice())?;
    for position in 0..count {
        let node = map.node(position);
        push(&mut cells, cell_of(&frame, columns, node))?;
    }
    Ok(cells)
}

/// Returns the cell at a position, or 0.
fn cell_at(cells: &[u32], position: u32) -> u32
    ensures { result ≡ unwrap_or (slice_get cells.now position) 0 }
{
    match cells.get(position as usize) {
        None => 0,
        Some(cell) => *cell,
    }
}

/// Tests whether an arc leads from a position into a cell with a greater number.
fn crosses(net: &Net, cells: &[u32], position: u32) -> bool {
    let Some(arcs) = net.get(position) else {
        return false;
    };
    let own = cell_at(cells, position);
    for arc in arcs {
        if cell_at(cells, arc.to) > own {
            return true;
        }
    }
    false
}

/// Returns the given positions, followed by the other positions from which an arc crosses a line.
fn places_along(
    alloc: Global,
    net: &Net,
    cells: &[u32],
    places: &[u32],
) -> Result<Vec<u32>, NoMemory>
    requires few { length cells.now < 2 ^ 32 }
    requires within { (i p : ℕ) → slice_get places.now i ≡ Some p → p < length cells.now }
    ensures front { IfOk result (λ finer. Begins places.now finer.items) }
    ensures within { IfOk result (λ finer. (i p : ℕ) → slice_get finer.items i ≡ Some p →
        p < length cells.now) }
{
    let count = cells.len() as u32;
    let walls = walls_at(alloc, count, places)?;
    let mut finer = copied(alloc, places)?;
    for position in 0..count {
        if !is_wall(walls.as_slice(), position) && crosses(net, cells, position) {
            push(&mut finer, position)?;
        }
    }
    Ok(finer)
}

/// Returns some positions of a large map, followed by others along the lines of a grid whose cells would have 1,024
/// nodes each. Returns no positions if searches from them would not save time.
///
/// They save time if the map is so large and has so many positions that a search from each covers much of it. The
/// finer positions have about ten links for each node of the map, which is fewer than the pairs of the positions.
pub fn finer_places(
    alloc: Global,
    map: &Map,
    net: &Net,
    places: &[u32],
) -> Result<Option<Vec<u32>>, NoMemory>
    requires within { (i p : ℕ) → slice_get places.now i ≡ Some p → p < length map.now.order }
    requires few { length places.now ≤ 2048 }
    ensures few { IfOk result (λ found. IfSome found (λ finer. length finer.items ≤ 65536)) }
    ensures front { IfOk result (λ found. IfSome found (λ finer. Begins places.now finer.items)) }
    ensures within { IfOk result (λ found. IfSome found (λ finer. (i p : ℕ) →
        slice_get finer.items i ≡ Some p → p < length map.now.order)) }
{
    let _parts = map.parts();
    let columns = (map.count() / 1024).isqrt();
    if columns < 4 || places.len() * places.len() < 12 * map.count() as usize {
        return Ok(None);
    }
    let cells = cells_of(alloc, map, columns)?;
    let finer = places_along(alloc, net, cells.as_slice(), places)?;
    if finer.len() > 8 * places.len() {
        return Ok(None);
    }
    Ok(Some(finer))
}
