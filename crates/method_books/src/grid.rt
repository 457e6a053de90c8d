//! The grid of cells over a map.

ghost use Rattle.std.specs.Prelude.{◌≡◌, ◌==◌, ◌<◌, ◌≤◌, not, Some, length, slice_get};
ghost use Rattle.road_map.specs.declared.parts.Node.{Node};
ghost use Rattle.road_map.specs.Walks.{Knows};
ghost use Rattle.book_model.specs.Orders.{neighbours};
ghost use Rattle.book_model.specs.Cells.{cell_in, cell_of, is_border};
ghost use Rattle.method_books.specs.Grids.{frame, IsGridOf, Holds};

use book_model::{Frame, frame_of, slot};
use road_map::{Map, Node};

/// The frame of a map, cut into columns and rows of equal size.
#[derive(Clone, Copy, Debug)]
pub struct Grid {
    pub frame: Frame,
    /// From 1 to 1,024.
    pub columns: u32,
    /// From 1 to 1,024.
    pub rows: u32,
}

/// Makes the grid over some nodes.
pub fn grid_over(nodes: &[Node], columns: u32, rows: u32) -> Grid
    requires some { 0 < length nodes.now }
    requires columns { 1 ≤ columns }
    requires columns_max { columns ≤ 1024 }
    requires rows { 1 ≤ rows }
    requires rows_max { rows ≤ 1024 }
    ensures grid { IsGridOf nodes.now result }
    ensures columns { result.columns ≡ columns }
    ensures rows { result.rows ≡ rows }
{
    Grid {
        frame: frame_of(nodes),
        columns,
        rows,
    }
}

/// Returns the cell of a node.
fn cell(grid: &Grid, node: Node) -> u32
    requires { Holds grid.now node }
    ensures { result ≡ cell_in (frame grid.now) grid.now.columns grid.now.rows node }
{
    let frame = &grid.frame;
    let row = slot(frame.low_y, frame.high_y, grid.rows, node.y);
    let column = slot(frame.low_x, frame.high_x, grid.columns, node.x);
    row * grid.columns + column
}

/// Returns the cell of the node at a position.
pub fn cell_at(map: &Map, grid: &Grid, position: u32) -> u32
    requires within { position < length map.now.order }
    requires grid { IsGridOf map.now.parts.nodes grid.now }
    ensures { (n : Node) → slice_get map.now.order position ≡ Some n →
        result ≡ cell_of map.now.parts.nodes grid.now.columns grid.now.rows n.id }
{
    let _parts = map.parts();
    let node = map.node(position);
    cell(grid, node)
}

/// Tests whether a node is in another cell.
fn is_elsewhere(map: &Map, grid: &Grid, id: u32, cell: u32) -> bool
    requires known { Knows map.now.parts id }
    requires grid { IsGridOf map.now.parts.nodes grid.now }
    ensures { result ≡ not (cell_of map.now.parts.nodes grid.now.columns grid.now.rows id == cell) }
{
    let _parts = map.parts();
    cell_at(map, grid, map.place(id)) != cell
}

/// Tests whether the node at a position has a neighbour in another cell.
pub fn is_border_at(map: &Map, grid: &Grid, position: u32) -> bool
    requires within { position < length map.now.order }
    requires grid { IsGridOf map.now.parts.nodes grid.now }
    ensures { (n : Node) → slice_get map.now.order position ≡ Some n →
        result ≡ is_border (cell_of map.now.parts.nodes grid.now.columns grid.now.rows)
        (neighbours map.now.parts.roads) n.id }
{
    let _parts = map.parts();
    let _node = map.node(position);
    let cell = cell_at(map, grid, position);
    for arc in map.arcs(position) {
        if is_elsewhere(map, grid, arc.to, cell) {
            return true;
        }
    }
    false
}
