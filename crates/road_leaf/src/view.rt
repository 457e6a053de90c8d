//! Borrowed leaves of nodes.
ghost use Rattle.std.specs.Prelude.{◌≡◌, ◌<◌, ◌^◌, length, OnOk, OnErr};
ghost use Rattle.octet_text.specs.Puts.{Puts};
ghost use Rattle.road_leaf.specs.Leaves.{node_leaf_text};
ghost use Rattle.road_leaf.specs.Seen.{seen};

use crate::writing::put_fields;
use octet_text::NoMemory;
use road_map::Arc;

/// The contents of a node's leaf besides its coordinates and arcs, borrowed.
#[derive(Clone, Copy, Debug)]
pub enum ExtraView<'a> {
    /// Nothing.
    Plain,
    /// The node's own codes.
    Own(&'a [u16]),
    /// The node whose codes replace the node's own, and the greatest difference between the two lists of codes.
    Near { reference: u32, error: u16 },
    /// The node's cell, and whether a road leads from the node to another cell.
    Cell { cell: u32, border: bool },
}

/// The leaf of a node, borrowed: its id, its coordinates, its arcs in ascending order of id, and the contents that
/// its kind adds.
#[derive(Clone, Copy, Debug)]
pub struct NodeView<'a> {
    pub id: u32,
    pub x: i32,
    pub y: i32,
    pub arcs: &'a [Arc],
    pub extra: ExtraView<'a>,
}

impl NodeView<'_> {
    /// Appends the text of the leaf. After an error the octets are unchanged.
    pub fn write(&self, out: &mut Vec<u8>) -> Result<(), NoMemory>
        requires { length self.now.arcs.now < 2 ^ 16 }
        ensures ok { OnOk result (Puts out.old.items out.new.items
            (node_leaf_text (seen self.now))) }
        ensures err { OnErr result (out.new.items ≡ out.old.items) }
    {
        let count = out.len();
        let put = put_fields(out, self.id, self.x, self.y, self.arcs, self.extra);
        if put.is_err() {
            out.truncate(count);
        }
        put
    }
}
