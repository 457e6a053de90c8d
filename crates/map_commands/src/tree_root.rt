//! The command `root`.

ghost use Rattle.std.specs.Prelude.{◌≡◌, ◌≤◌, ◌<◌, length, string_bytes, IfOk, ◌∷◌, [], ◌++◌};
ghost use Rattle.sha2.specs.Sha256.{sha256};
ghost use Rattle.merkle_cover.specs.Trees.{root};
ghost use Rattle.command_files.specs.Endings.{Promises, TellsNone, NoDisk};
ghost use Rattle.command_files.specs.Spared.{SparesLibrary, SparesBut};
ghost use Rattle.map_commands.specs.RootLine.{IsPlainTextAt, plain_texts, root_line, IsRootLine, ends_root};

use command_files::{Conclusion, Fault, load_map, write_text};
use merkle_cover::Rising;
use octet_text::{Digest32, NoMemory, Sha, copied, hex_of, print};
use road_io::{Library, Sink};
use road_leaf::{Extra, NodeLeaf};
use road_map::{Arc, Arcs, Map, Node};
use std::alloc::Global;

/// Writes the number of nodes of the map in a file, and the root of the tree over their plain leaves. The fan-out
/// is 2 to 32.
pub fn root<L: Library, K: Sink>(
    alloc: Global,
    library: &mut L,
    sink: &mut K,
    roads: &str,
    fan: u8,
) -> Result<Conclusion, Fault>
    requires least { 2 ≤ fan }
    requires most { fan ≤ 32 }
    ensures promised { Promises (ends_root roads.now fan) TellsNone NoDisk
        (L.files library.new) (L.faults library.old) (L.faults library.new)
        (K.taken sink.old) (K.taken sink.new) (K.faults sink.old) (K.faults sink.new) result }
    ensures library { SparesLibrary result (L.faults library.old) (L.faults library.new) }
    ensures asked { L.asked library.new ≡ L.asked library.old ++ roads.now ∷ [] }
    ensures sink { SparesBut Fault.Sink result (K.faults sink.old) (K.faults sink.new) }
{
    let map = load_map(alloc, library, roads)?;
    let line = match root_line(alloc, &map, fan) {
        Ok(line) => line,
        Err(none) => return Err(Fault::Memory(none)),
    };
    write_text(sink, &line)
}

/// Returns the number of a map's nodes, and the root of the tree over their plain leaves, as a line.
fn root_line(alloc: Global, map: &Map, fan: u8) -> Result<Vec<u8>, NoMemory>
    requires least { 2 ≤ fan }
    requires most { fan ≤ 32 }
    ensures { IfOk result (λ line. IsRootLine map.now.parts fan line.items) }
{
    let count = map.parts().nodes.as_slice().len();
    let root = plain_root(alloc, map, fan)?;
    let line = line_of_root(alloc, count, &root)?;
    Ok(line)
}

/// Returns the root of the tree over the plain leaves of a map's nodes, by ascending id. Encodes one leaf at a
/// time.
fn plain_root(alloc: Global, map: &Map, fan: u8) -> Result<Digest32, NoMemory>
    requires least { 2 ≤ fan }
    requires most { fan ≤ 32 }
    ensures { IfOk result (λ digest.
        digest ≡ root sha256 (plain_texts map.now.parts map.now.order) fan) }
{
    let _parts = map.parts();
    let count = map.count();
    let mut rising = Rising::<Sha>::unpushed(alloc, count, fan)?;
    for position in 0..count {
        let text = leaf_text(alloc, map, position)?;
        rising.push(text.as_slice());
    }
    Ok(rising.end().root)
}

/// Returns the text of the plain leaf of the node at a position.
fn leaf_text(alloc: Global, map: &Map, position: u32) -> Result<Vec<u8>, NoMemory>
    requires { position < length map.now.order }
    ensures { IfOk result (λ text. IsPlainTextAt map.now position text.items) }
{
    let _parts = map.parts();
    let node = map.node(position);
    let leaf = plain_leaf(alloc, node, map.arcs(position))?;
    let mut text = Vec::new(alloc);
    leaf.write(&mut text)?;
    Ok(text)
}

/// Returns the line of a root: the number of nodes, a space, the root in lower-case hex, and a line end.
fn line_of_root(alloc: Global, count: usize, root: &Digest32) -> Result<Vec<u8>, NoMemory>
    ensures { IfOk result (λ line. line.items ≡ root_line count root.now) }
{
    let text = printed(alloc, count, root)?;
    Ok(text.into_bytes())
}

fn printed(alloc: Global, count: usize, root: &Digest32) -> Result<String, NoMemory>
    ensures { IfOk result (λ text. string_bytes text ≡ root_line count root.now) }
{
    let digits = hex_of(alloc, root)?;
    let mut text = String::new(alloc);
    print(&mut text, format_args!("{count} {digits}\n"))?;
    Ok(text)
}

/// Returns the plain leaf of a node with these arcs.
fn plain_leaf(alloc: Global, node: Node, arcs: &[Arc]) -> Result<NodeLeaf, NoMemory>
    ensures { IfOk result (λ leaf.
        leaf ≡ record {
          id = node.id;
          x = node.x;
          y = node.y;
          arcs = arcs.now;
          extra = Extra.Plain;
        }) }
{
    let arcs = copied(alloc, arcs)?;
    Ok(NodeLeaf {
        id: node.id,
        x: node.x,
        y: node.y,
        arcs: Arcs::from_vec(arcs),
        extra: Extra::Plain,
    })
}
