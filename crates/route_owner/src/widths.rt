//! The widths of the numbers in parts and settings.

ghost use Rattle.std.specs.Prelude.{◌<◌, ◌^◌, All};
ghost use Rattle.route_owner.specs.Published.{HasSettingWidths};
ghost use Rattle.proof_octets.specs.Good.{IsGoodNode, IsGoodRoad};

use book_model::Settings;
use road_map::{Node, Parts, Road};

fn node_has_widths(node: Node)
    ensures { IsGoodNode node }
{
    let Node { id: _, x: _, y: _ } = node;
}

fn road_has_widths(road: Road)
    ensures { IsGoodRoad road }
{
    let Road {
        a: _,
        b: _,
        length: _,
    } = road;
}

/// Gives the fact that the numbers of settings fit the widths of their types.
pub fn settings_have_widths(settings: Settings)
    ensures numbers { HasSettingWidths settings }
    ensures version { settings.version < 2 ^ 64 }
{
    let _ = settings;
}

fn nodes_have_widths(nodes: &[Node])
    ensures { All IsGoodNode nodes.now }
{
    for node in nodes {
        node_has_widths(*node);
    }
}

fn roads_have_widths(roads: &[Road])
    ensures { All IsGoodRoad roads.now }
{
    for road in roads {
        road_has_widths(*road);
    }
}

/// Gives the fact that the numbers of parts fit the widths of their types.
pub fn parts_have_widths(parts: &Parts)
    ensures nodes { All IsGoodNode parts.now.nodes }
    ensures roads { All IsGoodRoad parts.now.roads }
{
    nodes_have_widths(parts.nodes.as_slice());
    roads_have_widths(parts.roads.as_slice());
}
