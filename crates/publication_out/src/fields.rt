//! The fields of a publication, each written to the front of a buffer.
ghost use Rattle.std.specs.Prelude.{◌≡◌, ◌<◌, ◌≤◌, ◌^◌, ◌+◌, ◌++◌, [], length, take};
ghost use Rattle.std.specs.Int.{w32, to_be_bytes};
ghost use Rattle.proof_octets.specs.Publications.{node, road};
ghost use Rattle.publication_out.specs.Ahead.{ahead, front_text, numbers_text, IsStep};

use book_model::Settings;
use octet_text::write_array;
use proof_octets::Publication;
use road_map::{Node, Road};

/// The size of a buffer for one field, in octets.
pub const ROOM: usize = 110;

/// The part of a publication that comes next.
#[derive(Clone, Copy)]
pub enum Part {
    Signature,
    Nodes,
    Roads,
}

/// The number of octets that a field takes in a buffer, and what follows the field: a part, from an index on.
#[derive(Clone, Copy)]
pub struct Step {
    pub len: usize,
    pub part: Part,
    pub index: usize,
}

/// Encodes everything before the octets of the signature.
pub fn front(publication: &Publication) -> [u8; ROOM]
    requires { length publication.now.signature < 2 ^ 16 }
    ensures { result ≡ front_text publication.now }
{
    let mut text = [0; ROOM];
    write_array(&mut text, 0, b"RPP1");
    write_array(&mut text, 4, &publication.header.write());
    let length = publication.signature.as_slice().len() as u16;
    write_array(&mut text, 108, &length.to_be_bytes());
    text
}

// Writes the four numbers of the settings and the number of nodes.
fn write_numbers(buffer: &mut [u8], settings: &Settings, nodes: u32) -> usize
    requires { 36 ≤ length buffer.old }
    ensures len { result ≡ 36 }
    ensures text { take 36 buffer.new ≡ numbers_text settings.now nodes }
{
    write_array(buffer, 0, &settings.seed.to_be_bytes());
    write_array(buffer, 8, &settings.p1.to_be_bytes());
    write_array(buffer, 16, &settings.p2.to_be_bytes());
    write_array(buffer, 24, &settings.p3.to_be_bytes());
    write_array(buffer, 32, &nodes.to_be_bytes());
    36
}

fn write_count(buffer: &mut [u8], count: u32) -> usize
    requires { 4 ≤ length buffer.old }
    ensures len { result ≡ 4 }
    ensures text { take 4 buffer.new ≡ to_be_bytes w32 count }
{
    write_array(buffer, 0, &count.to_be_bytes());
    4
}

fn write_node(buffer: &mut [u8], item: Node) -> usize
    requires { 12 ≤ length buffer.old }
    ensures len { result ≡ 12 }
    ensures text { take 12 buffer.new ≡ node.spell item }
{
    write_array(buffer, 0, &item.id.to_be_bytes());
    write_array(buffer, 4, &item.x.cast_unsigned().to_be_bytes());
    write_array(buffer, 8, &item.y.cast_unsigned().to_be_bytes());
    12
}

fn write_road(buffer: &mut [u8], item: Road) -> usize
    requires { 12 ≤ length buffer.old }
    ensures len { result ≡ 12 }
    ensures text { take 12 buffer.new ≡ road.spell item }
{
    write_array(buffer, 0, &item.a.to_be_bytes());
    write_array(buffer, 4, &item.b.to_be_bytes());
    write_array(buffer, 8, &item.length.to_be_bytes());
    12
}

// Writes as long a prefix of some octets as fits.
fn write_front(buffer: &mut [u8], octets: &[u8]) -> usize
    requires { 0 < length buffer.old }
    ensures within { (result ≤ length buffer.old) × (result ≤ length octets.now) }
    ensures some { 0 < length octets.now → 0 < result }
    ensures text { take result buffer.new ≡ take result octets.now }
{
    let count = octets.len().min(buffer.len());
    buffer[..count].copy_from_slice(&octets[..count]);
    count
}

/// Writes the next field to the front of a buffer. Writes no octet exactly if nothing is left.
pub fn next_field(publication: &Publication, part: Part, index: usize, buffer: &mut [u8]) -> Step
    requires buffer { length buffer.old ≡ 110 }
    requires nodes { length publication.now.parts.nodes < 2 ^ 32 }
    requires roads { length publication.now.parts.roads < 2 ^ 32 }
    ensures { IsStep publication.now part index buffer.new result }
{
    match part {
        Part::Signature => {
            let signature = publication.signature.as_slice();
            if index < signature.len() {
                let len = write_front(buffer, &signature[index..]);
                return Step {
                    len,
                    part,
                    index: index + len,
                };
            }
            let count = publication.parts.nodes.as_slice().len() as u32;
            let len = write_numbers(buffer, &publication.settings, count);
            Step {
                len,
                part: Part::Nodes,
                index: 0,
            }
        }
        Part::Nodes => {
            let nodes = publication.parts.nodes.as_slice();
            if index < nodes.len() {
                let len = write_node(buffer, nodes[index]);
                return Step {
                    len,
                    part,
                    index: index + 1,
                };
            }
            let len = write_count(buffer, publication.parts.roads.as_slice().len() as u32);
            Step {
                len,
                part: Part::Roads,
                index: 0,
            }
        }
        Part::Roads => {
            let roads = publication.parts.roads.as_slice();
            if index < roads.len() {
                let len = write_road(buffer, roads[index]);
                return Step {
                    len,
                    part,
                    index: index + 1,
                };
            }
            Step {
                len: 0,
                part,
                index,
            }
        }
    }
}
