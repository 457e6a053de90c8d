//! The frame of a map, and the bucket of a number in a range.
ghost use Rattle.std.specs.Prelude.{◌≡◌, ◌<◌, ◌≤◌, ◌^◌, ◌-ℤ◌, ◌≤ℤ◌, unsigned_abs, length, All};
ghost use Rattle.book_model.specs.Orders.{frame_of, slot};
ghost use Rattle.book_model.specs.Frames.{IsFrame, InFrame};

use road_map::Node;

/// The least and the greatest coordinates of some nodes.
#[derive(Clone, Copy, Debug, PartialEq, Eq)]
pub struct Frame {
    pub low_x: i32,
    pub high_x: i32,
    pub low_y: i32,
    pub high_y: i32,
}

/// Returns the frame of the given nodes, of which there must be at least one.
pub fn frame_of(nodes: &[Node]) -> Frame
    requires { 0 < length nodes.now }
    ensures frame { IsFrame (frame_of nodes.now) result }
    ensures all { All (InFrame result) nodes.now }
{
    let first = nodes[0];
    let (mut low_x, mut high_x) = (first.x, first.x);
    let (mut low_y, mut high_y) = (first.y, first.y);
    for node in nodes {
        low_x = low_x.min(node.x);
        high_x = high_x.max(node.x);
        low_y = low_y.min(node.y);
        high_y = high_y.max(node.y);
    }
    Frame {
        low_x,
        high_x,
        low_y,
        high_y,
    }
}

/// Splits the range from `low` to `high` into `parts` equal parts. Returns the index of the part that holds
/// `number`.
pub fn slot(low: i32, high: i32, parts: u32, number: i32) -> u32
    requires some { 0 < parts }
    requires from { low ≤ℤ number }
    requires to { number ≤ℤ high }
    ensures value { result ≡ slot low high parts number }
    ensures below { result < parts }
{
    let offset = apart(low, number);
    let span = apart(low, high);
    (offset * u64::from(parts) / (span + 1)) as u32
}

/// Returns the distance between two numbers.
fn apart(low: i32, high: i32) -> u64
    ensures value { result ≡ unsigned_abs (high -ℤ low) }
    ensures below { result < 2 ^ 32 }
{
    (i64::from(high) - i64::from(low)).unsigned_abs()
}
