//! Finding where two values lead to the same digest through different texts.
ghost use Rattle.std.specs.Prelude.{◌≡◌, ◌≢◌, ◌-◌, ◌/◌, length, IfSome, IfNone};
ghost use Rattle.std.specs.Bool.{OnTrue, OnFalse};
ghost use Rattle.octet_text.specs.Exact.{IsBytes};
ghost use Rattle.octet_text.specs.Collisions.{AreCollision};
ghost use Rattle.lms_reduce.specs.Meetings.{IsFirstMeeting, IsHighestMeeting};
ghost use Rattle.lms_reduce.specs.Ways.{raised, walked};

use crate::texts::{digest_of, parent_text, step_text};
use octet_text::{Digest32, Hasher, array_at};

/// The texts that a step of a chain hashes, from two values.
#[derive(Clone, Copy)]
pub struct TwoSteps {
    pub left: [u8; 55],
    pub right: [u8; 55],
}

/// The texts that two paths hash at a node.
#[derive(Clone, Copy)]
pub struct TwoNodes {
    pub left: [u8; 86],
    pub right: [u8; 86],
}

// Tests whether two texts are equal.
pub(crate) fn is_same(left: &[u8], right: &[u8]) -> bool
    ensures same { OnTrue result (left.now ≡ right.now) }
    ensures apart { OnFalse result (left.now ≢ right.now) }
{
    left == right
}

// Tests whether two different texts have the same digest.
fn is_collision(left: &[u8], right: &[u8], left_digest: &Digest32, right_digest: &Digest32) -> bool
    ensures octets { IsBytes left.now × IsBytes right.now }
    ensures found { OnTrue result
        ((left.now ≢ right.now) × (left_digest.now ≡ right_digest.now)) }
    ensures none { OnFalse result (left_digest.now ≡ right_digest.now → left.now ≡ right.now) }
{
    !is_same(left, right) && is_same(left_digest, right_digest)
}

/// Returns the first step, numbered `from` or later, at which the chains from two values meet. Returns `None` if
/// there is no such step; then the values are equal, or the ends of the chains differ.
pub fn meeting<H: Hasher>(
    i: &[u8; 16],
    q: u32,
    at: u16,
    from: u8,
    left: &Digest32,
    right: &Digest32,
) -> Option<TwoSteps>
    ensures found { IfSome result (λ two. AreCollision H.hash two.left two.right) }
    ensures first { IfSome result (λ two.
        IsFirstMeeting H.hash i.now q at from left.now right.now two.left two.right) }
    ensures none { IfNone result (
        walked H.hash i.now q at from (255 - from) left.now
        ≡ walked H.hash i.now q at from (255 - from) right.now
        → left.now ≡ right.now) }
{
    let mut left = *left;
    let mut right = *right;
    for number in from..255 {
        let two = TwoSteps {
            left: step_text(i, q, at, number, &left),
            right: step_text(i, q, at, number, &right),
        };
        left = digest_of::<H>(&two.left);
        right = digest_of::<H>(&two.right);
        if is_collision(&two.left, &two.right, &left, &right) {
            return Some(two);
        }
    }
    None
}

/// Returns the node nearest to the root at which two paths of equal length up from node r meet. Returns `None` if
/// there is no such node; then the paths begin with the same value or end with different ones.
pub fn highest_meeting<H: Hasher>(
    i: &[u8; 16],
    r: u32,
    left: &Digest32,
    right: &Digest32,
    left_path: &[u8],
    right_path: &[u8],
) -> Option<TwoNodes>
    requires paths { length left_path.now ≡ length right_path.now }
    ensures found { IfSome result (λ two. AreCollision H.hash two.left two.right) }
    ensures highest { IfSome result (λ two.
        IsHighestMeeting H.hash i.now r left.now left_path.now right.now right_path.now
        (length right_path.now / 32) two.left two.right) }
    ensures none { IfNone result (
        raised H.hash i.now r left.now left_path.now (length right_path.now / 32)
        ≡ raised H.hash i.now r right.now right_path.now (length right_path.now / 32)
        → left.now ≡ right.now) }
{
    let mut left = *left;
    let mut right = *right;
    let mut node = r;
    let mut highest = None;
    for level in 0..right_path.len() / 32 {
        let two = TwoNodes {
            left: parent_text(i, node, &left, &array_at(left_path, 32 * level)),
            right: parent_text(i, node, &right, &array_at(right_path, 32 * level)),
        };
        left = digest_of::<H>(&two.left);
        right = digest_of::<H>(&two.right);
        if is_collision(&two.left, &two.right, &left, &right) {
            highest = Some(two);
        }
        node /= 2;
    }
    highest
}
