//! The zero octets of an image, and the texts of its slots.
ghost use Rattle.std.specs.Prelude.{◌≡◌, ◌+◌, ◌<◌, ◌≤◌, ◌↔◌, length, true, ◌≢◌, Some, IfSome};
ghost use Rattle.desk_sight.specs.Texts.{IsZeroFrom, HasHeader, IsSomeRoot};

use crate::slots::Signed;
use proof_octets::Header;

/// Tests whether the octets of an image from one offset up to another are zero.
pub(crate) fn is_zero(image: &[u8], from: usize, to: usize) -> bool
    requires { to ≤ length image.now }
    ensures { (result ≡ true) ↔ IsZeroFrom from to image.now }
{
    for place in from..to {
        if image[place] != 0 {
            return false;
        }
    }
    true
}

// Tests whether any octet is not zero.
fn has_some(octets: &[u8; 32]) -> bool
    ensures { (result ≡ true) ↔ IsSomeRoot octets.now }
{
    for octet in octets {
        if *octet != 0 {
            return true;
        }
    }
    false
}

/// Returns the header in the slot at an offset, if it is whole and its root is not zeros.
pub(crate) fn header_at(image: &[u8], place: usize) -> Option<Signed>
    requires { place + 128 ≤ length image.now }
    ensures some { IfSome result (HasHeader image.now place) }
    ensures one { (signed : Signed) → HasHeader image.now place signed → result ≡ Some signed }
{
    if image[place + 1] != 104 {
        return None;
    }
    let Ok(header) = Header::read(&image[place + 2..place + 106]) else {
        return None;
    };
    if !has_some(&header.node_root) {
        return None;
    }
    Some(Signed {
        version: header.version,
        nodes: header.nodes,
    })
}
