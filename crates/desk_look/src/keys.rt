//! A desk's keys, and the keys along a chain.
ghost use Rattle.std.specs.Prelude.{◌≡◌, ◌≢◌, ℕ, ◌<◌, ◌≤◌, length, IfSome, IfNone, Ok};
ghost use Rattle.std.specs.Bool.{OnTrue, OnFalse};
ghost use Rattle.lms_tree.specs.Chains.{verified_along};
ghost use Rattle.desk_look.specs.Looks.{IsKeyFrom};
ghost use Rattle.desk_look.specs.Looking.{IsFirstStray, IsSealingKey, LeadsOn};

use key_desk::Desk;
use lms_tree::{Link, verify};

/// Returns a public key if it belongs to the desk.
pub fn own_key(desk: &Desk, public: &[u8]) -> Option<[u8; 56]>
    ensures same { IfSome result (λ key. key ≡ public.now) }
    ensures own { IfSome result (IsKeyFrom desk.now 0) }
    ensures other { IfNone result (¬ IsKeyFrom desk.now 0 public.now) }
{
    key_from(desk, 0, public)
}

// Returns a public key if it belongs to one of the desk's areas, from the area with this number on.
fn key_from(desk: &Desk, first: u32, public: &[u8]) -> Option<[u8; 56]>
    ensures same { IfSome result (λ key. key ≡ public.now) }
    ensures own { IfSome result (IsKeyFrom desk.now first) }
    ensures other { IfNone result (¬ IsKeyFrom desk.now first public.now) }
{
    for area in first..desk.key_count() {
        let key = desk.public_of(area);
        if is_same_key(&key, public) {
            return Some(key);
        }
    }
    None
}

// Tests whether a public key is this one.
fn is_same_key(key: &[u8; 56], public: &[u8]) -> bool
    ensures same { OnTrue result (key.now ≡ public.now) }
    ensures apart { OnFalse result (key.now ≢ public.now) }
{
    key.as_slice() == public
}

/// Returns the number of the first link that does not lead to a later key of the desk.
pub(crate) fn first_stray(desk: &Desk, chain: &[Link]) -> Option<usize>
    ensures some { IfSome result (IsFirstStray desk.now chain.now) }
    ensures none { IfNone result (LeadsOn desk.now chain.now) }
{
    for number in 0..chain.len() {
        if key_from(desk, 1, &chain[number].key).is_none() {
            return Some(number);
        }
    }
    None
}

/// Returns the first key along a chain under which the signature of a text verifies.
pub(crate) fn sealing_key(
    public: &[u8; 56],
    chain: &[Link],
    text: &[u8],
    signature: &[u8],
) -> [u8; 56]
    requires { verified_along public.now chain.now text.now signature.now ≡ Ok tt }
    ensures { IsSealingKey public.now chain.now text.now signature.now result }
{
    let mut key = *public;
    for link in chain {
        if verify(&key, text, signature).is_ok() {
            return key;
        }
        key = link.key;
    }
    key
}
