//! Whether a key block belongs to a public key.
ghost use Rattle.std.specs.Prelude.{◌≡◌, ◌+◌, ◌<◌, ◌≤◌, ◌↔◌, true, length, take, drop, IfOk};
ghost use Rattle.desk_areas.specs.Keys.{key_at};
ghost use Rattle.desk_areas.specs.Layout.{kind_at, slots_at};
ghost use Rattle.lms_tree.specs.Signatures.{public_key};

use desk_areas::{StartError, build_key};
use octet_text::{NoMemory, array_at};
use std::alloc::Global;

// Returns the kind that the block at a base names.
pub(crate) fn kind_at(image: &[u8], base: usize) -> u32
    requires { base + 5 ≤ length image.now }
    ensures { result ≡ kind_at image.now base }
{
    let high = image[base + 1] as u32 * 256 + image[base + 2] as u32;
    (high * 256 + image[base + 3] as u32) * 256 + image[base + 4] as u32
}

// Tests whether the block at a base makes a given public key. Takes as long as making the key.
pub(crate) fn is_key_at(
    alloc: Global,
    image: &[u8],
    base: usize,
    public: &[u8; 56],
) -> Result<bool, NoMemory>
    requires within { base + 64 ≤ length image.now }
    requires known { 0 < slots_at image.now base }
    ensures { IfOk result (λ is. (is ≡ true) ↔ (public_key (key_at image.now base) ≡ public.now)) }
{
    match build_key(alloc, kind_at(image, base), &array_at(image, base + 5)) {
        Ok(key) => Ok(key.public() == *public),
        Err(StartError::Memory(none)) => Err(none),
        Err(_) => unreachable!(),
    }
}

// Tests whether the first block has the kind and the identifier of a given public key. Makes no key.
pub(crate) fn has_name(image: &[u8], public: &[u8; 56]) -> bool
    requires { 64 ≤ length image.now }
    ensures { (result ≡ true) ↔ ((take 4 (drop 1 image.now) ≡ take 4 public.now) ×
        (take 16 (drop 5 image.now) ≡ take 16 (drop 8 public.now))) }
{
    image[1..5] == public[0..4] && image[5..21] == public[8..24]
}
