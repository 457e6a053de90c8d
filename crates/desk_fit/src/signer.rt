//! The key with which a desk signs maps.
ghost use Rattle.std.specs.Prelude.{◌≡◌, ◌+◌, ◌*◌, ◌≤◌, length};
ghost use Rattle.lms_tree.specs.Links.{IsLink};
ghost use Rattle.desk_areas.specs.Layout.{slots_at, base_of, text_at, IsAreaOpen};
ghost use Rattle.desk_areas.specs.Reading.{IsLinkTo};
ghost use Rattle.desk_fit.specs.Fits.{IsTold};
ghost use Rattle.desk_fit.specs.Signers.{AwaitsSigner, IsKeyOf};

use desk_areas::slots_of;
use desk_sight::Sight;
use octet_text::array_at;

// Returns the number of slots of the kind at a base.
fn slots_at(image: &[u8], base: usize) -> u32
    requires { base + 5 ≤ length image.now }
    ensures slots { result ≡ slots_at image.now base }
    ensures few { result ≤ 1024 }
{
    let high = image[base + 1] as u32 * 256 + image[base + 2] as u32;
    slots_of((high * 256 + image[base + 3] as u32) * 256 + image[base + 4] as u32)
}

// Returns the offset at which the area with a number begins. The area must be open.
fn base_of(image: &[u8], area: u32) -> usize
    requires is_open { IsAreaOpen image.now area }
    requires few { area ≤ 7 }
    ensures base { result ≡ base_of image.now area }
    ensures low { result ≤ 131136 * area }
{
    let mut base = 0usize;
    for _before in 0..area {
        base = base + 64 + 128 * slots_at(image, base) as usize;
    }
    base
}

// Returns the text of a slot.
fn text_of(image: &[u8], place: usize) -> &[u8]
    requires { place + 128 ≤ length image.now }
    ensures { result.now ≡ text_at image.now place }
{
    let length = (image[place + 1] as usize).min(126);
    &image[place + 2..place + 2 + length]
}

// Returns the key that the link text in a slot names.
fn key_named(image: &[u8], place: usize) -> [u8; 56]
    requires within { place + 128 ≤ length image.now }
    requires link { IsLink (text_at image.now place) }
    ensures { IsLinkTo (text_at image.now place) result }
{
    array_at(text_of(image, place), 4)
}

// Returns the key of an open area, if the first key is known.
fn key_of(image: &[u8], area: u32, first: [u8; 56]) -> [u8; 56]
    requires { IsAreaOpen image.now area }
    ensures { IsKeyOf first image.now area result }
{
    if area == 0 {
        return first;
    }
    key_named(image, base_of(image, area) - 128)
}

/// Returns the key with which a desk signs maps, from its sight, if its first key is known.
pub fn signer_of(image: &[u8], sight: Option<Sight>, first: Option<[u8; 56]>) -> Option<[u8; 56]>
    requires { IsTold image.now sight }
    ensures { AwaitsSigner first image.now result }
{
    match (first, sight) {
        (Some(first), Some(sight)) => Some(key_of(image, sight.key - 1, first)),
        _ => None,
    }
}
