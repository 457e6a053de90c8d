//! The line of an owner's desk.

ghost use Rattle.std.specs.Prelude.{◌≡◌, IfOk, string_bytes};
ghost use Rattle.road_line.specs.DeskLine.{desk_line};

use octet_text::{NoMemory, hex_of, print};
use std::alloc::Global;

/// Returns the line of a desk: a public key, the number of its remaining one-time keys, and the number of all its
/// one-time keys.
pub fn line_of_desk(
    alloc: Global,
    public: &[u8; 56],
    left: u32,
    size: u32,
) -> Result<Vec<u8>, NoMemory>
    ensures { IfOk result (λ line. line.items ≡ desk_line public.now left size) }
{
    let text = printed(alloc, public, left, size)?;
    Ok(text.into_bytes())
}

fn printed(alloc: Global, public: &[u8; 56], left: u32, size: u32) -> Result<String, NoMemory>
    ensures { IfOk result (λ text. string_bytes text ≡ desk_line public.now left size) }
{
    let digits = hex_of(alloc, public)?;
    let mut text = String::new(alloc);
    print(&mut text, format_args!("{digits} {left} {size}\n"))?;
    Ok(text)
}
