//! The lines of an audit's findings.

ghost use Rattle.std.specs.Prelude.{◌≡◌, ◌++◌, codes, IfOk, string_bytes};
ghost use Rattle.hex.specs.Hex.{encode_lower};
ghost use Rattle.road_line.specs.EvidenceLine.{right_line, collision_line, forged_line};

use octet_text::{NoMemory, hex_of, print, text_of};
use std::alloc::Global;

/// Returns the line of a right reply.
pub fn line_of_right(alloc: Global) -> Result<Vec<u8>, NoMemory>
    ensures { IfOk result (λ line. line.items ≡ right_line) }
{
    let text = text_of(alloc, "right\n")?;
    Ok(text.into_bytes())
}

/// Returns the line of two different texts with the same digest.
pub fn line_of_collision(alloc: Global, left: &[u8], right: &[u8]) -> Result<Vec<u8>, NoMemory>
    ensures { IfOk result (λ line. line.items ≡ collision_line left.now right.now) }
{
    let text = in_hex(alloc, "collision", left, right)?;
    Ok(text.into_bytes())
}

/// Returns the line of a header that its owner did not sign, with the header's signature.
pub fn line_of_forged(alloc: Global, header: &[u8], signature: &[u8]) -> Result<Vec<u8>, NoMemory>
    ensures { IfOk result (λ line. line.items ≡ forged_line header.now signature.now) }
{
    let text = in_hex(alloc, "forged", header, signature)?;
    Ok(text.into_bytes())
}

/// Returns a line with a name and two texts in hex.
fn in_hex(alloc: Global, name: &str, first: &[u8], second: &[u8]) -> Result<String, NoMemory>
    ensures { IfOk result (λ text.
        string_bytes text ≡ name.now ++ codes " " ++ encode_lower first.now ++ codes " " ++
        encode_lower second.now ++ codes "\n") }
{
    let left = hex_of(alloc, first)?;
    let right = hex_of(alloc, second)?;
    let mut text = String::new(alloc);
    print(&mut text, format_args!("{name} {left} {right}\n"))?;
    Ok(text)
}
