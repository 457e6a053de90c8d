//! The lines of reduced forgeries.

ghost use Rattle.std.specs.Prelude.{◌≡◌, IfOk, string_bytes};
ghost use Rattle.audit_commands.specs.ReduceLine.{chain_line, reduced_line, signed_line};

use lms_reduce::Reduced;
use octet_text::{Digest32, NoMemory, hex_of, print};
use road_line::line_of_collision;
use std::alloc::Global;

/// Returns the line of a collision, or of a value of a hash chain.
pub fn line_of_reduced(alloc: Global, reduced: &Reduced) -> Result<Vec<u8>, NoMemory>
    ensures { IfOk result (λ line. line.items ≡ reduced_line reduced.now) }
{
    match reduced {
        Reduced::Collision { left, right } => {
            line_of_collision(alloc, left.as_slice(), right.as_slice())
        }
        Reduced::Chain {
            slot,
            at,
            step,
            value,
        } => line_of_chain(alloc, *slot, *at, *step, value),
    }
}

/// Returns the line of a slot that has signed the same text.
pub fn line_of_signed(alloc: Global, slot: u32) -> Result<Vec<u8>, NoMemory>
    ensures { IfOk result (λ line. line.items ≡ signed_line slot) }
{
    let text = signed(alloc, slot)?;
    Ok(text.into_bytes())
}

/// Returns the line of a value of a one-time key's hash chain.
fn line_of_chain(
    alloc: Global,
    slot: u32,
    at: u16,
    step: u8,
    value: &Digest32,
) -> Result<Vec<u8>, NoMemory>
    ensures { IfOk result (λ line. line.items ≡ chain_line slot at step value.now) }
{
    let text = chain(alloc, slot, at, step, value)?;
    Ok(text.into_bytes())
}

fn signed(alloc: Global, slot: u32) -> Result<String, NoMemory>
    ensures { IfOk result (λ text. string_bytes text ≡ signed_line slot) }
{
    let mut text = String::new(alloc);
    print(&mut text, format_args!("signed {slot}\n"))?;
    Ok(text)
}

fn chain(alloc: Global, slot: u32, at: u16, step: u8, value: &Digest32) -> Result<String, NoMemory>
    ensures { IfOk result (λ text. string_bytes text ≡ chain_line slot at step value.now) }
{
    let digits = hex_of(alloc, value)?;
    let mut text = String::new(alloc);
    print(
        &mut text,
        format_args!("chain {slot} {at} {step} {digits}\n"),
    )?;
    Ok(text)
}
