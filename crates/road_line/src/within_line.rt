//! The line of the nodes within a radius.

ghost use Rattle.std.specs.Prelude.{◌≡◌, ◌++◌, IfOk, OnOk, string_bytes};
ghost use Rattle.std.specs.List.{flat_map};
ghost use Rattle.road_line.specs.WithinLine.{within_line, spaced_id};

use octet_text::{NoMemory, print, push_str, text_of};
use proof_octets::Mark;
use std::alloc::Global;

/// Returns the line of the nodes within a radius: their number, a colon, and a space and an id for each node.
pub fn line_of_within(alloc: Global, nodes: &[Mark]) -> Result<Vec<u8>, NoMemory>
    ensures { IfOk result (λ text. text.items ≡ within_line nodes.now) }
{
    let text = within(alloc, nodes)?;
    Ok(text.into_bytes())
}

fn within(alloc: Global, nodes: &[Mark]) -> Result<String, NoMemory>
    ensures { IfOk result (λ text. string_bytes text ≡ within_line nodes.now) }
{
    let mut text = text_of(alloc, "within ")?;
    let count = nodes.len();
    print(&mut text, format_args!("{count}:"))?;
    print_nodes(&mut text, nodes)?;
    push_str(&mut text, "\n")?;
    Ok(text)
}

fn print_nodes(text: &mut String, nodes: &[Mark]) -> Result<(), NoMemory>
    ensures { OnOk result (string_bytes text.new ≡ string_bytes text.old ++ flat_map spaced_id
        nodes.now) }
{
    for node in nodes {
        let id = node.id;
        print(text, format_args!(" {id}"))?;
    }
    Ok(())
}
