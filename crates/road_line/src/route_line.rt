//! The line of a route.

ghost use Rattle.std.specs.Prelude.{◌≡◌, ◌++◌, IfOk, OnOk, string_bytes};
ghost use Rattle.std.specs.List.{flat_map};
ghost use Rattle.road_line.specs.RouteLine.{route_line, spaced};

use octet_text::{NoMemory, print, push_str};
use std::alloc::Global;

/// Returns the line of a route: its length, a colon, and a space and an id for each node.
pub fn line_of_route(alloc: Global, length: u64, route: &[u32]) -> Result<Vec<u8>, NoMemory>
    ensures { IfOk result (λ text. text.items ≡ route_line length route.now) }
{
    let mut text = String::new(alloc);
    print_route(&mut text, length, route)?;
    Ok(text.into_bytes())
}

/// Appends the line of a route.
pub fn print_route(text: &mut String, length: u64, route: &[u32]) -> Result<(), NoMemory>
    ensures { OnOk result (string_bytes text.new ≡ string_bytes text.old ++ route_line length
        route.now) }
{
    print(text, format_args!("{length}:"))?;
    print_ids(text, route)?;
    push_str(text, "\n")?;
    Ok(())
}

fn print_ids(text: &mut String, ids: &[u32]) -> Result<(), NoMemory>
    ensures { OnOk result (string_bytes text.new ≡ string_bytes text.old ++ flat_map spaced
        ids.now) }
{
    for id in ids {
        print(text, format_args!(" {id}"))?;
    }
    Ok(())
}
