//! The owner's mirrors: the existing files among `mirror-1` to `mirror-8` of the working folder.
ghost use Rattle.std.specs.Prelude.{◌≡◌, [], IfOk};
ghost use Rattle.road_command.specs.Requests.{request_of};
ghost use Rattle.desk_guard.specs.Asking.{IsPublish};

use crate::owner_mirror::{OwnerMirror, mirror_of};
use octet_text::{NoMemory, print, push};
use road_command::{Command, Words, command_of};
use std::alloc::Global;
use std::fs::File;
use std::rt::Files;

/// The greatest label of a mirror.
const MOST: u32 = 8;

/// If the words request `publish`, opens a mirror in each of the existing files, labelled by its number. No other
/// command looks at these files. The octets that a mirror takes are appended to its file.
pub fn mirrors_for<R: Files<File = File>>(
    rt: &R,
    alloc: Global,
    words: &Words,
) -> Result<Vec<OwnerMirror>, NoMemory>
    ensures others { (IsPublish (request_of words.now) → ⊥) →
        IfOk result (λ found. found.items ≡ []) }
{
    match command_of(words) {
        Some(Command::Publish { .. }) => mirrors_there(rt, alloc),
        _ => Ok(Vec::new(alloc)),
    }
}

/// Opens a mirror in each of the existing files.
fn mirrors_there<R: Files<File = File>>(
    rt: &R,
    alloc: Global,
) -> Result<Vec<OwnerMirror>, NoMemory> {
    let mut mirrors: Vec<OwnerMirror> = Vec::new(alloc);
    for label in 1..=MOST {
        let mut name = String::new(alloc);
        print(&mut name, format_args!("mirror-{label}"))?;
        if let Some(mirror) = mirror_of(rt, label, name.as_str(), "owner.desk") {
            push(&mut mirrors, mirror)?;
        }
    }
    Ok(mirrors)
}
