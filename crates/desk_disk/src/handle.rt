//! Looks at the desk's file before it is used.
ghost use Rattle.std.specs.Prelude.{◌≡◌, ◌≤◌, List, ℕ, length, Ok, Some, None, true, IfOk, OnOk, OnErr};
ghost use Rattle.outside.specs.Called.{Refuses, count_of, creations, looks_first, syncs, was_missing};
ghost use Rattle.desk_disk.specs.Looks.{is_of_mode, is_seen, is_seen_own, is_seen_readable, shuts_well};
ghost use Rattle.desk_disk.specs.Opening.{Looked, TellsShut};

use crate::unsafe_desk::{Unsafe, fault_of_opened};
use outside::NotedDisk;
use std::fs::File;
use std::io;
use std::rt::Files;

/// The name of the desk's file.
pub const DESK: &str = "owner.desk";

/// Looks at a name, without following a link, and at the file that was opened by this name. Returns why the file is
/// not safe as a desk. Each answer of the system is noted.
pub fn looked<R: Files<File = File> + Drop>(
    disk: &mut NotedDisk<R>,
    name: &str,
) -> io::Result<Option<Unsafe>>
    ensures seen { result ≡ Ok None → is_seen name.now disk.new.names.answers.events ≡ true }
    ensures readable { result ≡ Ok (Some Unsafe.Readable) →
        is_seen_readable name.now disk.new.names.answers.events ≡ true }
    ensures own { IfOk result (λ fault. is_of_mode fault ≡ true →
        is_seen_own name.now disk.new.names.answers.events ≡ true) }
    ensures shuts { shuts_well name.now disk.old.names.answers.events ≡ true →
        shuts_well name.now disk.new.names.answers.events ≡ true }
    ensures history { disk.new.history.events ≡ disk.old.history.events }
    ensures more { length disk.old.names.calls.events ≤ length disk.new.names.calls.events }
    ensures looked { OnOk result
        (Looked disk.old.names.calls.events disk.new.names.calls.events) }
    ensures refused { OnErr result
        (Refuses disk.old.names.calls.events disk.new.names.calls.events) }
    ensures first { looks_first disk.old.names.calls.events ≡ true →
        looks_first disk.new.names.calls.events ≡ true }
    ensures missing { (absent : List ℕ) → was_missing absent disk.old.names.calls.events ≡ true →
        was_missing absent disk.new.names.calls.events ≡ true }
    ensures unshut { count_of 15 disk.new.names.calls.events ≡
        count_of 15 disk.old.names.calls.events }
    ensures syncs { syncs disk.new.names.calls.events ≡ syncs disk.old.names.calls.events }
    ensures creations { creations disk.new.names.calls.events ≡
        creations disk.old.names.calls.events }
{
    let user = disk.user();
    let named = disk.look_at_link(name)?;
    let held = disk.look_at_file()?;
    Ok(fault_of_opened(named, held, user))
}

/// Looks at a file that was opened by a name. Returns why it is not safe as a desk, and whether others could read
/// it until now. If this was the only fault, denies others access and looks again.
pub fn settled<R: Files<File = File> + Drop>(
    disk: &mut NotedDisk<R>,
    name: &str,
) -> io::Result<(Option<Unsafe>, bool)>
    ensures seen { IfOk result (λ found. found.0 ≡ None →
        is_seen name.now disk.new.names.answers.events ≡ true) }
    ensures shuts { shuts_well name.now disk.old.names.answers.events ≡ true →
        shuts_well name.now disk.new.names.answers.events ≡ true }
    ensures history { disk.new.history.events ≡ disk.old.history.events }
    ensures more { length disk.old.names.calls.events ≤ length disk.new.names.calls.events }
    ensures looked { OnOk result
        (Looked disk.old.names.calls.events disk.new.names.calls.events) }
    ensures refused { OnErr result
        (Refuses disk.old.names.calls.events disk.new.names.calls.events) }
    ensures first { looks_first disk.old.names.calls.events ≡ true →
        looks_first disk.new.names.calls.events ≡ true }
    ensures missing { (absent : List ℕ) → was_missing absent disk.old.names.calls.events ≡ true →
        was_missing absent disk.new.names.calls.events ≡ true }
    ensures told { IfOk result (λ found.
        TellsShut found.1 disk.old.names.calls.events disk.new.names.calls.events) }
    ensures syncs { syncs disk.new.names.calls.events ≡ syncs disk.old.names.calls.events }
    ensures creations { creations disk.new.names.calls.events ≡
        creations disk.old.names.calls.events }
{
    match looked(disk, name)? {
        Some(Unsafe::Readable) => {
            disk.shut()?;
            Ok((looked(disk, name)?, true))
        }
        fault => Ok((fault, false)),
    }
}
