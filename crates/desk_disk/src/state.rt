//! How the desk's file is opened.
ghost use Rattle.std.specs.Prelude.{◌≡◌, ◌+◌, ◌≤◌, ◌∷◌, List, ℕ, length, false, true, is_some, IfOk, IfErr, IsErr, OnOk, OnErr};
ghost use Rattle.outside.specs.Called.{Called, Refuses, count_of, creations, is_behind_look, looks_first, syncs, was_missing};
ghost use Rattle.outside.specs.Calls.{noted_write};
ghost use Rattle.desk_disk.specs.Opening.{IsNotOpenedFor, Looked, TellsShut, is_absent_so, was_open};
ghost use Rattle.desk_disk.specs.States.{is_absent, is_found, is_read_only, is_unseen, is_writable};
ghost use Rattle.desk_disk.specs.declared.handle.TheConstants.{DESK};

use crate::handle::{DESK, looked, settled};
use crate::unsafe_desk::{Unsafe, fault_of, is_of_mode};
use outside::NotedDisk;
use std::fs::File;
use std::io::{self, ErrorKind};
use std::rt::Files;

/// What is known about the desk's file.
#[derive(Clone, Copy, Debug, PartialEq, Eq)]
pub enum State {
    /// The file has not been looked at.
    Unseen,
    /// The file did not exist.
    Absent,
    /// A command that only reads has opened it. It was found to be the user's own, with this fault of its mode.
    Own(Option<Unsafe>),
    /// A command that writes has opened it. It was found to be safe. Whether others could read it until then.
    Seen(bool),
}

/// Why a file was not opened.
pub enum NotOpened {
    /// The system refused it, for this reason.
    Failed(io::Error),
    /// It is not safe as a desk.
    Unsafe(Unsafe),
}

impl From<io::Error> for NotOpened {
    ghost use Rattle.desk_disk.specs.declared.state.NotOpened.TheVariants.{Failed};

    ghost from_gives = { λ e why. why ≡ Failed e };

    fn from(e: io::Error) -> NotOpened {
        NotOpened::Failed(e)
    }
}

/// Looks at the desk's name, without following a link. Returns why its file is not safe, or `None` if it is safe or no
/// file has the name.
fn fault_of_name<R: Files<File = File> + Drop>(
    disk: &mut NotedDisk<R>,
) -> io::Result<Option<Unsafe>>
    ensures history { disk.new.history.events ≡ disk.old.history.events }
    ensures more { length disk.old.names.calls.events ≤ length disk.new.names.calls.events }
    ensures first { looks_first disk.old.names.calls.events ≡ true →
        looks_first disk.new.names.calls.events ≡ true }
    ensures missing { (absent : List ℕ) → was_missing absent disk.old.names.calls.events ≡ true →
        was_missing absent disk.new.names.calls.events ≡ true }
    ensures syncs { syncs disk.new.names.calls.events ≡ syncs disk.old.names.calls.events }
    ensures creations { creations disk.new.names.calls.events ≡
        creations disk.old.names.calls.events }
    ensures unshut { count_of 15 disk.new.names.calls.events ≡
        count_of 15 disk.old.names.calls.events }
    ensures looked { OnOk result (is_behind_look DESK.now disk.new.names.calls.events ≡ true) }
    ensures shown { IfOk result (λ fault. is_some fault ≡ true →
        Looked disk.old.names.calls.events disk.new.names.calls.events) }
    ensures refused { OnErr result
        (Refuses disk.old.names.calls.events disk.new.names.calls.events) }
{
    let user = disk.user();
    match disk.look_at_link(DESK) {
        Ok(named) => Ok(fault_of(named, user)),
        Err(e) if e.kind() == ErrorKind::NotFound => Ok(None),
        Err(e) => Err(e),
    }
}

/// Opens and locks the file for a command that writes to it: the file itself, never a link, and only if it is safe.
pub fn open_seen<R: Files<File = File> + Drop>(disk: &mut NotedDisk<R>) -> Result<State, NotOpened>
    ensures written { IfOk result (λ state. is_read_only state ≡ false) }
    ensures found { IfOk result (λ state.
        is_found state disk.new.names.answers.events ≡ true) }
    ensures history { disk.new.history.events ≡ disk.old.history.events }
    ensures begun { IfOk result (λ state. is_unseen state ≡ false) }
    ensures more { length disk.old.names.calls.events ≤ length disk.new.names.calls.events }
    ensures first { looks_first disk.old.names.calls.events ≡ true →
        looks_first disk.new.names.calls.events ≡ true }
    ensures missing { (absent : List ℕ) → was_missing absent disk.old.names.calls.events ≡ true →
        was_missing absent disk.new.names.calls.events ≡ true }
    ensures syncs { syncs disk.new.names.calls.events ≡ syncs disk.old.names.calls.events }
    ensures creations { creations disk.new.names.calls.events ≡
        creations disk.old.names.calls.events }
    ensures unopened { IfErr result (λ why.
        IsNotOpenedFor why disk.old.names.calls.events disk.new.names.calls.events) }
    ensures absent { IfOk result (λ state.
        is_absent_so DESK.now state disk.new.names.calls.events ≡ true) }
    ensures told { IfOk result (λ state.
        TellsShut (was_open state) disk.old.names.calls.events disk.new.names.calls.events) }
{
    match fault_of_name(disk)? {
        None | Some(Unsafe::Readable) => {}
        Some(why) => return Err(NotOpened::Unsafe(why)),
    }
    match disk.open(DESK) {
        Ok(opened) => {
            disk.hold(opened)?;
            seen(disk)
        }
        Err(e) if e.kind() == ErrorKind::NotFound => Ok(State::Absent),
        Err(e) => Err(NotOpened::Failed(e)),
    }
}

/// Creates and locks the file. Fails if another process has created the file in the meantime.
pub fn make<R: Files<File = File> + Drop>(disk: &mut NotedDisk<R>) -> Result<State, NotOpened>
    ensures written { IfOk result (λ state. is_read_only state ≡ false) }
    ensures found { IfOk result (λ state.
        is_found state disk.new.names.answers.events ≡ true) }
    ensures history { disk.new.history.events ≡ disk.old.history.events }
    ensures more { length disk.old.names.calls.events ≤ length disk.new.names.calls.events }
    ensures first { looks_first disk.old.names.calls.events ≡ true →
        looks_first disk.new.names.calls.events ≡ true }
    ensures missing { (absent : List ℕ) → was_missing absent disk.old.names.calls.events ≡ true →
        was_missing absent disk.new.names.calls.events ≡ true }
    ensures syncs { syncs disk.new.names.calls.events ≡ syncs disk.old.names.calls.events }
    ensures creations { creations disk.new.names.calls.events ≡
        creations disk.old.names.calls.events + 1 }
    ensures unopened { IfErr result (λ why.
        IsNotOpenedFor why disk.old.names.calls.events disk.new.names.calls.events) }
    ensures told { IfOk result (λ state.
        TellsShut (was_open state) disk.old.names.calls.events disk.new.names.calls.events) }
    ensures made { IfOk result (λ state. is_writable state ≡ true) }
{
    let opened = disk.create(DESK)?;
    disk.hold(opened)?;
    seen(disk)
}

/// Looks at a file that was opened and locked. If it is not safe, closes it.
fn seen<R: Files<File = File> + Drop>(disk: &mut NotedDisk<R>) -> Result<State, NotOpened>
    ensures written { IfOk result (λ state. is_read_only state ≡ false) }
    ensures found { IfOk result (λ state.
        is_found state disk.new.names.answers.events ≡ true) }
    ensures history { disk.new.history.events ≡ disk.old.history.events }
    ensures more { length disk.old.names.calls.events ≤ length disk.new.names.calls.events }
    ensures first { looks_first disk.old.names.calls.events ≡ true →
        looks_first disk.new.names.calls.events ≡ true }
    ensures missing { (absent : List ℕ) → was_missing absent disk.old.names.calls.events ≡ true →
        was_missing absent disk.new.names.calls.events ≡ true }
    ensures syncs { syncs disk.new.names.calls.events ≡ syncs disk.old.names.calls.events }
    ensures creations { creations disk.new.names.calls.events ≡
        creations disk.old.names.calls.events }
    ensures unopened { IfErr result (λ why.
        IsNotOpenedFor why disk.old.names.calls.events disk.new.names.calls.events) }
    ensures told { IfOk result (λ state.
        TellsShut (was_open state) disk.old.names.calls.events disk.new.names.calls.events) }
    ensures seen { IfOk result (λ state. is_writable state ≡ true) }
{
    let (fault, was_readable) = settled(disk, DESK)?;
    match fault {
        None => Ok(State::Seen(was_readable)),
        Some(why) => {
            disk.close();
            Err(NotOpened::Unsafe(why))
        }
    }
}

/// Opens and locks the file for a command that only reads: the file itself, never a link, and only if at most its
/// mode is at fault. Opens it for writing if possible, or else for reading.
pub fn open_own<R: Files<File = File> + Drop>(disk: &mut NotedDisk<R>) -> Result<State, NotOpened>
    ensures found { IfOk result (λ state.
        is_found state disk.new.names.answers.events ≡ true) }
    ensures history { disk.new.history.events ≡ disk.old.history.events }
    ensures begun { IfOk result (λ state. is_unseen state ≡ false) }
    ensures more { length disk.old.names.calls.events ≤ length disk.new.names.calls.events }
    ensures first { looks_first disk.old.names.calls.events ≡ true →
        looks_first disk.new.names.calls.events ≡ true }
    ensures missing { (absent : List ℕ) → was_missing absent disk.old.names.calls.events ≡ true →
        was_missing absent disk.new.names.calls.events ≡ true }
    ensures syncs { syncs disk.new.names.calls.events ≡ syncs disk.old.names.calls.events }
    ensures creations { creations disk.new.names.calls.events ≡
        creations disk.old.names.calls.events }
    ensures unopened { IfErr result (λ why.
        IsNotOpenedFor why disk.old.names.calls.events disk.new.names.calls.events) }
    ensures absent { IfOk result (λ state.
        is_absent_so DESK.now state disk.new.names.calls.events ≡ true) }
{
    match fault_of_name(disk)? {
        Some(why) if !is_of_mode(Some(why)) => return Err(NotOpened::Unsafe(why)),
        _ => {}
    }
    match disk.open(DESK) {
        Ok(opened) => disk.hold(opened)?,
        Err(e) if e.kind() == ErrorKind::NotFound => return Ok(State::Absent),
        Err(e) if is_refused(e.kind()) => disk.open_to_read(DESK)?,
        Err(e) => return Err(NotOpened::Failed(e)),
    }
    own(disk)
}

/// Looks at a file that was opened and locked. If more than its mode is at fault, closes it.
#[tactic(auto, using(crate::proofs::Found::found_own))]
fn own<R: Files<File = File> + Drop>(disk: &mut NotedDisk<R>) -> Result<State, NotOpened>
    ensures found { IfOk result (λ state.
        is_found state disk.new.names.answers.events ≡ true) }
    ensures history { disk.new.history.events ≡ disk.old.history.events }
    ensures begun { IfOk result (λ state. is_unseen state ≡ false) }
    ensures more { length disk.old.names.calls.events ≤ length disk.new.names.calls.events }
    ensures first { looks_first disk.old.names.calls.events ≡ true →
        looks_first disk.new.names.calls.events ≡ true }
    ensures missing { (absent : List ℕ) → was_missing absent disk.old.names.calls.events ≡ true →
        was_missing absent disk.new.names.calls.events ≡ true }
    ensures syncs { syncs disk.new.names.calls.events ≡ syncs disk.old.names.calls.events }
    ensures creations { creations disk.new.names.calls.events ≡
        creations disk.old.names.calls.events }
    ensures unopened { IfErr result (λ why.
        IsNotOpenedFor why disk.old.names.calls.events disk.new.names.calls.events) }
    ensures own { IfOk result (λ state. is_absent state ≡ false) }
{
    let fault = looked(disk, DESK)?;
    match fault {
        Some(why) if !is_of_mode(fault) => {
            disk.close();
            Err(NotOpened::Unsafe(why))
        }
        _ => Ok(State::Own(fault)),
    }
}

/// Tests whether the error means that the file exists but cannot be written.
fn is_refused(kind: ErrorKind) -> bool {
    matches!(
        kind,
        ErrorKind::PermissionDenied | ErrorKind::ReadOnlyFilesystem
    )
}

/// Writes octets from an offset on, only to a file that was found to be safe. The write or its failure is noted.
pub fn write<R: Files<File = File> + Drop>(
    disk: &mut NotedDisk<R>,
    state: State,
    at: u64,
    octets: &[u8],
) -> io::Result<()>
    ensures seen { is_writable state ≡ false → IsErr result }
    ensures noted { disk.new.history.events ≡
        noted_write result at octets.now ∷ disk.old.history.events }
    ensures answers { disk.new.names.answers.events ≡ disk.old.names.answers.events }
    ensures called { is_writable state ≡ true →
        Called 12 octets.now result disk.old.names.calls.events disk.new.names.calls.events }
    ensures unasked { is_writable state ≡ false →
        disk.new.names.calls.events ≡ disk.old.names.calls.events }
{
    let kind = match state {
        State::Seen(_) => return disk.write_at(at, octets),
        State::Own(_) => ErrorKind::PermissionDenied,
        State::Unseen | State::Absent => ErrorKind::NotFound,
    };
    disk.refuse(at, octets);
    Err(io::Error::from(kind))
}
