//! The owner's desk as a disk.
ghost use Rattle.std.specs.Prelude.{◌≡◌, ◌+◌, ◌≤◌, [], ◌∷◌, ◌&&◌, List, ℕ, false, true, IfOk, IfErr, OnOk, OnErr, length};
ghost use Rattle.outside.specs.Called.{Adds, Refuses, creations, looks_first, syncs, was_missing};
ghost use Rattle.outside.specs.Calls.{noted_sync, noted_write};
ghost use Rattle.road_io.specs.Causes.{HasCause, Rose, RoseBy};
ghost use Rattle.desk_disk.specs.Opening.{FailsFor, IsKeptFor, IsNotOpenedFor, fault_in, is_absent_so, was_open};
ghost use Rattle.desk_disk.specs.States.{is_found, is_read_only, is_unseen, is_writable, WasFound};
ghost use Rattle.desk_disk.specs.declared.handle.TheConstants.{DESK};

use crate::state::{NotOpened, State, make, open_own, open_seen, write};
use crate::unsafe_desk::Unsafe;
use outside::{NotedDisk, Record};
use road_io::{Disk, Failed};
use std::fs::File;
use std::io;
use std::rt::Files;

/// The file `owner.desk` of the working folder as a disk, for one process at a time.
///
/// The first call opens the file and locks it until the disk is dropped. If another process has locked the file,
/// each call fails with `ErrorKind::WouldBlock`. If the file does not exist, the disk is empty, and the first write
/// creates a file that only its owner may read and write.
///
/// The file itself is opened, never a link, and only if the file is safe: after the opening, the system must answer
/// that the handle is a regular file and not a link, has one name and belongs to the user. For a command that writes,
/// it must also be closed to others. For a command that only reads, nothing is written.
///
/// Each error counts as a disk error. So does a range that does not end within the file, and a write that starts
/// past the end of the file.
#[derive(Drop)]
pub struct DeskDisk<R: Files<File = File> + Drop> {
    disk: NotedDisk<R>,
    writes: bool,
    state: State,
    faults: u64,
    calls: u64,
    last_error: Option<io::Error>,
    why_unsafe: Option<Unsafe>,
    world: Record,
    pub ghost seen: { (writes && is_read_only state) ≡ false },
    pub ghost found: { is_found state disk.names.answers.events ≡ true },
    pub ghost first: { looks_first disk.names.calls.events ≡ true },
    pub ghost absent: { is_absent_so DESK.now state disk.names.calls.events ≡ true },
}

impl<R: Files<File = File> + Drop> DeskDisk<R> {
    /// Makes the desk, for a command that writes to it or for one that only reads. Does not look at the file yet. The
    /// desk may be in any world.
    pub fn new(rt: R, writes: bool) -> DeskDisk<R>
        ensures writes { result.writes ≡ writes }
        ensures history { result.disk.history.events ≡ [] }
        ensures asked { result.disk.names.calls.events ≡ [] }
        ensures faults { result.faults ≡ 0 }
        ensures calls { result.calls ≡ 0 }
    {
        DeskDisk {
            disk: NotedDisk::new(rt),
            writes,
            state: State::Unseen,
            faults: 0,
            calls: 0,
            last_error: None,
            why_unsafe: None,
            world: Record::new(),
        }
    }

    /// Returns the system's reason for the disk's last failure, if it failed.
    pub fn last_error(&self) -> Option<io::Error> {
        self.last_error
    }

    /// Returns why the file is not safe as a desk, if this is why it was not opened.
    pub fn why_unsafe(&self) -> Option<Unsafe> {
        self.why_unsafe
    }

    /// Tests whether others could read the file until it was opened. From then on they cannot.
    pub fn was_readable(&self) -> bool
        ensures { result ≡ was_open self.now.state }
    {
        self.state == State::Seen(true)
    }

    /// Returns what is at fault with the mode of the file, if a command that only reads has opened it. The fault is left.
    pub fn fault_left(&self) -> Option<Unsafe>
        ensures { result ≡ fault_in self.now.state }
    {
        match self.state {
            State::Own(fault) => fault,
            _ => None,
        }
    }

    /// States what was found of the file after its opening.
    #[tactic(auto, using(crate::proofs::Found::found))]
    pub fn was_found(&self)
        ensures { WasFound self.now.state self.now.disk.names.answers.events }
    {}

    // Begins a call: counts the call, and opens the file if it is not open yet.
    #[tactic(auto, using(crate::proofs::Failing::unopened_fails))]
    fn begin(&mut self) -> Result<(), Failed>
        ensures cause { HasCause self.old.faults self.new.faults result }
        ensures kept { OnOk result (self.new.faults ≡ self.old.faults) }
        ensures counted { RoseBy 1 self.old.calls self.new.calls }
        ensures noted { self.new.disk.history.events ≡ self.old.disk.history.events }
        ensures world { self.new.world.events ≡ self.old.world.events }
        ensures writes { self.new.writes ≡ self.old.writes }
        ensures begun { OnOk result (is_unseen self.new.state ≡ false) }
        ensures failed { OnErr result (FailsFor self.new.why_unsafe self.old.disk.names.calls.events
            self.new.disk.names.calls.events) }
        ensures more { length self.old.disk.names.calls.events ≤ length self.new.disk.names.calls.events }
        ensures syncs { syncs self.new.disk.names.calls.events ≡ syncs self.old.disk.names.calls.events }
        ensures creations { creations self.new.disk.names.calls.events ≡ creations self.old.disk.names.calls.events }
    {
        self.calls = self.calls.saturating_add(1);
        if let State::Unseen = self.state {
            match opened(&mut self.disk, self.writes) {
                Ok(state) => self.take(state),
                Err(why) => return Err(self.unopened(why)),
            }
        }
        Ok(())
    }

    // Stores the state after an opening.
    fn take(&mut self, state: State)
        requires written { (self.old.writes && is_read_only state) ≡ false }
        requires found { is_found state self.old.disk.names.answers.events ≡ true }
        requires absent { is_absent_so DESK.now state self.old.disk.names.calls.events ≡ true }
        ensures state { self.new.state ≡ state }
        ensures faults { self.new.faults ≡ self.old.faults }
        ensures same { self.new.calls ≡ self.old.calls }
        ensures noted { self.new.disk.history.events ≡ self.old.disk.history.events }
        ensures world { self.new.world.events ≡ self.old.world.events }
        ensures writes { self.new.writes ≡ self.old.writes }
        ensures asked { self.new.disk.names.calls.events ≡ self.old.disk.names.calls.events }
    {
        self.state = state;
    }

    // Counts a failure of an opening and keeps its reason.
    fn unopened(&mut self, why: NotOpened) -> Failed
        ensures why { IsKeptFor why self.new.why_unsafe }
        ensures cause { Rose self.old.faults self.new.faults }
        ensures later { self.old.faults ≤ self.new.faults }
        ensures same { self.new.calls ≡ self.old.calls }
        ensures noted { self.new.disk.history.events ≡ self.old.disk.history.events }
        ensures world { self.new.world.events ≡ self.old.world.events }
        ensures writes { self.new.writes ≡ self.old.writes }
        ensures asked { self.new.disk.names.calls.events ≡ self.old.disk.names.calls.events }
        ensures state { self.new.state ≡ self.old.state }
    {
        match why {
            NotOpened::Failed(e) => self.failed(e),
            NotOpened::Unsafe(why) => {
                self.why_unsafe = Some(why);
                self.failed(io::Error::from(io::ErrorKind::PermissionDenied))
            }
        }
    }

    // Writes octets. Counts a failure if the write failed.
    fn put(&mut self, at: u64, octets: &[u8]) -> Result<(), Failed>
        ensures noted { self.new.disk.history.events ≡
            noted_write result at octets.now ∷ self.old.disk.history.events }
        ensures world { self.new.world.events ≡ self.old.world.events }
        ensures cause { HasCause self.old.faults self.new.faults result }
        ensures kept { OnOk result (self.new.faults ≡ self.old.faults) }
        ensures same { self.new.calls ≡ self.old.calls }
        ensures asked { is_writable self.old.state ≡ true →
            Adds 12 octets.now self.old.disk.names.calls.events self.new.disk.names.calls.events }
        ensures refused { is_writable self.old.state ≡ true → OnErr result
            (Refuses self.old.disk.names.calls.events self.new.disk.names.calls.events) }
        ensures unasked { is_writable self.old.state ≡ false → self.new.disk.names.calls.events ≡ self.old.disk.names.calls.events }
        ensures state { self.new.state ≡ self.old.state }
    {
        match write(&mut self.disk, self.state, at, octets) {
            Ok(()) => Ok(()),
            Err(e) => Err(self.failed(e)),
        }
    }

    // Syncs. Counts a failure if the sync failed.
    fn settle(&mut self) -> Result<(), Failed>
        ensures noted { self.new.disk.history.events ≡
            noted_sync result ∷ self.old.disk.history.events }
        ensures world { self.new.world.events ≡ self.old.world.events }
        ensures cause { HasCause self.old.faults self.new.faults result }
        ensures kept { OnOk result (self.new.faults ≡ self.old.faults) }
        ensures same { self.new.calls ≡ self.old.calls }
        ensures asked { Adds 13 [] self.old.disk.names.calls.events
            self.new.disk.names.calls.events }
        ensures refused { OnErr result
            (Refuses self.old.disk.names.calls.events self.new.disk.names.calls.events) }
    {
        match self.disk.sync() {
            Ok(()) => Ok(()),
            Err(e) => Err(self.failed(e)),
        }
    }

    // Counts a failure and keeps its reason.
    fn failed(&mut self, e: io::Error) -> Failed
        ensures cause { Rose self.old.faults self.new.faults }
        ensures later { self.old.faults ≤ self.new.faults }
        ensures same { self.new.calls ≡ self.old.calls }
        ensures noted { self.new.disk.history.events ≡ self.old.disk.history.events }
        ensures world { self.new.world.events ≡ self.old.world.events }
        ensures writes { self.new.writes ≡ self.old.writes }
        ensures asked { self.new.disk.names.calls.events ≡ self.old.disk.names.calls.events }
        ensures state { self.new.state ≡ self.old.state }
        ensures why { self.new.why_unsafe ≡ self.old.why_unsafe }
    {
        self.faults = self.faults.saturating_add(1);
        self.last_error = Some(e);
        Failed
    }
}

// Opens the desk's file, for a command that writes to it or for one that only reads.
fn opened<R: Files<File = File> + Drop>(
    disk: &mut NotedDisk<R>,
    writes: bool,
) -> Result<State, NotOpened>
    ensures written { IfOk result (λ state. (writes && is_read_only state) ≡ false) }
    ensures found { IfOk result (λ state.
        is_found state disk.new.names.answers.events ≡ true) }
    ensures history { disk.new.history.events ≡ disk.old.history.events }
    ensures begun { IfOk result (λ state. is_unseen state ≡ false) }
    ensures first { looks_first disk.old.names.calls.events ≡ true →
        looks_first disk.new.names.calls.events ≡ true }
    ensures missing { (absent : List ℕ) → was_missing absent disk.old.names.calls.events ≡ true →
        was_missing absent disk.new.names.calls.events ≡ true }
    ensures unopened { IfErr result (λ why.
        IsNotOpenedFor why disk.old.names.calls.events disk.new.names.calls.events) }
    ensures absent { IfOk result (λ state.
        is_absent_so DESK.now state disk.new.names.calls.events ≡ true) }
    ensures more { length disk.old.names.calls.events ≤ length disk.new.names.calls.events }
    ensures syncs { syncs disk.new.names.calls.events ≡ syncs disk.old.names.calls.events }
    ensures creations { creations disk.new.names.calls.events ≡
        creations disk.old.names.calls.events }
{
    if writes {
        open_seen(disk)
    } else {
        open_own(disk)
    }
}

impl<R: Files<File = File> + Drop> Disk for DeskDisk<R> {
    ghost use Rattle.std.specs.Prelude.{Some, IsSomeAnd, take, drop};
    ghost use Rattle.std.specs.Option.{ForSome, option_map};
    ghost use Rattle.road_io.specs.Disk.{written, Narrows, Passes, Stays, Torn};
    ghost use Rattle.road_io.specs.Worlds.{reads, LeavesAt, reads_left_now};
    ghost use Rattle.desk_disk.specs.Opening.{FailsToWrite};

    ghost content = { λ d. reads d.world.events d.disk.history.events };

    ghost clock = { λ d. length d.disk.history.events };

    ghost image_at = { λ d k i. LeavesAt d.world.events d.disk.history.events k i };

    ghost faults = { λ d. d.faults };

    ghost calls = { λ d. d.calls };

    ghost reads_image = { λ d c is. reads_left_now d.world.events d.disk.history.events c is };

    ghost image_tells = { λ d i h. (h.now, h.agrees) };

    #[tactic(auto, using(crate::proofs::Failing::refused_fails))]
    fn len(&mut self) -> Result<u64, Failed>
        ensures length { IfOk result (λ n. ForSome (reads self.new.world.events self.new.disk.history.events) (λ c. n ≡ length c)) }
        ensures content { Narrows (reads self.old.world.events self.old.disk.history.events)
            (reads self.new.world.events self.new.disk.history.events) }
        ensures moments { Passes (λ d. length d.disk.history.events)
            (λ d k i. LeavesAt d.world.events d.disk.history.events k i) self.old self.new Stays }
        ensures kept { OnOk result (self.new.faults ≡ self.old.faults) }
        ensures cause { HasCause self.old.faults self.new.faults result }
        ensures counted { RoseBy 1 self.old.calls self.new.calls }
        ensures failed { OnErr result (FailsFor self.new.why_unsafe self.old.disk.names.calls.events
            self.new.disk.names.calls.events) }
        ensures syncs { syncs self.new.disk.names.calls.events ≡ syncs self.old.disk.names.calls.events }
        ensures creations { creations self.new.disk.names.calls.events ≡ creations self.old.disk.names.calls.events }
    {
        self.begin()?;
        match self.disk.len() {
            Ok(count) => Ok(count),
            Err(e) => Err(self.failed(e)),
        }
    }

    #[tactic(auto, using(crate::proofs::Failing::refused_fails))]
    fn read_at(&mut self, at: u64, into: &mut [u8]) -> Result<(), Failed>
        ensures octets { OnOk result (ForSome (reads self.new.world.events self.new.disk.history.events)
            (λ c. into.new ≡ take (length into.old) (drop at c))) }
        ensures content { Narrows (reads self.old.world.events self.old.disk.history.events)
            (reads self.new.world.events self.new.disk.history.events) }
        ensures moments { Passes (λ d. length d.disk.history.events)
            (λ d k i. LeavesAt d.world.events d.disk.history.events k i) self.old self.new Stays }
        ensures kept { OnOk result (self.new.faults ≡ self.old.faults) }
        ensures cause { HasCause self.old.faults self.new.faults result }
        ensures counted { RoseBy 1 self.old.calls self.new.calls }
        ensures failed { OnErr result (FailsFor self.new.why_unsafe self.old.disk.names.calls.events
            self.new.disk.names.calls.events) }
        ensures syncs { syncs self.new.disk.names.calls.events ≡ syncs self.old.disk.names.calls.events }
        ensures creations { creations self.new.disk.names.calls.events ≡ creations self.old.disk.names.calls.events }
    {
        self.begin()?;
        match self.disk.read_at(at, into) {
            Ok(()) => Ok(()),
            Err(e) => Err(self.failed(e)),
        }
    }

    #[tactic(auto, using(crate::proofs::Failing::unopened_later))]
    fn write_at(&mut self, at: u64, octets: &[u8]) -> Result<(), Failed>
        ensures written { OnOk result (reads self.new.world.events self.new.disk.history.events ≡
            option_map (written at octets.now) (reads self.old.world.events self.old.disk.history.events)) }
        ensures torn { OnErr result (ForSome (reads self.new.world.events self.new.disk.history.events)
            (λ c. IsSomeAnd (reads self.old.world.events self.old.disk.history.events)
            (λ b. Torn at (length octets.now) b c))) }
        ensures moments { Passes (λ d. length d.disk.history.events)
            (λ d k i. LeavesAt d.world.events d.disk.history.events k i) self.old self.new (Torn at (length octets.now)) }
        ensures kept { OnOk result (self.new.faults ≡ self.old.faults) }
        ensures cause { HasCause self.old.faults self.new.faults result }
        ensures counted { RoseBy 1 self.old.calls self.new.calls }
        ensures failed { OnErr result (FailsToWrite self.new.state self.new.why_unsafe
            self.old.disk.names.calls.events self.new.disk.names.calls.events) }
        ensures syncs { syncs self.new.disk.names.calls.events ≡ syncs self.old.disk.names.calls.events }
        ensures creations { creations self.new.disk.names.calls.events ≤ creations self.old.disk.names.calls.events + 1 }
    {
        self.begin()?;
        if let State::Absent = self.state {
            match make(&mut self.disk) {
                Ok(state) => self.take(state),
                Err(why) => return Err(self.unopened(why)),
            }
        }
        self.put(at, octets)
    }

    #[tactic(auto, using(crate::proofs::Failing::refused_fails))]
    fn sync(&mut self) -> Result<(), Failed>
        ensures one { OnOk result ((i : List ℕ) → LeavesAt self.new.world.events
            self.new.disk.history.events (length self.new.disk.history.events) i →
            reads self.new.world.events self.new.disk.history.events ≡ Some i) }
        ensures content { OnOk result (reads self.new.world.events self.new.disk.history.events ≡
            reads self.old.world.events self.old.disk.history.events) }
        ensures dropped { OnErr result (ForSome (reads self.new.world.events self.new.disk.history.events)
            (LeavesAt self.old.world.events self.old.disk.history.events
            (length self.old.disk.history.events))) }
        ensures moments { Passes (λ d. length d.disk.history.events)
            (λ d k i. LeavesAt d.world.events d.disk.history.events k i) self.old self.new Stays }
        ensures kept { OnOk result (self.new.faults ≡ self.old.faults) }
        ensures cause { HasCause self.old.faults self.new.faults result }
        ensures counted { RoseBy 1 self.old.calls self.new.calls }
        ensures failed { OnErr result (FailsFor self.new.why_unsafe self.old.disk.names.calls.events
            self.new.disk.names.calls.events) }
        ensures synced { OnOk result (syncs self.new.disk.names.calls.events ≡ syncs self.old.disk.names.calls.events + 1) }
        ensures syncs { syncs self.new.disk.names.calls.events ≤ syncs self.old.disk.names.calls.events + 1 }
        ensures creations { creations self.new.disk.names.calls.events ≡ creations self.old.disk.names.calls.events }
    {
        self.begin()?;
        self.settle()
    }
}
