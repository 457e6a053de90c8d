//! A disk in memory, which states its contents and stores each write and sync as data.
ghost use Rattle.std.specs.Prelude.{◌≡◌, ◌↔◌, ◌+◌, ◌*◌, ◌<◌, ◌≤◌, ◌^◌, ◌-◌, [], ◌++◌, List, ℕ, Some, length, take, drop, IsTrue, IfOk, OnOk, OnErr, IsErr, IsOk, IsSomeAnd, Option, vec_len, vec_capacity, get_or, refl, replicate, min};
ghost use Rattle.std.specs.Option.{ForSome, option_map};
ghost use Rattle.road_io.specs.Disk.{written};
ghost use Rattle.mem_io.specs.Journal.{content_at, LeftAt, entry_end, entry_at, last_sync, filled_at};
ghost use Rattle.mem_io.specs.JournalLaws.{read_left};
ghost use Rattle.mem_io.specs.declared.disk.Entry.TheVariants.{Sync};

use road_io::{Disk, Failed};
use std::alloc::{AllocError, Global};

// A write. Its octets are in the journal's data.
#[derive(Clone, Copy)]
pub(crate) struct Piece {
    pub at: usize,
    pub from: usize,
    pub len: usize,
}

// A sync or a write.
#[derive(Clone, Copy)]
pub(crate) enum Entry {
    Sync,
    Write(Piece),
}

/// A disk in memory. Its calls are numbered from 0. It has room for a number of octets, and for a journal of its
/// writes and syncs; the journal's memory is reserved when the disk is made. A call fails if it is planned to fail,
/// if its number is not below the stop, or if it exceeds the room of the disk or of the journal.
#[derive(Drop)]
pub struct MemDisk {
    room: usize,
    journal: usize,
    base: Vec<u8>,
    content: Vec<u8>,
    synced: Vec<u8>,
    since: usize,
    entries: Vec<Entry>,
    octets: Vec<u8>,
    fails: Vec<u64>,
    stop: Option<u64>,
    calls: u64,
    faults: u64,
    ghost agrees: { content_at base.items entries.items octets.items
        (length entries.items) ≡ content.items },
    ghost kept: { (k : ℕ) → k < length entries.items →
        entry_end (get_or entries.items k Sync) ≤ length octets.items },
    ghost placed: { (k : ℕ) → k < length entries.items →
        entry_at (get_or entries.items k Sync) ≤ length
        (content_at base.items entries.items octets.items k) },
    ghost since_is: { last_sync entries.items (length entries.items) ≡ since },
    ghost synced_is: { content_at base.items entries.items octets.items since ≡ synced.items },
    ghost synced_fits: { length synced.items ≤ room },
    ghost fits: { length content.items ≤ room },
    ghost journal_fits: { 16 * length entries.items + length octets.items ≤ journal },
    ghost content_room: { room ≤ vec_capacity content },
    ghost base_room: { room ≤ vec_capacity base },
    ghost synced_room: { room ≤ vec_capacity synced },
    ghost octets_room: { journal ≤ vec_capacity octets },
    ghost entries_room: { journal ≤ 16 * vec_capacity entries },
}

// Overwrites octets from an index on, extending the list if needed.
fn overwrite(content: &mut Vec<u8>, at: usize, octets: &[u8])
    requires at { at ≤ length content.old.items }
    requires room { at + length octets.now ≤ vec_capacity content.old }
    ensures written { content.new.items ≡ written at octets.now content.old.items }
    ensures capacity { vec_capacity content.old ≤ vec_capacity content.new }
{
    let over = octets.len().min(content.len() - at);
    (&mut content[at..at + over]).copy_from_slice(&octets[..over]);
    if content.extend_from_slice(&octets[over..]).is_err() {
        unreachable!()
    }
}

// Replaces the contents of a list, within its reserved room.
fn copy(to: &mut Vec<u8>, from: &[u8])
    requires { length from.now ≤ vec_capacity to.old }
    ensures copied { to.new.items ≡ from.now }
    ensures capacity { vec_capacity to.old ≤ vec_capacity to.new }
{
    to.clear();
    if to.extend_from_slice(from).is_err() {
        unreachable!()
    }
}

impl MemDisk {
    ghost use Rattle.mem_io.specs.MemDisk.{disk_content, CanCall, IsNewDisk};

    /// Makes an empty disk with room for `room` octets. Its calls take no memory. The calls with the numbers in
    /// `fails` will fail, and so will every call from number `stop` on. A sync takes 16 octets of the journal's
    /// room; a write of n octets takes n + 16.
    pub fn new(
        alloc: Global,
        room: u64,
        journal: u64,
        fails: Vec<u64>,
        stop: Option<u64>,
    ) -> Result<MemDisk, AllocError>
        ensures empty { IfOk result (λ disk. disk_content disk ≡ []) }
        ensures fresh { IfOk result (IsNewDisk room journal) }
        ensures plan { IfOk result (λ disk. (disk.fails.items ≡ fails.items) × (disk.stop ≡ stop)) }
    {
        let room = room as usize;
        let journal = journal as usize;
        let base = Vec::with_capacity(alloc, room)?;
        let content = Vec::with_capacity(alloc, room)?;
        let synced = Vec::with_capacity(alloc, room)?;
        let octets = Vec::with_capacity(alloc, journal)?;
        let entries = Vec::with_capacity(alloc, journal / 16 + 1)?;
        Ok(MemDisk {
            room,
            journal,
            base,
            content,
            synced,
            since: 0,
            entries,
            octets,
            fails,
            stop,
            calls: 0,
            faults: 0,
        })
    }

    // Tests whether the next call is not planned to fail and is before the stop.
    fn can_call(&self) -> bool
        ensures { IsTrue result ↔ CanCall self.now }
    {
        if self.fails.contains(&self.calls) {
            return false;
        }
        match self.stop {
            None => true,
            Some(number) => self.calls < number,
        }
    }
}

/// What a crash leaves of the writes since the last sync: nothing, all of them, or this octet at each offset that
/// was written.
#[derive(Clone, Copy, Debug, PartialEq, Eq)]
pub enum Pick {
    Old,
    New,
    Fill(u8),
}

impl MemDisk {
    ghost use Rattle.mem_io.specs.MemDisk.{disk_content, disk_synced, FillsUnsynced, IsNewDisk, MayBeLeft};

    /// Returns the disk after a crash. Its content is one of the images, nothing is pending, its journal is empty,
    /// and no failure is planned. Takes no memory.
    pub fn crash(self, pick: Pick) -> MemDisk
        ensures image { MayBeLeft self (disk_content result) }
        ensures old { pick ≡ Pick.Old → disk_content result ≡ disk_synced self }
        ensures new { pick ≡ Pick.New → disk_content result ≡ disk_content self }
        ensures fill { (octet : ℕ) → pick ≡ Pick.Fill octet →
            FillsUnsynced octet self (disk_content result) }
        ensures fresh { IsNewDisk self.room self.journal result }
        ensures plan { (result.fails.items ≡ []) × (result.stop ≡ None) }
    {
        let MemDisk {
            room,
            journal,
            mut base,
            mut content,
            mut synced,
            since,
            mut entries,
            mut octets,
            mut fails,
            stop: _,
            calls: _,
            faults: _,
        } = self;
        pick_content(&mut content, &base, &octets, &entries, &synced, since, pick);
        copy(&mut base, &content);
        copy(&mut synced, &content);
        entries.clear();
        octets.clear();
        fails.clear();
        MemDisk {
            room,
            journal,
            base,
            content,
            synced,
            since: 0,
            entries,
            octets,
            fails,
            stop: None,
            calls: 0,
            faults: 0,
        }
    }
}

// Returns the content that this choice leaves.
fn pick_content(
    content: &mut Vec<u8>,
    base: &[u8],
    octets: &[u8],
    entries: &[Entry],
    synced: &[u8],
    since: usize,
    pick: Pick,
)
    requires agrees { content_at base.now entries.now octets.now
        (length entries.now) ≡ content.old.items }
    requires synced { content_at base.now entries.now octets.now since ≡ synced.now }
    requires since { last_sync entries.now (length entries.now) ≡ since }
    requires kept { (k : ℕ) → k < length entries.now →
        entry_end (get_or entries.now k Sync) ≤ length octets.now }
    requires placed { (k : ℕ) → k < length entries.now →
        entry_at (get_or entries.now k Sync) ≤ length
        (content_at base.now entries.now octets.now k) }
    requires room { length content.old.items ≤ vec_capacity content.old }
    ensures image { LeftAt base.now entries.now octets.now (length entries.now) content.new.items }
    ensures old { pick ≡ Pick.Old → content.new.items ≡ synced.now }
    ensures new { pick ≡ Pick.New → content.new.items ≡ content.old.items }
    ensures fill { (octet : ℕ) → pick ≡ Pick.Fill octet →
        content.new.items ≡ filled_at octet base.now entries.now octets.now (length entries.now) }
    ensures no_longer { length content.new.items ≤ length content.old.items }
    ensures capacity { vec_capacity content.old ≤ vec_capacity content.new }
{
    match pick {
        Pick::Old => copy(content, synced),
        Pick::New => {}
        Pick::Fill(octet) => {
            copy(content, synced);
            fill_writes(content, base, octets, entries, since, octet);
        }
    }
}

// Writes one octet at each offset that was written since the last sync, which was at moment `since`.
fn fill_writes(
    content: &mut Vec<u8>,
    base: &[u8],
    octets: &[u8],
    entries: &[Entry],
    since: usize,
    fill: u8,
)
    requires start { content.old.items ≡ filled_at fill base.now entries.now octets.now since }
    requires since { last_sync entries.now (length entries.now) ≡ since }
    requires kept { (k : ℕ) → k < length entries.now →
        entry_end (get_or entries.now k Sync) ≤ length octets.now }
    requires placed { (k : ℕ) → k < length entries.now →
        entry_at (get_or entries.now k Sync) ≤ length
        (content_at base.now entries.now octets.now k) }
    requires room { length (content_at base.now entries.now octets.now (length entries.now)) ≤
        vec_capacity content.old }
    ensures filled { content.new.items ≡ filled_at fill base.now entries.now octets.now
        (length entries.now) }
    ensures capacity { vec_capacity content.old ≤ vec_capacity content.new }
{
    let _base = base;
    let _octets = octets;
    for i in since..entries.len() {
        match entries[i] {
            Entry::Sync => unreachable!(),
            Entry::Write(p) => fill_piece(content, p, fill),
        }
    }
}

fn fill_piece(content: &mut Vec<u8>, p: Piece, fill: u8)
    requires at { p.at ≤ length content.old.items }
    requires room { p.at + p.len ≤ vec_capacity content.old }
    ensures filled { content.new.items ≡ written p.at (replicate p.len fill) content.old.items }
    ensures capacity { vec_capacity content.old ≤ vec_capacity content.new }
{
    for k in 0..p.len {
        overwrite(content, p.at + k, &[fill]);
    }
}

impl Disk for MemDisk {
    ghost use Rattle.road_io.specs.Causes.{HasCause, RoseBy};
    ghost use Rattle.road_io.specs.Disk.{Passes, Stays, Torn};
    ghost use Rattle.mem_io.specs.MemDisk.{disk_clock, disk_content, disk_image_at, disk_synced, journal_taken, CanCall, CanSync, CanWrite, Counts};

    ghost content = { λ m. Some m.content.items };

    ghost clock = { λ m. length m.entries.items };

    ghost image_at = { λ m k i. LeftAt m.base.items m.entries.items m.octets.items k i };

    ghost faults = { λ m. m.faults };

    ghost calls = { λ m. m.calls };

    ghost reads_image = { λ m c is.
        read_left m.base.items m.entries.items m.octets.items
        (length m.entries.items) m.content.items c m.agrees is };

    ghost image_tells = { λ m i h. (m.content.items, refl) };

    fn len(&mut self) -> Result<u64, Failed>
        ensures length { IfOk result
            (λ n. ForSome (Some (disk_content self.old)) (λ c. n ≡ length c)) }
        ensures content { Some (disk_content self.new) ≡ Some (disk_content self.old) }
        ensures moments { Passes disk_clock disk_image_at self.old self.new Stays }
        ensures kept { OnOk result (self.new.faults ≡ self.old.faults) }
        ensures cause { HasCause self.old.faults self.new.faults result }
        ensures counted { RoseBy 1 self.old.calls self.new.calls }
        ensures faulted { OnErr result (self.new.faults ≡ min (self.old.faults + 1) (2 ^ 64 - 1)) }
        ensures done { OnOk result (CanCall self.old) }
        ensures refused { OnErr result (¬ CanCall self.old) }
        ensures counts { Counts self.old self.new }
        ensures taken { journal_taken self.new ≡ journal_taken self.old }
    {
        let can_call = self.can_call();
        self.calls = self.calls.saturating_add(1);
        if !can_call {
            self.faults = self.faults.saturating_add(1);
            return Err(Failed);
        }
        Ok(self.content.len() as u64)
    }

    fn read_at(&mut self, at: u64, into: &mut [u8]) -> Result<(), Failed>
        requires { ForSome (Some (disk_content self.old)) (λ c. at + length into.old ≤ length c) }
        ensures octets { OnOk result
            (ForSome (Some (disk_content self.old))
            (λ c. into.new ≡ take (length into.old) (drop at c))) }
        ensures content { Some (disk_content self.new) ≡ Some (disk_content self.old) }
        ensures moments { Passes disk_clock disk_image_at self.old self.new Stays }
        ensures kept { OnOk result (self.new.faults ≡ self.old.faults) }
        ensures cause { HasCause self.old.faults self.new.faults result }
        ensures counted { RoseBy 1 self.old.calls self.new.calls }
        ensures faulted { OnErr result (self.new.faults ≡ min (self.old.faults + 1) (2 ^ 64 - 1)) }
        ensures done { OnOk result (CanCall self.old) }
        ensures refused { OnErr result (¬ CanCall self.old) }
        ensures counts { Counts self.old self.new }
        ensures taken { journal_taken self.new ≡ journal_taken self.old }
    {
        let can_call = self.can_call();
        self.calls = self.calls.saturating_add(1);
        if !can_call {
            self.faults = self.faults.saturating_add(1);
            return Err(Failed);
        }
        let at = at as usize;
        into.copy_from_slice(&self.content[at..at + into.len()]);
        Ok(())
    }

    fn write_at(&mut self, at: u64, octets: &[u8]) -> Result<(), Failed>
        requires { ForSome (Some (disk_content self.old)) (λ c. at ≤ length c) }
        ensures written { OnOk result
            (Some (disk_content self.new) ≡ option_map (written at octets.now)
            (Some (disk_content self.old))) }
        ensures torn { OnErr result
            (ForSome (Some (disk_content self.old))
            (λ c. IsSomeAnd (Some (disk_content self.new)) (Torn at (length octets.now) c))) }
        ensures moments { Passes disk_clock disk_image_at self.old self.new
            (Torn at (length octets.now)) }
        ensures kept { OnOk result (self.new.faults ≡ self.old.faults) }
        ensures cause { HasCause self.old.faults self.new.faults result }
        ensures counted { RoseBy 1 self.old.calls self.new.calls }
        ensures faulted { OnErr result (self.new.faults ≡ min (self.old.faults + 1) (2 ^ 64 - 1)) }
        ensures done { OnOk result (CanWrite self.old at (length octets.now)) }
        ensures refused { OnErr result (¬ CanWrite self.old at (length octets.now)) }
        ensures unchanged { OnErr result (disk_content self.new ≡ disk_content self.old) }
        ensures counts { Counts self.old self.new }
    {
        let can_call = self.can_call();
        self.calls = self.calls.saturating_add(1);
        let left = self.journal - 16 * self.entries.len() - self.octets.len();
        let at = at as usize;
        if !can_call || left < 16 || left - 16 < octets.len() || self.room - at < octets.len() {
            self.faults = self.faults.saturating_add(1);
            return Err(Failed);
        }
        let from = self.octets.len();
        if self.octets.extend_from_slice(octets).is_err() {
            unreachable!()
        }
        overwrite(&mut self.content, at, octets);
        let piece = Piece {
            at,
            from,
            len: octets.len(),
        };
        if self.entries.push(Entry::Write(piece)).is_err() {
            unreachable!()
        }
        Ok(())
    }

    fn sync(&mut self) -> Result<(), Failed>
        ensures one { OnOk result ((i : List ℕ) → disk_image_at self.new (disk_clock self.new) i →
            Some (disk_content self.new) ≡ Some i) }
        ensures content { Some (disk_content self.new) ≡ Some (disk_content self.old) }
        ensures dropped { OnErr result
            (disk_image_at self.old (disk_clock self.old) (disk_content self.new)) }
        ensures moments { Passes disk_clock disk_image_at self.old self.new Stays }
        ensures kept { OnOk result (self.new.faults ≡ self.old.faults) }
        ensures cause { HasCause self.old.faults self.new.faults result }
        ensures counted { RoseBy 1 self.old.calls self.new.calls }
        ensures faulted { OnErr result (self.new.faults ≡ min (self.old.faults + 1) (2 ^ 64 - 1)) }
        ensures synced { OnOk result (disk_synced self.new ≡ disk_content self.old) }
        ensures done { OnOk result (CanSync self.old) }
        ensures refused { OnErr result (¬ CanSync self.old) }
        ensures counts { Counts self.old self.new }
    {
        let can_call = self.can_call();
        self.calls = self.calls.saturating_add(1);
        let left = self.journal - 16 * self.entries.len() - self.octets.len();
        if !can_call || left < 16 {
            self.faults = self.faults.saturating_add(1);
            return Err(Failed);
        }
        copy(&mut self.synced, &self.content);
        if self.entries.push(Entry::Sync).is_err() {
            unreachable!()
        }
        self.since = self.entries.len();
        Ok(())
    }
}
