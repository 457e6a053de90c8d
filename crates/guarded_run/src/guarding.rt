//! The one call that does the look, the opening, the run and the sink in order.
ghost use Rattle.std.specs.Prelude.{◌≡◌, ◌+◌, false, length, true, is_none, IfSome};
ghost use Rattle.std.specs.List.{list_all};
ghost use Rattle.std.specs.declared.option.Option.TheVariants.{Some};
ghost use Rattle.road_command.specs.Requests.{request_of};
ghost use Rattle.road_io.specs.Noted.{noted};
ghost use Rattle.signed_out.specs.Fronts.{GoesOut};
ghost use Rattle.mirror_out.specs.Gone.{HasRoom};
ghost use Rattle.desk_disk.specs.States.{WasFound};
ghost use Rattle.road_io.specs.Disk.{Narrows};
ghost use Rattle.outside.specs.Called.{count_of};
ghost use Rattle.guarded_run.specs.Guarding.{EndsBehind, Guards, IfRun, exit_of, mirrors_synced};
ghost use Rattle.guarded_run.specs.OwnerKey.{IsKnown, TellsSpecial, key_known};
ghost use Rattle.guarded_run.specs.Shipping.{AreFresh};
ghost use Rattle.guarded_run.specs.Uses.{does_sign, keys_used};
ghost use Rattle.guarded_run.specs.declared.owner_key.TheConstants.{OWNER_KEY};

use crate::on_files::run_on_files;
use crate::owner_key::{KeyFile, key_file};
use crate::shipping::Objects;
use crate::uses::keys_used;
use command_files::Ended;
use desk_disk::DeskDisk;
use desk_fit::{Looked, Told, fit_desk};
use desk_sight::{Sight, Spending, Unfit};
use mirror_out::{FileMirror, Mirror};
use outside::NotedNames;
use road_command::Words;
use road_io::{
    Disk, FileLibrary, KeptLibrary, KeptSink, Library, Sink, Source, StdSink, StdSource,
};
use signed_out::SignedSink;
use std::alloc::Global;
use std::fs::File;
use std::io;
use std::rt::Files;

/// How a guarded run ended.
#[derive(Clone, Copy)]
pub enum End {
    /// It did not begin.
    Refused(Unfit),
    /// The sink took nothing more, because its input was not signed by the expected key.
    Unsigned(Ended),
    /// It ran.
    Ran(Ended),
}

/// The labels of mirrors that could not be synced after a run, each with the system's reason.
pub type Unsynced = [Option<(u32, io::Error)>; 8];

/// The results of a guarded run, and what it leaves.
#[derive(Drop)]
pub struct Guarded<L: Drop, S: Drop, K: Sink + Drop, D: Drop, F: Drop, N: Drop> {
    /// How it ended.
    pub end: End,
    /// What the look at the desk spent.
    pub spending: Spending,
    /// What the desk held after it, if it has a key that can be told.
    pub sight: Option<Sight>,
    /// The key with which a map had to be signed.
    pub signer: Option<[u8; 56]>,
    /// The state of the file `owner.key`.
    pub known: KeyFile,
    /// The owner's first key, if that file holds it.
    pub first: Option<[u8; 56]>,
    /// The files.
    pub library: L,
    /// Standard input.
    pub source: S,
    /// Standard output, below the sink that expects a key.
    pub sink: SignedSink<K>,
    /// The desk.
    pub disk: D,
    /// The files by which `owner.key` was read.
    pub keys: F,
    /// The names by which it was looked at.
    pub names: N,
    /// The mirrors that were not lost.
    pub mirrors: Vec<FileMirror>,
    /// The mirrors that were lost.
    pub gone: Vec<FileMirror>,
    /// Whether each of these was synced.
    pub is_synced: bool,
    /// Those that were not.
    pub unsynced: Unsynced,
}

impl<L: Drop, S: Drop, K: Sink + Drop, D: Drop, F: Drop, N: Drop> Guarded<L, S, K, D, F, N> {
    /// Returns the status of the process.
    pub fn status(&self) -> u8
        ensures { result ≡ exit_of self.now.end self.now.is_synced }
    {
        match self.end {
            End::Refused(Unfit::Disk) => 7,
            End::Refused(Unfit::Memory(_)) => 9,
            End::Refused(_) | End::Unsigned(_) => 12,
            End::Ran(ended) if ended.status == 0 && !self.is_synced => 15,
            End::Ran(ended) => ended.status,
        }
    }
}

/// Returns how a run with this end ended, from the sink that it wrote to and the key that the sink expected.
fn end_of<K: Sink + Drop>(ended: Ended, sink: &SignedSink<K>, signer: &Option<[u8; 56]>) -> End
    ensures ends { EndsBehind result ended (sink.now.awaited ≡ signer.now) sink.now.refusals }
    ensures out { GoesOut sink.now.awaited (noted sink.now.history.events) }
{
    let has_refused = sink.has_refused();
    if sink.awaits(signer) && !has_refused {
        End::Ran(ended)
    } else {
        End::Unsigned(ended)
    }
}

/// Syncs what mirrors have taken, each by one call, and returns those that could not be synced.
fn synced<R: Files<File = File> + Drop>(
    mirrors: &[FileMirror],
    names: &mut NotedNames<R>,
) -> Unsynced
    ensures each { count_of 3 names.new.calls.events ≡
        count_of 3 names.old.calls.events + length mirrors.now }
    ensures answers { names.new.answers.events ≡ names.old.answers.events }
{
    let mut unsynced: Unsynced = [None; 8];
    for (place, mirror) in mirrors.iter().enumerate() {
        if let Err(e) = mirror.sync(names) {
            unsynced[place.min(7)] = Some((mirror.label(), e));
        }
    }
    unsynced
}

/// Tests whether each mirror could be synced.
fn are_synced(unsynced: &[Option<(u32, io::Error)>]) -> bool
    ensures { result ≡ list_all is_none unsynced.now }
{
    unsynced.iter().all(|lost| lost.is_none())
}

/// Does everything that the program does over these objects, after a look at the owner's desk. No call was made to them.
///
/// The disk inspects the desk's file after it is opened and before it is written. Then, for a command that uses the
/// desk's keys, it looks at what the desk holds. The file `owner.key` may hold the first key. If the desk is strange,
/// or has a key other than that one, nothing runs and nothing changes. Otherwise it spends what waits in the desk and
/// runs, with a sink that lets a map through only if the desk's current key signed it. Afterwards it syncs what the
/// mirrors took. It appends the mirrors that are lost to `gone`, which has room for all.
pub fn guarded_run<R: Files<File = File> + Print + Input + Drop + Copy>(
    rt: R,
    alloc: Global,
    words: &Words,
    objects: Objects<
        KeptLibrary<FileLibrary<R>>,
        StdSource<R>,
        KeptSink<StdSink<R>>,
        DeskDisk<R>,
        FileLibrary<R>,
    >,
    mirrors: Vec<FileMirror>,
    gone: Vec<FileMirror>,
) -> Guarded<
    KeptLibrary<FileLibrary<R>>,
    StdSource<R>,
    KeptSink<StdSink<R>>,
    DeskDisk<R>,
    FileLibrary<R>,
    NotedNames<R>,
>
    requires fresh { AreFresh ⟦<KeptLibrary<FileLibrary<R>> as Library>⟧ ⟦<StdSource<R> as Source>⟧
        ⟦<KeptSink<StdSink<R>> as Sink>⟧ ⟦<DeskDisk<R> as Disk>⟧ ⟦<FileLibrary<R> as Library>⟧
        objects.library objects.source objects.sink objects.disk objects.keys }
    requires room { HasRoom gone mirrors }
    ensures guards { Guards ⟦<KeptLibrary<FileLibrary<R>> as Library>⟧ ⟦<StdSource<R> as Source>⟧
        ⟦<KeptSink<StdSink<R>> as Sink>⟧ ⟦<SignedSink<KeptSink<StdSink<R>>> as Sink>⟧
        (λ sink. sink.awaited) ⟦<DeskDisk<R> as Disk>⟧ ⟦<FileMirror as Mirror>⟧ (request_of words.now)
        result.first result.sight result.signer result.spending result.end objects.library
        result.library objects.source result.source objects.sink result.sink objects.disk result.disk
        mirrors.items result.mirrors.items gone.items result.gone.items }
    ensures opened { WasFound result.disk.state result.disk.disk.names.answers.events }
    ensures unused { does_sign (keys_used (request_of words.now)) ≡ false →
        (result.known ≡ KeyFile.Unused) × (result.keys ≡ objects.keys) }
    ensures known { does_sign (keys_used (request_of words.now)) ≡ true →
        IfSome (⟦<FileLibrary<R> as Library>⟧.files result.keys)
        (λ folder. IsKnown (folder OWNER_KEY.now) result.known) }
    ensures special { TellsSpecial OWNER_KEY.now result.names.answers.events result.known }
    ensures synced { result.is_synced ≡ list_all is_none result.unsynced }
    ensures syncs { count_of 3 result.names.calls.events ≡
        mirrors_synced result.end (length result.mirrors.items) }
    ensures key_files { Narrows (⟦<FileLibrary<R> as Library>⟧.files objects.keys)
        (⟦<FileLibrary<R> as Library>⟧.files result.keys) }
    ensures first { result.first ≡ key_known result.known }
    ensures below { ⟦<KeptSink<StdSink<R>> as Sink>⟧.taken result.sink.inner ≡
        Some (noted result.sink.history.events) }
    ensures out { GoesOut result.sink.awaited (noted result.sink.history.events) }
    ensures unsigned { IfRun result.end (λ ended.
        EndsBehind result.end ended (result.sink.awaited ≡ result.signer) result.sink.refusals) }
{
    let Objects {
        mut library,
        mut source,
        sink,
        mut disk,
        mut keys,
    } = objects;
    let mut mirrors = mirrors;
    let mut gone = gone;
    let mut names = NotedNames::new(rt);
    let known = key_file(&mut names, alloc, words, &mut keys);
    let first = known.key();
    let Looked { spending, told } = fit_desk(alloc, keys_used(words), first, &mut disk);
    let Told { sight, signer } = match told {
        Ok(told) => told,
        Err(why) => {
            disk.was_found();
            return Guarded {
                end: End::Refused(why),
                spending,
                sight: None,
                signer: None,
                known,
                first,
                library,
                source,
                sink: SignedSink::new(sink, None),
                disk,
                keys,
                names,
                mirrors,
                gone,
                is_synced: true,
                unsynced: [None; 8],
            };
        }
    };
    let mut sink = SignedSink::new(sink, signer);
    let ended = run_on_files(
        alloc,
        words,
        &mut library,
        &mut source,
        &mut sink,
        &mut disk,
        &mut mirrors,
        &mut gone,
    );
    let unsynced = synced(&mirrors, &mut names);
    disk.was_found();
    Guarded {
        end: end_of(ended, &sink, &signer),
        spending,
        sight,
        signer,
        known,
        first,
        library,
        source,
        sink,
        disk,
        keys,
        names,
        mirrors,
        gone,
        is_synced: are_synced(&unsynced),
        unsynced,
    }
}
