//! The objects that the program uses: the real files and streams.
ghost use Rattle.std.specs.Prelude.{◌≡◌};
ghost use Rattle.road_command.specs.Requests.{request_of};
ghost use Rattle.guarded_run.specs.Uses.{writes_desk};
ghost use Rattle.guarded_run.specs.Shipping.{AreFresh};

use crate::uses::writes_desk;
use desk_disk::DeskDisk;
use road_command::Words;
use road_io::{
    Disk, FileLibrary, KeptLibrary, KeptSink, Library, Sink, Source, StdSink, StdSource,
};
use std::alloc::Global;
use std::fs::File;
use std::rt::Files;

/// The objects that a run uses besides the mirrors.
#[derive(Drop)]
pub struct Objects<L: Drop, S: Drop, K: Drop, D: Drop, F: Drop> {
    /// The files of the working folder.
    pub library: L,
    /// Standard input.
    pub source: S,
    /// Standard output.
    pub sink: K,
    /// The owner's desk.
    pub disk: D,
    /// The files of the working folder once more, by which the file `owner.key` is read.
    pub keys: F,
}

/// Makes the objects for a run with these arguments. Makes no call to them. The library keeps at most `most` octets
/// of each file.
pub fn shipped<R: Files<File = File> + Print + Input + Drop + Copy>(
    rt: R,
    alloc: Global,
    words: &Words,
    most: usize,
) -> Objects<
    KeptLibrary<FileLibrary<R>>,
    StdSource<R>,
    KeptSink<StdSink<R>>,
    DeskDisk<R>,
    FileLibrary<R>,
>
    ensures fresh { AreFresh ⟦<KeptLibrary<FileLibrary<R>> as Library>⟧ ⟦<StdSource<R> as Source>⟧
        ⟦<KeptSink<StdSink<R>> as Sink>⟧ ⟦<DeskDisk<R> as Disk>⟧ ⟦<FileLibrary<R> as Library>⟧
        result.library result.source result.sink result.disk result.keys }
    ensures writes { result.disk.writes ≡ writes_desk (request_of words.now) }
{
    Objects {
        library: KeptLibrary::new(alloc, FileLibrary::new(rt), most),
        source: StdSource::new(&rt),
        sink: KeptSink::new(StdSink::new(rt)),
        disk: DeskDisk::new(rt, writes_desk(words)),
        keys: FileLibrary::new(rt),
    }
}
