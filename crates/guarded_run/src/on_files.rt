//! The program over the files and streams that ship.

ghost use Rattle.std.specs.Prelude.{[], List};
ghost use Rattle.mirror_out.specs.Gone.{HasRoom};
ghost use Rattle.road_command.specs.Requests.{request_of};
ghost use Rattle.command_files.specs.Outcomes.{outcome_of};
ghost use Rattle.owner_commands.specs.Releases.{Release};
ghost use Rattle.road_run.specs.Gone.{OnGone};
ghost use Rattle.road_run.specs.Lives.{EachTells, IsLife, NoneSignsTwice};
ghost use Rattle.road_run.specs.Runs.{RunsOver};

use command_files::Ended;
use desk_disk::DeskDisk;
use mirror_out::{FileMirror, Mirror};
use road_command::Words;
use road_io::{
    Disk, FileLibrary, KeptLibrary, KeptSink, Library, Sink, Source, StdSink, StdSource,
};
use road_run::{no_key_signs_twice, run_keeping};
use signed_out::SignedSink;
use std::alloc::Global;
use std::fs::File;
use std::rt::Files;

/// Does everything that the program does, over real files and streams.
///
/// It states the guarantees of `run` on a library, a source, a sink, a disk and mirrors for those that ship. Each
/// of them tells what its history of answers implies: the sink and the mirrors what they reported as taken, the
/// source what it gave, the library and the disk what they hold, whatever files there were and whatever failed
/// calls have left. A library or a disk tells this until two of its answers contradict each other. Over every life
/// that begins with this disk, of such runs, of what `look` spends and of crashes, and whose disks tell their
/// contents, no one-time key signs twice. Each mirror that does not stay is appended to `gone`, if it has room for
/// all: it was handed one piece more after those that it took, and its number of failures rose.
pub fn run_on_files<R: Files<File = File> + Print + Input + Drop>(
    alloc: Global,
    words: &Words,
    library: &mut KeptLibrary<FileLibrary<R>>,
    source: &mut StdSource<R>,
    sink: &mut SignedSink<KeptSink<StdSink<R>>>,
    disk: &mut DeskDisk<R>,
    mirrors: &mut Vec<FileMirror>,
    gone: &mut Vec<FileMirror>,
) -> Ended
    ensures runs { RunsOver ⟦<KeptLibrary<FileLibrary<R>> as Library>⟧ ⟦<StdSource<R> as Source>⟧
        ⟦<SignedSink<KeptSink<StdSink<R>>> as Sink>⟧ ⟦<DeskDisk<R> as Disk>⟧ ⟦<FileMirror as Mirror>⟧
        (request_of words.now) library.old library.new source.old source.new sink.old sink.new
        disk.old disk.new mirrors.old.items mirrors.new.items result.status (outcome_of result) }
    ensures gone { HasRoom gone.old mirrors.old → OnGone ⟦<FileMirror as Mirror>⟧.octets
        ⟦<FileMirror as Mirror>⟧.named ⟦<FileMirror as Mirror>⟧.handed ⟦<FileMirror as Mirror>⟧.puts
        ⟦<FileMirror as Mirror>⟧.room ⟦<FileMirror as Mirror>⟧.faults ⟦<DeskDisk<R> as Disk>⟧
        disk.old disk.new (request_of words.now)
        (⟦<SignedSink<KeptSink<StdSink<R>>> as Sink>⟧.taken sink.old)
        (⟦<SignedSink<KeptSink<StdSink<R>>> as Sink>⟧.taken sink.new) mirrors.old.items
        mirrors.new.items gone.old.items gone.new.items (outcome_of result) }
    ensures lives { (states : List (_ × List Release)) →
        EachTells ⟦<DeskDisk<R> as Disk>⟧ disk.old states →
        (life : IsLife ⟦<FileMirror as Mirror>⟧.octets ⟦<FileMirror as Mirror>⟧.named
        ⟦<FileMirror as Mirror>⟧.handed ⟦<FileMirror as Mirror>⟧.puts
        ⟦<FileMirror as Mirror>⟧.room
        ⟦<DeskDisk<R> as Disk>⟧ disk.old [] states) →
        NoneSignsTwice ⟦<FileMirror as Mirror>⟧.octets ⟦<FileMirror as Mirror>⟧.named
        ⟦<FileMirror as Mirror>⟧.handed ⟦<FileMirror as Mirror>⟧.puts
        ⟦<FileMirror as Mirror>⟧.room
        ⟦<DeskDisk<R> as Disk>⟧ disk.old [] states life }
{
    no_key_signs_twice::<DeskDisk<R>, FileMirror>();
    run_keeping(alloc, words, library, source, sink, disk, mirrors, gone)
}
