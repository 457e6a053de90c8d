ghost use Rattle.std.specs.Prelude.{◌≡◌, ◌+◌, [], Some, Ok, Err, false, OnOk, OnErr};
ghost use Rattle.std.specs.Io.KnownBytes.{Appends};
ghost use Rattle.road_io.specs.Contents.{AppendsFront};
ghost use Rattle.road_io.specs.Given.{Gave};
ghost use Rattle.route_service.specs.Taking.{TakesFrame};

use mirror_out::{FileMirror, Mirror};
use road_io::{Failed, Sink, Source, StdSink, StdSource, write_all};
use route_service::{FrameError, next_frame};

/// Writes all octets to standard output, or fails after writing a prefix of them.
pub fn print<R: Print + Drop>(sink: &mut StdSink<R>, octets: &[u8]) -> Result<(), Failed>
    ensures ok { OnOk result (Appends (⟦<StdSink<R> as Sink>⟧.taken sink.old)
        (⟦<StdSink<R> as Sink>⟧.taken sink.new) octets.now) }
    ensures err { OnErr result (AppendsFront (⟦<StdSink<R> as Sink>⟧.taken sink.old)
        (⟦<StdSink<R> as Sink>⟧.taken sink.new) octets.now) }
{
    write_all(sink, octets)
}

/// Reads the next frame of standard input, or reports that there is none.
pub fn frame<R: Input>(
    source: &mut StdSource<R>,
    most: u32,
    body: &mut Vec<u8>,
) -> Result<bool, FrameError>
    ensures gave { Gave (⟦<StdSource<R> as Source>⟧.given source.old)
        (⟦<StdSource<R> as Source>⟧.given source.new)
        (λ octets. TakesFrame most (Some octets) (Some []) body.new.items result) }
    ensures ended { result ≡ Ok false → ⟦<StdSource<R> as Source>⟧.ended source.new }
    ensures cut { result ≡ Err FrameError.Truncated → ⟦<StdSource<R> as Source>⟧.ended source.new }
{
    next_frame(source, most, body)
}

/// Appends a piece to the file of a mirror.
pub fn mirror(mirror: &mut FileMirror, piece: &[u8]) -> Result<(), Failed>
    ensures ok { OnOk result (Appends (⟦<FileMirror as Mirror>⟧.octets mirror.old)
        (⟦<FileMirror as Mirror>⟧.octets mirror.new) piece.now) }
    ensures handed { ⟦<FileMirror as Mirror>⟧.handed mirror.new ≡
        ⟦<FileMirror as Mirror>⟧.handed mirror.old + 1 }
{
    mirror.put(piece)
}
