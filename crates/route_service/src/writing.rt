//! Frames to a sink.
ghost use Rattle.std.specs.Prelude.{◌≡◌, ◌<◌, ◌^◌, ◌++◌, length, OnOk, OnErr};
ghost use Rattle.std.specs.Io.KnownBytes.{Appends};
ghost use Rattle.road_io.specs.Causes.{HasCause};
ghost use Rattle.road_io.specs.Contents.{AppendsFront};
ghost use Rattle.route_service.specs.Frames.{frame_of};

use road_io::{Failed, Sink, write_all};

/// Writes a frame with this body. If it fails, it has written a prefix of the frame. The body must have fewer than
/// 2^32 octets.
#[tactic(auto, unfolding(crate::specs::Frames::frame_of))]
pub fn write_frame<K: Sink>(sink: &mut K, body: &[u8]) -> Result<(), Failed>
    requires { length body.now < 2 ^ 32 }
    ensures ok { OnOk result (Appends (K.taken sink.old) (K.taken sink.new) (frame_of body.now)) }
    ensures err { OnErr result (AppendsFront (K.taken sink.old) (K.taken sink.new)
        (frame_of body.now)) }
    ensures kept { OnOk result (K.faults sink.new ≡ K.faults sink.old) }
    ensures cause { HasCause (K.faults sink.old) (K.faults sink.new) result }
{
    let size = body.len() as u32;
    write_both(sink, &size.to_be_bytes(), body)
}

// Writes two pieces, one after the other.
#[tactic(auto, using(crate::proofs::Pieces::Appends_both, crate::proofs::Pieces::AppendsFront_first, crate::proofs::Pieces::AppendsFront_next))]
fn write_both<K: Sink>(sink: &mut K, first: &[u8], second: &[u8]) -> Result<(), Failed>
    ensures ok { OnOk result (Appends (K.taken sink.old) (K.taken sink.new)
        (first.now ++ second.now)) }
    ensures err { OnErr result (AppendsFront (K.taken sink.old) (K.taken sink.new)
        (first.now ++ second.now)) }
    ensures kept { OnOk result (K.faults sink.new ≡ K.faults sink.old) }
    ensures cause { HasCause (K.faults sink.old) (K.faults sink.new) result }
{
    match write_all(sink, first) {
        Ok(()) => match write_all(sink, second) {
            Ok(()) => Ok(()),
            Err(Failed) => Err(Failed),
        },
        Err(Failed) => Err(Failed),
    }
}
