//! Sending the pieces of a publication, each to the sink and then to the mirrors.
ghost use Rattle.std.specs.Prelude.{◌≡◌, ◌+◌, ◌≤◌, List, ℕ, length, vec_len, OnOk, OnErr};
ghost use Rattle.std.specs.Io.KnownBytes.{Appends};
ghost use Rattle.road_io.specs.Causes.{HasCause};
ghost use Rattle.road_io.specs.Contents.{AppendsFront};
ghost use Rattle.proof_octets.specs.Publications.{publication as publications, publication_text};
ghost use Rattle.mirror_out.specs.Gone.{Adds, HasRoom};
ghost use Rattle.mirror_out.specs.Mirrors.{Mirrors};
ghost use Rattle.mirror_out.specs.Spreader.{lost_of, most_of};
ghost use Rattle.publication_out.specs.Sent.{pieces_in, MirrorsFront, PartsFront, PartsWhole};

use crate::pieces_of;
use mirror_out::{Mirror, Spreader};
use proof_octets::Publication;
use road_io::{Failed, Sink, write_all};

/// The number of octets in a piece.
const PIECE: usize = 4096;

/// Sends the octets of a publication to a sink and to mirrors as they are made, to the sink first, in pieces of
/// 4,096 octets; the last piece has the rest. Takes no memory.
///
/// If the sink fails, it has taken a prefix of the octets, and the mirrors that stay have taken a prefix that is no
/// longer. The mirrors that are gone are appended to `gone`, if it has room for all: each was handed one piece more
/// after those that it took, and failed at it.
pub fn send<K: Sink, M: Mirror>(
    publication: &Publication,
    sink: &mut K,
    spreader: &mut Spreader,
    mirrors: &mut Vec<M>,
    gone: &mut Vec<M>,
) -> Result<(), Failed>
    requires fits { publications.Fits publication.now }
    requires room { length (lost_of spreader.old) + vec_len mirrors.old ≤ most_of spreader.old }
    ensures whole { OnOk result (Appends (K.taken sink.old) (K.taken sink.new)
        (publication_text publication.now)) }
    ensures front { OnErr result (AppendsFront (K.taken sink.old) (K.taken sink.new)
        (publication_text publication.now)) }
    ensures cause { HasCause (K.faults sink.old) (K.faults sink.new) result }
    ensures kept { OnOk result (K.faults sink.new ≡ K.faults sink.old) }
    ensures mirrored { OnOk result
        (Mirrors M.octets M.named M.handed M.puts M.room
        (pieces_in (publication_text publication.now))
        (publication_text publication.now) mirrors.old.items mirrors.new.items) }
    ensures mirrored_front { OnErr result
        (MirrorsFront M.octets M.named M.handed M.puts M.room
        (publication_text publication.now) (K.taken sink.old) (K.taken sink.new)
        mirrors.old.items mirrors.new.items) }
    ensures count { length (lost_of spreader.new) + vec_len mirrors.new ≡ length
        (lost_of spreader.old) + vec_len mirrors.old }
    ensures most { most_of spreader.new ≡ most_of spreader.old }
    ensures parted { OnOk result (HasRoom gone.old mirrors.old →
        Adds gone.old.items gone.new.items (λ fallen.
        PartsWhole M.octets M.named M.handed M.puts M.room M.faults
        (publication_text publication.now) mirrors.old.items mirrors.new.items fallen)) }
    ensures parted_front { OnErr result (HasRoom gone.old mirrors.old →
        Adds gone.old.items gone.new.items (λ fallen.
        PartsFront M.octets M.named M.handed M.puts M.room M.faults
        (publication_text publication.now) (K.taken sink.old) (K.taken sink.new)
        mirrors.old.items mirrors.new.items fallen)) }
{
    let mut pieces = pieces_of(publication);
    let mut buffer = [0; PIECE];
    let mut count = pieces.next(&mut buffer);
    while count > 0 {
        let piece = &buffer[..count];
        write_all(sink, piece)?;
        spreader.put(mirrors, gone, piece);
        count = pieces.next(&mut buffer);
    }
    Ok(())
}
