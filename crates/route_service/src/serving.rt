//! The loop over the frames.
ghost use Rattle.std.specs.Prelude.{◌≡◌, ◌≢◌, ◌≤◌, [], Some, Err, OnOk};
ghost use Rattle.sha2.specs.Sha256.{sha256};
ghost use Rattle.road_io.specs.Causes.{Rose};
ghost use Rattle.road_io.specs.Given.{Gave};
ghost use Rattle.route_service.specs.Sessions.{state_of};
ghost use Rattle.route_service.specs.Inputs.{Input, IsInput, ServesInput, split};
ghost use Rattle.route_service.specs.Serving.{Serves};

use crate::{FrameError, Service, next_frame, write_frame};
use octet_text::{Hasher, NoMemory};
use road_io::{Failed, Sink, Source};
use std::alloc::Global;
use thiserror::Error;

/// Why serving stopped before the end of the input.
#[derive(Clone, Copy, Debug, PartialEq, Eq, Error)]
pub enum ServeError {
    /// The length of a frame exceeds the greatest one accepted.
    #[error("a frame is too long")]
    FrameTooLong,
    /// The input ends within a frame.
    #[error("the input ends within a frame")]
    TruncatedFrame,
    /// The input continues after the greatest number of frames.
    #[error("there are too many frames")]
    TooManyFrames,
    /// The source failed.
    #[error("the source failed")]
    Source,
    /// The sink failed.
    #[error("the sink failed")]
    Sink,
    /// Out of memory.
    #[error("no memory was found")]
    Memory(NoMemory),
}

/// Answers the frames of a source: at most `limit` frames with bodies of at most `most` octets. Writes each reply
/// as a frame before it reads the next frame.
pub fn serve<H: Hasher, S: Source, K: Sink>(
    alloc: Global,
    service: &mut Service<H>,
    source: &mut S,
    sink: &mut K,
    most: u32,
    limit: u32,
) -> Result<(), ServeError>
    ensures serves { Serves H.hash sha256 (state_of service.old) (state_of service.new) most limit
        (S.left source.old) (S.left source.new) (K.taken sink.old) (K.taken sink.new) result }
    ensures input { (input : Input) × IsInput most limit (S.left source.old) input
        × ServesInput H.hash sha256 (state_of service.old) input (K.taken sink.old)
        (K.taken sink.new) result }
    ensures gave { Gave (S.given source.old) (S.given source.new) (λ octets. Serves H.hash sha256
        (state_of service.old) (state_of service.new) most limit
        (Some octets) (Some []) (K.taken sink.old) (K.taken sink.new) result) }
    ensures answers { Gave (S.given source.old) (S.given source.new) (λ octets. ServesInput H.hash
        sha256 (state_of service.old) (split most limit octets) (K.taken sink.old)
        (K.taken sink.new) result) }
    ensures ended { OnOk result (S.ended source.new) }
    ensures cut { result ≡ Err ServeError.TruncatedFrame → S.ended source.new }
    ensures source { result ≡ Err ServeError.Source →
        Rose (S.faults source.old) (S.faults source.new) }
    ensures sink { result ≡ Err ServeError.Sink → Rose (K.faults sink.old) (K.faults sink.new) }
    ensures source_kept { result ≢ Err ServeError.Source →
        S.faults source.new ≡ S.faults source.old }
    ensures sink_kept { result ≢ Err ServeError.Sink → K.faults sink.new ≡ K.faults sink.old }
    ensures source_later { S.faults source.old ≤ S.faults source.new }
    ensures sink_later { K.faults sink.old ≤ K.faults sink.new }
{
    turns(alloc, service, source, sink, most, limit)
}

// Answers the frames, one after the other.
#[tactic(auto, using(crate::proofs::FrameLemmas::length_frame))]
fn turns<H: Hasher, S: Source, K: Sink>(
    alloc: Global,
    service: &mut Service<H>,
    source: &mut S,
    sink: &mut K,
    most: u32,
    limit: u32,
) -> Result<(), ServeError>
    ensures serves { Serves H.hash sha256 (state_of service.old) (state_of service.new) most limit
        (S.left source.old) (S.left source.new) (K.taken sink.old) (K.taken sink.new) result }
    ensures gave { Gave (S.given source.old) (S.given source.new) (λ octets. Serves H.hash sha256
        (state_of service.old) (state_of service.new) most limit
        (Some octets) (Some []) (K.taken sink.old) (K.taken sink.new) result) }
    ensures ended { OnOk result (S.ended source.new) }
    ensures cut { result ≡ Err ServeError.TruncatedFrame → S.ended source.new }
    ensures source { result ≡ Err ServeError.Source →
        Rose (S.faults source.old) (S.faults source.new) }
    ensures sink { result ≡ Err ServeError.Sink → Rose (K.faults sink.old) (K.faults sink.new) }
    ensures source_kept { result ≢ Err ServeError.Source →
        S.faults source.new ≡ S.faults source.old }
    ensures sink_kept { result ≢ Err ServeError.Sink → K.faults sink.new ≡ K.faults sink.old }
    ensures source_later { S.faults source.old ≤ S.faults source.new }
    ensures sink_later { K.faults sink.old ≤ K.faults sink.new }
{
    let mut body = Vec::new(alloc);
    let mut served = 0;
    while served < limit {
        match next_frame(source, most, &mut body) {
            Ok(true) => {}
            Ok(false) => return Ok(()),
            Err(FrameError::TooLong) => return Err(ServeError::FrameTooLong),
            Err(FrameError::Truncated) => return Err(ServeError::TruncatedFrame),
            Err(FrameError::Source) => return Err(ServeError::Source),
            Err(FrameError::Memory(none)) => return Err(ServeError::Memory(none)),
        }
        let reply = match service.step(body.as_slice()) {
            Ok(reply) => reply,
            Err(none) => return Err(ServeError::Memory(none)),
        };
        match write_frame(sink, reply.as_slice()) {
            Ok(()) => {}
            Err(Failed) => return Err(ServeError::Sink),
        }
        served += 1;
    }
    let mut one = [0u8; 1];
    match source.read(&mut one) {
        Ok(0) => Ok(()),
        Ok(_) => Err(ServeError::TooManyFrames),
        Err(_) => Err(ServeError::Source),
    }
}
