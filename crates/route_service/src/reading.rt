//! The frames of a source.
ghost use Rattle.std.specs.Prelude.{◌≡◌, ◌≢◌, ◌≤◌, ◌∷◌, [], Some, None, Ok, Err, false};
ghost use Rattle.std.specs.Int.{w32, to_be_bytes};
ghost use Rattle.road_io.specs.Causes.{Rose};
ghost use Rattle.road_io.specs.Given.{Gave};
ghost use Rattle.route_service.specs.Taking.{TakesFrame};
ghost use Rattle.route_service.specs.TakingBody.{TakesBody};
ghost use Rattle.route_service.specs.TakingHead.{TakesHead};

use octet_text::{NoMemory, fill_up};
use road_io::{Failed, Source, read_whole};
use thiserror::Error;

/// Why no further frame was read.
#[derive(Clone, Copy, Debug, PartialEq, Eq, Error)]
pub enum FrameError {
    /// The length of a frame exceeds the greatest one accepted.
    #[error("a frame is too long")]
    TooLong,
    /// The input ends within a frame.
    #[error("the input ends within a frame")]
    Truncated,
    /// The source failed.
    #[error("the source failed")]
    Source,
    /// Out of memory for the body of a frame.
    #[error("there is no memory for a frame")]
    Memory(NoMemory),
}

/// Reads the body of the next frame into a buffer, replacing the buffer's contents. Returns whether there was a
/// frame. The body may have at most `most` octets. Takes at most one frame from the source. The buffer's memory is
/// reused.
pub fn next_frame<S: Source>(
    source: &mut S,
    most: u32,
    body: &mut Vec<u8>,
) -> Result<bool, FrameError>
    ensures takes { TakesFrame most (S.left source.old) (S.left source.new) body.new.items result }
    ensures gave { Gave (S.given source.old) (S.given source.new)
        (λ octets. TakesFrame most (Some octets) (Some []) body.new.items result) }
    ensures ended { result ≡ Ok false → S.ended source.new }
    ensures cut { result ≡ Err FrameError.Truncated → S.ended source.new }
    ensures later { S.faults source.old ≤ S.faults source.new }
    ensures source { result ≡ Err FrameError.Source →
        Rose (S.faults source.old) (S.faults source.new) }
    ensures kept { result ≢ Err FrameError.Source → S.faults source.new ≡ S.faults source.old }
{
    let size = match read_head(source) {
        Ok(Some(size)) => size,
        Ok(None) => return Ok(false),
        Err(HeadError::Truncated) => return Err(FrameError::Truncated),
        Err(HeadError::Source) => return Err(FrameError::Source),
    };
    if size > most {
        return Err(FrameError::TooLong);
    }
    match read_body(source, size as usize, body) {
        Ok(()) => Ok(true),
        Err(BodyError::Truncated) => Err(FrameError::Truncated),
        Err(BodyError::Source) => Err(FrameError::Source),
        Err(BodyError::Memory(none)) => Err(FrameError::Memory(none)),
    }
}

// Why no body was read.
#[derive(Clone, Copy, Debug, PartialEq, Eq)]
enum BodyError {
    Truncated,
    Source,
    Memory(NoMemory),
}

// Reads this many octets into a buffer, replacing its contents.
fn read_body<S: Source>(source: &mut S, size: usize, body: &mut Vec<u8>) -> Result<(), BodyError>
    ensures takes { TakesBody size (S.left source.old) (S.left source.new) body.new.items result }
    ensures gave { Gave (S.given source.old) (S.given source.new)
        (λ octets. TakesBody size (Some octets) (Some []) body.new.items result) }
    ensures cut { result ≡ Err BodyError.Truncated → S.ended source.new }
    ensures later { S.faults source.old ≤ S.faults source.new }
    ensures source { result ≡ Err BodyError.Source →
        Rose (S.faults source.old) (S.faults source.new) }
    ensures kept { result ≢ Err BodyError.Source → S.faults source.new ≡ S.faults source.old }
{
    body.truncate(size);
    if let Err(none) = fill_up(body, size, 0) {
        return Err(BodyError::Memory(none));
    }
    match read_whole(source, body.as_mut_slice()) {
        Ok(n) if n < size => Err(BodyError::Truncated),
        Ok(_) => Ok(()),
        Err(Failed) => Err(BodyError::Source),
    }
}

// Why no length was read.
#[derive(Clone, Copy, Debug, PartialEq, Eq)]
enum HeadError {
    Truncated,
    Source,
}

// Reads the length of the next frame. Returns `None` at the end of the input.
fn read_head<S: Source>(source: &mut S) -> Result<Option<u32>, HeadError>
    ensures takes { TakesHead (S.left source.old) (S.left source.new) result }
    ensures gave { Gave (S.given source.old) (S.given source.new)
        (λ octets. TakesHead (Some octets) (Some []) result) }
    ensures ended { result ≡ Ok None → S.ended source.new }
    ensures cut { result ≡ Err HeadError.Truncated → S.ended source.new }
    ensures later { S.faults source.old ≤ S.faults source.new }
    ensures source { result ≡ Err HeadError.Source →
        Rose (S.faults source.old) (S.faults source.new) }
    ensures kept { result ≢ Err HeadError.Source → S.faults source.new ≡ S.faults source.old }
{
    let mut head = [0u8; 4];
    match read_whole(source, &mut head) {
        Ok(0) => Ok(None),
        Ok(n) if n < 4 => Err(HeadError::Truncated),
        Ok(_) => {
            let [a, b, c, d] = head;
            Ok(Some(size_of(a, b, c, d)))
        }
        Err(Failed) => Err(HeadError::Source),
    }
}

// Returns the number that four octets encode.
fn size_of(a: u8, b: u8, c: u8, d: u8) -> u32
    ensures { to_be_bytes w32 result ≡ a ∷ b ∷ c ∷ d ∷ [] }
{
    u32::from_be_bytes([a, b, c, d])
}
