//! Why a run did not do its work.

use book_model::PlanError;
use dimacs_reader::DimacsError;
use octet_text::NoMemory;
use road_map::MapError;
use road_reader::RoadError;
use thiserror::Error;

/// Why a run did not do its work. Out of memory is never inside another variant.
#[derive(Clone, Copy, Debug, PartialEq, Eq, Error)]
pub enum Fault {
    /// The arguments fit no command.
    #[error("The words fit no command.")]
    Words,
    /// A file does not exist.
    #[error("There is no file of that name.")]
    Missing,
    /// A file has more than 268,435,456 octets.
    #[error("The file has more than 268,435,456 octets.")]
    TooLong,
    /// The first fault of a road file.
    #[error("{0}")]
    Road(RoadError),
    /// The first fault of a graph and its coordinates.
    #[error("{0}")]
    Dimacs(DimacsError),
    /// The first reason why a road file's parts are not a map.
    #[error("{0}")]
    Map(MapError),
    /// The first reason why settings and a map have no book.
    #[error("{0}")]
    Plan(PlanError),
    /// A publication file or a chain file cannot be read. The first unreadable field begins at this offset.
    #[error("The file cannot be read from offset {0} on.")]
    Malformed(u32),
    /// A publication's header does not match its map and settings.
    #[error("The publication's header is not that of its map and settings.")]
    HeaderWrong,
    /// A hex file does not consist of the required number of hex digits, optionally followed by a line end.
    #[error("The file is not exactly the hex digits that it should have.")]
    BadHex,
    /// A public key does not belong to the owner's disk.
    #[error("The public key is none of the owner's.")]
    OtherKey,
    /// The input ends within a frame.
    #[error("The input ends within a frame.")]
    TruncatedFrame,
    /// A frame of the input has more than 4,194,304 octets.
    #[error("A frame has more than 4,194,304 octets.")]
    FrameTooLong,
    /// The library failed.
    #[error("The file could not be read.")]
    Library,
    /// The source failed.
    #[error("The input could not be read.")]
    Source,
    /// The sink failed.
    #[error("The output could not be written.")]
    Sink,
    /// The disk failed.
    #[error("The owner's disk failed.")]
    Disk,
    /// All one-time keys of the owner's key have been used.
    #[error("The owner's key has no one-time key left.")]
    KeysUsedUp,
    /// Out of memory.
    #[error("Out of memory.")]
    Memory(NoMemory),
    /// An end of the query is not a node of the map. This is the first such end.
    #[error("The map has no node {0}.")]
    UnknownNode(u32),
    /// No walk joins the two ends.
    #[error("No route joins the two nodes.")]
    NoRoute,
    /// The disk already holds a key, which a new key may not replace.
    #[error("The owner's disk holds a key already.")]
    Held,
    /// The disk holds no key.
    #[error("The owner's disk holds no key.")]
    NoKey,
    /// An open area of the disk cannot be used.
    #[error("The key on the owner's disk cannot be used.")]
    BadBlock,
    /// The disk has eight keys, which is the maximum.
    #[error("The owner's disk holds eight keys already.")]
    TooManyKeys,
    /// The last one-time key of the current key was used, but did not sign the next key.
    #[error("The last one-time key of the owner's key was used, so that it cannot sign the next key.")]
    NoSuccession,
    /// The disk already holds a key with this secret.
    #[error("The owner's disk holds a key of this secret already.")]
    SameSecret,
    /// The input continues after 1,000,000 frames.
    #[error("The input has more than 1,000,000 frames.")]
    TooManyFrames,
    /// An accepted reply belongs to another publication of the owner than the given one.
    #[error("The reply is of another publication of the owner's.")]
    OtherPublication,
    /// The whole output was written, but a mirror that did not take all of it was dropped.
    #[error("A mirror did not take all that was written.")]
    MirrorLost,
}
