//! The contents of a desk that no run and no crash leaves.

use std::fmt::{self, Display, Formatter};

/// Contents that no run and no crash can leave. Keys are counted from 1, one-time keys from 0.
#[derive(Clone, Copy, Debug, PartialEq, Eq)]
pub enum Strange {
    /// The one-time key counts as free, but a later one is used.
    Gap { key: u32, slot: u32 },
    /// The one-time key counts as free, is not the first free one, and holds a text.
    Text { key: u32, slot: u32 },
    /// In the block of the key, octets that are always zero are not zero.
    Block { key: u32 },
    /// After the text of the one-time key, octets that are always zero are not zero.
    Tail { key: u32, slot: u32 },
    /// The next key has signed or is whole, but the link from this key to it counts as unsigned and is not whole.
    Link { key: u32 },
    /// The first key's gate is closed, but its block is behind it, together with some of its slots or another key.
    Shut,
}

impl Display for Strange {
    fn fmt<W: fmt::Write>(&self, f: &mut Formatter<W>) -> fmt::Result {
        match self {
            Strange::Gap { key, slot } => write!(
                f,
                "One-time key {slot} of key {key} counts as free, and a later one is used."
            )?,
            Strange::Text { key, slot } => write!(
                f,
                "One-time key {slot} of key {key} counts as free, is not the first such, and has a text."
            )?,
            Strange::Block { key } => write!(
                f,
                "The block of key {key} has octets that are not zero where all are."
            )?,
            Strange::Tail { key, slot } => write!(
                f,
                "One-time key {slot} of key {key} has octets that are not zero where all are."
            )?,
            Strange::Link { key } => write!(
                f,
                "The key behind key {key} has signed, and the link to it counts as unsigned."
            )?,
            Strange::Shut => f.write_str(
                "A desk stands here whose first octet is zero, so that its key counts as none.",
            )?,
        }
        f.write_str(
            " No run and no crash leaves that: something else has changed the file. Nothing was signed, and nothing more is to be signed by this key. Make another key, in another folder.",
        )
    }
}
