//! The message about a signing.

use crate::doubt::{Doubt, doubt_of};
use desk_sight::{Sight, Signed};
use std::fmt::{self, Display, Formatter};

/// The one-time key that one signing used and the header that it signed, from the desk as it was before and from
/// the publication that was written.
#[derive(Clone, Copy, Debug, PartialEq, Eq)]
pub struct Signing {
    /// The one-time key that signed.
    slot: u32,
    /// The number of one-time keys left.
    left: u32,
    /// The last header that the desk had signed before.
    before: Option<Signed>,
    /// The greatest version that the desk had signed before.
    greatest: Option<u64>,
    /// The header that was signed.
    now: Signed,
}

/// Returns the number that four octets encode.
fn number(octets: &[u8]) -> Option<u32> {
    match octets {
        [a, b, c, d] => Some(u32::from_be_bytes([*a, *b, *c, *d])),
        _ => None,
    }
}

impl Signing {
    /// Returns the signing that a publication with these first octets shows, given the contents of the desk before.
    pub fn of(sight: Sight, publication: &[u8]) -> Option<Signing> {
        let header = publication.get(4..108)?;
        let slot = number(publication.get(110..114)?)?;
        let low = number(header.get(12..16)?)?;
        let high = number(header.get(8..12)?)?;
        let nodes = number(header.get(16..20)?)?;
        Some(Signing {
            slot,
            left: sight.left().saturating_sub(1),
            before: sight.last,
            greatest: sight.greatest,
            now: Signed {
                version: (u64::from(high) << 32) | u64::from(low),
                nodes,
            },
        })
    }

    /// Returns why the version is doubtful.
    pub fn doubt(&self) -> Option<Doubt> {
        let last = match self.before {
            Some(before) => Some(before.version),
            None => None,
        };
        doubt_of(self.now.version, self.greatest, last)
    }

    /// Writes the message about the version.
    fn version<W: fmt::Write>(&self, f: &mut Formatter<W>) -> fmt::Result {
        let version = self.now.version;
        match self.doubt() {
            Some(Doubt::NotRisen(greatest)) => not_risen(f, self.slot, version, greatest),
            Some(Doubt::RisenFar(last)) => risen_far(f, self.slot, version, last),
            None => Ok(()),
        }
    }
}

/// Writes the message about a version that the desk has already signed, or about a lower one.
fn not_risen<W: fmt::Write>(
    f: &mut Formatter<W>,
    slot: u32,
    version: u64,
    greatest: u64,
) -> fmt::Result {
    write!(
        f,
        " The desk has already signed version {greatest}, and one-time key {slot} has now signed version {version}. A client with a higher minimum refuses it."
    )
}

/// Writes the message about a version that is far above the last one.
fn risen_far<W: fmt::Write>(
    f: &mut Formatter<W>,
    slot: u32,
    version: u64,
    last: u64,
) -> fmt::Result {
    write!(
        f,
        " Version {version} of one-time key {slot} is more than 4294967296 above the last version, {last}. Check whether you meant that."
    )
}

/// Writes the message about a signed header.
fn header<W: fmt::Write>(f: &mut Formatter<W>, signed: Signed) -> fmt::Result {
    let Signed { version, nodes } = signed;
    let unit = if nodes == 1 { "node" } else { "nodes" };
    write!(f, "{nodes} {unit}, version {version}")
}

impl Display for Signing {
    fn fmt<W: fmt::Write>(&self, f: &mut Formatter<W>) -> fmt::Result {
        let Signing { slot, left, .. } = *self;
        let are = if left == 1 { "is" } else { "are" };
        write!(f, "One-time key {slot} has signed, and {left} {are} left. ")?;
        match self.before {
            Some(before) => {
                f.write_str("Before: ")?;
                header(f, before)?;
                f.write_str("; now: ")?;
            }
            None => f.write_str("Now: ")?,
        }
        header(f, self.now)?;
        f.write_str(".")?;
        self.version(f)
    }
}
