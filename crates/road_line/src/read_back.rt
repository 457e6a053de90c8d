//! Reading the reason of a refusal back from the line that was written.

use lms_tree::SealError;
use proof_judge::Refusal;
use road_reader::{natural, split_word, wide_natural};
use route_client::{CheckError, CoverFault, NearError};

/// Returns why a reply for a route was refused, from the line that `line_of_refused` wrote. Returns `None` for any
/// other line.
pub fn read_refused(line: &[u8]) -> Option<CheckError> {
    Said::of(line)?.check_error()
}

/// Returns why a reply to a range query was refused, from the line that `line_of_refused_near` wrote. Returns
/// `None` for any other line.
pub fn read_refused_near(line: &[u8]) -> Option<NearError> {
    Said::of(line)?.near_error()
}

/// The words after `refused`: the name of a test, and its fields. Missing words are empty.
#[derive(Clone, Copy)]
struct Said<'a> {
    name: &'a str,
    first: &'a [u8],
    second: &'a [u8],
}

impl Said<'_> {
    /// Parses a line, if it is the line of a refused reply.
    fn of(line: &[u8]) -> Option<Said<'_>> {
        let line = match line {
            [line @ .., b'\n'] => line,
            _ => line,
        };
        let (front, rest) = split_word(line);
        if front != b"refused".as_slice() {
            return None;
        }
        let (name, rest) = split_word(rest);
        let (first, rest) = split_word(rest);
        let (second, _) = split_word(rest);
        let Ok(name) = str::from_utf8(name) else {
            return None;
        };
        Some(Said {
            name,
            first,
            second,
        })
    }

    /// Returns the first field as a 32-bit number.
    fn number(&self) -> Option<u32> {
        natural(self.first)
    }

    /// Returns the first field as an 8-bit number.
    fn small(&self) -> Option<u8> {
        let number = natural(self.first)?;
        u8::try_from(number).ok()
    }

    fn check_error(&self) -> Option<CheckError> {
        match self.name {
            "NotAnswer" => Some(CheckError::NotAnswer(self.small()?)),
            "Malformed" => Some(CheckError::Malformed(self.number()?)),
            "Stale" => Some(CheckError::Stale(wide_natural(self.first)?)),
            "BadChain" => Some(CheckError::BadChain(self.small()?, seal_of(self.second)?)),
            "BadSignature" => Some(CheckError::BadSignature(seal_of(self.first)?)),
            "BadCover" => Some(CheckError::BadCover(self.small()?, cover_of(self.second)?)),
            _ => Some(CheckError::Judged(self.refusal()?)),
        }
    }

    fn near_error(&self) -> Option<NearError> {
        match self.name {
            "Malformed" => Some(NearError::Malformed(self.number()?)),
            "Stale" => Some(NearError::Stale(wide_natural(self.first)?)),
            "BadChain" => Some(NearError::BadChain(self.small()?, seal_of(self.second)?)),
            "BadSignature" => Some(NearError::BadSignature(seal_of(self.first)?)),
            "BadCover" => Some(NearError::BadCover(cover_of(self.first)?)),
            "RepeatedNode" => Some(NearError::RepeatedNode(self.number()?)),
            "MissingTuple" => Some(NearError::MissingTuple(self.number()?)),
            _ => None,
        }
    }

    fn refusal(&self) -> Option<Refusal> {
        match self.name {
            "RepeatedNode" => Some(Refusal::RepeatedNode(self.number()?)),
            "BadRoute" => Some(Refusal::BadRoute(self.number()?)),
            "MissingTuple" => Some(Refusal::MissingTuple(self.number()?)),
            "MissingPair" => {
                let other = natural(self.second)?;
                Some(Refusal::MissingPair(self.number()?, other))
            }
            "Shorter" => Some(Refusal::Shorter(wide_natural(self.first)?)),
            "Disagrees" => Some(Refusal::Disagrees(wide_natural(self.first)?)),
            _ => None,
        }
    }
}

/// Returns the reason why a signature does not verify, given the reason's name.
fn seal_of(name: &[u8]) -> Option<SealError> {
    match str::from_utf8(name).unwrap_or("") {
        "BadKey" => Some(SealError::BadKey),
        "BadForm" => Some(SealError::BadForm),
        "NoMatch" => Some(SealError::NoMatch),
        _ => None,
    }
}

/// Returns the reason why items and a cover give no root, given the reason's name.
fn cover_of(name: &[u8]) -> Option<CoverFault> {
    match str::from_utf8(name).unwrap_or("") {
        "Place" => Some(CoverFault::Place),
        "Short" => Some(CoverFault::Short),
        "Long" => Some(CoverFault::Long),
        "Differs" => Some(CoverFault::Differs),
        _ => None,
    }
}
