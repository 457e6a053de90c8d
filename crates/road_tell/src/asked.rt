//! Questions about the program itself. Such a question replaces a run.

use crate::usage::{Commands, KIT, Usage, VERSION, usage_of};
use road_command::Words;
use std::fmt::{self, Display, Formatter};

/// A question about the program. Its `Display` gives the answer.
#[derive(Clone, Copy)]
pub enum Asked {
    /// What is the program, and what does each command do?
    Help,
    /// What does this command do?
    Command(&'static Usage),
    /// Which version of the program is this?
    Version,
}

/// Returns the question about the program that the arguments ask, if they ask one.
pub fn asked_of(words: &Words) -> Option<Asked> {
    match words.count() {
        1 => match words.word(0) {
            "help" | "--help" | "-h" => Some(Asked::Help),
            "--version" | "-V" => Some(Asked::Version),
            _ => None,
        },
        2 => command_asked(words.word(0), words.word(1)),
        _ => None,
    }
}

/// Returns the command that two arguments ask about, if they do.
fn command_asked(first: &str, second: &str) -> Option<Asked> {
    let name = match (first, second) {
        ("help", name) => name,
        (name, "--help" | "-h") => name,
        _ => return None,
    };
    let usage = usage_of(name)?;
    Some(Asked::Command(usage))
}

impl Display for Asked {
    fn fmt<W: fmt::Write>(&self, f: &mut Formatter<W>) -> fmt::Result {
        match self {
            Asked::Help => write!(
                f,
                "road_proof {VERSION}, for {KIT}\nShortest routes that prove themselves. Its documents are README.md and the folder docs.\n{Commands}"
            ),
            Asked::Command(usage) => write!(f, "{usage}{}", usage.more),
            Asked::Version => write!(f, "road_proof {VERSION}, for {KIT}"),
        }
    }
}
