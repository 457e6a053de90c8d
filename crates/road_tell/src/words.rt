//! Arguments that fit no command.

use crate::usage::{Commands, Usage, usage_of};
use road_command::{Words, reading};
use road_reader::{natural, wide_natural};
use std::fmt::{self, Display, Formatter};

/// Why arguments fit no command.
#[derive(Clone, Copy)]
pub enum WrongWords<'a> {
    /// There are no arguments.
    None,
    /// The first argument is not the name of a command.
    NoCommand(&'a str),
    /// The command takes a different number of arguments.
    Count {
        usage: &'static Usage,
        least: usize,
        most: usize,
        found: usize,
    },
    /// This argument is invalid at its position.
    Word {
        usage: &'static Usage,
        place: &'static str,
        word: &'a str,
    },
}

/// Returns why arguments fit no command, if the reason can be found.
pub fn wrong_words(words: &Words) -> Option<WrongWords<'_>> {
    if words.count() == 0 {
        return Some(WrongWords::None);
    }
    let name = match words.word(0) {
        "help" if words.count() > 1 => words.word(1),
        name => name,
    };
    match usage_of(name) {
        None => Some(WrongWords::NoCommand(name)),
        Some(usage) => wrong_place(usage, words),
    }
}

/// Returns the first argument that is invalid at its position, if the number of arguments is right.
fn wrong_place<'a>(usage: &'static Usage, words: &'a Words) -> Option<WrongWords<'a>> {
    let most = usage.words.split(' ').count();
    let least = most.saturating_sub(usage.optional());
    let found = words.count() as usize;
    if found < least || most < found {
        return Some(WrongWords::Count {
            usage,
            least: least.saturating_sub(1),
            most: most.saturating_sub(1),
            found: found.saturating_sub(1),
        });
    }
    let mut index = 0;
    for place in usage.words.split(' ') {
        if index < words.count() {
            let word = words.word(index);
            if !fits(place, word) {
                return Some(WrongWords::Word { usage, place, word });
            }
            index += 1;
        }
    }
    None
}

/// Tests whether an argument is valid at a position.
fn fits(place: &str, word: &str) -> bool {
    match place {
        "S" | "T" => natural(word.as_bytes()).is_some(),
        "FAN" => reading::fan(word).is_some(),
        "WIDTH" => reading::width(word).is_some(),
        "QUERIES" => reading::queries(word).is_some(),
        "KIND" => reading::kind(word).is_some(),
        "METHOD" => reading::method(word).is_some(),
        "ORDER" => reading::order(word).is_some(),
        "VERSION" | "SEED" | "P1" | "P2" | "P3" | "LEAST" | "RADIUS" => wide_natural(
            word.as_bytes(),
        ).is_some(),
        _ => true,
    }
}

/// Returns the rule for the arguments at a position.
fn rule(place: &str) -> &'static str {
    match place {
        "S" | "T" => "a node's id, a whole number from 0 to 4294967295",
        "FAN" => "a whole number from 2 to 32",
        "WIDTH" => "a whole number from 2 to 256",
        "QUERIES" => "a whole number from 1 to 1000",
        "KIND" => "h5, for 31 publications, or h10, for 1023",
        "METHOD" => "dij, full, ldm or hyp",
        "ORDER" => "id, breadth, depth, hilbert, kd or shuffled",
        _ => "a whole number from 0 to 18446744073709551615",
    }
}

impl Display for WrongWords<'_> {
    fn fmt<W: fmt::Write>(&self, f: &mut Formatter<W>) -> fmt::Result {
        match self {
            WrongWords::None => write!(f, "road_proof: arguments: There are none.\n{Commands}"),
            WrongWords::NoCommand(name) => write!(
                f,
                "road_proof: {name}: There is no such command. `road_proof help` lists them."
            ),
            WrongWords::Count {
                usage,
                least,
                most,
                found,
            } => {
                let name = usage.words.split(' ').next().unwrap_or("");
                write!(f, "road_proof: {name}: It takes ")?;
                if *least < *most {
                    write!(f, "{least} to ")?;
                }
                let arguments = if *most == 1 { "argument" } else { "arguments" };
                write!(f, "{most} {arguments}, not {found}.\n{usage}")
            }
            WrongWords::Word { usage, place, word } => {
                let rule = rule(place);
                write!(f, "road_proof: {word}: {place} must be {rule}.\n{usage}")
            }
        }
    }
}
