//! The parts of a run's files that are kept for its message.

use crate::challenge::faulty_file;
use command_files::{Ended, Fault};
use road_command::{Command, Words, command_of};

/// The greatest number of octets that are kept of a file if its first octets suffice.
const FRONT: usize = 65_536;

/// Returns the number of octets to keep of each file. Files that list roads are kept as a whole, since messages
/// name their lines.
pub fn most_kept(words: &Words) -> usize {
    match command_of(words) {
        Some(
            Command::Route { .. }
            | Command::Root { .. }
            | Command::Dimacs { .. }
            | Command::Publish { .. },
        ) => usize::MAX,
        _ => FRONT,
    }
}

/// Returns the file that the message about a run names, if `last` is the last file loaded.
pub fn subject_of<'a>(words: &'a Words, ended: Ended, last: &'a str) -> &'a str {
    match (ended.fault, command_of(words)) {
        (Some(Fault::Dimacs(fault)), Some(Command::Dimacs { graph, places })) => {
            faulty_file(graph, places, fault)
        }
        (
            None,
            Some(
                Command::Check { reply, .. }
                | Command::Audit { reply, .. }
                | Command::CheckReach { reply, .. }
                | Command::AuditReach { reply, .. },
            ),
        ) => reply,
        _ => last,
    }
}
