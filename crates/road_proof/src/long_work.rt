//! Messages before a run begins, at a terminal.

use road_command::{Command, KeyKind, Words, command_of};
use std::io::IsTerminal;

/// Reports what long work begins and about how long it takes, if standard error is a terminal.
pub fn tell_long_work(rt: HostRuntime, words: &Words) {
    if !rt.stderr().is_terminal() {
        return;
    }
    let work = match command_of(words) {
        Some(
            Command::Key {
                kind: KeyKind::H10,
                ..
            }
            | Command::Succeed {
                kind: KeyKind::H10,
                ..
            },
        ) => "1024 one-time keys are made, which takes some seconds.",
        Some(Command::Publish { settings, .. }) if settings.method == 4 =>
            "The distances of all pairs of border nodes are found, which takes up to half a minute for 2048 of them.",
        Some(Command::Survey(_)) =>
            "A grid is signed and each query is answered and checked, which takes up to minutes for the largest.",
        _ => return,
    };
    let _ = eprintln!(rt; "road_proof: {work}");
}
