//! Standard streams that cannot take what a command writes.
ghost use Rattle.std.specs.Prelude.{◌≡◌, ◌&&◌, [], true, Some, IfSome};
ghost use Rattle.outside.specs.declared.look.Look.{Look};
ghost use Rattle.road_command.specs.Requests.{request_of};
ghost use Rattle.desk_guard.specs.Files.{AreLookedAt, holds_octets, is_same_file};
ghost use Rattle.desk_guard.specs.Beginning.{clash_exit, writes_octets, IsClash};

use crate::user::{holds_octets, is_same_file};
use outside::NotedNames;
use road_command::{Command, Words, command_of};
use std::rt::Files;

/// Why a standard stream cannot take what a command writes. The process then does nothing.
#[derive(Clone, Copy, Debug, PartialEq, Eq)]
pub enum Clash<'a> {
    /// Standard error is the owner's desk, which messages would overwrite.
    ErrorIsDesk,
    /// Standard output is the owner's desk, which output would overwrite.
    OutputIsDesk,
    /// Standard output is a terminal, and the command writes octets that are not text.
    OutputIsTerminal,
    /// Standard output is the file with this name, which the command reads and output would overwrite.
    OutputIsInput(&'a str),
}

impl Clash<'_> {
    /// Returns the status of the process.
    pub fn status(&self) -> u8
        ensures { result ≡ clash_exit self.now }
    {
        match self {
            Clash::ErrorIsDesk | Clash::OutputIsDesk => 7,
            Clash::OutputIsTerminal => 2,
            Clash::OutputIsInput(_) => 6,
        }
    }
}

/// Tests whether standard error or output is the owner's desk, by device and number of the files.
pub fn desk_clash<R: Files>(rt: &R) -> Option<Clash<'static>> {
    if is_stream(rt, "/proc/self/fd/2", "owner.desk") {
        return Some(Clash::ErrorIsDesk);
    }
    if is_stream(rt, "/proc/self/fd/1", "owner.desk") {
        return Some(Clash::OutputIsDesk);
    }
    None
}

/// Tests whether the requested command writes octets that are not text.
fn writes_octets(words: &Words) -> bool
    ensures { result ≡ writes_octets (request_of words.now) }
{
    matches!(
        command_of(words),
        Some(
            Command::Publish { .. }
                | Command::Prove { .. }
                | Command::Reach { .. }
                | Command::Serve { .. }
                | Command::ServeSigned { .. }
                | Command::Links
        )
    )
}

/// Returns why standard output cannot take what the requested command writes, if it cannot: it is a terminal and the
/// command writes octets, or it is a file that the command reads. A terminal, a pipe and `/dev/null` hold no data.
pub fn output_clash<'a, R: Files>(rt: &R, words: &'a Words, is_terminal: bool) -> Option<Clash<'a>>
    ensures terminal { is_terminal ≡ true → writes_octets (request_of words.now) ≡ true →
        result ≡ Some Clash.OutputIsTerminal }
    ensures cause { IfSome result (IsClash (request_of words.now) is_terminal) }
{
    if is_terminal && writes_octets(words) {
        return Some(Clash::OutputIsTerminal);
    }
    for name in read_by(words) {
        if let Some(name) = name {
            if is_stream(rt, "/proc/self/fd/1", name) {
                return Some(Clash::OutputIsInput(name));
            }
        }
    }
    None
}

/// Tests whether a stream is the file with a name.
fn is_stream<R: Files>(rt: &R, stream: &str, name: &str) -> bool {
    is_one(&mut NotedNames::new(rt), stream, name)
}

/// Tests whether two names lead to one file that holds octets, by looks at them, which are noted.
fn is_one<R: Files + Drop>(names: &mut NotedNames<R>, stream: &str, name: &str) -> bool
    requires { names.old.answers.events ≡ [] }
    ensures { (held file : Look) →
        AreLookedAt stream.now held name.now file names.new.answers.events →
        result ≡ (holds_octets file && is_same_file held file) }
{
    match (names.look(stream), names.look(name)) {
        (Ok(held), Ok(file)) => holds_octets(file) && is_same_file(held, file),
        _ => false,
    }
}

/// Returns the names of the files that a command reads besides the desk, at most four.
fn read_by(words: &Words) -> [Option<&str>; 4] {
    match command_of(words) {
        Some(command) => named_in(command),
        None => [None; 4],
    }
}

/// Returns the same for a command.
fn named_in(command: Command<'_>) -> [Option<&str>; 4] {
    match command {
        Command::Route { roads, .. } => one(roads),
        Command::Root { roads, .. } => one(roads),
        Command::Dimacs { graph, places } => [Some(graph), Some(places), None, None],
        Command::Key { secret, .. } => one(secret),
        Command::Succeed { secret, .. } => [Some(secret), KNOWN, None, None],
        Command::Publish { roads, .. } => [Some(roads), KNOWN, None, None],
        Command::Links => [KNOWN, None, None, None],
        Command::Prove { publication, .. } => one(publication),
        Command::Reach { publication, .. } => one(publication),
        Command::Serve { publication } => one(publication),
        _ => signed_in(command),
    }
}

/// Returns the same for a command that reads a key.
fn signed_in(command: Command<'_>) -> [Option<&str>; 4] {
    match command {
        Command::ServeSigned {
            publication,
            key,
            chain,
        } => [Some(publication), Some(key), chain, None],
        Command::Check {
            reply,
            key,
            chain,
            ..
        } => [Some(reply), Some(key), chain, None],
        Command::CheckReach {
            reply,
            key,
            chain,
            ..
        } => [Some(reply), Some(key), chain, None],
        Command::Audit {
            key,
            publication,
            reply,
            chain,
            ..
        } => [Some(key), Some(publication), Some(reply), chain],
        Command::AuditReach {
            key,
            publication,
            reply,
            chain,
            ..
        } => [Some(key), Some(publication), Some(reply), chain],
        Command::Reduce {
            key,
            text,
            signature,
        } => [Some(key), Some(text), Some(signature), None],
        _ => [None; 4],
    }
}

/// The file that names the owner's first key.
const KNOWN: Option<&str> = Some("owner.key");

/// Returns a single name.
fn one(name: &str) -> [Option<&str>; 4] {
    [Some(name), None, None, None]
}
