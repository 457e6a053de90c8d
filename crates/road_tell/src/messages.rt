//! The message about a run.

use crate::challenge::faulty_file;
use crate::content::Content;
use crate::looks::Look;
use crate::names::ShortName;
use crate::numbers::bad_number;
use crate::plans::{plan_rule, setting_name};
use crate::refusals::Unusable;
use crate::roads::place_of;
use crate::usage::Commands;
use crate::words::wrong_words;
use book_model::{PlanError, Query};
use command_files::{Ended, Fault};
use dimacs_reader::DimacsError;
use road_command::{Command, Words, command_of};
use road_line::{read_refused, read_refused_near};
use road_map::MapError;
use road_reader::{RoadError, natural, split_word};
use std::fmt::{self, Display, Formatter};
use std::io::{self, ErrorKind};

/// The known facts about a run besides its arguments and its end.
#[derive(Clone, Copy)]
pub struct Facts<'a> {
    /// The name of the last file loaded.
    pub name: &'a str,
    /// The known contents of the file that the message names (see `subject_of`).
    pub file: Content<'a>,
    /// The system's reason why that file could not be read.
    pub file_error: Option<io::Error>,
    /// The system's reason why the input could not be read.
    pub source_error: Option<io::Error>,
    /// The system's reason why the output could not be written.
    pub sink_error: Option<io::Error>,
    /// The system's reason why the owner's file failed.
    pub desk_error: Option<io::Error>,
    /// The first octets of the run's standard output.
    pub line: &'a [u8],
    /// The short name of the public key that was loaded, if any.
    pub key: Option<ShortName>,
    /// The number of maps that the owner's key can still sign, if a map was signed.
    pub left: Option<u32>,
}

/// The greatest number of remaining one-time keys for which the message warns that few are left.
const FEW: u32 = 3;

/// The message about a run: lines of the form `road_proof: WHAT: SENTENCE`, and the command's usage if an argument
/// is wrong.
#[derive(Clone, Copy)]
pub struct Message<'a> {
    words: &'a Words,
    command: Option<Command<'a>>,
    ended: Ended,
    facts: Facts<'a>,
}

/// Returns the message about a run, if there is one.
pub fn message_on<'a>(words: &'a Words, ended: Ended, facts: Facts<'a>) -> Option<Message<'a>> {
    let message = Message {
        words,
        command: command_of(words),
        ended,
        facts,
    };
    if message.is_silent() {
        return None;
    }
    Some(message)
}

impl Display for Message<'_> {
    fn fmt<W: fmt::Write>(&self, f: &mut Formatter<W>) -> fmt::Result {
        match self.ended.fault {
            None => self.verdict(f),
            Some(Fault::Words) => self.wrong_words(f),
            Some(Fault::Memory(_)) => f.write_str("road_proof: memory: Out of memory."),
            Some(Fault::Sink) => self.output(f),
            Some(fault) => {
                let what = without_secret(self.what(fault));
                write!(f, "road_proof: {what}: ")?;
                self.sentence(f, fault)
            }
        }
    }
}

impl<'a> Message<'a> {
    /// Tests whether there is nothing to report: the work was done, more than a few one-time keys are left, and no
    /// reply without a route was accepted.
    fn is_silent(&self) -> bool {
        if self.ended.status != 0 || self.ended.fault.is_some() {
            return false;
        }
        match self.command {
            Some(Command::Desk) => false,
            Some(Command::Publish { .. }) => match self.facts.left {
                Some(left) => left > FEW,
                None => true,
            },
            _ => self.apart().is_none(),
        }
    }

    /// Returns the ends that no walk joins, and the version of the map that shows this, if such a reply was
    /// accepted.
    fn apart(&self) -> Option<(Query, u64)> {
        let query = match self.command {
            Some(Command::Check { query, .. } | Command::Audit { query, .. }) => query,
            _ => return None,
        };
        match self.facts.file.octets() {
            [3, header @ ..] => Some((query, version_of(header)?)),
            _ => None,
        }
    }

    /// Returns why the reply was refused, from the line that was written.
    fn refusal(&self) -> Option<Unusable> {
        let line = self.facts.line;
        match self.command {
            Some(Command::Check { .. } | Command::Audit { .. }) => {
                Some(Unusable::Route(read_refused(line)?))
            }
            Some(Command::CheckReach { .. } | Command::AuditReach { .. }) => {
                Some(Unusable::Nodes(read_refused_near(line)?))
            }
            _ => None,
        }
    }

    /// Writes the sentence about a run without a fault.
    fn verdict<W: fmt::Write>(&self, f: &mut Formatter<W>) -> fmt::Result {
        if let Some(Command::Reduce { signature, .. }) = self.command {
            return self.reduced(f, signature);
        }
        if let (1, Some(Command::ServeSigned { publication, .. })) = (
            self.ended.status,
            self.command,
        ) {
            return write!(
                f,
                "road_proof: {publication}: It is not served: it or a link of the chain is not signed. The output says which."
            );
        }
        let reply = reply_of(self.command);
        match (self.ended.status, self.refusal()) {
            (0, _) => match self.apart() {
                Some((ends, version)) => apart(f, reply, ends, version),
                None => self.keys(f),
            },
            (1, Some(why)) => {
                write!(f, "road_proof: {reply}: {why}")?;
                if why.is_unsigned() {
                    self.key_name(f)?;
                }
                if why
                    .malformed_at()
                    .is_some_and(|at| self.facts.file.ends_a_line_at(at))
                {
                    f.write_str(" The file has one octet too many: a line end.")?;
                }
                self.look(f, reply_look(self.command))
            }
            (1, None) => write!(
                f,
                "road_proof: {reply}: {} not to be used: the reply is refused.",
                brought(self.command)
            ),
            _ => write!(
                f,
                "road_proof: {reply}: {} not to be used: the reply rests on a text that the owner never signed, or on two texts with the same digest. Keep the output with the three files.",
                brought(self.command)
            ),
        }
    }

    /// Writes the sentence about a signature of a text that the desk did not sign.
    fn reduced<W: fmt::Write>(&self, f: &mut Formatter<W>, signature: &str) -> fmt::Result {
        if self.ended.status == 1 {
            write!(
                f,
                "road_proof: {signature}: It is not a signature by this key on the text. The output gives the reason."
            )
        } else {
            write!(
                f,
                "road_proof: {signature}: It rests on two texts with the same digest, or on a value that the desk never released. Keep the output with the three files."
            )
        }
    }

    /// Writes the short name of the public key under which a reply is not signed.
    fn key_name<W: fmt::Write>(&self, f: &mut Formatter<W>) -> fmt::Result {
        match self.facts.key {
            Some(name) => write!(f, " The short name of this public key is {name}."),
            None => Ok(()),
        }
    }

    /// Writes the short name of the key after `desk`, and the warning that few one-time keys are left.
    fn keys<W: fmt::Write>(&self, f: &mut Formatter<W>) -> fmt::Result {
        let (name, left) = match self.command {
            Some(Command::Desk) => (
                ShortName::of_digits(self.facts.line),
                left_in(self.facts.line),
            ),
            _ => (None, self.facts.left),
        };
        if let Some(name) = name {
            write!(
                f,
                "road_proof: owner.desk: The short name of its key is {name}."
            )?;
        }
        match (name, left) {
            (Some(_), Some(left)) if left <= FEW => {
                f.write_str("\n")?;
                few_left(f, left)
            }
            (None, Some(left)) => few_left(f, left),
            _ => Ok(()),
        }
    }

    /// Writes which argument is wrong, and why.
    fn wrong_words<W: fmt::Write>(&self, f: &mut Formatter<W>) -> fmt::Result {
        match wrong_words(self.words) {
            Some(wrong) => write!(f, "{wrong}"),
            None => write!(f, "road_proof: arguments: They fit no command.\n{Commands}"),
        }
    }

    /// Writes why the output could not be written, and what was done before.
    fn output<W: fmt::Write>(&self, f: &mut Formatter<W>) -> fmt::Result {
        f.write_str("road_proof: standard output: It was not written whole")?;
        reason(f, self.facts.sink_error)?;
        match self.command {
            Some(Command::Publish { .. }) => f.write_str(" One one-time key was used for it."),
            Some(Command::Key { .. } | Command::Succeed { .. }) => {
                f.write_str(" The key was made, and `road_proof desk` writes its public key.")
            }
            _ => Ok(()),
        }
    }

    /// Returns the name that begins the message about a fault.
    fn what(&self, fault: Fault) -> &'a str {
        match fault {
            Fault::Disk
            | Fault::KeysUsedUp
            | Fault::Held
            | Fault::NoKey
            | Fault::BadBlock
            | Fault::TooManyKeys
            | Fault::NoSuccession
            | Fault::SameSecret => { "owner.desk" }
            Fault::TruncatedFrame | Fault::FrameTooLong | Fault::TooManyFrames | Fault::Source =>
                "standard input",
            Fault::OtherPublication => reply_of(self.command),
            Fault::MirrorLost => "mirrors",
            Fault::Dimacs(fault) => challenge_of(self.command, fault),
            Fault::OtherKey => key_of(self.command),
            Fault::Plan(PlanError::Settings(number)) if settings_of(self.command).is_some() => {
                setting_name(number)
            }
            Fault::HeaderWrong
            | Fault::Map(_)
            | Fault::Plan(_)
            | Fault::UnknownNode(_)
            | Fault::NoRoute => { map_of(self.command) }
            _ => self.facts.name,
        }
    }

    /// Writes the sentence about a fault.
    fn sentence<W: fmt::Write>(&self, f: &mut Formatter<W>, fault: Fault) -> fmt::Result {
        match fault {
            Fault::Map(fault) => self.map(f, fault),
            Fault::Plan(fault) => self.plan(f, fault),
            Fault::UnknownNode(id) => write!(f, "It has no node {id}."),
            Fault::NoRoute => f.write_str("No route joins the two nodes."),
            Fault::HeaderWrong => f.write_str("Its header does not match its map and settings."),
            Fault::OtherKey => f.write_str("The file owner.desk does not have this public key."),
            Fault::OtherPublication => write!(
                f,
                "{} not to be used yet. The reply is from another publication of the owner: audit it with that one.",
                brought(self.command)
            ),
            Fault::MirrorLost => f.write_str(
                "A mirror failed before it had the whole publication. Standard output has all of it.",
            ),
            Fault::Disk
            | Fault::KeysUsedUp
            | Fault::Held
            | Fault::NoKey
            | Fault::BadBlock
            | Fault::TooManyKeys
            | Fault::NoSuccession
            | Fault::SameSecret => self.desk(f, fault),
            Fault::TruncatedFrame | Fault::FrameTooLong | Fault::TooManyFrames | Fault::Source =>
                self.input(f, fault),
            _ => self.file(f, fault),
        }
    }

    /// Writes the sentence about a file that could not be read, or is not of the right kind.
    fn file<W: fmt::Write>(&self, f: &mut Formatter<W>, fault: Fault) -> fmt::Result {
        match fault {
            Fault::TooLong => f.write_str("It has more than 268435456 octets, the limit."),
            Fault::Road(fault) => match fault {
                RoadError::BadNumber(line) => self.number(f, line),
                RoadError::NoTitle => {
                    write!(f, "{fault}")?;
                    self.look(f, Look::RoadFile)
                }
                _ => write!(f, "{fault}"),
            },
            Fault::Dimacs(fault) => match fault {
                DimacsError::BadNumber(_, line) => self.number(f, line),
                DimacsError::NoProblem(_) => {
                    write!(f, "{fault}")?;
                    self.look(f, Look::RoadFile)
                }
                _ => write!(f, "{fault}"),
            },
            Fault::Malformed(place) => {
                let (kind, wanted) = self.malformed();
                write!(
                    f,
                    "It is not a {kind}: the field at offset {place} cannot be read."
                )?;
                self.look(f, wanted)
            }
            Fault::BadHex => {
                match self.facts.file {
                    Content::Hex { wrong, .. } => write!(f, "{wrong}")?,
                    _ => f.write_str("It is not the required hex digits.")?,
                }
                self.look(f, Look::Empty)
            }
            _ => {
                f.write_str("It cannot be read")?;
                reason(f, self.facts.file_error)?;
                match self.facts.name {
                    "-" => f.write_str(" The name of standard input is /dev/stdin."),
                    _ => Ok(()),
                }
            }
        }
    }

    /// Writes which word of a line is not a number in the allowed range, and what it must be.
    fn number<W: fmt::Write>(&self, f: &mut Formatter<W>, line: u32) -> fmt::Result {
        match bad_number(self.facts.file.octets(), line) {
            Some(bad) => write!(f, "{bad}"),
            None => write!(f, "Line {line} has an invalid number, or one out of range."),
        }
    }

    /// Returns the required kind of the last file loaded, if the file could not be read as that kind.
    fn malformed(&self) -> (&'static str, Look) {
        match chain_of(self.command) {
            Some(chain) if chain == self.facts.name => ("chain file", Look::Chain),
            _ => ("publication", Look::Publication),
        }
    }

    /// Writes what kind of file it looks like, if it looks like another kind.
    fn look<W: fmt::Write>(&self, f: &mut Formatter<W>, wanted: Look) -> fmt::Result {
        match self.facts.file.look() {
            Some(look) if look != wanted => write!(f, " {look}"),
            _ => Ok(()),
        }
    }

    /// Writes which rule of maps is broken, and in which line of a road file.
    fn map<W: fmt::Write>(&self, f: &mut Formatter<W>, fault: MapError) -> fmt::Result {
        let place = match self.command {
            Some(
                Command::Prove { .. }
                | Command::Serve { .. }
                | Command::ServeSigned { .. }
                | Command::Audit { .. }
                | Command::Reach { .. }
                | Command::AuditReach { .. },
            ) => None,
            _ => place_of(self.facts.file.octets(), fault),
        };
        match place {
            Some(place) => write!(f, "{place}"),
            None => write!(f, "{fault}"),
        }
    }

    /// Writes why settings and a map have no book.
    fn plan<W: fmt::Write>(&self, f: &mut Formatter<W>, fault: PlanError) -> fmt::Result {
        match (fault, settings_of(self.command)) {
            (PlanError::Settings(number), Some(method)) => {
                let rule = plan_rule(method, number);
                write!(f, "It is out of range. {rule}")
            }
            (PlanError::Settings(number), None) => {
                let name = setting_name(number);
                write!(f, "Its setting {name} is out of range.")
            }
            _ => write!(f, "{fault}"),
        }
    }

    /// Writes why no more frames were taken.
    fn input<W: fmt::Write>(&self, f: &mut Formatter<W>, fault: Fault) -> fmt::Result {
        match fault {
            Fault::TruncatedFrame => f.write_str("It ends within a frame."),
            Fault::FrameTooLong => f.write_str(
                "It announces a frame of more than 4194304 octets, the limit.",
            ),
            Fault::TooManyFrames => f.write_str(
                "It continues after its 1000000th frame, the limit.",
            ),
            _ => {
                f.write_str("It cannot be read")?;
                reason(f, self.facts.source_error)
            }
        }
    }

    /// Writes the sentence about the owner's file.
    fn desk<W: fmt::Write>(&self, f: &mut Formatter<W>, fault: Fault) -> fmt::Result {
        match fault {
            Fault::KeysUsedUp => f.write_str(
                "All its one-time keys are used, except the one that signs the next key. `road_proof succeed` makes the next key.",
            ),
            Fault::Held => f.write_str("It already holds a key. No other key may replace it."),
            Fault::NoKey => f.write_str(
                "It holds no key, or does not exist. `road_proof key` makes one.",
            ),
            Fault::BadBlock => f.write_str(
                "One of its keys is of an unknown kind, lacks slots, or is not the one that the previous key signed. Or a new signature was wrong because a bit of memory had flipped: then nothing was written.",
            ),
            Fault::TooManyKeys => f.write_str(
                "It holds eight keys, the limit. Make a new key in another folder.",
            ),
            Fault::NoSuccession => f.write_str(
                "Its last one-time key has signed a publication, so it cannot sign the next key. Make a new key in another folder.",
            ),
            Fault::SameSecret => f.write_str(
                "It already holds a key whose first 16 octets are those of this secret. The next key needs another secret.",
            ),
            _ => match self.facts.desk_error {
                Some(e) if e.kind() == ErrorKind::WouldBlock => {
                    f.write_str("Another process is using it.")
                }
                Some(e) if e.kind() == ErrorKind::AlreadyExists => {
                    f.write_str("Another process has just made it.")
                }
                error => {
                    f.write_str("It cannot be read or written")?;
                    reason(f, error)
                }
            },
        }
    }
}

/// Writes the warning that few one-time keys are left.
fn few_left<W: fmt::Write>(f: &mut Formatter<W>, left: u32) -> fmt::Result {
    let keys = if left == 1 { "key is" } else { "keys are" };
    write!(
        f,
        "road_proof: owner.desk: {left} one-time {keys} left. `road_proof succeed` makes the next key."
    )
}

/// Returns the number of maps that the owner's key can still sign, from the line of `desk`.
fn left_in(line: &[u8]) -> Option<u32> {
    let (_, rest) = split_word(line);
    let (left, _) = split_word(rest);
    natural(left)
}

/// Returns the version in a header.
fn version_of(header: &[u8]) -> Option<u64> {
    match header {
        [
            b'R',
            b'P',
            b'F',
            b'1',
            _,
            _,
            _,
            0,
            a,
            b,
            c,
            d,
            e,
            f,
            g,
            h,
            ..
        ] => Some(u64::from_be_bytes([*a, *b, *c, *d, *e, *f, *g, *h])),
        _ => None,
    }
}

/// Writes the content of an accepted reply without a route.
fn apart<W: fmt::Write>(
    f: &mut Formatter<W>,
    reply: &str,
    ends: Query,
    version: u64,
) -> fmt::Result {
    let Query { from, to } = ends;
    write!(
        f,
        "road_proof: {reply}: No road leads from {from} to {to}, and version {version} of the owner's map shows it."
    )
}

/// Returns the name to print for a file. A name with 64 or more hex digits looks like a secret and is not printed.
fn without_secret(name: &str) -> &str {
    if name.len() >= 64
        && name
            .as_bytes()
            .iter()
            .all(|octet| octet.is_ascii_hexdigit())
    {
        return "a name that looks like a secret";
    }
    name
}

/// Writes the system's reason, and ends the sentence.
fn reason<W: fmt::Write>(f: &mut Formatter<W>, error: Option<io::Error>) -> fmt::Result {
    match error {
        Some(e) => write!(f, ": {e}."),
        None => f.write_str("."),
    }
}

/// Returns the file name of a command's reply.
fn reply_of(command: Option<Command<'_>>) -> &str {
    match command {
        Some(
            Command::Check { reply, .. }
            | Command::Audit { reply, .. }
            | Command::CheckReach { reply, .. }
            | Command::AuditReach { reply, .. },
        ) => reply,
        _ => "reply",
    }
}

/// Returns what a command's reply holds, with a verb.
fn brought(command: Option<Command<'_>>) -> &'static str {
    match command {
        Some(Command::CheckReach { .. } | Command::AuditReach { .. }) => "The nodes are",
        _ => "The answer is",
    }
}

/// Returns the kind of file that a command's reply should look like.
fn reply_look(command: Option<Command<'_>>) -> Look {
    match command {
        Some(Command::CheckReach { .. } | Command::AuditReach { .. }) => Look::NearReply,
        _ => Look::Reply,
    }
}

/// Returns the file name of a command's public key.
pub fn key_of(command: Option<Command<'_>>) -> &str {
    match command {
        Some(
            Command::Check { key, .. }
            | Command::Audit { key, .. }
            | Command::CheckReach { key, .. }
            | Command::AuditReach { key, .. }
            | Command::ServeSigned { key, .. }
            | Command::Reduce { key, .. },
        ) => key,
        _ => "key",
    }
}

/// Returns the file name of a command's chain, if one is given.
fn chain_of(command: Option<Command<'_>>) -> Option<&str> {
    match command {
        Some(
            Command::Check { chain, .. }
            | Command::Audit { chain, .. }
            | Command::CheckReach { chain, .. }
            | Command::AuditReach { chain, .. }
            | Command::ServeSigned { chain, .. },
        ) => chain,
        _ => None,
    }
}

/// Returns the file name of a command's map.
fn map_of(command: Option<Command<'_>>) -> &str {
    match command {
        Some(
            Command::Route { roads, .. }
            | Command::Root { roads, .. }
            | Command::Publish { roads, .. },
        ) => roads,
        Some(
            Command::Prove { publication, .. }
            | Command::Serve { publication }
            | Command::ServeSigned { publication, .. }
            | Command::Audit { publication, .. }
            | Command::Reach { publication, .. }
            | Command::AuditReach { publication, .. },
        ) => publication,
        Some(Command::Survey(_)) => "grid",
        _ => "map",
    }
}

/// Returns the name of the challenge's file that has the fault.
fn challenge_of(command: Option<Command<'_>>, fault: DimacsError) -> &str {
    match command {
        Some(Command::Dimacs { graph, places }) => faulty_file(graph, places, fault),
        _ => "graph",
    }
}

/// Returns the method in the settings of a command, if it has settings.
fn settings_of(command: Option<Command<'_>>) -> Option<u8> {
    match command {
        Some(Command::Publish { settings, .. }) => Some(settings.method),
        _ => None,
    }
}
