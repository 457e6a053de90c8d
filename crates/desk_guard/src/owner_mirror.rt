//! An owner's mirrors: existing files, including those that cannot be opened.

use crate::user::{is_own, is_same_file};
use mirror_out::FileMirror;
use outside::{FIFO, LINK, Look, NotedNames, REGULAR, SOCKET, open_to_append};
use std::fmt::{self, Display, Formatter};
use std::fs::File;
use std::io::{self, ErrorKind};
use std::rt::Files;

/// Why a mirror is lost before anything is written to it.
#[derive(Clone, Copy)]
pub enum WhyLost {
    /// The system refused to open it.
    Refused(io::Error),
    /// It is a FIFO or a socket, so opening it would wait for a reader.
    Waits,
    /// The name is a link, and the link or its target belongs to another user.
    Owner,
    /// The name leads to the owner's desk.
    Desk,
    /// When the file was inspected, its name belonged to another file.
    Changed,
}

impl Display for WhyLost {
    fn fmt<W: fmt::Write>(&self, f: &mut Formatter<W>) -> fmt::Result {
        match self {
            WhyLost::Refused(e) => write!(f, "It cannot be opened: {e}."),
            WhyLost::Waits => f.write_str("It is a FIFO or a socket, which is not opened."),
            WhyLost::Owner => f.write_str(
                "It is a link, and the link or its target belongs to another user.",
            ),
            WhyLost::Desk => f.write_str("It leads to the owner's desk."),
            WhyLost::Changed => f.write_str(
                "Something else put another file under its name just now.",
            ),
        }
    }
}

/// A mirror in an existing file, which is open or already lost. If it is lost, the reason is known.
#[derive(Drop)]
pub struct OwnerMirror {
    pub mirror: FileMirror,
    pub why_lost: Option<WhyLost>,
}

/// Opens the mirror with a label in the file with a name, if the file exists. Inspects the name without following a
/// link. `desk` is the name of the desk.
pub fn mirror_of<R: Files<File = File>>(
    rt: &R,
    label: u32,
    name: &str,
    desk: &str,
) -> Option<OwnerMirror> {
    let mut names = NotedNames::new(rt);
    let opened = match names.look_at_link(name) {
        Err(e) if e.kind() == ErrorKind::NotFound => return None,
        Err(e) => Err(WhyLost::Refused(e)),
        Ok(named) => match fault_before(&mut names, name, named, desk) {
            Ok(target) => open(rt, name, target),
            Err(why) => Err(why),
        },
    };
    Some(match opened {
        Ok(file) => OwnerMirror {
            mirror: FileMirror::new(label, file),
            why_lost: None,
        },
        Err(why) => OwnerMirror {
            mirror: FileMirror::lost(label),
            why_lost: Some(why),
        },
    })
}

/// Looks at the file to which a name leads. Returns the look, or why the file is not opened.
fn fault_before<R: Files + Drop>(
    names: &mut NotedNames<R>,
    name: &str,
    named: Look,
    desk: &str,
) -> Result<Look, WhyLost> {
    let target = match names.look(name) {
        Ok(target) => target,
        Err(e) => return Err(WhyLost::Refused(e)),
    };
    if target.kind == FIFO || target.kind == SOCKET {
        return Err(WhyLost::Waits);
    }
    if named.kind == LINK && !is_ours(names.user(), named, target) {
        return Err(WhyLost::Owner);
    }
    match names.look(desk) {
        Ok(desk) if is_same_file(target, desk) => Err(WhyLost::Desk),
        _ => Ok(target),
    }
}

/// Opens the file of a name for appending, if it is still the one that was looked at.
fn open<R: Files<File = File>>(rt: &R, name: &str, target: Look) -> Result<File, WhyLost> {
    match open_to_append(rt, name) {
        Ok((_, opened)) if !is_same_file(opened, target) => Err(WhyLost::Changed),
        Ok((file, _)) => Ok(file),
        Err(e) => Err(WhyLost::Refused(e)),
    }
}

/// Tests whether a link and its target belong to this user. Devices belong to the system.
fn is_ours(user: Option<u64>, link: Look, target: Look) -> bool {
    is_own(link, user) && (target.kind != REGULAR || is_own(target, user))
}
