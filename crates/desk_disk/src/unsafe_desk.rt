//! Why a file is not safe as a desk.
ghost use Rattle.std.specs.Prelude.{◌≡◌, ◌&&◌, Some, true};
ghost use Rattle.std.specs.Option.{is_none};
ghost use Rattle.desk_disk.specs.Looks.{is_of_mode, is_safe, is_safe_but_read, is_under, is_users};

use outside::{LINK, Look, REGULAR};
use std::fmt::{self, Display, Formatter};

/// The mode bits that grant others any permission.
const OTHERS: u64 = 0o077;

/// The mode bits that grant others permission to write.
const OTHERS_WRITE: u64 = 0o022;

/// Why a file is not safe as a desk.
#[derive(Clone, Copy, Debug, PartialEq, Eq)]
pub enum Unsafe {
    /// The name is a link.
    Link,
    /// It is not a regular file.
    Kind,
    /// Its name is now the name of another file.
    Changed,
    /// The system does not report the user of this process.
    User,
    /// It belongs to another user.
    Owner,
    /// It has more than one name.
    Names,
    /// Others may write to it.
    Mode,
    /// Others may read it, but not write to it.
    Readable,
}

impl Display for Unsafe {
    fn fmt<W: fmt::Write>(&self, f: &mut Formatter<W>) -> fmt::Result {
        f.write_str(match self {
            Unsafe::Link => "It is a link, which is not followed. Move the file itself here.",
            Unsafe::Kind => "It is not a regular file. Move it away.",
            Unsafe::Changed =>
                "Something else put another file under its name just now. Nothing was done. Stop what changes this folder, look which file is your desk, and run the command again.",
            Unsafe::User =>
                "The system does not say whose process this is, so nobody can say whose file it is. Mount /proc.",
            Unsafe::Owner =>
                "It is another user's. `chown` gives it back, if nobody has copied it.",
            Unsafe::Names => "It has a second name, by which it can be changed. Remove that name.",
            Unsafe::Mode =>
                "Others may write it. `chmod 600 owner.desk` ends that, and whoever has read it can sign in your name.",
            Unsafe::Readable =>
                "Others may read it, and whoever has read it can sign in your name. `chmod 600 owner.desk` ends that.",
        })
    }
}

/// Tests whether nothing is at fault, or the mode alone.
pub fn is_of_mode(fault: Option<Unsafe>) -> bool
    ensures { result ≡ is_of_mode fault }
{
    matches!(fault, None | Some(Unsafe::Mode | Unsafe::Readable))
}

/// Returns why a file with this look is not safe as a desk of a user, without regard to its name.
pub fn fault_of(look: Look, user: Option<u64>) -> Option<Unsafe>
    ensures none { is_none result ≡ is_safe user look }
    ensures readable { result ≡ Some Unsafe.Readable → is_safe_but_read user look ≡ true }
    ensures own { is_of_mode result ≡ is_users user look }
{
    let Some(user) = user else {
        return Some(Unsafe::User);
    };
    if look.kind == LINK {
        Some(Unsafe::Link)
    } else if look.kind != REGULAR {
        Some(Unsafe::Kind)
    } else if look.owner != user {
        Some(Unsafe::Owner)
    } else if look.names != 1 {
        Some(Unsafe::Names)
    } else if look.mode & OTHERS == 0 {
        None
    } else if look.mode & OTHERS_WRITE == 0 {
        Some(Unsafe::Readable)
    } else {
        Some(Unsafe::Mode)
    }
}

/// Returns why an opened file is not safe as a desk of a user. Takes a look at its name, without following a link,
/// and a look at the file itself.
pub fn fault_of_opened(named: Look, held: Look, user: Option<u64>) -> Option<Unsafe>
    ensures none { is_none result ≡ (is_under named held && is_safe user held) }
    ensures readable { result ≡ Some Unsafe.Readable →
        (is_under named held && is_safe_but_read user held) ≡ true }
    ensures own { is_of_mode result ≡ (is_under named held && is_users user held) }
{
    if named.kind == LINK {
        return Some(Unsafe::Link);
    }
    if named.kind != REGULAR {
        return Some(Unsafe::Kind);
    }
    if named.device != held.device || named.inode != held.inode {
        return Some(Unsafe::Changed);
    }
    fault_of(held, user)
}
