//! Whose a file is, and which.
ghost use Rattle.std.specs.Prelude.{◌≡◌};
ghost use Rattle.desk_guard.specs.Files.{holds_octets, is_own, is_same_file};

use outside::{BLOCK, Look, REGULAR};

/// Tests whether a file belongs to this user, if the user is known.
pub fn is_own(file: Look, user: Option<u64>) -> bool
    ensures { result ≡ is_own user file }
{
    match user {
        Some(user) => file.owner == user,
        None => true,
    }
}

/// Tests whether two looks show the same file.
pub fn is_same_file(one: Look, other: Look) -> bool
    ensures { result ≡ is_same_file one other }
{
    one.device == other.device && one.inode == other.inode
}

/// Tests whether a file holds octets: a regular file or a block device.
pub fn holds_octets(file: Look) -> bool
    ensures { result ≡ holds_octets file }
{
    file.kind == REGULAR || file.kind == BLOCK
}
