//! How a command uses the owner's desk.
ghost use Rattle.std.specs.Prelude.{◌≡◌};
ghost use Rattle.road_command.specs.Requests.{request_of};
ghost use Rattle.guarded_run.specs.Uses.{does_sign, keys_used, uses_desk, writes_desk};

use desk_sight::Use;
use road_command::{Command, Words, command_of};

/// Returns how the requested command uses the keys of the desk, if it uses them.
pub fn keys_used(words: &Words) -> Option<Use>
    ensures { result ≡ keys_used (request_of words.now) }
{
    match command_of(words) {
        Some(Command::Key { .. }) => Some(Use::Key),
        Some(Command::Publish { .. }) => Some(Use::Publish),
        Some(Command::Succeed { .. }) => Some(Use::Succeed),
        Some(Command::Links) => Some(Use::Links),
        _ => None,
    }
}

/// Tests whether the requested command writes to the desk's file.
pub fn writes_desk(words: &Words) -> bool
    ensures { result ≡ writes_desk (request_of words.now) }
{
    matches!(
        command_of(words),
        Some(Command::Key { .. } | Command::Publish { .. } | Command::Succeed { .. })
    )
}

/// Tests whether the requested command signs with the keys of the desk.
pub(crate) fn signs(words: &Words) -> bool
    ensures { result ≡ does_sign (keys_used (request_of words.now)) }
{
    matches!(
        keys_used(words),
        Some(Use::Publish | Use::Succeed | Use::Links)
    )
}

/// Tests whether the requested command uses the desk's file.
pub fn uses_desk(words: &Words) -> bool
    ensures { result ≡ uses_desk (request_of words.now) }
{
    matches!(
        command_of(words),
        Some(
            Command::Key { .. }
                | Command::Publish { .. }
                | Command::Succeed { .. }
                | Command::Links
                | Command::Desk
                | Command::Audit { .. }
                | Command::AuditReach { .. }
                | Command::Reduce { .. }
        )
    )
}
