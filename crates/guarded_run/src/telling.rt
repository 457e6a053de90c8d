//! Why a run ended as it did, and what else its owner is to know. The sentences stand in the program.
ghost use Rattle.std.specs.Prelude.{◌≡◌, None, false};
ghost use Rattle.road_command.specs.Requests.{request_of};
ghost use Rattle.guarded_run.specs.declared.guarding.End.TheVariants.{Refused};
ghost use Rattle.guarded_run.specs.Telling.{done_news, is_of_desk, key_news, map_news, news_by, news_of, reason_of, signed_news};

use crate::guarding::End;
use command_files::{Ended, Fault};
use desk_disk::Unsafe;
use desk_sight::{Sight, Strange, Unfit};
use outside::sync_folder;
use road_command::{Command, Words, command_of};
use std::fs::File;
use std::io;
use std::rt::Files;

/// Why a run ended as it did.
#[derive(Clone, Copy)]
pub enum Reason {
    /// The desk's file is not safe, and was not opened.
    Unsafe(Unsafe),
    /// The desk holds something that no run and no crash leaves.
    Strange(Strange),
    /// The desk's first key is not that of the file `owner.key`.
    OtherKey,
    /// What was to be written is not signed by the expected key.
    Unsigned,
    /// The look at the desk failed.
    Failed(Fault),
    /// The run ended so.
    Ended(Ended),
}

/// Returns why a run with this end ended so. If the desk's file was not opened because it is not safe, takes the reason.
pub fn reason_of(end: End, unopened: Option<Unsafe>) -> Reason
    ensures { result ≡ reason_of end unopened }
{
    match end {
        End::Refused(why) => refusal_of(why, unopened),
        End::Unsigned(_) => Reason::Unsigned,
        End::Ran(ended) => match unopened {
            Some(why) => Reason::Unsafe(why),
            None => Reason::Ended(ended),
        },
    }
}

/// Returns why a run did not begin.
fn refusal_of(why: Unfit, unopened: Option<Unsafe>) -> Reason
    ensures { result ≡ reason_of (Refused why) unopened }
{
    match why {
        Unfit::Disk => match unopened {
            Some(why) => Reason::Unsafe(why),
            None => Reason::Failed(Fault::Disk),
        },
        Unfit::Memory(none) => Reason::Failed(Fault::Memory(none)),
        Unfit::BadBlock => Reason::Failed(Fault::BadBlock),
        Unfit::Strange(strange) => Reason::Strange(strange),
        Unfit::OtherKey => Reason::OtherKey,
    }
}

impl Reason {
    /// Tests whether the desk failed.
    fn is_of_desk(self) -> bool
        ensures { result ≡ is_of_desk self }
    {
        match self {
            Reason::Failed(fault) => matches!(fault, Fault::Disk),
            Reason::Ended(ended) => matches!(ended.fault, Some(Fault::Disk)),
            Reason::Unsafe(_) | Reason::Strange(_) | Reason::OtherKey | Reason::Unsigned => false,
        }
    }
}

/// Returns why the working folder cannot be listed or synced, if the desk failed and this is so. The names of its files
/// would not survive a crash. Makes no call for another reason.
pub fn folder_fault<R: Files<File = File>>(rt: &R, reason: Reason) -> Option<io::Error>
    ensures { is_of_desk reason ≡ false → result ≡ None }
{
    if !reason.is_of_desk() {
        return None;
    }
    match sync_folder(rt) {
        Ok(()) => None,
        Err(e) => Some(e),
    }
}

/// What an owner is to know of a run, besides why it ended.
#[derive(Clone, Copy)]
pub enum News {
    /// `publish` has signed a map. The desk held this before. The map may not be written whole.
    Signed(Sight),
    /// `key` or `succeed` has made a key from a secret.
    Made,
    /// `key` has found a key.
    Stands,
    /// `desk` has shown the current key.
    Shown,
    /// `prove` has answered.
    Answered,
    /// Nothing.
    Nothing,
}

/// Returns the news of a run with this end, after a look that found this in the desk.
pub fn news_of(words: &Words, sight: Option<Sight>, end: End) -> News
    ensures { result ≡ news_of (request_of words.now) sight end }
{
    match end {
        End::Ran(ended) => news_by(words, sight, ended.fault),
        End::Refused(_) | End::Unsigned(_) => News::Nothing,
    }
}

/// Returns the news of a run that ended with this fault, or with none.
fn news_by(words: &Words, sight: Option<Sight>, fault: Option<Fault>) -> News
    ensures { result ≡ news_by (request_of words.now) sight fault }
{
    match command_of(words) {
        Some(Command::Publish { .. }) => signed_news(sight, fault),
        Some(Command::Key { .. }) => key_news(fault),
        Some(Command::Succeed { .. }) => done_news(News::Made, fault),
        Some(Command::Desk) => done_news(News::Shown, fault),
        Some(Command::Prove { .. }) => done_news(News::Answered, fault),
        _ => News::Nothing,
    }
}

/// Returns the news of a `publish` that ended with this fault, or with none, after a look that found this in the desk.
fn signed_news(sight: Option<Sight>, fault: Option<Fault>) -> News
    ensures { result ≡ signed_news sight fault }
{
    match sight {
        Some(sight) => map_news(sight, fault),
        None => News::Nothing,
    }
}

/// Returns the same of a desk that held this.
fn map_news(sight: Sight, fault: Option<Fault>) -> News
    ensures { result ≡ map_news sight fault }
{
    match fault {
        None | Some(Fault::Sink | Fault::MirrorLost) => News::Signed(sight),
        Some(_) => News::Nothing,
    }
}

/// Returns the news of a `key` that ended with this fault, or with none.
fn key_news(fault: Option<Fault>) -> News
    ensures { result ≡ key_news fault }
{
    match fault {
        None => News::Made,
        Some(Fault::Held) => News::Stands,
        Some(_) => News::Nothing,
    }
}

/// Returns the news if a command ended without a fault.
fn done_news(news: News, fault: Option<Fault>) -> News
    ensures { result ≡ done_news news fault }
{
    match fault {
        None => news,
        Some(_) => News::Nothing,
    }
}
