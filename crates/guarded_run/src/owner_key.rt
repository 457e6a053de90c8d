//! The file `owner.key`.
ghost use Rattle.std.specs.Prelude.{◌≡◌, ◌≢◌, ◌↔◌, ℕ, List, [], Option, false, true, take, IfSome};
ghost use Rattle.outside.specs.Called.{count_of};
ghost use Rattle.road_io.specs.Contents.{Gives};
ghost use Rattle.road_command.specs.Requests.{request_of};
ghost use Rattle.road_io.specs.Disk.{Narrows};
ghost use Rattle.guarded_run.specs.OwnerKey.{IsKnown, ShowsSpecial, TellsSpecial, is_broken, key_in, key_known};
ghost use Rattle.guarded_run.specs.Uses.{does_sign, keys_used};
ghost use Rattle.guarded_run.specs.declared.owner_key.TheConstants.{OWNER_KEY};

use crate::uses::signs;
use outside::{NotedNames, REGULAR};
use road_command::Words;
use road_io::{Library, LoadError};
use std::alloc::Global;
use std::rt::Files;

/// The name of the file with the owner's first key.
pub const OWNER_KEY: &str = "owner.key";

/// The state of the file `owner.key`.
#[derive(Clone, Copy, Debug, PartialEq, Eq)]
pub enum KeyFile {
    /// The command does not sign, so the file was not looked at.
    Unused,
    /// The file does not exist.
    Absent,
    /// It is not a regular file, so it was not read.
    Special,
    /// It could not be read.
    Unread(LoadError),
    /// It does not begin with a key.
    NoKey,
    /// It begins with this key.
    Key([u8; 56]),
}

impl KeyFile {
    /// Returns the key, if the file begins with one.
    pub fn key(self) -> Option<[u8; 56]>
        ensures { result ≡ key_known self }
    {
        match self {
            KeyFile::Key(public) => Some(public),
            _ => None,
        }
    }

    /// Tests whether the file exists, and no key was read from it.
    pub fn is_broken(self) -> bool
        ensures { result ≡ is_broken self }
    {
        matches!(self, KeyFile::Special | KeyFile::Unread(_) | KeyFile::NoKey)
    }
}

/// Returns the first 112 octets of a text, or all of a shorter one.
fn first_digits(text: &[u8]) -> &[u8]
    ensures { result.now ≡ take 112 text.now }
{
    if text.len() <= 112 {
        text
    } else {
        &text[..112]
    }
}

/// Returns the key that the first 112 hex digits of a text encode.
fn key_in(text: &[u8]) -> Option<[u8; 56]>
    ensures { result ≡ key_in text.now }
{
    let mut public = [0u8; 56];
    match hex::decode_to_slice(first_digits(text), &mut public) {
        Ok(()) => Some(public),
        Err(_) => None,
    }
}

/// Tests whether the file exists and is not a regular file, by a look at it. Opening such a file might wait.
fn is_special<R: Files + Drop>(names: &mut NotedNames<R>) -> bool
    requires { names.old.answers.events ≡ [] }
    ensures special { (result ≡ true) ↔ ShowsSpecial OWNER_KEY.now names.new.answers.events }
    ensures unsynced { count_of 3 names.new.calls.events ≡ count_of 3 names.old.calls.events }
{
    match names.look(OWNER_KEY) {
        Ok(file) => file.kind != REGULAR,
        Err(_) => false,
    }
}

/// Returns the state of the file by what its load gave.
#[tactic(auto, using(crate::proofs::KeyFiles::some_and))]
fn known_by(loaded: Result<Vec<u8>, LoadError>) -> KeyFile
    ensures known { (file : Option (List ℕ)) → Gives file 4096 loaded → IsKnown file result }
    ensures read { result ≢ KeyFile.Special }
{
    let text = match loaded {
        Ok(text) => text,
        Err(LoadError::Missing) => return KeyFile::Absent,
        Err(why) => return KeyFile::Unread(why),
    };
    match key_in(&text) {
        Some(public) => KeyFile::Key(public),
        None => KeyFile::NoKey,
    }
}

/// Returns the state of the file `owner.key` in a library, for a command that signs. For another, makes no call.
#[tactic(auto, using(crate::proofs::KeyFiles::by_gives, crate::proofs::KeyFiles::special))]
pub fn key_file<R: Files + Drop, L: Library>(
    names: &mut NotedNames<R>,
    alloc: Global,
    words: &Words,
    library: &mut L,
) -> KeyFile
    requires { names.old.answers.events ≡ [] }
    ensures special { TellsSpecial OWNER_KEY.now names.new.answers.events result }
    ensures unused { does_sign (keys_used (request_of words.now)) ≡ false →
        (result ≡ KeyFile.Unused) × (library.new ≡ library.old) }
    ensures known { does_sign (keys_used (request_of words.now)) ≡ true →
        IfSome (L.files library.new) (λ folder. IsKnown (folder OWNER_KEY.now) result) }
    ensures files { Narrows (L.files library.old) (L.files library.new) }
    ensures unsynced { count_of 3 names.new.calls.events ≡ count_of 3 names.old.calls.events }
{
    if !signs(words) {
        return KeyFile::Unused;
    }
    if is_special(names) {
        return KeyFile::Special;
    }
    known_by(library.load(alloc, OWNER_KEY, 4096))
}
