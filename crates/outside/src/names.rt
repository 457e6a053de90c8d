//! Looks at files by their names.
ghost use Rattle.std.specs.Prelude.{◌≡◌, ◌∷◌, [], IfOk, OnErr};
ghost use Rattle.std.specs.Option.{unwrap_or};
ghost use Rattle.outside.specs.Called.{Adds, Called};
ghost use Rattle.outside.specs.Looks.{seen_as};

use crate::look::{Look, look_of, note_look};
use crate::record::Record;
use std::os::unix::fs::MetadataExt;
use std::rt::Files;
use std::{fs, io};

/// The names of the working folder, and the system's answers about them: 0 the user of the process, 1 a look at the
/// file of a name without following a link, 4 a look at the file to which a name leads.
///
/// The calls, those of a `NotedDisk` and the syncs of a `NotedTail` too, each under its code: 0 and 1 these looks at a
/// name, 2 the user, 3 a sync of a tail; 4 the disk's file opened, 5 created, 6 locked, 7 its name made durable, 8 opened
/// to read, 9 locked against who writes, 10 its length or that it is absent, 11 a read, 12 a write, 13 a sync, 14 a look at
/// it, 15 others denied access.
#[derive(Drop)]
pub struct NotedNames<R: Files + Drop> {
    pub(crate) rt: R,
    pub(crate) answers: Record,
    pub(crate) calls: Record,
}

impl<R: Files + Drop> NotedNames<R> {
    /// Makes the names that the runtime reaches. Looks at none.
    pub fn new(rt: R) -> NotedNames<R>
        ensures answers { result.answers.events ≡ [] }
        ensures calls { result.calls.events ≡ [] }
    {
        NotedNames {
            rt,
            answers: Record::new(),
            calls: Record::new(),
        }
    }

    /// Returns the user of this process, if the system reports the user. Notes the user, or 0.
    pub fn user(&mut self) -> Option<u64>
        ensures noted { self.new.answers.events ≡
            (0 ∷ unwrap_or result 0 ∷ [], []) ∷ self.old.answers.events }
        ensures called { Adds 2 [] self.old.calls.events self.new.calls.events }
    {
        let user = match self
            .calls
            .call(2, b"", fs::metadata(&self.rt, "/proc/self"))
        {
            Ok(process) => Some(u64::from(process.uid())),
            Err(_) => None,
        };
        self.answers.note(&[0, user.unwrap_or(0)], &[]);
        user
    }

    /// Looks at the file of a name without following a link, and notes the look.
    pub fn look_at_link(&mut self, name: &str) -> io::Result<Look>
        ensures noted { IfOk result (λ look. self.new.answers.events ≡
            (seen_as 1 look, name.now) ∷ self.old.answers.events) }
        ensures kept { OnErr result (self.new.answers.events ≡ self.old.answers.events) }
        ensures called { Called 0 name.now result self.old.calls.events self.new.calls.events }
    {
        let look = look_of(
            &self
                .calls
                .call(0, name.as_bytes(), fs::symlink_metadata(&self.rt, name))?,
        );
        note_look(&mut self.answers, 1, look, name.as_bytes());
        Ok(look)
    }

    /// Looks at the file to which a name leads, and notes the look.
    pub fn look(&mut self, name: &str) -> io::Result<Look>
        ensures noted { IfOk result (λ look. self.new.answers.events ≡
            (seen_as 4 look, name.now) ∷ self.old.answers.events) }
        ensures kept { OnErr result (self.new.answers.events ≡ self.old.answers.events) }
        ensures called { Called 1 name.now result self.old.calls.events self.new.calls.events }
    {
        let look = look_of(
            &self
                .calls
                .call(1, name.as_bytes(), fs::metadata(&self.rt, name))?,
        );
        note_look(&mut self.answers, 4, look, name.as_bytes());
        Ok(look)
    }
}
