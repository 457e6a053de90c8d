//! What the doubles share: the calls that reached them, and the answers that they give.

use crate::asserts::assert_row;
use std::alloc::Global;
use std::cell::{Cell, RefCell};
use std::io::{self, ErrorKind};
use std::process::Abort;

/// The answer of a double to a call.
#[derive(Clone, Copy)]
pub(crate) enum Answer {
    /// The call is refused for this reason.
    Fails(ErrorKind),
    /// This many octets are taken.
    Takes(usize),
    /// These octets are given, as far as there is room.
    Gives(&'static str),
    /// A file is opened that the script plays.
    Opens,
    /// A look shows a regular file of this length.
    Regular(u64),
    /// A look shows a folder.
    Folder,
    /// A look shows a link with a target of this length.
    Link(u64),
    /// The system answers the call.
    Real,
    /// The system opens the file of another name, for reading and writing.
    RealOf(&'static str),
}

/// The calls that reached a double, a line for each, and its answers in their order.
#[derive(Drop)]
pub(crate) struct Script<'a> {
    alloc: Global,
    calls: RefCell<String>,
    answers: &'a [Answer],
    given: Cell<usize>,
}

impl<'a> Script<'a> {
    /// Makes a script whose double was not called yet.
    pub(crate) fn new(alloc: Global, answers: &'a [Answer]) -> Script<'a> {
        Script {
            alloc,
            calls: RefCell::new(String::new(alloc)),
            answers,
            given: Cell::new(0),
        }
    }

    /// Returns where a double gets its memory.
    pub(crate) fn alloc(&self) -> Global {
        self.alloc
    }

    /// Keeps a call with what it is given.
    pub(crate) fn keep(&self, call: &str, given: &str) -> io::Result<()> {
        let mut calls = self.calls.try_borrow_mut()?;
        calls.push_str(call)?;
        calls.push_str(given)?;
        calls.push('\n')?;
        Ok(())
    }

    /// Keeps a call, and returns its answer. A call behind the last answer is refused.
    pub(crate) fn answer(&self, call: &str, given: &str) -> io::Result<Answer> {
        self.keep(call, given)?;
        let given = self.given.get();
        self.given.set(given.saturating_add(1));
        match self.answers.get(given) {
            Some(Answer::Fails(kind)) => Err(io::Error::from(*kind)),
            Some(answer) => Ok(*answer),
            None => Err(io::Error::from(ErrorKind::Other)),
        }
    }

    /// Asserts that these calls reached the double, in this order, and that all answers were given.
    pub(crate) fn assert_calls(&self, rt: &impl Abort, row: &str, wanted: &str) {
        assert_row(rt, row, &self.given.get(), &self.answers.len());
        match self.calls.try_borrow() {
            Ok(calls) => assert_row(rt, row, &calls.as_str(), &wanted),
            Err(_) => assert_row(rt, row, &"a borrowed list", &wanted),
        }
    }
}

/// Returns the refusal of a call that gets an answer of another kind.
pub(crate) fn unfit() -> io::Error {
    io::Error::from(ErrorKind::Unsupported)
}
