//! The trait of judges.

ghost use Rattle.std.specs.Prelude.{◌≤◌, length};
ghost use Rattle.book_model.specs.Books.{Kind};
ghost use Rattle.proof_judge.specs.Judgement.{Judged};
ghost use Rattle.proof_judge.specs.Apart.{JudgedApart};
ghost use Rattle.proof_judge.specs.SharedTests.{UnlessMemory};

use crate::refusal::Refusal;
use book_model::{Items, Numbers, Query};
use std::alloc::Global;

/// A client's judgement of an answer's items under one method. It needs no book.
pub trait Judge {
    // The method.
    ghost kind: { Kind };

    /// Returns the length of the route, or the first test that the items fail.
    fn judge(alloc: Global, numbers: Numbers, items: &Items, query: Query) -> Result<u64, Refusal>
        requires { length items.now.route ≤ 65536 }
        ensures { UnlessMemory (Judged kind numbers items.now query) result };

    /// Succeeds if the items show that no walk joins the two ends. Otherwise returns the first test that they fail.
    /// Ignores the route.
    fn judge_apart(
        alloc: Global,
        numbers: Numbers,
        items: &Items,
        query: Query,
    ) -> Result<(), Refusal>
        requires { length items.now.nodes ≤ 65536 }
        ensures { UnlessMemory (JudgedApart kind numbers items.now query) result };
}
