//! Surveys: a line that another program computed, and the four methods over one grid.

use crate::asserts::{assert_octets, assert_same};
use book_model::PlanError;
use command_files::{Conclusion, Fault};
use mem_io::MemSink;
use road_command::Survey;
use route_survey::{survey as survey_command, survey_method};
use std::alloc::Global;
use std::process::Abort;
use std::test::Fail;

/// Asserts the output of a survey, and how it ends.
fn assert_surveyed(
    rt: &impl Abort,
    alloc: Global,
    asked: Survey,
    written: &[u8],
    end: Result<Conclusion, Fault>,
) -> Result<(), Fail> {
    let mut sink = MemSink::new(alloc, 1000, 1000, Vec::new(alloc))?;
    let ended = survey_command(alloc, &mut sink, asked);
    assert_same(rt, &ended, &end);
    assert_octets(rt, sink.taken(), written);
    Ok(())
}

/// The line is that of the reference (`checks/sources.py`), for a query from 3 to 4 and one from 4 to 4.
#[test]
fn surveys_over_grids(rt: HostRuntime) -> Result<(), Fail> {
    let line =
        b"queries 2 accepted 2 total 118 digest a057ca07871d1e35fc4e90456d405b6cb2a3b007b0331493389b2ef3700f2db4\n";
    let small = Survey {
        width: 2,
        seed: 0,
        method: 1,
        queries: 2,
    };
    assert_surveyed(&rt, rt.alloc(), small, line, Ok(Conclusion::Done))?;
    let wide = Survey {
        width: 33,
        seed: 7,
        method: 2,
        queries: 1,
    };
    let many = Err(Fault::Plan(PlanError::TooManyNodes(1089)));
    assert_surveyed(&rt, rt.alloc(), wide, b"", many)
}

#[test]
fn each_method_finds_the_same_lengths(rt: HostRuntime) -> Result<(), Fail> {
    let front = b"queries 20 accepted 20 total 35040 digest ";
    for method in 1..=4 {
        let line = survey_method(rt.alloc(), 8, 5, method, 20)?;
        assert_octets(&rt, line.get(..42).unwrap_or(&[]), front);
    }
    Ok(())
}
