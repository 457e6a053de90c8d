//! Printed lines.

use crate::same::assert_same;
use lms_tree::SealError;
use proof_octets::Mark;
use road_line::{line_of_refused_near, line_of_within};
use route_client::{CoverFault, NearError};
use std::test::Fail;

static NODES: [Mark; 3] = [
    Mark { id: 1, distance: 0 },
    Mark { id: 2, distance: 4 },
    Mark { id: 4, distance: 3 },
];

#[test]
fn nodes_within_a_radius_are_printed(rt: HostRuntime) -> Result<(), Fail> {
    let line = line_of_within(rt.alloc(), &NODES)?;
    assert_same(&rt, line.as_slice(), b"within 3: 1 2 4\n".as_slice());
    Ok(())
}

static REFUSED: [(NearError, &[u8]); 7] = [
    (NearError::Malformed(1585), b"refused Malformed 1585\n"),
    (NearError::Stale(3), b"refused Stale 3\n"),
    (
        NearError::BadChain(6, SealError::BadKey),
        b"refused BadChain 6 BadKey\n",
    ),
    (
        NearError::BadSignature(SealError::NoMatch),
        b"refused BadSignature NoMatch\n",
    ),
    (
        NearError::BadCover(CoverFault::Long),
        b"refused BadCover Long\n",
    ),
    (NearError::RepeatedNode(7), b"refused RepeatedNode 7\n"),
    (NearError::MissingTuple(4), b"refused MissingTuple 4\n"),
];

#[test]
fn refusals_on_radii_are_printed(rt: HostRuntime) -> Result<(), Fail> {
    for (why, words) in &REFUSED {
        let line = line_of_refused_near(rt.alloc(), *why)?;
        assert_same(&rt, line.as_slice(), *words);
    }
    Ok(())
}
