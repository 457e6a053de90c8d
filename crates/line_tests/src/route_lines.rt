//! Printed lines.

use crate::same::assert_same;
use book_model::Numbers;
use lms_tree::SealError;
use proof_judge::Refusal;
use proof_octets::Header;
use road_line::{
    line_of_accepted, line_of_collision, line_of_desk, line_of_forged, line_of_refused,
    line_of_right, line_of_route,
};
use road_map::Ids;
use route_client::{Accepted, CheckError, Checked, CoverFault};
use std::test::Fail;

const HEADER: Header = Header {
    method: 1,
    order: 0,
    fan: 2,
    version: 3,
    nodes: 1,
    node_root: [0; 32],
    pairs: 0,
    pair_root: [0; 32],
    numbers: Numbers {
        first: 0,
        second: 0,
    },
};

#[test]
fn routes_are_printed(rt: HostRuntime) -> Result<(), Fail> {
    let line = line_of_route(rt.alloc(), 9, &[1, 2, 3])?;
    assert_same(&rt, line.as_slice(), b"9: 1 2 3\n".as_slice());
    let route = Checked::Route(Accepted {
        length: 0,
        route: Ids::from_vec(vec![in rt.alloc(); 4_294_967_295]?),
        version: 3,
        header: HEADER,
    });
    let line = line_of_accepted(rt.alloc(), &route)?;
    assert_same(&rt, line.as_slice(), b"accepted 0: 4294967295\n".as_slice());
    let none = Checked::Apart {
        version: 3,
        header: HEADER,
    };
    let line = line_of_accepted(rt.alloc(), &none)?;
    assert_same(&rt, line.as_slice(), b"accepted none\n".as_slice());
    Ok(())
}

static REFUSED: [(CheckError, &[u8]); 8] = [
    (CheckError::NotAnswer(2), b"refused NotAnswer 2\n"),
    (CheckError::Malformed(1611), b"refused Malformed 1611\n"),
    (CheckError::Stale(3), b"refused Stale 3\n"),
    (
        CheckError::BadChain(0, SealError::NoMatch),
        b"refused BadChain 0 NoMatch\n",
    ),
    (
        CheckError::BadSignature(SealError::NoMatch),
        b"refused BadSignature NoMatch\n",
    ),
    (
        CheckError::BadCover(1, CoverFault::Differs),
        b"refused BadCover 1 Differs\n",
    ),
    (
        CheckError::Judged(Refusal::MissingPair(1, 3)),
        b"refused MissingPair 1 3\n",
    ),
    (
        CheckError::Judged(Refusal::Shorter(9)),
        b"refused Shorter 9\n",
    ),
];

#[test]
fn refusals_are_printed(rt: HostRuntime) -> Result<(), Fail> {
    for (why, words) in &REFUSED {
        let line = line_of_refused(rt.alloc(), *why)?;
        assert_same(&rt, line.as_slice(), *words);
    }
    Ok(())
}

#[test]
fn findings_are_printed(rt: HostRuntime) -> Result<(), Fail> {
    let line = line_of_right(rt.alloc())?;
    assert_same(&rt, line.as_slice(), b"right\n".as_slice());
    let line = line_of_collision(rt.alloc(), &[0, 255], &[1])?;
    assert_same(&rt, line.as_slice(), b"collision 00ff 01\n".as_slice());
    let line = line_of_forged(rt.alloc(), &[82], &[])?;
    assert_same(&rt, line.as_slice(), b"forged 52 \n".as_slice());
    Ok(())
}

const DIGITS: &str = "afafafafafafafafafafafafafafafafafafafafafafafafafafafaf\
     afafafafafafafafafafafafafafafafafafafafafafafafafafafaf";

#[test]
fn a_desk_is_printed(rt: HostRuntime) -> Result<(), Fail> {
    let line = line_of_desk(rt.alloc(), &[175; 56], 31, 1024)?;
    let wanted = format!(in rt.alloc(); "{DIGITS} 31 1024\n")?;
    assert_same(&rt, line.as_slice(), wanted.as_bytes());
    Ok(())
}
