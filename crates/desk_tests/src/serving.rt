//! Facts that no clause states: worked inputs, from their octets to those of their replies, and calls that succeed
//! with enough memory.
use crate::asserts::{assert_octets, assert_same};
use book_model::Settings;
use mem_io::{MemSink, MemSource};
use octet_text::{List, Octets, Sha, put_i32, put_octets, put_u32, put_u64};
use proof_octets::{Header, Publication};
use route_server::Held;
use route_service::{Guard, ServeError, Service, next_frame, serve};
use std::alloc::Global;
use std::process::Abort;
use std::test::Fail;
use test_maps::{DIJ, NODES, ROADS, parts_of};

const MOST_OCTETS: u32 = 4_194_304;

const MOST_FRAMES: u32 = 1_000_000;

// Returns the header of the five nodes in this version, under DIJ by id.
fn header(alloc: Global, version: u64) -> Result<Header, Fail> {
    let settings = Settings { version, ..DIJ };
    let book = Held::<Sha>::build(alloc, parts_of(alloc, &NODES, &ROADS)?, &settings)?;
    Ok(book.header())
}

// Makes the service over the five nodes in version 1, without a signature, under a guard.
fn first_service(alloc: Global, guard: Guard) -> Result<Service<Sha>, Fail> {
    let publication = Publication {
        header: header(alloc, 1)?,
        signature: Octets::from_vec(Vec::new(alloc)),
        settings: Settings { version: 1, ..DIJ },
        parts: parts_of(alloc, &NODES, &ROADS)?,
    };
    let held = Held::install(alloc, publication)?;
    Ok(Service::new(alloc, guard, held)?)
}

// Returns the body that installs the five nodes in this version, without a signature.
fn install(alloc: Global, version: u64) -> Result<Vec<u8>, Fail> {
    let header = header(alloc, version)?;
    let mut body = Vec::new(alloc);
    put_octets(&mut body, b"\x04RPP1")?;
    put_octets(&mut body, &header.write())?;
    put_octets(&mut body, &[0, 0])?;
    for _ in 0..4u8 {
        put_u64(&mut body, 0)?;
    }
    put_u32(&mut body, 5)?;
    for (id, x, y) in NODES {
        put_u32(&mut body, id)?;
        put_i32(&mut body, x)?;
        put_i32(&mut body, y)?;
    }
    put_u32(&mut body, 4)?;
    for (a, b, length) in ROADS {
        put_u32(&mut body, a)?;
        put_u32(&mut body, b)?;
        put_u32(&mut body, length)?;
    }
    Ok(body)
}

fn put_frame(input: &mut Vec<u8>, body: &[u8]) -> Result<(), Fail> {
    if body.len() > 1_000_000 {
        return Err(Fail::from("a long body"));
    }
    put_u32(input, body.len() as u32)?;
    put_octets(input, body)?;
    Ok(())
}

// Serves an input from version 1 on.
fn serve_octets(
    alloc: Global,
    source: &mut MemSource,
    sink: &mut MemSink,
) -> Result<Result<(), ServeError>, Fail> {
    let mut service = first_service(alloc, Guard::Open)?;
    Ok(serve(alloc, &mut service, source, sink, MOST_OCTETS, MOST_FRAMES))
}

// Returns the numbers of the reads that fail: this number, if it is given.
fn plan(alloc: Global, fails: Option<u64>) -> Result<Vec<u64>, Fail> {
    let mut planned = Vec::new(alloc);
    if let Some(call) = fails {
        planned.push(call)?;
    }
    Ok(planned)
}

// Serves an input. If a number is given, the read with this number fails. Compares how serving ends, and returns
// the octets written.
fn served(
    rt: &impl Abort,
    alloc: Global,
    input: Vec<u8>,
    fails: Option<u64>,
    end: Result<(), ServeError>,
) -> Result<Vec<u8>, Fail> {
    let mut source = MemSource::new(input, 4096, plan(alloc, fails)?);
    let mut sink = MemSink::new(alloc, 100_000, 4096, Vec::new(alloc))?;
    let ended = serve_octets(alloc, &mut source, &mut sink)?;
    assert_same(rt, &ended, &end);
    Ok(sink.taken().to_vec(alloc)?)
}

// Returns the body that asks for a route from 1 to 3 in a session.
fn ask(session: u8) -> [u8; 10] {
    [2, session, 0, 0, 0, 1, 0, 0, 0, 3]
}

// A body and its reply. For an answer, only its session, its kind 0 and the last octet of its version are given.
type Row<'a> = (&'a [u8], &'a [u8]);

// Returns the bodies of rows as frames.
fn framed(alloc: Global, rows: &[Row<'_>]) -> Result<Vec<u8>, Fail> {
    let mut input = Vec::new(alloc);
    for (body, _) in rows {
        put_frame(&mut input, body)?;
    }
    Ok(input)
}

// Returns the first three octets, or zeros.
fn first_three(octets: &[u8]) -> [u8; 3] {
    match octets {
        [first, second, third, ..] => [*first, *second, *third],
        _ => [0; 3],
    }
}

// Compares a reply.
fn assert_reply(rt: &impl Abort, reply: &[u8], wanted: &[u8]) {
    if reply.first().copied() == Some(0x82) {
        assert_octets(rt, &first_three(reply), &first_three(wanted));
        let version = reply.get(18).copied();
        assert_same(rt, &version, &wanted.get(3).copied());
    } else {
        assert_octets(rt, reply, wanted);
    }
}

// Compares the replies in the output, one for each row.
fn assert_replies(rt: &impl Abort, alloc: Global, octets: Vec<u8>, rows: &[Row<'_>]) {
    let mut replies = MemSource::new(octets, 4096, Vec::new(alloc));
    let mut reply = Vec::new(alloc);
    for (_, wanted) in rows {
        let is_there = next_frame(&mut replies, MOST_OCTETS, &mut reply);
        assert_same(rt, &is_there, &Ok(true));
        assert_reply(rt, &reply, wanted);
    }
    let is_there = next_frame(&mut replies, MOST_OCTETS, &mut reply);
    assert_same(rt, &is_there, &Ok(false));
}

// Serves the bodies of rows and three more octets, and compares the replies.
fn assert_served(rt: &impl Abort, alloc: Global, rows: &[Row<'_>]) -> Result<(), Fail> {
    let mut input = framed(alloc, rows)?;
    put_octets(&mut input, &[0, 0, 0])?;
    let cut = Err(ServeError::TruncatedFrame);
    let octets = served(rt, alloc, input, None, cut)?;
    assert_replies(rt, alloc, octets, rows);
    Ok(())
}

#[test]
fn each_body_gets_its_reply(rt: HostRuntime) -> Result<(), Fail> {
    let second = install(rt.alloc(), 2)?;
    let mut longer = install(rt.alloc(), 3)?;
    longer.push(0)?;
    let rows: [Row<'_>; 14] = [
        (b"\x01\x00", b"\x81\x00\x00\x00\x00\x00\x00\x00\x00\x01"),
        (&second, b"\x84\x00\x00\x00\x00\x00\x00\x00\x02"),
        (b"\x01\x01", b"\x81\x01\x00\x00\x00\x00\x00\x00\x00\x02"),
        (&ask(0), b"\x82\x00\x00\x01"),
        (&ask(1), b"\x82\x01\x00\x02"),
        (&ask(2), b"\xe4\x02"),
        (b"\x01\x10", b"\xe2\x10"),
        (b"\x03\x01", b"\x83\x01"),
        (b"\x03\x01", b"\xe4\x01"),
        (b"\x01\x00", b"\xe3\x00"),
        (b"", b"\xe1"),
        (&second, b"\xe6\x00\x00\x00\x00\x00\x00\x00\x02"),
        (&longer, b"\xe5\x01"),
        (b"\x04", b"\xe5\x01"),
    ];
    assert_served(&rt, rt.alloc(), &rows)
}

#[test]
fn runs_end_with_the_replies_before(rt: HostRuntime) -> Result<(), Fail> {
    let alloc = rt.alloc();
    let long = [0, 0, 0, 0, 0, 0x40, 0, 1].to_vec(alloc)?;
    let octets = served(&rt, alloc, long, None, Err(ServeError::FrameTooLong))?;
    assert_octets(&rt, &octets, b"\x00\x00\x00\x01\xe1");
    let unread = [0; 8].to_vec(alloc)?;
    let octets = served(&rt, alloc, unread, Some(1), Err(ServeError::Source))?;
    assert_octets(&rt, &octets, b"\x00\x00\x00\x01\xe1");
    Ok(())
}

// Returns frames that begin each of the 16 sessions with its own version, and ask a query in each.
fn sessions(alloc: Global) -> Result<Vec<u8>, Fail> {
    let mut input = Vec::new(alloc);
    for session in 0..16u8 {
        put_frame(&mut input, &[1, session])?;
        let next = install(alloc, u64::from(session) + 2)?;
        put_frame(&mut input, &next)?;
    }
    for session in 0..16u8 {
        put_frame(&mut input, &ask(session))?;
    }
    Ok(input)
}

// Compares the replies to the sessions: 32 replies to the frames that begin and install, and an answer to each
// query.
fn assert_sessions(rt: &impl Abort, alloc: Global, octets: Vec<u8>) {
    let mut replies = MemSource::new(octets, 4096, Vec::new(alloc));
    let mut reply = Vec::new(alloc);
    for _ in 0..32u8 {
        let is_there = next_frame(&mut replies, MOST_OCTETS, &mut reply);
        assert_same(rt, &is_there, &Ok(true));
        assert!(rt; matches!(reply.first(), Some(0x81 | 0x84)));
    }
    for session in 0..16u8 {
        let is_there = next_frame(&mut replies, MOST_OCTETS, &mut reply);
        assert_same(rt, &is_there, &Ok(true));
        assert_reply(rt, &reply, &[0x82, session, 0, session + 1]);
    }
}

#[test]
fn each_session_keeps_its_version(rt: HostRuntime) -> Result<(), Fail> {
    let input = sessions(rt.alloc())?;
    let octets = served(&rt, rt.alloc(), input, None, Ok(()))?;
    assert_sessions(&rt, rt.alloc(), octets);
    Ok(())
}

// Returns the reply to a body. The reply fits in a frame.
fn reply_to(rt: &impl Abort, service: &mut Service<Sha>, body: &[u8]) -> Result<Vec<u8>, Fail> {
    assert!(rt; body.len() <= MOST_OCTETS as usize);
    Ok(service.step(body)?)
}

#[test]
fn a_guarded_service_answers_on_a_radius(rt: HostRuntime) -> Result<(), Fail> {
    let alloc = rt.alloc();
    let guard = Guard::Signed {
        key: [0; 56],
        links: List::new(alloc),
    };
    let mut service = first_service(alloc, guard)?;
    let reply = reply_to(
        &rt,
        &mut service,
        b"\x05\x00\x00\x00\x00\x01\x00\x00\x00\x00\x00\x00\x00\x05",
    )?;
    assert_octets(&rt, &reply, b"\xe4\x00");
    let reply = reply_to(&rt, &mut service, b"\x01\x00")?;
    assert_octets(&rt, &reply, b"\x81\x00\x00\x00\x00\x00\x00\x00\x00\x01");
    let reply = reply_to(
        &rt,
        &mut service,
        b"\x05\x00\x00\x00\x00\x01\x00\x00\x00\x00\x00\x00\x00\x05",
    )?;
    assert!(rt; matches!(reply.as_slice(), [0x85, 0, b'R', b'P', b'N', b'1', ..]));
    let reply = reply_to(
        &rt,
        &mut service,
        b"\x05\x00\x00\x00\x00\x09\x00\x00\x00\x00\x00\x00\x00\x05",
    )?;
    assert_octets(&rt, &reply, b"\x85\x00\x01");
    let second = install(alloc, 2)?;
    let reply = reply_to(&rt, &mut service, &second)?;
    assert_octets(&rt, &reply, b"\xe7\x01");
    Ok(())
}
