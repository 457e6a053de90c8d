//! A table of messages.

use crate::same::{assert_printed, assert_row, assert_same};
use command_files::Ended;
use dimacs_reader::DimacsError;
use lms_tree::SealError;
use proof_judge::Refusal;
use road_command::{MOST_WORDS, Words, command_of};
use road_line::{line_of_refused, read_refused, read_refused_near};
use road_map::MapError;
use road_tell::{
    Content, Facts, Look, ShortName, Unusable, WrongHex, asked_of, bad_number, faulty_file,
    look_of, message_on, place_of, plan_rule, setting_name, wrong_words, zero_roads,
};
use route_client::{CheckError, CoverFault, NearError};
use std::alloc::{AllocError, Global};
use std::process::Abort;
use std::test::Fail;

fn words_of(rt: &impl Abort, alloc: Global, line: &str) -> Result<Words, Fail> {
    let mut words = Words::new(alloc);
    for word in line.split(' ') {
        assert!(rt; words.count() <= MOST_WORDS);
        words.push(word)?;
    }
    Ok(words)
}

// Returns the message about wrong arguments.
fn told_of(alloc: Global, words: &Words) -> Result<String, Fail> {
    match wrong_words(words) {
        None => Err(Fail::from("no word is wrong")),
        Some(wrong) => Ok(format!(in alloc; "{wrong}")?),
    }
}

static WRONG: [(&str, &str); 14] = [
    (
        "rout map.roads 1 3",
        "road_proof: rout: There is no such command. `road_proof help` lists them.",
    ),
    (
        "route map.roads 1",
        "road_proof: route: It takes 3 arguments, not 2.",
    ),
    (
        "desk owner.desk",
        "road_proof: desk: It takes 0 arguments, not 1.",
    ),
    (
        "serve",
        "road_proof: serve: It takes 1 to 3 arguments, not 0.",
    ),
    (
        "check owner.key m1.reply 1 3",
        "road_proof: check: It takes 5 to 6 arguments, not 4.",
    ),
    (
        "route map.roads -1 3",
        "road_proof: -1: S must be a node's id, a whole number from 0 to 4294967295.",
    ),
    (
        "root map.roads 33",
        "road_proof: 33: FAN must be a whole number from 2 to 32.",
    ),
    (
        "key secret h6",
        "road_proof: h6: KIND must be h5, for 31 publications, or h10, for 1023.",
    ),
    (
        "publish m dijkstra 1 id 0 2 0 0 0",
        "road_proof: dijkstra: METHOD must be dij, full, ldm or hyp.",
    ),
    (
        "reach m.pub 1 -4",
        "road_proof: -4: RADIUS must be a whole number from 0 to 18446744073709551615.",
    ),
    (
        "publish m dij 1 id 0 2 0 0 x",
        "road_proof: x: P3 must be a whole number from 0 to 18446744073709551615.",
    ),
    (
        "help rout",
        "road_proof: rout: There is no such command. `road_proof help` lists them.",
    ),
    (
        "root map.roads",
        "road_proof: root: It takes 2 arguments, not 1.",
    ),
    (
        "--version 1",
        "road_proof: --version: There is no such command. `road_proof help` lists them.",
    ),
];

fn assert_wrong(rt: &impl Abort, alloc: Global, line: &str, message: &str) -> Result<(), Fail> {
    let words = words_of(rt, alloc, line)?;
    assert_row(rt, line, command_of(&words), None);
    let text = told_of(alloc, &words)?;
    assert_row(rt, line, text.lines().next(), Some(message));
    Ok(())
}

#[test]
fn the_wrong_word_is_named(rt: HostRuntime) -> Result<(), Fail> {
    for (line, message) in &WRONG {
        assert_wrong(&rt, rt.alloc(), *line, *message)?;
    }
    Ok(())
}

#[test]
fn a_commands_line_is_printed(rt: HostRuntime) -> Result<(), Fail> {
    let words = words_of(&rt, rt.alloc(), "prove m1.pub 1")?;
    let text = told_of(rt.alloc(), &words)?;
    let end = "\n  prove PUB S T\n      \
        writes a reply that shows a shortest route from S to T, or that there is none";
    assert_row(&rt, text.as_str(), text.ends_with(end), true);
    Ok(())
}

#[test]
fn help_of_publish_has_ranges_and_what_to_take(rt: HostRuntime) -> Result<(), Fail> {
    let words = words_of(&rt, rt.alloc(), "help publish")?;
    let mut text = String::new(rt.alloc());
    if let Some(asked) = asked_of(&words) {
        write!(text, "{asked}")?;
    }
    let end = "\n      In doubt: publish ROADS ldm VERSION hilbert 0 2 16 12 0";
    assert_row(&rt, text.as_str(), text.ends_with(end), true);
    assert_row(
        &rt,
        text.as_str(),
        text.contains("1 to 64 landmarks, 1 to 16 bits"),
        true,
    );
    Ok(())
}

#[test]
fn the_table_of_commands_is_printed(rt: HostRuntime) -> Result<(), Fail> {
    let text = told_of(rt.alloc(), &Words::new(rt.alloc()))?;
    let start = "road_proof: arguments: There are none.\ncommands:\n  route ROADS S T\n";
    assert_row(&rt, text.as_str(), text.starts_with(start), true);
    Ok(())
}

static ASKED: [(&str, Option<&str>); 12] = [
    ("help", Some("road_proof 0.1.0, for ")),
    ("--help", Some("road_proof 0.1.0, for ")),
    ("-h", Some("road_proof 0.1.0, for ")),
    ("--version", Some("road_proof 0.1.0, for ")),
    ("-V", Some("road_proof 0.1.0, for ")),
    ("-V serve", None),
    ("help serve", Some("  serve PUB [PUBKEY [CHAIN]]\n")),
    ("serve --help", Some("  serve PUB [PUBKEY [CHAIN]]\n")),
    ("serve -h", Some("  serve PUB [PUBKEY [CHAIN]]\n")),
    ("help rout", None),
    ("rout --help", None),
    ("serve help", None),
];

#[test]
fn the_program_tells_of_itself(rt: HostRuntime) -> Result<(), Fail> {
    for (line, front) in &ASKED {
        let words = words_of(&rt, rt.alloc(), *line)?;
        assert_row(&rt, *line, asked_of(&words).is_some(), front.is_some());
        if let (Some(asked), Some(front)) = (asked_of(&words), *front) {
            let text = format!(in rt.alloc(); "{asked}")?;
            assert_row(&rt, *line, text.starts_with(front), true);
        }
    }
    Ok(())
}

/// Returns the message about a refused reply with these octets, which can be read up to offset 2.
fn refused_text(rt: &impl Abort, alloc: Global, reply: &[u8]) -> Result<String, Fail> {
    let words = words_of(rt, alloc, "check k r 1 5 3")?;
    let ended = Ended {
        status: 1,
        fault: None,
    };
    let facts = Facts {
        name: "r",
        file: Content::of(&words, ended, "r", reply, reply.len()),
        file_error: None,
        source_error: None,
        sink_error: None,
        desk_error: None,
        line: b"refused Malformed 2\n".as_slice(),
        key: None,
        left: None,
    };
    match message_on(&words, ended, facts) {
        Some(message) => Ok(format!(in alloc; "{message}")?),
        None => Ok(String::new(alloc)),
    }
}

#[test]
fn a_line_end_too_many_is_told(rt: HostRuntime) -> Result<(), Fail> {
    let longer = "at offset 2 cannot be read. The file has one octet too many: a line end.";
    for (reply, is_longer) in [
        (b"\x02\x00\n".as_slice(), true),
        (b"\x02\x00x".as_slice(), false),
        (b"\x02\x00\n\n".as_slice(), false),
        (b"\x02\n".as_slice(), false),
    ] {
        let text = refused_text(&rt, rt.alloc(), reply)?;
        assert_row(&rt, text.as_str(), text.contains(longer), is_longer);
        assert_row(&rt, text.as_str(), text.contains("a line end"), is_longer);
    }
    Ok(())
}

static FILES: [(DimacsError, &str); 4] = [
    (DimacsError::Range(1, 6), "graph"),
    (DimacsError::Range(2, 6), "places"),
    (DimacsError::Repeated(1), "places"),
    (DimacsError::Unpaired(2), "graph"),
];

#[test]
fn a_fault_of_two_files_is_said_of_one(rt: HostRuntime) {
    for (fault, file) in &FILES {
        assert_row(&rt, *fault, faulty_file("graph", "places", *fault), *file);
    }
}

static NUMBERS: [(&str, u32, &str); 8] = [
    (
        "# a map\nroads 1\n\nnode 1 47.37 8.54\r\n",
        4,
        "Line 4: 47.37 is not a whole number from -2147483648 to 2147483647.",
    ),
    (
        "roads 1\nnode -1 0 0",
        2,
        "Line 2: -1 is not a whole number from 0 to 4294967295.",
    ),
    (
        "roads 1\nroad 1 2\t4294967296\r\n",
        2,
        "Line 2: 4294967296 is not a whole number from 0 to 4294967295.",
    ),
    (
        "p sp 3 4\na 1 2 0x4\n",
        2,
        "Line 2: 0x4 is not a whole number from 0 to 4294967295.",
    ),
    (
        "p sp 3 four\n",
        1,
        "Line 1: four is not a whole number from 0 to 4294967295.",
    ),
    (
        "p aux sp co 3\nv 1 2147483648 0\n",
        2,
        "Line 2: 2147483648 is not a whole number from -2147483648 to 2147483647.",
    ),
    (
        "roads 1\nroad 1 2 123456789012345678901\n",
        2,
        "Line 2: 12345678901234567890.. is not a whole number from 0 to 4294967295.",
    ),
    (
        "roads 1\nroad 1 2 \x1b[2J\n",
        2,
        "Line 2: an unprintable word is not a whole number from 0 to 4294967295.",
    ),
];

#[test]
fn a_bad_number_is_told_by_its_word(rt: HostRuntime) -> Result<(), Fail> {
    for (text, line, message) in &NUMBERS {
        match bad_number(text.as_bytes(), *line) {
            None => return Err(Fail::from("no word is wrong")),
            Some(bad) => assert_printed(&rt, rt.alloc(), bad, *message)?,
        }
    }
    assert_same(&rt, bad_number(b"roads 1\nnode 1 -2 3\n", 2), None);
    Ok(())
}

#[test]
fn roads_of_length_0_are_counted(rt: HostRuntime) {
    let text = b"roads 1\nnode 0 0 0\nroad 1 2 0\r\n\troad 2 3 00\nroad 3 4 10\n# road 1 2 0\n";
    assert_same(&rt, zero_roads(text), 2);
}

/// A road file with skipped lines. Its last lines, added one at a time, give one fault of each kind.
const ROADS: &str = "# a map\nroads 1\n\nnode 1 0 0\n\tnode  2 0 0\r\nroad 1 2 4\nroad 2 1 4\n";

static PLACES: [(&str, MapError, &str); 5] = [
    (
        "road 9 2 1",
        MapError::UnknownEnd(2),
        "Line 8 has a road to 9, and no line lists a node 9.",
    ),
    (
        "road 2 8 1",
        MapError::UnknownEnd(2),
        "Line 8 has a road to 8, and no line lists a node 8.",
    ),
    (
        "road 2 2 1",
        MapError::SelfRoad(2),
        "Line 8 has a road from the node 2 to itself.",
    ),
    (
        "node 02 5 5",
        MapError::RepeatedNode(2),
        "Line 8 lists the node 2, which line 5 has listed already.",
    ),
    (
        "node 3 5 5",
        MapError::Crowded(3),
        "The node 3 of line 8 has more than 255 neighbours.",
    ),
];

fn assert_place(
    rt: &impl Abort,
    alloc: Global,
    line: &str,
    fault: MapError,
    message: &str,
) -> Result<(), Fail> {
    let text = format!(in alloc; "{ROADS}{line}\n")?;
    match place_of(text.as_bytes(), fault) {
        None => Err(Fail::from("the place is not found")),
        Some(place) => Ok(assert_printed(rt, alloc, place, message)?),
    }
}

#[test]
fn a_road_file_is_told_by_line_and_id(rt: HostRuntime) -> Result<(), Fail> {
    for (line, fault, message) in &PLACES {
        assert_place(&rt, rt.alloc(), *line, *fault, *message)?;
    }
    assert_same(&rt, place_of(ROADS.as_bytes(), MapError::Empty), None);
    Ok(())
}

static DIGITS: [(&str, Option<usize>, &str); 8] = [
    ("0aF\r\n", Some(4), "It has 3 hex digits, not 4."),
    ("", Some(4), "It has 0 hex digits, not 4."),
    ("a\n", Some(4), "It has 1 hex digit, not 4."),
    ("a", None, "It has 1 hex digit. The number must be even."),
    (
        "0a0g",
        Some(4),
        "The octet at offset 3 is not a hex digit. \
         The file must have 4 hex digits and at most one line end.",
    ),
    (
        "0a0b\n\n",
        Some(4),
        "The octet at offset 4 is not a hex digit. \
         The file must have 4 hex digits and at most one line end.",
    ),
    (
        "0aF\r\n",
        None,
        "It has 3 hex digits. The number must be even.",
    ),
    (
        "0a 0",
        None,
        "The octet at offset 2 is not a hex digit. \
         The file must have an even number of hex digits and at most one line end.",
    ),
];

#[test]
fn hex_is_told_by_its_digits(rt: HostRuntime) -> Result<(), AllocError> {
    for (text, wanted, message) in &DIGITS {
        let wrong = WrongHex::of(text.as_bytes(), text.len(), *wanted);
        assert_printed(&rt, rt.alloc(), wrong, *message)?;
    }
    Ok(())
}

static LOOKS: [(&[u8], Option<Look>); 9] = [
    (b"", Some(Look::Empty)),
    (b"\x1f\x8b\x08", Some(Look::Gzip)),
    (b"\xef\xbb\xbfroads 1", Some(Look::ByteOrderMark)),
    (b"roads 1\n", Some(Look::RoadFile)),
    (b"RPP1RPF1", Some(Look::Publication)),
    (b"\x00RPF1", Some(Look::Reply)),
    (b"\x02", Some(Look::Reply)),
    (b"RPN1RPF1", Some(Look::NearReply)),
    (b"\x02\x02", None),
];

#[test]
fn files_are_known_by_their_first_octets(rt: HostRuntime) {
    for (text, look) in &LOOKS {
        assert_row(&rt, *text, look_of(*text), *look);
    }
}

#[test]
fn looks_and_settings_are_printed(rt: HostRuntime) -> Result<(), AllocError> {
    let wanted = "It looks like a gzip file, which must be unpacked first.";
    assert_printed(&rt, rt.alloc(), Look::Gzip, wanted)?;
    assert_same(&rt, setting_name(3), "P1");
    assert_same(&rt, plan_rule(1, 3), "Under dij and full it is 0.");
    let wanted = "Under ldm it is the bits of a code, from 1 to 16.";
    assert_same(&rt, plan_rule(3, 4), wanted);
    Ok(())
}

#[test]
fn hex_that_was_not_kept_whole_is_told_by_its_size(rt: HostRuntime) -> Result<(), AllocError> {
    assert_printed(
        &rt,
        rt.alloc(),
        WrongHex::of(b"0a0b", 6, Some(4)),
        "It is too long: it has 6 octets.",
    )
}

static ROUTES: [(CheckError, &str); 9] = [
    (
        CheckError::NotAnswer(2),
        "The answer is not to be used: \
         there is none. The server says, without proof, that no route joins the two ends.",
    ),
    (
        CheckError::Stale(3),
        "The answer is not to be used: \
         the reply is of version 3 of the map, which is older than LEAST.",
    ),
    (
        CheckError::BadChain(0, SealError::NoMatch),
        "The answer is not to be used: \
         link 0 of the chain, counted from 0 on, is not signed by the key before it.",
    ),
    (
        CheckError::BadSignature(SealError::NoMatch),
        "The answer is not to be used: \
         the reply is not signed under this public key, \
         or under a key of the chain if one is given.",
    ),
    (
        CheckError::Judged(Refusal::Shorter(9)),
        "The answer is not to be used: \
         the signed roads have a walk of length 9 from S to T, \
         and the reply has no route as short.",
    ),
    (
        CheckError::Judged(Refusal::MissingTuple(4)),
        "The answer is not to be used: \
         the reply leaves out the node 4. \
         Without this node, it shows neither a shortest route nor that there is none.",
    ),
    (
        CheckError::Judged(Refusal::MissingPair(4, 5)),
        "The answer is not to be used: \
         the reply leaves out the distance between the nodes 4 and 5. \
         Without it, the reply shows neither a shortest route nor that there is none.",
    ),
    (
        CheckError::Judged(Refusal::Disagrees(9)),
        "The answer is not to be used: \
         a signed distance in the reply, 9, contradicts it.",
    ),
    (
        CheckError::Judged(Refusal::BadRoute(1)),
        "The answer is not to be used: \
         its route does not lead from S to T over signed roads.",
    ),
];

#[test]
fn refused_answers_are_told_to_planners(rt: HostRuntime) -> Result<(), AllocError> {
    for (why, message) in &ROUTES {
        assert_printed(&rt, rt.alloc(), Unusable::Route(*why), *message)?;
    }
    Ok(())
}

static NEARS: [(NearError, &str); 2] = [
    (
        NearError::Malformed(0),
        "The nodes are not to be used: \
         the file is not a reply to a range query. The field at offset 0 cannot be read.",
    ),
    (
        NearError::MissingTuple(4),
        "The nodes are not to be used: \
         the reply leaves out the node 4, which its roads show to be within the radius.",
    ),
];

#[test]
fn refused_nodes_are_told_to_planners(rt: HostRuntime) -> Result<(), AllocError> {
    for (why, message) in &NEARS {
        assert_printed(&rt, rt.alloc(), Unusable::Nodes(*why), *message)?;
    }
    Ok(())
}

/// Refusals of replies for a route, with their lines according to the specification of lines.
static LINES: [(&[u8], CheckError); 13] = [
    (b"refused NotAnswer 2\n", CheckError::NotAnswer(2)),
    (
        b"refused Malformed 4294967295\n",
        CheckError::Malformed(4294967295),
    ),
    (
        b"refused Stale 18446744073709551615\n",
        CheckError::Stale(18446744073709551615),
    ),
    (
        b"refused BadChain 6 BadForm\n",
        CheckError::BadChain(6, SealError::BadForm),
    ),
    (
        b"refused BadSignature BadKey\n",
        CheckError::BadSignature(SealError::BadKey),
    ),
    (
        b"refused BadCover 2 Place\n",
        CheckError::BadCover(2, CoverFault::Place),
    ),
    (
        b"refused BadCover 1 Differs\n",
        CheckError::BadCover(1, CoverFault::Differs),
    ),
    (
        b"refused RepeatedNode 7\n",
        CheckError::Judged(Refusal::RepeatedNode(7)),
    ),
    (
        b"refused BadRoute 3\n",
        CheckError::Judged(Refusal::BadRoute(3)),
    ),
    (
        b"refused MissingTuple 4\n",
        CheckError::Judged(Refusal::MissingTuple(4)),
    ),
    (
        b"refused MissingPair 4 5\n",
        CheckError::Judged(Refusal::MissingPair(4, 5)),
    ),
    (
        b"refused Shorter 9\n",
        CheckError::Judged(Refusal::Shorter(9)),
    ),
    (
        b"refused Disagrees 9\n",
        CheckError::Judged(Refusal::Disagrees(9)),
    ),
];

#[test]
fn a_refusal_is_read_back_from_its_line(rt: HostRuntime) -> Result<(), Fail> {
    for (line, why) in &LINES {
        let wanted = line_of_refused(rt.alloc(), *why)?;
        assert_row(&rt, *why, wanted.as_slice(), *line);
        assert_row(&rt, *why, read_refused(*line), Some(*why));
    }
    assert_row(
        &rt,
        "accepted none",
        read_refused(b"accepted none\n").is_none(),
        true,
    );
    Ok(())
}

/// Refusals of replies to a range query, with their lines according to the specification of lines.
static NEAR_LINES: [(&[u8], NearError); 7] = [
    (b"refused Malformed 0\n", NearError::Malformed(0)),
    (b"refused Stale 3\n", NearError::Stale(3)),
    (
        b"refused BadChain 0 NoMatch\n",
        NearError::BadChain(0, SealError::NoMatch),
    ),
    (
        b"refused BadSignature NoMatch\n",
        NearError::BadSignature(SealError::NoMatch),
    ),
    (
        b"refused BadCover Long\n",
        NearError::BadCover(CoverFault::Long),
    ),
    (b"refused RepeatedNode 5\n", NearError::RepeatedNode(5)),
    (b"refused MissingTuple 4\n", NearError::MissingTuple(4)),
];

#[test]
fn a_refusal_on_a_radius_is_read_back(rt: HostRuntime) {
    for (line, why) in &NEAR_LINES {
        assert_row(&rt, *why, read_refused_near(*line), Some(*why));
    }
}

#[test]
fn a_key_has_a_short_name(rt: HostRuntime) -> Result<(), Fail> {
    // The key of a secret of zeros. Python's hashlib computed the digits.
    let digits =
        b"000000050000000400000000000000000000000000000000829887511085dc8b9946d97b20163fe2ab4385e734979f535139cabe33cd694f\n";
    match ShortName::of_digits(digits) {
        None => return Err(Fail::from("there is no name")),
        Some(name) => assert_printed(&rt, rt.alloc(), name, "29a0f89a")?,
    }
    assert_same(&rt, ShortName::of_digits(b"00"), None);
    Ok(())
}
