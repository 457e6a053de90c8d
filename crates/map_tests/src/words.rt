//! Command lines that fit a command, and some that fit none.

use crate::same::assert_row;
use book_model::{Query, Settings};
use proof_octets::NearQuery;
use road_command::{Command, KeyKind, MOST_WORDS, Survey, Words, command_of};
use std::alloc::Global;
use std::process::Abort;
use std::test::Fail;

fn words_of(rt: &impl Abort, alloc: Global, line: &str) -> Result<Words, Fail> {
    let mut words = Words::new(alloc);
    for word in line.split(' ') {
        assert!(rt; words.count() <= MOST_WORDS);
        words.push(word)?;
    }
    Ok(words)
}

fn assert_read(
    rt: &impl Abort,
    alloc: Global,
    line: &str,
    command: Option<Command<'_>>,
) -> Result<(), Fail> {
    let words = words_of(rt, alloc, line)?;
    assert_row(rt, line, command_of(&words), command);
    Ok(())
}

const SETTINGS: Settings = Settings {
    method: 3,
    version: 18_446_744_073_709_551_615,
    order: 5,
    seed: 7,
    fan: 32,
    p1: 4,
    p2: 12,
    p3: 2,
};

const QUERY: Query = Query { from: 1, to: 3 };

const NEAR_QUERY: NearQuery = NearQuery {
    from: 1,
    radius: 18_446_744_073_709_551_615,
};

const OF_OWNERS: [(&str, Command<'static>); 8] = [
    (
        "root a.roads 2",
        Command::Root {
            roads: "a.roads",
            fan: 2,
        },
    ),
    (
        "dimacs a.gr a.co",
        Command::Dimacs {
            graph: "a.gr",
            places: "a.co",
        },
    ),
    (
        "key s.hex h10",
        Command::Key {
            secret: "s.hex",
            kind: KeyKind::H10,
        },
    ),
    (
        "succeed s.hex h5",
        Command::Succeed {
            secret: "s.hex",
            kind: KeyKind::H5,
        },
    ),
    ("links", Command::Links),
    ("desk", Command::Desk),
    (
        "publish a.roads ldm 18446744073709551615 shuffled 7 32 4 12 2",
        Command::Publish {
            roads: "a.roads",
            settings: SETTINGS,
        },
    ),
    (
        "reduce k.hex header signature",
        Command::Reduce {
            key: "k.hex",
            text: "header",
            signature: "signature",
        },
    ),
];

#[test]
fn command_lines_of_owners_are_read(rt: HostRuntime) -> Result<(), Fail> {
    for (line, command) in &OF_OWNERS {
        assert_read(&rt, rt.alloc(), *line, Some(*command))?;
    }
    Ok(())
}

const OF_OTHERS: [(&str, Command<'static>); 10] = [
    (
        "prove a.pub 1 3",
        Command::Prove {
            publication: "a.pub",
            query: QUERY,
        },
    ),
    (
        "serve a.pub",
        Command::Serve {
            publication: "a.pub",
        },
    ),
    (
        "serve a.pub k.hex",
        Command::ServeSigned {
            publication: "a.pub",
            key: "k.hex",
            chain: None,
        },
    ),
    (
        "serve a.pub k.hex a.chain",
        Command::ServeSigned {
            publication: "a.pub",
            key: "k.hex",
            chain: Some("a.chain"),
        },
    ),
    (
        "check k.hex a.reply 1 3 18446744073709551615",
        Command::Check {
            key: "k.hex",
            reply: "a.reply",
            query: QUERY,
            least: 18_446_744_073_709_551_615,
            chain: None,
        },
    ),
    (
        "audit k.hex a.pub a.reply 1 3 a.chain",
        Command::Audit {
            key: "k.hex",
            publication: "a.pub",
            reply: "a.reply",
            query: QUERY,
            chain: Some("a.chain"),
        },
    ),
    (
        "survey 256 18446744073709551615 hyp 1000",
        Command::Survey(Survey {
            width: 256,
            seed: 18_446_744_073_709_551_615,
            method: 4,
            queries: 1000,
        }),
    ),
    (
        "reach a.pub 1 18446744073709551615",
        Command::Reach {
            publication: "a.pub",
            query: NEAR_QUERY,
        },
    ),
    (
        "check-reach k.hex a.reply 1 18446744073709551615 3 a.chain",
        Command::CheckReach {
            key: "k.hex",
            reply: "a.reply",
            query: NEAR_QUERY,
            least: 3,
            chain: Some("a.chain"),
        },
    ),
    (
        "audit-reach k.hex a.pub a.reply 1 18446744073709551615",
        Command::AuditReach {
            key: "k.hex",
            publication: "a.pub",
            reply: "a.reply",
            query: NEAR_QUERY,
            chain: None,
        },
    ),
];

#[test]
fn command_lines_of_servers_and_clients_are_read(rt: HostRuntime) -> Result<(), Fail> {
    for (line, command) in &OF_OTHERS {
        assert_read(&rt, rt.alloc(), *line, Some(*command))?;
    }
    Ok(())
}

static NO_COMMANDS: [&str; 24] = [
    "publish a.roads dij 18446744073709551616 id 0 2 0 0 0",
    "publish a.roads dij 1 ids 0 2 0 0 0",
    "publish a.roads dijkstra 1 id 0 2 0 0 0",
    "publish a.roads dij 1 id 0 1 0 0 0",
    "publish a.roads dij 1 id 0 2 0 0",
    "prove a.pub 1",
    "prove a.pub 1 4294967296",
    "check k r 1 3",
    "check k r 1 3 18446744073709551616",
    "check k r 1 3 3 c d",
    "audit k p r 1",
    "desk owner.desk",
    "survey 1 0 dij 2",
    "survey 257 0 dij 2",
    "survey 2 0 dij 0",
    "survey 2 0 dij 1001",
    "serve",
    "serve a.pub k.hex a.chain 1",
    "reach a.pub 1",
    "reach a.pub 1 18446744073709551616",
    "check-reach k r 1 3",
    "audit-reach k p r 4294967296 3",
    "reduce k header",
    "",
];

#[test]
fn other_command_lines_fit_no_command(rt: HostRuntime) -> Result<(), Fail> {
    for line in &NO_COMMANDS {
        assert_read(&rt, rt.alloc(), *line, None)?;
    }
    Ok(())
}
