//! The commands, and the command that arguments request.

ghost use Rattle.std.specs.Prelude.{◌≡◌, ◌<◌, ◌≤◌, length, drop, IfSome};
ghost use Rattle.std.specs.Option.{option_map};
ghost use Rattle.road_command.specs.Requests.{ServeSigned, request_of, route_words, root_words, dimacs_words, key_words, succeed_words, links_words, desk_words, publish_words, prove_words, serve_words, check_words, check_of, audit_words, audit_of, survey_words, reach_words, check_reach_words, check_reach_of, audit_reach_words, audit_reach_of, word_at, reduce_words};
ghost use Rattle.road_command.specs.View.{shown, HasFan};

use crate::asked::Survey;
use crate::kind::KeyKind;
use crate::reading::{fan, kind, near_query, parameters, query, settings, survey};
use crate::words::Words;
use book_model::{Query, Settings};
use proof_octets::NearQuery;
use road_reader::{natural, wide_natural};

/// A command with its arguments parsed.
#[derive(Clone, Copy, Debug, PartialEq, Eq)]
pub enum Command<'a> {
    /// Writes a shortest route between two nodes of the map in a file.
    Route {
        roads: &'a str,
        from: u32,
        to: u32,
    },
    /// Writes the number of nodes of the map in a file, and the root of the tree over their plain leaves.
    Root {
        roads: &'a str,
        fan: u8,
    },
    /// Writes the road file of a graph and its coordinates, which are files of the DIMACS shortest path challenge.
    Dimacs {
        graph: &'a str,
        places: &'a str,
    },
    /// Makes the owner's key from a secret file, and writes its public key.
    Key {
        secret: &'a str,
        kind: KeyKind,
    },
    /// Makes the key that follows the owner's key, from a secret file, and writes its public key.
    Succeed {
        secret: &'a str,
        kind: KeyKind,
    },
    /// Writes the chain file that leads from the owner's first key to the current key.
    Links,
    /// Writes the owner's current public key, and the number of its remaining one-time keys.
    Desk,
    /// Signs the map in a file with its hints, and writes the publication.
    Publish {
        roads: &'a str,
        settings: Settings,
    },
    /// Answers a query over a publication, and writes the reply.
    Prove {
        publication: &'a str,
        query: Query,
    },
    /// Answers frames over a publication and over those installed later, and writes the replies.
    Serve {
        publication: &'a str,
    },
    /// Answers frames over a publication that is signed under a public key or, if a chain file is given, along its
    /// chain. Also answers over those installed later, which must be signed in the same way.
    ServeSigned {
        publication: &'a str,
        key: &'a str,
        chain: Option<&'a str>,
    },
    /// Checks a reply to a query with a public key, the minimum version accepted and, if given, a chain file.
    /// Writes the verdict.
    Check {
        key: &'a str,
        reply: &'a str,
        query: Query,
        least: u64,
        chain: Option<&'a str>,
    },
    /// Finds out what an accepted reply is evidence of, with the owner's disk, a publication and, if given, a chain
    /// file.
    Audit {
        key: &'a str,
        publication: &'a str,
        reply: &'a str,
        query: Query,
        chain: Option<&'a str>,
    },
    /// Publishes a grid in memory, answers random queries over it, checks each reply, and writes the counts.
    Survey(Survey),
    /// Answers which nodes lie within a radius, over a publication, and writes the reply.
    Reach {
        publication: &'a str,
        query: NearQuery,
    },
    /// Checks a reply to a range query with a public key, the minimum version accepted and, if given, a chain file.
    /// Writes the verdict.
    CheckReach {
        key: &'a str,
        reply: &'a str,
        query: NearQuery,
        least: u64,
        chain: Option<&'a str>,
    },
    /// Finds out what an accepted reply to a range query is evidence of, with the owner's disk, a publication and,
    /// if given, a chain file.
    AuditReach {
        key: &'a str,
        publication: &'a str,
        reply: &'a str,
        query: NearQuery,
        chain: Option<&'a str>,
    },
    /// Reduces a signature of a text, with the owner's disk, to a collision or to a value that was never released.
    Reduce {
        key: &'a str,
        text: &'a str,
        signature: &'a str,
    },
}

/// Returns the command that the arguments request, or `None` if they fit no command.
pub fn command_of(words: &Words) -> Option<Command<'_>>
    ensures is { option_map shown result ≡ request_of words.now }
    ensures fan { IfSome result HasFan }
{
    if words.count() == 0 {
        return None;
    }
    match words.word(0) {
        "route" => route_of(words),
        "root" => root_of(words),
        "dimacs" => dimacs_of(words),
        "key" => key_of(words),
        "succeed" => succeed_of(words),
        "links" => links_of(words),
        "desk" => desk_of(words),
        "publish" => publish_of(words),
        "prove" => prove_of(words),
        "serve" => serve_of(words),
        "check" => check_of(words),
        "audit" => audit_of(words),
        "survey" => survey_of(words),
        "reach" => reach_of(words),
        "check-reach" => check_reach_of(words),
        "audit-reach" => audit_reach_of(words),
        "reduce" => reduce_of(words),
        _ => None,
    }
}

fn route_of(words: &Words) -> Option<Command<'_>>
    requires { 0 < length words.now }
    ensures is { option_map shown result ≡ route_words (drop 1 words.now) }
    ensures fan { IfSome result HasFan }
{
    if words.count() != 4 {
        return None;
    }
    let from = natural(words.word(2).as_bytes())?;
    let to = natural(words.word(3).as_bytes())?;
    Some(Command::Route {
        roads: words.word(1),
        from,
        to,
    })
}

fn root_of(words: &Words) -> Option<Command<'_>>
    requires { 0 < length words.now }
    ensures is { option_map shown result ≡ root_words (drop 1 words.now) }
    ensures fan { IfSome result HasFan }
{
    if words.count() != 3 {
        return None;
    }
    let fan = fan(words.word(2))?;
    Some(Command::Root {
        roads: words.word(1),
        fan,
    })
}

fn dimacs_of(words: &Words) -> Option<Command<'_>>
    requires { 0 < length words.now }
    ensures is { option_map shown result ≡ dimacs_words (drop 1 words.now) }
    ensures fan { IfSome result HasFan }
{
    if words.count() != 3 {
        return None;
    }
    Some(Command::Dimacs {
        graph: words.word(1),
        places: words.word(2),
    })
}

fn key_of(words: &Words) -> Option<Command<'_>>
    requires { 0 < length words.now }
    ensures is { option_map shown result ≡ key_words (drop 1 words.now) }
    ensures fan { IfSome result HasFan }
{
    if words.count() != 3 {
        return None;
    }
    let kind = kind(words.word(2))?;
    Some(Command::Key {
        secret: words.word(1),
        kind,
    })
}

fn succeed_of(words: &Words) -> Option<Command<'_>>
    requires { 0 < length words.now }
    ensures is { option_map shown result ≡ succeed_words (drop 1 words.now) }
    ensures fan { IfSome result HasFan }
{
    if words.count() != 3 {
        return None;
    }
    let kind = kind(words.word(2))?;
    Some(Command::Succeed {
        secret: words.word(1),
        kind,
    })
}

fn links_of(words: &Words) -> Option<Command<'_>>
    requires { 0 < length words.now }
    ensures is { option_map shown result ≡ links_words (drop 1 words.now) }
    ensures fan { IfSome result HasFan }
{
    if words.count() != 1 {
        return None;
    }
    Some(Command::Links)
}

fn desk_of(words: &Words) -> Option<Command<'_>>
    requires { 0 < length words.now }
    ensures is { option_map shown result ≡ desk_words (drop 1 words.now) }
    ensures fan { IfSome result HasFan }
{
    if words.count() != 1 {
        return None;
    }
    Some(Command::Desk)
}

fn publish_of(words: &Words) -> Option<Command<'_>>
    requires { 0 < length words.now }
    ensures is { option_map shown result ≡ publish_words (drop 1 words.now) }
    ensures fan { IfSome result HasFan }
{
    if words.count() != 10 {
        return None;
    }
    let parameters = parameters(words.word(7), words.word(8), words.word(9))?;
    let settings = settings(
        words.word(2),
        words.word(3),
        words.word(4),
        words.word(5),
        words.word(6),
        parameters,
    )?;
    Some(Command::Publish {
        roads: words.word(1),
        settings,
    })
}

fn prove_of(words: &Words) -> Option<Command<'_>>
    requires { 0 < length words.now }
    ensures is { option_map shown result ≡ prove_words (drop 1 words.now) }
    ensures fan { IfSome result HasFan }
{
    if words.count() != 4 {
        return None;
    }
    let query = query(words.word(2), words.word(3))?;
    Some(Command::Prove {
        publication: words.word(1),
        query,
    })
}

fn serve_of(words: &Words) -> Option<Command<'_>>
    requires { 0 < length words.now }
    ensures is { option_map shown result ≡ serve_words (drop 1 words.now) }
    ensures fan { IfSome result HasFan }
{
    match words.count() {
        2 => Some(Command::Serve {
            publication: words.word(1),
        }),
        3 => Some(serve_signed(words, None)),
        4 => Some(serve_signed(words, Some(words.word(3)))),
        _ => None,
    }
}

fn serve_signed<'a>(words: &'a Words, chain: Option<&'a str>) -> Command<'a>
    requires { 3 ≤ length words.now }
    ensures is { shown result ≡ ServeSigned (word_at words.now 1) (word_at words.now 2)
        (option_map (λ word. word.now) chain.entry) }
    ensures fan { HasFan result }
{
    Command::ServeSigned {
        publication: words.word(1),
        key: words.word(2),
        chain,
    }
}

fn check_of(words: &Words) -> Option<Command<'_>>
    requires { 0 < length words.now }
    ensures is { option_map shown result ≡ check_words (drop 1 words.now) }
    ensures fan { IfSome result HasFan }
{
    match words.count() {
        6 => check_along(words, None),
        7 => check_along(words, Some(words.word(6))),
        _ => None,
    }
}

fn check_along<'a>(words: &'a Words, chain: Option<&'a str>) -> Option<Command<'a>>
    requires { 6 ≤ length words.now }
    ensures is { option_map shown result ≡ check_of (word_at words.now 1) (word_at words.now 2)
        (word_at words.now 3) (word_at words.now 4) (word_at words.now 5)
        (option_map (λ word. word.now) chain.entry) }
    ensures fan { IfSome result HasFan }
{
    let query = query(words.word(3), words.word(4))?;
    let least = wide_natural(words.word(5).as_bytes())?;
    Some(Command::Check {
        key: words.word(1),
        reply: words.word(2),
        query,
        least,
        chain,
    })
}

fn audit_of(words: &Words) -> Option<Command<'_>>
    requires { 0 < length words.now }
    ensures is { option_map shown result ≡ audit_words (drop 1 words.now) }
    ensures fan { IfSome result HasFan }
{
    match words.count() {
        6 => audit_along(words, None),
        7 => audit_along(words, Some(words.word(6))),
        _ => None,
    }
}

fn audit_along<'a>(words: &'a Words, chain: Option<&'a str>) -> Option<Command<'a>>
    requires { 6 ≤ length words.now }
    ensures is { option_map shown result ≡ audit_of (word_at words.now 1) (word_at words.now 2)
        (word_at words.now 3) (word_at words.now 4) (word_at words.now 5)
        (option_map (λ word. word.now) chain.entry) }
    ensures fan { IfSome result HasFan }
{
    let query = query(words.word(4), words.word(5))?;
    Some(Command::Audit {
        key: words.word(1),
        publication: words.word(2),
        reply: words.word(3),
        query,
        chain,
    })
}

fn survey_of(words: &Words) -> Option<Command<'_>>
    requires { 0 < length words.now }
    ensures is { option_map shown result ≡ survey_words (drop 1 words.now) }
    ensures fan { IfSome result HasFan }
{
    if words.count() != 5 {
        return None;
    }
    let asked = survey(words.word(1), words.word(2), words.word(3), words.word(4))?;
    Some(Command::Survey(asked))
}

fn reach_of(words: &Words) -> Option<Command<'_>>
    requires { 0 < length words.now }
    ensures is { option_map shown result ≡ reach_words (drop 1 words.now) }
    ensures fan { IfSome result HasFan }
{
    if words.count() != 4 {
        return None;
    }
    let query = near_query(words.word(2), words.word(3))?;
    Some(Command::Reach {
        publication: words.word(1),
        query,
    })
}

fn check_reach_of(words: &Words) -> Option<Command<'_>>
    requires { 0 < length words.now }
    ensures is { option_map shown result ≡ check_reach_words (drop 1 words.now) }
    ensures fan { IfSome result HasFan }
{
    match words.count() {
        6 => check_reach_along(words, None),
        7 => check_reach_along(words, Some(words.word(6))),
        _ => None,
    }
}

fn check_reach_along<'a>(words: &'a Words, chain: Option<&'a str>) -> Option<Command<'a>>
    requires { 6 ≤ length words.now }
    ensures is { option_map shown result ≡ check_reach_of (word_at words.now 1) (word_at words.now 2)
        (word_at words.now 3) (word_at words.now 4) (word_at words.now 5)
        (option_map (λ word. word.now) chain.entry) }
    ensures fan { IfSome result HasFan }
{
    let query = near_query(words.word(3), words.word(4))?;
    let least = wide_natural(words.word(5).as_bytes())?;
    Some(Command::CheckReach {
        key: words.word(1),
        reply: words.word(2),
        query,
        least,
        chain,
    })
}

fn audit_reach_of(words: &Words) -> Option<Command<'_>>
    requires { 0 < length words.now }
    ensures is { option_map shown result ≡ audit_reach_words (drop 1 words.now) }
    ensures fan { IfSome result HasFan }
{
    match words.count() {
        6 => audit_reach_along(words, None),
        7 => audit_reach_along(words, Some(words.word(6))),
        _ => None,
    }
}

fn audit_reach_along<'a>(words: &'a Words, chain: Option<&'a str>) -> Option<Command<'a>>
    requires { 6 ≤ length words.now }
    ensures is { option_map shown result ≡ audit_reach_of (word_at words.now 1) (word_at words.now 2)
        (word_at words.now 3) (word_at words.now 4) (word_at words.now 5)
        (option_map (λ word. word.now) chain.entry) }
    ensures fan { IfSome result HasFan }
{
    let query = near_query(words.word(4), words.word(5))?;
    Some(Command::AuditReach {
        key: words.word(1),
        publication: words.word(2),
        reply: words.word(3),
        query,
        chain,
    })
}

fn reduce_of(words: &Words) -> Option<Command<'_>>
    requires { 0 < length words.now }
    ensures is { option_map shown result ≡ reduce_words (drop 1 words.now) }
    ensures fan { IfSome result HasFan }
{
    if words.count() != 4 {
        return None;
    }
    Some(Command::Reduce {
        key: words.word(1),
        text: words.word(2),
        signature: words.word(3),
    })
}
