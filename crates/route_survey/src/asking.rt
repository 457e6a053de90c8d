//! Answering and checking the queries of a survey.
ghost use Rattle.std.specs.Prelude.{◌≡◌, ℕ, ◌+◌, ◌*◌, ◌^◌, ◌<◌, ◌≤◌, Some, All, IfOk, OnOk, length};
ghost use Rattle.octet_text.specs.Want.{no_memory};
ghost use Rattle.sha2.specs.Sha256.{sha256};
ghost use Rattle.lms_tree.specs.Signatures.{public_key};
ghost use Rattle.road_map.specs.Walks.{distance};
ghost use Rattle.route_server.specs.Keeping.{publication_in};
ghost use Rattle.near_proof.specs.Honest.{AreJoined};
ghost use Rattle.route_survey.specs.Surveys.{survey_key, IsAnswered};
ghost use Rattle.route_survey.specs.Tallies.{IsAskable, CountsOne, CountsAll};

use crate::tally::Tally;
use book_model::Query;
use near_proof::honest_laws;
use octet_text::{Hasher, NoMemory, Sha};
use road_map::map_laws;
use route_client::{CheckError, Checked, check};
use route_server::Held;
use std::alloc::Global;

/// A reply, and the length of its route.
#[derive(Drop)]
struct Answered {
    reply: Vec<u8>,
    length: u64,
}

/// Returns out of memory, which is the only reason why an honest reply may not be accepted.
fn memory_of(error: CheckError) -> NoMemory
    requires { error ≡ CheckError.Memory no_memory }
{
    match error {
        CheckError::Memory(none) => none,
        _ => unreachable!(),
    }
}

/// Returns the reply to a query whose ends a walk joins, and the length that a client accepts.
fn ask(
    alloc: Global,
    held: &Held<Sha>,
    public: &[u8; 56],
    query: Query,
) -> Result<Answered, NoMemory>
    requires public { public.now ≡ public_key survey_key }
    requires askable { IsAskable held.now }
    requires joined { AreJoined held.now.map.parts query }
    ensures answered { IfOk result
        (λ it. IsAnswered (publication_in sha256 held.now) query it.reply.items) }
    ensures length { IfOk result (λ it.
        distance held.now.map.parts query.from query.to ≡ Some it.length) }
    ensures bound { IfOk result (λ it. it.length < 2 ^ 48) }
{
    map_laws();
    honest_laws();
    let reply = held.answer(alloc, query)?;
    match check::<Sha>(alloc, public, &[], &reply, query, 1) {
        Ok(Checked::Route(accepted)) => Ok(Answered {
            reply,
            length: accepted.length,
        }),
        Ok(Checked::Apart { .. }) => unreachable!(),
        Err(error) => Err(memory_of(error)),
    }
}

/// Adds the reply to one query to the counts.
fn count_one(
    alloc: Global,
    held: &Held<Sha>,
    public: &[u8; 56],
    tally: &mut Tally,
    query: Query,
) -> Result<(), NoMemory>
    requires public { public.now ≡ public_key survey_key }
    requires askable { IsAskable held.now }
    requires joined { AreJoined held.now.map.parts query }
    requires few { tally.old.accepted < 1000 }
    requires room { tally.old.total ≤ tally.old.accepted * 2 ^ 48 }
    ensures counts { OnOk result (CountsOne
        (publication_in sha256 held.now) query tally.old tally.new) }
    ensures room { OnOk result (tally.new.total ≤ tally.new.accepted * 2 ^ 48) }
{
    let answered = ask(alloc, held, public, query)?;
    tally.hasher.add(&answered.reply);
    tally.accepted += 1;
    tally.total += answered.length;
    Ok(())
}

/// Adds the replies to all queries to the counts.
pub fn count_all(
    alloc: Global,
    held: &Held<Sha>,
    public: &[u8; 56],
    tally: &mut Tally,
    queries: &[Query],
) -> Result<(), NoMemory>
    requires public { public.now ≡ public_key survey_key }
    requires askable { IsAskable held.now }
    requires joined { All (AreJoined held.now.map.parts) queries.now }
    requires few { length queries.now ≤ 1000 }
    requires nothing { tally.old.accepted ≡ 0 }
    requires zero { tally.old.total ≡ 0 }
    ensures { OnOk result (CountsAll
        (publication_in sha256 held.now) queries.now tally.old tally.new) }
{
    for query in queries {
        count_one(alloc, held, public, tally, *query)?;
    }
    Ok(())
}
