//! The survey.
ghost use Rattle.std.specs.Prelude.{◌≡◌, ℕ, ◌≤◌, All, IfOk, OnOk, IfErr, List, length};
ghost use Rattle.octet_text.specs.Sha.{HoldsText};
ghost use Rattle.sha2.specs.Sha256.{sha256};
ghost use Rattle.lms_tree.specs.Signatures.{public_key};
ghost use Rattle.road_reader.specs.Grid.{grid_of};
ghost use Rattle.near_proof.specs.Honest.{AreJoined};
ghost use Rattle.route_survey.specs.Asked.{survey_queries, survey_settings};
ghost use Rattle.route_survey.specs.Surveys.{survey_key, survey_line, IsSurveyed, IsSurveyLine, WhyNoSurvey};
ghost use Rattle.route_survey.specs.Tallies.{CountsAll, IsTallied, IsCounted};

use crate::asked::{survey_queries, survey_settings};
use crate::asking::count_all;
use crate::errors::SurveyError;
use crate::line::line_of_survey;
use crate::publishing::{hash_publication, install, sign_grid, survey_key};
use crate::tally::Tally;
use book_model::{Query, Settings};
use octet_text::{Hasher, NoMemory};
use proof_octets::{Publication, range_laws};
use road_reader::grid_laws;
use std::alloc::Global;

/// Returns the counts for the replies to all queries over an installed publication.
fn count_installed(
    alloc: Global,
    public: &[u8; 56],
    publication: Publication,
    tally: &mut Tally,
    queries: &[Query],
) -> Result<(), NoMemory>
    requires public { public.now ≡ public_key survey_key }
    requires surveyed { IsSurveyed publication.parts publication.settings publication }
    requires version { publication.settings.version ≡ 1 }
    requires joined { All (AreJoined publication.parts) queries.now }
    requires few { length queries.now ≤ 1000 }
    requires nothing { tally.old.accepted ≡ 0 }
    requires zero { tally.old.total ≡ 0 }
    ensures { OnOk result (CountsAll publication queries.now tally.old tally.new) }
{
    range_laws();
    let held = install(alloc, publication)?;
    count_all(alloc, &held, public, tally, queries)
}

/// Returns the counts of a survey over its publication.
fn count_over(
    alloc: Global,
    public: &[u8; 56],
    publication: Publication,
    queries: &[Query],
) -> Result<Tally, NoMemory>
    requires public { public.now ≡ public_key survey_key }
    requires surveyed { IsSurveyed publication.parts publication.settings publication }
    requires version { publication.settings.version ≡ 1 }
    requires joined { All (AreJoined publication.parts) queries.now }
    requires few { length queries.now ≤ 1000 }
    ensures { IfOk result (IsTallied publication queries.now) }
{
    let hasher = hash_publication(alloc, &publication)?;
    let mut tally = Tally {
        accepted: 0,
        total: 0,
        hasher,
    };
    count_installed(alloc, public, publication, &mut tally, queries)?;
    Ok(tally)
}

/// Returns the counts of a survey over the publication that it makes of a grid.
fn count_grid(
    alloc: Global,
    width: u32,
    seed: u64,
    settings: &Settings,
    queries: &[Query],
) -> Result<Tally, SurveyError>
    requires wide { 2 ≤ width }
    requires narrow { width ≤ 256 }
    requires version { settings.now.version ≡ 1 }
    requires joined { All (AreJoined (grid_of width seed)) queries.now }
    requires few { length queries.now ≤ 1000 }
    ensures counted { IfOk result (IsCounted (grid_of width seed) settings.now queries.now) }
    ensures refused { IfErr result (WhyNoSurvey (grid_of width seed) settings.now) }
{
    let key = survey_key(alloc)?;
    let publication = sign_grid(alloc, &key, width, seed, settings)?;
    let tally = count_over(alloc, &key.public(), publication, queries)?;
    Ok(tally)
}

/// Returns the line of these counts for `queries` queries.
fn line_of_tally(alloc: Global, queries: u32, tally: Tally) -> Result<Vec<u8>, NoMemory>
    ensures { IfOk result (λ line. (text : List ℕ) → HoldsText tally.hasher text →
        line.items ≡ survey_line queries tally.accepted tally.total (sha256 text)) }
{
    let Tally {
        accepted,
        total,
        hasher,
    } = tally;
    line_of_survey(alloc, queries, accepted, total, &hasher.end())
}

/// Surveys a method over a grid. Publishes the grid of a width and a seed in memory, answers `queries` random
/// queries, checks each reply as a client does, and returns the line of the counts.
///
/// All replies are accepted, because a grid is a map and a walk joins any two of its nodes. Fails with `Plan`
/// exactly if the grid has no book under the method.
pub fn survey_method(
    alloc: Global,
    width: u32,
    seed: u64,
    method: u8,
    wanted: u32,
) -> Result<Vec<u8>, SurveyError>
    requires wide { 2 ≤ width }
    requires narrow { width ≤ 256 }
    requires few { wanted ≤ 1000 }
    ensures line { IfOk result (λ line.
        IsSurveyLine (grid_of width seed) (survey_settings method seed)
        (survey_queries width seed wanted) line.items) }
    ensures refused { IfErr result
        (WhyNoSurvey (grid_of width seed) (survey_settings method seed)) }
{
    grid_laws();
    let settings = survey_settings(method, seed);
    let queries = survey_queries(alloc, width, seed, wanted)?;
    let tally = count_grid(alloc, width, seed, &settings, &queries)?;
    let line = line_of_tally(alloc, wanted, tally)?;
    Ok(line)
}
