//! The publication of a survey, which is signed in memory and installed.
ghost use Rattle.std.specs.Prelude.{◌≡◌, ◌≤◌, IfOk, IfErr, Err};
ghost use Rattle.octet_text.specs.Sha.{HoldsText};
ghost use Rattle.sha2.specs.Sha256.{sha256};
ghost use Rattle.road_reader.specs.Grid.{grid_of};
ghost use Rattle.proof_octets.specs.Publications.{publication, publication_text};
ghost use Rattle.route_server.specs.Headers.{HasHeader, Makes};
ghost use Rattle.route_server.specs.Keeping.{publication_in};
ghost use Rattle.route_survey.specs.Surveys.{survey_key, IsSurveyed, WhyNoSurvey};

use crate::errors::SurveyError;
use book_model::Settings;
use lms_tree::{Key, KeyError};
use octet_text::{Hasher, NoMemory, Octets, Sha, copied};
use proof_octets::{Publication, range_laws};
use road_map::{Parts, map_laws};
use road_reader::{GridError, grid_laws, grid_roads};
use route_owner::make_signable;
use route_server::{BuildError, Headed, Held, InstallError, server_laws};
use std::alloc::Global;

/// Returns the key of a survey, which has height 5 and is made from zeros. Anyone can sign with it, so it must only
/// be used for surveys.
pub fn survey_key(alloc: Global) -> Result<Key, NoMemory>
    ensures { IfOk result (λ key. key ≡ survey_key) }
{
    match Key::build(alloc, 5, &[0; 16], &[0; 32]) {
        Ok(key) => Ok(key),
        Err(KeyError::Memory(none)) => Err(none),
        Err(KeyError::Kind) => unreachable!(),
    }
}

/// Signs the publication of parts and settings with slot 0 of the survey's key.
fn sign(
    alloc: Global,
    key: &Key,
    parts: Parts,
    settings: &Settings,
) -> Result<Publication, BuildError>
    requires { key.now ≡ survey_key }
    ensures signed { IfOk result (IsSurveyed parts settings.now) }
    ensures refused { IfErr result (λ e. Makes sha256 sha256 parts settings.now (Err e)) }
{
    range_laws();
    let Headed { header, parts } = make_signable::<Sha>(alloc, parts, settings)?;
    let mut signature = [0; 1292];
    key.sign_into(0, &header.write(), &mut signature);
    let signature = copied(alloc, &signature)?;
    Ok(Publication {
        header,
        signature: Octets::from_vec(signature),
        settings: *settings,
        parts,
    })
}

/// Signs the publication of a grid with slot 0 of the survey's key. No key on a disk is used, and the signature
/// stays in memory.
pub fn sign_grid(
    alloc: Global,
    key: &Key,
    width: u32,
    seed: u64,
    settings: &Settings,
) -> Result<Publication, SurveyError>
    requires key { key.now ≡ survey_key }
    requires wide { 2 ≤ width }
    requires narrow { width ≤ 256 }
    ensures signed { IfOk result (IsSurveyed (grid_of width seed) settings.now) }
    ensures refused { IfErr result (WhyNoSurvey (grid_of width seed) settings.now) }
{
    map_laws();
    grid_laws();
    let parts = match grid_roads(alloc, width, seed) {
        Ok(parts) => parts,
        Err(GridError::Memory(none)) => return Err(SurveyError::Memory(none)),
        Err(GridError::Width) => unreachable!(),
    };
    match sign(alloc, key, parts, settings) {
        Ok(publication) => Ok(publication),
        Err(BuildError::Plan(fault)) => Err(SurveyError::Plan(fault)),
        Err(BuildError::Memory(none)) => Err(SurveyError::Memory(none)),
        Err(BuildError::Map(_)) => unreachable!(),
    }
}

/// Returns a hasher that has taken the publication's octets.
pub fn hash_publication(alloc: Global, signed: &Publication) -> Result<Sha, NoMemory>
    requires { publication.Fits signed.now }
    ensures { IfOk result (λ hasher. HoldsText hasher (publication_text signed.now)) }
{
    let text = signed.write(alloc)?;
    let mut hasher = Sha::start();
    hasher.add(&text);
    Ok(hasher)
}

/// Installs a publication whose header is that of its book.
pub fn install(alloc: Global, publication: Publication) -> Result<Held<Sha>, NoMemory>
    requires { HasHeader sha256 sha256 publication.parts publication.settings publication.header }
    ensures { IfOk result (λ held. publication_in sha256 held ≡ publication) }
{
    server_laws();
    match Held::<Sha>::install(alloc, publication) {
        Ok(held) => Ok(held),
        Err(InstallError::Memory(none)) => Err(none),
        Err(InstallError::Build(_)) => unreachable!(),
        Err(InstallError::HeaderWrong) => unreachable!(),
    }
}
