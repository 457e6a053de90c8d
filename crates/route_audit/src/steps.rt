//! The steps of an audit that all kinds of replies share.
ghost use Rattle.std.specs.Prelude.{IfOk, IfErr, Ok};
ghost use Rattle.sha2.specs.Sha256.{sha256};
ghost use Rattle.route_server.specs.Installing.{Installs};
ghost use Rattle.route_server.specs.Keeping.{HasSpellings};
ghost use Rattle.route_audit.specs.Steps.{IsNotInstalled};

use crate::AuditError;
use octet_text::Hasher;
use proof_octets::Publication;
use route_server::{Held, InstallError};
use std::alloc::Global;

/// Returns the book of a publication.
pub(crate) fn install<H: Hasher, E: Copy>(
    alloc: Global,
    publication: Publication,
) -> Result<Held<H>, AuditError<E>>
    ensures installed { IfOk result (λ held. Installs H.hash sha256 publication (Ok held)) }
    ensures spelled { IfOk result HasSpellings }
    ensures refused { IfErr result (IsNotInstalled H.hash sha256 publication) }
{
    match Held::install(alloc, publication) {
        Ok(held) => Ok(held),
        Err(InstallError::Memory(none)) => Err(AuditError::Memory(none)),
        Err(refusal) => Err(AuditError::Install(refusal)),
    }
}
