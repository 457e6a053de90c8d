//! Installing a publication.

ghost use Rattle.std.specs.Prelude.{◌≡◌, IfOk, IfErr, OnOk};
ghost use Rattle.sha2.specs.Sha256.{sha256};
ghost use Rattle.route_server.specs.Keeping.{publication_in};
ghost use Rattle.command_files.specs.Endings.{WhyNot, NoDisk, NoEnd};
ghost use Rattle.command_books.specs.Installing.{EndsInstalling, IsInstallable, fault_of_build};

use command_files::Fault;
use octet_text::Sha;
use proof_octets::Publication;
use route_server::{BuildError, Held, InstallError};
use std::alloc::Global;

/// Builds the book of a publication. Fails if the publication's header is not that of the book.
pub fn install(alloc: Global, publication: Publication) -> Result<Held<Sha>, Fault>
    ensures held { IfOk result (λ held. publication_in sha256 held ≡ publication) }
    ensures installable { OnOk result (IsInstallable publication) }
    ensures refused { IfErr result (WhyNot NoDisk (EndsInstalling publication NoEnd)) }
{
    match Held::<Sha>::install(alloc, publication) {
        Ok(held) => Ok(held),
        Err(InstallError::Build(fault)) => Err(not_built(fault)),
        Err(InstallError::HeaderWrong) => Err(Fault::HeaderWrong),
        Err(InstallError::Memory(none)) => Err(Fault::Memory(none)),
    }
}

/// Converts the reason why there is no book into the fault of a run.
pub fn not_built(fault: BuildError) -> Fault
    ensures { result ≡ fault_of_build fault }
{
    match fault {
        BuildError::Map(fault) => Fault::Map(fault),
        BuildError::Plan(fault) => Fault::Plan(fault),
        BuildError::Memory(none) => Fault::Memory(none),
    }
}
