//! Why an audit has no finding.

use key_desk::DeskError;
use octet_text::NoMemory;
use route_server::InstallError;
use std::fmt::Display;
use thiserror::Error;

/// Why an audit has no finding. `E` is the type of the reasons for which a client refuses replies of this kind. Out
/// of memory is always `Memory` and never part of another error.
#[derive(Clone, Copy, Debug, PartialEq, Eq, Error)]
#[error_bound(E: Display)]
pub enum AuditError<E> {
    /// The public key does not belong to the desk.
    #[error("The public key is none of the desk's.")]
    OtherKey,
    /// The client does not accept the reply, for this reason.
    #[error("The reply is refused. {0}")]
    Refused(E),
    /// The publication was not installed, for this reason.
    #[error("{0}")]
    Install(InstallError),
    /// The desk could not tell what it has signed, for this reason.
    #[error("{0}")]
    Desk(DeskError),
    /// The reply's header is signed, but differs from that of the publication.
    #[error("The reply is of another publication.")]
    OtherPublication,
    /// Out of memory.
    #[error("Out of memory.")]
    Memory(NoMemory),
}
